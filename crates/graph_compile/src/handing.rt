//! How a stage passes on the fields.

ghost use Rattle.std.specs.Prelude.{◌≡◌, ◌==◌, ◌<◌, ◌≤◌, ◌^◌, ◌↔◌, IsTrue, IfOk, length, count_by, position};
ghost use Rattle.std.specs.List.{list_any};
ghost use Rattle.action_profile.specs.Modes.{has_write, has_touch, only_reads, mode_of, modes_of};
ghost use Rattle.graph_compile.specs.Parts.{touches_of, stage_parts};

use crate::graph::Branch;
use crate::touching::touch_of;
use action_profile::{Mode, Profile, StageParts, Touch};
use item_list::Items;
use packet_fields::Field;
use std::alloc::{AllocError, Global};

/// The parts of a stage with these branches: what each branch reads and writes, and whether each field is shared, moved
/// or copied. The positions are those of a chain with these profiles, in chain order. The only error is that memory
/// runs out.
#[tactic(auto, unfolding(crate::specs::Parts::stage_parts))]
pub fn parts(
    alloc: Global,
    branches: &[Branch],
    profiles: &[Profile],
) -> Result<StageParts, AllocError>
    requires { length branches.now < 2 ^ 32 }
    ensures { IfOk result (λ parts. parts ≡ stage_parts profiles.now branches.now) }
{
    let touches = touches_of(alloc, profiles, branches)?;
    Ok(StageParts {
        modes: modes_of(&touches),
        touches: Items::new(touches),
    })
}

fn touches_of(
    alloc: Global,
    profiles: &[Profile],
    branches: &[Branch],
) -> Result<Vec<Touch>, AllocError>
    ensures { IfOk result (λ touches. touches.items ≡ touches_of profiles.now branches.now) }
{
    branches
        .iter()
        .map(|branch| touch_of(profiles, branch))
        .collect(alloc)
}

fn modes_of(touches: &[Touch]) -> [Mode; 10]
    requires { length touches.now < 2 ^ 32 }
    ensures { result ≡ modes_of touches.now }
{
    [
        mode_of(touches, Field::LinkDst),
        mode_of(touches, Field::LinkSrc),
        mode_of(touches, Field::Tag),
        mode_of(touches, Field::Tos),
        mode_of(touches, Field::Ttl),
        mode_of(touches, Field::SrcIp),
        mode_of(touches, Field::DstIp),
        mode_of(touches, Field::SrcPort),
        mode_of(touches, Field::DstPort),
        mode_of(touches, Field::Payload),
    ]
}

#[tactic(auto, unfolding(action_profile::specs::Modes::mode_of))]
fn mode_of(touches: &[Touch], field: Field) -> Mode
    requires { length touches.now < 2 ^ 32 }
    ensures { result ≡ mode_of touches.now field }
{
    match first_writer(touches, field) {
        None => Mode::Shared,
        Some(first) if is_alone(touches, field) => Mode::Moved(first as u32),
        Some(_) if some_only_reads(touches, field) => Mode::Copied { original: None },
        Some(first) => Mode::Copied {
            original: Some(first as u32),
        },
    }
}

/// The first branch that writes the field.
pub(crate) fn first_writer(touches: &[Touch], field: Field) -> Option<usize>
    ensures { result ≡ position (has_write field) touches.now }
{
    touches.iter().position(|touch| touch.writes.has(field))
}

/// Does one branch alone touch the field?
pub(crate) fn is_alone(touches: &[Touch], field: Field) -> bool
    ensures { result ≡ (count_by (has_touch field) touches.now == 1) }
{
    let touching = touches
        .iter()
        .filter(|touch| touch.reads.has(field) || touch.writes.has(field));
    touching.count() == 1
}

/// Is there a branch that reads the field and doesn't write it?
pub(crate) fn some_only_reads(touches: &[Touch], field: Field) -> bool
    ensures { result ≡ list_any (only_reads field) touches.now }
{
    touches
        .iter()
        .any(|touch| touch.reads.has(field) && !touch.writes.has(field))
}
