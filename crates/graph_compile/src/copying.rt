//! The number of copies that a stage makes.

ghost use Rattle.std.specs.Prelude.{◌≡◌, ◌≤◌, length, count_by};
ghost use Rattle.action_profile.specs.Modes.{has_write, copies};
ghost use Rattle.graph_compile.specs.InARow.{copies_nothing, stage_copies_nothing};

use crate::graph::{Graph, Stage};
use crate::handing::some_only_reads;
use action_profile::{Mode, StageParts, Touch, all_fields};
use packet_fields::Field;

/// The number of copies of the field that a stage makes for each packet that has it. Allocates nothing.
///
/// A field that is shared or moved isn't copied. If it is copied, each branch that writes it has a copy of its own; if
/// no branch only reads it, the first writer has the original instead of a copy.
#[tactic(auto, unfolding(action_profile::specs::Modes::copies))]
pub fn copies(parts: &StageParts, field: Field) -> usize
    ensures { result ≡ copies parts.now field }
{
    let touches = parts.touches.as_slice();
    match parts.modes[field.number()] {
        Mode::Copied { .. } if some_only_reads(touches, field) => writers(touches, field),
        Mode::Copied { .. } => writers(touches, field).saturating_sub(1),
        _ => 0,
    }
}

fn writers(touches: &[Touch], field: Field) -> usize
    ensures { result ≡ count_by (has_write field) touches.now }
{
    touches.iter().filter(|t| t.writes.has(field)).count()
}

/// Does no stage copy a field of a packet? Allocates nothing.
pub fn copies_nothing(graph: &Graph) -> bool
    ensures { result ≡ copies_nothing graph.now.stages }
{
    graph.stages.as_slice().iter().all(stage_copies_nothing)
}

fn stage_copies_nothing(stage: &Stage) -> bool
    ensures { result ≡ stage_copies_nothing stage.now }
{
    all_fields()
        .iter()
        .all(|field| copies(&stage.parts, *field) == 0)
}
