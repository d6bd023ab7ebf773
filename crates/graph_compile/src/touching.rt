//! What functions and branches read and write.

ghost use Rattle.std.specs.Prelude.{◌≡◌};
ghost use Rattle.graph_compile.specs.Parts.{profile_at, reads_at, writes_at, branch_reads, branch_writes, touch_of};

use crate::graph::Branch;
use action_profile::{FieldSet, Profile, Touch, all_fields};
use packet_fields::Field;

/// The profile of the function at a position, which counts from 1.
pub(crate) fn profile_at(profiles: &[Profile], position: usize) -> Option<Profile>
    ensures { result ≡ profile_at profiles.now position }
{
    profiles.get(position.saturating_sub(1)).copied()
}

/// What the functions of a branch read and write, in all.
#[tactic(auto, unfolding(crate::specs::Parts::touch_of))]
pub(crate) fn touch_of(profiles: &[Profile], branch: &Branch) -> Touch
    ensures { result ≡ touch_of profiles.now branch.now }
{
    let mut reads = FieldSet::NONE;
    let mut writes = FieldSet::NONE;
    'fields: for field in all_fields() {
        if branch_reads(profiles, branch, *field) {
            reads = reads.with(FieldSet::of(*field));
        }
        if branch_writes(profiles, branch, *field) {
            writes = writes.with(FieldSet::of(*field));
        }
    }
    Touch { reads, writes }
}

#[tactic(auto, unfolding(crate::specs::Parts::branch_reads))]
fn branch_reads(profiles: &[Profile], branch: &Branch, field: Field) -> bool
    ensures { result ≡ branch_reads profiles.now branch.now field }
{
    let positions = branch.positions.as_slice();
    positions.iter().any(|p| reads_at(profiles, field, *p))
}

#[tactic(auto, unfolding(crate::specs::Parts::branch_writes))]
fn branch_writes(profiles: &[Profile], branch: &Branch, field: Field) -> bool
    ensures { result ≡ branch_writes profiles.now branch.now field }
{
    let positions = branch.positions.as_slice();
    positions.iter().any(|p| writes_at(profiles, field, *p))
}

fn reads_at(profiles: &[Profile], field: Field, position: u32) -> bool
    ensures { result ≡ reads_at profiles.now field position }
{
    match profile_at(profiles, position as usize) {
        Some(profile) => profile.reads_field(field),
        None => false,
    }
}

fn writes_at(profiles: &[Profile], field: Field, position: u32) -> bool
    ensures { result ≡ writes_at profiles.now field position }
{
    match profile_at(profiles, position as usize) {
        Some(profile) => profile.writes_field(field),
        None => false,
    }
}
