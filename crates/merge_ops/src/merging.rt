//! How a packet is put together after a stage.

ghost use Rattle.std.specs.Prelude.{◌≡◌, ◌≢◌, ◌<◌, ◌^◌, None, [], length, map, position, true, false};
ghost use Rattle.packet_fields.specs.declared.field.Field.{Field};
ghost use Rattle.action_profile.specs.FieldSets.{all_fields as every_field, has};
ghost use Rattle.packet_version.specs.Parts.{as_list, changed};
ghost use Rattle.packet_version.specs.Parts.{AreTags};
ghost use Rattle.packet_version.specs.Splitting.{packet_parts};
ghost use Rattle.merge_ops.specs.Merging.{op_of, writer_of};
ghost use Rattle.merge_ops.specs.Taking.{branch_of, source as source_of, part_behind, merged_parts, with_parts, writes_in, arrival_at, merged, IsWriting, IsWritten, SameIn};
ghost use Rattle.merge_ops.specs.Behind.{AreArrivals};

use crate::arrival::Arrival;
use crate::decision::{Decision, MergeOp, decide, writable_in};
use action_profile::{FieldSet, all_fields};
use packet_fields::Field;
use packet_version::{Apart, Base, Gathered};
use std::sync::Wait;

/// What became of a packet.
#[derive(Drop)]
pub enum Merged {
    /// It goes on.
    Whole(Apart),
    /// The function at this chain position dropped it.
    Gone(u32),
    /// A worker ran out of memory for it or for an earlier packet.
    Short,
}

/// Puts a packet together again after a stage, from its base and what each branch of the stage returned, in branch
/// order. It takes the lent parts back, empties the list, and allocates nothing.
///
/// The outcome is that of [`decide`]. A packet that goes on has in each field the part that was written last, or its
/// own if nobody wrote it, and the rest and the fixed values of the base.
pub fn merge<R: Wait>(rt: &R, base: Base, arrivals: &mut Vec<Arrival>) -> Merged
    requires few { length arrivals.old.items < 2 ^ 32 }
    requires arrivals { AreArrivals base arrivals.old.items }
    ensures merged { result ≡ merged base arrivals.old.items }
    ensures emptied { arrivals.new.items ≡ [] }
{
    let mut gathered = base.gather(rt);
    let merged = match decide(arrivals) {
        Decision::Short => Merged::Short,
        Decision::Gone(position) => Merged::Gone(position),
        Decision::Take(ops) => {
            put_parts(&mut gathered, arrivals, &ops);
            Merged::Whole(gathered.finish())
        }
    };
    arrivals.clear();
    merged
}

/// Puts the part of each field in.
fn put_parts(gathered: &mut Gathered, arrivals: &mut [Arrival], ops: &[MergeOp; 10])
    requires listed { gathered.old.parts ≡ as_list (packet_parts gathered.old) }
    requires ops { ops.now ≡ map (op_of arrivals.old) every_field }
    ensures parts { gathered.new ≡ with_parts gathered.old (merged_parts gathered.old arrivals.old) }
    ensures tags { AreTags (packet_parts gathered.old Field.Tag) → AreTags (packet_parts gathered.new Field.Tag) }
{
    let writable = writable_in(arrivals);
    if writable == FieldSet::NONE {
        return;
    }
    for field in all_fields() {
        put_part(gathered, arrivals, writable, *field, ops[field.number()]);
    }
}

/// Puts the part of a field in, if a branch has it. No branch has the part of a field that isn't writable.
fn put_part(
    gathered: &mut Gathered,
    arrivals: &mut [Arrival],
    writable: FieldSet,
    field: Field,
    op: MergeOp,
)
    requires unwritten { has writable field ≡ false → position (writes_in field) arrivals.old ≡ None }
    requires listed { gathered.old.parts ≡ as_list (packet_parts gathered.old) }
    requires written { IsWritten field arrivals.old (branch_of op) }
    ensures part { gathered.new ≡ with_parts gathered.old (changed field (part_behind field arrivals.old (branch_of op) (packet_parts gathered.old field)) (packet_parts gathered.old)) }
    ensures tags { AreTags (packet_parts gathered.old Field.Tag) → AreTags (packet_parts gathered.new Field.Tag) }
    ensures others { (f : Field) → f ≢ field → SameIn f arrivals.old arrivals.new }
{
    let Some(branch) = source(gathered, arrivals, writable, field, op) else {
        return;
    };
    if let Some(part) = arrivals[branch].take(field) {
        gathered.put(field, part);
    }
}

/// The branch from which the part of a field is taken.
fn source(
    gathered: &Gathered,
    arrivals: &[Arrival],
    writable: FieldSet,
    field: Field,
    op: MergeOp,
) -> Option<usize>
    requires unwritten { has writable field ≡ false → position (writes_in field) arrivals.now ≡ None }
    requires written { IsWritten field arrivals.now (branch_of op) }
    ensures branch { result ≡ source_of field arrivals.now (branch_of op) (packet_parts gathered.now field) }
    ensures writing { IsWriting field arrivals.now result }
{
    match op {
        MergeOp::Modify(branch) => Some(writing(arrivals, field, branch)),
        MergeOp::SetTags(branch) => Some(writing(arrivals, field, branch)),
        MergeOp::Keep => {
            if !writable.has(field) || gathered.has(field) {
                return None;
            }
            first_writing(arrivals, field)
        }
    }
}

/// The index of a branch that wrote the field, and so may write it.
fn writing(arrivals: &[Arrival], field: Field, branch: u32) -> usize
    requires within { branch < length arrivals.now }
    requires wrote { 0 < writer_of field (arrival_at arrivals.now branch) }
    ensures branch { result ≡ branch }
    ensures writes { writes_in field (arrival_at arrivals.now branch) ≡ true }
{
    let branch = branch as usize;
    arrivals[branch].wrote_its_own();
    branch
}

/// The first branch that writes the field.
fn first_writing(arrivals: &[Arrival], field: Field) -> Option<usize>
    ensures branch { result ≡ position (writes_in field) arrivals.now }
    ensures writing { IsWriting field arrivals.now result }
{
    arrivals.iter().position(|arrival| arrival.writes(field))
}
