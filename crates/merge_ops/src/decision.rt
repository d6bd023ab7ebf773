//! What becomes of a packet after a stage.

ghost use Rattle.std.specs.Prelude.{◌≡◌, ◌<◌, ◌^◌, length};
ghost use Rattle.std.specs.List.{list_any};
ghost use Rattle.merge_ops.specs.Merging.{is_short, least_nil as least_nil_of, greatest_writer as greatest_writer_of, last_writer as last_writer_of, op_of as op_for, decision_of};

use crate::arrival::Arrival;
use action_profile::FieldSet;
use packet_fields::Field;

/// What to do with a field: keep the packet's own part, or take the part of a branch. Branches are counted
/// from 0.
#[derive(Clone, Copy, Debug, PartialEq, Eq)]
pub enum MergeOp {
    /// No branch wrote the field.
    Keep,
    /// This branch wrote it last.
    Modify(u32),
    /// This branch changed the list of tags last.
    SetTags(u32),
}

/// What becomes of the packet.
#[derive(Clone, Copy, Debug)]
pub enum Decision {
    /// It goes on, with an operation for each field, in the fields' order.
    Take([MergeOp; 10]),
    /// The function at this chain position dropped it.
    Gone(u32),
    /// A worker ran out of memory for it or for an earlier packet.
    Short,
}

/// Decides what becomes of a packet. `arrivals` came from the branches of a stage, in branch order.
///
/// If a worker ran out of memory, the packet is short. Otherwise, if it was dropped, it is gone at the least chain
/// position of the functions that dropped it. Otherwise each field is taken from the branch with the greatest writer,
/// or kept if nobody wrote it.
#[tactic(auto, unfolding(crate::specs::Merging::decision_of))]
pub fn decide(arrivals: &[Arrival]) -> Decision
    requires few { length arrivals.now < 2 ^ 32 }
    ensures { result ≡ decision_of arrivals.now }
{
    if some_is_short(arrivals) {
        return Decision::Short;
    }
    match least_nil(arrivals) {
        Some(position) => Decision::Gone(position),
        None => Decision::Take(ops_of(arrivals)),
    }
}

fn some_is_short(arrivals: &[Arrival]) -> bool
    ensures { result ≡ list_any is_short arrivals.now }
{
    arrivals.iter().any(|arrival| arrival.is_short())
}

/// The least chain position at which the packet was dropped.
fn least_nil(arrivals: &[Arrival]) -> Option<u32>
    ensures { result ≡ least_nil_of arrivals.now }
{
    let mut least = None;
    for arrival in arrivals {
        least = lesser(least, arrival.dropped_at());
    }
    least
}

ghost use Rattle.merge_ops.specs.Merging.{lesser as lesser_of};

/// The lesser of two positions, or the one that is there.
fn lesser(first: Option<u32>, second: Option<u32>) -> Option<u32>
    ensures { result ≡ lesser_of first second }
{
    match first {
        None => second,
        Some(one) => match second {
            None => Some(one),
            Some(other) => Some(one.min(other)),
        },
    }
}

ghost use Rattle.std.specs.Prelude.{map, false};
ghost use Rattle.packet_fields.specs.declared.field.Field.{Field};
ghost use Rattle.action_profile.specs.FieldSets.{all_fields, has};
ghost use Rattle.merge_ops.specs.Taking.{writes_in};

fn ops_of(arrivals: &[Arrival]) -> [MergeOp; 10]
    requires { length arrivals.now < 2 ^ 32 }
    ensures { result ≡ map (op_for arrivals.now) all_fields }
{
    let writable = writable_in(arrivals);
    [
        op_of(arrivals, writable, Field::LinkDst),
        op_of(arrivals, writable, Field::LinkSrc),
        op_of(arrivals, writable, Field::Tag),
        op_of(arrivals, writable, Field::Tos),
        op_of(arrivals, writable, Field::Ttl),
        op_of(arrivals, writable, Field::SrcIp),
        op_of(arrivals, writable, Field::DstIp),
        op_of(arrivals, writable, Field::SrcPort),
        op_of(arrivals, writable, Field::DstPort),
        op_of(arrivals, writable, Field::Payload),
    ]
}

/// The fields that some branch writes. All others are unwritten.
pub(crate) fn writable_in(arrivals: &[Arrival]) -> FieldSet
    ensures fields { (f : Field) → has result f ≡ list_any (writes_in f) arrivals.now }
    ensures unwritten { (f : Field) → has result f ≡ false → greatest_writer_of arrivals.now f ≡ 0 }
{
    let mut fields = FieldSet::NONE;
    for arrival in arrivals {
        arrival.wrote_its_own();
        fields = fields.with(arrival.writable());
    }
    fields
}

/// What to do with a field. A field that isn't writable is unwritten.
fn op_of(arrivals: &[Arrival], writable: FieldSet, field: Field) -> MergeOp
    requires few { length arrivals.now < 2 ^ 32 }
    requires unwritten { has writable field ≡ false → greatest_writer_of arrivals.now field ≡ 0 }
    ensures { result ≡ op_for arrivals.now field }
{
    if !writable.has(field) {
        return MergeOp::Keep;
    }
    match last_writer(arrivals, field) {
        None => MergeOp::Keep,
        Some(branch) => match field {
            Field::Tag => MergeOp::SetTags(branch as u32),
            _ => MergeOp::Modify(branch as u32),
        },
    }
}

ghost use Rattle.std.specs.Prelude.{IfSome, position, ◌==◌};
ghost use Rattle.merge_ops.specs.Merging.{writer_of};

/// The branch that wrote the field last.
#[tactic(auto, unfolding(crate::specs::Merging::last_writer))]
fn last_writer(arrivals: &[Arrival], field: Field) -> Option<usize>
    ensures branch { result ≡ last_writer_of arrivals.now field }
    ensures within { IfSome result (λ branch. branch < length arrivals.now) }
{
    let greatest = greatest_writer(arrivals, field);
    if greatest == 0 {
        return None;
    }
    first_by(arrivals, field, greatest)
}

/// The first branch in which this function wrote the field last.
fn first_by(arrivals: &[Arrival], field: Field, writer: u32) -> Option<usize>
    ensures branch { result ≡ position (λ a. writer_of field a == writer) arrivals.now }
    ensures within { IfSome result (λ branch. branch < length arrivals.now) }
{
    arrivals
        .iter()
        .position(|arrival| arrival.writer(field) == writer)
}

/// The greatest writer of a field, 0 if nobody wrote it.
fn greatest_writer(arrivals: &[Arrival], field: Field) -> u32
    ensures { result ≡ greatest_writer_of arrivals.now field }
{
    let mut greatest = 0;
    for arrival in arrivals {
        greatest = greatest.max(arrival.writer(field));
    }
    greatest
}
