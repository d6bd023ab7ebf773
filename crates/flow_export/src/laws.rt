//! A property of all export packets together, stated without their definition.
ghost use Rattle.std.specs.Prelude.{◌≡◌, ◌≤◌, ◌<◌, ◌+◌, ℕ, List, length};
ghost use Rattle.flow_line.specs.declared.line.FlowLine.{FlowLine};
ghost use Rattle.flow_export.specs.declared.span.Span5.{Span5};
ghost use Rattle.flow_export.specs.Collecting.{carried_by, carried_in, header_in, packets_of};
ghost use Rattle.flow_export.specs.Exports.{exported};

/// The packets carry the record of each line of IPv4 once, in the order of the lines, and no other. Each packet except
/// the last has thirty records, and none is empty. The sequence number of each is the sum of the counts of the packets
/// before, by which a collector sees that none is lost.
#[tactic(auto, using(crate::proofs::Carrying::all_carried, crate::proofs::Carrying::counts_before, crate::proofs::Carrying::thirty_each, crate::proofs::Carrying::last_has_some, crate::proofs::Carrying::thirty_at_most))]
pub fn packets_carry_each_line_once()
    ensures carried { (lines : List FlowLine) → carried_in lines (packets_of lines) ≡ exported lines }
    ensures sequence { (span : Span5) (lines : List FlowLine) (number : ℕ) → number < packets_of lines → (header_in span lines number).flow_sequence ≡ length (carried_in lines number) }
    ensures full { (span : Span5) (lines : List FlowLine) (number : ℕ) → number + 1 < packets_of lines → (header_in span lines number).count ≡ 30 }
    ensures last { (span : Span5) (lines : List FlowLine) (number : ℕ) → number + 1 ≡ packets_of lines → 0 < (header_in span lines number).count }
    ensures most { (span : Span5) (lines : List FlowLine) (number : ℕ) → (header_in span lines number).count ≤ 30 }
{}
