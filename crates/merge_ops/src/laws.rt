//! Laws of merging, for the crates above.
ghost use Rattle.std.specs.Prelude.{◌≡◌, ◌≢◌, ◌<◌, ◌≤◌, ℕ, List, None, Some, length, map, true};
ghost use Rattle.packet_fields.specs.declared.field.Field.{Field};
ghost use Rattle.action_profile.specs.FieldSets.{all_fields};
ghost use Rattle.action_profile.specs.declared.parts.Touch.{Touch};
ghost use Rattle.packet_version.specs.Dealing.{dealt, based};
ghost use Rattle.packet_version.specs.Parts.{PlainPart, values_of};
ghost use Rattle.packet_version.specs.Splitting.{PlainApart, IsWhole, joined, packet_parts};
ghost use Rattle.action_profile.specs.Modes.{has_write};
ghost use Rattle.packet_version.specs.Versions.{PlainVersion, with_part, version_parts};
ghost use Rattle.merge_ops.specs.declared.arrival.Arrival.{Arrival};
ghost use Rattle.merge_ops.specs.declared.decision.MergeOp.{MergeOp};
ghost use Rattle.merge_ops.specs.declared.decision.MergeOp.TheVariants.{Keep};
ghost use Rattle.merge_ops.specs.declared.decision.Decision.TheVariants.{Take};
ghost use Rattle.merge_ops.specs.Merging.{writer_of, last_writer, decision_of};
ghost use Rattle.merge_ops.specs.Taking.{arrival_at, merged_packet};
ghost use Rattle.merge_ops.specs.Behind.{IsMadeOf, AreFrom, value_behind, dealt_arrivals};

/// The branch that wrote a field last is the one with the greatest writer; there is none exactly if
/// every writer is 0.
pub fn last_writer_is_greatest()
    ensures greatest { (arrivals : List Arrival) (f : Field) (branch other : ℕ) → last_writer arrivals f ≡ Some branch → writer_of f (arrival_at arrivals other) ≤ writer_of f (arrival_at arrivals branch) }
    ensures wrote { (arrivals : List Arrival) (f : Field) (branch : ℕ) → last_writer arrivals f ≡ Some branch → (branch < length arrivals) × (0 < writer_of f (arrival_at arrivals branch)) }
    ensures unwritten { (arrivals : List Arrival) (f : Field) (branch : ℕ) → last_writer arrivals f ≡ None → writer_of f (arrival_at arrivals branch) ≡ 0 }
{}

/// A packet that goes on has in each field the value that was written last, or its own if nobody wrote it, and its own
/// rest and fixed values.
pub fn merged_is_written_last()
    ensures values { (whole : PlainApart) (touches : List Touch) (base : PlainApart) (arrivals : List Arrival) (ops : List MergeOp) (f : Field) → AreFrom whole touches base arrivals → decision_of arrivals ≡ Take ops → values_of (packet_parts (merged_packet base arrivals)) f ≡ value_behind whole arrivals f }
    ensures rest { (whole : PlainApart) (touches : List Touch) (base : PlainApart) (arrivals : List Arrival) → AreFrom whole touches base arrivals → (merged_packet base arrivals).rest ≡ whole.rest }
    ensures fixed { (whole : PlainApart) (touches : List Touch) (base : PlainApart) (arrivals : List Arrival) → AreFrom whole touches base arrivals → (merged_packet base arrivals).fixed ≡ whole.fixed }
{}

/// The versions that branches get, unwritten, are arrivals of their base.
pub fn dealt_are_arrivals()
    ensures { (whole : PlainApart) (touches : List Touch) → IsWhole (packet_parts whole) whole.rest → AreFrom whole touches (based touches whole) (dealt_arrivals whole touches) }
{}

/// The version that a branch gets is one that it may have made. So is one in which it then wrote a field that is there:
/// by any function, and with the same length unless it is the list of tags. A field that the packet lacks stays absent.
pub fn written_is_made()
    ensures dealt { (whole : PlainApart) (touch : Touch) → IsMadeOf whole touch (dealt whole touch) }
    ensures written { (whole : PlainApart) (touch : Touch) (version : PlainVersion) (f : Field) (old new : PlainPart) → IsMadeOf whole touch version → has_write f touch ≡ true → version_parts version f ≡ Some old → 1 ≤ new.writer → (f ≢ Field.Tag → length new.bytes ≡ length old.bytes) → IsMadeOf whole touch (with_part f (Some new) version) }
    ensures absent { (whole : PlainApart) (touch : Touch) (version : PlainVersion) (f : Field) → IsMadeOf whole touch version → version_parts version f ≡ None → IsMadeOf whole touch (with_part f None version) }
{}

/// A packet that was dealt and that nobody wrote goes on as the same frame.
pub fn unwritten_is_same()
    ensures kept { (whole : PlainApart) (touches : List Touch) → decision_of (dealt_arrivals whole touches) ≡ Take (map (λ f. Keep) all_fields) }
    ensures same { (whole : PlainApart) (touches : List Touch) → IsWhole (packet_parts whole) whole.rest → joined (merged_packet (based touches whole) (dealt_arrivals whole touches)) ≡ joined whole }
{}
