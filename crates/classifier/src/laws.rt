//! Laws of classes and of cutting.
ghost use Rattle.std.specs.Prelude.{◌≡◌, ◌↔◌, ◌<◌, ℕ, ◌+◌, ◌++◌, List, [], ◌∷◌, Option, Some, None, All, true, false, if◌then◌else◌, length, map, slice_index_or};
ghost use Rattle.frame_seen.specs.Seeing.{seen_of};
ghost use Rattle.capture_bytes.specs.declared.packet.PcapRecord.{PcapRecord};
ghost use Rattle.policy_text.specs.Meeting.{is_fitting};
ghost use Rattle.policy_text.specs.declared.clause.Match.{Match};
ghost use Rattle.classifier.specs.Classes.{class_of};
ghost use Rattle.classifier.specs.Cutting.{IsCut, bursts_from, is_full, numbered, rest_from, unnumbered};
ghost use Rattle.classifier.specs.declared.burst.Item.{Item};

/// A law: the packet meets the clauses of the chain that takes it, and those of no chain before. No chain takes a
/// packet exactly if the packet meets the clauses of none.
pub fn class_is_the_first()
    ensures within { (fits : List Match) → (frame : List ℕ) → (c : ℕ) → class_of fits frame ≡ Some c → c < length fits }
    ensures met { (fits : List Match) → (frame : List ℕ) → (c : ℕ) → (d : Match) → class_of fits frame ≡ Some c → is_fitting (slice_index_or fits c d) (seen_of frame) ≡ true }
    ensures first { (fits : List Match) → (frame : List ℕ) → (c k : ℕ) → (d : Match) → class_of fits frame ≡ Some c → k < c → is_fitting (slice_index_or fits k d) (seen_of frame) ≡ false }
    ensures none { (fits : List Match) → (frame : List ℕ) → (class_of fits frame ≡ None) ↔ All (λ fit. is_fitting fit (seen_of frame) ≡ false) fits }
{}

/// A law: the bursts in a row, followed by the open one, are the packets in a row. Each burst was closed by its last
/// packet, and the open one isn't full. There is no other way to cut like this.
pub fn bursts_are_the_packets_in_a_row()
    ensures is_cut { (limit : ℕ) → (items : List Item) → 0 < limit → IsCut limit items (bursts_from limit [] items) (rest_from limit [] items) }
    ensures only_bursts { (limit : ℕ) → (items : List Item) → (bursts : List (List Item)) → (rest : List Item) → IsCut limit items bursts rest → bursts ≡ bursts_from limit [] items }
    ensures only_rest { (limit : ℕ) → (items : List Item) → (bursts : List (List Item)) → (rest : List Item) → IsCut limit items bursts rest → rest ≡ rest_from limit [] items }
{}

/// A law: numbering doesn't change the packets, their classes and their order, and the packet after k others has the
/// number of the first plus k.
pub fn numbered_in_order()
    ensures packets { (first : ℕ) → (packets : List (PcapRecord × Option ℕ)) → map unnumbered (numbered first packets) ≡ packets }
    ensures numbers { (first : ℕ) → (packets : List (PcapRecord × Option ℕ)) → (k : ℕ) → (d : Item) → k < length packets → (slice_index_or (numbered first packets) k d).number ≡ first + k }
    ensures more { (first : ℕ) → (packets more : List (PcapRecord × Option ℕ)) → numbered first (packets ++ more) ≡ numbered first packets ++ numbered (first + length packets) more }
{}

/// A law: cutting goes on from the open burst that was left, and one packet is cut as a cutter does it.
pub fn cutting_goes_on()
    ensures bursts { (limit : ℕ) → (held items more : List Item) → bursts_from limit held (items ++ more) ≡ bursts_from limit held items ++ bursts_from limit (rest_from limit held items) more }
    ensures rest { (limit : ℕ) → (held items more : List Item) → rest_from limit held (items ++ more) ≡ rest_from limit (rest_from limit held items) more }
    ensures one_burst { (limit : ℕ) → (held : List Item) → (i : Item) → bursts_from limit held (i ∷ []) ≡ (if is_full limit (held ++ i ∷ []) then (held ++ i ∷ []) ∷ [] else []) }
    ensures one_rest { (limit : ℕ) → (held : List Item) → (i : Item) → rest_from limit held (i ∷ []) ≡ (if is_full limit (held ++ i ∷ []) then [] else held ++ i ∷ []) }
{}
