//! What a checksum is worth.
ghost use Rattle.internet_checksum.specs.Laws.{ChecksumsAreRight};

/// Bytes that hold their own checksum at an even place are right: their sum in one's complement is all ones. The one
/// exception is bytes that are all 0 otherwise.
#[tactic(auto, using(crate::proofs::Complements::right_with_checksum))]
pub fn a_checksum_makes_bytes_right()
    ensures { ChecksumsAreRight }
{}
