//! A law of the checksums of the demo's capture.
ghost use Rattle.std.specs.Prelude.{ℕ, All};
ghost use Rattle.packet_fields.specs.Checksums.{HasRightSums};
ghost use Rattle.demo_capture.specs.DemoCapture.{demo_records};
ghost use Rattle.demo_capture.specs.Written.{WritesSums};

/// For every seed and count: each record has a checksum in its IPv4 header and one in its TCP or UDP header, both are
/// right by the sum of RFC 1071, and the one of UDP is never 0, which would mean that there is none.
#[tactic(auto, using(crate::proofs::RightSums::all_right, crate::proofs::RightSums::all_written))]
pub fn checksums_are_right()
    ensures right { (seed count : ℕ) → All (λ r. HasRightSums r.frame) (demo_records seed count) }
    ensures written { (seed count : ℕ) → All (λ r. WritesSums r.frame) (demo_records seed count) }
{}
