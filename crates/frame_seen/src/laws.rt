//! What is seen of a frame, in other words than its definition.
ghost use Rattle.std.specs.Prelude.{◌≡◌, ℕ, List, true, false};
ghost use Rattle.packet_fields.specs.Frames.{packet};
ghost use Rattle.packet_fields.specs.Packets.{is_ipv6};
ghost use Rattle.policy_text.specs.Meeting.{is_met};
ghost use Rattle.policy_text.specs.declared.clause.Clause.TheVariants.{Src, Dst, Src6, Dst6};
ghost use Rattle.frame_seen.specs.Seeing.{seen_of};

/// A law: no frame with a packet of IPv6 meets a prefix of IPv4, and no other frame meets a prefix of IPv6.
#[tactic(auto, using(crate::proofs::Versions::src_unmet, crate::proofs::Versions::dst_unmet, crate::proofs::Versions::src6_unmet, crate::proofs::Versions::dst6_unmet))]
pub fn frames_meet_prefixes_of_their_version()
    ensures src { (frame : List ℕ) (prefix bits : ℕ) → is_ipv6 (packet frame) ≡ true → is_met (seen_of frame) (Src prefix bits) ≡ false }
    ensures dst { (frame : List ℕ) (prefix bits : ℕ) → is_ipv6 (packet frame) ≡ true → is_met (seen_of frame) (Dst prefix bits) ≡ false }
    ensures src6 { (frame : List ℕ) (prefix bits : ℕ) → is_ipv6 (packet frame) ≡ false → is_met (seen_of frame) (Src6 prefix bits) ≡ false }
    ensures dst6 { (frame : List ℕ) (prefix bits : ℕ) → is_ipv6 (packet frame) ≡ false → is_met (seen_of frame) (Dst6 prefix bits) ≡ false }
{}
