//! The difference between the two versions of IP in clauses.

ghost use Rattle.std.specs.Prelude.{◌≡◌, ℕ, List, false, Some, None};
ghost use Rattle.policy_text.specs.declared.clause.Clause.TheVariants.{Src, Dst, Src6, Dst6};
ghost use Rattle.policy_text.specs.declared.seen.Seen.{Seen};
ghost use Rattle.policy_text.specs.Addresses6.{prefix6_of};
ghost use Rattle.policy_text.specs.Meeting.{is_met};
ghost use Rattle.policy_text.specs.Values.{prefix_of};

/// A law: a packet that has no address of one version of IP meets no prefix of that version. A packet of the other
/// version is such a packet.
pub fn prefixes_keep_to_their_version()
    ensures src { (seen : Seen) → (prefix bits : ℕ) → seen.src ≡ None → is_met seen (Src prefix bits) ≡ false }
    ensures dst { (seen : Seen) → (prefix bits : ℕ) → seen.dst ≡ None → is_met seen (Dst prefix bits) ≡ false }
    ensures src6 { (seen : Seen) → (prefix bits : ℕ) → seen.src6 ≡ None → is_met seen (Src6 prefix bits) ≡ false }
    ensures dst6 { (seen : Seen) → (prefix bits : ℕ) → seen.dst6 ≡ None → is_met seen (Dst6 prefix bits) ≡ false }
{}

/// A law: no text spells a prefix of both versions of IP.
#[tactic(auto, using(crate::proofs::Versions::one_version))]
pub fn prefixes_have_one_version()
    ensures { (text : List ℕ) → (prefix bits : ℕ) → prefix_of text ≡ Some (prefix, bits) → prefix6_of text ≡ None }
{}
