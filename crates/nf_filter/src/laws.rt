//! Which rule of a firewall and which pattern of a signature decides, stated without the step.
ghost use Rattle.std.specs.Prelude.{◌≡◌, ◌⊎◌, List, [], ◌∷◌, length, map, if◌then◌else◌};
ghost use Rattle.packet_fields.specs.declared.field.Field.{Field};
ghost use Rattle.policy_text.specs.declared.seen.Seen.{Seen};
ghost use Rattle.chain_walk.specs.Shown.{Values};
ghost use Rattle.chain_walk.specs.Step.{stepped, is_drop};
ghost use Rattle.chain_walk.specs.declared.fixed.Fixed.{Fixed};
ghost use Rattle.packet_function.specs.Deciding.{decided};
ghost use Rattle.packet_function.specs.declared.deciding.DecidingLine.{DecidingLine};
ghost use Rattle.packet_function.specs.declared.deciding.SettingKey.{SettingKey};
ghost use Rattle.nf_filter.specs.declared.firewall.Firewall.{Firewall};
ghost use Rattle.nf_filter.specs.declared.firewall.Rule.{Rule};
ghost use Rattle.nf_filter.specs.declared.signature.Signature.{Signature};
ghost use Rattle.nf_filter.specs.Deciding.{IsFirstFound, IsFirstMet, MeetsNone, denies};
ghost use Rattle.nf_filter.specs.Firewalls.{all_seen, firewall_behaviour, firewall_decides};
ghost use Rattle.nf_filter.specs.Signatures.{signature_behaviour, signature_decides};
ghost use Rattle.nf_filter.specs.Verdicts.{verdict_by};

/// The first rule of which a packet meets all clauses decides whether the packet passes, whatever rules follow it. The
/// default decides on a packet that meets no rule. Each packet meets no rule, or some rule first.
#[tactic(auto, using(crate::proofs::Deciding::first_decides, crate::proofs::Deciding::default_decides, crate::proofs::Deciding::none_or_first))]
pub fn the_first_rule_that_is_met_decides()
    ensures first { (fixed : Fixed) (f : Firewall) (v : Values) (rule : Rule) → IsFirstMet f.rules (all_seen v fixed) rule → (stepped firewall_behaviour fixed f v).verdict ≡ verdict_by rule.allow }
    ensures default { (fixed : Fixed) (f : Firewall) (v : Values) → MeetsNone f.rules (all_seen v fixed) → (stepped firewall_behaviour fixed f v).verdict ≡ verdict_by f.default }
    ensures either { (rules : List Rule) (seen : Seen) → MeetsNone rules seen ⊎ ((rule : Rule) × IsFirstMet rules seen rule) }
{}

/// One line of a firewall decides on a packet: that of the first rule of which the packet meets all clauses, and
/// `set default` if the packet meets no rule. The packet is dropped exactly if that line denies.
#[tactic(auto, using(crate::proofs::DecidingLines::default_line, crate::proofs::DecidingLines::drops_as_denied))]
pub fn a_packet_is_dropped_where_the_deciding_line_denies()
    ensures rule { (fixed : Fixed) (f : Firewall) (v : Values) (rule : Rule) → (first : IsFirstMet f.rules (all_seen v fixed) rule) →
        decided firewall_behaviour firewall_decides fixed f v ≡ DecidingLine.Rule (length first.before) ∷ [] }
    ensures default { (fixed : Fixed) (f : Firewall) (v : Values) → MeetsNone f.rules (all_seen v fixed) →
        decided firewall_behaviour firewall_decides fixed f v ≡ DecidingLine.Set SettingKey.Default ∷ [] }
    ensures drops { (fixed : Fixed) (f : Firewall) (v : Values) →
        map (denies f) (decided firewall_behaviour firewall_decides fixed f v) ≡
        is_drop (stepped firewall_behaviour fixed f v).verdict ∷ [] }
{}

/// One line of a signature decides on each packet that it drops, and none on a packet that passes. The line is that of a
/// pattern that occurs in the payload, and no pattern before it does.
pub fn a_packet_is_dropped_where_the_line_of_a_pattern_decides()
    ensures drops { (fixed : Fixed) (s : Signature) (v : Values) →
        length (decided signature_behaviour signature_decides fixed s v) ≡
        (if is_drop (stepped signature_behaviour fixed s v).verdict then 1 else 0) }
    ensures line { (fixed : Fixed) (s : Signature) (v : Values) (line : DecidingLine) →
        decided signature_behaviour signature_decides fixed s v ≡ line ∷ [] → IsFirstFound s.patterns (v Field.Payload) line }
{}
