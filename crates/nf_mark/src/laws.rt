//! Properties of new tags, and of the lines that decide, stated without the steps.
ghost use Rattle.std.specs.Prelude.{◌≡◌, ◌<◌, ◌/◌, ◌++◌, ◌↔◌, ℕ, List, [], ◌∷◌, Some, None, slice_get, IsSomeAnd, option_map};
ghost use Rattle.packet_fields.specs.declared.field.Field.{Field};
ghost use Rattle.frame_seen.specs.Seeing.{outermost};
ghost use Rattle.policy_text.specs.declared.seen.TagSeen.{TagSeen};
ghost use Rattle.chain_walk.specs.Shown.{Shown};
ghost use Rattle.chain_walk.specs.declared.verdict.Verdict.{Verdict};
ghost use Rattle.packet_function.specs.declared.deciding.DecidingLine.{DecidingLine};
ghost use Rattle.nf_mark.specs.Hops.{hop_decides, hop_step};
ghost use Rattle.nf_mark.specs.Links.{link_bytes};
ghost use Rattle.nf_mark.specs.Markers.{marker_decides, marker_step};
ghost use Rattle.nf_mark.specs.Nexthops.{nexthop_decides, nexthop_step};
ghost use Rattle.nf_mark.specs.Redactors.{redacted_payload, redactor_decides, redactor_step};
ghost use Rattle.nf_mark.specs.TaggerLines.{control_of};
ghost use Rattle.nf_mark.specs.Taggers.{tag_of, tagged, tagger_decides, tagger_step};
ghost use Rattle.nf_mark.specs.Untaggers.{untagged};
ghost use Rattle.nf_mark.specs.UsedRules.{used_rules};
ghost use Rattle.nf_mark.specs.declared.hop.Hop.{Hop};
ghost use Rattle.nf_mark.specs.declared.marker.Marker.{Marker};
ghost use Rattle.nf_mark.specs.declared.nexthop.Nexthop.{Nexthop};
ghost use Rattle.nf_mark.specs.declared.redactor.Redactor.{Redactor};
ghost use Rattle.nf_mark.specs.declared.tagger.Tagger.{Tagger};

use patterns::overwritten_patterns_are_gone;

/// A new tag is the outermost: clauses see its VLAN id, its high three bits are the priority, and an untagger removes
/// it and leaves the tags that were there.
pub fn new_tag_is_outermost()
    ensures id { (vid priority : ℕ) (tags : List ℕ) → vid < 4096 → priority < 8 → outermost (tag_of (control_of vid priority) ++ tags) ≡ TagSeen.Id vid }
    ensures priority { (vid priority : ℕ) → vid < 4096 → control_of vid priority / 8192 ≡ priority }
    ensures off { (control : ℕ) (tags : List ℕ) → untagged (tagged (Some control) (Some tags)) ≡ Some tags }
{}

/// If a rule of a marker decides, the type of service of this rule is written. If none decides, none is written.
pub fn deciding_rule_marks()
    ensures rule { (m : Marker) (shown : Shown) (place : ℕ) → marker_decides m shown ≡ DecidingLine.Rule place ∷ [] →
        IsSomeAnd (slice_get m.rules place) (λ rule. (marker_step m shown).written Field.Tos ≡ Some (rule.tos ∷ [])) }
    ensures none { (m : Marker) (shown : Shown) → marker_decides m shown ≡ [] → (marker_step m shown).written Field.Tos ≡ None }
{}

/// If a rule of a nexthop decides, both link addresses of this rule are written. If none decides, nothing is written.
pub fn deciding_rule_leads_on()
    ensures rule { (n : Nexthop) (shown : Shown) (place : ℕ) → nexthop_decides n shown ≡ DecidingLine.Rule place ∷ [] →
        IsSomeAnd (slice_get n.rules place) (λ rule.
        ((nexthop_step n shown).written Field.LinkDst ≡ Some (link_bytes rule.link_dst)) × ((nexthop_step n shown).written Field.LinkSrc ≡ Some (link_bytes rule.link_src))) }
    ensures none { (n : Nexthop) (shown : Shown) (f : Field) → nexthop_decides n shown ≡ [] → (nexthop_step n shown).written f ≡ None }
{}

/// If a rule of a tagger decides, the tag of this rule is put before the tags that are there. If none decides, the tags
/// stay.
pub fn deciding_rule_tags()
    ensures rule { (t : Tagger) (shown : Shown) (place : ℕ) → tagger_decides t shown ≡ DecidingLine.Rule place ∷ [] →
        IsSomeAnd (slice_get t.rules place) (λ rule.
        (tagger_step t shown).written Field.Tag ≡ option_map (λ tags. tag_of rule.control ++ tags) (shown.values Field.Tag)) }
    ensures none { (t : Tagger) (shown : Shown) → tagger_decides t shown ≡ [] → (tagger_step t shown).written Field.Tag ≡ None }
{}

/// A hop drops a packet exactly where its declaration decides, and no line decides on any other packet.
pub fn declaration_decides_drops()
    ensures drops { (h : Hop) (shown : Shown) →
        (hop_decides h shown ≡ DecidingLine.Declaration ∷ []) ↔ ((hop_step h shown).verdict ≡ Verdict.Drop) }
    ensures passes { (h : Hop) (shown : Shown) → (hop_decides h shown ≡ []) ↔ ((hop_step h shown).verdict ≡ Verdict.Pass) }
{}

/// What a redactor writes is what the patterns of the deciding rules, and they alone, make of the payload. Nothing is
/// written exactly where no rule decides.
pub fn deciding_patterns_redact()
    ensures alone { (r : Redactor) (shown : Shown) →
        (redactor_step r shown).written Field.Payload ≡ redacted_payload (used_rules r.patterns (redactor_decides r shown)) (shown.values Field.Payload) }
    ensures none { (r : Redactor) (shown : Shown) →
        (redactor_decides r shown ≡ []) ↔ ((redactor_step r shown).written Field.Payload ≡ None) }
{
    overwritten_patterns_are_gone();
}
