//! What findings are worth.

ghost use Rattle.std.specs.Prelude.{◌≡◌, ◌≢◌, List, ◌++◌, ◌∷◌, Bool, ℕ, ◌-◌, length, Option, Some, position, true, false, All};
ghost use Rattle.std.specs.List.{list_any, list_all};
ghost use Rattle.std.specs.Option.{option_map_or};
ghost use Rattle.policy_text.specs.declared.clause.Match.{Match};
ghost use Rattle.policy_text.specs.declared.seen.Seen.{Seen};
ghost use Rattle.policy_text.specs.Meeting.{is_within, is_fitting};
ghost use Rattle.function_lines.specs.Rules.{first_met};
ghost use Rattle.policy_text.specs.declared.policy.ChainPolicy.{ChainPolicy};
ghost use Rattle.policy_check.specs.declared.fault.Order.{Order};
ghost use Rattle.policy_lint.specs.declared.rule_line.RuleLine.{RuleLine};
ghost use Rattle.policy_lint.specs.declared.versions.Version.{Version};
ghost use Rattle.policy_lint.specs.Firewalls.{drops_by};
ghost use Rattle.policy_lint.specs.Findings.{findings};
ghost use Rattle.policy_lint.specs.Implying.{covers};
ghost use Rattle.policy_lint.specs.Meaning.{Means};
ghost use Rattle.policy_lint.specs.Opposing.{clash, IsOfPacket};
ghost use Rattle.policy_lint.specs.Spelling.{bits_past};
ghost use Rattle.policy_lint.specs.Versions.{asks_by, Lacks};

use function_lines::Fitting;

/// A law: whatever meets clauses that are covered meets those that cover them.
pub fn what_is_covered_is_met()
    ensures { (earlier later : Match) → (seen : Seen) → covers earlier later ≡ true → is_fitting later seen ≡ true → is_fitting earlier seen ≡ true }
{}

/// A law: without a rule that one before it covers, the same rule is the first that a packet meets.
#[tactic(auto, using(crate::proofs::Covered::never_first))]
pub fn covered_rules_never_decide<R: Fitting>()
    ensures { (before after : List R) → (rule : R) → (seen : Seen) → list_any (λ r. covers (R.fit r) (R.fit rule)) before ≡ true →
        first_met R.fit seen (before ++ rule ∷ after) ≡ first_met R.fit seen (before ++ after) }
{}

/// A law: a chain that one before it covers takes no packet, since the first chain whose clauses are met takes it.
#[tactic(auto, using(crate::proofs::Covered::takes_nothing))]
pub fn covered_chains_take_nothing()
    ensures { (before after : List Match) → (fit : Match) → (seen : Seen) → list_any (λ b. covers b fit) before ≡ true →
        position (λ f. is_fitting f seen) (before ++ fit ∷ after) ≢ Some (length before) }
{}

/// A law: of rules that drop all, the first that a packet meets denies it, and where it meets none the default does.
pub fn rules_that_drop_all_deny()
    ensures { (default : Bool) → (rules : List RuleLine) → (seen : Seen) → drops_by default rules ≡ true →
        option_map_or (λ (r : RuleLine). r.allow) (first_met (λ (r : RuleLine). r.fit) seen rules) default ≡ false }
{}

/// A law: clauses of which one asks for a version of IP, by an address or by its number, aren't met by a packet that has
/// no address of this version.
pub fn addresses_keep_to_their_version()
    ensures { (version : Version) → (fit : Match) → (seen : Seen) → asks_by version fit ≡ true → Lacks version seen → is_fitting fit seen ≡ false }
{}

/// A law: no packet meets clauses of which two exclude each other.
pub fn clashing_clauses_are_never_met()
    ensures { (fit : Match) → (seen : Seen) → clash fit ≡ true → IsOfPacket seen → is_fitting fit seen ≡ false }
{}

/// A law: of rules that all allow, the first that a packet meets lets it pass, and so does a default that allows.
pub fn rules_that_allow_drop_none()
    ensures { (rules : List RuleLine) → (seen : Seen) → list_all (λ (r : RuleLine). r.allow) rules ≡ true →
        option_map_or (λ (r : RuleLine). r.allow) (first_met (λ (r : RuleLine). r.fit) seen rules) true ≡ true }
{}

/// A law: bits of a prefix past its length don't matter: it holds the addresses that it holds with these bits 0.
pub fn bits_past_the_length_do_not_matter()
    ensures { (prefix bits address : ℕ) → is_within (prefix - bits_past 32 bits prefix) bits address ≡ is_within prefix bits address }
{}

/// A law: each finding is true. Its lines are those of things of the policy, in their order, of which holds what it says:
/// whatever meets the one meets the other, no packet passes the firewall before, and so on.
pub fn findings_are_true()
    ensures { (cuts : List Bool) → (chains : List ChainPolicy) → (orders : List Order) → All (Means cuts chains orders) (findings cuts chains orders) }
{}
