//! A redactor, and the data that it overwrites.
use chain_walk::Verdict;
use function_lines::read_lines;
use packet_fields::Field;
use packet_function::DecidingLine;
use packet_version::{View, unwritten_stays, written_is_one_value};
use patterns::{Pattern, PatternSet, first_occurring, redact};
use policy_text::{BuildFault, FunctionDecl};
use std::alloc::{AllocError, Global};

/// Patterns that are overwritten in a packet's data, in this order.
#[derive(Debug, Drop)]
pub struct Redactor {
    /// The patterns, with their searchers, which were made when the redactor was built.
    pub patterns: PatternSet,
}

impl Redactor {
    ghost use Rattle.std.specs.Prelude.{◌≡◌, ◌++◌, Ok, true, is_ok, IfOk, OnOk, OnErr};
    ghost use Rattle.action_profile.specs.Profiles.{profile_of};
    ghost use Rattle.action_profile.specs.declared.kind.Kind.{Kind};
    ghost use Rattle.packet_fields.specs.declared.field.Field.{Field};
    ghost use Rattle.packet_version.specs.Views.{seen_values, viewed, wrote_all};
    ghost use Rattle.packet_function.specs.Deciding.{decided};
    ghost use Rattle.function_lines.specs.Builds.{Builds};
    ghost use Rattle.patterns.specs.Lines.{pattern_lines};
    ghost use Rattle.nf_mark.specs.Redactors.{redactor_by, redactor_behaviour, redactor_decides, redacted_payload, rules_from, to_payload};

    /// Makes the redactor that is declared, or returns the least line of the declaration that is refused: one that
    /// isn't a `rule` with a pattern.
    pub fn build(alloc: Global, decl: &FunctionDecl) -> Result<Redactor, BuildFault>
        requires { decl.now.kind ≡ Kind.Redactor }
        ensures { Builds pattern_lines redactor_by decl.now result }
    {
        let patterns = read_lines::<Pattern>(alloc, decl)?;
        Ok(Redactor {
            patterns: PatternSet::new(alloc, patterns)?,
        })
    }

    /// The same redactor once more, with the same patterns in memory. The only error is that memory runs out.
    pub fn try_clone(&self) -> Result<Redactor, AllocError>
        ensures { IfOk result (λ same. same ≡ self.now) }
    {
        Ok(Redactor {
            patterns: self.patterns.try_clone()?,
        })
    }

    /// Overwrites the patterns in the data of one packet, through a view of a redactor's profile, in the bytes that the
    /// view lends. It allocates nothing.
    pub fn step(&mut self, view: &mut View) -> Result<Verdict, AllocError>
        requires profile { view.old.profile ≡ redactor_behaviour.profile self.old }
        ensures after { self.new ≡ (viewed redactor_behaviour self.old view.old).after }
        ensures verdict { result ≡ Ok (viewed redactor_behaviour self.old view.old).verdict }
        ensures view { view.new ≡ wrote_all (viewed redactor_behaviour self.old view.old).written view.old }
    {
        self.overwrite(view);
        Ok(Verdict::Pass)
    }

    /// Appends the rules that decide what it does to one packet, which it sees through a view of a redactor's profile:
    /// each whose pattern is overwritten somewhere in the packet's data. If memory runs out, it appends nothing.
    pub fn decide(&self, view: &View, deciding: &mut Vec<DecidingLine>) -> Result<(), AllocError>
        requires profile { view.now.profile ≡ redactor_behaviour.profile self.now }
        ensures decided { OnOk result (deciding.new.items ≡
            deciding.old.items ++ decided redactor_behaviour redactor_decides view.now.version.fixed self.now (seen_values view.now)) }
        ensures stays { OnErr result (deciding.new.items ≡ deciding.old.items) }
    {
        let Some(payload) = view.get(Field::Payload) else {
            return Ok(());
        };
        self.decide_in(payload, deciding)
    }

    // Appends the rules whose patterns are overwritten somewhere in the payload.
    fn decide_in(&self, payload: &[u8], deciding: &mut Vec<DecidingLine>) -> Result<(), AllocError>
        ensures decided { OnOk result (deciding.new.items ≡ deciding.old.items ++ rules_from 0 self.now.patterns payload.now) }
        ensures stays { OnErr result (deciding.new.items ≡ deciding.old.items) }
    {
        let Some(first) = first_occurring(&self.patterns, payload) else {
            return Ok(());
        };
        let alloc = *deciding.allocator();
        let rules = rules_used(alloc, self.patterns.as_slice(), first, payload)?;
        deciding.extend_from_slice(&rules)
    }

    // Writes the payload if one of the patterns occurs in it.
    #[tactic(auto, using(crate::proofs::Redacting::nothing_found, crate::proofs::Redacting::found))]
    fn overwrite(&self, view: &mut View)
        requires profile { view.old.profile ≡ profile_of Kind.Redactor }
        ensures { view.new ≡ wrote_all (to_payload (redacted_payload self.now.patterns (seen_values view.old Field.Payload))) view.old }
    {
        let found = first_found(&self.patterns, view.get(Field::Payload));
        let Some(place) = found else {
            unwritten_stays(view);
            return;
        };
        let (_, patterns) = self.patterns.as_slice().split_at(place);
        overwrite_payload(patterns, view);
    }

    /// Appends the lines of its state, which a redactor doesn't have.
    pub fn state_lines(&self, _out: &mut Vec<u8>) -> Result<(), AllocError>
        ensures none { _out.new ≡ _out.old }
        ensures never_fails { is_ok result ≡ true }
    {
        Ok(())
    }
}

ghost use Rattle.std.specs.Prelude.{◌≡◌, ◌≤◌, ◌++◌, length, drop, position, Some, option_map, IsSome, IfOk, OnOk};
ghost use Rattle.std.specs.Option.{option_copied};
ghost use Rattle.action_profile.specs.Profiles.{profile_of};
ghost use Rattle.action_profile.specs.declared.kind.Kind.{Kind};
ghost use Rattle.packet_fields.specs.declared.field.Field.{Field};
ghost use Rattle.packet_version.specs.Views.{seen_values, wrote_all};
ghost use Rattle.patterns.specs.Occurrences.{occurs};
ghost use Rattle.patterns.specs.Overwriting.{overwritten, redacted};
ghost use Rattle.nf_mark.specs.Redactors.{to_payload, rules_from};
ghost use Rattle.nf_mark.specs.FoundPatterns.{Finds};

/// The place of the first pattern that occurs in the payload, if there is a payload.
#[tactic(auto, using(crate::proofs::Redacting::finds))]
fn first_found(patterns: &PatternSet, payload: Option<&[u8]>) -> Option<usize>
    ensures { Finds patterns.now (option_copied payload.entry) result }
{
    match payload {
        Some(payload) => first_occurring(patterns, payload),
        None => None,
    }
}

/// Overwrites the patterns in a payload that is there.
#[tactic(auto, using(crate::proofs::Redacting::is_there))]
fn overwrite_payload(patterns: &[Pattern], view: &mut View)
    requires profile { view.old.profile ≡ profile_of Kind.Redactor }
    requires present { IsSome (seen_values view.old Field.Payload) }
    ensures { view.new ≡ wrote_all (to_payload (option_map (redacted patterns.now) (seen_values view.old Field.Payload))) view.old }
{
    let payload = view.edit(Field::Payload);
    redact(patterns, payload);
    written_is_one_value();
}

/// The rules whose patterns are overwritten in the payload. The pattern at place `first` is the first that occurs. The
/// payload is copied only if there are patterns after it.
fn rules_used(
    alloc: Global,
    patterns: &[Pattern],
    first: usize,
    payload: &[u8],
) -> Result<Vec<DecidingLine>, AllocError>
    requires first { position (λ pattern. occurs pattern payload.now) patterns.now ≡ Some first }
    ensures { IfOk result (λ rules. rules.items ≡ rules_from 0 patterns.now payload.now) }
{
    let mut rules = Vec::new(alloc);
    rules.push(DecidingLine::Rule(first))?;
    let later = first + 1;
    if later == patterns.len() {
        return Ok(rules);
    }
    let mut left = left_by(alloc, &patterns[first], payload)?;
    push_later(patterns, later, left.as_mut_slice(), &mut rules)?;
    Ok(rules)
}

/// What the pattern leaves of the payload.
fn left_by(alloc: Global, pattern: &Pattern, payload: &[u8]) -> Result<Vec<u8>, AllocError>
    ensures { IfOk result (λ left. left.items ≡ overwritten pattern.now payload.now) }
{
    let mut left = payload.to_vec(alloc)?;
    pattern.overwrite(left.as_mut_slice());
    Ok(left)
}

/// Appends the rules at place `from` and after it whose patterns occur in what the patterns before them left of the
/// payload, and overwrites these patterns there.
#[tactic(auto, using(crate::proofs::UsedPatterns::goes_on, crate::proofs::UsedPatterns::goes_past, crate::proofs::UsedPatterns::ends))]
fn push_later(
    patterns: &[Pattern],
    from: usize,
    left: &mut [u8],
    rules: &mut Vec<DecidingLine>,
) -> Result<(), AllocError>
    requires { from ≤ length patterns.now }
    ensures { OnOk result (rules.new.items ≡ rules.old.items ++ rules_from from (drop from patterns.now) left.old) }
{
    'patterns: for place in from..patterns.len() {
        let pattern = &patterns[place];
        if pattern.occurs(left) {
            rules.push(DecidingLine::Rule(place))?;
            pattern.overwrite(left);
        }
    }
    Ok(())
}
