//! A signature and its decisions.
use crate::verdict::verdict;
use chain_walk::Verdict;
use function_lines::read_lines;
use packet_fields::Field;
use packet_function::DecidingLine;
use packet_version::{View, unwritten_stays};
use patterns::{Pattern, PatternSet, first_occurring};
use policy_text::{BuildFault, FunctionDecl};
use std::alloc::{AllocError, Global};

/// Patterns, of which none may occur in a packet's data.
#[derive(Debug, Drop)]
pub struct Signature {
    /// The patterns, with their searchers, which were made when the signature was built.
    pub patterns: PatternSet,
}

impl Signature {
    ghost use Rattle.std.specs.Prelude.{◌≡◌, ◌++◌, Ok, true, is_ok, IfOk, OnOk, OnErr};
    ghost use Rattle.action_profile.specs.declared.kind.Kind.{Kind};
    ghost use Rattle.packet_version.specs.Views.{seen_values, viewed, wrote_all};
    ghost use Rattle.packet_function.specs.Deciding.{decided};
    ghost use Rattle.function_lines.specs.Builds.{Builds};
    ghost use Rattle.patterns.specs.Lines.{pattern_lines};
    ghost use Rattle.nf_filter.specs.Signatures.{signature_by, signature_behaviour, signature_decides};

    /// Makes the signature that is declared, or returns the least line of the declaration that is refused: one that
    /// isn't a `rule` with a pattern.
    pub fn build(alloc: Global, decl: &FunctionDecl) -> Result<Signature, BuildFault>
        requires { decl.now.kind ≡ Kind.Signature }
        ensures { Builds pattern_lines signature_by decl.now result }
    {
        let patterns = read_lines::<Pattern>(alloc, decl)?;
        Ok(Signature {
            patterns: PatternSet::new(alloc, patterns)?,
        })
    }

    /// The same signature once more, with the same patterns in memory. The only error is that memory runs out.
    pub fn try_clone(&self) -> Result<Signature, AllocError>
        ensures { IfOk result (λ same. same ≡ self.now) }
    {
        Ok(Signature {
            patterns: self.patterns.try_clone()?,
        })
    }

    /// Judges one packet through a view of a signature's profile, by the bytes that the view lends. It writes nothing
    /// and allocates nothing.
    pub fn step(&mut self, view: &mut View) -> Result<Verdict, AllocError>
        requires profile { view.old.profile ≡ signature_behaviour.profile self.old }
        ensures after { self.new ≡ (viewed signature_behaviour self.old view.old).after }
        ensures verdict { result ≡ Ok (viewed signature_behaviour self.old view.old).verdict }
        ensures view { view.new ≡ wrote_all (viewed signature_behaviour self.old view.old).written view.old }
    {
        // Nothing is written, so the view is as it was.
        unwritten_stays(view);
        let passes = !is_found(&self.patterns, view.get(Field::Payload));
        Ok(verdict(passes))
    }

    /// Appends the line that decides on one packet, which it sees through a view of a signature's profile: that of the
    /// first pattern that occurs in the payload, or none if no pattern does. If memory runs out, it appends nothing.
    pub fn decide(&self, view: &View, deciding: &mut Vec<DecidingLine>) -> Result<(), AllocError>
        requires profile { view.now.profile ≡ signature_behaviour.profile self.now }
        ensures decided { OnOk result (deciding.new.items ≡
            deciding.old.items ++ decided signature_behaviour signature_decides view.now.version.fixed self.now (seen_values view.now)) }
        ensures stays { OnErr result (deciding.new.items ≡ deciding.old.items) }
    {
        if let Some(place) = place_found(&self.patterns, view.get(Field::Payload)) {
            deciding.push(DecidingLine::Rule(place))?;
        }
        Ok(())
    }

    /// Appends the lines of its state, which a signature doesn't have.
    pub fn state_lines(&self, _out: &mut Vec<u8>) -> Result<(), AllocError>
        ensures none { _out.new ≡ _out.old }
        ensures never_fails { is_ok result ≡ true }
    {
        Ok(())
    }
}

ghost use Rattle.std.specs.Prelude.{◌≡◌};
ghost use Rattle.std.specs.Option.{option_copied};
ghost use Rattle.nf_filter.specs.Signatures.{is_found, place_found};

/// Does one of the patterns occur in the payload, if there is one?
fn is_found(patterns: &PatternSet, payload: Option<&[u8]>) -> bool
    ensures { result ≡ is_found patterns.now (option_copied payload.entry) }
{
    match payload {
        Some(payload) => first_occurring(patterns, payload).is_some(),
        None => false,
    }
}

/// The place of the first pattern that occurs in the payload, if there is one.
fn place_found(patterns: &PatternSet, payload: Option<&[u8]>) -> Option<usize>
    ensures { result ≡ place_found patterns.now (option_copied payload.entry) }
{
    first_occurring(patterns, payload?)
}
