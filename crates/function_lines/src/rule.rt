//! Rules that hold clauses.
ghost use Rattle.std.specs.Prelude.{◌≡◌, IfOk};
ghost use Rattle.std.specs.Option.{option_copied};
ghost use Rattle.policy_text.specs.declared.clause.Match.{Match};
ghost use Rattle.function_lines.specs.Rules.{fit_of, first_met};

use policy_text::{Match, MatchFault, Seen, Word, fits, read_match};
use std::alloc::{AllocError, Global};

/// A rule for the packets that meet its clauses.
pub trait Fitting {
    /// The clauses of a rule.
    ghost fit: { Self → Match };

    /// The clauses that a packet has to meet.
    fn fit(&self) -> &Match
        ensures { result.now ≡ fit self.now };
}

/// The first rule of which a packet meets all clauses.
pub(crate) fn first_met<'a, R: Fitting>(rules: &'a [R], seen: &Seen) -> Option<&'a R>
    ensures { option_copied result ≡ first_met R.fit seen.now rules.now }
{
    rules.iter().find(|rule| fits(rule.fit(), seen))
}

/// Reads the clauses of a rule, or returns `None` if the words aren't clauses.
pub fn read_fit(alloc: Global, words: &[Word]) -> Result<Option<Match>, AllocError>
    ensures { IfOk result (λ fit. fit ≡ fit_of words.now) }
{
    match read_match(alloc, words) {
        Ok(fit) => Ok(Some(fit)),
        Err(MatchFault::BadWord(_)) => Ok(None),
        Err(MatchFault::OutOfMemory) => Err(AllocError),
    }
}
