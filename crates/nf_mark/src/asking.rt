//! Rules that may have only some clauses.
ghost use Rattle.std.specs.Prelude.{◌≡◌, Bool, IfOk};
ghost use Rattle.std.specs.List.{list_all};
ghost use Rattle.policy_text.specs.declared.clause.Clause.{Clause};
ghost use Rattle.nf_mark.specs.Clauses.{fit_of_such};

use function_lines::read_fit;
use policy_text::{Clause, Match, Word};
use std::alloc::{AllocError, Global};

/// A rule of a kind that sees only some of the values at which clauses look.
pub(crate) trait Asking {
    /// The clauses that a rule may have.
    ghost may_ask: { Clause → Bool };

    /// May a rule have this clause?
    fn may_ask(clause: Clause) -> bool
        ensures { result ≡ may_ask clause };
}

/// Reads the clauses of a rule, or returns `None` if the words aren't clauses or a rule may not have one of them.
pub(crate) fn read_asked<R: Asking>(
    alloc: Global,
    words: &[Word],
) -> Result<Option<Match>, AllocError>
    ensures { IfOk result (λ fit. fit ≡ fit_of_such R.may_ask words.now) }
{
    let Some(fit) = read_fit(alloc, words)? else {
        return Ok(None);
    };
    if may_all::<R>(&fit) {
        Ok(Some(fit))
    } else {
        Ok(None)
    }
}

fn may_all<R: Asking>(fit: &Match) -> bool
    ensures { result ≡ list_all R.may_ask fit.now.clauses }
{
    fit.clauses
        .as_slice()
        .iter()
        .all(|clause| R::may_ask(*clause))
}
