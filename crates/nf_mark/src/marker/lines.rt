//! The lines that set a marker up.
ghost use Rattle.std.specs.Prelude.{◌≡◌, Option, IfOk};
ghost use Rattle.policy_text.specs.Values.{number_of};
ghost use Rattle.nf_mark.specs.Clauses.{fit_of_such};
ghost use Rattle.nf_mark.specs.MarkerLines.{rule_of, is_seen};

use crate::asking::{Asking, read_asked};
use crate::marker::MarkRule;
use function_lines::FunctionLine;
use policy_text::{Clause, Word, number};
use std::alloc::{AllocError, Global};

impl FunctionLine for MarkRule {
    ghost use Rattle.nf_mark.specs.MarkerLines.{marker_lines};

    ghost kind_lines = { marker_lines };

    #[tactic(auto, unfolding(crate::specs::MarkerLines::line_of))]
    fn read(alloc: Global, words: &[Word]) -> Result<Option<MarkRule>, AllocError> {
        if words.len() >= 3
            && words[0].bytes() == b"rule".as_slice()
            && words[1].bytes() == b"tos".as_slice()
        {
            rule_of(alloc, tos_of(words[2].bytes()), &words[3..])
        } else {
            Ok(None)
        }
    }

    // A marker has no required line.
    fn lacks_one(_lines: &[MarkRule]) -> bool {
        false
    }

    fn clashes(_lines: &[MarkRule], _line: &Option<MarkRule>) -> bool {
        false
    }
}

impl Asking for MarkRule {
    ghost use Rattle.nf_mark.specs.MarkerLines.{is_seen};

    ghost may_ask = { is_seen };

    fn may_ask(clause: Clause) -> bool {
        !matches!(clause, Clause::TagId(_) | Clause::NoTag)
    }
}

fn rule_of(alloc: Global, tos: Option<u8>, clauses: &[Word]) -> Result<Option<MarkRule>, AllocError>
    ensures { IfOk result (λ rule. rule ≡ rule_of tos (fit_of_such is_seen clauses.now)) }
{
    let Some(tos) = tos else {
        return Ok(None);
    };
    let fit = read_asked::<MarkRule>(alloc, clauses)?;
    Ok(fit.map(|fit| MarkRule { tos, fit }))
}

fn tos_of(word: &[u8]) -> Option<u8>
    ensures { result ≡ number_of 20 255 word.now }
{
    let tos = number(word, 20, 255)?;
    Some(tos as u8)
}
