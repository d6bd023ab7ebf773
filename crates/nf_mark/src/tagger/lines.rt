//! The lines that set a tagger up.
ghost use Rattle.std.specs.Prelude.{◌≡◌, ◌≤◌, Option, IfOk, IfSome};
ghost use Rattle.policy_text.specs.Values.{number_of};
ghost use Rattle.nf_mark.specs.Clauses.{fit_of_such};
ghost use Rattle.nf_mark.specs.TaggerLines.{rule_of, is_seen, control_of};

use crate::asking::{Asking, read_asked};
use crate::tagger::TagRule;
use function_lines::FunctionLine;
use policy_text::{Clause, Word, number};
use std::alloc::{AllocError, Global};

impl FunctionLine for TagRule {
    ghost use Rattle.nf_mark.specs.TaggerLines.{tagger_lines};

    ghost kind_lines = { tagger_lines };

    #[tactic(auto, unfolding(crate::specs::TaggerLines::line_of))]
    fn read(alloc: Global, words: &[Word]) -> Result<Option<TagRule>, AllocError> {
        if words.len() >= 5
            && words[0].bytes() == b"rule".as_slice()
            && words[1].bytes() == b"vid".as_slice()
            && words[3].bytes() == b"pcp".as_slice()
        {
            let vid = vid_of(words[2].bytes());
            let priority = priority_of(words[4].bytes());
            rule_of(alloc, vid, priority, &words[5..])
        } else {
            Ok(None)
        }
    }

    // A tagger has no required line.
    fn lacks_one(_lines: &[TagRule]) -> bool {
        false
    }

    fn clashes(_lines: &[TagRule], _line: &Option<TagRule>) -> bool {
        false
    }
}

impl Asking for TagRule {
    ghost use Rattle.nf_mark.specs.TaggerLines.{is_seen};

    ghost may_ask = { is_seen };

    fn may_ask(clause: Clause) -> bool {
        matches!(clause, Clause::Src(_, _) | Clause::Src6(_, _))
    }
}

fn rule_of(
    alloc: Global,
    vid: Option<u16>,
    priority: Option<u16>,
    clauses: &[Word],
) -> Result<Option<TagRule>, AllocError>
    requires vid { IfSome vid (λ n. n ≤ 4095) }
    requires priority { IfSome priority (λ n. n ≤ 7) }
    ensures { IfOk result (λ rule. rule ≡ rule_of vid priority (fit_of_such is_seen clauses.now)) }
{
    let Some(vid) = vid else {
        return Ok(None);
    };
    let Some(priority) = priority else {
        return Ok(None);
    };
    let control = control_of(vid, priority);
    let fit = read_asked::<TagRule>(alloc, clauses)?;
    Ok(fit.map(|fit| TagRule { control, fit }))
}

/// The control information of a tag (IEEE 802.1Q, 9.6).
fn control_of(vid: u16, priority: u16) -> u16
    requires vid { vid ≤ 4095 }
    requires priority { priority ≤ 7 }
    ensures { result ≡ control_of vid priority }
{
    priority * 8192 + vid
}

/// A VLAN id of twelve bits.
fn vid_of(word: &[u8]) -> Option<u16>
    ensures vid { result ≡ number_of 20 4095 word.now }
    ensures small { IfSome result (λ n. n ≤ 4095) }
{
    let vid = number(word, 20, 4095)?;
    Some(vid as u16)
}

/// A priority of three bits.
fn priority_of(word: &[u8]) -> Option<u16>
    ensures priority { result ≡ number_of 20 7 word.now }
    ensures small { IfSome result (λ n. n ≤ 7) }
{
    let priority = number(word, 20, 7)?;
    Some(priority as u16)
}
