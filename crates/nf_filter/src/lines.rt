//! The lines that set a firewall up.
ghost use Rattle.std.specs.Prelude.{◌≡◌, IfOk};
ghost use Rattle.function_lines.specs.Rules.{fit_of};
ghost use Rattle.nf_filter.specs.Lines.{verdict_of, rule_of, default_of};

use crate::firewall::Rule;
use function_lines::{FunctionLine, read_fit};
use policy_text::Word;
use std::alloc::{AllocError, Global};

/// The content of a line.
#[derive(Debug, Drop)]
pub enum FirewallLine {
    /// Whether a packet passes that meets no rule.
    Default(bool),
    Rule(Rule),
}

impl FunctionLine for FirewallLine {
    ghost use Rattle.nf_filter.specs.Lines.{firewall_lines};

    ghost kind_lines = { firewall_lines };

    #[tactic(auto, unfolding(crate::specs::Lines::line_of))]
    fn read(alloc: Global, words: &[Word]) -> Result<Option<FirewallLine>, AllocError> {
        if words.len() < 2 {
            return Ok(None);
        }
        let lead = words[0].bytes();
        if lead == b"rule".as_slice() {
            rule_of(alloc, verdict_of(words[1].bytes()), &words[2..])
        } else if lead == b"set".as_slice() {
            Ok(default_of(words[1].bytes(), &words[2..]))
        } else {
            Ok(None)
        }
    }

    // A firewall has no required line.
    fn lacks_one(_lines: &[FirewallLine]) -> bool {
        false
    }

    fn clashes(_lines: &[FirewallLine], _line: &Option<FirewallLine>) -> bool {
        false
    }
}

fn rule_of(
    alloc: Global,
    allow: Option<bool>,
    clauses: &[Word],
) -> Result<Option<FirewallLine>, AllocError>
    ensures { IfOk result (λ line. line ≡ rule_of allow (fit_of clauses.now)) }
{
    let Some(allow) = allow else {
        return Ok(None);
    };
    let fit = read_fit(alloc, clauses)?;
    Ok(fit.map(|fit| FirewallLine::Rule(Rule { allow, fit })))
}

fn default_of(key: &[u8], words: &[Word]) -> Option<FirewallLine>
    ensures { result ≡ default_of key.now words.now }
{
    if words.len() == 1 && key == b"default".as_slice() {
        verdict_of(words[0].bytes()).map(FirewallLine::Default)
    } else {
        None
    }
}

fn verdict_of(word: &[u8]) -> Option<bool>
    ensures { result ≡ verdict_of word.now }
{
    if word == b"allow".as_slice() {
        Some(true)
    } else if word == b"deny".as_slice() {
        Some(false)
    } else {
        None
    }
}
