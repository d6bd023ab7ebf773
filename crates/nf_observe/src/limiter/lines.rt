//! The lines that set a limiter up.
ghost use Rattle.std.specs.Prelude.{◌≡◌};
ghost use Rattle.std.specs.List.{list_any};
ghost use Rattle.nf_observe.specs.LimiterLines.{amount_of, setting_of, is_rate, is_burst};

use function_lines::FunctionLine;
use policy_text::{Word, number};
use std::alloc::{AllocError, Global};

/// The content of a line.
#[derive(Clone, Copy, Debug)]
pub enum LimiterLine {
    /// The bytes that a source may send each second.
    Rate(u32),
    /// The bytes that a source may send at once after it was quiet.
    Burst(u32),
}

impl FunctionLine for LimiterLine {
    ghost use Rattle.nf_observe.specs.LimiterLines.{limiter_lines};

    ghost kind_lines = { limiter_lines };

    #[tactic(auto, unfolding(crate::specs::LimiterLines::line_of))]
    fn read(_alloc: Global, words: &[Word]) -> Result<Option<LimiterLine>, AllocError> {
        if words.len() == 3 && words[0].bytes() == b"set".as_slice() {
            let amount = amount_of(words[2].bytes());
            Ok(setting_of(words[1].bytes(), amount))
        } else {
            Ok(None)
        }
    }

    fn lacks_one(lines: &[LimiterLine]) -> bool {
        !has_rate(lines) || !has_burst(lines)
    }

    // Each line can be beside any others.
    fn clashes(_lines: &[LimiterLine], _line: &Option<LimiterLine>) -> bool {
        false
    }
}

fn has_rate(lines: &[LimiterLine]) -> bool
    ensures { result ≡ list_any is_rate lines.now }
{
    lines.iter().any(|line| is_rate(*line))
}

fn has_burst(lines: &[LimiterLine]) -> bool
    ensures { result ≡ list_any is_burst lines.now }
{
    lines.iter().any(|line| is_burst(*line))
}

fn is_rate(line: LimiterLine) -> bool
    ensures { result ≡ is_rate line }
{
    matches!(line, LimiterLine::Rate(_))
}

fn is_burst(line: LimiterLine) -> bool
    ensures { result ≡ is_burst line }
{
    matches!(line, LimiterLine::Burst(_))
}

fn setting_of(key: &[u8], amount: Option<u32>) -> Option<LimiterLine>
    ensures { result ≡ setting_of key.now amount }
{
    if key == b"rate".as_slice() {
        amount.map(LimiterLine::Rate)
    } else if key == b"burst".as_slice() {
        amount.map(LimiterLine::Burst)
    } else {
        None
    }
}

/// A number from 1 to the largest of 32 bits.
fn amount_of(word: &[u8]) -> Option<u32>
    ensures { result ≡ amount_of word.now }
{
    let amount = number(word, 20, 4_294_967_295)?;
    if amount == 0 {
        None
    } else {
        Some(amount as u32)
    }
}
