//! The numbers among the words, each read from its word.
ghost use Rattle.std.specs.Prelude.{◌≡◌, ◌≤◌, IfOk, IfSome};
ghost use Rattle.std.specs.Char.{is_ascii_digit};
ghost use Rattle.std.specs.List.{list_all};
ghost use Rattle.command_words.specs.Named.{word_in};
ghost use Rattle.command_words.specs.Words.{burst_of, count_of, is_numeral as spells, mergers_of, number_of, seed_of, workers_of};
ghost use Rattle.command_words.specs.WhyWords.{record_of};

use crate::usage::{Option4, UsageFault};

fn all_digits(text: &[u8]) -> bool
    ensures { result ≡ list_all is_ascii_digit text.now }
{
    text.iter().all(|b| b.is_ascii_digit())
}

fn is_numeral(word: &str) -> bool
    ensures { result ≡ spells word.now }
{
    let digits = word.as_bytes();
    1 <= digits.len() && digits.len() <= 20 && all_digits(digits)
}

/// A number of 1 to 20 digits from `low` to `high`.
fn number(which: Option4, word: &str, low: u64, high: u64) -> Result<u64, UsageFault>
    ensures value { result ≡ number_of which low high word.now }
    ensures range { IfOk result (λ n. (low ≤ n) × (n ≤ high)) }
{
    if !is_numeral(word) {
        return Err(UsageFault::Number(which));
    }
    let Ok(n) = word.parse::<u64>() else {
        return Err(UsageFault::Number(which));
    };
    if low <= n && n <= high {
        Ok(n)
    } else {
        Err(UsageFault::Number(which))
    }
}

/// The number of mergers, 2 without the option.
pub fn mergers(word: Option<&str>) -> Result<u32, UsageFault>
    ensures value { result ≡ mergers_of (word_in word.entry) }
    ensures range { IfOk result (λ n. (1 ≤ n) × (n ≤ 16)) }
{
    match word {
        Some(word) => Ok(number(Option4::Mergers, word, 1, 16)? as u32),
        None => Ok(2),
    }
}

/// The greatest number of packets of a burst, 1,024 without the option.
pub fn burst(word: Option<&str>) -> Result<u32, UsageFault>
    ensures value { result ≡ burst_of (word_in word.entry) }
    ensures range { IfOk result (λ n. (1 ≤ n) × (n ≤ 65536)) }
{
    match word {
        Some(word) => Ok(number(Option4::Burst, word, 1, 65_536)? as u32),
        None => Ok(1024),
    }
}

/// The number of workers that count flows, 2 without the option.
pub fn workers(word: Option<&str>) -> Result<u32, UsageFault>
    ensures value { result ≡ workers_of (word_in word.entry) }
    ensures range { IfOk result (λ n. (1 ≤ n) × (n ≤ 16)) }
{
    match word {
        Some(word) => Ok(number(Option4::Workers, word, 1, 16)? as u32),
        None => Ok(2),
    }
}

/// The record whose trace is asked for, if there is one.
pub fn record(word: Option<&str>) -> Result<Option<u32>, UsageFault>
    ensures value { result ≡ record_of (word_in word.entry) }
    ensures range { IfOk result (λ r. IfSome r (λ n. 1 ≤ n)) }
{
    match word {
        Some(word) => {
            let number = number(Option4::Record, word, 1, 4_294_967_295)? as u32;
            Ok(Some(number))
        }
        None => Ok(None),
    }
}

/// The seed of the demonstration's draws.
pub fn seed(word: &str) -> Result<u64, UsageFault>
    ensures { result ≡ seed_of word.now }
{
    number(Option4::Seed, word, 0, u64::MAX)
}

/// The number of packets of the demonstration.
pub fn count(word: &str) -> Result<u32, UsageFault>
    ensures value { result ≡ count_of word.now }
    ensures range { IfOk result (λ n. (1 ≤ n) × (n ≤ 1000000)) }
{
    Ok(number(Option4::Count, word, 1, 1_000_000)? as u32)
}
