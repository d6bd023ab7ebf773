//! The values of settings that spell bytes: link addresses and patterns.

ghost use Rattle.std.specs.Prelude.{◌≡◌, ◌<◌, ◌++◌, ◌∷◌, IfOk, IfSome, Option};
ghost use Rattle.std.specs.Option.{option_map};
ghost use Rattle.policy_text.specs.Bytes.{hex_digit_of, byte_of_digits, byte_of, six_of, mac_of, bytes_of, limited, pattern_of};

use crate::value::cut;
use std::alloc::{AllocError, Global};

/// The most bytes of a pattern.
const MAX_PATTERN: usize = 256;

/// A link address (IEEE 802): six pairs of hexadecimal digits, of either case, separated by colons.
#[tactic(auto, using(crate::proofs::Splitting::some_part, crate::proofs::Splitting::mac_none))]
pub fn mac(text: &[u8]) -> Option<[u8; 6]>
    ensures { result ≡ mac_of text.now }
{
    let (a, rest) = cut(text, b':')?;
    let (b, rest) = cut(rest, b':')?;
    let (c, rest) = cut(rest, b':')?;
    let (d, rest) = cut(rest, b':')?;
    let (e, f) = cut(rest, b':')?;
    if cut(f, b':').is_some() {
        return None;
    }
    six(a, b, c, d, e, f)
}

fn six(a: &[u8], b: &[u8], c: &[u8], d: &[u8], e: &[u8], f: &[u8]) -> Option<[u8; 6]>
    ensures { result ≡ six_of a.now b.now c.now d.now e.now f.now }
{
    let a = byte(a)?;
    let b = byte(b)?;
    let c = byte(c)?;
    let d = byte(d)?;
    let e = byte(e)?;
    let f = byte(f)?;
    Some([a, b, c, d, e, f])
}

fn byte(text: &[u8]) -> Option<u8>
    ensures { result ≡ byte_of text.now }
{
    match text {
        [high, low] => byte_of_digits(*high, *low),
        _ => None,
    }
}

fn byte_of_digits(high: u8, low: u8) -> Option<u8>
    ensures { result ≡ byte_of_digits high low }
{
    let high = hex_digit(high)?;
    let low = hex_digit(low)?;
    Some(high * 16 + low)
}

/// The value of a hexadecimal digit, of either case.
pub(crate) fn hex_digit(b: u8) -> Option<u8>
    ensures value { result ≡ hex_digit_of b }
    ensures small { IfSome result (λ d. d < 16) }
{
    match b {
        b'0'..=b'9' => Some(b - b'0'),
        b'a'..=b'f' => Some(b - b'a' + 10),
        b'A'..=b'F' => Some(b - b'A' + 10),
        _ => None,
    }
}

/// A pattern of 1 to 256 bytes: `text` and the bytes of a word, or `hex` and pairs of hexadecimal
/// digits, of either case.
pub fn pattern(alloc: Global, form: &[u8], word: &[u8]) -> Result<Option<Vec<u8>>, AllocError>
    ensures { IfOk result (λ o. option_map (λ v. v.items) o ≡ pattern_of form.now word.now) }
{
    if form == b"text".as_slice() {
        return Ok(limited(word.to_vec(alloc)?));
    }
    if form == b"hex".as_slice() {
        let Some(bytes) = bytes_of(alloc, word)? else {
            return Ok(None);
        };
        return Ok(limited(bytes));
    }
    Ok(None)
}

fn limited(bytes: Vec<u8>) -> Option<Vec<u8>>
    ensures { option_map (λ v. v.items) result ≡ limited bytes.items }
{
    if bytes.is_empty() || bytes.len() > MAX_PATTERN {
        None
    } else {
        Some(bytes)
    }
}

fn bytes_of(alloc: Global, digits: &[u8]) -> Result<Option<Vec<u8>>, AllocError>
    ensures { IfOk result (λ o. option_map (λ v. v.items) o ≡ bytes_of digits.now) }
{
    let mut bytes = Vec::new(alloc);
    let mut at = 0;
    'pairs: while at < digits.len() {
        if at + 1 == digits.len() {
            return Ok(None);
        }
        let Some(byte) = byte_of_digits(digits[at], digits[at + 1]) else {
            return Ok(None);
        };
        bytes.push(byte)?;
        at += 2;
    }
    Ok(Some(bytes))
}
