//! The values in a policy text: numbers, addresses, prefixes and ranges of ports.

ghost use Rattle.std.specs.Prelude.{◌≡◌, ◌≤◌, ◌∷◌, [], ◌==◌, ◌&&◌, ◌<◌, length, Bool, true, Option, Some, None, IfSome, MatchOption, position};
ghost use Rattle.std.specs.List.{slice_split, list_all};
ghost use Rattle.std.specs.Char.{is_ascii_digit};
ghost use Rattle.std.specs.Str.Parse.{digits_value};
ghost use Rattle.policy_text.specs.Values.{is_name, is_name_byte, is_numeral, number_of, octets_of, address_of, prefix_of, range_of, ordered};

/// Is it a name: 1 to 32 lower-case letters, digits, underscores and dashes, a letter first?
pub fn is_name(text: &[u8]) -> bool
    ensures { result ≡ is_name text.now }
{
    !text.is_empty() && text.len() <= 32 && text[0].is_ascii_lowercase() && are_name_bytes(text)
}

fn are_name_bytes(text: &[u8]) -> bool
    ensures { result ≡ list_all is_name_byte text.now }
{
    text.iter().all(|b| is_name_byte(*b))
}

fn is_name_byte(b: u8) -> bool
    ensures { result ≡ is_name_byte b }
{
    b.is_ascii_lowercase() || b.is_ascii_digit() || b == b'_' || b == b'-'
}

/// A decimal number of at most `digits` digits, with leading zeros allowed, up to `greatest`.
pub fn number(text: &[u8], digits: usize, greatest: u64) -> Option<u64>
    requires { digits ≤ 20 }
    ensures { result ≡ number_of digits greatest text.now }
{
    if text.is_empty() || text.len() > digits || !are_digits(text) {
        return None;
    }
    let value = digits_value(text);
    if value <= u128::from(greatest) {
        Some(value as u64)
    } else {
        None
    }
}

fn are_digits(text: &[u8]) -> bool
    ensures { result ≡ list_all is_ascii_digit text.now }
{
    text.iter().all(|b| b.is_ascii_digit())
}

#[tactic(auto, using(crate::proofs::Digits::read_digit))]
fn digits_value(text: &[u8]) -> u128
    requires short { length text.now ≤ 20 }
    requires digits { list_all is_ascii_digit text.now ≡ true }
    ensures { result ≡ digits_value 10 text.now }
{
    let mut value = 0u128;
    'digits: for b in text {
        value = value * 10 + u128::from(*b - b'0');
    }
    value
}

/// An IPv4 address (RFC 791): four numbers up to 255, separated by dots. Its first byte is in the highest
/// bits.
#[tactic(auto, using(crate::proofs::Splitting::some_part, crate::proofs::Splitting::address_none))]
pub fn address(text: &[u8]) -> Option<u32>
    ensures { result ≡ address_of text.now }
{
    let (a, rest) = cut(text, b'.')?;
    let (b, rest) = cut(rest, b'.')?;
    let (c, d) = cut(rest, b'.')?;
    if cut(d, b'.').is_some() {
        return None;
    }
    octets(a, b, c, d)
}

fn octets(a: &[u8], b: &[u8], c: &[u8], d: &[u8]) -> Option<u32>
    ensures { result ≡ octets_of a.now b.now c.now d.now }
{
    let a = octet(a)?;
    let b = octet(b)?;
    let c = octet(c)?;
    let d = octet(d)?;
    Some(u32::from_be_bytes([a, b, c, d]))
}

fn octet(text: &[u8]) -> Option<u8>
    ensures { result ≡ number_of 3 255 text.now }
{
    let value = number(text, 3, 255)?;
    Some(value as u8)
}

/// An IPv4 prefix: an address, which means 32 bits, or an address, a slash and the length of the prefix, in one or two
/// digits.
#[tactic(auto, using(crate::proofs::Splitting::some_part, crate::proofs::Splitting::prefix_none))]
pub fn prefix(text: &[u8]) -> Option<(u32, u8)>
    ensures { result ≡ prefix_of text.now }
{
    let Some((front, bits)) = cut(text, b'/') else {
        let whole = address(text)?;
        return Some((whole, 32));
    };
    if cut(bits, b'/').is_some() {
        return None;
    }
    let front = address(front)?;
    let bits = number(bits, 2, 32)?;
    Some((front, bits as u8))
}

/// A range of ports: one port, or two with a dash between them, the first at most the second.
#[tactic(auto, using(crate::proofs::Splitting::some_part, crate::proofs::Splitting::range_none))]
pub fn range(text: &[u8]) -> Option<(u16, u16)>
    ensures { result ≡ range_of text.now }
{
    let Some((low, high)) = cut(text, b'-') else {
        let only = port(text)?;
        return Some((only, only));
    };
    if cut(high, b'-').is_some() {
        return None;
    }
    let low = port(low)?;
    let high = port(high)?;
    if low <= high { Some((low, high)) } else { None }
}

fn port(text: &[u8]) -> Option<u16>
    ensures { result ≡ number_of 20 65535 text.now }
{
    let value = number(text, 20, 65535)?;
    Some(value as u16)
}

/// The text before the first byte `at`, and the text after it.
#[tactic(auto, using(crate::proofs::Splitting::cut_some, crate::proofs::Splitting::cut_none))]
pub(crate) fn cut(text: &[u8], at: u8) -> Option<(&[u8], &[u8])>
    ensures { MatchOption result (slice_split (λ b. b == at) text.now ≡ text.now ∷ []) (λ parts. slice_split (λ b. b == at) text.now ≡ parts.0.now ∷ slice_split (λ b. b == at) parts.1.now) }
{
    match first_at(text, at) {
        None => None,
        Some(end) => Some((&text[..end], &text[end + 1..])),
    }
}

/// The place of the first byte `at`, counted from 0.
pub(crate) fn first_at(text: &[u8], at: u8) -> Option<usize>
    ensures { result ≡ position (λ b. b == at) text.now }
{
    text.iter().position(|b| *b == at)
}
