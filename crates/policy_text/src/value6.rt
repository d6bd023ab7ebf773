//! IPv6 addresses and prefixes as text (RFC 4291, 2.2 and 2.3).

ghost use Rattle.std.specs.Prelude.{◌≡◌, ◌+◌, ◌≤◌, length, IfSome};
ghost use Rattle.std.specs.Option.{option_map, option_and_then};
ghost use Rattle.policy_text.specs.Addresses6.{group_of, groups_of, gap_in, all_eight, groups_beside, number_of_groups, address6_of, prefix6_of};
ghost use Rattle.policy_text.specs.Groups.{IsNarrow, packed};

use crate::bytes::hex_digit;
use crate::value::{cut, number};

/// An IPv6 address (RFC 4291, 2.2): eight groups of 1 to 4 hexadecimal digits, of either case, separated by colons. One
/// run of one or more groups of zero may be written as `::`. The address's first byte is in the highest bits.
#[tactic(auto, unfolding(crate::specs::Addresses6::address6_of))]
pub fn address6(text: &[u8]) -> Option<u128>
    ensures { result ≡ address6_of text.now }
{
    match gap_in(text) {
        None => all_eight(text),
        Some(gap) => around_gap(&text[..gap], &text[gap + 2..]),
    }
}

/// An IPv6 prefix (RFC 4291, 2.3): an address, which means 128 bits, or an address, a slash and the length of the
/// prefix, in one to three digits.
#[tactic(auto, using(crate::proofs::Splitting::some_part, crate::proofs::Splitting::prefix6_none))]
pub fn prefix6(text: &[u8]) -> Option<(u128, u8)>
    ensures { result ≡ prefix6_of text.now }
{
    let Some((front, bits)) = cut(text, b'/') else {
        let whole = address6(text)?;
        return Some((whole, 128));
    };
    if cut(bits, b'/').is_some() {
        return None;
    }
    let front = address6(front)?;
    let bits = number(bits, 3, 128)?;
    Some((front, bits as u8))
}

// The place of the first `::`.
fn gap_in(text: &[u8]) -> Option<usize>
    ensures first { result ≡ gap_in text.now }
    ensures within { IfSome result (λ gap. gap + 2 ≤ length text.now) }
{
    text.iter()
        .zip(text.iter().skip(1))
        .position(|(a, b)| *a == b':' && *b == b':')
}

// An address with all of its groups.
fn all_eight(text: &[u8]) -> Option<u128>
    ensures { result ≡ option_map number_of_groups (option_and_then all_eight (groups_of text.now)) }
{
    let groups = read_groups(text)?;
    if groups.count == 8 {
        Some(groups.value)
    } else {
        None
    }
}

// An address that has `::` between these two texts.
fn around_gap(front: &[u8], back: &[u8]) -> Option<u128>
    ensures { result ≡ option_map number_of_groups (groups_beside front.now back.now) }
{
    let front = read_groups(front)?;
    let back = read_groups(back)?;
    if front.count + back.count < 8 {
        Some(front.in_front() | back.value)
    } else {
        None
    }
}

// At most eight groups, separated by colons.
fn read_groups(text: &[u8]) -> Option<Groups>
    ensures read { result ≡ option_and_then packed (groups_of text.now) }
    ensures narrow { IfSome result (λ read. IsNarrow read) }
{
    let mut groups = Groups { value: 0, count: 0 };
    if text.is_empty() {
        return Some(groups);
    }
    let mut rest = text;
    'parts: while let Some((part, behind)) = cut(rest, b':') {
        groups = groups.with(part)?;
        rest = behind;
    }
    groups.with(rest)
}

// The 16 bits of a group.
fn group(text: &[u8]) -> Option<u16>
    ensures { result ≡ group_of text.now }
{
    if text.is_empty() || text.len() > 4 {
        return None;
    }
    let mut value = 0u16;
    'digits: for digit in text {
        value = value * 16 + u16::from(hex_digit(*digit)?);
    }
    Some(value)
}

/// Groups next to each other as one number, the last in the lowest bits.
#[derive(Clone, Copy)]
struct Groups {
    value: u128,
    count: u32,
}

impl Groups {
    ghost use Rattle.std.specs.Prelude.{◌≡◌, ◌-◌, ◌*◌, ◌^◌, IfSome};
    ghost use Rattle.policy_text.specs.Groups.{IsNarrow, with_part};

    // These groups and the group of this text after them, if there is room for it.
    fn with(self, part: &[u8]) -> Option<Groups>
        requires { IsNarrow self }
        ensures more { result ≡ with_part self part.now }
        ensures narrow { IfSome result (λ read. IsNarrow read) }
    {
        let group = group(part)?;
        if self.count >= 8 {
            return None;
        }
        Some(Groups {
            value: self.value << 16 | u128::from(group),
            count: self.count + 1,
        })
    }

    // The number of an address that begins with these groups and continues with zeros.
    fn in_front(self) -> u128
        requires { IsNarrow self }
        ensures { result ≡ self.value * 2 ^ (16 * (8 - self.count)) }
    {
        if self.count == 0 {
            0
        } else {
            self.value << (16 * (8 - self.count))
        }
    }
}
