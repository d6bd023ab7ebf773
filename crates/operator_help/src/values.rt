//! Values in a form that a policy does not have, each with the form to write.

use crate::lines::{Row, is_one_of, part, until};
use crate::page::Page;
use crate::words::{MARKS, SERVICES, UNITS, number_for};
use policy_text::{address, address6, number, prefix, prefix6};

/// The greatest rate, and the greatest number of 32 bits.
const GREATEST: u64 = 4_294_967_295;

const PREFIX: &str = "a prefix has the number of its bits after `/`: write `{}/{}`";

const RANGE: &str = "a range of addresses is written as prefixes, each in a line of its own:";

const RANGE_PART: &str = "  {}.{}.{}.{}/{}";

const RANGE_REST: &str = "  and so on";

/// The most prefixes of a range that are shown.
const MAX_PARTS: usize = 16;

const BRACKETS: &str = "an address of IPv6 has no brackets and no port: write `{}`";

const WITH_PORT: &str =
    "an address has no port: write `{}`, and in a rule the port by `sport` or `dport`";

const BACKEND_PORT: &str =
    "a backend has no port, since a balancer changes addresses alone: write `{}`";

const SHORT: &str = "an address of IPv4 has four numbers: write `{}`";

const STARS: &str =
    "`*` is no number: an address of IPv4 and the number of its bits stand for many, as 10.1.0.0/16 for 10.1.*.*";

const NO_CLAUSE: &str = "an address follows `src` or `dst`: write `src {}` or `dst {}`";

const HOST: &str =
    "names of hosts aren't looked up: write an address, as `getent ahosts {}` prints it";

const PORTS: &str = "a range has `-` between its ends: write `{}-{}`";

const SERVICE: &str = "a port is a number: `{}` is {}";

const OTHER_SERVICE: &str = "a port is a number, as `getent services {}` prints it";

const MARK: &str = "a tos is a number, 4 times the DSCP: `{}` is {}";

const HEXADECIMAL: &str = "a number is written in decimal digits: `{}` is {}";

const RATE: &str = "the unit is bytes a second: write `set rate {}`";

const RATE_UNIT: &str =
    "the unit is bytes a second, and is not written: 10 Mbit/s are `set rate 1250000`";

const BURST_UNIT: &str =
    "the unit is bytes, and is not written: ten packets of 1500 bytes are `set burst 15000`";

/// Words that an address follows.
const BEFORE_ADDRESSES: &[&[u8]] = &[
    b"src", b"dst", b"vip", b"backend", b"inside", b"public", b"entry", b"exit",
];

/// Words that a port follows.
const BEFORE_PORTS: &[&[u8]] = &[b"sport", b"dport", b"ports"];

/// Adds the form to write in place of the word at a place, if it is a value that is known here. Returns whether it is.
pub fn say_value(page: &mut Page, row: Row<'_>, place: usize) -> bool {
    say_amount(page, row, place)
        || say_hexadecimal(page, row.word(place))
        || say_number(page, row, place)
        || say_network(page, row, place)
}

/// Adds how to get the number or the address whose name is at a place, if one belongs there.
pub fn say_name(page: &mut Page, row: Row<'_>, place: usize) {
    let lead = lead_of(row, place);
    if is_one_of(lead, BEFORE_PORTS) {
        say_letters(page, OTHER_SERVICE, row.word(place));
    } else if is_one_of(lead, BEFORE_ADDRESSES) {
        say_letters(page, HOST, row.word(place));
    }
}

// A name, which begins with a letter.
fn say_letters(page: &mut Page, text: &'static str, word: &[u8]) {
    if starts_with_letter(word) && until(word, b':') == word.len() {
        page.tell_word(text, word);
    }
}

// The word before a place.
fn lead_of<'a>(row: Row<'a>, place: usize) -> &'a [u8] {
    row.word(place.saturating_sub(1))
}

// A rate or a burst with a unit.
fn say_amount(page: &mut Page, row: Row<'_>, place: usize) -> bool {
    let word = row.word(place);
    if place < 2 || digits_of(word) == word.len() {
        false
    } else if row.names(b"set", b"rate") {
        say_rate(page, bytes_of(row));
        true
    } else if row.names(b"set", b"burst") {
        page.tell(BURST_UNIT);
        true
    } else {
        false
    }
}

fn say_rate(page: &mut Page, bytes: u64) {
    if bytes == 0 || bytes > GREATEST {
        page.tell(RATE_UNIT);
    } else {
        page.tell(RATE);
        page.number(bytes);
    }
}

// The bytes a second of a rate whose unit follows it, with blanks between them or without; 0 if its unit is not known.
fn bytes_of(row: Row<'_>) -> u64 {
    let word = row.word(2);
    let end = digits_of(word);
    let apart = part(word, end, word.len());
    let unit = if apart.is_empty() { row.word(3) } else { apart };
    match (
        number(part(word, 0, end), 10, GREATEST),
        number_for(UNITS, unit),
    ) {
        (Some(count), Some(bits)) => count.saturating_mul(bits) / 8,
        _ => 0,
    }
}

// How many digits a word begins with.
fn digits_of(word: &[u8]) -> usize {
    for (place, byte) in word.iter().enumerate() {
        if !byte.is_ascii_digit() {
            return place;
        }
    }
    word.len()
}

// A number in hexadecimal digits.
fn say_hexadecimal(page: &mut Page, word: &[u8]) -> bool {
    if !word.starts_with(b"0x") {
        return false;
    }
    match hexadecimal(part(word, 2, word.len())) {
        Some(value) => {
            page.tell_word(HEXADECIMAL, word);
            page.number(value);
            true
        }
        None => false,
    }
}

fn hexadecimal(digits: &[u8]) -> Option<u64> {
    if digits.is_empty() || digits.len() > 8 {
        return None;
    }
    let mut value = 0u64;
    for digit in digits {
        let Some(worth) = worth_of(*digit) else {
            return None;
        };
        value = value.saturating_mul(16).saturating_add(u64::from(worth));
    }
    Some(value)
}

fn worth_of(digit: u8) -> Option<u8> {
    match digit {
        b'0'..=b'9' => Some(digit.saturating_sub(b'0')),
        b'a'..=b'f' => Some(digit.saturating_sub(b'a' - 10)),
        b'A'..=b'F' => Some(digit.saturating_sub(b'A' - 10)),
        _ => None,
    }
}

// A port, or a tos.
fn say_number(page: &mut Page, row: Row<'_>, place: usize) -> bool {
    let lead = lead_of(row, place);
    if is_one_of(lead, BEFORE_PORTS) {
        say_port(page, row.word(place))
    } else {
        lead == b"tos".as_slice() && say_named(page, MARK, MARKS, row.word(place))
    }
}

// A number by its name.
fn say_named(page: &mut Page, text: &'static str, numbers: &[(&[u8], u64)], word: &[u8]) -> bool {
    match number_for(numbers, word) {
        Some(value) => {
            page.tell_word(text, word);
            page.number(value);
            true
        }
        None => false,
    }
}

fn say_port(page: &mut Page, word: &[u8]) -> bool {
    say_named(page, SERVICE, SERVICES, word) || say_ports(page, word)
}

// Two ports with a colon between them.
fn say_ports(page: &mut Page, word: &[u8]) -> bool {
    let end = until(word, b':');
    let (low, high) = (
        part(word, 0, end),
        part(word, end.saturating_add(1), word.len()),
    );
    if digits_of(low) < low.len()
        || low.is_empty()
        || high.is_empty()
        || digits_of(high) < high.len()
    {
        return false;
    }
    page.tell_word(PORTS, low);
    page.word(high);
    true
}

fn starts_with_letter(word: &[u8]) -> bool {
    match word.first() {
        Some(byte) => byte.is_ascii_alphabetic(),
        None => false,
    }
}

// An address or a prefix.
fn say_network(page: &mut Page, row: Row<'_>, place: usize) -> bool {
    let word = row.word(place);
    let lead = lead_of(row, place);
    say_mask(page, word)
        || say_bits(page, PREFIX, lead, mask_of(lead, word))
        || say_range(page, word)
        || say_brackets(page, word)
        || say_with_port(page, lead, word)
        || say_short(page, word)
        || say_stars(page, word)
        || say_bare(page, row, place)
}

// An address and a mask, with `/` between them.
fn say_mask(page: &mut Page, word: &[u8]) -> bool {
    let (front, mask) = cut(word, b'/');
    say_bits(page, PREFIX, front, mask_of(front, mask))
}

// What is before the first such byte of a word, and what is after it.
fn cut(word: &[u8], byte: u8) -> (&[u8], &[u8]) {
    let end = until(word, byte);
    (
        part(word, 0, end),
        part(word, end.saturating_add(1), word.len()),
    )
}

// The number of bits of a mask that follows an address, or of a mask of the other bits.
fn mask_of(front: &[u8], mask: &[u8]) -> Option<u64> {
    match (address(front), address(mask)) {
        (Some(_), Some(mask)) => match bits_of(mask) {
            None => bits_of(!mask),
            bits => bits,
        },
        _ => None,
    }
}

// The number of ones in a mask that has no zero before a one.
fn bits_of(mask: u32) -> Option<u64> {
    let mut each = 0u32;
    for bits in 0..33u64 {
        if each == mask {
            return Some(bits);
        }
        each = each / 2 | 0x8000_0000;
    }
    None
}

// A prefix in the form to write, if the number of its bits is known.
fn say_bits(page: &mut Page, text: &'static str, front: &[u8], bits: Option<u64>) -> bool {
    match bits {
        Some(bits) => {
            page.tell_word(text, front);
            page.number(bits);
            true
        }
        None => false,
    }
}

// Two addresses with `-` between them.
fn say_range(page: &mut Page, word: &[u8]) -> bool {
    let (low, high) = cut(word, b'-');
    match (address(low), address(high)) {
        (Some(first), Some(last)) if first <= last => {
            page.tell(RANGE);
            say_parts(page, first, last);
            true
        }
        _ => false,
    }
}

// The prefixes that a range is made of.
fn say_parts(page: &mut Page, first: u32, last: u32) {
    let mut rest = first;
    for _ in 0..MAX_PARTS {
        let (bits, end) = part_from(rest, last);
        say_part(page, rest, bits);
        if end >= last {
            return;
        }
        rest = end.saturating_add(1);
    }
    page.tell(RANGE_REST);
}

// The number of bits of the largest prefix that begins with this address and does not reach beyond the last, and its own last address.
fn part_from(first: u32, last: u32) -> (u64, u32) {
    let mut bits = 32u64;
    let mut others = 0u32;
    for _ in 0..32 {
        let more = others.saturating_mul(2).saturating_add(1);
        if first & more != 0 || first | more > last {
            return (bits, first | others);
        }
        others = more;
        bits = bits.saturating_sub(1);
    }
    (bits, first | others)
}

fn say_part(page: &mut Page, address: u32, bits: u64) {
    page.tell(RANGE_PART);
    for byte in address.to_be_bytes() {
        page.number(u64::from(byte));
    }
    page.number(bits);
}

// An address of IPv6 in brackets.
fn say_brackets(page: &mut Page, word: &[u8]) -> bool {
    let inner = part(word, 1, until(word, b']'));
    let is_known = word.starts_with(b"[") && address6(inner).is_some();
    if is_known {
        page.tell_word(BRACKETS, inner);
    }
    is_known
}

// An address of IPv4 and a port.
fn say_with_port(page: &mut Page, lead: &[u8], word: &[u8]) -> bool {
    let (front, port) = cut(word, b':');
    let is_known = address(front).is_some() && !port.is_empty();
    if is_known {
        let text = if lead == b"backend".as_slice() {
            BACKEND_PORT
        } else {
            WITH_PORT
        };
        page.tell_word(text, front);
    }
    is_known
}

// An address of IPv4, or a prefix, with less than four numbers.
fn say_short(page: &mut Page, word: &[u8]) -> bool {
    let (front, bits) = cut(word, b'/');
    let count = numbers_of(front);
    if count == 0 || count > 3 || count == 1 && bits.is_empty() {
        return false;
    }
    page.tell(SHORT);
    page.put(front);
    for _ in count..4 {
        page.put(b".0");
    }
    page.push(b'/');
    say_length(page, bits, count);
    true
}

// The number of bits of a prefix that has this many numbers, if none is written.
fn say_length(page: &mut Page, bits: &[u8], count: u64) {
    if bits.is_empty() {
        page.number(count.saturating_mul(8));
    } else {
        page.word(bits);
    }
}

// How many numbers from 0 to 255 a word has with dots between them, or 0 if it has something else.
fn numbers_of(word: &[u8]) -> u64 {
    let mut count = 0u64;
    let mut rest = word;
    for _ in 0..=word.len() {
        let (front, behind) = cut(rest, b'.');
        if number(front, 3, 255).is_none() {
            return 0;
        }
        count = count.saturating_add(1);
        if front.len() == rest.len() {
            return count;
        }
        rest = behind;
    }
    0
}

// An address with stars in it.
fn say_stars(page: &mut Page, word: &[u8]) -> bool {
    let has_stars = until(word, b'*') < word.len() && until(word, b'.') < word.len();
    if has_stars {
        page.tell(STARS);
    }
    has_stars
}

// A prefix that no word is before.
fn say_bare(page: &mut Page, row: Row<'_>, place: usize) -> bool {
    let word = row.word(place);
    let is_bare = has_clauses(row) && (prefix(word).is_some() || prefix6(word).is_some());
    if is_bare {
        page.tell_word(NO_CLAUSE, word);
        page.word(word);
    }
    is_bare
}

// May the line have `src` and `dst`?
fn has_clauses(row: Row<'_>) -> bool {
    row.begins_with(b"chain")
        || row.names(b"rule", b"allow")
        || row.names(b"rule", b"deny")
        || row.names(b"rule", b"tos")
}
