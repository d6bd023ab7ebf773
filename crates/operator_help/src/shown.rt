//! Bytes of a file as a terminal may show them.
ghost use Rattle.std.specs.Prelude.{◌≤◌, length};

use crate::page::Page;

/// The most bytes of a line that are shown.
const WIDTH: usize = 100;

/// The most of them that are shown before the mark.
const BEFORE: usize = 60;

/// Replaces what is left out.
const CUT: &[u8] = b"...";

/// The digits of hexadecimal numbers.
const DIGITS: &[u8; 16] = b"0123456789abcdef";

/// Adds a line, cut around a place if it is long. Returns the number of characters before that place.
pub fn put_shown(page: &mut Page, line: &[u8], place: usize) -> usize {
    let place = place.min(line.len());
    let start = place.saturating_sub(BEFORE);
    let end = line.len().min(start.saturating_add(WIDTH));
    let cut = cut_where(start > 0);
    page.put(cut);
    put_escaped(page, &line[start..end]);
    page.put(cut_where(end < line.len()));
    cut.len().saturating_add(width_of(&line[start..place]))
}

fn cut_where(is_cut: bool) -> &'static [u8] {
    if is_cut { CUT } else { b"" }
}

/// Adds the name of a file, whose letters may be of any alphabet. Only control characters are escaped: those of ASCII and those from
/// U+0080 to U+009F, which UTF-8 writes as the byte 0xc2 and one from 0x80 to 0x9f.
pub fn put_name(page: &mut Page, name: &str) {
    let bytes = name.as_bytes();
    let mut before = 0;
    for (place, byte) in bytes.iter().enumerate() {
        let begins_control = *byte == 0xc2 && behind(bytes, place) < 0xa0;
        let ends_control = before == 0xc2 && *byte < 0xa0;
        if begins_control || ends_control || *byte < b' ' || *byte == 0x7f {
            put_byte(page, *byte);
        } else {
            page.push(*byte);
        }
        before = *byte;
    }
}

// The byte after this place, or the greatest one.
fn behind(bytes: &[u8], place: usize) -> u8 {
    match bytes.get(place.saturating_add(1)) {
        Some(byte) => *byte,
        None => u8::MAX,
    }
}

fn put_escaped(page: &mut Page, bytes: &[u8]) {
    for byte in bytes {
        put_byte(page, *byte);
    }
}

// A printable character as it is, a tab as a blank, and any other byte by its number.
fn put_byte(page: &mut Page, byte: u8) {
    if is_printable(byte) {
        page.push(byte);
    } else if byte == b'\t' {
        page.push(b' ');
    } else {
        page.put(b"\\x");
        put_pair(page, byte);
    }
}

// The two hexadecimal digits of a byte.
fn put_pair(page: &mut Page, byte: u8) {
    page.push(DIGITS[usize::from(byte / 16)]);
    page.push(DIGITS[usize::from(byte % 16)]);
}

/// Adds bytes by their hexadecimal digits.
pub fn put_digits(page: &mut Page, bytes: &[u8]) {
    for byte in bytes {
        put_pair(page, *byte);
    }
}

// The number of characters by which bytes are shown.
fn width_of(bytes: &[u8]) -> usize {
    let mut width = 0usize;
    for byte in bytes {
        width = width.saturating_add(width_of_byte(*byte));
    }
    width
}

fn width_of_byte(byte: u8) -> usize {
    if is_printable(byte) || byte == b'\t' {
        1
    } else {
        4
    }
}

/// Is it a character of ASCII, or a blank?
pub fn is_printable(byte: u8) -> bool {
    byte >= b' ' && byte <= b'~'
}
