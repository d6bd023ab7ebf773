//! Lines of a text that is refused, with what is wrong in them marked.

use crate::files::{Sign, sign_of};
use crate::lines::{Row, until};
use crate::page::Page;

const NOT_UTF8: &str =
    "a byte here isn't UTF-8; save the file as UTF-8, as by `iconv -f latin1 -t utf-8 OLD >NEW` where it is Latin-1";

const BYTE_ORDER_MARK: &str =
    "{} begins with a byte order mark (the bytes EF BB BF), which some editors put before a text\nsave it without one, or take it away by: tail -c +4 {} >NEW";

const UTF16: &str =
    "it begins with a byte order mark of UTF-16: save the file as UTF-8, without a byte order mark";

/// The texts for a file that is something else than the text that is expected, or nothing.
#[derive(Clone, Copy)]
pub struct Otherwise {
    pub capture: &'static str,
    pub policy: &'static str,
    pub graphs: &'static str,
}

/// A text that is refused: the name of its file, its bytes, and its lines that aren't blank.
#[derive(Clone, Copy)]
pub struct Lines<'r> {
    pub name: &'r str,
    pub text: &'r [u8],
    pub rows: &'r [Row<'r>],
}

/// Adds a line of a file, with its number.
pub fn quote_row(page: &mut Page, name: &str, row: Row<'_>, mark: Option<usize>) {
    page.tell("{}, line {}:");
    page.name(name);
    page.number(u64::from(row.number));
    page.quote(row.text, mark);
}

/// The byte at a place is no UTF-8. The file may be something else than the text that is expected.
pub fn not_utf8(page: &mut Page, lines: Lines<'_>, place: usize, otherwise: Otherwise) {
    quote_byte(page, lines.name, lines.text, place);
    say_sign(page, lines.text, otherwise);
}

/// The first line isn't the expected one, which the text `due` names.
pub fn bad_first_line(page: &mut Page, lines: Lines<'_>, due: &'static str, otherwise: Otherwise) {
    if !tells_mark(page, lines.name, lines.text) {
        quote_first(page, lines.name, lines.rows);
        page.tell(due);
        say_sign(page, lines.text, otherwise);
    }
}

/// Adds a line with a mark under the word at a place, and a text with the word.
pub fn quote_word(page: &mut Page, name: &str, row: Row<'_>, place: usize, told: &'static str) {
    quote_row(page, name, row, Some(row.column(place)));
    page.tell_word(told, row.word(place));
}

/// Puts into their place the names of the lines that begin with this word.
pub fn say_names(page: &mut Page, rows: &[Row<'_>], first: &[u8]) {
    for row in rows {
        if row.begins_with(first) {
            page.push(b' ');
            page.put(row.word(1));
        }
    }
    page.go_on();
}

// Adds the line of the byte at a place, which is no UTF-8.
fn quote_byte(page: &mut Page, name: &str, text: &[u8], place: usize) {
    let mut start = 0;
    let mut number = 1u32;
    for (at, byte) in text.iter().enumerate() {
        if at < place && *byte == b'\n' {
            start = at.saturating_add(1);
            number = number.saturating_add(1);
        }
    }
    let rest = &text[start.min(text.len())..];
    let row = Row::new(number, &rest[..until(rest, b'\n')]);
    quote_row(page, name, row, Some(place.saturating_sub(start)));
    page.tell(NOT_UTF8);
}

// Adds the first of these lines, which isn't the expected one, or says that there is no line.
fn quote_first(page: &mut Page, name: &str, rows: &[Row<'_>]) {
    match rows.first() {
        Some(row) => quote_row(page, name, *row, Some(row.column(0))),
        None => {
            page.tell("{} has no line");
            page.name(name);
        }
    }
}

// Does a text begin with a byte order mark of UTF-8? If so, this is reported.
fn tells_mark(page: &mut Page, name: &str, text: &[u8]) -> bool {
    if !matches!(sign_of(text), Sign::Utf8) {
        return false;
    }
    page.tell(BYTE_ORDER_MARK);
    page.name(name);
    page.name(name);
    true
}

/// What else the file is, if that is known.
pub fn say_sign(page: &mut Page, text: &[u8], otherwise: Otherwise) {
    let said = match sign_of(text) {
        Sign::Pcap | Sign::Pcapng => otherwise.capture,
        Sign::Policy => otherwise.policy,
        Sign::Graphs => otherwise.graphs,
        Sign::Utf16 => UTF16,
        _ => "",
    };
    page.tell_some(said);
}
