//! What is wrong with the lines of a function.

use crate::forms::{article_of, best_misfit, clauses_of, forms_of, note_of, required_of};
use crate::hints::say_hint;
use crate::lines::{Row, last_before, place_of, row_at, rows_behind};
use crate::page::Page;
use crate::policy::{PolicyText, say_forms};
use crate::quotes::quote_row;
use action_profile::Kind;

const MISSING: &str = "a line is missing that {} {} can't be without, or it is wrong: it needs {}";

const OTHER_VERSION: &str =
    "a server has an address of the same version of IP as the one that is set: of IPv4 or of IPv6";

const LINES: &str = "the lines of {} {} are:";

const NO_LINES: &str = "{} {} has no line `set` or `rule`";

const TWICE: &str = "it is set already, in line {}; take one of the two lines away";

/// A line that a function refuses among its settings.
pub fn bad_setting(page: &mut Page, policy: PolicyText<'_>, line: u32) {
    let rows = page.rows(policy.text);
    tell_setting(page, policy.name, &rows, place_of(&rows, line));
}

// The line at this place is refused by its function.
fn tell_setting(page: &mut Page, name: &str, rows: &[Row<'_>], place: usize) {
    if let Some(kind) = kind_at(rows, place.saturating_add(1)) {
        bad_row(page, name, rows, place, kind);
        say_kind_forms(page, kind);
    }
}

// The line at this place is refused by a function of this kind.
fn bad_row(page: &mut Page, name: &str, rows: &[Row<'_>], place: usize, kind: Kind) {
    let row = row_at(rows, place);
    if row.begins_with(b"fn") {
        bad_function(page, name, row, rows_behind(rows, place), kind);
    } else {
        bad_line(page, name, row, &rows[..place.min(rows.len())], kind);
    }
}

/// The kind of the last function that these lines declare before a place.
pub fn kind_at(rows: &[Row<'_>], place: usize) -> Option<Kind> {
    match last_before(rows, place, b"fn") {
        Some(row) => Kind::named(row.word(2)),
        None => None,
    }
}

/// The forms that the lines of this kind may have.
pub fn say_kind_forms(page: &mut Page, kind: Kind) {
    let forms = forms_of(kind);
    if forms.is_empty() {
        tell_kind(page, NO_LINES, kind);
    } else {
        tell_kind(page, LINES, kind);
        say_forms(page, forms, clauses_of(kind));
        page.tell_some(note_of(kind));
    }
}

// Adds a text with the article of a kind in the first place and its name in the second.
fn tell_kind(page: &mut Page, text: &'static str, kind: Kind) {
    page.tell(text);
    page.say(article_of(kind));
    page.say(kind.name());
}

// A line that is required of a function is missing, or can't be read. Quotes the first line after that of the function which fits
// no form of its kind.
fn bad_function(page: &mut Page, name: &str, row: Row<'_>, behind: &[Row<'_>], kind: Kind) {
    quote_row(page, name, row, None);
    tell_kind(page, MISSING, kind);
    page.say(required_of(kind));
    quote_first_misfit(page, name, behind, kind);
}

// The first line of a function of this kind that fits no form, if these lines begin with its lines.
fn quote_first_misfit(page: &mut Page, name: &str, rows: &[Row<'_>], kind: Kind) {
    for row in rows {
        if !row.is_setting() || quote_misfit(page, name, *row, kind) {
            return;
        }
    }
}

// Quotes a line with a mark under the first word that fits no form of this kind, if there is such a word.
fn quote_misfit(page: &mut Page, name: &str, row: Row<'_>, kind: Kind) -> bool {
    match best_misfit(page, forms_of(kind), clauses_of(kind), row) {
        Some(place) => {
            quote_row(page, name, row, Some(row.column(place)));
            say_word(page, row, place);
            true
        }
        None => false,
    }
}

// Quotes the line that is refused, which follows these.
fn bad_line(page: &mut Page, name: &str, row: Row<'_>, before: &[Row<'_>], kind: Kind) {
    if !quote_misfit(page, name, row, kind) {
        quote_row(page, name, row, None);
        say_clash(page, name, row, before);
    }
}

// A line that fits a form is refused because it sets what is set already, or because it does not agree with others, as a server's address.
fn say_clash(page: &mut Page, name: &str, row: Row<'_>, before: &[Row<'_>]) {
    if row.begins_with(b"rule") {
        page.tell(OTHER_VERSION);
    } else if let Some(other) = setting_before(before, row.word(1)) {
        page.tell(TWICE);
        page.number(u64::from(other.number));
        quote_row(page, name, other, None);
    }
}

// The last of these lines that sets this, after the line of their function.
fn setting_before<'a>(rows: &[Row<'a>], key: &[u8]) -> Option<Row<'a>> {
    let mut last = None;
    for row in rows {
        if !row.is_setting() {
            last = None;
        } else if row.names(b"set", key) {
            last = Some(*row);
        }
    }
    last
}

/// The word at a place doesn't fit, or is missing.
pub fn say_word(page: &mut Page, row: Row<'_>, place: usize) {
    let word = row.word(place);
    if word.is_empty() {
        page.tell("a word is missing here");
    } else {
        page.tell_word("`{}` doesn't fit here", word);
        say_hint(page, row, place);
    }
}
