//! What is wrong with a policy, and what its lines may be.

use crate::forms::{ALL_CLAUSES, forms_of_line};
use crate::hints::{COMMENT, is_comment};
use crate::lines::{Row, chain_at, first_naming, is_one_of, place_of, row_at, row_of};
use crate::page::Page;
use crate::quotes::{
    Lines, Otherwise, bad_first_line, not_utf8, quote_row, quote_word, say_names, say_sign,
};
pub use crate::settings::bad_setting;
use crate::settings::{kind_at, say_kind_forms, say_word};
use crate::words::{FIRST_WORDS, kind_meant, text_for};
use action_profile::{KINDS, Kind};
use policy_text::TextFault;

/// How many statements of a cycle's chain are shown.
const MAX_STATEMENTS: usize = 20;

const CYCLE: &str =
    "each of these functions has to stand before the next, and the last before the first; take one of these lines away:";

const FORBIDDEN: &str =
    "what `{}` does depends on what `{}` did before; write the order that you mean:\n  order {} before {}\n  order {} before {}";

const CAPTURE: &str =
    "it is a capture: the policy stands first, as in `nfp run POLICY CAPTURE OUT REPORT`";

const GRAPHS: &str =
    "it is a text of graphs, which stands behind `--graph`; the policy stands first, as in `nfp plan POLICY --graph NAME`";

const OTHERWISE: Otherwise = Otherwise {
    capture: CAPTURE,
    policy: "",
    graphs: GRAPHS,
};

const IN_FUNCTION: &str =
    "a line `{}` stands behind the line `fn NAME KIND` of its function, in the same chain";

const IN_CHAIN: &str = "a line `{}` stands behind the line `chain NAME` of its chain";

const NO_LINE: &str =
    "no line begins with `{}`, but with one of: chain fn set rule order priority position";

const CLAUSES: &str =
    "a CLAUSE, each at most once, is: {}\na PREFIX is as 10.1.0.0/16, 10.1.2.3 or 2001:db8::/32, PORTS are as 80 or 1000-1999\na FLAG is fin, syn, rst, psh, ack or urg, with `!` before it if it has to be 0";

const LONG: &str = "{}: a policy has at most 1048576 bytes";

const REVERSED: &str = "in `priority A > B` the function A stands behind B";

const FUNCTIONS: &str = "a policy has at most 64 functions, in all its chains";

const CHAINS: &str =
    "a policy has at most 16 chains\nwiden the clauses of one so that it takes the packets of two, and tell these apart by the clauses of rules, in a firewall more";

const RULES: &str = "a function has at most 256 rules";

const SECOND_FIREWALL: &str =
    "write the others in a second firewall that follows in this chain; a packet has to pass both\nso an `allow` before a `deny` of the second is needed there too, and lists of `allow` before `set default deny` can't be split so: use wider prefixes, or a chain for a part of the packets";

const SECOND_FUNCTION: &str = "write the others in a second function of this kind";

const SECOND_CHAIN: &str =
    "write the others in a second balancer in a chain of its own, which takes a part of the packets by `match`";

const BEGINS: &str = "a function is declared by `fn NAME KIND`: write `fn {} {}`";

const TURNED: &str = "the name is before the kind: write `fn {} {}`";

const OTHER_KIND: &str = "the kind that does this is another: write `fn {} {}`";

const VERSION_LINE: &str = "the first line has to be `nfp 1`";

/// What a name is.
pub const NAMES: &str = "a NAME has 1 to 32 characters of a to z, 0 to 9, _ and -, a letter first";

const UNKNOWN_KIND: &str = "`{}` is no kind";

const TAKEN: &str = "the name `{}` is taken already; rename one of the two:";

const UNDECLARED: &str = "no line `fn` before it in this chain declares `{}`";

const ELSEWHERE: &str = "it is declared here, further down or in another chain:";

/// A policy that was refused: the name of its file, and its text as it was read.
#[derive(Clone, Copy)]
pub struct PolicyText<'a> {
    pub name: &'a str,
    pub text: &'a [u8],
}

/// A text that isn't a policy.
pub fn text_fault(page: &mut Page, policy: PolicyText<'_>, fault: TextFault) {
    let rows = page.rows(policy.text);
    let lines = Lines {
        name: policy.name,
        text: policy.text,
        rows: &rows,
    };
    tell_fault(page, lines, fault);
}

// The same with the lines of the text.
fn tell_fault(page: &mut Page, lines: Lines<'_>, fault: TextFault) {
    match fault {
        TextFault::NotUtf8(place) => not_utf8(page, lines, place, OTHERWISE),
        TextFault::BadVersionLine => bad_first_line(page, lines, VERSION_LINE, OTHERWISE),
        TextFault::Syntax(line, column) => syntax(page, lines, line, column as usize),
        TextFault::UnknownKind(line) => unknown_kind(page, lines, line),
        TextFault::DuplicateName(line) => duplicate_name(page, lines, line),
        TextFault::UnknownName(line) => unknown_name(page, lines, line),
        TextFault::TooManyFunctions(line) => limit(page, lines, line, FUNCTIONS),
        TextFault::TooManyChains(line) => limit(page, lines, line, CHAINS),
        TextFault::TooManyRules(line) => too_many_rules(page, lines, line),
        TextFault::OutOfMemory => {}
    }
}

/// A text of more than 1,048,576 bytes.
pub fn too_long(page: &mut Page, policy: PolicyText<'_>) {
    page.tell(LONG);
    page.name(policy.name);
    say_sign(page, policy.text, OTHERWISE);
}

/// A chain, counted from 0, whose statements go round in a circle.
pub fn cycle(page: &mut Page, policy: PolicyText<'_>, chain: u32) {
    let rows = page.rows(policy.text);
    page.tell(CYCLE);
    quote_statements(page, policy.name, chain_at(&rows, chain));
    page.tell(REVERSED);
}

// The first statements of these lines.
fn quote_statements(page: &mut Page, name: &str, rows: &[Row<'_>]) {
    let mut left = MAX_STATEMENTS;
    for row in rows {
        if left > 0 && is_statement(*row) {
            left -= 1;
            quote_row(page, name, *row, None);
        }
    }
}

/// A priority that is forbidden.
pub fn forbidden(page: &mut Page, policy: PolicyText<'_>, line: u32) {
    let rows = page.rows(policy.text);
    let row = row_of(&rows, line);
    quote_row(page, policy.name, row, None);
    say_forbidden(page, row.word(1), row.word(3));
}

fn say_forbidden(page: &mut Page, high: &[u8], low: &[u8]) {
    page.tell(FORBIDDEN);
    page.word(high);
    page.word(low);
    page.word(low);
    page.word(high);
    page.word(high);
    page.word(low);
}

fn is_statement(row: Row<'_>) -> bool {
    is_one_of(row.word(0), STATEMENTS)
}

const STATEMENTS: &[&[u8]] = &[b"order", b"priority", b"position"];

// A line that is one too many of its kind.
fn limit(page: &mut Page, lines: Lines<'_>, line: u32, text: &'static str) {
    let row = row_of(lines.rows, line);
    quote_row(page, lines.name, row, None);
    page.tell(text);
}

// A function has one rule too many.
fn too_many_rules(page: &mut Page, lines: Lines<'_>, line: u32) {
    limit(page, lines, line, RULES);
    match kind_at(lines.rows, place_of(lines.rows, line)) {
        Some(Kind::Firewall) => page.tell(SECOND_FIREWALL),
        Some(Kind::Balancer) => page.tell(SECOND_CHAIN),
        _ => page.tell(SECOND_FUNCTION),
    }
}

// A word doesn't fit, or is missing.
fn syntax(page: &mut Page, lines: Lines<'_>, line: u32, column: usize) {
    let place = place_of(lines.rows, line);
    let row = row_at(lines.rows, place);
    let mark = column.saturating_sub(1);
    quote_row(page, lines.name, row, Some(mark));
    let word = row.place_at(mark).unwrap_or(usize::MAX);
    if word == 0 {
        say_first(page, row);
    } else {
        say_word(page, row, word);
        say_line_forms(page, lines.rows, place);
    }
}

// The first word of a line doesn't fit.
fn say_first(page: &mut Page, row: Row<'_>) {
    let first = row.word(0);
    page.tell_word(place_of_line(row), first);
    if is_comment(first) {
        page.tell(COMMENT);
    } else if Kind::named(first).is_some() {
        say_declaration(page, BEGINS, row.word(1), first);
    } else {
        page.tell_some(text_for(FIRST_WORDS, first));
    }
}

// Adds the line that declares a function, after this text.
fn say_declaration(page: &mut Page, text: &'static str, name: &[u8], kind: &[u8]) {
    page.tell_word(text, if name.is_empty() { b"NAME" } else { name });
    page.word(kind);
}

// Where such a line belongs, if there is such a line.
fn place_of_line(row: Row<'_>) -> &'static str {
    if row.is_setting() {
        IN_FUNCTION
    } else if forms_of_line(row.word(0)).is_empty() {
        NO_LINE
    } else {
        IN_CHAIN
    }
}

// The forms that the line at a place may have.
fn say_line_forms(page: &mut Page, rows: &[Row<'_>], place: usize) {
    let row = row_at(rows, place);
    match kind_at(rows, place) {
        Some(kind) if row.is_setting() => say_kind_forms(page, kind),
        _ => {
            page.tell("such a line is:");
            say_forms(page, forms_of_line(row.word(0)), ALL_CLAUSES);
        }
    }
}

/// Adds forms, and what the words in capitals mean.
pub fn say_forms(page: &mut Page, forms: &'static str, clauses: &str) {
    page.tell_some(forms);
    if forms.contains("NAME") {
        page.tell(NAMES);
    }
    if forms.contains("KIND") {
        say_kinds(page);
    }
    if forms.contains("CLAUSE") {
        page.tell(CLAUSES);
        page.say(clauses);
    }
}

// There is no such kind.
fn unknown_kind(page: &mut Page, lines: Lines<'_>, line: u32) {
    let row = row_of(lines.rows, line);
    quote_word(page, lines.name, row, 2, UNKNOWN_KIND);
    say_kind_meant(page, row);
    say_kinds(page);
}

// The line with the kind that seems to be meant.
fn say_kind_meant(page: &mut Page, row: Row<'_>) {
    if Kind::named(row.word(1)).is_some() {
        say_declaration(page, TURNED, row.word(2), row.word(1));
    } else if let Some(kind) = kind_meant(row.word(2)) {
        say_declaration(page, OTHER_KIND, row.word(1), kind.name().as_bytes());
    }
}

fn say_kinds(page: &mut Page) {
    page.tell("the kinds are:{}");
    for kind in KINDS.iter() {
        page.push(b' ');
        page.put(kind.name().as_bytes());
    }
    page.go_on();
}

// A chain or a function before has the same name.
fn duplicate_name(page: &mut Page, lines: Lines<'_>, line: u32) {
    let row = row_of(lines.rows, line);
    quote_word(page, lines.name, row, 1, TAKEN);
    let other = first_naming(lines.rows, row.word(0), row.word(1)).unwrap_or(row);
    quote_row(page, lines.name, other, Some(other.column(1)));
}

// A statement names what isn't declared before it in its chain.
fn unknown_name(page: &mut Page, lines: Lines<'_>, line: u32) {
    let place = place_of(lines.rows, line);
    let row = row_at(lines.rows, place);
    let here = since_chain(&lines.rows[..place]);
    let at = place_of_undeclared(here, row);
    quote_word(page, lines.name, row, at, UNDECLARED);
    match declaring(lines.rows, row.word(at)) {
        Some(other) => say_elsewhere(page, lines.name, other),
        None => say_declared(page, here),
    }
}

// The place of the first name of a statement that these lines don't declare.
fn place_of_undeclared(rows: &[Row<'_>], row: Row<'_>) -> usize {
    if declaring(rows, row.word(1)).is_some() {
        3
    } else {
        1
    }
}

// The line further down or of another chain that declares what is named.
fn say_elsewhere(page: &mut Page, name: &str, row: Row<'_>) {
    page.tell(ELSEWHERE);
    quote_row(page, name, row, None);
}

/// Of these lines those from the last `chain` on.
pub fn since_chain<'r, 'a>(rows: &'r [Row<'a>]) -> &'r [Row<'a>] {
    let mut start = 0;
    for (at, row) in rows.iter().enumerate() {
        if row.begins_with(b"chain") {
            start = at;
        }
    }
    &rows[start.min(rows.len())..]
}

/// The first of these lines that declares a function of this name.
pub fn declaring<'a>(rows: &[Row<'a>], name: &[u8]) -> Option<Row<'a>> {
    first_naming(rows, b"fn", name)
}

// The functions that these lines declare.
fn say_declared(page: &mut Page, rows: &[Row<'_>]) {
    page.tell("declared are:{}");
    say_names(page, rows, b"fn");
}
