//! The kinds of functions, the forms of their lines, and which word of a line doesn't fit them. The forms and the clauses that words
//! are compared with are those that are shown.

use crate::lines::{Row, is_one_of, part, text_beside, until};
use crate::page::Page;
use action_profile::Kind;
use policy_text::{address, address6, mac, number, prefix, prefix6, range};

/// The most bytes of a pattern.
const MAX_PATTERN: usize = 256;

/// How many clauses there are.
const CLAUSES: usize = 8;

/// The flags of TCP that a clause may name.
const FLAGS: &[&[u8]] = &[b"fin", b"syn", b"rst", b"psh", b"ack", b"urg"];

/// The greatest number that a form has.
const GREATEST: u64 = 4_294_967_295;

/// The number of alternatives at one place, at most.
const ALTERNATIVES: usize = 3;

/// The forms of the lines of a function of this kind, one a line.
pub fn forms_of(kind: Kind) -> &'static str {
    match kind {
        Kind::Firewall => "  set default allow|deny\n  rule allow|deny CLAUSE ..",
        Kind::Signature | Kind::Redactor => "  rule text WORD\n  rule hex DIGITS",
        Kind::Nat => "  set inside IPV4-PREFIX\n  set public IPV4-ADDRESS\n  set ports LO-HI",
        Kind::Balancer => "  set vip ADDRESS\n  rule backend ADDRESS",
        Kind::Limiter => "  set rate 1-4294967295\n  set burst 1-4294967295",
        Kind::Marker => "  rule tos 0-255 CLAUSE ..",
        Kind::Nexthop => "  rule PREFIX to MAC from MAC",
        Kind::Tagger => "  rule vid 0-4095 pcp 0-7 CLAUSE ..",
        Kind::Encap => "  set entry IPV4-ADDRESS\n  set exit IPV4-ADDRESS\n  set ttl 1-255",
        Kind::Decap => "  set exit IPV4-ADDRESS",
        Kind::Monitor | Kind::Hop | Kind::Untagger => "",
    }
}

/// The article of the name of this kind.
pub fn article_of(kind: Kind) -> &'static str {
    match kind {
        Kind::Encap | Kind::Untagger => "an",
        _ => "a",
    }
}

/// The clauses that a line of this kind takes.
pub fn clauses_of(kind: Kind) -> &'static str {
    match kind {
        Kind::Marker => {
            "src PREFIX, dst PREFIX, sport PORTS, dport PORTS, proto tcp|udp|0-255, version 4|6, flags FLAG .."
        }
        Kind::Tagger => "src PREFIX",
        _ => ALL_CLAUSES,
    }
}

/// All clauses.
pub const ALL_CLAUSES: &str =
    "src PREFIX, dst PREFIX, sport PORTS, dport PORTS, proto tcp|udp|0-255, tag 0-4095|none, version 4|6, flags FLAG ..";

/// The lines that a function of this kind must have.
pub fn required_of(kind: Kind) -> &'static str {
    match kind {
        Kind::Nat => "set inside, set public and set ports",
        Kind::Balancer => "set vip and at least one rule backend",
        Kind::Limiter => "set rate and set burst",
        Kind::Encap => "set entry, set exit and set ttl",
        Kind::Decap => "set exit",
        _ => "nothing",
    }
}

/// What the forms of this kind do not say.
pub fn note_of(kind: Kind) -> &'static str {
    match kind {
        Kind::Limiter => {
            "the rate is in bytes a second and the burst in bytes: 10 Mbit/s are `set rate 1250000`"
        }
        _ => "",
    }
}

/// The forms of the lines that begin with this word, one a line.
pub fn forms_of_line(first: &[u8]) -> &'static str {
    text_beside(LINE_FORMS, first)
}

const LINE_FORMS: &[(&[u8], &str)] = &[
    (b"chain", "  chain NAME\n  chain NAME match CLAUSE .."),
    (b"fn", "  fn NAME KIND"),
    (b"order", "  order NAME before NAME"),
    (b"priority", "  priority NAME > NAME"),
    (b"position", "  position NAME first|last"),
    (b"set", "  set WORD .."),
    (b"rule", "  rule WORD .."),
];

/// The place up to which a line fits the best of these forms, or nothing if it fits one of them whole.
pub fn best_misfit(page: &mut Page, forms: &str, clauses: &str, row: Row<'_>) -> Option<usize> {
    let clauses = Row::new(0, clauses.as_bytes());
    let mut best = 0;
    for form in &page.rows(forms.as_bytes()) {
        match misfit(*form, clauses, row) {
            None => return None,
            Some(place) => best = place.max(best),
        }
    }
    Some(best)
}

// The place of the first word that doesn't fit a form, is missing or is one too many.
fn misfit(form: Row<'_>, clauses: Row<'_>, row: Row<'_>) -> Option<usize> {
    for place in 0..form.text.len() {
        let wanted = form.word(place);
        let word = row.word(place);
        if wanted == b"CLAUSE".as_slice() {
            return clauses_misfit(clauses, row, place);
        }
        if wanted.is_empty() && word.is_empty() {
            return None;
        }
        if word.is_empty() || !fits(wanted, word) {
            return Some(place);
        }
    }
    None
}

// The place of the first word, from this place on, that doesn't fit clauses, is missing, or begins a clause a second time.
fn clauses_misfit(clauses: Row<'_>, row: Row<'_>, from: usize) -> Option<usize> {
    let mut place = from;
    for _ in 0..=CLAUSES {
        let lead = row.word(place);
        if lead.is_empty() {
            return None;
        }
        let wanted = wanted_of(clauses, lead);
        if wanted.is_empty() || is_between(row, from, place, lead) {
            return Some(place);
        }
        let value = place.saturating_add(1);
        if row.word(value).is_empty() || !fits(wanted, row.word(value)) {
            return Some(value);
        }
        place = value.saturating_add(1);
        if is_flag(row.word(value)) {
            place = after_flags(row, value);
        }
    }
    None
}

// Is the word at one of the places from the first to before the second?
fn is_between(row: Row<'_>, from: usize, to: usize, word: &[u8]) -> bool {
    for place in from..to {
        if row.word(place) == word {
            return true;
        }
    }
    false
}

// The place after the flags that begin at this place, of which no two name one flag.
fn after_flags(row: Row<'_>, from: usize) -> usize {
    let mut place = from.saturating_add(1);
    for _ in FLAGS {
        let flag = row.word(place);
        if !is_flag(flag) || names_flag(row, from, place, flag) {
            return place;
        }
        place = place.saturating_add(1);
    }
    place
}

// Is the flag named at one of the places from the first to before the second?
fn names_flag(row: Row<'_>, from: usize, to: usize, flag: &[u8]) -> bool {
    for place in from..to {
        if name_of_flag(row.word(place)) == name_of_flag(flag) {
            return true;
        }
    }
    false
}

/// Is it a flag of TCP, alone or with `!` before it?
pub fn is_flag(word: &[u8]) -> bool {
    is_one_of(name_of_flag(word), FLAGS)
}

// A flag without `!`.
fn name_of_flag(word: &[u8]) -> &[u8] {
    if word.starts_with(b"!") {
        part(word, 1, word.len())
    } else {
        word
    }
}

// What has to follow the first word of a clause, or nothing if there is no such clause.
fn wanted_of<'a>(clauses: Row<'a>, lead: &[u8]) -> &'a [u8] {
    clauses.word(place_of_word(clauses, 0, lead).saturating_add(1))
}

// The place of the first clause, from this place on, that begins with a word, or the place after all of them.
fn place_of_word(row: Row<'_>, from: usize, lead: &[u8]) -> usize {
    let mut place = from;
    for _ in 0..CLAUSES {
        if row.word(place) == lead {
            return place;
        }
        place = place.saturating_add(2);
    }
    place
}

// Does a word fit one of the alternatives of a form, which have bars between them and may end with a comma?
fn fits(wanted: &[u8], word: &[u8]) -> bool {
    let mut rest = &wanted[..until(wanted, b',')];
    for _ in 0..ALTERNATIVES {
        let end = until(rest, b'|');
        if fits_one(&rest[..end], word) {
            return true;
        }
        rest = part(rest, end.saturating_add(1), rest.len());
    }
    false
}

fn fits_one(wanted: &[u8], word: &[u8]) -> bool {
    match value_of(wanted) {
        Value::Prefix => prefix(word).is_some() || prefix6(word).is_some(),
        Value::Address => address(word).is_some() || address6(word).is_some(),
        Value::Ipv4Prefix => prefix(word).is_some(),
        Value::Ipv4Address => address(word).is_some(),
        Value::Ports => range(word).is_some(),
        Value::PairOfPorts => are_ports(word),
        Value::Mac => mac(word).is_some(),
        Value::Pattern => word.len() <= MAX_PATTERN,
        Value::Digits => are_digits(word),
        Value::Flag => is_flag(word),
        Value::Other => fits_other(wanted, word),
    }
}

/// What a word of a form means.
#[derive(Clone, Copy)]
enum Value {
    Prefix,
    Address,
    Ipv4Prefix,
    Ipv4Address,
    Ports,
    PairOfPorts,
    Mac,
    Pattern,
    Digits,
    Flag,
    /// The numbers of a range, or the word itself.
    Other,
}

const VALUES: &[(&[u8], Value)] = &[
    (b"PREFIX", Value::Prefix),
    (b"ADDRESS", Value::Address),
    (b"IPV4-PREFIX", Value::Ipv4Prefix),
    (b"IPV4-ADDRESS", Value::Ipv4Address),
    (b"PORTS", Value::Ports),
    (b"LO-HI", Value::PairOfPorts),
    (b"MAC", Value::Mac),
    (b"WORD", Value::Pattern),
    (b"DIGITS", Value::Digits),
    (b"FLAG", Value::Flag),
];

fn value_of(wanted: &[u8]) -> Value {
    for (word, value) in VALUES {
        if *word == wanted {
            return *value;
        }
    }
    Value::Other
}

fn fits_other(wanted: &[u8], word: &[u8]) -> bool {
    if until(wanted, b'-') < wanted.len() {
        is_within(wanted, word)
    } else {
        wanted == word
    }
}

// Two ports from 1 on with a dash, the first at most the second.
fn are_ports(word: &[u8]) -> bool {
    match range(word) {
        Some((low, _)) => low > 0 && until(word, b'-') < word.len(),
        None => false,
    }
}

// Pairs of hexadecimal digits.
fn are_digits(word: &[u8]) -> bool {
    for digit in word {
        if !digit.is_ascii_hexdigit() {
            return false;
        }
    }
    word.len() % 2 == 0 && word.len() / 2 <= MAX_PATTERN
}

// Is a word a number between these, which have a dash between them?
fn is_within(wanted: &[u8], word: &[u8]) -> bool {
    let dash = until(wanted, b'-');
    let most = part(wanted, dash.saturating_add(1), wanted.len());
    match (number_of(&wanted[..dash]), number_of(word), number_of(most)) {
        (Some(least), Some(value), Some(most)) => least <= value && value <= most,
        _ => false,
    }
}

fn number_of(word: &[u8]) -> Option<u64> {
    number(word, 20, GREATEST)
}
