//! What a word that does not fit seems to mean, and what to write instead.

use crate::forms::is_flag;
use crate::lines::{Row, is_one_of, part, text_beside, until};
use crate::page::Page;
use crate::shown::put_digits;
use crate::values::{say_name, say_value};
use crate::words::{CLAUSE_WORDS, VERDICTS, text_for};
use policy_text::{address6, prefix6};

/// What to write instead of words that do not fit lines of one sort.
#[derive(Clone, Copy)]
struct Hints {
    /// Of a word for the opposite.
    not: &'static str,
    /// Of a word for everything.
    any: &'static str,
    /// Of values with commas between them.
    list: &'static str,
    /// Of a clause that is in the line before this place.
    twice: &'static str,
}

const OF_A_RULE: &Hints = &Hints {
    not: "there is no `not`: the first rule that is met decides, so write the exception as a rule before this one",
    any: "a rule without a clause is met by each packet: leave the clause out",
    list: "a value is one number, range or prefix: write a rule for each",
    twice: "each clause stands once in a rule: write two rules",
};

const OF_A_CHAIN: &Hints = &Hints {
    not: "there is no `not`: a packet goes through the first chain that takes it, so write a chain for the exception before this one",
    any: "a chain without `match` takes each packet: leave the clause out",
    list: "a value is one number, range or prefix: write a chain for each",
    twice: "each clause stands once: write two chains",
};

const OF_A_SETTING: &Hints = &Hints {
    not: "",
    any: "",
    list: "a setting has one value: write one, for ports one range",
    twice: "",
};

const OF_ANOTHER: &Hints = &Hints {
    not: "",
    any: "",
    list: "",
    twice: "",
};

// The first words of lines, and the hints for words in each.
const HINTS: &[(&[u8], &Hints)] = &[
    (b"rule", OF_A_RULE),
    (b"chain", OF_A_CHAIN),
    (b"set", OF_A_SETTING),
];

const IPV4: &str =
    "it is of IPv6, and a function of this kind is set for IPv4: write an address or a prefix of IPv4";

/// Of a comment of another language.
pub const COMMENT: &str = "a comment begins with `#`";

const BLANKS: &str =
    "a pattern is one word, without quotes; one with blanks is written by its bytes:\n  rule hex {}";

const DIGITS: &str =
    "the bytes are pairs of hexadecimal digits in one word, as in `rule hex 0d0a`; a pattern has at most 256 bytes";

/// The most bytes of a pattern.
const MAX_PATTERN: usize = 256;

const ICMP: &str = "ICMP has the number 1, so write `proto 1`";

const IPIP: &str = "IP in IP has the number 4, so write `proto 4`";

const ICMP6: &str = "ICMPv6 has the number 58, so write `proto 58`";

// The names of protocols, and the text for each.
const PROTOCOLS: &[(&[u8], &str)] = &[
    (b"icmp", ICMP),
    (b"ICMP", ICMP),
    (b"igmp", "IGMP has the number 2, so write `proto 2`"),
    (b"ipip", IPIP),
    (b"ipencap", IPIP),
    (b"gre", "GRE has the number 47, so write `proto 47`"),
    (b"esp", "ESP has the number 50, so write `proto 50`"),
    (b"icmp6", ICMP6),
    (b"icmpv6", ICMP6),
    (b"ipv6-icmp", ICMP6),
    (b"sctp", "SCTP has the number 132, so write `proto 132`"),
];

// The words that begin clauses.
const CLAUSES: &[&[u8]] = &[
    b"src", b"dst", b"sport", b"dport", b"proto", b"tag", b"version", b"flags",
];

const FLAG: &str =
    "a flag is `fin`, `syn`, `rst`, `psh`, `ack` or `urg`, with `!` directly before it if it has to be 0; each stands at most once";

// The settings that are addresses or prefixes of IPv4.
const IPV4_SETTINGS: &[&[u8]] = &[b"inside", b"public", b"entry", b"exit"];

// Words for the opposite.
const NEGATIONS: &[&[u8]] = &[b"not", b"!", b"except"];

// Words for everything.
const WHOLES: &[&[u8]] = &[b"any", b"all", b"*"];

/// Adds what to write instead of the word at a place, if that is known.
pub fn say_hint(page: &mut Page, row: Row<'_>, place: usize) {
    let word = row.word(place);
    let hints = hints_of(row.word(0));
    if is_comment(word) {
        page.tell(COMMENT);
    } else if is_pattern(row) {
        say_pattern(page, row, place);
    } else if until(word, b',') < word.len() {
        page.tell_some(hints.list);
    } else if is_among_flags(row, place) {
        page.tell(FLAG);
    } else if is_second_clause(row, place) {
        page.tell_some(hints.twice);
    } else if wants_ipv4(row) && is_of_ipv6(word) {
        page.tell(IPV4);
    } else if !knows_values(row) || !say_value(page, row, place) {
        say_meaning(page, row, place, meaning_of(row, word, hints));
    }
}

// Adds what the word at a place seems to mean. A word of which nothing is known may be a name in the place of a value.
fn say_meaning(page: &mut Page, row: Row<'_>, place: usize, text: &'static str) {
    if text.is_empty() {
        say_name(page, row, place);
    } else {
        say_text(page, text, row.word(place.saturating_add(1)));
    }
}

/// Adds a text with this word in each of its places.
pub fn say_text(page: &mut Page, text: &'static str, word: &[u8]) {
    page.tell(text);
    for byte in text.as_bytes() {
        if *byte == b'{' {
            page.word(if word.is_empty() { b".." } else { word });
        }
    }
}

/// Does a word begin a comment of another language?
pub fn is_comment(word: &[u8]) -> bool {
    word.starts_with(b"//") || word.starts_with(b"/*") || word.starts_with(b";")
}

// Is it a line with values, in which forms of other languages are looked for?
fn knows_values(row: Row<'_>) -> bool {
    row.is_setting() || row.begins_with(b"chain")
}

// Is it a rule of a pattern?
fn is_pattern(row: Row<'_>) -> bool {
    row.names(b"rule", b"text") || row.names(b"rule", b"hex")
}

// A pattern that is not one word.
fn say_pattern(page: &mut Page, row: Row<'_>, place: usize) {
    let pattern = pattern_in(row);
    if row.word(1) == b"hex".as_slice() {
        page.tell(DIGITS);
    } else if place > 2 && pattern.len() <= MAX_PATTERN {
        page.tell(BLANKS);
        put_digits(page, pattern);
        page.go_on();
    }
}

// What follows `rule text`: what is in quotes, or all words.
fn pattern_in<'a>(row: Row<'a>) -> &'a [u8] {
    let start = row.column(2);
    let said = part(row.text, start, row.column(usize::MAX));
    if !said.starts_with(b"\"") {
        return said;
    }
    let inner = part(row.text, start.saturating_add(1), row.text.len());
    part(inner, 0, until(inner, b'"'))
}

// What a word of itself seems to mean.
fn meaning_of(row: Row<'_>, word: &[u8], hints: &Hints) -> &'static str {
    if is_one_of(word, NEGATIONS) || word.starts_with(b"!") {
        hints.not
    } else if is_one_of(word, WHOLES) {
        hints.any
    } else {
        text_of(row, word)
    }
}

// The text for a word of a line in the tables.
fn text_of(row: Row<'_>, word: &[u8]) -> &'static str {
    let protocol = text_beside(PROTOCOLS, word);
    if !protocol.is_empty() || !knows_values(row) {
        return protocol;
    }
    let verdict = verdict_text(row, word);
    if verdict.is_empty() {
        clause_text(row, word)
    } else {
        verdict
    }
}

// The text for another word for what a firewall does with a packet.
fn verdict_text(row: Row<'_>, word: &[u8]) -> &'static str {
    if row.is_setting() {
        text_for(VERDICTS, word)
    } else {
        ""
    }
}

// The text for another word for a clause.
fn clause_text(row: Row<'_>, word: &[u8]) -> &'static str {
    if row.begins_with(b"set") {
        ""
    } else {
        text_for(CLAUSE_WORDS, word)
    }
}

fn hints_of(first: &[u8]) -> &'static Hints {
    for (word, hints) in HINTS {
        if *word == first {
            return *hints;
        }
    }
    OF_ANOTHER
}

// Does a clause begin here that is in its line before? A rule of a pattern has no clauses.
fn is_second_clause(row: Row<'_>, place: usize) -> bool {
    is_one_of(row.word(place), CLAUSES)
        && row.word(1) != b"text".as_slice()
        && stands_before(row, place)
}

// Does a word that begins no clause follow `flags`, or a flag?
fn is_among_flags(row: Row<'_>, place: usize) -> bool {
    let before = row.word(place.saturating_sub(1));
    let word = row.word(place);
    let follows = before == b"flags".as_slice() || is_flag(before) && place > 2;
    follows && knows_values(row) && !word.is_empty() && !is_one_of(word, CLAUSES)
}

// Is the word at this place in its line before, after the first word?
fn stands_before(row: Row<'_>, place: usize) -> bool {
    for before in 1..place {
        if row.word(before) == row.word(place) {
            return true;
        }
    }
    false
}

// Is it a line that sets an address or a prefix of IPv4?
fn wants_ipv4(row: Row<'_>) -> bool {
    row.begins_with(b"set") && is_one_of(row.word(1), IPV4_SETTINGS)
}

fn is_of_ipv6(word: &[u8]) -> bool {
    address6(word).is_some() || prefix6(word).is_some()
}
