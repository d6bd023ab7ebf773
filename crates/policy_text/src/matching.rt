//! Reads clauses from words.

ghost use Rattle.std.specs.Prelude.{◌≡◌, ◌+◌, ◌^◌, ◌<◌, ◌≤◌, [], length, map, IfOk, OnOk, Option};
ghost use Rattle.std.specs.List.{list_any};
ghost use Rattle.std.specs.Str.{bytes_eq};
ghost use Rattle.policy_text.specs.Clauses.{lead_of, leads, source_of, destination_of, protocol_of, tag_of, version_of, bit_of, is_negated, flag_of, with_flag, more_flags, clause_of, may_lead, clauses_from, clauses_of, ReadsMatch};
ghost use Rattle.policy_text.specs.ReadingOn.{ReadsOn, GivesMore};

use crate::clause::{Clause, Match};
use crate::fault::MatchFault;
use crate::name::Word;
use crate::value::{number, prefix, range};
use crate::value6::prefix6;
use item_list::Items;
use std::alloc::{AllocError, Global};

/// Reads clauses, each of a leading word and a value, or of a leading word and one or more flags. Each leading word may
/// occur once, and an empty list of words has no clauses. The fault holds the place, counted from 0, of the first word
/// that doesn't fit, or the number of words if one is missing.
pub fn read_match(alloc: Global, words: &[Word]) -> Result<Match, MatchFault>
    ensures { ReadsMatch result (clauses_of words.now) }
{
    let texts = texts_of(alloc, words)?;
    read_clauses(alloc, 0, &texts)
}

fn texts_of(alloc: Global, words: &[Word]) -> Result<Vec<&[u8]>, AllocError>
    ensures { IfOk result (λ v. map (λ x. x.now) v.items ≡ words.now) }
{
    let mut texts = Vec::new(alloc);
    'words: for w in words {
        texts.push(w.bytes())?;
    }
    Ok(texts)
}

/// Reads clauses from words of which the first has this place.
pub(crate) fn read_clauses(
    alloc: Global,
    place: usize,
    words: &[&[u8]],
) -> Result<Match, MatchFault>
    requires { place + length words.now < 2 ^ 63 }
    ensures { ReadsMatch result (clauses_from [] place (map (λ w. w.now) words.now)) }
{
    let mut clauses = Vec::new(alloc);
    let mut at = 0;
    'clauses: while at < words.len() {
        at += read_on(&mut clauses, place + at, &words[at..])?;
    }
    Ok(Match {
        clauses: Items::new(clauses),
    })
}

// Reads one more clause, or one more flag of the last clause, from words of which the first has this place. Returns the
// number of words that it took.
fn read_on(clauses: &mut Vec<Clause>, place: usize, words: &[&[u8]]) -> Result<usize, MatchFault>
    requires some { 0 < length words.now }
    requires short { place + length words.now < 2 ^ 63 }
    ensures progress { IfOk result (λ n. 0 < n) }
    ensures within { IfOk result (λ n. n ≤ length words.now) }
    ensures read { ReadsOn clauses.old.items clauses.new.items place (map (λ w. w.now) words.now) result }
{
    if !may_lead(clauses, words[0]) {
        return add_flag(clauses, place, words[0]);
    }
    if words.len() == 1 {
        return Err(MatchFault::BadWord(place + 1));
    }
    let Some(clause) = clause_of(words[0], words[1]) else {
        return Err(MatchFault::BadWord(place + 1));
    };
    clauses.push(clause)?;
    Ok(2)
}

// Adds a flag to the last clause, from the word at this place. Returns the number of words that it took.
#[tactic(auto, using(crate::proofs::Latest::set_latest))]
fn add_flag(clauses: &mut Vec<Clause>, place: usize, word: &[u8]) -> Result<usize, MatchFault>
    ensures one { IfOk result (λ n. n ≡ 1) }
    ensures more { GivesMore clauses.new.items place (more_flags clauses.old.items word.now) result }
{
    let Some(last) = clauses.last() else {
        return Err(MatchFault::BadWord(place));
    };
    let Some(more) = with_flag(word, *last) else {
        return Err(MatchFault::BadWord(place));
    };
    let end = clauses.len() - 1;
    clauses[end] = more;
    Ok(1)
}

// Flags with one more, whose bit none of them has.
fn with_flag(word: &[u8], clause: Clause) -> Option<Clause>
    ensures { result ≡ with_flag word.now clause }
{
    let Clause::Flags(mask, set) = clause else {
        return None;
    };
    let (bit, value) = flag_of(word)?;
    if mask & bit == 0 {
        Some(Clause::Flags(mask | bit, set | value))
    } else {
        None
    }
}

// May the word lead a clause after these?
fn may_lead(before: &[Clause], word: &[u8]) -> bool
    ensures { result ≡ may_lead before.now word.now }
{
    is_lead(word) && !leads_one(before, word)
}

fn is_lead(word: &[u8]) -> bool
    ensures { result ≡ list_any (bytes_eq word.now) leads }
{
    word == b"src".as_slice()
        || word == b"dst".as_slice()
        || word == b"sport".as_slice()
        || word == b"dport".as_slice()
        || word == b"proto".as_slice()
        || word == b"tag".as_slice()
        || word == b"version".as_slice()
        || word == b"flags".as_slice()
}

fn leads_one(clauses: &[Clause], word: &[u8]) -> bool
    ensures { result ≡ list_any (λ c. bytes_eq (lead_of c) word.now) clauses.now }
{
    clauses.iter().any(|c| lead_of(*c) == word)
}

fn lead_of(clause: Clause) -> &'static [u8]
    ensures { result.now ≡ lead_of clause }
{
    match clause {
        Clause::Src(_, _) => b"src",
        Clause::Dst(_, _) => b"dst",
        Clause::Src6(_, _) => b"src",
        Clause::Dst6(_, _) => b"dst",
        Clause::Sport(_, _) => b"sport",
        Clause::Dport(_, _) => b"dport",
        Clause::Proto(_) => b"proto",
        Clause::TagId(_) => b"tag",
        Clause::NoTag => b"tag",
        Clause::Version4 => b"version",
        Clause::Version6 => b"version",
        Clause::Flags(_, _) => b"flags",
    }
}

/// The clause of a leading word and its value, if they form one. The value of flags is the first of them.
pub fn clause_of(lead: &[u8], value: &[u8]) -> Option<Clause>
    ensures { result ≡ clause_of lead.now value.now }
{
    if lead == b"src".as_slice() {
        source_of(value)
    } else if lead == b"dst".as_slice() {
        destination_of(value)
    } else if lead == b"sport".as_slice() {
        range(value).map(|(low, high)| Clause::Sport(low, high))
    } else if lead == b"dport".as_slice() {
        range(value).map(|(low, high)| Clause::Dport(low, high))
    } else if lead == b"proto".as_slice() {
        protocol_of(value).map(Clause::Proto)
    } else if lead == b"tag".as_slice() {
        tag_of(value)
    } else if lead == b"version".as_slice() {
        version_of(value)
    } else if lead == b"flags".as_slice() {
        flag_of(value).map(|(mask, set)| Clause::Flags(mask, set))
    } else {
        None
    }
}

// A prefix of either version of IP.
fn source_of(value: &[u8]) -> Option<Clause>
    ensures { result ≡ source_of value.now }
{
    match prefix(value) {
        Some((address, bits)) => Some(Clause::Src(address, bits)),
        None => prefix6(value).map(|(address, bits)| Clause::Src6(address, bits)),
    }
}

fn destination_of(value: &[u8]) -> Option<Clause>
    ensures { result ≡ destination_of value.now }
{
    match prefix(value) {
        Some((address, bits)) => Some(Clause::Dst(address, bits)),
        None => prefix6(value).map(|(address, bits)| Clause::Dst6(address, bits)),
    }
}

fn protocol_of(value: &[u8]) -> Option<u8>
    ensures { result ≡ protocol_of value.now }
{
    if value == b"tcp".as_slice() {
        return Some(6);
    }
    if value == b"udp".as_slice() {
        return Some(17);
    }
    let protocol = number(value, 20, 255)?;
    Some(protocol as u8)
}

fn tag_of(value: &[u8]) -> Option<Clause>
    ensures { result ≡ tag_of value.now }
{
    if value == b"none".as_slice() {
        return Some(Clause::NoTag);
    }
    let id = number(value, 20, 4095)?;
    Some(Clause::TagId(id as u16))
}

fn version_of(value: &[u8]) -> Option<Clause>
    ensures { result ≡ version_of value.now }
{
    if value == b"4".as_slice() {
        Some(Clause::Version4)
    } else if value == b"6".as_slice() {
        Some(Clause::Version6)
    } else {
        None
    }
}

// A flag's bit, and the value that the bit has to have.
fn flag_of(word: &[u8]) -> Option<(u8, u8)>
    ensures { result ≡ flag_of word.now }
{
    if is_negated(word) {
        let bit = bit_of(&word[1..])?;
        Some((bit, 0))
    } else {
        let bit = bit_of(word)?;
        Some((bit, bit))
    }
}

fn is_negated(word: &[u8]) -> bool
    ensures { result ≡ is_negated word.now }
{
    !word.is_empty() && word[0] == b'!'
}

fn bit_of(word: &[u8]) -> Option<u8>
    ensures { result ≡ bit_of word.now }
{
    if word == b"fin".as_slice() {
        Some(1)
    } else if word == b"syn".as_slice() {
        Some(2)
    } else if word == b"rst".as_slice() {
        Some(4)
    } else if word == b"psh".as_slice() {
        Some(8)
    } else if word == b"ack".as_slice() {
        Some(16)
    } else if word == b"urg".as_slice() {
        Some(32)
    } else {
        None
    }
}
