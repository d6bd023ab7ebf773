//! Patterns that are hardly spelled as they are meant.
ghost use Rattle.std.specs.Prelude.{◌≡◌, ◌++◌, ◌==◌, map, position, IfOk, OnOk};
ghost use Rattle.std.specs.List.{list_any, slice_split};
ghost use Rattle.policy_lint.specs.Patterns.{byte_at, from_end, is_quote, is_quoted, ends_in_comma, is_glob, is_sign, ends_as_regex, is_regex, has_patterns, is_pattern_line, text_of, is_after_word, is_cut, cut_lines, is_cut_at, told_pattern, told_patterns};
ghost use Rattle.policy_text.specs.Lines.{is_blank, is_comment_sign};

use crate::asking::push_if;
use crate::finding::Finding;
use crate::rule_line::word_of;
use action_profile::Kind;
use item_list::Items;
use policy_text::{FunctionDecl, Setting};
use std::alloc::{AllocError, Global};

/// Which lines of a text have a comment that begins right after a word, line by line. Its one refusal is that there is no memory.
pub fn cut_lines(alloc: Global, text: &[u8]) -> Result<Items<bool>, AllocError>
    ensures { IfOk result (λ cuts. cuts ≡ cut_lines text.now) }
{
    let lines = lines_of(alloc, text)?;
    let cuts = cuts_of(alloc, &lines)?;
    Ok(Items::new(cuts))
}

fn lines_of(alloc: Global, text: &[u8]) -> Result<Vec<&[u8]>, AllocError>
    ensures { IfOk result (λ lines. map (λ line. line.now) lines.items ≡ slice_split (λ b. b == 10) text.now) }
{
    text.split(|b| *b == b'\n').collect(alloc)
}

fn cuts_of(alloc: Global, lines: &[&[u8]]) -> Result<Vec<bool>, AllocError>
    ensures { IfOk result (λ cuts. cuts.items ≡ map (λ line. is_cut line.now) lines.now) }
{
    lines.iter().map(|line| is_cut(line)).collect(alloc)
}

fn is_cut(line: &[u8]) -> bool
    ensures { result ≡ is_cut line.now }
{
    match sign_in(line) {
        Some(place) => is_after_word(line, place),
        None => false,
    }
}

// Where a comment begins.
fn sign_in(line: &[u8]) -> Option<usize>
    ensures { result ≡ position is_comment_sign line.now }
{
    line.iter().position(|b| *b == b'#')
}

fn is_after_word(line: &[u8], place: usize) -> bool
    ensures { result ≡ is_after_word line.now place }
{
    place > 0 && !is_blank(byte_at(line, place.saturating_sub(1)))
}

fn is_blank(b: u8) -> bool
    ensures { result ≡ is_blank b }
{
    b == b' ' || b == b'\t'
}

/// Adds what is odd in the patterns of a function.
#[tactic(auto, using(crate::proofs::Steps::begins, crate::proofs::Steps::ends))]
pub fn push_patterns(
    found: &mut Items<Finding>,
    cuts: &[bool],
    decl: &FunctionDecl,
) -> Result<(), AllocError>
    ensures { OnOk result (found.new ≡ found.old ++ told_patterns cuts.now decl.now) }
{
    let kind = decl.kind;
    let settings = decl.settings.as_slice();
    'settings: for place in 0..settings.len() {
        push_pattern(found, cuts, kind, &settings[place])?;
    }
    Ok(())
}

fn push_pattern(
    found: &mut Items<Finding>,
    cuts: &[bool],
    kind: Kind,
    setting: &Setting,
) -> Result<(), AllocError>
    ensures { OnOk result (found.new ≡ found.old ++ told_pattern cuts.now kind setting.now) }
{
    let line = setting.line;
    let word = text_of(kind, setting);
    let is_cut = is_pattern_line(kind, setting) && is_cut_at(cuts, line);
    push_if(found, is_quoted(word), Finding::QuotedPattern { line })?;
    push_if(found, ends_in_comma(word), Finding::CommaPattern { line })?;
    push_if(found, is_cut, Finding::CutPattern { line })?;
    push_if(found, is_glob(word), Finding::GlobPattern { line })?;
    push_if(found, is_regex(word), Finding::RegexPattern { line })
}

fn is_cut_at(cuts: &[bool], line: u32) -> bool
    ensures { result ≡ is_cut_at cuts.now line }
{
    match cuts.get((line as usize).saturating_sub(1)) {
        Some(is_cut) => *is_cut,
        None => false,
    }
}

/// The word of a pattern that is a text, none if the line has none.
pub fn text_of(kind: Kind, setting: &Setting) -> &[u8]
    ensures { result.now ≡ text_of kind setting.now }
{
    let words = setting.words.as_slice();
    if is_pattern_line(kind, setting) && word_of(words, 1) == b"text".as_slice() {
        word_of(words, 2)
    } else {
        &[]
    }
}

fn is_pattern_line(kind: Kind, setting: &Setting) -> bool
    ensures { result ≡ is_pattern_line kind setting.now }
{
    has_patterns(kind) && word_of(setting.words.as_slice(), 0) == b"rule".as_slice()
}

fn has_patterns(kind: Kind) -> bool
    ensures { result ≡ has_patterns kind }
{
    matches!(kind, Kind::Signature | Kind::Redactor)
}

// A byte of a word, 0 past its end.
fn byte_at(word: &[u8], place: usize) -> u8
    ensures { result ≡ byte_at word.now place }
{
    match word.get(place) {
        Some(b) => *b,
        None => 0,
    }
}

// The last byte.
fn last(word: &[u8]) -> u8
    ensures { result ≡ from_end word.now 0 }
{
    byte_at(word, word.len().saturating_sub(1))
}

// The one before it.
fn last_but_one(word: &[u8]) -> u8
    ensures { result ≡ from_end word.now 1 }
{
    byte_at(word, word.len().saturating_sub(2))
}

fn is_quoted(word: &[u8]) -> bool
    ensures { result ≡ is_quoted word.now }
{
    word.len() > 1 && is_quote(byte_at(word, 0)) && last(word) == byte_at(word, 0)
}

fn is_quote(b: u8) -> bool
    ensures { result ≡ is_quote b }
{
    b == b'"' || b == b'\''
}

fn ends_in_comma(word: &[u8]) -> bool
    ensures { result ≡ ends_in_comma word.now }
{
    word.len() > 1 && last(word) == b','
}

fn is_glob(word: &[u8]) -> bool
    ensures { result ≡ is_glob word.now }
{
    word.len() > 1 && (byte_at(word, 0) == b'*' || last(word) == b'*')
}

fn is_regex(word: &[u8]) -> bool
    ensures { result ≡ is_regex word.now }
{
    word.len() > 2 && byte_at(word, 0) == b'/' && ends_as_regex(word)
}

fn ends_as_regex(word: &[u8]) -> bool
    ensures { result ≡ ends_as_regex word.now }
{
    (last(word) == b'i' && last_but_one(word) == b'/') || (last(word) == b'/' && has_sign(word))
}

fn has_sign(word: &[u8]) -> bool
    ensures { result ≡ list_any is_sign word.now }
{
    word.iter().any(|b| is_sign(*b))
}

fn is_sign(b: u8) -> bool
    ensures { result ≡ is_sign b }
{
    b == b'\\'
        || b == b'^'
        || b == b'$'
        || b == b'['
        || b == b'('
        || b == b'|'
        || b == b'*'
        || b == b'+'
}
