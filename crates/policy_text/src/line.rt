//! A policy text as numbered lines of words.

ghost use Rattle.std.specs.Prelude.{◌≡◌, ◌+◌, ◌-◌, ◌*◌, ◌^◌, ◌<◌, ◌≤◌, ◌++◌, [], ◌∷◌, length, map, drop, slice_index_or, IfOk, IfNone, OnOk, OnErr, MatchOption, position, filter};
ghost use Rattle.std.specs.List.{slice_split, before_first};
ghost use Rattle.std.specs.Str.Lines.{strip_carriage_return};
ghost use Rattle.policy_text.specs.Lines.{IsCut, IsShared, spoken, telling, is_line_feed, is_blank, is_comment_sign, content, words_of, words_from, lines_from, word_at, column_of};

use crate::value::first_at;
use std::alloc::{AllocError, Global};
use std::marker::Model;

/// A word, and the column at which it begins.
#[derive(Drop)]
pub struct WordSpan<'a> {
    column: u32,
    text: &'a [u8],
}

impl<'a> Model for WordSpan<'a> {
    ghost use Rattle.std.specs.Prelude.{ℕ, ◌+◌, ◌^◌, ◌<◌, length};
    ghost use Rattle.policy_text.specs.Lines.{PlacedWord};

    ghost Value = { PlacedWord };

    ghost view = { λ w. record { column = w.column; text = w.text.now } };

    ghost invariant = { λ w. w.column + length w.text.now < 2 ^ 32 };
}

impl<'a> WordSpan<'a> {
    fn new(column: u32, text: &'a [u8]) -> Self
        requires { column + length text.now < 2 ^ 32 }
        ensures { result ≡ record { column = column; text = text.now } }
    {
        WordSpan { column, text }
    }

    pub fn text(&self) -> &'a [u8]
        ensures { result.now ≡ self.now.text }
    {
        self.text
    }

    pub fn column(&self) -> u32
        ensures { result ≡ self.now.column }
    {
        self.column
    }

    /// One past the last column.
    pub fn end(&self) -> u32
        ensures { result ≡ self.now.column + length self.now.text }
    {
        self.column + self.text.len() as u32
    }
}

/// A line that isn't blank.
#[derive(Drop)]
pub struct Line<'a> {
    number: u32,
    words: Vec<WordSpan<'a>>,
}

impl<'a> Model for Line<'a> {
    ghost use Rattle.std.specs.Prelude.{ℕ, ◌<◌, length};
    ghost use Rattle.policy_text.specs.Lines as lines;

    ghost Value = { lines.Line };

    ghost view = { λ l. record { number = l.number; words = l.words.items } };

    ghost invariant = { λ l. 0 < length l.words.items };
}

impl<'a> Line<'a> {
    pub fn number(&self) -> u32
        ensures { result ≡ self.now.number }
    {
        self.number
    }

    pub fn words(&self) -> &[WordSpan<'a>]
        ensures words { result.now ≡ self.now.words }
        ensures some { 0 < length result.now }
    {
        &self.words
    }

    /// The text of the word at a place, counted from 0, which is empty if the word is missing.
    pub fn word(&self, place: usize) -> &'a [u8]
        ensures { result.now ≡ word_at self.now place }
    {
        match self.words.get(place) {
            None => &[],
            Some(word) => word.text(),
        }
    }

    /// The column of the word at a place, or one past the last word if it is missing.
    pub fn column(&self, place: usize) -> u32
        ensures { result ≡ column_of self.now place }
    {
        if place < self.words.len() {
            self.words[place].column()
        } else {
            self.words[self.words.len() - 1].end()
        }
    }
}

// The words of a line, which has no line feed.
fn words_of<'a>(alloc: Global, line: &'a [u8]) -> Result<Vec<WordSpan<'a>>, AllocError>
    requires { length line.now < 2 ^ 31 }
    ensures { IfOk result (λ v. v.items ≡ words_of line.now) }
{
    spans(alloc, content(line))
}

// A line without its comment and its line end.
#[tactic(auto, using(crate::proofs::Splitting::before_some, crate::proofs::Splitting::before_none))]
fn content(line: &[u8]) -> &[u8]
    ensures said { result.now ≡ content line.now }
    ensures shorter { length result.now ≤ length line.now }
{
    let line = without_return(line);
    match first_at(line, b'#') {
        None => line,
        Some(end) => &line[..end],
    }
}

fn without_return(line: &[u8]) -> &[u8]
    ensures said { result.now ≡ strip_carriage_return line.now }
    ensures shorter { length result.now ≤ length line.now }
{
    if !line.is_empty() && line[line.len() - 1] == b'\r' {
        &line[..line.len() - 1]
    } else {
        line
    }
}

#[tactic(auto, using(crate::proofs::Splitting::more_words, crate::proofs::Splitting::all_words))]
fn spans<'a>(alloc: Global, text: &'a [u8]) -> Result<Vec<WordSpan<'a>>, AllocError>
    requires { length text.now < 2 ^ 31 }
    ensures { IfOk result (λ v. v.items ≡ words_from 1 text.now) }
{
    let mut words = Vec::new(alloc);
    let mut column = 1;
    let mut rest = text;
    'pieces: while !rest.is_empty() {
        let (piece, after) = cut_word(rest);
        push_word(&mut words, column, piece)?;
        column += piece.len() as u32 + 1;
        rest = after;
    }
    Ok(words)
}

fn push_word<'a>(
    words: &mut Vec<WordSpan<'a>>,
    column: u32,
    text: &'a [u8],
) -> Result<(), AllocError>
    requires { column + length text.now < 2 ^ 32 }
    ensures { OnOk result (words.new.items ≡ words.old.items ++ spoken ((record { column = column; text = text.now }) ∷ [])) }
{
    if !text.is_empty() {
        words.push(WordSpan::new(column, text))?;
    }
    Ok(())
}

// The text before the first blank, and the text after it.
#[tactic(auto, using(crate::proofs::Splitting::is_cut_some, crate::proofs::Splitting::is_cut_none))]
fn cut_word(text: &[u8]) -> (&[u8], &[u8])
    ensures cut { IsCut is_blank text.now result.0.now result.1.now }
    ensures shares { IsShared text.now result.0.now result.1.now }
{
    match first_blank(text) {
        None => (text, &[]),
        Some(end) => (&text[..end], &text[end + 1..]),
    }
}

fn first_blank(text: &[u8]) -> Option<usize>
    ensures { result ≡ position is_blank text.now }
{
    text.iter().position(|b| *b == b' ' || *b == b'\t')
}

/// The lines that are left of a text, the first of them with this number.
#[derive(Drop)]
pub struct Lines<'a> {
    pub number: u32,
    pub rest: &'a [u8],
}

impl<'a> Lines<'a> {
    /// Takes the first line that isn't blank, and the blank ones before it. If memory runs out, no line with a word is
    /// taken.
    #[tactic(auto, using(crate::proofs::Splitting::after_blank, crate::proofs::Splitting::after_telling))]
    pub fn next(&mut self, alloc: Global) -> Result<Option<Line<'a>>, AllocError>
        requires { self.old.number + length self.old.rest.now < 2 ^ 31 }
        ensures room { self.new.number + length self.new.rest.now < 2 ^ 31 }
        ensures taken { IfOk result (λ o. MatchOption o (lines_from self.old.number self.old.rest.now ≡ []) (λ line. lines_from self.old.number self.old.rest.now ≡ line ∷ lines_from self.new.number self.new.rest.now)) }
        ensures over { IfOk result (λ o. IfNone o (lines_from self.new.number self.new.rest.now ≡ [])) }
        ensures stays { OnErr result (lines_from self.new.number self.new.rest.now ≡ lines_from self.old.number self.old.rest.now) }
    {
        'lines: while !self.rest.is_empty() {
            let number = self.number;
            let (line, rest) = cut_line(self.rest);
            let words = words_of(alloc, line)?;
            self.number = number + 1;
            self.rest = rest;
            if !words.is_empty() {
                return Ok(Some(Line { number, words }));
            }
        }
        Ok(None)
    }
}

// The text before the first line feed, and the text after it.
#[tactic(auto, using(crate::proofs::Splitting::is_cut_some, crate::proofs::Splitting::is_cut_none))]
fn cut_line(text: &[u8]) -> (&[u8], &[u8])
    ensures cut { IsCut is_line_feed text.now result.0.now result.1.now }
    ensures shares { IsShared text.now result.0.now result.1.now }
{
    match first_at(text, b'\n') {
        None => (text, &[]),
        Some(end) => (&text[..end], &text[end + 1..]),
    }
}
