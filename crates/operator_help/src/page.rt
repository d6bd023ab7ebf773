//! A text for standard error.

use crate::lines::{Row, part, until};
use crate::shown::{put_name, put_shown};
use std::alloc::Global;
use std::io::Error;
use std::str::from_utf8;
use text_lines::{Piece, push_pieces};

/// What each line begins with.
const PREFIX: &[u8] = b"nfp: ";

/// What a line begins with that belongs to the one before.
const INDENTED: &[u8] = b"nfp:   ";

/// Lines for the operator, each after the name of the program.
///
/// A text has places for pieces, each written `{}`. [`Page::tell`] adds it up to the first place. Each piece goes into its place, and the text
/// up to the next place follows.
#[derive(Drop)]
pub struct Page {
    alloc: Global,
    text: Vec<u8>,
    /// The part of a text after the place of the next piece.
    rest: &'static [u8],
    /// There was no memory for some of it.
    short: bool,
}

impl Page {
    /// No line.
    pub fn new(alloc: Global) -> Self {
        Page {
            alloc,
            text: Vec::new(alloc),
            rest: b"",
            short: false,
        }
    }

    /// The lines so far, or nothing if there was no memory for all of them.
    pub fn text(&self) -> &str {
        if self.short {
            return "";
        }
        from_utf8(&self.text).unwrap_or("")
    }

    /// Adds lines up to the first place in them. One that belongs to the line before it begins with two blanks.
    pub(crate) fn tell(&mut self, lines: &'static str) {
        self.put(PREFIX);
        self.rest = lines.as_bytes();
        self.go_on();
    }

    /// The same, unless there is nothing to add.
    pub(crate) fn tell_some(&mut self, lines: &'static str) {
        if !lines.is_empty() {
            self.tell(lines);
        }
    }

    /// Adds lines with a word of a file in their first place.
    pub(crate) fn tell_word(&mut self, lines: &'static str, word: &[u8]) {
        self.tell(lines);
        self.word(word);
    }

    /// Goes on up to the next place of the text, or to the end of its last line.
    pub(crate) fn go_on(&mut self) {
        let rest = self.rest;
        let place = until(rest, b'{');
        self.put_lines(&rest[..place]);
        self.rest = part(rest, place.saturating_add(2), rest.len());
        if place == rest.len() {
            self.push(b'\n');
        }
    }

    // Adds a text, with the prefix after the end of each line.
    fn put_lines(&mut self, text: &[u8]) {
        for byte in text {
            self.push(*byte);
            if *byte == b'\n' {
                self.put(PREFIX);
            }
        }
    }

    /// Puts a text into its place.
    pub(crate) fn say(&mut self, text: &str) {
        self.put(text.as_bytes());
        self.go_on();
    }

    /// Puts the name of a file into its place, with control characters escaped.
    pub(crate) fn name(&mut self, name: &str) {
        put_name(self, name);
        self.go_on();
    }

    /// Puts a word of a file into its place, escaped and cut.
    pub(crate) fn word(&mut self, word: &[u8]) {
        put_shown(self, word, 0);
        self.go_on();
    }

    /// Puts a number into its place.
    pub(crate) fn number(&mut self, number: u64) {
        let put = push_pieces(self.alloc, &mut self.text, &[Piece::Number(number)]);
        self.short = self.short || put.is_err();
        self.go_on();
    }

    /// Puts the system's reason into its place.
    pub(crate) fn reason(&mut self, reason: Error) {
        match format!(in self.alloc; "{reason}") {
            Ok(text) => self.say(text.as_str()),
            Err(_) => self.short = true,
        }
    }

    /// Adds a line of a file, with a mark under a column if one is given, counted from 0.
    pub(crate) fn quote(&mut self, line: &[u8], mark: Option<usize>) {
        self.put(INDENTED);
        let place = put_shown(self, line, mark.unwrap_or(0));
        self.push(b'\n');
        if mark.is_some() {
            self.mark(place);
        }
    }

    // Adds a mark after this number of blanks.
    fn mark(&mut self, place: usize) {
        self.put(INDENTED);
        for _ in 0..place {
            self.push(b' ');
        }
        self.put(b"^\n");
    }

    /// The lines of a text that aren't blank.
    pub(crate) fn rows<'a>(&mut self, text: &'a [u8]) -> Vec<Row<'a>> {
        let mut rows = Vec::new(self.alloc);
        let mut number = 0u32;
        for line in text.split(|byte| *byte == b'\n') {
            number = number.saturating_add(1);
            let row = Row::new(number, line);
            if !row.word(0).is_empty() && rows.push(row).is_err() {
                self.short = true;
            }
        }
        rows
    }

    /// Adds bytes.
    pub(crate) fn put(&mut self, bytes: &[u8]) {
        let put = self.text.extend_from_slice(bytes);
        self.short = self.short || put.is_err();
    }

    /// Adds a byte.
    pub(crate) fn push(&mut self, byte: u8) {
        let put = self.text.push(byte);
        self.short = self.short || put.is_err();
    }
}
