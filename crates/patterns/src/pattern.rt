//! A pattern, and the search for it.

use memchr::memmem::{Finder, FinderBuilder};
use policy_text::pattern;
use std::alloc::{AllocError, Global};
use std::marker::Model;

/// The byte that overwrites an occurrence: a small x.
const CROSS: u8 = 0x78;

/// One or more bytes that are searched for in payloads, with their searcher, which is made once.
#[derive(Debug, Drop)]
pub struct Pattern {
    finder: Finder<'static>,
}

impl Model for Pattern {
    ghost use Rattle.std.specs.Prelude.{ℕ, ◌<◌, List, length};

    ghost Value = { List ℕ };

    ghost view = { λ p. p.finder };

    ghost invariant = { λ p. 0 < length p.finder };
}

impl Pattern {
    ghost use Rattle.std.specs.Prelude.{◌≡◌, ◌<◌, ◌≤◌, length, IfOk, MatchOption};
    ghost use Rattle.policy_text.specs.Bytes.{pattern_of};
    ghost use Rattle.patterns.specs.Occurrences.{occurs};
    ghost use Rattle.patterns.specs.Overwriting.{overwritten};
    ghost use Rattle.patterns.specs.Steps.{TakesNext, TakesNone};

    /// The pattern of these bytes, with its searcher.
    pub fn new(bytes: Vec<u8>) -> Pattern
        requires { 0 < length bytes.items }
        ensures { result ≡ bytes.items }
    {
        Pattern {
            finder: FinderBuilder::new().build_forward_owned(bytes),
        }
    }

    /// Reads a pattern of 1 to 256 bytes: `text` and the bytes of a word, or `hex` and pairs of hexadecimal digits, of either
    /// case. Returns `None` if the words aren't a pattern.
    #[tactic(auto, using(crate::proofs::Reading::some_bytes))]
    pub fn read(alloc: Global, form: &[u8], word: &[u8]) -> Result<Option<Pattern>, AllocError>
        ensures { IfOk result (λ read. read ≡ pattern_of form.now word.now) }
    {
        match pattern(alloc, form, word)? {
            Some(bytes) => Ok(Some(Pattern::new(bytes))),
            None => Ok(None),
        }
    }

    /// Its bytes.
    pub(crate) fn bytes(&self) -> &[u8]
        ensures { result.now ≡ self.now }
    {
        self.finder.needle()
    }

    /// Does it occur in the payload?
    #[tactic(auto, using(crate::proofs::Standing::search_tells))]
    pub fn occurs(&self, payload: &[u8]) -> bool
        ensures { result ≡ occurs self.now payload.now }
    {
        self.finder.find(payload).is_some()
    }

    /// Overwrites each leftmost occurrence that doesn't overlap one before it, byte by byte with a small x.
    pub fn overwrite(&self, payload: &mut [u8])
        ensures { payload.new ≡ overwritten self.now payload.old }
    {
        let mut from = 0;
        'occurrences: while let Some(end) = self.overwrite_next(payload, from) {
            from = end;
        }
    }

    // Overwrites the first occurrence that begins at place `from` or later, and returns the place after it.
    fn overwrite_next(&self, payload: &mut [u8], from: usize) -> Option<usize>
        requires { from ≤ length payload.old }
        ensures { MatchOption result (TakesNone self.now from payload.old payload.new) (TakesNext self.now from payload.old payload.new) }
    {
        let Some(place) = self.finder.find(&payload[from..]) else {
            return None;
        };
        let at = from + place;
        let end = at + self.finder.needle().len();
        payload[at..end].fill(CROSS);
        Some(end)
    }
}
