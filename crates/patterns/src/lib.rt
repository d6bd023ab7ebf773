//! Patterns: bytes that are found in a packet's data, and overwritten there.
//!
//! A [`Pattern`] has 1 to 256 bytes. An operator writes it as `rule text` with a word, or as `rule hex` with pairs of
//! hexadecimal digits. It is read as a [`function_lines::FunctionLine`], so a kind whose lines are patterns needs
//! nothing but the rule of the least refused line. The searcher of a pattern (that of `memchr`, whose time is linear)
//! is made once, with the pattern, and allocates nothing.
//!
//! A pattern occurs in a payload if its bytes are at some place of it. [`first_occurring`] returns the first pattern of
//! a [`PatternSet`] that occurs. [`Pattern::overwrite`] overwrites each leftmost occurrence that doesn't overlap one
//! before it, byte by byte with a small x, in place; [`redact`] applies patterns one after another, each to the payload
//! as the patterns before it left it. The results are defined by `occurs` of `specs/Occurrences.antt` and `redacted` of
//! `specs/Overwriting.antt`.
//!
//! A set is made once and shared by its owners. The patterns of a small set are searched one after another. A set of
//! eight patterns or more has a sieve. One pass over the payload looks up four bytes at each place that is a multiple
//! of a stride (three or two bytes if most patterns are that short). It returns which few patterns may occur, so that
//! the others need no search. That it never leaves one out is `catches` of `proofs/Sieving.antt`.
//!
//! Stated without these functions: [`a_pattern_occurs_where_it_stands`],
//! [`overwriting_goes_from_occurrence_to_occurrence`] and [`overwritten_patterns_are_gone`].
//!
//! A pattern that begins in one payload and ends in another is not found.
#![tactic(auto)]

mod laws;
mod line;
mod pattern;
mod set;
mod several;
mod sieve;
mod width;

pub use laws::{
    a_pattern_occurs_where_it_stands, overwriting_goes_from_occurrence_to_occurrence,
    overwritten_patterns_are_gone,
};
pub use pattern::Pattern;
pub use set::PatternSet;
pub use several::{first_occurring, redact};
