//! Lines of text, as messages, plans and reports print them.
//!
//! A text is made of [`Piece`]s, which are bytes or decimal numbers, one after another: [`join`] makes a new text of
//! them, and [`push_pieces`] appends them to a text. [`line`] and [`push_line`] also add a line feed after the last
//! piece. [`push_words`] appends words, each after one space. The only error is that memory runs out, and then the
//! content of a text that was to be extended is unspecified. `specs/Texts.antt` has the definitions for the contracts
//! of higher layers.
#![tactic(auto)]

mod pieces;
mod words;

pub use pieces::{Piece, join, line, push_line, push_pieces};
pub use words::{push_word, push_words};
