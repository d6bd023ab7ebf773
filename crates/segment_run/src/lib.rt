//! A chain runs piece by piece: packets go through the graph of a piece, or are rewritten whole.
//!
//! Some functions rewrite a packet whole, so that nothing can run beside them: a chain is cut before and after each of
//! them. [`run_pieces`] runs a burst through the [`Piece`]s one after another: through the graph of a piece
//! (`piped_run`), at whose end the packets are sealed, or through a function that rewrites each packet whole
//! (`nf_tunnel`). The packets and the functions end as the model of `piece_walk` says.
#![tactic(auto)]

mod ends;
mod going;
mod laws;
mod piece;
mod putting;
mod run;
mod sealing;

pub use laws::{bursts_are_counted_in_a_row, piece_grows_little};
pub use piece::Piece;
pub use run::run_pieces;

// The parts of pieces and the ways to run them, for the crates above.
pub use graph_run::Running;
pub use piped_run::MergeWay;
