//! The sequential model of a chain with functions that rewrite a packet whole.
//!
//! This is the model of `chain_walk` for a chain that is cut before and after each such function (`specs/Pieces.antt`):
//! the functions of a piece walk one after another, and what a piece passes on is sealed by the frame that it began
//! with.
//!
//! By [`packets_go_piece_by_piece`] a burst may be run through one piece before the next, and by
//! [`packets_go_in_a_row`] a capture may come in bursts.
#![tactic(auto)]

mod laws;

pub use laws::{
    a_chain_of_one_piece_walks, frames_grow_little, packets_go_in_a_row, packets_go_piece_by_piece,
    pieces_come_one_behind_another, pieces_keep_their_kind,
};
