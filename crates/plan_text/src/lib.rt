//! The plan of a policy's chains, which an operator sees before any packet runs.
//!
//! [`put_chain`] writes the plan of a chain: its functions in the order in which a packet passes them, then each stage
//! with its branches, which work side by side, and what happens to each field that a branch touches: whether it is
//! shared, moved to one branch, or copied, and how often. A chain is cut before and after each function that rewrites
//! packets whole, as the ends of tunnels do: each such function is a stage by itself, and the functions between two
//! cuts are staged like a chain. For a chain whose graph an operator wrote by hand, the stages of that graph are shown.
//! The only error is that memory runs out, and then the content of the text is unspecified. `specs/Plan.antt` has the
//! text.
#![tactic(auto)]

mod branches;
mod functions;
mod laws;
mod parts;
mod pieces;
mod plan;

pub use laws::plans_of_one_piece_stay;
pub use plan::put_chain;
