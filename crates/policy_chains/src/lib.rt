//! What a policy runs: its chains, each cut into pieces, whatever leads packets through them.
//!
//! `specs/Services.antt` defines the chains of a policy (`Chains`): their declarations, the names of the functions of
//! each in the order in which a packet goes through them, and the pieces into which functions that rewrite packets
//! whole cut it. `specs/Fates.antt` defines where the packets of a capture end that go through them. A
//! [`NamedFunction`] is a function with the name that its declaration gives it; it does what its function does, and
//! reports the same state.
//!
//! [`chain_parts`] cuts a chain into its [`ChainParts`]: functions in a row, and ends of tunnels. The functions are
//! taken out of those that were made when the policy was judged. The pieces of the parts are those of the chain, and
//! they have at most 64 functions together.
//!
//! Laws: [`the_plan_is_what_runs`] relates the pieces to the plan of a chain, and [`one_piece_has_the_profiles`] a chain
//! of one piece to the profiles of its declarations.
//!
//! Left out: the graph of a part, and leading packets through the parts.
#![tactic(auto)]

mod cutting;
mod laws;
mod named;
mod part;
mod parts;
mod taken;

pub use laws::{one_piece_has_the_profiles, the_plan_is_what_runs};
pub use named::NamedFunction;
pub use part::ChainPart;
pub use parts::ChainParts;
pub use taken::chain_parts;
