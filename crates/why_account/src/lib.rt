//! The account of what a capture's packets met in the chains of a policy, and the lines of the report that it gives.
//!
//! An [`Account`] has the totals, the packets that no chain took, and for each chain a [`ChainAccount`]: the packets that it
//! took, and for each function how often it and each of its lines were used. [`Account::note`] adds one packet: the chain that
//! took it, where it ended, and what each function did to it. It allocates nothing, so an account takes the same room for any
//! number of packets. [`push_drop`] adds the line of a packet that was dropped, and [`push_chain`] the lines of a chain.
//!
//! The contracts promise: the account is that of the definition (`specs/Accounts.antt`) for all ways so far, and the lines are
//! those of `why_report`. The only error is that memory runs out.
//!
//! Left out: how packets go through the chains, and where the texts go.
#![tactic(auto)]

mod account;
mod chain;
mod counting;
mod drops;
mod function;
mod lines;

pub use account::Account;
pub use chain::{ChainAccount, ChainAccounts};
pub use drops::push_drop;
pub use function::{FunctionAccount, FunctionAccounts};
pub use lines::push_chain;
