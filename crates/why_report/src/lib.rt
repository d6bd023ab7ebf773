//! The report of why each packet of a capture was dropped, and of how often each function and each of its lines was used.
//!
//! A report begins with its [`TITLE`]. A packet that was dropped has a line with the line of the policy that decided it
//! ([`push_drop_line`]). Behind the totals stand the packets that no chain took ([`push_untaken_line`]), each chain
//! ([`push_chain_line`]), and its functions ([`push_function_lines`]): how many packets a function saw, changed and
//! dropped, and how many each of its lines decided. `specs/Report.antt` has every line.
//!
//! A [`FunctionUse`] keeps these counts of one function. [`FunctionUse::note`] adds what the function did to a packet. It
//! allocates nothing, so a use takes the same room for any number of packets. A count stops at 2^64 - 1.
//!
//! The laws say what an operator reads off the counts: [`hits_add_up`], [`drops_are_seen`], and [`no_hits_is_no_use`] for
//! the rules that were never met. The texts are ASCII, and each line ends with a line feed. The only error is that memory
//! runs out, and then the content of a text that was to be extended is unspecified.
//!
//! Left out: how packets go through the chains, the totals, and where the texts go.
#![tactic(auto)]

mod laws;
mod lines;
mod uses;

pub use laws::{drops_are_seen, hits_add_up, no_hits_is_no_use};
pub use lines::{TITLE, push_chain_line, push_drop_line, push_function_lines, push_untaken_line};
pub use uses::{FunctionUse, Hits};
