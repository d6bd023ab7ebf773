//! The language in which an operator writes service chains.
//!
//! [`parse`] reads a policy text: a version line, then chains of network functions with their settings and the orders
//! among them. It returns the [`Policy`] that the text describes, or the text's first fault with its line and column.
//! `specs/Grammar.antt` says what each line adds to the policy so far. `specs/Soundness.antt` says what holds of every
//! policy that is read: names differ, limits are kept, and each order refers to functions of its own chain.
//!
//! [`read_match`] reads clauses, and [`fits`] decides whether a packet meets them; [`is_within`] and [`is_within6`]
//! decide whether an address lies in a prefix. The values in clauses and settings are read by [`number`], [`address`],
//! [`prefix`], [`address6`], [`prefix6`], [`range`], [`mac`] and [`pattern`]: IPv4 addresses are four decimal numbers
//! (RFC 791), IPv6 addresses eight hexadecimal groups (RFC 4291, 2.2), and a clause takes a prefix of either version.
//!
//! [`Lines`] cuts any text of this kind into numbered lines of words, with their columns ([`Line`], [`WordSpan`]), and
//! [`is_name`] recognizes a name.
//!
//! Left out: the meaning of settings, which differs from kind to kind, and whether orders contradict each other.
#![tactic(auto)]

mod bytes;
mod chain_lines;
mod clause;
mod counting;
mod draft;
mod fault;
mod form;
mod laws;
mod line;
mod matching;
mod name;
mod names;
mod order_lines;
mod parsing;
mod policy;
mod reading;
mod seen;
mod value;
mod value6;

pub use bytes::{mac, pattern};
pub use clause::{Clause, Match};
pub use fault::{BuildFault, MatchFault, TextFault};
pub use item_list::Items;
pub use laws::{prefixes_have_one_version, prefixes_keep_to_their_version};
pub use line::{Line, Lines, WordSpan};
pub use matching::{clause_of, read_match};
pub use name::{Name, Word};
pub use names::{name_at, names_at};
pub use parsing::parse;
pub use policy::{ChainPolicy, FunctionDecl, Policy, Setting, Statement};
pub use seen::{Seen, TagSeen, fits, is_within, is_within6};
pub use value::{address, is_name, number, prefix, range};
pub use value6::{address6, prefix6};
