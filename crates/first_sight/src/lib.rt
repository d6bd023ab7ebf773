//! What functions with a state have in common: a table in the order of first sight, its lines, and the text of
//! an address.
//!
//! A [`FirstSeen`] keeps a value for each key; keys are for example flows and sources. A key that was seen keeps its
//! place, and a new one goes last; places are counted from 0. A contract sees the list of the keys, each with its
//! value, and the definitions of `specs/FirstSight.antt` say what becomes of that list. The code finds a key by its
//! hash, without a search. Nothing is ever forgotten.
//!
//! A function that prints its state line by line implements [`EntryLines`], which defines the line of an entry.
//! [`FirstSeen::push_lines`] appends them all, or nothing if memory runs out. [`push_address`] appends an IPv4 address
//! as four decimal numbers (RFC 791, 3.1), and [`push_ip_address`] one of either version, that of IPv6 as eight
//! hexadecimal groups (RFC 4291, 2.2); if memory runs out in these two, the content of the text is unspecified.
//! [`same_address`] compares two addresses, and [`hash_endpoint`] hashes an address that is part of a key.
//!
//! Stated without the definitions: [`noted_is_found`] and [`lines_of_keys`].
#![tactic(auto)]

mod address;
mod first_seen;
mod laws;
mod lines;

pub use address::{hash_endpoint, push_address, push_ip_address, same_address};
pub use first_seen::FirstSeen;
pub use laws::{lines_of_keys, noted_is_found};
pub use lines::EntryLines;
