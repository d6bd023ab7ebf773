//! The results of packets from the branches of a stage, kept until each branch has returned its part.
//!
//! A stage's branches work side by side, so a packet's results come from them in any order, and the results of many
//! packets are mixed. An [`AccTable`] keeps them by the packet's number and the branch: [`AccTable::arrive`] puts one
//! in, and reports if it was the packet's last. Then it moves the values out in branch order and forgets the packet.
//!
//! Contracts see a table as a finite map from a packet's number to its results, by branch. Only [`AccTable::with_room`]
//! allocates memory.
//!
//! A packet's row is found in the bucket of its number. A bucket has the rows of numbers with the same remainder by the
//! number of buckets, which is the least power of two that is at least the table's number of entries. As many
//! consecutive numbers as the table has entries are each in a bucket of their own. An arrival looks at no row outside
//! its bucket, and [`AccTable::chain_len`] returns the number of rows in it. A row is taken from the list of free rows,
//! and put back into it, without a search.
//!
//! Left out: no clause says how long a call takes, or which of the free rows a packet gets.
#![tactic(auto)]

mod laws;
mod links;
mod place;
mod row;
mod table;

pub use laws::open_packets_take_a_place_each;
pub use table::{AccTable, Complete, MOST_BRANCHES, MOST_ENTRIES};
