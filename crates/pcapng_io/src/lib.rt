//! Captures in the pcapng file format (draft-ietf-opsawg-pcapng): blocks, each a type, its length, a body, and its length again.
//!
//! A section header begins a section and shows the order of all numbers in it. An interface description defines the
//! ticks of its packets. An enhanced packet names its interface. Every other block is passed on unchanged, except the
//! obsolete packet block and the simple packet block, which are refused. Custom blocks and options that must not be
//! copied into a capture that was changed are read like others, and left out. Accepted are version 1, the link type
//! Ethernet, blocks of at most 16,777,216 bytes, frames of at most 262,144, and resolutions from 10^0 to 10^-18 and
//! from 2^0 to 2^-60 seconds.
//!
//! [`NgReader`] takes a capture block by block off the slot Capture of a desk, in whatever pieces the desk gives it;
//! `blocks_of` of `pcapng_io.specs.Blocks` says of the whole text which items it gives and where it ends. [`put_item`]
//! puts an item into the slot Out as a block, and [`written_is_read`] relates the two.
//!
//! Left out: the values of a section's length, of a snaplen and in the blocks that are passed on; options other than a
//! resolution, such as the time offset; and link types other than Ethernet.
#![tactic(auto)]

mod block_kind;
mod contents;
mod fault;
mod head;
mod item;
mod items;
mod laws;
mod options;
mod place;
mod read;
mod reader;
mod time;
mod writer;

pub use fault::{NgFault, NgReadFault};
pub use item::{NgItem, NgPacket};
pub use laws::written_is_read;
pub use reader::NgReader;
pub use writer::{put_item, put_packet};
