//! The notes of functions that count on the packets of a burst, kept until it is known how each packet ends.
//!
//! A function that counts doesn't change while a packet is on its way: what it sees is noted. The functions of a branch
//! put their notes into one list ([`ListedNote`], [`list_note`]). After the burst, when the fate of each packet is
//! known, the list is settled ([`settle_listed`]), in its own order. A note is discarded if a function at an earlier
//! position of the chain dropped its packet, since in the chain the packet would never have come so far. Every other
//! note is settled, even if a later function dropped the packet.
#![tactic(auto)]

mod laws;
mod listed;
mod settling;

pub use laws::functions_count_by_notes;
pub use listed::{ListedNote, list_note};
pub use settling::settle_listed;
