//! What a dealer gives for a packet.

use packet_messages::Message;
use packet_version::{Base, Version};

/// What a dealer gives for a packet.
#[derive(Drop)]
pub(crate) enum Given {
    /// Its base, and a version for each branch.
    Row(Box<Base>, Vec<Message<Version>>),
    /// A word without a packet: where it was dropped, or `None` if memory ran out.
    Word(Option<u32>),
}
