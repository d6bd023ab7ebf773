//! What is sent about a packet.
ghost use Rattle.std.specs.Prelude.{◌≡◌, map, IfOk};
ghost use Rattle.packet_messages.specs.Messages.{Fits, PlainMessage.Live, is_short, plain, word};

use std::alloc::{AllocError, Global};

/// A packet's part on its way, the chain position of the function that dropped it, or that memory ran out.
#[derive(Drop)]
pub enum Message<P> {
    Live(Box<P>),
    Nil(u32),
    Short,
}

impl<P> Message<P> {
    /// Does it say that memory ran out?
    pub fn is_short(&self) -> bool
        ensures { result ≡ is_short (plain self.now) }
    {
        match self {
            Message::Short => true,
            _ => false,
        }
    }
}

/// The message with this part, or `Short` if there is no memory for its box.
pub fn boxed<P: Drop>(alloc: Global, part: P) -> Message<P>
    ensures { Fits (Live part) (plain result) }
{
    match Box::new(alloc, part) {
        Ok(part) => Message::Live(part),
        Err(_) => Message::Short,
    }
}

/// Each of these parts in a box, as a message. The only error is that memory runs out.
pub fn all_boxed<P: Drop>(alloc: Global, parts: Vec<P>) -> Result<Vec<Message<P>>, AllocError>
    ensures { IfOk result (λ row. map plain row.items ≡ map (λ p. Live p) parts.items) }
{
    let mut row = Vec::with_capacity(alloc, parts.len())?;
    for part in parts {
        let message = live(alloc, part)?;
        row.push(message)?;
    }
    Ok(row)
}

// The message that carries this part.
fn live<P: Drop>(alloc: Global, part: P) -> Result<Message<P>, AllocError>
    ensures { IfOk result (λ message. plain message ≡ Live part) }
{
    match Box::new(alloc, part) {
        Ok(part) => Ok(Message::Live(part)),
        Err(_) => Err(AllocError),
    }
}

/// The message that says where a packet was dropped, or `Short`.
pub fn message_without<P>(position: Option<u32>) -> Message<P>
    ensures { plain result ≡ word position }
{
    match position {
        Some(position) => Message::Nil(position),
        None => Message::Short,
    }
}
