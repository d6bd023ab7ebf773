//! A message as a link or a board carries it.
ghost use Rattle.std.specs.Prelude.{◌≡◌};
ghost use Rattle.packet_messages.specs.Messages.{Fits, plain};

use crate::message::Message;
use merge_board::BoardFit;
use ruled_links::LinkFit;
use std::marker::Model;

/// A message as a link or a board carries it. Contracts see it without its box. A due one is fitted by that message, or
/// by `Short`.
#[derive(Drop)]
pub struct Parcel<P> {
    pub(crate) message: Message<P>,
}

impl<P> Model for Parcel<P> {
    ghost use Rattle.packet_messages.specs.Messages.{PlainMessage, plain};

    ghost Value = { PlainMessage P };

    ghost view = { λ p. plain p.message };
}

impl<P> LinkFit for Parcel<P> {
    ghost fits = { Fits };
}

impl<P> BoardFit for Parcel<P> {
    ghost fits = { Fits };
}

impl<P> Parcel<P> {
    /// This message, made ready to be carried.
    pub fn new(message: Message<P>) -> Parcel<P>
        ensures { result ≡ plain message }
    {
        Parcel { message }
    }

    /// The message that was carried.
    pub fn into_message(self) -> Message<P>
        ensures { plain result ≡ self }
    {
        self.message
    }
}
