//! The end of a link from which messages are accepted.
ghost use Rattle.std.specs.Prelude.{◌≡◌, ◌<◌, length, drop};
ghost use Rattle.packet_messages.specs.Messages.{Fits, Owing, first, plain, rest};

use crate::message::Message;
use crate::parcel::Parcel;
use ruled_links::Taker;
use std::marker::Model;
use std::sync::Wait;

/// The end of a link from which messages are accepted. Contracts see it as the messages that are still due on it.
#[derive(Drop)]
pub struct Inlet<P> {
    taker: Taker<Parcel<P>>,
}

impl<P> Model for Inlet<P> {
    ghost use Rattle.std.specs.Prelude.{List, length, drop};
    ghost use Rattle.packet_messages.specs.Messages.{PlainMessage};

    ghost Value = { List (PlainMessage P) };

    ghost view = { λ i. drop (length i.taker.taken) i.taker.due };
}

// The end with this taker.
pub(crate) fn take_end<P>(taker: Taker<Parcel<P>>) -> Inlet<P>
    ensures { result ≡ drop (length taker.taken) taker.due }
{
    Inlet { taker }
}

impl<P> Inlet<P> {
    /// Waits for the next message, which has to be due.
    pub fn accept<R: Wait>(&mut self, rt: &R) -> Message<P>
        requires due { Owing self.old }
        ensures fits { Fits (first self.old) (plain result) }
        ensures after { self.new ≡ rest self.old }
    {
        let Parcel { message } = self.taker.take(rt);
        message
    }
}
