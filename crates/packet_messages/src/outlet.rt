//! The end of a link into which messages are given.
ghost use Rattle.std.specs.Prelude.{◌≡◌, ◌<◌, length, drop};
ghost use Rattle.packet_messages.specs.Messages.{Fits, Owing, first, plain, rest};

use crate::message::Message;
use crate::parcel::Parcel;
use ruled_links::Putter;
use std::marker::Model;
use std::sync::Wait;

/// The end of a link into which messages are given. Contracts see it as the messages that are still due on it.
#[derive(Drop)]
pub struct Outlet<P> {
    putter: Putter<Parcel<P>>,
}

impl<P> Model for Outlet<P> {
    ghost use Rattle.std.specs.Prelude.{◌<◌, List, length, drop};
    ghost use Rattle.packet_messages.specs.Messages.{PlainMessage};

    ghost Value = { List (PlainMessage P) };

    ghost view = { λ o. drop (length o.putter.put) o.putter.due };

    ghost invariant = { λ o. length o.putter.due < o.putter.capacity };
}

// The end with this putter, whose link has room for all that is due and one message more.
pub(crate) fn put_end<P>(putter: Putter<Parcel<P>>) -> Outlet<P>
    requires { length putter.due < putter.capacity }
    ensures { result ≡ drop (length putter.put) putter.due }
{
    Outlet { putter }
}

impl<P> Outlet<P> {
    /// Gives the next message. It never fails, and allocates nothing.
    pub fn give<R: Wait>(&mut self, rt: &R, message: Message<P>)
        requires due { Owing self.old }
        requires fits { Fits (first self.old) (plain message) }
        ensures { self.new ≡ rest self.old }
    {
        self.putter.put(rt, Parcel { message });
    }
}
