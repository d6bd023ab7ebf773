//! Several ends of links into which messages are given, in order.
ghost use Rattle.std.specs.Prelude.{◌≡◌, ◌<◌, ◌++◌, ◌∷◌, [], length, OnOk, slice_index_or, slice_set};
ghost use Rattle.packet_messages.specs.Messages.{Fits, Owing, first, front, plain, rest, turned};

use crate::message::Message;
use crate::outlet::Outlet;
use std::alloc::{AllocError, Global};
use std::marker::Model;
use std::sync::Wait;

/// Several outlets in order. Contracts see each as the messages that are still due on it.
#[derive(Drop)]
pub struct Outlets<P> {
    list: Vec<Outlet<P>>,
}

impl<P> Model for Outlets<P> {
    ghost use Rattle.std.specs.Prelude.{List};
    ghost use Rattle.packet_messages.specs.Messages.{PlainMessage};

    ghost Value = { List (List (PlainMessage P)) };

    ghost view = { λ o. o.list.items };
}

impl<P> Outlets<P> {
    /// No outlets.
    pub fn new(alloc: Global) -> Outlets<P>
        ensures { result ≡ [] }
    {
        Outlets {
            list: Vec::new(alloc),
        }
    }

    /// The number of outlets.
    pub fn len(&self) -> usize
        ensures { result ≡ length self.now }
    {
        self.list.len()
    }

    /// Adds an outlet at the back. The only error is that memory runs out.
    pub fn push(&mut self, outlet: Outlet<P>) -> Result<(), AllocError>
    where
        P: Drop,
        ensures { OnOk result (self.new ≡ self.old ++ outlet ∷ []) }
    {
        self.list.push(outlet)?;
        Ok(())
    }

    /// Takes the first outlet out.
    pub fn take_first(&mut self) -> Outlet<P>
        requires { 0 < length self.old }
        ensures { self.old ≡ result ∷ self.new }
    {
        self.list.remove(0)
    }

    /// Gives a message into the first outlet, which then goes to the back.
    pub fn give_next<R: Wait>(&mut self, rt: &R, message: Message<P>)
        requires some { 0 < length self.old }
        requires due { Owing (front self.old) }
        requires fits { Fits (first (front self.old)) (plain message) }
        ensures { self.new ≡ turned self.old }
    {
        give_into(rt, self.list.as_mut_slice(), 0, message);
        self.list.rotate_left(1);
    }
}

fn give_into<P, R: Wait>(rt: &R, list: &mut [Outlet<P>], place: usize, message: Message<P>)
    requires inside { place < length list.old }
    requires due { Owing (slice_index_or list.old place []) }
    requires fits { Fits (first (slice_index_or list.old place [])) (plain message) }
    ensures { list.new ≡ slice_set list.old place (rest (slice_index_or list.old place [])) }
{
    list[place].give(rt, message);
}
