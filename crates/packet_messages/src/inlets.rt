//! Several ends of links from which messages are accepted, in order.
ghost use Rattle.std.specs.Prelude.{◌≡◌, ◌<◌, ◌++◌, ◌∷◌, [], length, OnOk, slice_index_or, slice_set};
ghost use Rattle.packet_messages.specs.Messages.{Fits, Owing, first, front, plain, rest, turned};

use crate::inlet::Inlet;
use crate::message::Message;
use std::alloc::{AllocError, Global};
use std::marker::Model;
use std::sync::Wait;

/// Several inlets in order. Contracts see each as the messages that are still due on it.
#[derive(Drop)]
pub struct Inlets<P> {
    list: Vec<Inlet<P>>,
}

impl<P> Model for Inlets<P> {
    ghost use Rattle.std.specs.Prelude.{List};
    ghost use Rattle.packet_messages.specs.Messages.{PlainMessage};

    ghost Value = { List (List (PlainMessage P)) };

    ghost view = { λ i. i.list.items };
}

impl<P> Inlets<P> {
    /// No inlets.
    pub fn new(alloc: Global) -> Inlets<P>
        ensures { result ≡ [] }
    {
        Inlets {
            list: Vec::new(alloc),
        }
    }

    /// The number of inlets.
    pub fn len(&self) -> usize
        ensures { result ≡ length self.now }
    {
        self.list.len()
    }

    /// Adds an inlet at the back. The only error is that memory runs out.
    pub fn push(&mut self, inlet: Inlet<P>) -> Result<(), AllocError>
    where
        P: Drop,
        ensures { OnOk result (self.new ≡ self.old ++ inlet ∷ []) }
    {
        self.list.push(inlet)?;
        Ok(())
    }

    /// Takes the first inlet out.
    pub fn take_first(&mut self) -> Inlet<P>
        requires { 0 < length self.old }
        ensures { self.old ≡ result ∷ self.new }
    {
        self.list.remove(0)
    }

    /// Waits for the next message of the first inlet, which has to be due. The inlet then goes to the back.
    pub fn accept_next<R: Wait>(&mut self, rt: &R) -> Message<P>
        requires some { 0 < length self.old }
        requires due { Owing (front self.old) }
        ensures fits { Fits (first (front self.old)) (plain result) }
        ensures after { self.new ≡ turned self.old }
    {
        let message = accept_from(rt, self.list.as_mut_slice(), 0);
        self.list.rotate_left(1);
        message
    }

    /// Waits for the next message of the inlet at this place, which has to be due.
    pub fn accept_at<R: Wait>(&mut self, rt: &R, place: usize) -> Message<P>
        requires inside { place < length self.old }
        requires due { Owing (slice_index_or self.old place []) }
        ensures fits { Fits (first (slice_index_or self.old place [])) (plain result) }
        ensures after { self.new ≡ slice_set self.old place (rest (slice_index_or self.old place [])) }
    {
        accept_from(rt, self.list.as_mut_slice(), place)
    }
}

fn accept_from<P, R: Wait>(rt: &R, list: &mut [Inlet<P>], place: usize) -> Message<P>
    requires inside { place < length list.old }
    requires due { Owing (slice_index_or list.old place []) }
    ensures fits { Fits (first (slice_index_or list.old place [])) (plain result) }
    ensures after { list.new ≡ slice_set list.old place (rest (slice_index_or list.old place [])) }
{
    list[place].accept(rt)
}
