//! Several streams of messages, each shared in turn to its own outlets.
ghost use Rattle.std.specs.Prelude.{◌≡◌, ◌<◌, ◌++◌, ◌∷◌, [], length, map, All, OnOk, slice_index_or, slice_set};
ghost use Rattle.packet_messages.specs.Messages.{Fits, Owing, first, front, plain, turned, word};

use crate::message::{Message, message_without};
use crate::outlets::Outlets;
use std::alloc::{AllocError, Global};
use std::marker::Model;
use std::sync::Wait;

/// Several streams in order, each shared in turn to its own outlets. Contracts see of each stream what they see of
/// its outlets.
#[derive(Drop)]
pub struct Fans<P> {
    list: Vec<Outlets<P>>,
}

impl<P> Model for Fans<P> {
    ghost use Rattle.std.specs.Prelude.{List};
    ghost use Rattle.packet_messages.specs.Messages.{PlainMessage};

    ghost Value = { List (List (List (PlainMessage P))) };

    ghost view = { λ f. f.list.items };
}

impl<P> Fans<P> {
    /// No streams.
    pub fn new(alloc: Global) -> Fans<P>
        ensures { result ≡ [] }
    {
        Fans {
            list: Vec::new(alloc),
        }
    }

    /// Adds a stream's outlets at the back. The only error is that memory runs out.
    pub fn push(&mut self, outlets: Outlets<P>) -> Result<(), AllocError>
    where
        P: Drop,
        ensures { OnOk result (self.new ≡ self.old ++ outlets ∷ []) }
    {
        self.list.push(outlets)?;
        Ok(())
    }

    /// Gives each of these messages into the next outlet of its stream, which then goes to the back of its stream's
    /// list.
    pub fn give_each<R: Wait>(&mut self, rt: &R, row: Vec<Message<P>>)
    where
        P: Drop,
        requires due { All (λ fan. Owing (front fan)) self.old }
        requires row { map plain row.items ≡ map (λ fan. first (front fan)) self.old }
        ensures after { self.new ≡ map turned self.old }
    {
        give_row(rt, self.list.as_mut_slice(), row);
    }

    /// Gives a message without a packet's part into the next outlet of each stream, which then goes to the back of its
    /// stream's list.
    pub fn give_word<R: Wait>(&mut self, rt: &R, position: Option<u32>)
        requires due { All (λ fan. Owing (front fan)) self.old }
        requires fits { All (λ fan. Fits (first (front fan)) (word position)) self.old }
        ensures after { self.new ≡ map turned self.old }
    {
        give_words(rt, self.list.as_mut_slice(), position);
    }
}

// Gives this message into the next outlet of the stream at this place.
fn give_into<P, R: Wait>(rt: &R, list: &mut [Outlets<P>], place: usize, message: Message<P>)
    requires inside { place < length list.old }
    requires due { Owing (front (slice_index_or list.old place [])) }
    requires fits { Fits (first (front (slice_index_or list.old place []))) (plain message) }
    ensures { list.new ≡ slice_set list.old place (turned (slice_index_or list.old place [])) }
{
    list[place].give_next(rt, message);
}

fn give_row<P: Drop, R: Wait>(rt: &R, list: &mut [Outlets<P>], row: Vec<Message<P>>)
    requires due { All (λ fan. Owing (front fan)) list.old }
    requires row { map plain row.items ≡ map (λ fan. first (front fan)) list.old }
    ensures { list.new ≡ map turned list.old }
{
    let count = list.len();
    let mut index = 0;
    for message in row {
        prove!(index < count);
        give_into(rt, list, index, message);
        index += 1;
    }
}

fn give_words<P, R: Wait>(rt: &R, list: &mut [Outlets<P>], position: Option<u32>)
    requires due { All (λ fan. Owing (front fan)) list.old }
    requires fits { All (λ fan. Fits (first (front fan)) (word position)) list.old }
    ensures { list.new ≡ map turned list.old }
{
    for index in 0..list.len() {
        give_into(rt, list, index, message_without(position));
    }
}
