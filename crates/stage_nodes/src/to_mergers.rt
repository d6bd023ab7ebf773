//! Where a branch gives the results of its versions.
ghost use Rattle.std.specs.Prelude.{◌≡◌, ◌<◌, ◌++◌, ◌∷◌, [], length, map, All, IfOk, OnOk, slice_index_or, slice_set};
ghost use Rattle.packet_messages.specs.Messages.{Fits, Owing, first, front, plain, rest, turned};

use packet_messages::{BoardOutlet, Message, Outlet};
use packet_version::Version;
use std::alloc::{AllocError, Global};
use std::marker::Model;
use std::sync::Wait;

/// How the results of a branch get to a merger.
#[derive(Drop)]
pub(crate) enum Outward {
    Link(Outlet<Version>),
    Board(BoardOutlet<Version>),
}

/// Where a branch gives the results of its versions to one merger: over a link, or on the merger's board. Contracts see
/// what is still due.
#[derive(Drop)]
pub struct ToMerger {
    outward: Outward,
}

impl Model for ToMerger {
    ghost use Rattle.std.specs.Prelude.{List};
    ghost use Rattle.packet_version.specs.Versions.{PlainVersion};
    ghost use Rattle.packet_messages.specs.Messages.{PlainMessage};
    ghost use Rattle.stage_nodes.specs.Meetings.{due_outward};

    ghost Value = { List (PlainMessage PlainVersion) };

    ghost view = { λ t. due_outward t.outward };
}

impl ToMerger {
    /// A link to the merger.
    pub fn of_link(outlet: Outlet<Version>) -> ToMerger
        ensures { result ≡ outlet }
    {
        ToMerger {
            outward: Outward::Link(outlet),
        }
    }

    /// A seat at the merger's board.
    pub fn of_board(outlet: BoardOutlet<Version>) -> ToMerger
        ensures { result ≡ outlet }
    {
        ToMerger {
            outward: Outward::Board(outlet),
        }
    }

    /// Gives the next message. It never fails, and allocates nothing.
    fn give<R: Wait>(&mut self, rt: &R, message: Message<Version>)
        requires due { Owing self.old }
        requires fits { Fits (first self.old) (plain message) }
        ensures { self.new ≡ rest self.old }
    {
        match &mut self.outward {
            Outward::Link(outlet) => outlet.give(rt, message),
            Outward::Board(outlet) => outlet.give(message),
        }
    }
}

/// Ends to mergers, in order: either those of a node of a branch to the mergers that take turns, with the one whose
/// turn it is first, or those of all branches to one merger. Contracts see what is still due on each.
#[derive(Drop)]
pub struct ToMergers {
    ends: Vec<ToMerger>,
}

impl Model for ToMergers {
    ghost use Rattle.std.specs.Prelude.{List};
    ghost use Rattle.packet_version.specs.Versions.{PlainVersion};
    ghost use Rattle.packet_messages.specs.Messages.{PlainMessage};

    ghost Value = { List (List (PlainMessage PlainVersion)) };

    ghost view = { λ t. t.ends.items };
}

impl ToMergers {
    /// No ends.
    pub fn new(alloc: Global) -> ToMergers
        ensures { result ≡ [] }
    {
        ToMergers {
            ends: Vec::new(alloc),
        }
    }

    /// Adds an end at the back. The only error is that memory runs out.
    pub fn push(&mut self, end: ToMerger) -> Result<(), AllocError>
        ensures { OnOk result (self.new ≡ self.old ++ end ∷ []) }
    {
        self.ends.push(end)?;
        Ok(())
    }

    /// Takes the first end out.
    pub fn take_first(&mut self) -> ToMerger
        requires { 0 < length self.old }
        ensures { self.old ≡ result ∷ self.new }
    {
        self.ends.remove(0)
    }

    /// Gives a message to the merger whose turn it is, which then is the last. It never fails, and allocates nothing.
    pub fn give_next<R: Wait>(&mut self, rt: &R, message: Message<Version>)
        requires some { 0 < length self.old }
        requires due { Owing (front self.old) }
        requires fits { Fits (first (front self.old)) (plain message) }
        ensures { self.new ≡ turned self.old }
    {
        give_first(rt, self.ends.as_mut_slice(), message);
        self.ends.rotate_left(1);
    }
}

/// Gives a message into the first of these ends.
fn give_first<R: Wait>(rt: &R, ends: &mut [ToMerger], message: Message<Version>)
    requires some { 0 < length ends.old }
    requires due { Owing (slice_index_or ends.old 0 []) }
    requires fits { Fits (first (slice_index_or ends.old 0 [])) (plain message) }
    ensures { ends.new ≡ slice_set ends.old 0 (rest (slice_index_or ends.old 0 [])) }
{
    ends[0].give(rt, message);
}

/// Takes the first end out of each row, in order. The only error is that memory runs out; which ends are left is then
/// unspecified.
pub fn take_ends(alloc: Global, rows: &mut [ToMergers]) -> Result<ToMergers, AllocError>
    requires { All Owing rows.old }
    ensures row { IfOk result (λ row. row ≡ map front rows.old) }
    ensures after { OnOk result (rows.new ≡ map rest rows.old) }
{
    let mut row = ToMergers::new(alloc);
    for index in 0..rows.len() {
        let end = take_from(rows, index);
        row.push(end)?;
    }
    Ok(row)
}

/// Takes the first end out of the row at this place.
fn take_from(rows: &mut [ToMergers], place: usize) -> ToMerger
    requires inside { place < length rows.old }
    requires some { Owing (slice_index_or rows.old place []) }
    ensures result { result ≡ front (slice_index_or rows.old place []) }
    ensures after { rows.new ≡ slice_set rows.old place (rest (slice_index_or rows.old place [])) }
{
    rows[place].take_first()
}
