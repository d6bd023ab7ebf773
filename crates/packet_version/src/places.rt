//! The places of all parts of a packet.

use crate::place::Place;
use arrayvec::ArrayVec;
use std::marker::Model;
use std::mem;

/// A place for each field, or an empty list while every part is in the frame. The room for them is always there.
pub(crate) struct Places {
    // Empty means that every part is in the frame.
    cells: ArrayVec<Place, 10>,
    listed: bool,
}

impl Model for Places {
    ghost use Rattle.std.specs.Prelude.{List};
    ghost use Rattle.packet_version.specs.Places.{listed_of, AreCells};
    ghost use Rattle.packet_version.specs.declared.place.Place.{Place};

    ghost Value = { List Place };

    ghost view = { λ p. listed_of p.listed p.cells.items };

    ghost invariant = { λ p. AreCells p.listed p.cells.items };
}

impl Drop for Places {
    fn drop(self) {
        let Places { cells, listed } = self;
        if listed {
            drop(cells);
        } else {
            // No part is outside the frame, so there is no memory to free.
            mem::forget(cells);
        }
    }
}

impl Places {
    ghost use Rattle.std.specs.Prelude.{◌≡◌, ◌==◌, ◌<◌, [], length, map, slice_index_or};
    ghost use Rattle.std.specs.Borrow.{sem};
    ghost use Rattle.packet_version.specs.Places.{opened, unwritten_place};
    ghost use Rattle.packet_version.specs.Lending.{LendsListed};

    /// The empty list.
    #[inline(always)]
    pub(crate) fn new() -> Places
        ensures { result ≡ [] }
    {
        Places {
            cells: ArrayVec::from_array_in((), all_inside()),
            listed: false,
        }
    }

    /// Is the list empty?
    #[inline(always)]
    pub(crate) fn is_empty(&self) -> bool
        ensures { result ≡ (length self.now == 0) }
    {
        !self.listed
    }

    /// Lists a place for each field.
    pub(crate) fn open(&mut self)
        ensures { self.new ≡ opened self.old }
    {
        self.listed = true;
    }

    /// The place of each field.
    pub(crate) fn all(&self) -> &[Place]
        ensures { result.now ≡ opened self.now }
    {
        self.cells.as_slice()
    }

    /// A place that is listed.
    pub(crate) fn at(&self, number: usize) -> &Place
        requires { number < length self.now }
        ensures { result.now ≡ slice_index_or self.now number result.now }
    {
        &self.cells[number]
    }

    /// A place that is listed, for writing.
    pub(crate) fn at_mut(&mut self, number: usize) -> &mut Place
        requires { number < length self.old }
        ensures* writes_back { sem 𝓛 (LendsListed self.entry number result) }
        ensures value { result.now ≡ slice_index_or self.old number result.now }
    {
        match self.cells.get_mut(number) {
            Some(place) => place,
            None => unreachable!(),
        }
    }

    /// Marks every part outside the frame as unwritten.
    pub(crate) fn forget_writers(&mut self)
        ensures { self.new ≡ map unwritten_place self.old }
    {
        if self.listed {
            forget_all(self.cells.as_mut_slice());
        }
    }
}

ghost use Rattle.std.specs.Prelude.{◌≡◌, map};
ghost use Rattle.packet_version.specs.Places.{inside_all, unwritten_place};

/// The places if every part is in the frame.
#[inline(always)]
fn all_inside() -> [Place; 10]
    ensures { result ≡ inside_all }
{
    [
        Place::Inside,
        Place::Inside,
        Place::Inside,
        Place::Inside,
        Place::Inside,
        Place::Inside,
        Place::Inside,
        Place::Inside,
        Place::Inside,
        Place::Inside,
    ]
}

/// Marks every part outside a frame as unwritten.
fn forget_all(places: &mut [Place])
    ensures { places.new ≡ map unwritten_place places.old }
{
    for place in places.iter_mut() {
        place.forget_writer();
    }
}
