//! A packet's frame, and the parts that are kept outside it, on the heap.

use crate::part::Part;
use crate::place::Place;
use crate::places::Places;
use crate::rest::Rest;
use action_profile::all_fields;
use packet_fields::Field;
use std::alloc::{AllocError, Global};
use std::marker::Model;
use std::mem;

/// A packet's frame, which holds the parts that no branch took out, and those of the other parts that came back.
#[derive(Drop)]
pub(crate) struct Contents {
    places: Places,
    // The position of the function that last wrote the part of each field that is in the frame, 0 for none.
    writers: [u32; 10],
    rest: Rest,
    taggers: u32,
}

impl Model for Contents {
    ghost use Rattle.packet_version.specs.Parts.{as_list, PlainHeld};
    ghost use Rattle.packet_version.specs.Places.{parts_in, ArePlaces};

    ghost Value = { PlainHeld };

    ghost view = { λ c. record { parts = as_list (parts_in c.taggers c.rest c.writers c.places); frame = c.rest } };

    ghost invariant = { λ c. ArePlaces c.places };
}

ghost use Rattle.std.specs.Prelude.{◌≡◌, ◌≢◌, ◌+◌, Some, None, IfOk, OnOk, IfSome, IsSome, IsSomeAnd, IsTrue, if◌then◌else◌, is_some, length, option_map};
ghost use Rattle.std.specs.Borrow.{sem};
ghost use Rattle.std.specs.Option.{option_copied};
ghost use Rattle.packet_fields.specs.Fields.{value};
ghost use Rattle.packet_fields.specs.Writing.{rest_of, written, AllFit};
ghost use Rattle.packet_version.specs.Parts.{PlainHeld, as_list, as_map, changed, unwritten, rewritten, by_writer, values_of, writers_of, IsPartOf};
ghost use Rattle.packet_version.specs.Places.{brought, is_outside, parts_beside, place_made, place_of};
ghost use Rattle.packet_version.specs.Lending.{LendsContents};
ghost use Rattle.packet_fields.specs.declared.field.Field.{Field};
ghost use Rattle.packet_version.specs.Splitting.{fresh, split_parts, spare_room as spare_room_of, IsWhole};

impl Contents {
    /// The frame with every part in it; the list of tags has room for `taggers` more tags.
    #[inline(always)]
    pub(crate) fn new(rest: Rest, taggers: u32) -> Contents
        ensures { result ≡ record { parts = as_list (split_parts taggers rest); frame = rest } }
    {
        Contents {
            places: Places::new(),
            writers: [0; 10],
            rest,
            taggers,
        }
    }

    /// Is every part in the frame, and are all of them unwritten?
    pub(crate) fn is_inside(&self) -> bool
        ensures { IsTrue result → (f : Field) → option_map unwritten (as_map self.now.parts f) ≡ as_map self.now.parts f }
    {
        self.places.is_empty() && self.writers == [0; 10]
    }

    /// The bytes of a field that is here.
    #[inline(always)]
    pub(crate) fn bytes(&self, field: Field) -> Option<&[u8]>
        ensures { option_copied result ≡ values_of (as_map self.now.parts) field }
    {
        if self.places.is_empty() {
            return self.rest.get(field);
        }
        match self.places.at(field.number()) {
            Place::Inside => self.rest.get(field),
            Place::Gone => None,
            Place::Outside(part) => Some(part.bytes()),
        }
    }

    /// The number of bytes of room that the part of a field has beyond its length.
    pub(crate) fn spare(&self, field: Field) -> usize
        ensures { IfSome (as_map self.now.parts field) (λ part. part.room ≡ length part.bytes + result) }
    {
        if self.places.is_empty() {
            return spare_room(field, self.taggers);
        }
        match self.places.at(field.number()) {
            Place::Inside => spare_room(field, self.taggers),
            Place::Gone => 0,
            Place::Outside(part) => part.spare(),
        }
    }

    /// The position of the function that wrote the part of a field last, 0 for none.
    pub(crate) fn writer(&self, field: Field) -> u32
        ensures { result ≡ writers_of (as_map self.now.parts) field }
    {
        let number = field.number();
        let inside = self.writers[number];
        if self.places.is_empty() {
            return writer_inside(&self.rest, field, inside);
        }
        match self.places.at(number) {
            Place::Inside => writer_inside(&self.rest, field, inside),
            Place::Gone => 0,
            Place::Outside(part) => part.writer(),
        }
    }

    /// Marks every part here as unwritten.
    pub(crate) fn forget_writers(&mut self)
        ensures { self.new ≡ record self.old { parts = as_list (λ f. option_map unwritten (as_map self.old.parts f)) } }
    {
        self.writers = [0; 10];
        self.places.forget_writers();
    }

    /// Keeps the part of a field here, as unwritten.
    pub(crate) fn keep(&mut self, field: Field)
        ensures { self.new ≡ record self.old { parts = as_list (changed field (option_map unwritten (as_map self.old.parts field)) (as_map self.old.parts)) } }
    {
        let number = field.number();
        self.writers[number] = 0;
        if self.places.is_empty() {
            return;
        }
        self.places.at_mut(number).forget_writer();
    }

    /// Writes the bytes of a field that is here, other than the tags. There are as many as before. If the part is in
    /// the frame, they are written there.
    pub(crate) fn set(&mut self, field: Field, writer: u32, bytes: &[u8])
        requires not_tag { field ≢ Field.Tag }
        requires fits { IsSomeAnd (as_map self.old.parts field) (λ p. length bytes.now ≡ length p.bytes) }
        ensures parts { self.new.parts ≡ as_list (changed field (option_map (rewritten bytes.now writer) (as_map self.old.parts field)) (as_map self.old.parts)) }
        ensures rest { rest_of self.new.frame ≡ rest_of self.old.frame }
    {
        let number = field.number();
        if stands_beside(self.places.all(), field) {
            self.places.at_mut(number).set(writer, bytes);
        } else {
            self.rest.put_value(field, bytes);
            self.writers[number] = writer;
        }
    }

    /// Takes the part of a field out.
    pub(crate) fn take(&mut self, alloc: Global, field: Field) -> Result<Option<Part>, AllocError>
        ensures part { IfOk result (λ part. part ≡ as_map self.old.parts field) }
        ensures left { self.new ≡ record self.old { parts = as_list (changed field None (as_map self.old.parts)) } }
    {
        self.places.open();
        let number = field.number();
        let writer = self.writers[number];
        let place = mem::replace(self.places.at_mut(number), Place::Gone);
        match place {
            Place::Inside => split_part(alloc, &self.rest, field, self.taggers, writer),
            Place::Gone => Ok(None),
            Place::Outside(part) => Ok(Some(part)),
        }
    }

    /// Takes the part of a field of fixed length out. It allocates nothing.
    pub(crate) fn take_few(&mut self, field: Field) -> Option<Part>
        requires not_tag { field ≢ Field.Tag }
        requires not_payload { field ≢ Field.Payload }
        requires formed { IsPartOf field (as_map self.old.parts field) }
        ensures part { result ≡ as_map self.old.parts field }
        ensures left { self.new ≡ record self.old { parts = as_list (changed field None (as_map self.old.parts)) } }
    {
        let alloc = self.rest.allocator();
        self.places.open();
        let number = field.number();
        let writer = self.writers[number];
        let place = mem::replace(self.places.at_mut(number), Place::Gone);
        match place {
            Place::Inside => few_part(alloc, &self.rest, field, writer),
            Place::Gone => None,
            Place::Outside(part) => Some(part),
        }
    }

    /// Lends the bytes of a field of fixed length that is here. The bytes that are left there count as written by this
    /// function. It allocates nothing.
    pub(crate) fn edit(&mut self, field: Field, writer: u32) -> &mut [u8]
        requires not_tag { field ≢ Field.Tag }
        requires not_payload { field ≢ Field.Payload }
        requires formed { IsPartOf field (as_map self.old.parts field) }
        requires present { IsSome (as_map self.old.parts field) }
        ensures* writes_back { sem 𝓛 (LendsContents self.entry field writer result) }
        ensures bytes { option_map (λ p. p.bytes) (as_map self.old.parts field) ≡ Some result.now }
    {
        let alloc = self.rest.allocator();
        self.places.open();
        let number = field.number();
        let inside = self.writers[number];
        bring_out(self.places.at_mut(number), alloc, &self.rest, field, inside);
        let place = self.places.at_mut(number);
        place.edit(writer)
    }

    /// Puts a part into the place of its field.
    pub(crate) fn put(&mut self, field: Field, part: Part)
        ensures { self.new ≡ record self.old { parts = as_list (changed field (Some part) (as_map self.old.parts)) } }
    {
        self.places.open();
        let place = self.places.at_mut(field.number());
        *place = Place::Outside(part);
    }

    /// Writes the parts that are outside the frame into it, and drops them. Allocates memory only if the tags were
    /// changed.
    #[inline(always)]
    pub(crate) fn put_back(&mut self, alloc: Global) -> Result<(), AllocError>
        requires { IsWhole (as_map self.old.parts) self.old.frame }
        ensures { OnOk result (self.new.frame ≡ written (values_of (as_map self.old.parts)) (rest_of self.old.frame)) }
    {
        if self.places.is_empty() {
            return Ok(());
        }
        self.put_places_back(alloc)
    }

    /// The same if some part may be outside the frame.
    fn put_places_back(&mut self, alloc: Global) -> Result<(), AllocError>
        requires { IsWhole (as_map self.old.parts) self.old.frame }
        ensures { OnOk result (self.new.frame ≡ written (values_of (as_map self.old.parts)) (rest_of self.old.frame)) }
    {
        put_all(alloc, self.places.all(), &mut self.rest)?;
        self.places = Places::new();
        Ok(())
    }

    /// The frame. No part is outside it any more.
    #[inline(always)]
    pub(crate) fn into_frame(self) -> Vec<u8>
        ensures { result.items ≡ self.frame }
    {
        let Contents {
            places,
            writers: _,
            rest,
            taggers: _,
        } = self;
        // They hold no part, so there is nothing to free, and `forget` spares the look at each of them.
        mem::forget(places);
        rest.into_bytes()
    }
}

/// Writes the parts that are outside a frame into it.
fn put_all(alloc: Global, places: &[Place], rest: &mut Rest) -> Result<(), AllocError>
    requires ten { length places.now ≡ 10 }
    requires fit { AllFit (values_of (parts_beside places.now)) rest.old }
    ensures { OnOk result (rest.new ≡ written (values_of (parts_beside places.now)) rest.old) }
{
    let fields = all_fields();
    for field in fields {
        if let Place::Outside(part) = &places[field.number()] {
            rest.put(alloc, *field, part.bytes())?;
        }
    }
    Ok(())
}

/// The writer of the part of a field in the frame, or 0 if the frame lacks the field.
fn writer_inside(rest: &Rest, field: Field, writer: u32) -> u32
    ensures { result ≡ (if is_some (value field rest.now) then writer else 0) }
{
    match rest.get(field) {
        Some(_) => writer,
        None => 0,
    }
}

/// Is the part of a field outside the frame?
fn stands_beside(places: &[Place], field: Field) -> bool
    ensures { result ≡ is_outside (place_of places.now field) }
{
    matches!(places.get(field.number()), Some(Place::Outside(_)))
}

/// The part of a field that is in the frame, by this writer.
fn split_part(
    alloc: Global,
    rest: &Rest,
    field: Field,
    taggers: u32,
    writer: u32,
) -> Result<Option<Part>, AllocError>
    ensures { IfOk result (λ part. part ≡ option_map (by_writer writer) (split_parts taggers rest.now field)) }
{
    match rest.get(field) {
        Some(bytes) => {
            let part = Part::new(alloc, bytes, spare_room(field, taggers))?;
            Ok(Some(part.by(writer)))
        }
        None => Ok(None),
    }
}

/// The part of a field of fixed length that is in the frame, by this writer. It allocates nothing.
fn few_part(alloc: Global, rest: &Rest, field: Field, writer: u32) -> Option<Part>
    requires not_tag { field ≢ Field.Tag }
    requires not_payload { field ≢ Field.Payload }
    ensures { result ≡ option_map (by_writer writer) (option_map (fresh 0) (value field rest.now)) }
{
    match rest.get(field) {
        Some(bytes) => Some(Part::few(alloc, bytes, writer)),
        None => None,
    }
}

/// Moves the part of a field of fixed length out of the frame, if it is there. It allocates nothing.
fn bring_out(place: &mut Place, alloc: Global, rest: &Rest, field: Field, writer: u32)
    requires not_tag { field ≢ Field.Tag }
    requires not_payload { field ≢ Field.Payload }
    ensures { place.new ≡ brought rest.now writer field place.old }
{
    if let Place::Inside = place {
        *place = made_place(few_part(alloc, rest, field, writer));
    }
}

/// The place of a part that was made of one in the frame.
fn made_place(part: Option<Part>) -> Place
    ensures { result ≡ place_made part }
{
    match part {
        Some(part) => Place::Outside(part),
        None => Place::Inside,
    }
}

/// The number of bytes of room that a field's part has beyond its length.
fn spare_room(field: Field, taggers: u32) -> usize
    ensures { result ≡ spare_room_of taggers field }
{
    match field {
        Field::Tag => 4 * taggers as usize,
        _ => 0,
    }
}
