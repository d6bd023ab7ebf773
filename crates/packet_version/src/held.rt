//! A packet that is passed on.

use crate::contents::Contents;
use crate::part::Part;
use crate::rest::Rest;
use packet_fields::Field;
use std::alloc::{AllocError, AllocFailed, Global};
use std::marker::Model;

/// A packet's frame, which holds the parts that no branch took out, and those of the other parts that came back.
///
/// A part leaves the frame only when it is taken, so a field that nobody takes is never copied.
#[derive(Drop)]
pub(crate) struct Held {
    // On the heap, since a packet is moved often.
    contents: Box<Contents>,
}

impl Model for Held {
    ghost use Rattle.std.specs.Prelude.{◌≡◌, length};
    ghost use Rattle.packet_version.specs.Parts.{PlainHeld};

    ghost Value = { PlainHeld };

    ghost view = { λ h. h.contents.value };

    ghost invariant = { λ h. length h.contents.value.parts ≡ 10 };
}

ghost use Rattle.std.specs.Prelude.{◌≡◌, ◌≢◌, ◌+◌, Some, None, IfOk, IfSome, IsSome, IsSomeAnd, IsTrue, length, option_map};
ghost use Rattle.std.specs.Borrow.{sem};
ghost use Rattle.std.specs.Option.{option_copied};
ghost use Rattle.packet_fields.specs.declared.field.Field.{Field};
ghost use Rattle.packet_fields.specs.Writing.{rest_of, written};
ghost use Rattle.packet_version.specs.Parts.{PlainHeld, as_list, as_map, changed, unwritten, rewritten, values_of, writers_of, IsPartOf};
ghost use Rattle.packet_version.specs.Lending.{LendsHeld};
ghost use Rattle.packet_version.specs.Splitting.{split_parts, IsWhole};

impl Held {
    /// The frame with every part in it; the list of tags has room for `taggers` more tags.
    #[inline(always)]
    pub(crate) fn new(alloc: Global, rest: Rest, taggers: u32) -> Result<Held, AllocError>
        ensures { IfOk result (λ held. held ≡ record { parts = as_list (split_parts taggers rest); frame = rest }) }
    {
        // Without `?`, which would carry the places along to the error.
        match Box::new(alloc, Contents::new(rest, taggers)) {
            Ok(contents) => Ok(Held { contents }),
            Err(AllocFailed { value }) => {
                drop(value.into_frame());
                Err(AllocError)
            }
        }
    }

    /// There is a place for each field.
    pub(crate) fn has_ten(&self)
        ensures { length self.now.parts ≡ 10 }
    {
        let _ = &self.contents;
    }

    /// Is every part in the frame, and are all of them unwritten?
    pub(crate) fn is_inside(&self) -> bool
        ensures { IsTrue result → (f : Field) → option_map unwritten (as_map self.now.parts f) ≡ as_map self.now.parts f }
    {
        self.contents.is_inside()
    }

    /// The bytes of a field that is here.
    #[inline(always)]
    pub(crate) fn bytes(&self, field: Field) -> Option<&[u8]>
        ensures { option_copied result ≡ values_of (as_map self.now.parts) field }
    {
        self.contents.bytes(field)
    }

    /// The number of bytes of room that the part of a field has beyond its length.
    pub(crate) fn spare(&self, field: Field) -> usize
        ensures { IfSome (as_map self.now.parts field) (λ part. part.room ≡ length part.bytes + result) }
    {
        self.contents.spare(field)
    }

    /// The position of the function that wrote the part of a field last, 0 for none.
    pub(crate) fn writer(&self, field: Field) -> u32
        ensures { result ≡ writers_of (as_map self.now.parts) field }
    {
        self.contents.writer(field)
    }

    /// Marks every part here as unwritten.
    pub(crate) fn forget_writers(&mut self)
        ensures { self.new ≡ record self.old { parts = as_list (λ f. option_map unwritten (as_map self.old.parts f)) } }
    {
        self.contents.forget_writers();
    }

    /// Keeps the part of a field here, as unwritten.
    pub(crate) fn keep(&mut self, field: Field)
        ensures { self.new ≡ record self.old { parts = as_list (changed field (option_map unwritten (as_map self.old.parts field)) (as_map self.old.parts)) } }
    {
        self.contents.keep(field);
    }

    /// Writes the bytes of a field that is here, other than the tags. There are as many as before. If the part is in
    /// the frame, they are written there.
    pub(crate) fn set(&mut self, field: Field, writer: u32, bytes: &[u8])
        requires not_tag { field ≢ Field.Tag }
        requires fits { IsSomeAnd (as_map self.old.parts field) (λ p. length bytes.now ≡ length p.bytes) }
        ensures parts { self.new.parts ≡ as_list (changed field (option_map (rewritten bytes.now writer) (as_map self.old.parts field)) (as_map self.old.parts)) }
        ensures rest { rest_of self.new.frame ≡ rest_of self.old.frame }
    {
        self.contents.set(field, writer, bytes);
    }

    /// Takes the part of a field out.
    pub(crate) fn take(&mut self, alloc: Global, field: Field) -> Result<Option<Part>, AllocError>
        ensures part { IfOk result (λ part. part ≡ as_map self.old.parts field) }
        ensures left { self.new ≡ record self.old { parts = as_list (changed field None (as_map self.old.parts)) } }
    {
        self.contents.take(alloc, field)
    }

    /// Takes the part of a field of fixed length out. It allocates nothing.
    pub(crate) fn take_few(&mut self, field: Field) -> Option<Part>
        requires not_tag { field ≢ Field.Tag }
        requires not_payload { field ≢ Field.Payload }
        requires formed { IsPartOf field (as_map self.old.parts field) }
        ensures part { result ≡ as_map self.old.parts field }
        ensures left { self.new ≡ record self.old { parts = as_list (changed field None (as_map self.old.parts)) } }
    {
        self.contents.take_few(field)
    }

    /// Lends the bytes of a field of fixed length that is here. The bytes that are left there count as written by this
    /// function. It allocates nothing.
    pub(crate) fn edit(&mut self, field: Field, writer: u32) -> &mut [u8]
        requires not_tag { field ≢ Field.Tag }
        requires not_payload { field ≢ Field.Payload }
        requires formed { IsPartOf field (as_map self.old.parts field) }
        requires present { IsSome (as_map self.old.parts field) }
        ensures* writes_back { sem 𝓛 (LendsHeld self.entry field writer result) }
        ensures bytes { option_map (λ p. p.bytes) (as_map self.old.parts field) ≡ Some result.now }
    {
        self.contents.edit(field, writer)
    }

    /// Puts a part into the place of its field.
    pub(crate) fn put(&mut self, field: Field, part: Part)
        ensures { self.new ≡ record self.old { parts = as_list (changed field (Some part) (as_map self.old.parts)) } }
    {
        self.contents.put(field, part);
    }

    /// The frame with each part in its field's place. Allocates memory only if the tags were changed.
    #[inline(always)]
    pub(crate) fn join(self, alloc: Global) -> Result<Vec<u8>, AllocError>
        requires { IsWhole (as_map self.parts) self.frame }
        ensures { IfOk result (λ bytes. bytes.items ≡ written (values_of (as_map self.parts)) (rest_of self.frame)) }
    {
        let Held { mut contents } = self;
        contents.put_back(alloc)?;
        Ok(Box::into_inner(contents).into_frame())
    }
}
