//! What a branch of a stage has of a packet.

use crate::held::Held;
use crate::loan::Loan;
use crate::part::Part;
use crate::view::View;
use action_profile::{FieldSet, Profile, Touch, all_fields};
use chain_walk::Fixed;
use packet_fields::Field;
use part_lease::{Reader, Shown};
use std::alloc::{AllocError, Global};
use std::marker::Model;
use std::mem;
use std::sync::Wait;

/// A branch's version of a packet: the parts of the fields that the branch touches, and the packet's
/// fixed values. Those that it writes are its own, and those that it only reads are lent to it. The only
/// branch of a stage may have the packet itself, and write in it.
#[derive(Drop)]
pub struct Version {
    // The packet, if the branch writes in it. Then it has no parts of its own, and nothing is lent.
    pub(crate) within: Option<Held>,
    // A place for each field, or none if the branch writes nothing.
    pub(crate) own: Vec<Option<Part>>,
    // One loan covers all fields that the branch only reads.
    pub(crate) lent: Option<Loan<Reader<Held>>>,
    pub(crate) touch: Touch,
    pub(crate) fixed: Fixed,
}

impl Model for Version {
    ghost use Rattle.packet_version.specs.Parts.{as_list};
    ghost use Rattle.packet_version.specs.Versions.{PlainVersion, had_in, kept_of, IsHad};

    ghost Value = { PlainVersion };

    ghost view = { λ v. record { parts = as_list (had_in v.touch v.within v.own.items v.lent); touch = v.touch; fixed = v.fixed; kept = kept_of v.touch v.within v.lent v.fixed } };

    ghost invariant = { λ v. IsHad v.touch v.within v.own.items v.lent };
}

impl Version {
    ghost use Rattle.std.specs.Prelude.{◌≡◌, ◌≤◌};
    ghost use Rattle.packet_version.specs.Versions.{HoldsNamed};

    /// The version as the function with this profile at this chain position sees it. It waits for a
    /// claim on the parts that are lent.
    #[inline(always)]
    pub fn view<R: Wait>(self, rt: &R, profile: &Profile, position: u32) -> View
        requires holds { HoldsNamed profile.now self.touch }
        requires position { 1 ≤ position }
        ensures { result ≡ record { version = self; profile = profile.now; position = position } }
    {
        let Version {
            within,
            own,
            lent,
            touch,
            fixed,
        } = self;
        View {
            within,
            own,
            lent: claimed(rt, lent),
            touch,
            fixed,
            profile: *profile,
            position,
        }
    }
}

impl Version {
    ghost use Rattle.std.specs.Prelude.{◌≡◌, Some, None, true, false, IfOk};
    ghost use Rattle.packet_fields.specs.declared.field.Field.{Field};
    ghost use Rattle.action_profile.specs.Modes.{has_write};
    ghost use Rattle.packet_version.specs.Parts.{as_map, writer_in, writers_of, AreTags, IsValueOf, IsPartOf};
    ghost use Rattle.packet_version.specs.Versions.{version_parts, with_part, nothing};
    ghost use Rattle.packet_version.specs.Handing.{holding, reads_more, writes_few, writes_some, with_loan, with_packet};

    /// A branch's version in which there is no field yet.
    pub(crate) fn empty(alloc: Global, touch: Touch, fixed: Fixed) -> Result<Version, AllocError>
        ensures { IfOk result (λ version. version ≡ nothing touch fixed) }
    {
        Ok(Version {
            within: None,
            own: own_places(alloc, touch.writes)?,
            lent: None,
            touch,
            fixed,
        })
    }

    /// Does the branch write the field?
    pub fn writes(&self, field: Field) -> bool
        ensures { result ≡ has_write field self.now.touch }
    {
        self.touch.writes.has(field)
    }

    /// The fields that the branch writes.
    pub fn writable(&self) -> FieldSet
        ensures { result ≡ self.now.touch.writes }
    {
        self.touch.writes
    }

    /// Does the branch write some field?
    pub(crate) fn writes_some(&self) -> bool
        ensures { result ≡ writes_some self.now.touch }
    {
        self.touch.writes != FieldSet::NONE
    }

    /// Does the branch read a field that it doesn't write?
    #[tactic(auto, unfolding(crate::specs::Handing::reads_more))]
    pub(crate) fn reads_more(&self) -> bool
        ensures { result ≡ reads_more self.now.touch }
    {
        self.touch.reads.with(self.touch.writes) != self.touch.writes
    }

    /// The chain position of the function that wrote the field last in this stage, 0 for none.
    pub fn writer(&self, field: Field) -> u32
        ensures writer { result ≡ writers_of (version_parts self.now) field }
        // Only a field that the branch writes has a writer.
        ensures unwritten { has_write field self.now.touch ≡ false → result ≡ 0 }
    {
        if !self.touch.writes.has(field) {
            return 0;
        }
        if let Some(held) = &self.within {
            return held.writer(field);
        }
        match &self.own[field.number()] {
            Some(part) => part.writer(),
            None => 0,
        }
    }

    /// Gives the branch a part of its own of a field that it writes.
    pub(crate) fn give(&mut self, field: Field, part: Part)
        requires written { has_write field self.old.touch ≡ true }
        requires formed { IsValueOf field part.bytes }
        ensures { self.new ≡ with_part field (Some part) self.old }
    {
        match &mut self.within {
            Some(held) => held.put(field, part),
            None => put_part(&mut self.own[field.number()], part),
        }
    }

    /// Lends the branch an unwritten packet, for the fields that it only reads.
    pub(crate) fn lend(&mut self, reader: Reader<Held>)
        requires unwritten { (f : Field) → writer_in (as_map reader.parts f) ≡ 0 }
        requires formed { (f : Field) → IsPartOf f (as_map reader.parts f) }
        requires apart { self.old.kept ≡ None }
        ensures { self.new ≡ with_loan (as_map reader.parts) self.old }
    {
        self.lent = Some(Loan::Shared(reader));
    }

    /// Leaves the unwritten packet with the branch, which is the only one of its stage.
    pub(crate) fn keep(&mut self, held: Held)
        requires unwritten { (f : Field) → writer_in (as_map held.parts f) ≡ 0 }
        requires formed { (f : Field) → IsPartOf f (as_map held.parts f) }
        requires apart { self.old.kept ≡ None }
        ensures { self.new ≡ with_packet held self.old }
    {
        self.lent = Some(Loan::Whole(held));
    }

    /// The version of a branch that has the unwritten packet, and writes in it. The branch is the only one of its
    /// stage.
    #[inline(always)]
    pub(crate) fn in_packet(alloc: Global, held: Held, touch: Touch, fixed: Fixed) -> Version
        requires unwritten { (f : Field) → writer_in (as_map held.parts f) ≡ 0 }
        requires formed { (f : Field) → IsPartOf f (as_map held.parts f) }
        requires few { writes_few touch ≡ true }
        ensures { result ≡ holding held touch fixed }
    {
        Version {
            within: Some(held),
            own: Vec::new(alloc),
            lent: None,
            touch,
            fixed,
        }
    }

    /// Takes the branch's own part of a field out.
    pub fn take(&mut self, field: Field) -> Option<Part>
        requires { has_write field self.old.touch ≡ true }
        ensures part { result ≡ version_parts self.old field }
        ensures left { self.new ≡ with_part field None self.old }
        // The tags of a version are whole.
        ensures tags { field ≡ Field.Tag → AreTags result }
    {
        match &mut self.within {
            Some(held) => held.take_few(field),
            None => mem::replace(&mut self.own[field.number()], None),
        }
    }
}

ghost use Rattle.std.specs.Prelude.{◌≡◌, Some, None, IfOk, [], map, if◌then◌else◌};
ghost use Rattle.packet_fields.specs.Writing.{all_fields as every_field};
ghost use Rattle.action_profile.specs.FieldSets.{is_none};

/// A place for each part of a branch that writes these fields, none if it writes nothing.
fn own_places(alloc: Global, writes: FieldSet) -> Result<Vec<Option<Part>>, AllocError>
    ensures { IfOk result (λ own. own.items ≡ (if is_none writes then [] else map (λ f. None) every_field)) }
{
    if writes == FieldSet::NONE {
        return Ok(Vec::new(alloc));
    }
    empty_places(alloc)
}

fn empty_places(alloc: Global) -> Result<Vec<Option<Part>>, AllocError>
    ensures { IfOk result (λ own. own.items ≡ map (λ f. None) every_field) }
{
    let fields = all_fields();
    let mut own = Vec::with_capacity(alloc, fields.len())?;
    for _field in fields {
        own.push(None)?;
    }
    Ok(own)
}

/// Puts a part into its place. One that was there is dropped.
fn put_part(place: &mut Option<Part>, part: Part)
    ensures { place.new ≡ Some part }
{
    *place = Some(part);
}

/// A claim on what is lent.
#[inline(always)]
fn claimed<R: Wait>(rt: &R, lent: Option<Loan<Reader<Held>>>) -> Option<Loan<Shown<Held>>>
    ensures { result ≡ lent }
{
    match lent {
        Some(Loan::Shared(reader)) => Some(Loan::Shared(reader.read(rt))),
        Some(Loan::Whole(held)) => Some(Loan::Whole(held)),
        None => None,
    }
}

/// The right to read again, with the claim given back.
#[inline(always)]
pub(crate) fn released(shown: Option<Loan<Shown<Held>>>) -> Option<Loan<Reader<Held>>>
    ensures { result ≡ shown }
{
    match shown {
        Some(Loan::Shared(shown)) => Some(Loan::Shared(shown.done())),
        Some(Loan::Whole(held)) => Some(Loan::Whole(held)),
        None => None,
    }
}
