//! What a function sees of its branch's version.

use crate::held::Held;
use crate::laws::view_is_formed;
use crate::loan::Loan;
use crate::part::{Part, edit_part};
use crate::version::{Version, released};
use action_profile::{Profile, Touch};
use chain_walk::Fixed;
use packet_fields::Field;
use part_lease::Shown;
use std::marker::Model;
use std::mem;

/// A version as one function sees it: what its profile names, and nothing else. A view can't be
/// dropped: [`View::end`] gives the version back.
pub struct View {
    pub(crate) within: Option<Held>,
    pub(crate) own: Vec<Option<Part>>,
    pub(crate) lent: Option<Loan<Shown<Held>>>,
    pub(crate) touch: Touch,
    pub(crate) fixed: Fixed,
    pub(crate) profile: Profile,
    pub(crate) position: u32,
}

impl Model for View {
    ghost use Rattle.packet_version.specs.Parts.{as_list};
    ghost use Rattle.packet_version.specs.Versions.{had_in, kept_of};
    ghost use Rattle.packet_version.specs.Views.{PlainView, IsView};

    ghost Value = { PlainView };

    ghost view = { λ v. record { version = record { parts = as_list (had_in v.touch v.within v.own.items v.lent); touch = v.touch; fixed = v.fixed; kept = kept_of v.touch v.within v.lent v.fixed }; profile = v.profile; position = v.position } };

    ghost invariant = { λ v. IsView v.profile v.touch v.within v.own.items v.lent };
}

impl View {
    ghost use Rattle.std.specs.Prelude.{◌≡◌, ◌≢◌, ◌<◌, true, length, IsSome, IfSome, is_some};
    ghost use Rattle.std.specs.Option.{option_copied};
    ghost use Rattle.packet_fields.specs.Frames.{is_tpid, is_tag_list, word};
    ghost use Rattle.packet_fields.specs.Fields.{IsLengthOf};
    ghost use Rattle.packet_fields.specs.declared.field.Field.{Field};
    ghost use Rattle.action_profile.specs.Profiles.{reads_of, writes_of};
    ghost use Rattle.packet_version.specs.Parts.{AreTags};
    ghost use Rattle.packet_version.specs.Versions.{names, with_part};
    ghost use Rattle.packet_version.specs.Views.{seen_parts, seen_values, wrote, pushed, popped, HasBytes, HasTagRoom};
    ghost use Rattle.packet_version.specs.ViewLending.{LendsField};
    ghost use Rattle.std.specs.Borrow.{sem};

    /// The bytes of a field that the profile reads, if the packet has it. The value has the field's length, and the
    /// tags are whole.
    #[inline(always)]
    pub fn get(&self, field: Field) -> Option<&[u8]>
        requires read { reads_of self.now.profile field ≡ true }
        ensures value { option_copied result ≡ seen_values self.now field }
        ensures size { IfSome result (λ bytes. IsLengthOf field (length bytes.now)) }
        ensures whole { field ≡ Field.Tag → IfSome result (λ bytes. is_tag_list bytes.now ≡ true) }
    {
        view_is_formed(self);
        self.bytes(field)
    }

    /// Does the packet have this field, which the profile reads or writes?
    pub fn has(&self, field: Field) -> bool
        requires named { names self.now.profile field ≡ true }
        ensures { result ≡ is_some (seen_parts self.now field) }
    {
        self.bytes(field).is_some()
    }

    /// The bytes of a field that the profile names, if the packet has it.
    #[inline(always)]
    fn bytes(&self, field: Field) -> Option<&[u8]>
        requires named { names self.now.profile field ≡ true }
        ensures { option_copied result ≡ seen_values self.now field }
    {
        if let Some(held) = &self.within {
            return held.bytes(field);
        }
        if self.touch.writes.has(field) {
            return own_bytes(&self.own[field.number()]);
        }
        lent_bytes(&self.lent, field)
    }

    /// Writes a field that is present and that the profile writes, other than the tags. The value has as
    /// many bytes as the old one.
    pub fn set(&mut self, field: Field, value: &[u8])
        requires not_tag { field ≢ Field.Tag }
        requires written { writes_of self.old.profile field ≡ true }
        requires fits { HasBytes self.old field (λ old. length value.now ≡ length old) }
        ensures { self.new ≡ wrote field value.now self.old }
    {
        match &mut self.within {
            Some(held) => held.set(field, self.position, value),
            None => set_part(&mut self.own[field.number()], self.position, value),
        }
    }

    /// Lends the bytes of a field that is present and that the profile reads and writes, other than the tags. The bytes
    /// that are left there count as written by this function.
    pub fn edit(&mut self, field: Field) -> &mut [u8]
        requires not_tag { field ≢ Field.Tag }
        requires read { reads_of self.old.profile field ≡ true }
        requires written { writes_of self.old.profile field ≡ true }
        requires present { IsSome (seen_parts self.old field) }
        ensures* writes_back { sem 𝓛 (LendsField self.entry field result) }
        ensures bytes { seen_values self.old field ≡ Some result.now }
    {
        if self.within.is_some() {
            let within = &mut self.within;
            return edit_within(within, field, self.position);
        }
        let part = &mut self.own[field.number()];
        edit_part(part, self.position)
    }

    /// Puts a tag before the others, for which there is room. It begins with the identifier of a tag
    /// (IEEE 802.1Q, 9.5).
    pub fn push_tag(&mut self, tag: [u8; 4])
        requires adds { self.old.profile.adds ≡ true }
        requires identified { is_tpid (word tag 0) ≡ true }
        requires room { HasTagRoom self.old }
        ensures { self.new ≡ pushed tag self.old }
    {
        let held = self.take_tags();
        let part = with_first_tag(held, self.position, tag);
        self.put_tags(part);
    }

    /// Removes the first tag, if there is one.
    pub fn pop_tag(&mut self)
        requires removes { self.old.profile.removes ≡ true }
        requires tagged { HasBytes self.old Field.Tag (λ tags. 0 < length tags) }
        ensures { self.new ≡ popped self.old }
    {
        let held = self.take_tags();
        let part = without_first_tag(held, self.position);
        self.put_tags(part);
    }

    /// Takes the tags out. A branch that writes tags has them outside the packet.
    fn take_tags(&mut self) -> Option<Part>
        requires written { writes_of self.old.profile Field.Tag ≡ true }
        ensures part { result ≡ seen_parts self.old Field.Tag }
        ensures left { self.new ≡ record self.old { version = with_part Field.Tag None self.old.version } }
        ensures tags { AreTags result }
    {
        mem::replace(&mut self.own[Field::Tag.number()], None)
    }

    /// Puts the tags, or `None`, into their place.
    fn put_tags(&mut self, part: Option<Part>)
        requires written { writes_of self.old.profile Field.Tag ≡ true }
        requires tags { AreTags part }
        ensures { self.new ≡ record self.old { version = with_part Field.Tag part self.old.version } }
    {
        self.own[Field::Tag.number()] = part;
    }

    /// When the packet was captured, in nanoseconds.
    pub fn time(&self) -> u64
        ensures { result ≡ self.now.version.fixed.time }
    {
        self.fixed.time
    }

    /// The EtherType (IEEE 802.3, 3.2.6), if the frame has one.
    pub fn ether_type(&self) -> Option<u16>
        ensures { result ≡ self.now.version.fixed.ether_type }
    {
        self.fixed.ether_type
    }

    /// The protocol of the IPv4 header (RFC 791, 3.1) or the next header of the IPv6 header (RFC 8200, 3), if it is
    /// captured.
    pub fn proto(&self) -> Option<u8>
        ensures { result ≡ self.now.version.fixed.proto }
    {
        self.fixed.proto
    }

    /// IPv4's total length in bytes (RFC 791, 3.1), or 40 more than IPv6's payload length (RFC 8200, 3), if it is
    /// captured.
    pub fn ip_len(&self) -> Option<u16>
        ensures { result ≡ self.now.version.fixed.ip_len }
    {
        self.fixed.ip_len
    }

    /// The TCP header's byte of control bits (RFC 793, 3.1), if it is captured.
    pub fn tcp_flags(&self) -> Option<u8>
        ensures { result ≡ self.now.version.fixed.tcp_flags }
    {
        self.fixed.tcp_flags
    }

    /// Gives the claim back, and returns the version with what was written.
    #[inline(always)]
    pub fn end(self) -> Version
        ensures { result ≡ self.version }
    {
        let View {
            within,
            own,
            lent,
            touch,
            fixed,
            profile: _,
            position: _,
        } = self;
        Version {
            within,
            own,
            lent: released(lent),
            touch,
            fixed,
        }
    }
}

ghost use Rattle.std.specs.Prelude.{◌≡◌, ◌≢◌, ◌≤◌, ◌<◌, ◌+◌, ◌++◌, Some, true, drop, length, option_map, IsSome, IfSome, IsSomeAnd};
ghost use Rattle.std.specs.Borrow.{sem};
ghost use Rattle.packet_fields.specs.declared.field.Field.{Field};
ghost use Rattle.packet_version.specs.Lending.{LendsWithin};
ghost use Rattle.packet_fields.specs.Frames.{is_tpid, word};
ghost use Rattle.std.specs.Option.{option_copied};
ghost use Rattle.packet_version.specs.Parts.{AreTags, IsPartOf, as_map, values_of, rewritten as rewritten_part};
ghost use Rattle.packet_version.specs.Versions.{lent_parts};

/// The bytes of a field of the lent packet.
#[inline(always)]
fn lent_bytes(lent: &Option<Loan<Shown<Held>>>, field: Field) -> Option<&[u8]>
    ensures { option_copied result ≡ values_of (lent_parts lent.now) field }
{
    match lent {
        Some(Loan::Shared(shown)) => shown.part().bytes(field),
        Some(Loan::Whole(held)) => held.bytes(field),
        None => None,
    }
}

/// The bytes of a part that is there.
fn own_bytes(part: &Option<Part>) -> Option<&[u8]>
    ensures { option_copied result ≡ option_map (λ p. p.bytes) part.now }
{
    match part {
        Some(part) => Some(part.bytes()),
        None => None,
    }
}

/// Lends the bytes of a field of fixed length that is in the packet, if the branch writes in the packet.
fn edit_within(within: &mut Option<Held>, field: Field, writer: u32) -> &mut [u8]
    requires not_tag { field ≢ Field.Tag }
    requires not_payload { field ≢ Field.Payload }
    requires formed { IfSome within.old (λ held. IsPartOf field (as_map held.parts field)) }
    requires present { IsSomeAnd within.old (λ held. IsSome (as_map held.parts field)) }
    ensures* writes_back { sem 𝓛 (LendsWithin within.entry field writer result) }
    ensures bytes { IfSome within.old (λ held. option_map (λ p. p.bytes) (as_map held.parts field) ≡ Some result.now) }
{
    match within {
        Some(held) => held.edit(field, writer),
        None => unreachable!(),
    }
}

/// Writes other bytes by this writer into a part that is there.
fn set_part(part: &mut Option<Part>, writer: u32, bytes: &[u8])
    requires { IsSomeAnd part.old (λ p. length bytes.now ≡ length p.bytes) }
    ensures { part.new ≡ option_map (rewritten_part bytes.now writer) part.old }
{
    if let Some(part) = part {
        part.set(writer, bytes);
    }
}

/// The tags, if they are there, with one more before them.
fn with_first_tag(part: Option<Part>, writer: u32, tag: [u8; 4]) -> Option<Part>
    requires identified { is_tpid (word tag 0) ≡ true }
    requires room { IsSomeAnd part (λ p. length p.bytes + 4 ≤ p.room) }
    requires tags { AreTags part }
    ensures pushed { result ≡ option_map (λ p. rewritten_part (tag ++ p.bytes) writer p) part }
    ensures tags { AreTags result }
{
    let mut part = part?;
    part.push_front(writer, tag);
    Some(part)
}

/// The tags, if they are there, without the first.
fn without_first_tag(part: Option<Part>, writer: u32) -> Option<Part>
    requires tagged { IsSomeAnd part (λ p. 0 < length p.bytes) }
    requires tags { AreTags part }
    ensures popped { result ≡ option_map (λ p. rewritten_part (drop 4 p.bytes) writer p) part }
    ensures tags { AreTags result }
{
    let mut part = part?;
    part.pop_front(writer);
    Some(part)
}
