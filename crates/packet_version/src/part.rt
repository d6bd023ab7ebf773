//! The part of a packet that is one field.

use crate::tally::Tally;
use packet_fields::Field;
use smallvec::SmallVec;
use std::alloc::{AllocError, Global};
use std::marker::Model;

// Every field of fixed length, the longest of which is an IPv6 address, and four tags fit in the part itself.
const INLINE: usize = 16;

/// A field's bytes, the function that wrote them last in this stage, and the number of bytes that fit without an
/// allocation.
///
/// A part can't be cloned: only [`copy`] makes a second one, and counts it.
#[derive(Drop)]
pub struct Part {
    bytes: SmallVec<u8, INLINE>,
    writer: u32,
    room: usize,
}

impl Model for Part {
    ghost use Rattle.std.specs.Prelude.{◌≤◌, length};
    ghost use Rattle.packet_version.specs.Parts.{PlainPart};

    ghost Value = { PlainPart };

    ghost view = { λ p. record { bytes = p.bytes.items; writer = p.writer; room = p.room } };

    ghost invariant = { λ p. (length p.bytes.items ≤ p.room) × (p.room ≤ p.bytes.capacity) };
}

impl Part {
    ghost use Rattle.std.specs.Prelude.{◌≡◌, ◌≤◌, ◌+◌, ◌++◌, length, drop, IfOk};
    ghost use Rattle.std.specs.Borrow.{sem};
    ghost use Rattle.packet_version.specs.Parts.{unwritten, rewritten, by_writer};
    ghost use Rattle.packet_version.specs.Lending.{LendsBytes};
    ghost use Rattle.packet_version.specs.Splitting.{fresh};

    /// An unwritten part of these bytes, with room for `spare` more bytes.
    pub(crate) fn new(alloc: Global, bytes: &[u8], spare: usize) -> Result<Part, AllocError>
        ensures { IfOk result (λ part. part ≡ fresh spare bytes.now) }
    {
        let Some(room) = bytes.len().checked_add(spare) else {
            return Err(AllocError);
        };
        let mut held = SmallVec::with_capacity(alloc, room)?;
        held.extend_from_slice(bytes)?;
        Ok(Part {
            bytes: held,
            writer: 0,
            room,
        })
    }

    /// A part of at most sixteen bytes, by this writer. It allocates nothing.
    pub(crate) fn few(alloc: Global, bytes: &[u8], writer: u32) -> Part
        requires { length bytes.now ≤ 16 }
        ensures { result ≡ by_writer writer (fresh 0 bytes.now) }
    {
        let room = bytes.len();
        let mut held = SmallVec::from_buf_and_len(alloc, [0; INLINE], room);
        held.as_mut_slice().copy_from_slice(bytes);
        Part {
            bytes: held,
            writer,
            room,
        }
    }

    /// The field's bytes.
    pub fn bytes(&self) -> &[u8]
        ensures { result.now ≡ self.now.bytes }
    {
        self.bytes.as_slice()
    }

    /// The chain position of the function that wrote the part last in this stage, 0 for none.
    pub fn writer(&self) -> u32
        ensures { result ≡ self.now.writer }
    {
        self.writer
    }

    /// The part as the next stage gets it: unwritten.
    pub(crate) fn unwritten(mut self) -> Part
        ensures { result ≡ unwritten self }
    {
        self.writer = 0;
        self
    }

    /// The part with this writer; 0 means unwritten.
    pub(crate) fn by(mut self, writer: u32) -> Part
        ensures { result ≡ by_writer writer self }
    {
        self.writer = writer;
        self
    }

    /// Marks the part as unwritten.
    pub(crate) fn forget_writer(&mut self)
        ensures { self.new ≡ unwritten self.old }
    {
        self.writer = 0;
    }

    /// The number of bytes of room beyond the field's length.
    pub(crate) fn spare(&self) -> usize
        ensures { self.now.room ≡ length self.now.bytes + result }
    {
        self.room - self.bytes.len()
    }

    /// Writes the bytes, as many as the part has.
    pub(crate) fn set(&mut self, writer: u32, bytes: &[u8])
        requires { length bytes.now ≡ length self.old.bytes }
        ensures { self.new ≡ rewritten bytes.now writer self.old }
    {
        self.writer = writer;
        self.bytes.as_mut_slice().copy_from_slice(bytes);
    }

    /// Sets the writer, and lends the bytes.
    pub(crate) fn edit(&mut self, writer: u32) -> &mut [u8]
        ensures* writes_back { sem 𝓛 (LendsBytes self.entry writer result) }
        ensures bytes { result.now ≡ self.old.bytes }
    {
        self.writer = writer;
        self.bytes.as_mut_slice()
    }

    /// Puts four bytes before the others.
    pub(crate) fn push_front(&mut self, writer: u32, four: [u8; 4])
        requires { length self.old.bytes + 4 ≤ self.old.room }
        ensures part { self.new ≡ rewritten (four ++ self.old.bytes) writer self.old }
        ensures len { length self.new.bytes ≡ length self.old.bytes + 4 }
    {
        self.bytes.insert_from_slice(0, &four).unwrap();
        self.writer = writer;
    }

    /// Removes the first four bytes.
    pub(crate) fn pop_front(&mut self, writer: u32)
        requires { 4 ≤ length self.old.bytes }
        ensures { self.new ≡ rewritten (drop 4 self.old.bytes) writer self.old }
    {
        let left = self.bytes.len() - 4;
        self.bytes.as_mut_slice().rotate_left(4);
        self.bytes.truncate(left);
        self.writer = writer;
    }

    /// The greatest length in bytes that the part can have without an allocation.
    pub fn room(&self) -> usize
        ensures room { result ≡ self.now.room }
        ensures fits { length self.now.bytes ≤ result }
    {
        self.room
    }
}

ghost use Rattle.std.specs.Prelude.{◌≡◌, IfOk, if◌then◌else◌, is_ok, IsSome, IfSome};
ghost use Rattle.std.specs.Borrow.{sem};
ghost use Rattle.packet_version.specs.Parts.{unwritten};
ghost use Rattle.packet_version.specs.Lending.{LendsPart};
ghost use Rattle.packet_version.specs.Splitting.{fresh};
ghost use Rattle.packet_version.specs.Raising.{RaisesBy};

/// Sets the writer of a part that is there, and lends its bytes.
pub(crate) fn edit_part(part: &mut Option<Part>, writer: u32) -> &mut [u8]
    requires { IsSome part.old }
    ensures* writes_back { sem 𝓛 (LendsPart part.entry writer result) }
    ensures bytes { IfSome part.old (λ p. result.now ≡ p.bytes) }
{
    match part {
        Some(part) => part.edit(writer),
        None => unreachable!(),
    }
}

/// A second part with the same bytes and the same room, unwritten in this stage.
///
/// The tally of the field rises by one exactly if the copy is made.
pub fn copy(alloc: Global, part: &Part, field: Field, tally: &mut Tally) -> Result<Part, AllocError>
    ensures same { IfOk result (λ made. made ≡ unwritten part.now) }
    ensures counted { RaisesBy (if is_ok result then 1 else 0) field tally.old tally.new }
{
    copy_bytes(alloc, part.bytes(), part.spare(), field, tally)
}

/// An unwritten part of bytes of which there is another part, with room for `spare` more bytes.
///
/// The tally of the field rises by one exactly if the copy is made.
pub(crate) fn copy_bytes(
    alloc: Global,
    bytes: &[u8],
    spare: usize,
    field: Field,
    tally: &mut Tally,
) -> Result<Part, AllocError>
    ensures same { IfOk result (λ made. made ≡ fresh spare bytes.now) }
    ensures counted { RaisesBy (if is_ok result then 1 else 0) field tally.old tally.new }
{
    let made = Part::new(alloc, bytes, spare)?;
    tally.count(field);
    Ok(made)
}
