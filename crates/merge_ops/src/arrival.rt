//! What a branch of a stage returns for a packet.

ghost use Rattle.std.specs.Prelude.{◌≡◌, ◌<◌, true};
ghost use Rattle.packet_fields.specs.declared.field.Field.{Field};
ghost use Rattle.action_profile.specs.FieldSets.{has};
ghost use Rattle.packet_version.specs.Parts.{AreTags};
ghost use Rattle.merge_ops.specs.Merging.{is_short, nil_of, writer_of, part_of};
ghost use Rattle.merge_ops.specs.Taking.{writes_in, without};

use action_profile::FieldSet;
use packet_fields::Field;
use packet_version::{Part, written_is_own};

/// What a branch returns: its version of the packet, or the chain position of the function that dropped it, or nothing,
/// if a worker ran out of memory for it or for an earlier packet.
#[derive(Drop)]
pub enum Arrival {
    Version(packet_version::Version),
    Nil(u32),
    Short,
}

impl Arrival {
    /// Did a worker run out of memory?
    pub(crate) fn is_short(&self) -> bool
        ensures { result ≡ is_short self.now }
    {
        match self {
            Arrival::Short => true,
            _ => false,
        }
    }

    /// The chain position of the function that dropped the packet.
    pub(crate) fn dropped_at(&self) -> Option<u32>
        ensures { result ≡ nil_of self.now }
    {
        match self {
            Arrival::Nil(position) => Some(*position),
            _ => None,
        }
    }

    /// The chain position of the function that wrote the field last in the branch, 0 for none.
    pub(crate) fn writer(&self, field: Field) -> u32
        ensures { result ≡ writer_of field self.now }
    {
        match self {
            Arrival::Version(version) => version.writer(field),
            _ => 0,
        }
    }

    /// Does the branch write the field?
    pub(crate) fn writes(&self, field: Field) -> bool
        ensures { result ≡ writes_in field self.now }
    {
        match self {
            Arrival::Version(version) => version.writes(field),
            _ => false,
        }
    }

    /// The fields that the branch writes.
    pub(crate) fn writable(&self) -> FieldSet
        ensures { (f : Field) → has result f ≡ writes_in f self.now }
    {
        match self {
            Arrival::Version(version) => version.writable(),
            _ => FieldSet::NONE,
        }
    }

    /// States that the writer of a field is in a branch that writes it.
    pub(crate) fn wrote_its_own(&self)
        ensures { (f : Field) → 0 < writer_of f self.now → writes_in f self.now ≡ true }
    {
        if let Arrival::Version(version) = self {
            written_is_own(version);
        }
    }

    /// Takes the part of a field that the branch writes.
    pub(crate) fn take(&mut self, field: Field) -> Option<Part>
        requires { writes_in field self.old ≡ true }
        ensures part { result ≡ part_of field self.old }
        ensures left { self.new ≡ without field self.old }
        ensures tags { field ≡ Field.Tag → AreTags result }
    {
        match self {
            Arrival::Version(version) => version.take(field),
            _ => None,
        }
    }
}
