//! What a function may do.

use crate::field_set::FieldSet;
use packet_fields::Field;

/// What a function may do to a packet.
///
/// To add or to remove a tag counts as reading and writing the list of tags: ask
/// [`Profile::reads_field`] and [`Profile::writes_field`], not the sets alone.
#[derive(Clone, Copy, Debug, PartialEq, Eq)]
pub struct Profile {
    /// The fields whose values the function sees.
    pub reads: FieldSet,
    /// The fields to which it may give a new value.
    pub writes: FieldSet,
    /// May it drop the packet?
    pub drops: bool,
    /// Does it keep a state from one packet to the next, which each packet that it sees may change?
    pub state: bool,
    /// Does it count the packets that it sees? It passes a packet unchanged and notes it; the note changes its state if
    /// no earlier function drops the packet.
    pub counts: bool,
    /// May it add a tag before the others?
    pub adds: bool,
    /// May it remove the first tag?
    pub removes: bool,
    /// Does it work on the frame as a whole?
    pub whole: bool,
}

impl Profile {
    ghost use Rattle.std.specs.Prelude.{◌≡◌, ◌||◌, ◌&&◌};
    ghost use Rattle.packet_fields.specs.declared.field.Field.{Field};
    ghost use Rattle.action_profile.specs.FieldSets.{has};
    ghost use Rattle.action_profile.specs.Profiles.{reads_of, writes_of, is_tag, handles_tags};
    ghost use Rattle.action_profile.specs.ProfileSets.{with_tags};

    /// Does it read the field?
    pub fn reads_field(&self, field: Field) -> bool
        ensures { result ≡ reads_of self.now field }
    {
        self.read_set().has(field)
    }

    /// Does it write the field?
    pub fn writes_field(&self, field: Field) -> bool
        ensures { result ≡ writes_of self.now field }
    {
        self.write_set().has(field)
    }

    /// All fields that it reads, the tags among them if it adds or removes one.
    pub fn read_set(&self) -> FieldSet
        ensures set { result ≡ with_tags self.now self.now.reads }
        ensures fields { (f : Field) → has result f ≡ reads_of self.now f }
    {
        self.with_tags(self.reads)
    }

    /// All fields that it writes, the tags among them if it adds or removes one.
    pub fn write_set(&self) -> FieldSet
        ensures set { result ≡ with_tags self.now self.now.writes }
        ensures fields { (f : Field) → has result f ≡ writes_of self.now f }
    {
        self.with_tags(self.writes)
    }

    fn with_tags(&self, set: FieldSet) -> FieldSet
        ensures set { result ≡ with_tags self.now set }
        ensures fields { (f : Field) → has result f ≡ (has set f || (is_tag f && handles_tags self.now)) }
    {
        if self.adds || self.removes {
            set.with(FieldSet::TAG)
        } else {
            set
        }
    }
}
