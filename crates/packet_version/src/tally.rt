//! The number of copies of the parts of packets.

use action_profile::all_fields;
use packet_fields::Field;
use std::marker::Model;

/// Counts of copies, one for each field. A count stays at 2^64 - 1 once it is reached.
#[derive(Debug, Drop)]
pub struct Tally {
    counts: [u64; 10],
}

impl Model for Tally {
    ghost use Rattle.std.specs.Prelude.{List, ℕ};

    ghost Value = { List ℕ };

    ghost view = { λ t. t.counts };
}

impl Tally {
    ghost use Rattle.std.specs.Prelude.{◌≡◌};
    ghost use Rattle.packet_fields.specs.declared.field.Field.{Field};
    ghost use Rattle.packet_version.specs.Tallies.{count_of, raised};
    ghost use Rattle.packet_version.specs.Raising.{RaisesBy};

    /// A tally of no copies.
    pub fn new() -> Self
        ensures { (f : Field) → count_of result f ≡ 0 }
    {
        Tally { counts: [0; 10] }
    }

    /// The number of copies of this field's parts.
    pub fn of(&self, field: Field) -> u64
        ensures { result ≡ count_of self.now field }
    {
        self.counts[field.number()]
    }

    /// Adds the counts of another tally, field by field.
    pub fn add(&mut self, other: &Tally)
        ensures { (f : Field) → count_of self.new f ≡ raised (count_of self.old f) (count_of other.now f) }
    {
        let fields = all_fields();
        for field in fields {
            self.raise(*field, other.of(*field));
        }
    }

    /// Counts one copy of this field's part.
    pub(crate) fn count(&mut self, field: Field)
        ensures { RaisesBy 1 field self.old self.new }
    {
        self.raise(field, 1);
    }

    /// Counts `by` copies of this field's parts.
    pub fn raise(&mut self, field: Field, by: u64)
        ensures { RaisesBy by field self.old self.new }
    {
        let number = field.number();
        self.counts[number] = self.counts[number].saturating_add(by);
    }
}
