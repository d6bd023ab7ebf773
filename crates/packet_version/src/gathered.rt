//! The parts of a packet that are gathered after a stage.

use crate::apart::Apart;
use crate::held::Held;
use crate::part::Part;
use chain_walk::Fixed;
use packet_fields::Field;
use std::marker::Model;

/// A packet after a stage: the parts that came back so far, the rest of its frame and its fixed values.
#[derive(Drop)]
pub struct Gathered {
    pub(crate) held: Held,
    pub(crate) fixed: Fixed,
}

impl Model for Gathered {
    ghost use Rattle.packet_fields.specs.Writing.{rest_of};
    ghost use Rattle.packet_version.specs.Splitting.{PlainApart};

    ghost Value = { PlainApart };

    ghost view = { λ g. record { parts = g.held.parts; rest = rest_of g.held.frame; fixed = g.fixed } };
}

impl Gathered {
    ghost use Rattle.std.specs.Prelude.{◌≡◌, Some, is_some};
    ghost use Rattle.packet_version.specs.Parts.{changed, as_list};
    ghost use Rattle.packet_version.specs.Splitting.{packet_parts, IsWhole};

    /// Is the part of this field there?
    pub fn has(&self, field: Field) -> bool
        ensures { result ≡ is_some (packet_parts self.now field) }
    {
        self.held.bytes(field).is_some()
    }

    /// Puts a part into the place of its field. A part that was there is dropped.
    pub fn put(&mut self, field: Field, part: Part)
        ensures { self.new ≡ record self.old { parts = as_list (changed field (Some part) (packet_parts self.old)) } }
    {
        self.held.put(field, part);
    }

    /// The packet, for the next stage or to be joined. The part of each field is there, with the field's length or, for
    /// the tags, whole tags.
    pub fn finish(self) -> Apart
        requires { IsWhole (packet_parts self) self.rest }
        ensures { result ≡ self }
    {
        let Gathered { held, fixed } = self;
        Apart { held, fixed }
    }
}
