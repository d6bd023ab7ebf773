//! The part of a packet that no branch of a stage gets.

use crate::gathered::Gathered;
use crate::held::Held;
use chain_walk::Fixed;
use part_lease::Owner;
use std::marker::Model;
use std::sync::Wait;

/// What stays of a packet, without its fixed values.
#[derive(Drop)]
pub(crate) enum Kept {
    /// No branch reads any of it.
    Own(Held),
    /// It is lent to the branches that read fields which they don't write.
    Lent(Owner<Held>),
}

/// The part of a packet that no branch of a stage has: its frame with the parts that no branch got, or the right to get
/// them back, and its fixed values.
#[derive(Drop)]
pub struct Base {
    pub(crate) kept: Kept,
    pub(crate) fixed: Fixed,
}

impl Model for Base {
    ghost use Rattle.packet_fields.specs.Writing.{rest_of};
    ghost use Rattle.packet_version.specs.Splitting.{PlainApart};
    ghost use Rattle.packet_version.specs.Handing.{kept_in};

    ghost Value = { PlainApart };

    ghost view = { λ b. record { parts = (kept_in b.kept).parts; rest = rest_of (kept_in b.kept).frame; fixed = b.fixed } };
}

ghost use Rattle.std.specs.Prelude.{◌≡◌};
ghost use Rattle.packet_version.specs.Handing.{kept_in};

impl Kept {
    /// The packet, once no branch has a claim on it.
    fn taken<R: Wait>(self, rt: &R) -> Held
        ensures { result ≡ kept_in self }
    {
        match self {
            Kept::Own(held) => held,
            Kept::Lent(owner) => owner.take(rt),
        }
    }
}

impl Base {
    ghost use Rattle.std.specs.Prelude.{◌≡◌};

    /// Takes the lent parts back, and waits until no branch has a claim on them. It allocates nothing.
    pub fn gather<R: Wait>(self, rt: &R) -> Gathered
        ensures { result ≡ self }
    {
        let Base { kept, fixed } = self;
        Gathered {
            held: kept.taken(rt),
            fixed,
        }
    }
}
