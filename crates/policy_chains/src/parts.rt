//! The parts of a chain, with no more functions than a chain may have.

use crate::part::ChainPart;
use std::marker::Model;

/// The parts of a chain, in the order in which a packet goes through them, with at most 64 functions together.
#[derive(Drop)]
pub struct ChainParts {
    items: Vec<ChainPart>,
}

impl Model for ChainParts {
    ghost use Rattle.std.specs.Prelude.{List, ◌≤◌};
    ghost use Rattle.policy_chains.specs.Parts.{parts_count};
    ghost use Rattle.policy_chains.specs.declared.part.ChainPart.{ChainPart};

    ghost Value = { List ChainPart };

    ghost view = { λ p. p.items.items };

    ghost invariant = { λ p. parts_count p.items.items ≤ 64 };
}

impl ChainParts {
    ghost use Rattle.std.specs.Prelude.{◌≡◌, ◌≤◌};
    ghost use Rattle.policy_chains.specs.Parts.{parts_count};

    /// Parts with at most 64 functions together. Allocates nothing.
    pub fn new(items: Vec<ChainPart>) -> ChainParts
        requires { parts_count items.items ≤ 64 }
        ensures { result ≡ items.items }
    {
        ChainParts { items }
    }

    /// The parts one by one.
    pub fn into_vec(self) -> Vec<ChainPart>
        ensures parts { result.items ≡ self }
        ensures few { parts_count self ≤ 64 }
    {
        self.items
    }

    /// The parts as a slice.
    pub fn as_slice(&self) -> &[ChainPart]
        ensures { result.now ≡ self.now }
    {
        self.items.as_slice()
    }
}
