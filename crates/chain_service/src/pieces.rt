//! The pieces of a chain, of no more functions than a chain may have.

use policy_chains::NamedFunction;
use segment_run::Piece;
use std::marker::Model;

/// The pieces of a chain, in the order in which a packet goes through them, with at most 64 functions together.
#[derive(Drop)]
pub struct ChainPieces {
    items: Vec<Piece<NamedFunction>>,
}

impl Model for ChainPieces {
    ghost use Rattle.std.specs.Prelude.{List, ◌≤◌};
    ghost use Rattle.segment_run.specs.Segments.{functions_count, pieces_of};
    ghost use Rattle.segment_run.specs.declared.piece.Piece.{Piece};
    ghost use Rattle.policy_chains.specs.declared.named.NamedFunction.{NamedFunction};

    ghost Value = { List (Piece NamedFunction) };

    ghost view = { λ p. p.items.items };

    ghost invariant = { λ p. functions_count (pieces_of p.items.items) ≤ 64 };
}

impl ChainPieces {
    ghost use Rattle.std.specs.Prelude.{◌≡◌, ◌≤◌};
    ghost use Rattle.segment_run.specs.Segments.{functions_count, pieces_of};

    /// Pieces with at most 64 functions together. Allocates nothing.
    pub fn new(items: Vec<Piece<NamedFunction>>) -> ChainPieces
        requires { functions_count (pieces_of items.items) ≤ 64 }
        ensures { result ≡ items.items }
    {
        ChainPieces { items }
    }

    /// The pieces one by one.
    pub fn into_vec(self) -> Vec<Piece<NamedFunction>>
        ensures pieces { result.items ≡ self }
        ensures few { functions_count (pieces_of self) ≤ 64 }
    {
        self.items
    }

    /// The pieces as a slice.
    pub fn as_slice(&self) -> &[Piece<NamedFunction>]
        ensures { result.now ≡ self.now }
    {
        self.items.as_slice()
    }
}
