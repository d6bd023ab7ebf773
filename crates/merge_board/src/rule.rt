//! The rule of a board, and what a seat knows. Except for the sizes, these types are for proofs alone.
ghost use Rattle.std.specs.Prelude.{[]};

use crate::fit::BoardFit;
use atomic_table::TableRule;
use std::collections::LinkedList;
use std::marker::PhantomData;

/// The sizes of a board: its numbers of packets, branches and mergers.
#[derive(Clone, Copy)]
pub struct Sizes {
    pub pids: u32,
    pub branches: u32,
    pub mergers: u32,
}

// What a seat knows. No value of it is made.
pub struct View<T> {
    // Whether it is the maker's seat, which deals out the others.
    pub makes: bool,
    // The number of roles that the maker has dealt out, or a seat's own role: the branches come first,
    // then the mergers.
    pub role: u32,
    pub branches: u32,
    pub due: LinkedList<LinkedList<T>>,
    // The packets that a branch has put or a merger has completed, the last one first.
    pub pids: LinkedList<u32>,
    // The packet whose slot a branch has taken and not yet announced.
    pub hand: Option<u32>,
    // The number of a merger's loads, and the packet and the word of the last.
    pub loads: u64,
    pub pid: u32,
    pub word: u64,
    // The values of the packet that a merger has completed last, by branch.
    pub got: LinkedList<T>,
}

// The rule.
pub struct Ruled<T> {
    of: PhantomData<T>,
}

impl<T: BoardFit> TableRule<Option<T>, View<T>, Sizes> for Ruled<T> {
    ghost use Rattle.merge_board.specs.Rule.{IsBoard, maker};

    ghost holds = { IsBoard T.fits };

    ghost first = { λ k. maker k.branches 0 [] };
}
