//! What is known after each step on a word. These types are for proofs alone. The other steps of a board are exchanges
//! in a slot that a seat holds, and change no view: a branch puts its value into the slot that it has taken, and a
//! merger takes the values out of the slots of a packet that is done.
use crate::fit::{BoardDue, BoardFit};
use crate::rule::View;
use atomic_table::{Play, Split};
use std::marker::PhantomData;

// The maker's seat gives a role to a new seat, and counts it as given. It costs a load of the first word.
pub struct Deal<T, D> {
    of: PhantomData<(T, D)>,
}

impl<T: BoardFit, D: BoardDue<T>> Split<View<T>> for Deal<T, D> {
    ghost use Rattle.std.specs.Prelude.{◌+◌};
    ghost use Rattle.merge_board.specs.Rule.{maker, seated};

    ghost left = { λ v. maker v.branches (v.role + 1) D.due };

    ghost right = { λ v. seated v.branches v.role D.due };
}

// A branch takes its slot of a packet, by a load of the packet's word.
pub struct Take;

impl<T> Play<Option<T>, View<T>> for Take {
    ghost use Rattle.merge_board.specs.Steps.{took};

    ghost then = { λ s m r n. took s m n };
}

// A branch announces that its value is there, by setting its bit of the packet's word.
pub struct Announce;

impl<T> Play<Option<T>, View<T>> for Announce {
    ghost use Rattle.merge_board.specs.Steps.{announced};

    ghost then = { λ s m r n. announced s m n };
}

// A merger looks at a packet, by a load of its word, and takes all its slots if each bit is set.
pub struct Look<T> {
    of: PhantomData<T>,
}

impl<T: BoardFit> Play<Option<T>, View<T>> for Look<T> {
    ghost use Rattle.merge_board.specs.Steps.{looked};

    ghost then = { looked T.fits };
}
