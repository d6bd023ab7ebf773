//! What is due on a board, and which values fit it. Both occur only in contracts, and none of it runs.
ghost use Rattle.std.specs.Prelude.{◌≡◌, List, []};

use std::marker::Brand;

/// Which values fit a due one.
pub trait BoardFit {
    ghost fits: { Self → Self → Type 0 };
}

/// Only the equal number fits.
impl BoardFit for u32 {
    ghost fits = { λ due value. value ≡ due };
}

/// What is due on a board: for each branch, in branch order, a value for each packet, by its number from
/// 0. The call that makes the board picks the lists.
pub trait BoardDue<T> {
    ghost due: { List (List T) };
}

/// If a call picks no lists, nothing is due.
impl<T> BoardDue<T> for Brand {
    ghost due = { [] };
}
