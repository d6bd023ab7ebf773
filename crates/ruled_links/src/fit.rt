//! What is due on a link, and which messages fit it. Both occur only in contracts, and none of it runs.
ghost use Rattle.std.specs.Prelude.{◌≡◌, List, []};

use std::marker::Brand;

/// Which messages fit a due one.
pub trait LinkFit {
    ghost fits: { Self → Self → Type 0 };
}

/// Only the equal number fits.
impl LinkFit for u32 {
    ghost fits = { λ due message. message ≡ due };
}

/// Only the equal number fits.
impl LinkFit for u64 {
    ghost fits = { λ due message. message ≡ due };
}

/// What is due on a link, in order. The call that makes the link picks the list.
pub trait LinkDue<T> {
    ghost due: { List T };
}

/// If a call picks no list, nothing is due.
impl<T> LinkDue<T> for Brand {
    ghost due = { [] };
}
