//! What the lines of a declaration have in common for every kind of function.
//!
//! A kind implements [`FunctionLine`], which says which words are one of its lines, which of its lines each declaration
//! has to have, and which lines can't be together. The rest is the same for all kinds: [`read_lines`] returns the lines
//! of a declaration, or the least line that is refused. A line is refused if it isn't one of its kind's, if it is a
//! `set` whose key occurred before, or if it can't be beside the others. The `fn` line is refused if a required line is
//! missing. [`least_refused_line`] says that the returned line is refused and no line before it is.
//!
//! Kinds whose rules hold clauses share [`read_fit`], which reads them, and [`FitRules`], which returns the first rule
//! that a packet meets and the values of a packet that are needed for that.
//!
//! The effect of a line on a function is left to its kind. The contents of the lines of a function are kept as
//! [`SharedItems`], so that the same function can exist once more without a second copy of them.
#![tactic(auto)]

mod asking;
mod laws;
mod line;
mod reading;
mod rule;
mod settings;
mod shared;

pub use asking::{Asked, FitRules};
pub use laws::least_refused_line;
pub use line::FunctionLine;
pub use reading::read_lines;
pub use rule::{Fitting, read_fit};
pub use shared::SharedItems;
