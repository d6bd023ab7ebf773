//! How the parts of a packet are passed to the branches of a stage.

use crate::field_set::FieldSet;
use item_list::Items;

/// How the branches of a stage get a field. Branches are counted from 0.
#[derive(Clone, Copy, Debug, PartialEq, Eq)]
pub enum Mode {
    /// No branch writes it: all read the one part.
    Shared,
    /// This branch alone touches it, and writes it: the part is moved there.
    Moved(u32),
    /// Several branches touch it and some write it: each writer has a part of its own. If some branches only read it,
    /// they share the original; otherwise the original goes to the first writer.
    Copied { original: Option<u32> },
}

/// The fields that the functions of a branch read, and those that they write; to add or to remove a
/// tag counts in both.
#[derive(Clone, Copy, Debug, PartialEq, Eq)]
pub struct Touch {
    pub reads: FieldSet,
    pub writes: FieldSet,
}

impl Touch {
    /// A branch that touches no field.
    pub const NONE: Touch = Touch {
        reads: FieldSet::NONE,
        writes: FieldSet::NONE,
    };
}

/// How a stage passes on the fields of a packet: the mode of each field, in the fields' order, and
/// what each branch touches, in branch order.
#[derive(Debug, Drop)]
pub struct StageParts {
    pub modes: [Mode; 10],
    pub touches: Items<Touch>,
}
