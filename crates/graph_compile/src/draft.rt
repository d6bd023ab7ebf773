//! A graph while it is built.

use crate::graph::{Branch, Stage};
use item_list::Items;

/// The stages that are closed, and the branches of the open one.
#[derive(Drop)]
pub(crate) struct Draft {
    pub(crate) stages: Items<Stage>,
    pub(crate) branches: Items<Branch>,
}
