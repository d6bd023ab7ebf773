//! Items that several owners share.

use item_list::Items;
use std::alloc::{AllocError, Global};
use std::marker::Model;
use std::sync::Arc;

/// Items in order, shared by several owners and changed by none. A contract sees them as a list.
#[derive(Debug, Drop)]
pub struct SharedItems<T> {
    items: Arc<Items<T>>,
}

impl<T> Model for SharedItems<T> {
    ghost use Rattle.std.specs.Prelude.{List};
    ghost use Rattle.std.specs.Arc.{arc_value};

    ghost Value = { List T };

    ghost view = { λ s. arc_value s.items };
}

impl<T: Drop> SharedItems<T> {
    ghost use Rattle.std.specs.Prelude.{◌≡◌, IfOk};

    /// Makes items ready to be shared, with one owner so far. The only error is that memory runs out.
    pub fn new(alloc: Global, items: Items<T>) -> Result<SharedItems<T>, AllocError>
        ensures { IfOk result (λ s. s ≡ items) }
    {
        Ok(SharedItems {
            items: Arc::new(alloc, items)?,
        })
    }

    /// The items as a slice.
    pub fn as_slice(&self) -> &[T]
        ensures { result.now ≡ self.now }
    {
        self.items.as_slice()
    }

    /// The same items once more, for one more owner. It copies no item and allocates nothing. The only error is that no
    /// more owners can be counted.
    pub fn try_clone(&self) -> Result<SharedItems<T>, AllocError>
        ensures { IfOk result (λ s. s ≡ self.now) }
    {
        Ok(SharedItems {
            items: Arc::try_clone(&self.items)?,
        })
    }
}
