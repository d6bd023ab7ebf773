//! How a run ended.

use capture_items::{FormatFault, Totals};

/// How a capture that went through its chains ended: the totals, and the fault that ended it, if any.
#[derive(Clone, Copy, Debug, PartialEq, Eq)]
pub struct Ended {
    pub totals: Totals,
    pub fault: Option<FormatFault>,
}
