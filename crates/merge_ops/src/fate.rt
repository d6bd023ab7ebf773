//! The fate of a packet after the last stage.

ghost use Rattle.std.specs.Prelude.{◌≡◌, ◌≢◌, IfOk, OnOk};
ghost use Rattle.merge_ops.specs.Fates.{fate_behind};

use crate::merging::Merged;
use chain_walk::Fate;
use packet_version::join;
use std::alloc::{AllocError, Global};

impl Merged {
    /// The fate of a packet after the last stage: it goes out with its parts put together to a frame, which is not
    /// sealed yet, or it is gone.
    ///
    /// The only error is that memory runs out. A packet that is short gives this error too.
    pub fn into_fate(self, alloc: Global) -> Result<Fate, AllocError>
        ensures fate { IfOk result (λ fate. fate ≡ fate_behind self) }
        ensures found { OnOk result (self ≢ Merged.Short) }
    {
        match self {
            Merged::Whole(whole) => Ok(Fate::Out(join(alloc, whole)?)),
            Merged::Gone(position) => Ok(Fate::Gone(position)),
            Merged::Short => Err(AllocError),
        }
    }
}
