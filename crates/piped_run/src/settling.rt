//! The functions of a work after a burst, with their notes settled.
ghost use Rattle.std.specs.Prelude.{◌≡◌, List, IfOk};
ghost use Rattle.burst_law.specs.Bursts.{Message};
ghost use Rattle.piped_run.specs.Settling.{settled_own};
ghost use Rattle.settled_notes.specs.Settling.{SameDrops};

use crate::owned::OwnedFunctions;
use chain_walk::Fate;
use packet_function::Function;
use settled_notes::settle_listed;
use std::alloc::AllocError;

/// The functions of a work after a burst whose packets have these fates: each note that it listed is settled, unless a
/// function at an earlier position dropped the packet. The only error is that memory runs out.
pub(crate) fn settle_work<F: Function + Drop>(
    work: OwnedFunctions<F>,
    fates: &[Fate],
) -> Result<Vec<F>, AllocError>
    ensures { (ends : List Message) → SameDrops fates.now ends → IfOk result (λ functions. functions.items ≡ settled_own F.notes ends work) }
{
    let OwnedFunctions {
        mut functions,
        positions,
        numbers: _,
        chain: _,
        counts: _,
        seen: _,
        listed,
    } = work;
    settle_listed(&mut functions, &positions, fates, &listed)?;
    Ok(functions)
}
