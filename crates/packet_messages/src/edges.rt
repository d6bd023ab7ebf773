//! Makes a link of messages with its two ends.
ghost use Rattle.std.specs.Prelude.{◌≡◌, ◌<◌, ◌≤◌, length, IfOk};

use crate::inlet::{Inlet, take_end};
use crate::outlet::{Outlet, put_end};
use crate::parcel::Parcel;
use ruled_links::{LinkDue, link};
use std::alloc::{AllocError, Global};

/// Makes a link for at most this number of messages, and returns its two ends. The only error is that memory runs out.
///
/// `D.due` is what is due on it. A caller makes the link in a function that is generic in `D` and requires what `D.due`
/// is. It calls this function with `Brand` for `D`, and its proof picks the list.
pub fn edge<P: Drop, D: LinkDue<Parcel<P>>>(
    alloc: Global,
    count: u32,
) -> Result<(Outlet<P>, Inlet<P>), AllocError>
    requires few { count < 65537 }
    requires room { length D.due ≤ count }
    ensures { IfOk result (λ e. (e.0 ≡ D.due) × (e.1 ≡ D.due)) }
{
    let (putter, taker) = link::<Parcel<P>, D>(alloc, count + 1)?;
    Ok((put_end(putter), take_end(taker)))
}
