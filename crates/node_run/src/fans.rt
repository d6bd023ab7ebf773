//! The links by which a stream of packets is shared in turn.
ghost use Rattle.std.specs.Prelude.{◌≡◌, ◌<◌, ◌≤◌, length, IfOk};
ghost use Rattle.packet_messages.specs.Turns.{share, share_len, shares};

use packet_messages::{Inlet, Inlets, Outlet, Outlets, Parcel, edge};
use ruled_links::LinkDue;
use std::alloc::{AllocError, Global};
use std::marker::Brand;

/// The links by which a stream of `count` messages is shared to the mergers in turn, each with room for its share.
pub(crate) fn fan<P: Drop, D: LinkDue<Parcel<P>>>(
    alloc: Global,
    mergers: u32,
    count: u32,
) -> Result<(Outlets<P>, Inlets<P>), AllocError>
    requires some { 0 < mergers }
    requires few { count < 65537 }
    requires many { length D.due ≡ count }
    ensures { IfOk result (λ e. (e.0 ≡ shares mergers D.due) × (e.1 ≡ shares mergers D.due)) }
{
    let mut outlets = Outlets::new(alloc);
    let mut inlets = Inlets::new(alloc);
    for merger in 0..mergers {
        let (outlet, inlet) = share_edge::<P, D, Brand>(alloc, mergers, merger, count)?;
        outlets.push(outlet)?;
        inlets.push(inlet)?;
    }
    Ok((outlets, inlets))
}

/// The link of one merger's share of a stream.
fn share_edge<P: Drop, D: LinkDue<Parcel<P>>, E: LinkDue<Parcel<P>>>(
    alloc: Global,
    mergers: u32,
    merger: u32,
    count: u32,
) -> Result<(Outlet<P>, Inlet<P>), AllocError>
    requires due { E.due ≡ share mergers merger D.due }
    requires some { 0 < mergers }
    requires few { count < 65537 }
    requires many { length D.due ≡ count }
    ensures { IfOk result (λ e. (e.0 ≡ share mergers merger D.due) × (e.1 ≡ share mergers merger D.due)) }
{
    edge::<P, E>(alloc, share_count(count, mergers, merger))
}

/// The number of a merger's packets among `count`.
pub(crate) fn share_count(count: u32, mergers: u32, merger: u32) -> u32
    requires { 0 < mergers }
    ensures share { result ≡ share_len mergers merger count }
    ensures few { result ≤ count }
{
    if count <= merger {
        return 0;
    }
    (count - merger - 1) / mergers + 1
}
