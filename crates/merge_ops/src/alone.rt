//! How a packet that only one branch had is put together again.

ghost use Rattle.std.specs.Prelude.{◌≡◌, [], ◌∷◌, Some, IfSome};
ghost use Rattle.packet_version.specs.Splitting.{PlainApart};
ghost use Rattle.merge_ops.specs.Taking.{merged, merged_packet};
ghost use Rattle.merge_ops.specs.Behind.{AreArrivals, KeepsBase};
ghost use Rattle.merge_ops.specs.declared.arrival.Arrival.TheVariants.{Version as of_version};

use crate::arrival::Arrival;
use crate::merging::Merged;
use packet_version::{Apart, Version, tags_are_whole, written_is_own};

/// Puts a packet together again after a stage of one branch, which had it whole ([`packet_version::deal_whole`]). It
/// allocates nothing and waits for nobody.
///
/// The result is that of [`crate::merge`] for this one arrival, with what the branch had of the packet besides its own
/// parts as the base.
#[inline(always)]
pub fn merge_only(arrival: Arrival) -> Merged
    requires { (base : PlainApart) × KeepsBase base arrival × AreArrivals base (arrival ∷ []) }
    ensures { (base : PlainApart) → KeepsBase base arrival → result ≡ merged base (arrival ∷ []) }
{
    match arrival {
        Arrival::Version(version) => Merged::Whole(merge_whole(version)),
        Arrival::Nil(position) => Merged::Gone(position),
        Arrival::Short => Merged::Short,
    }
}

/// The packet that went on.
#[inline(always)]
fn merge_whole(version: Version) -> Apart
    requires { (base : PlainApart) × (version.kept ≡ Some base) × AreArrivals base (of_version version ∷ []) }
    ensures { IfSome version.kept (λ base. result ≡ merged_packet base (of_version version ∷ [])) }
{
    written_is_own(&version);
    tags_are_whole(&version);
    version.rejoin()
}
