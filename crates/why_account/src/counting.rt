//! A count that stops at 2^64 - 1.
ghost use Rattle.std.specs.Prelude.{◌≡◌};
ghost use Rattle.why_report.specs.Uses.{raised};

/// The count, one higher if this holds.
pub(crate) fn raised(count: u64, holds: bool) -> u64
    ensures { result ≡ raised count holds }
{
    if holds {
        count.saturating_add(1)
    } else {
        count
    }
}
