//! The verdict on a packet that passes or doesn't.
ghost use Rattle.std.specs.Prelude.{◌≡◌};
ghost use Rattle.nf_filter.specs.Verdicts.{verdict_by};

use chain_walk::Verdict;

/// `Pass` if `passes` is set, else `Drop`.
pub(crate) fn verdict(passes: bool) -> Verdict
    ensures { result ≡ verdict_by passes }
{
    if passes { Verdict::Pass } else { Verdict::Drop }
}
