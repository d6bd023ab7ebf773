//! The packets of a burst that were dropped.
ghost use Rattle.std.specs.Prelude.{◌≡◌, false, count_by, length};
ghost use Rattle.std.specs.Option.{option_map_or};
ghost use Rattle.burst_walk.specs.Leading.{all_ended};
ghost use Rattle.capture_report.specs.Report.{is_gone};

use chain_walk::Fate;
use classifier::Item;

/// The number of these packets that were dropped.
pub fn count_gone(items: &[Item], fates: &[Option<Fate>]) -> u64
    requires { length fates.now ≡ length items.now }
    ensures { result ≡ count_by is_gone (all_ended items.now fates.now) }
{
    fates.iter().filter(|fate| is_gone(fate)).count() as u64
}

fn is_gone(fate: &Option<Fate>) -> bool
    ensures { result ≡ option_map_or is_gone fate.now false }
{
    matches!(fate, Some(Fate::Gone(_)))
}
