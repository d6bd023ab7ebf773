//! How the results of the branches of a stage are merged: from the words to the runner.
ghost use Rattle.std.specs.Prelude.{◌≡◌};
ghost use Rattle.command_words.specs.Named.{IsInRange};
ghost use Rattle.capture_run.specs.BurstWalkProofs.{number_of};

use capture_run::{MergeWay, Mergers, Merging};
use command_words::{RunOptions, Way};

/// The way of the runner for the way in the words.
fn merge_way(way: Way) -> MergeWay
    ensures inbox { way ≡ Way.Inbox → result ≡ MergeWay.Inbox }
    ensures board { way ≡ Way.Board → result ≡ MergeWay.Board }
{
    match way {
        Way::Inbox => MergeWay::Inbox,
        Way::Board => MergeWay::Board,
    }
}

/// The mergers and the way of merging that the options set.
pub fn merging_by(options: RunOptions) -> Merging
    requires ranges { IsInRange options }
    ensures mergers { number_of result.mergers ≡ options.mergers }
    ensures inbox { options.way ≡ Way.Inbox → result.way ≡ MergeWay.Inbox }
    ensures board { options.way ≡ Way.Board → result.way ≡ MergeWay.Board }
{
    Merging {
        mergers: Mergers::new(options.mergers),
        way: merge_way(options.way),
    }
}
