//! The dealer of the first stage, which the caller runs.
ghost use Rattle.std.specs.Prelude.{ℕ};
ghost use Rattle.packet_fields.specs.declared.field.Field.{Field};
ghost use Rattle.node_run.specs.Firsts.{HasDealt, IsFirst};

use packet_version::Tally;
use stage_nodes::{Dealer, Supply, run_dealer};
use std::alloc::Global;
use std::sync::Wait;

/// The dealer of the first stage, or what it returned once it was run.
#[derive(Drop)]
pub(crate) enum First<S> {
    Due(Dealer<S>),
    Over(Dealt),
}

/// The copies that a dealer made, and whether it ran out of memory.
#[derive(Drop)]
pub(crate) struct Dealt {
    pub(crate) tally: Tally,
    pub(crate) short: bool,
}

/// Runs the dealer to its end, unless it was run, and returns its result.
pub(crate) fn deal_first<S: Supply + Drop, R: Wait>(rt: &R, alloc: Global, first: First<S>) -> Dealt
    requires { (copies : Field → ℕ) × IsFirst S.comes copies first }
    ensures { (copies : Field → ℕ) → IsFirst S.comes copies first → HasDealt copies result }
{
    match first {
        First::Due(mut dealer) => {
            let (tally, short) = run_dealer(rt, alloc, &mut dealer);
            Dealt { tally, short }
        }
        First::Over(dealt) => dealt,
    }
}
