//! The rules that decide what a function does to a packet.
ghost use Rattle.std.specs.Prelude.{◌≡◌, ◌++◌, OnOk, OnErr};
ghost use Rattle.packet_function.specs.Deciding.{rule_at};
ghost use Rattle.nf_mark.specs.DecidingRules.{place_met};

use function_lines::Fitting;
use packet_function::DecidingLine;
use policy_text::{Seen, fits};
use std::alloc::AllocError;

/// The place of the first rule of which a packet meets all clauses, counted from 0.
#[tactic(auto, unfolding(crate::specs::DecidingRules::place_met))]
pub(crate) fn first_place<R: Fitting>(rules: &[R], seen: &Seen) -> Option<usize>
    ensures { result ≡ place_met R.fit seen.now rules.now }
{
    rules.iter().position(|rule| fits(rule.fit(), seen))
}

/// Appends the rule at this place, if there is one. If memory runs out, it appends nothing.
pub(crate) fn push_rule(
    place: Option<usize>,
    deciding: &mut Vec<DecidingLine>,
) -> Result<(), AllocError>
    ensures pushed { OnOk result (deciding.new.items ≡ deciding.old.items ++ rule_at place) }
    ensures stays { OnErr result (deciding.new.items ≡ deciding.old.items) }
{
    if let Some(place) = place {
        deciding.push(DecidingLine::Rule(place))?;
    }
    Ok(())
}
