//! Priorities that the dependency table forbids.

ghost use Rattle.std.specs.Prelude.{◌≡◌};
ghost use Rattle.policy_check.specs.Refusals.{refused, refusal, first_refusal};

use crate::fault::CheckFault;
use action_profile::profile;
use dependency_table::{Answer, pair};
use policy_text::{FunctionDecl, Statement};

/// The first Priority in the text that the table forbids.
#[tactic(auto, unfolding(crate::specs::Refusals::first_refusal))]
pub(crate) fn first_refusal(
    functions: &[FunctionDecl],
    statements: &[Statement],
) -> Option<CheckFault>
    ensures { result ≡ first_refusal functions.now statements.now }
{
    'text: for statement in statements {
        let refusal = refusal(functions, *statement);
        if refusal.is_some() {
            return refusal;
        }
    }
    None
}

fn refusal(functions: &[FunctionDecl], statement: Statement) -> Option<CheckFault>
    ensures { result ≡ refusal functions.now statement }
{
    let Statement::Priority { high, low, line } = statement else {
        return None;
    };
    let lower = functions.get(low as usize)?;
    let higher = functions.get(high as usize)?;
    let answer = pair(&profile(lower.kind), &profile(higher.kind));
    refused(high, low, line, answer)
}

fn refused(high: u32, low: u32, line: u32, answer: Answer) -> Option<CheckFault>
    ensures { result ≡ refused high low line answer }
{
    match answer {
        Answer::Forbidden { first, second } => Some(CheckFault::PriorityForbidden {
            high,
            low,
            line,
            first,
            second,
        }),
        _ => None,
    }
}
