//! Takes the functions, turn by turn.

ghost use Rattle.std.specs.Prelude.{◌≡◌, ◌<◌, ◌^◌, length, vec_len, None, IfOk, IfSome};
ghost use Rattle.policy_check.specs.Checked.{order_of, left_of};
ghost use Rattle.policy_check.specs.Edges.{edges_of};
ghost use Rattle.policy_check.specs.Turns.{ready};
ghost use Rattle.policy_check.specs.Waiting.{waits};

use crate::edges::is_held;
use policy_text::Statement;
use std::alloc::{AllocError, Global};

/// The result of the turns.
#[derive(Drop)]
pub(crate) struct Turns {
    /// The functions that were taken, in order.
    pub(crate) order: Vec<u32>,
    /// For each function as declared, whether it got no turn.
    pub(crate) left: Vec<bool>,
}

/// Takes functions, turn by turn, until none of those that wait can be taken.
pub(crate) fn take_turns(
    alloc: Global,
    statements: &[Statement],
    count: usize,
) -> Result<Turns, AllocError>
    requires { count < 2 ^ 32 }
    ensures order { IfOk result (λ turns. turns.order.items ≡ order_of (edges_of statements.now) count) }
    ensures left { IfOk result (λ turns. waits turns.left.items ≡ left_of (edges_of statements.now) count) }
    ensures stuck { IfOk result (λ turns. ready (edges_of statements.now) (waits turns.left.items) ≡ None) }
    ensures len { IfOk result (λ turns. vec_len turns.left ≡ count) }
{
    let mut order = Vec::new(alloc);
    let mut left = vec![in alloc; true; count]?;
    'turns: while let Some(x) = ready(statements, &left) {
        order.push(x)?;
        left[x as usize] = false;
    }
    Ok(Turns { order, left })
}

// The earliest declared function that waits and whose predecessors are all taken.
#[tactic(auto, using(crate::proofs::WaitingLemmas::waits_first, crate::proofs::WaitingLemmas::waits_no_first))]
fn ready(statements: &[Statement], waiting: &[bool]) -> Option<u32>
    requires { length waiting.now < 2 ^ 32 }
    ensures ready { result ≡ ready (edges_of statements.now) (waits waiting.now) }
    ensures within { IfSome result (λ x. x < length waiting.now) }
{
    for x in 0..waiting.len() as u32 {
        if waiting[x as usize] && !is_held(statements, x, waiting) {
            return Some(x);
        }
    }
    None
}
