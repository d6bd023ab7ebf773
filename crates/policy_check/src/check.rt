//! Checks a chain.

ghost use Rattle.std.specs.Prelude.{◌≡◌, ◌<◌, ◌^◌, length, IfOk, IfErr};
ghost use Rattle.policy_check.specs.Arrangements.{IsArrangement, IsSoundFault, TakesEarliest};
ghost use Rattle.policy_check.specs.Checked.{answer_of, Answers};
ghost use Rattle.policy_check.specs.Edges.{edges_of};

use crate::cycle::{earliest, named_cycle};
use crate::fault::{CheckFault, Order};
use crate::priority::first_refusal;
use crate::turns::take_turns;
use item_list::Items;
use policy_text::ChainPolicy;
use std::alloc::Global;

/// The order in which the functions of a chain take a packet.
///
/// Each statement of the chain draws edges, and an edge says which of two functions comes first: `order A before B`
/// from A to B; `priority A > B` from B to A, so that what A writes prevails; `position X first` from X to every other
/// function; `position X last` from every other to X. The order takes, again and again, the earliest declared function
/// whose predecessors are all taken.
///
/// If functions remain and none can be taken, the fault is the cycle that is found from the earliest declared of them,
/// by going back to the earliest declared predecessor that remains. If there is no cycle, the fault is the first
/// Priority in the text whose lower function the dependency table forbids before the higher one. Each turn goes over
/// the statements once for each function.
#[tactic(auto, using(crate::proofs::Soundness::order_arranged, crate::proofs::Soundness::order_earliest, crate::proofs::Soundness::fault_sound))]
pub fn order(alloc: Global, chain: &ChainPolicy) -> Result<Order, CheckFault>
    requires { length chain.now.functions < 2 ^ 32 }
    ensures exact { Answers result (answer_of chain.now) }
    ensures arranged { IfOk result (λ order. IsArrangement (edges_of chain.now.statements) (length chain.now.functions) order.positions) }
    ensures earliest { IfOk result (λ order. TakesEarliest (edges_of chain.now.statements) (length chain.now.functions) order.positions) }
    ensures sound { IfErr result (IsSoundFault (edges_of chain.now.statements) (length chain.now.functions)) }
{
    checked(alloc, chain)
}

fn checked(alloc: Global, chain: &ChainPolicy) -> Result<Order, CheckFault>
    requires { length chain.now.functions < 2 ^ 32 }
    ensures { Answers result (answer_of chain.now) }
{
    let functions = chain.functions.as_slice();
    let statements = chain.statements.as_slice();
    let turns = take_turns(alloc, statements, functions.len())?;
    if let Some(start) = earliest(&turns.left) {
        let cycle = named_cycle(alloc, statements, &turns.left, start)?;
        return Err(CheckFault::Cycle(Items::new(cycle)));
    }
    if let Some(fault) = first_refusal(functions, statements) {
        return Err(fault);
    }
    Ok(Order {
        positions: Items::new(turns.order),
    })
}
