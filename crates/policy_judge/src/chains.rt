//! The orders of a policy's chains.
ghost use Rattle.std.specs.Prelude.{◌≤◌, length, IfOk, All};
ghost use Rattle.std.specs.List.{AllZip};
ghost use Rattle.policy_check.specs.Checked.{answer_of};
ghost use Rattle.policy_judge.specs.Judging.{Judges, order_due, orders_from};
ghost use Rattle.policy_judge.specs.Orders.{IsOrdered};

use crate::fault::{JudgeFault, PolicyFault};
use crate::judging::refuse;
use crate::text::check_line;
use item_list::Items;
use policy_check::{CheckFault, Order, order};
use policy_text::ChainPolicy;
use std::alloc::Global;

/// The order of each chain, or the fault of the first that has none.
#[tactic(auto, using(crate::proofs::Ordering::begins, crate::proofs::Ordering::goes_on, crate::proofs::Ordering::all_found, crate::proofs::Ordering::all_ordered))]
pub fn orders_of(alloc: Global, chains: &[ChainPolicy]) -> Result<Items<Order>, JudgeFault>
    requires few { length chains.now ≤ 16 }
    requires short { All (λ c. length c.functions ≤ 64) chains.now }
    ensures exact { Judges (orders_from 0 chains.now) result }
    ensures ordered { IfOk result (λ orders. AllZip IsOrdered chains.now orders) }
{
    let mut orders = Vec::new(alloc);
    'chains: for place in 0..chains.len() {
        match order_at(alloc, place as u32, &chains[place]) {
            Ok(order) => orders.push(order)?,
            Err(fault) => return Err(fault),
        }
    }
    Ok(Items::new(orders))
}

// The order of one chain, or its fault.
fn order_at(alloc: Global, place: u32, chain: &ChainPolicy) -> Result<Order, JudgeFault>
    requires { length chain.now.functions ≤ 64 }
    ensures exact { Judges (order_due place chain.now (answer_of chain.now)) result }
    ensures ordered { IfOk result (IsOrdered chain.now) }
{
    match order(alloc, chain) {
        Ok(order) => Ok(order),
        Err(CheckFault::OutOfMemory) => Err(JudgeFault::OutOfMemory),
        Err(fault) => {
            let line = check_line(alloc, chain.functions.as_slice(), &fault);
            Err(refuse(
                PolicyFault::Check {
                    chain: place,
                    fault,
                },
                line,
            ))
        }
    }
}
