//! The plan of a policy.
ghost use Rattle.std.specs.Prelude.{◌≡◌, ◌≢◌, ◌⊎◌, ◌++◌, IfOk, OnOk, Some, None};
ghost use Rattle.nfp_outside.specs.declared.slot.Slot.{Slot};
ghost use Rattle.command_words.specs.Named.{word_in};
ghost use Rattle.plan_text.specs.Plan.{chain_plan};
ghost use Rattle.plan_text.specs.Putting.{IsShownFor};
ghost use Rattle.policy_judge.specs.Orders.{IsOrdered};
ghost use Rattle.nfp_run.specs.Answers.{AreTextsReadWhole};
ghost use Rattle.call_ending.specs.Endings.{outcome_seen};
ghost use Rattle.nfp_run.specs.Plan.{plan_text};
ghost use Rattle.nfp_run.specs.Reading.{IsReady, PlanEnds};

use crate::prepare::prepare;
use crate::prepared::Prepared;
use call_ending::{Ending, Outcome};
use command_words::PlanNames;
use graph_compile::Graph;
use item_list::Items;
use nfp_outside::{Desk, Slot};
use plan_text::put_chain;
use policy_check::Order;
use policy_text::ChainPolicy;
use std::alloc::{AllocError, Global};

/// Shows the plan of a policy without fault, and of the graphs that were written for its chains, if the words name
/// them.
#[tactic(auto, using(crate::proofs::Preparations::plan_shown, crate::proofs::Preparations::plan_ends, crate::proofs::ReadToEnd::texts_early))]
pub fn plan<D: Desk>(alloc: Global, names: &PlanNames<'_>, desk: &mut D) -> Ending
    requires policy_free { (D.slots desk.old Slot.Policy).name ≡ None }
    requires graph_free { (D.slots desk.old Slot.Graph).name ≡ None }
    ensures ends { PlanEnds (word_in names.now.graph) (D.slots desk.old) (D.slots desk.new) result }
    ensures drained { outcome_seen result ≡ Outcome.Done → AreTextsReadWhole (word_in names.now.graph) (D.slots desk.new) }
    ensures policy_name { ((D.slots desk.new Slot.Policy).name ≡ None) ⊎ ((D.slots desk.new Slot.Policy).name ≡ Some names.now.policy.now) }
    ensures graph_name { ((D.slots desk.new Slot.Graph).name ≡ None) ⊎ ((D.slots desk.new Slot.Graph).name ≡ word_in names.now.graph) }
    ensures others { (s : Slot) → s ≢ Slot.Policy → s ≢ Slot.Graph → D.slots desk.new s ≡ D.slots desk.old s }
{
    let prepared = match prepare(alloc, desk, names.policy, names.graph) {
        Ok(prepared) => prepared,
        Err(ending) => return ending,
    };
    match plan_text(alloc, &prepared) {
        Ok(text) => Ending::Shown(text),
        Err(_) => Ending::Stopped(Outcome::OutOfMemory),
    }
}

// The plan of each chain, in the order of the text.
#[tactic(auto, using(crate::proofs::ShownPlans::none_shown, crate::proofs::ShownPlans::one_shown, crate::proofs::ShownPlans::all_shown, crate::proofs::ShownPlans::as_many, crate::proofs::ShownPlans::as_many_graphs), unfolding(crate::specs::Plan::plan_text))]
fn plan_text(alloc: Global, prepared: &Prepared) -> Result<Items<u8>, AllocError>
    requires { IsReady prepared.now }
    ensures { IfOk result (λ text. text ≡ plan_text prepared.now) }
{
    let chains = prepared.judged.policy.chains.as_slice();
    let orders = prepared.judged.orders.as_slice();
    let graphs = prepared.graphs.as_slice();
    let mut text = Vec::new(alloc);
    'chains: for place in 0..chains.len() {
        push_plan(
            alloc,
            &mut text,
            &chains[place],
            &orders[place],
            &graphs[place],
        )?;
    }
    Ok(Items::new(text))
}

fn push_plan(
    alloc: Global,
    text: &mut Vec<u8>,
    chain: &ChainPolicy,
    order: &Order,
    graph: &Option<Graph>,
) -> Result<(), AllocError>
    requires ordered { IsOrdered chain.now order.now }
    requires shown { IsShownFor chain.now.functions order.now.positions graph.now }
    ensures { OnOk result (text.new.items ≡ text.old.items ++ chain_plan chain.now order.now.positions graph.now) }
{
    put_chain(alloc, text, chain, order.positions.as_slice(), graph)
}
