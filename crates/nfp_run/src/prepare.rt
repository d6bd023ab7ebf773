//! Reads the policy and the graphs that were written for its chains, and makes the chains ready to run.
ghost use Rattle.std.specs.Prelude.{◌≡◌, ◌≢◌, ◌≤◌, ◌⊎◌, length, map, IfErr, IfOk, IfSome, MatchResult, Ok, Some, None};
ghost use Rattle.std.specs.List.{AllZip};
ghost use Rattle.nfp_outside.specs.declared.slot.Slot.{Slot};
ghost use Rattle.command_words.specs.Named.{word_in};
ghost use Rattle.graph_text.specs.Graphs.{graphs_of, no_graph};
ghost use Rattle.policy_judge.specs.Making.{functions_made};
ghost use Rattle.policy_judge.specs.Orders.{IsOrdered};
ghost use Rattle.capture_run.specs.ChainServiceProofs.{IsOpening, chains_of};
ghost use Rattle.call_ending.specs.declared.ending.Ending.{Ending};
ghost use Rattle.call_ending.specs.declared.outcome.Outcome.{Outcome};
ghost use Rattle.nfp_run.specs.Answers.{AreTextsReadWhole};
ghost use Rattle.call_ending.specs.Told.{IsReadWhole};
ghost use Rattle.nfp_run.specs.Preparing.{prepared_with};
ghost use Rattle.nfp_run.specs.Reading.{EndsAtGraph, EndsAtTexts, GraphRefusedBy, IsReady, Prepares, Serves, UnreadGraphEnds};

use crate::graph_lines::graph_line;
use crate::prepared::Prepared;
use call_ending::{Ending, GraphRefusal, Outcome, Unread, read_bytes, read_policy};
use capture_run::{Service, make_service};
use graph_text::{GraphFault, GraphReadFault, no_graphs, read_graphs};
use item_list::Items;
use nfp_outside::{Desk, Slot};
use policy_judge::Judged;
use std::alloc::Global;

/// Reads the policy and judges it, and then reads the graphs that were written for its chains, if the words name them.
#[tactic(auto, using(crate::proofs::Preparations::policy_ends, crate::proofs::Preparations::none_prepares, crate::proofs::Preparations::named_prepares, crate::proofs::ReadToEnd::policy_whole, crate::proofs::ReadToEnd::texts_whole))]
pub fn prepare<D: Desk>(
    alloc: Global,
    desk: &mut D,
    policy: &str,
    graph: Option<&str>,
) -> Result<Prepared, Ending>
    requires policy_free { (D.slots desk.old Slot.Policy).name ≡ None }
    requires graph_free { (D.slots desk.old Slot.Graph).name ≡ None }
    ensures prepares { MatchResult result (Prepares (word_in graph.entry) (D.slots desk.old)) (EndsAtTexts (word_in graph.entry) (D.slots desk.old) (D.slots desk.new)) }
    ensures ready { IfOk result IsReady }
    ensures whole { IfOk result (λ p. AreTextsReadWhole (word_in graph.entry) (D.slots desk.new)) }
    ensures policy_name { ((D.slots desk.new Slot.Policy).name ≡ None) ⊎ ((D.slots desk.new Slot.Policy).name ≡ Some policy.now) }
    ensures graph_name { ((D.slots desk.new Slot.Graph).name ≡ None) ⊎ ((D.slots desk.new Slot.Graph).name ≡ word_in graph.entry) }
    ensures others { (s : Slot) → s ≢ Slot.Policy → s ≢ Slot.Graph → D.slots desk.new s ≡ D.slots desk.old s }
{
    let judged = match read_policy(alloc, desk, policy) {
        Ok(judged) => judged,
        Err(ending) => return Err(ending),
    };
    match graph {
        None => without_graphs(alloc, judged),
        Some(name) => with_graphs(alloc, desk, name, judged),
    }
}

// Prepares a policy for whose chains no graph was written.
fn without_graphs(alloc: Global, judged: Judged) -> Result<Prepared, Ending>
    requires ordered { AllZip IsOrdered judged.policy.chains judged.orders }
    requires made { judged.functions ≡ functions_made judged.policy.chains }
    requires few { length judged.policy.chains ≤ 16 }
    ensures prepared { IfOk result (λ p. p ≡ record { judged = judged; graphs = map no_graph judged.policy.chains }) }
    ensures ready { IfOk result IsReady }
    ensures refused { IfErr result (λ ending. ending ≡ Ending.Stopped Outcome.OutOfMemory) }
{
    match no_graphs(alloc, judged.policy.chains.as_slice()) {
        Ok(graphs) => Ok(Prepared {
            judged,
            graphs: Items::new(graphs),
        }),
        Err(_) => Err(Ending::Stopped(Outcome::OutOfMemory)),
    }
}

// Prepares a policy with the graphs that were written for its chains.
#[tactic(auto, using(crate::proofs::Preparations::orders_of, crate::proofs::Preparations::unread_graph_ends, crate::proofs::Preparations::graph_refused_ends, crate::proofs::Preparations::told_graphs, crate::proofs::Preparations::graphs_prepared))]
fn with_graphs<D: Desk>(
    alloc: Global,
    desk: &mut D,
    name: &str,
    judged: Judged,
) -> Result<Prepared, Ending>
    requires free { (D.slots desk.old Slot.Graph).name ≡ None }
    requires ordered { AllZip IsOrdered judged.policy.chains judged.orders }
    requires made { judged.functions ≡ functions_made judged.policy.chains }
    requires few { length judged.policy.chains ≤ 16 }
    ensures prepares { MatchResult result
        (λ p. IfSome (D.slots desk.old Slot.Graph).bytes (λ text. prepared_with judged (graphs_of text judged.policy.chains judged.orders) ≡ Ok p))
        (EndsAtGraph judged (D.slots desk.old Slot.Graph) (D.slots desk.new Slot.Graph)) }
    ensures ready { IfOk result IsReady }
    ensures whole { IfOk result (λ p. IsReadWhole (D.slots desk.new Slot.Graph)) }
    ensures name { ((D.slots desk.new Slot.Graph).name ≡ None) ⊎ ((D.slots desk.new Slot.Graph).name ≡ Some name.now) }
    ensures others { (s : Slot) → s ≢ Slot.Graph → D.slots desk.new s ≡ D.slots desk.old s }
{
    let bytes = match read_bytes(alloc, desk, Slot::Graph, name) {
        Ok(bytes) => bytes,
        Err(unread) => return Err(unread_ending(alloc, &judged, unread)),
    };
    match read_graphs(alloc, &bytes, &judged.policy, judged.orders.as_slice()) {
        Ok(graphs) => Ok(Prepared {
            judged,
            graphs: Items::new(graphs),
        }),
        Err(GraphReadFault::Graph(fault)) => Err(refused_by(alloc, &judged, fault)),
        Err(GraphReadFault::OutOfMemory) => Err(Ending::Stopped(Outcome::OutOfMemory)),
    }
}

// How a call ends if the graphs weren't read.
fn unread_ending(alloc: Global, judged: &Judged, unread: Unread) -> Ending
    ensures { UnreadGraphEnds judged.now unread result }
{
    match unread {
        Unread::TooLong => refused_by(alloc, judged, GraphFault::TooLong),
        Unread::Failed => Ending::Stopped(Outcome::ReadFault(Slot::Graph)),
        Unread::NoMemory => Ending::Stopped(Outcome::OutOfMemory),
    }
}

// How a call ends if the graphs have this fault.
fn refused_by(alloc: Global, judged: &Judged, fault: GraphFault) -> Ending
    ensures { GraphRefusedBy judged.now fault result }
{
    match graph_line(alloc, judged.policy.chains.as_slice(), &fault) {
        Ok(line) => Ending::GraphRefused(GraphRefusal {
            fault,
            line: Items::new(line),
        }),
        Err(_) => Ending::Stopped(Outcome::OutOfMemory),
    }
}

/// Reads the policy and the graphs, and makes ready the chains that run.
#[tactic(auto, using(crate::proofs::Preparations::served))]
pub fn read_service<D: Desk>(
    alloc: Global,
    desk: &mut D,
    policy: &str,
    graph: Option<&str>,
) -> Result<Service, Ending>
    requires policy_free { (D.slots desk.old Slot.Policy).name ≡ None }
    requires graph_free { (D.slots desk.old Slot.Graph).name ≡ None }
    ensures serves { MatchResult result
        (λ s. Serves (word_in graph.entry) (D.slots desk.old) (chains_of s.chains))
        (EndsAtTexts (word_in graph.entry) (D.slots desk.old) (D.slots desk.new)) }
    ensures opening { IfOk result IsOpening }
    ensures whole { IfOk result (λ s. AreTextsReadWhole (word_in graph.entry) (D.slots desk.new)) }
    ensures policy_name { ((D.slots desk.new Slot.Policy).name ≡ None) ⊎ ((D.slots desk.new Slot.Policy).name ≡ Some policy.now) }
    ensures graph_name { ((D.slots desk.new Slot.Graph).name ≡ None) ⊎ ((D.slots desk.new Slot.Graph).name ≡ word_in graph.entry) }
    ensures others { (s : Slot) → s ≢ Slot.Policy → s ≢ Slot.Graph → D.slots desk.new s ≡ D.slots desk.old s }
{
    let prepared = match prepare(alloc, desk, policy, graph) {
        Ok(prepared) => prepared,
        Err(ending) => return Err(ending),
    };
    let Prepared { judged, graphs } = prepared;
    match make_service(alloc, judged, graphs.into_vec()) {
        Ok(service) => Ok(service),
        Err(_) => Err(Ending::Stopped(Outcome::OutOfMemory)),
    }
}
