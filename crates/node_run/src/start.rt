//! Starts crews one after another, and joins them.
ghost use Rattle.std.specs.Prelude.{◌≡◌, ℕ, All};
ghost use Rattle.packet_fields.specs.declared.field.Field.{Field};
ghost use Rattle.node_run.specs.Firsts.{IsFirst};
ghost use Rattle.node_run.specs.Nodes.{is_ready};
ghost use Rattle.node_run.specs.Crews.{CrewKeeps};
ghost use Rattle.node_run.specs.Starts.{crew_of};

use crate::crew::{Crew, CrewDone, Due, run_crew};
use crate::ended::Ended;
use crate::first::{First, deal_first};
use nfp_outside::Gate;
use stage_nodes::{BranchWork, Supply};
use std::alloc::Global;
use std::snapshot::Snapshot;
use std::sync::Wait;
use std::thread::{PromisedHandle, Scope, Threads};

/// A crew that runs on a thread, or that was run.
#[derive(Drop)]
pub(crate) enum Started<F: BranchWork> {
    There(PromisedHandle<CrewDone<F>, Due<F>>),
    Here(Ended<F>),
}

/// A crew that was run, with its result.
fn end_here<F: BranchWork>(crew: Snapshot<Crew<F>>, done: CrewDone<F>) -> Started<F>
    requires { CrewKeeps F.kit crew.value done }
    ensures { crew_of result ≡ crew.value }
{
    Started::Here(Ended { crew, done })
}

/// Starts a crew on a thread of its own, for `count` packets. If no thread can be started, the caller runs the dealer
/// of the first stage, unless it did so before, and then the crew, each to its end: everything for which the crew waits
/// is done before it.
pub(crate) fn start<
    's,
    E,
    F: BranchWork + Drop + Send + 's,
    S: Supply + Drop,
    R: Threads + Wait + Sync,
    G: Gate + Sync,
>(
    scope: &Scope<'s, E>,
    rt: &'s R,
    alloc: Global,
    gate: &'s G,
    first: First<S>,
    crew: Crew<F>,
    count: u32,
) -> (First<S>, Started<F>)
    requires first { (copies : Field → ℕ) × IsFirst S.comes copies first }
    requires ready { All (is_ready F.kit F.may) crew }
    ensures first { (copies : Field → ℕ) → IsFirst S.comes copies first → IsFirst S.comes copies result.0 }
    ensures crew { crew_of result.1 ≡ crew }
{
    let was = Snapshot::of(&crew);
    let due = Due(Snapshot::of(&crew));
    let work = move || -> CrewDone<F>
        requires { All (is_ready F.kit F.may) crew }
        ensures { CrewKeeps F.kit crew result }
    { run_crew(rt, alloc, gate, crew, count) };
    match scope.spawn_with(due, work) {
        Ok(child) => (first, Started::There(child)),
        Err(refused) => {
            let dealt = deal_first(rt, alloc, first);
            (First::Over(dealt), end_here(was, (refused.value)()))
        }
    }
}

/// Waits for a crew to end, and returns its result.
pub(crate) fn finish<F: BranchWork + Drop, R: Threads>(rt: &R, started: Started<F>) -> CrewDone<F>
    ensures { CrewKeeps F.kit (crew_of started) result }
{
    match started {
        Started::There(child) => child.join(rt),
        Started::Here(ended) => {
            let Ended { crew: _, done } = ended;
            done
        }
    }
}
