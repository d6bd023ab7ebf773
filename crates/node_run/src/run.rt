//! The whole run.
ghost use Rattle.std.specs.Prelude.{◌≡◌, ◌<◌, ◌≤◌, ◌++◌, ◌∷◌, [], ℕ, List, length, map, All, IfOk, OnOk, vec_capacity, false};
ghost use Rattle.packet_fields.specs.declared.field.Field.{Field};
ghost use Rattle.packet_version.specs.Splitting.{PlainApart};
ghost use Rattle.packet_version.specs.Tallies.{count_of, raised};
ghost use Rattle.packet_messages.specs.Messages.{PlainMessage};
ghost use Rattle.stage_nodes.specs.Streams.{copies_along, ends_of, through};
ghost use Rattle.stage_nodes.specs.Flows.{MayPassAll};
ghost use Rattle.node_run.specs.Firsts.{IsFirst};
ghost use Rattle.node_run.specs.Nodes.{copies_by_all, gather, is_ready};
ghost use Rattle.node_run.specs.Runs.{AreLaid, CanRun, HasLed, HasRun, IsLaid, MayRun, fates_behind, flat, is_found};
ghost use Rattle.node_run.specs.Stages.{plain_stage};
ghost use Rattle.node_run.specs.Starts.{crew_of};

use crate::collect::collect;
use crate::crew::Crew;
use crate::cut::{crews_of, most_crews};
use crate::first::{Dealt, First, deal_first};
use crate::in_turn::run_in_turn;
use crate::keeping::keep_crew;
use crate::meeting::{MergeWay, take_first};
use crate::node::Node;
use crate::schedule::Schedule;
use crate::stage::StageWork;
use crate::start::{Started, finish, start};
use crate::wire::{WiredStage, wire_stage};
use chain_walk::Fate;
use nfp_outside::Gate;
use packet_messages::{Inlets, Parcel};
use packet_version::{Apart, Tally};
use ruled_links::LinkDue;
use stage_nodes::{BranchWork, Supply};
use std::alloc::{AllocError, Global};
use std::marker::Brand;
use std::sync::Wait;
use std::thread;
use std::thread::{Scope, Threads};

/// Runs `count` packets from the source through the stages: in each stage a dealer deals every packet to the branches,
/// which take them in the packets' order, and `mergers` mergers merge the results, each its share in turn. The results
/// of the branches get to the mergers in the requested way. `D.due` are the packets that come.
///
/// The caller deals the packets of the first stage, and collects the fate of each after the last. Each other dealer,
/// each branch and each merger is a node. If all are at work at once, they are cut into crews, no more of them than
/// threads suit the machine; each crew has a thread of its own if one can be started, and otherwise the caller runs it
/// to its end once it has dealt. If they are at work in turn, one group after another runs to its end, each node of it
/// on a thread of its own if one can be started. All links and boards are made before the first step, with room for
/// every message. The results don't depend on the number of mergers or of crews, on the way, on the schedule or on the
/// order of steps. The only error is that memory runs out, wherever it does; all threads are joined before the call
/// returns.
pub fn run_nodes<
    F: BranchWork + Drop + Send,
    S: Supply + Drop,
    D: LinkDue<Parcel<Apart>>,
    R: Threads + Wait + Sync,
    G: Gate + Sync,
>(
    rt: &R,
    alloc: Global,
    gate: &G,
    stages: Vec<StageWork<F>>,
    packets: S,
    count: u32,
    mergers: u32,
    way: MergeWay,
    schedule: Schedule,
) -> Result<(Vec<F>, Vec<Fate>, Tally), AllocError>
    requires some { 0 < mergers }
    requires few_mergers { mergers ≤ 16 }
    requires few { count < 65537 }
    requires many { length D.due ≡ count }
    requires come { S.comes packets D.due }
    requires pass { MayPassAll F.kit F.may (map plain_stage stages.items) D.due }

    // The functions of all branches, in the stages' order, as they are when each branch has had all packets.
    ensures functions { IfOk result (λ ran. ran.0.items ≡ flat (ends_of F.kit (map plain_stage stages.items) D.due)) }

    // The fate of each packet after all stages, in the packets' order.
    ensures fates { IfOk result (λ ran. ran.1.items ≡ fates_behind (through F.kit (map plain_stage stages.items) D.due)) }

    // There was memory for each of them.
    ensures found { OnOk result (All is_found (through F.kit (map plain_stage stages.items) D.due)) }

    // The copies of each field that the dealers made.
    ensures counted { IfOk result (λ ran. (f : Field) → count_of ran.2 f ≡ raised 0 (copies_along F.kit (map plain_stage stages.items) D.due f)) }
{
    if stages.is_empty() {
        let fates = collect(rt, alloc, packets, count)?;
        return Ok((Vec::new(alloc), fates, Tally::new()));
    }
    run_stages::<F, S, D, R, G>(
        rt, alloc, gate, stages, packets, count, mergers, way, schedule,
    )
}

/// The same if there is a stage.
fn run_stages<
    F: BranchWork + Drop + Send,
    S: Supply + Drop,
    D: LinkDue<Parcel<Apart>>,
    R: Threads + Wait + Sync,
    G: Gate + Sync,
>(
    rt: &R,
    alloc: Global,
    gate: &G,
    stages: Vec<StageWork<F>>,
    packets: S,
    count: u32,
    mergers: u32,
    way: MergeWay,
    schedule: Schedule,
) -> Result<(Vec<F>, Vec<Fate>, Tally), AllocError>
    requires stages { 0 < length stages.items }
    requires some { 0 < mergers }
    requires few_mergers { mergers ≤ 16 }
    requires few { count < 65537 }
    requires many { length D.due ≡ count }
    requires come { S.comes packets D.due }
    requires pass { MayPassAll F.kit F.may (map plain_stage stages.items) D.due }
    ensures { IfOk result (λ ran. HasLed F.kit (map plain_stage stages.items) D.due ran.0.items ran.1.items ran.2) }
{
    let mut stages = stages;
    let work = take_first(&mut stages);
    let wired = wire_stage::<F, S, D>(alloc, work, packets, mergers, way, count)?;
    let WiredStage {
        dealer,
        mut nodes,
        next,
    } = wired;
    let behind = wire_all(alloc, stages, next, mergers, way, count, &mut nodes)?;
    run_laid(
        rt,
        alloc,
        gate,
        schedule,
        First::Due(dealer),
        nodes,
        behind,
        count,
    )
}

/// Runs the nodes of all stages under a schedule.
fn run_laid<
    F: BranchWork + Drop + Send,
    S: Supply + Drop,
    R: Threads + Wait + Sync,
    G: Gate + Sync,
>(
    rt: &R,
    alloc: Global,
    gate: &G,
    schedule: Schedule,
    first: First<S>,
    nodes: Vec<Node<F>>,
    behind: Inlets<Apart>,
    count: u32,
) -> Result<(Vec<F>, Vec<Fate>, Tally), AllocError>
    requires run { (copies : Field → ℕ) × (due : List (PlainMessage PlainApart)) × MayRun F.kit F.may S.comes copies first nodes.items count behind due }
    ensures { (copies : Field → ℕ) (due : List (PlainMessage PlainApart)) → MayRun F.kit F.may S.comes copies first nodes.items count behind due → IfOk result (λ ran. HasRun F.kit copies nodes.items due ran.0.items ran.1.items ran.2) }
{
    match schedule {
        Schedule::AtOnce => run_at_once(rt, alloc, gate, first, nodes, behind, count),
        Schedule::InTurn => run_in_turn(rt, alloc, gate, first, nodes, behind, count),
    }
}

/// Runs the nodes all at the same time, as crews.
fn run_at_once<
    F: BranchWork + Drop + Send,
    S: Supply + Drop,
    R: Threads + Wait + Sync,
    G: Gate + Sync,
>(
    rt: &R,
    alloc: Global,
    gate: &G,
    first: First<S>,
    nodes: Vec<Node<F>>,
    behind: Inlets<Apart>,
    count: u32,
) -> Result<(Vec<F>, Vec<Fate>, Tally), AllocError>
    requires run { (copies : Field → ℕ) × (due : List (PlainMessage PlainApart)) × MayRun F.kit F.may S.comes copies first nodes.items count behind due }
    ensures { (copies : Field → ℕ) (due : List (PlainMessage PlainApart)) → MayRun F.kit F.may S.comes copies first nodes.items count behind due → IfOk result (λ ran. HasRun F.kit copies nodes.items due ran.0.items ran.1.items ran.2) }
{
    let crews = crews_of(alloc, nodes, most_crews(rt, count))?;
    let started = Vec::with_capacity(alloc, crews.len())?;
    run_scoped(rt, alloc, gate, first, crews, started, behind, count)
}

/// The nodes of the stages after the first, to which packets come from the source. Returns the source of the packets
/// after the last stage.
fn wire_all<F: BranchWork + Drop>(
    alloc: Global,
    stages: Vec<StageWork<F>>,
    source: Inlets<Apart>,
    mergers: u32,
    way: MergeWay,
    count: u32,
    nodes: &mut Vec<Node<F>>,
) -> Result<Inlets<Apart>, AllocError>
    requires some { 0 < mergers }
    requires few_mergers { mergers ≤ 16 }
    requires few { count < 65537 }
    requires lays { (packets : List (PlainMessage PlainApart)) × (functions : List F) × (copies : Field → ℕ) × AreLaid F.kit F.may count packets functions copies (map plain_stage stages.items) source nodes.old.items }
    ensures { IfOk result (λ behind. (packets : List (PlainMessage PlainApart)) (functions : List F) (copies : Field → ℕ) →
        AreLaid F.kit F.may count packets functions copies (map plain_stage stages.items) source nodes.old.items →
        IsLaid F.kit F.may count packets functions copies behind nodes.new.items) }
{
    let mut source = source;
    for work in stages {
        let wired = wire_stage::<F, Inlets<Apart>, Brand>(
            alloc, work, source, mergers, way, count,
        )?;
        source = push_stage(wired, nodes)?;
    }
    Ok(source)
}

/// Adds the nodes of one more stage. Returns the source of the packets after it.
fn push_stage<F: BranchWork + Drop>(
    wired: WiredStage<F, Inlets<Apart>>,
    nodes: &mut Vec<Node<F>>,
) -> Result<Inlets<Apart>, AllocError>
    ensures next { IfOk result (λ next. next ≡ wired.next) }
    ensures nodes { OnOk result (nodes.new.items ≡ nodes.old.items ++ Node.Dealer wired.dealer ∷ wired.nodes.items) }
{
    let WiredStage {
        dealer,
        nodes: mut others,
        next,
    } = wired;
    nodes.push(Node::Dealer(dealer))?;
    nodes.append(&mut others)?;
    Ok(next)
}

/// Runs the crews on threads, all of which are joined before the call returns.
fn run_scoped<
    F: BranchWork + Drop + Send,
    S: Supply + Drop,
    R: Threads + Wait + Sync,
    G: Gate + Sync,
>(
    rt: &R,
    alloc: Global,
    gate: &G,
    first: First<S>,
    crews: Vec<Crew<F>>,
    started: Vec<Started<F>>,
    behind: Inlets<Apart>,
    count: u32,
) -> Result<(Vec<F>, Vec<Fate>, Tally), AllocError>
    requires run { (copies : Field → ℕ) × (due : List (PlainMessage PlainApart)) × CanRun F.kit F.may S.comes copies first crews.items started.items (vec_capacity started) count behind due }
    ensures { (copies : Field → ℕ) (due : List (PlainMessage PlainApart)) → CanRun F.kit F.may S.comes copies first crews.items started.items (vec_capacity started) count behind due → IfOk result (λ ran. HasRun F.kit copies (flat crews.items) due ran.0.items ran.1.items ran.2) }
{
    thread::scope(
        thread::scope_env(),
        rt,
        move |scope| -> Result<(Vec<F>, Vec<Fate>, Tally), AllocError>
            requires { (copies : Field → ℕ) × (due : List (PlainMessage PlainApart)) × CanRun F.kit F.may S.comes copies first crews.items started.items (vec_capacity started) count behind due }
            ensures { (copies : Field → ℕ) (due : List (PlainMessage PlainApart)) → CanRun F.kit F.may S.comes copies first crews.items started.items (vec_capacity started) count behind due → IfOk result (λ ran. HasRun F.kit copies (flat crews.items) due ran.0.items ran.1.items ran.2) }
        { run_started(scope, rt, alloc, gate, first, crews, started, behind, count) },
    )
}

/// Starts the crews, deals the packets to the first stage, collects what comes from the last, and waits for the crews.
fn run_started<
    's,
    E,
    F: BranchWork + Drop + Send + 's,
    S: Supply + Drop,
    R: Threads + Wait + Sync,
    G: Gate + Sync,
>(
    scope: &Scope<'s, E>,
    rt: &'s R,
    alloc: Global,
    gate: &'s G,
    first: First<S>,
    crews: Vec<Crew<F>>,
    started: Vec<Started<F>>,
    behind: Inlets<Apart>,
    count: u32,
) -> Result<(Vec<F>, Vec<Fate>, Tally), AllocError>
    requires { (copies : Field → ℕ) × (due : List (PlainMessage PlainApart)) × CanRun F.kit F.may S.comes copies first crews.items started.items (vec_capacity started) count behind due }
    ensures { (copies : Field → ℕ) (due : List (PlainMessage PlainApart)) → CanRun F.kit F.may S.comes copies first crews.items started.items (vec_capacity started) count behind due → IfOk result (λ ran. HasRun F.kit copies (flat crews.items) due ran.0.items ran.1.items ran.2) }
{
    let (first, started) = start_all(scope, rt, alloc, gate, first, crews, started, count);
    let dealt = deal_first(rt, alloc, first);
    let fates = collect(rt, alloc, behind, count)?;
    let (functions, tally) = finish_all(rt, alloc, dealt, started)?;
    Ok((functions, fates, tally))
}

/// Starts crews in their order, for `count` packets.
fn start_all<
    's,
    E,
    F: BranchWork + Drop + Send + 's,
    S: Supply + Drop,
    R: Threads + Wait + Sync,
    G: Gate + Sync,
>(
    scope: &Scope<'s, E>,
    rt: &'s R,
    alloc: Global,
    gate: &'s G,
    first: First<S>,
    crews: Vec<Crew<F>>,
    started: Vec<Started<F>>,
    count: u32,
) -> (First<S>, Vec<Started<F>>)
    requires first { (copies : Field → ℕ) × IsFirst S.comes copies first }
    requires ready { All (All (is_ready F.kit F.may)) crews.items }
    requires empty { started.items ≡ [] }
    requires room { length crews.items ≤ vec_capacity started }
    ensures first { (copies : Field → ℕ) → IsFirst S.comes copies first → IsFirst S.comes copies result.0 }
    ensures crews { map crew_of result.1.items ≡ crews.items }
{
    let mut first = first;
    let mut started = started;
    for crew in crews {
        let (left, one) = start(scope, rt, alloc, gate, first, crew, count);
        first = left;
        started.push_reserved(one);
    }
    (first, started)
}

/// Waits for the crews in their order. Returns the functions of their branches, and the copies that they and the first
/// dealer made. Fails if memory ran out.
fn finish_all<F: BranchWork + Drop, R: Threads>(
    rt: &R,
    alloc: Global,
    dealt: Dealt,
    started: Vec<Started<F>>,
) -> Result<(Vec<F>, Tally), AllocError>
    ensures functions { IfOk result (λ ended. ended.0.items ≡ gather F.kit (flat (map crew_of started.items))) }
    ensures counted { IfOk result (λ ended. (f : Field) → count_of ended.1 f ≡ raised (count_of dealt.tally f) (copies_by_all f (flat (map crew_of started.items)))) }
    ensures found { OnOk result (dealt.short ≡ false) }
{
    if dealt.short {
        return Err(AllocError);
    }
    let mut functions = Vec::new(alloc);
    let mut tally = dealt.tally;
    for one in started {
        keep_crew(&mut functions, &mut tally, finish(rt, one))?;
    }
    Ok((functions, tally))
}
