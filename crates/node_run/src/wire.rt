//! Makes the nodes of a stage, with the links between them and the place where its branches meet its mergers.
ghost use Rattle.std.specs.Prelude.{◌≡◌, ◌<◌, ◌≤◌, length, IfOk};
ghost use Rattle.packet_messages.specs.Turns.{shares};
ghost use Rattle.stage_nodes.specs.Streams.{Edge.Behind, Edge.ToMergers, stream};
ghost use Rattle.stage_nodes.specs.Flows.{MayPass};
ghost use Rattle.node_run.specs.Stages.{plain_stage};
ghost use Rattle.node_run.specs.Wired.{IsWired};
ghost use Rattle.node_run.specs.Edges.{IsOnEdges};

use crate::branches::{Branches, wire_branches};
use crate::fans::fan;
use crate::lanes::replicas_last;
use crate::meeting::{Meeting, MergeWay, meet};
use crate::mergers::wire_mergers;
use crate::node::Node;
use crate::stage::StageWork;
use action_profile::StageParts;
use packet_messages::{Inlets, Outlets, Parcel};
use packet_version::{Apart, Base, Tally};
use ruled_links::LinkDue;
use stage_nodes::{BranchWork, Dealer, Giving, Supply, ToStage};
use std::alloc::{AllocError, Global};
use std::marker::Brand;

/// The nodes of a stage: its dealer, its branches and mergers, and the inlets from its mergers.
#[derive(Drop)]
pub struct WiredStage<F, S> {
    pub dealer: Dealer<S>,
    pub nodes: Vec<Node<F>>,
    pub next: Inlets<Apart>,
}

/// The nodes of a stage, to which `count` packets come from the source.
///
/// `D.due` are these packets. `edges` says which nodes the stage has, which of the packets each takes, and what is due on
/// every end of every link and board of the stage: the `stream` of its edge, or the share of it that belongs to one
/// merger. A merger takes each packet whose number leaves the merger's place when divided by the number of mergers, and
/// so does a replica of a branch; the one node of a branch takes all. An end gives and takes
/// only a message that fits the first that is due on it (`packet_messages`): that one, or the word that memory ran out.
/// So every message on a link or a board of a stage that runs fits the one due there. Which of the ends belong to one
/// link or board is not stated.
pub fn wire_stage<F: BranchWork + Drop, S: Supply + Drop, D: LinkDue<Parcel<Apart>>>(
    alloc: Global,
    work: StageWork<F>,
    source: S,
    mergers: u32,
    way: MergeWay,
    count: u32,
) -> Result<WiredStage<F, S>, AllocError>
    requires takes { S.comes source D.due }
    requires some { 0 < mergers }
    requires few_mergers { mergers ≤ 16 }
    requires few { count < 65537 }
    requires many { length D.due ≡ count }
    requires pass { MayPass F.kit F.may (plain_stage work) D.due }
    ensures wired { IfOk result (λ w. IsWired F.kit F.may S.comes mergers count (plain_stage work) D.due source w) }
    ensures edges { IfOk result (λ w. IsOnEdges F.kit mergers (plain_stage work) D.due w) }
{
    let (from_mergers, next) = next_fan::<F, D, Brand>(alloc, &work, mergers, count)?;
    let StageWork { parts, branches } = work;
    let (bases, to_mergers) = base_fan::<F, D, Brand>(alloc, &parts, mergers, count)?;
    let touches = parts.touches.as_slice();
    let Meeting { ends, inlets } = meet::<F, D>(
        alloc,
        way,
        touches,
        branches.as_slice(),
        mergers,
        count,
    )?;
    let wired = wire_branches::<F, D>(alloc, touches, branches, ends, mergers, count)?;
    let Branches { versions, nodes } = wired;
    let mut nodes = replicas_last(alloc, nodes)?;
    wire_mergers(
        alloc,
        to_mergers,
        inlets,
        from_mergers,
        mergers,
        count,
        &mut nodes,
    )?;
    let to = Giving::new(ToStage { versions, bases });
    let dealer = Dealer {
        parts,
        source,
        to,
        tally: Tally::new(),
        count,
    };
    Ok(WiredStage {
        dealer,
        nodes,
        next,
    })
}

/// The links from the dealer to the mergers.
fn base_fan<F: BranchWork, D: LinkDue<Parcel<Apart>>, E: LinkDue<Parcel<Base>>>(
    alloc: Global,
    parts: &StageParts,
    mergers: u32,
    count: u32,
) -> Result<(Outlets<Base>, Inlets<Base>), AllocError>
    requires due { E.due ≡ stream F.kit D.due (ToMergers parts.now.touches) }
    requires some { 0 < mergers }
    requires few { count < 65537 }
    requires many { length D.due ≡ count }
    ensures { IfOk result (λ e. (e.0 ≡ shares mergers (stream F.kit D.due (ToMergers parts.now.touches))) × (e.1 ≡ shares mergers (stream F.kit D.due (ToMergers parts.now.touches)))) }
{
    fan::<Base, E>(alloc, mergers, count)
}

/// The links from the mergers to the taker of the merged packets.
fn next_fan<F: BranchWork, D: LinkDue<Parcel<Apart>>, E: LinkDue<Parcel<Apart>>>(
    alloc: Global,
    work: &StageWork<F>,
    mergers: u32,
    count: u32,
) -> Result<(Outlets<Apart>, Inlets<Apart>), AllocError>
    requires due { E.due ≡ stream F.kit D.due (Behind (plain_stage work.now)) }
    requires some { 0 < mergers }
    requires few { count < 65537 }
    requires many { length D.due ≡ count }
    ensures { IfOk result (λ e. (e.0 ≡ shares mergers (stream F.kit D.due (Behind (plain_stage work.now)))) × (e.1 ≡ shares mergers (stream F.kit D.due (Behind (plain_stage work.now))))) }
{
    fan::<Apart, E>(alloc, mergers, count)
}
