//! The mergers of a stage, with their links and their ends from the branches.
ghost use Rattle.std.specs.Prelude.{◌<◌, ◌≤◌, ℕ, List, [], ◌∷◌, OnOk};
ghost use Rattle.packet_fields.specs.declared.field.Field.{Field};
ghost use Rattle.stage_nodes.specs.Turns.{places};
ghost use Rattle.node_run.specs.Nodes.{AreNodes, merger_ready};
ghost use Rattle.node_run.specs.Edges.{HaveJoined, NodeEnds.MergerEnds, to_mergers};
ghost use Rattle.node_run.specs.Wired.{MergersFit};

use crate::fans::share_count;
use crate::meeting::take_first;
use crate::node::Node;
use packet_messages::{Inlets, Outlets};
use packet_version::{Apart, Base};
use stage_nodes::{BranchWork, FromBranches, Giving, Merger};
use std::alloc::{AllocError, Global};

/// The mergers that take these bases and the results of the branches, for `count` packets.
pub(crate) fn wire_mergers<F: BranchWork + Drop>(
    alloc: Global,
    bases: Inlets<Base>,
    inlets: Vec<FromBranches>,
    outlets: Outlets<Apart>,
    mergers: u32,
    count: u32,
    nodes: &mut Vec<Node<F>>,
) -> Result<(), AllocError>
    requires some { 0 < mergers }
    requires few_mergers { mergers ≤ 16 }
    requires few { count < 65537 }
    requires fits { MergersFit mergers 0 mergers count bases inlets.items outlets }
    ensures nodes { OnOk result ((fs : List F) (c : Field → ℕ) → AreNodes F.kit F.may nodes.old.items fs c → AreNodes F.kit F.may nodes.new.items fs c) }
    ensures joined { OnOk result (HaveJoined (to_mergers mergers 0 count bases inlets.items outlets) nodes.old.items nodes.new.items) }
{
    let mut bases = bases;
    let mut inlets = inlets;
    let mut outlets = outlets;
    for merger in 0..mergers {
        let base = bases.take_first();
        let outlet = outlets.take_first();
        let from_branches = take_first(&mut inlets);
        let to = Giving::new(outlet);
        let own = Merger {
            base,
            inlets: from_branches,
            to,
            row: Vec::new(alloc),
            first: merger,
            step: mergers,
            count: share_count(count, mergers, merger),
        };
        push_merger(own, nodes)?;
    }
    Ok(())
}

/// Adds a merger.
fn push_merger<F: BranchWork + Drop>(
    merger: Merger,
    nodes: &mut Vec<Node<F>>,
) -> Result<(), AllocError>
    requires { merger_ready merger }
    ensures nodes { OnOk result ((fs : List F) (c : Field → ℕ) → AreNodes F.kit F.may nodes.old.items fs c → AreNodes F.kit F.may nodes.new.items fs c) }
    ensures joined { OnOk result (HaveJoined
        (MergerEnds (places merger.first merger.step merger.count) merger.base merger.inlets merger.to.ends ∷ [])
        nodes.old.items nodes.new.items) }
{
    nodes.push(Node::Merger(merger))?;
    Ok(())
}
