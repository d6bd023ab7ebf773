//! The order of a stage's nodes.
ghost use Rattle.std.specs.Prelude.{◌∷◌, ℕ, List, IfOk, OnOk};
ghost use Rattle.packet_fields.specs.declared.field.Field.{Field};
ghost use Rattle.node_run.specs.Nodes.{AreNodes};
ghost use Rattle.node_run.specs.Crews.{AreSorted};
ghost use Rattle.node_run.specs.Edges.{AreBehind, HaveJoined, as_lead, as_replica, ends_at};

use crate::node::Node;
use stage_nodes::BranchWork;
use std::alloc::{AllocError, Global};

/// Sorts the nodes of branches so that the replicas come after the others. Then nodes of one branch, which have packets
/// of different mergers, are apart from each other, and those of one merger together. The only error is that memory
/// runs out.
pub(crate) fn replicas_last<F: BranchWork + Drop>(
    alloc: Global,
    nodes: Vec<Node<F>>,
) -> Result<Vec<Node<F>>, AllocError>
    ensures nodes { IfOk result (λ all. (fs : List F) (c : Field → ℕ) → AreNodes F.kit F.may nodes.items fs c → AreNodes F.kit F.may all.items fs c) }
    ensures order { IfOk result (λ all. AreBehind nodes.items all.items) }
{
    let mut first = Vec::with_capacity(alloc, nodes.len())?;
    let mut others = Vec::new(alloc);
    for node in nodes {
        sort(node, &mut first, &mut others)?;
    }
    first.append(&mut others)?;
    Ok(first)
}

/// Adds the node to `others` if it is a replica, and to `first` if not.
fn sort<F: BranchWork + Drop>(
    node: Node<F>,
    first: &mut Vec<Node<F>>,
    others: &mut Vec<Node<F>>,
) -> Result<(), AllocError>
    ensures nodes { OnOk result ((fs : List F) (c : Field → ℕ) (todo : List (Node F)) →
        AreSorted F.kit F.may fs c first.old.items others.old.items (node ∷ todo) → AreSorted F.kit F.may fs c first.new.items others.new.items todo) }
    ensures leads { OnOk result (HaveJoined (as_lead (ends_at node)) first.old.items first.new.items) }
    ensures replicas { OnOk result (HaveJoined (as_replica (ends_at node)) others.old.items others.new.items) }
{
    match node {
        Node::Replica(branch) => {
            others.push(Node::Replica(branch))?;
            Ok(())
        }
        other => {
            first.push(other)?;
            Ok(())
        }
    }
}
