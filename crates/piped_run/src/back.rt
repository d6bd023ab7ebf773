//! Returns the functions of nodes, by stage and branch.
ghost use Rattle.std.specs.Prelude.{◌≡◌, List, length, map, take, drop, IfOk, OnOk};
ghost use Rattle.burst_law.specs.Bursts.{Message};
ghost use Rattle.packet_function.specs.declared.note.FlowNote.{FlowNote};
ghost use Rattle.piped_run.specs.Settling.{settled_own};
ghost use Rattle.settled_notes.specs.Settling.{SameDrops};
ghost use Rattle.std.specs.Vec.Iter.{into_iter_items};
ghost use Rattle.node_run.specs.Runs.{flat};
ghost use Rattle.stream_law.specs.Owned.{PlainOwned};

use crate::owned::OwnedFunctions;
use crate::settling::settle_work;
use chain_walk::Fate;
use graph_compile::Stage;
use packet_function::Function;
use std::alloc::{AllocError, Global};
use std::vec::IntoIter;

/// The functions of works, which are one after another, by the stages and branches that own them, after their notes on
/// packets with these fates were settled. The only error is that memory runs out.
pub(crate) fn end_works<F: Function + Drop>(
    alloc: Global,
    stages: &[Stage],
    works: Vec<OwnedFunctions<F>>,
    fates: &[Fate],
) -> Result<Vec<Vec<Vec<F>>>, AllocError>
    ensures { (ends : List Message) (left : List (List (PlainOwned F FlowNote))) → SameDrops fates.now ends → map (λ l. length l) left ≡ map (λ s. length s.branches) stages.now → works.items ≡ flat left →
        IfOk result (λ owned. map (λ own. map (λ v. v.items) own.items) owned.items ≡ map (λ l. map (settled_own F.notes ends) l) left) }
{
    let mut owned = Vec::with_capacity(alloc, stages.len())?;
    let mut rest = works.into_iter();
    'stages: for stage in stages {
        let own = end_branches(alloc, stage.branches.as_slice().len(), &mut rest, fates)?;
        owned.push(own)?;
    }
    Ok(owned)
}

/// The functions of the next `count` works.
fn end_branches<F: Function + Drop>(
    alloc: Global,
    count: usize,
    works: &mut IntoIter<OwnedFunctions<F>>,
    fates: &[Fate],
) -> Result<Vec<Vec<F>>, AllocError>
    ensures own { (ends : List Message) → SameDrops fates.now ends → IfOk result (λ own. map (λ v. v.items) own.items ≡ map (settled_own F.notes ends) (take count (into_iter_items works.old))) }
    ensures left { OnOk result (into_iter_items works.new ≡ drop count (into_iter_items works.old)) }
{
    let mut own = Vec::with_capacity(alloc, count)?;
    'branches: for _branch in 0..count {
        match works.next() {
            Some(work) => own.push(settle_work(work, fates)?)?,
            None => return Ok(own),
        }
    }
    Ok(own)
}
