//! The functions of a chain, split among the branches that own them, as the works of nodes.
ghost use Rattle.std.specs.Prelude.{◌≡◌, ◌++◌, [], ℕ, List, length, map, IfOk, OnOk};
ghost use Rattle.chain_walk.specs.Counting.{quiet};
ghost use Rattle.graph_compile.specs.Facts.{positions_of};
ghost use Rattle.burst_law.specs.Owned.{owned_by, owned_in};
ghost use Rattle.node_run.specs.Stages.{plain_stage};
ghost use Rattle.stream_law.specs.Owned.{any_counts};
ghost use Rattle.stream_law.specs.Works.{works_in, works_of};
ghost use Rattle.piped_run.specs.Places.{AreThere};
ghost use Rattle.piped_run.specs.Standing.{EachStands};

use crate::owned::OwnedFunctions;
use crate::splitting::{places_of, split_branch};
use action_profile::StageParts;
use graph_compile::{Branch, Stage};
use item_list::Items;
use node_run::StageWork;
use packet_function::Function;
use std::alloc::{AllocError, Global};

/// The functions of a chain as works for the packets with these record numbers: each branch of these stages has those
/// at its positions, in their order. The only error is that memory runs out.
pub(crate) fn begin_works<F: Function + Drop>(
    alloc: Global,
    stages: &[Stage],
    functions: Vec<F>,
    numbers: &[u32],
    chain: u32,
) -> Result<Vec<StageWork<OwnedFunctions<F>>>, AllocError>
    requires { EachStands stages.now (length functions.items) }
    ensures { IfOk result (λ works. map plain_stage works.items ≡ works_of (quiet F.behaviour) stages.now (owned_by stages.now functions.items) (length numbers.now)) }
{
    let mut places = places_of(alloc, functions)?;
    let mut works = Vec::with_capacity(alloc, stages.len())?;
    for stage in stages {
        let branches = begin_branches(
            alloc,
            stage.branches.as_slice(),
            &mut places,
            numbers,
            chain,
        )?;
        let parts = same_parts(alloc, &stage.parts)?;
        works.push(StageWork { parts, branches })?;
    }
    Ok(works)
}

/// A copy of the parts of a stage.
fn same_parts(alloc: Global, parts: &StageParts) -> Result<StageParts, AllocError>
    ensures { IfOk result (λ same. same ≡ parts.now) }
{
    let touches = Items::new(Vec::from_slice(alloc, parts.touches.as_slice())?);
    Ok(StageParts {
        modes: parts.modes,
        touches,
    })
}

/// The functions of each branch of a stage, which are taken out of their places, as a work.
fn begin_branches<F: Function + Drop>(
    alloc: Global,
    branches: &[Branch],
    places: &mut [Option<F>],
    numbers: &[u32],
    chain: u32,
) -> Result<Vec<OwnedFunctions<F>>, AllocError>
    requires there { (functions : List F) × (later : List ℕ) × AreThere functions places.old (positions_of branches.now ++ later) }
    ensures own { (functions : List F) (later : List ℕ) → AreThere functions places.old (positions_of branches.now ++ later) → IfOk result (λ works. works.items ≡ works_in (quiet F.behaviour) branches.now (owned_in branches.now functions) (length numbers.now)) }
    ensures left { (functions : List F) (later : List ℕ) → AreThere functions places.old (positions_of branches.now ++ later) → OnOk result (AreThere functions places.new later) }
{
    let mut works = Vec::with_capacity(alloc, branches.len())?;
    for branch in branches {
        let functions = split_branch(alloc, branch.positions.as_slice(), places)?;
        let work = begin_branch(alloc, branch, functions, numbers, chain)?;
        works.push(work)?;
    }
    Ok(works)
}

/// The functions of a branch, as a work.
fn begin_branch<F: Function + Drop>(
    alloc: Global,
    branch: &Branch,
    functions: Vec<F>,
    numbers: &[u32],
    chain: u32,
) -> Result<OwnedFunctions<F>, AllocError>
    ensures { IfOk result (λ work. work ≡ record {
      functions = functions.items;
      positions = branch.now.positions;
      packets = length numbers.now;
      counts = any_counts (quiet F.behaviour) functions.items;
      seen = 0;
      listed = [];
    }) }
{
    let positions = Vec::from_slice(alloc, branch.positions.as_slice())?;
    let numbers = Vec::from_slice(alloc, numbers)?;
    let counts = counts_any(&functions);
    let listed = Vec::with_capacity(alloc, most_notes(&functions, numbers.len()))?;
    Ok(OwnedFunctions {
        functions,
        positions,
        numbers,
        chain,
        counts,
        seen: 0,
        listed,
    })
}

/// Does one of these functions count?
fn counts_any<F: Function>(functions: &[F]) -> bool
    ensures { result ≡ any_counts F.behaviour functions.now }
{
    functions.iter().any(|function| function.profile().counts)
}

/// The greatest number of notes that these functions make on `packets` packets.
fn most_notes<F: Function>(functions: &[F], packets: usize) -> usize {
    let mut most: usize = 0;
    for function in functions {
        if function.profile().counts {
            most = most.saturating_add(packets);
        }
    }
    most
}
