//! Functions are placed into stages.

ghost use Rattle.std.specs.Prelude.{◌≡◌, ◌<◌, ◌≤◌, ◌+◌, ◌^◌, suc, length, map, count_by, IfOk};
ghost use Rattle.graph_compile.specs.declared.draft.Draft.{Draft};
ghost use Rattle.graph_compile.specs.Causes.{IsClosedForCause};
ghost use Rattle.graph_compile.specs.Facts.{IsLawful, IsFull};
ghost use Rattle.graph_compile.specs.Lawful.{IsStaged};
ghost use Rattle.graph_compile.specs.Stages.{is_forbidden, holds_back, alone, grown, stage_of, placed, finished, graph_of};

use crate::draft::Draft;
use crate::graph::{Branch, Graph, Stage};
use crate::handing::parts;
use crate::touching::profile_at;
use action_profile::Profile;
use dependency_table::{Answer, pair};
use item_list::Items;
use std::alloc::{AllocError, Global};

/// The graph of a chain. `profiles` are those of its functions, in chain order.
///
/// The functions are taken in chain order. A function opens a new branch of the stage if no branch holds one that the
/// dependency table forbids before it. It goes to the end of the branch if exactly one branch does. If more do, it
/// closes the stage and opens the next. The only error is that memory runs out.
pub fn compile(alloc: Global, profiles: &[Profile]) -> Result<Graph, AllocError>
    requires { length profiles.now ≤ 64 }
    ensures exact { IfOk result (λ graph. graph ≡ graph_of profiles.now) }
    ensures lawful { IfOk result (λ graph. IsLawful graph profiles.now) }
    ensures staged { IfOk result (λ graph. IsStaged profiles.now 1 graph.stages (suc (length profiles.now))) }
    ensures full { IfOk result IsFull }
    ensures caused { IfOk result (λ graph. IsClosedForCause profiles.now graph.stages) }
{
    compiled(alloc, profiles)
}

fn compiled(alloc: Global, profiles: &[Profile]) -> Result<Graph, AllocError>
    requires { length profiles.now ≤ 64 }
    ensures { IfOk result (λ graph. graph ≡ graph_of profiles.now) }
{
    let mut draft = Draft {
        stages: Items::new(Vec::new(alloc)),
        branches: Items::new(Vec::new(alloc)),
    };
    'chain: for index in 0..profiles.len() {
        draft = placed(alloc, profiles, draft, index as u32 + 1)?;
    }
    finished(alloc, profiles, draft)
}

// The draft with the next function.
#[tactic(auto, unfolding(crate::specs::Stages::placed))]
fn placed(
    alloc: Global,
    profiles: &[Profile],
    draft: Draft,
    position: u32,
) -> Result<Draft, AllocError>
    requires { length draft.branches < 2 ^ 32 }
    ensures { IfOk result (λ next. next ≡ placed profiles.now draft position) }
{
    let Draft {
        mut stages,
        mut branches,
    } = draft;
    match held_back_by(profiles, branches.as_slice(), position) {
        0 => branches.push(alone(alloc, position)?)?,
        1 => branches = grown(alloc, profiles, branches, position)?,
        _ => {
            stages.push(stage_of(alloc, profiles, branches)?)?;
            branches = Items::new(Vec::new(alloc));
            branches.push(alone(alloc, position)?)?;
        }
    }
    Ok(Draft { stages, branches })
}

// The number of branches that hold a function that is forbidden before this one.
fn held_back_by(profiles: &[Profile], branches: &[Branch], position: u32) -> usize
    ensures { result ≡ count_by (holds_back profiles.now position) branches.now }
{
    branches
        .iter()
        .filter(|branch| holds_back(profiles, position, branch))
        .count()
}

#[tactic(auto, unfolding(crate::specs::Stages::holds_back))]
fn holds_back(profiles: &[Profile], position: u32, branch: &Branch) -> bool
    ensures { result ≡ holds_back profiles.now position branch.now }
{
    let positions = branch.positions.as_slice();
    positions
        .iter()
        .any(|q| is_forbidden(profiles, *q as usize, position as usize))
}

/// Must the function at one position come before the one at a later position?
#[tactic(auto, unfolding(crate::specs::Stages::is_forbidden))]
pub(crate) fn is_forbidden(profiles: &[Profile], earlier: usize, later: usize) -> bool
    ensures { result ≡ is_forbidden profiles.now earlier later }
{
    match (profile_at(profiles, earlier), profile_at(profiles, later)) {
        (Some(x), Some(y)) => matches!(pair(&x, &y), Answer::Forbidden { .. }),
        _ => false,
    }
}

// A branch of one function.
fn alone(alloc: Global, position: u32) -> Result<Branch, AllocError>
    ensures { IfOk result (λ branch. branch ≡ alone position) }
{
    let mut positions = Items::new(Vec::new(alloc));
    positions.push(position)?;
    Ok(Branch { positions })
}

// The branches, with the function at the end of those that hold it back.
fn grown(
    alloc: Global,
    profiles: &[Profile],
    branches: Items<Branch>,
    position: u32,
) -> Result<Items<Branch>, AllocError>
    ensures { IfOk result (λ next. next ≡ map (grown profiles.now position) branches) }
{
    let mut next = Items::new(Vec::new(alloc));
    'branches: for branch in branches.into_vec() {
        next.push(longer(profiles, branch, position)?)?;
    }
    Ok(next)
}

fn longer(profiles: &[Profile], branch: Branch, position: u32) -> Result<Branch, AllocError>
    ensures { IfOk result (λ next. next ≡ grown profiles.now position branch) }
{
    let mut branch = branch;
    if holds_back(profiles, position, &branch) {
        branch.positions.push(position)?;
    }
    Ok(branch)
}

fn stage_of(
    alloc: Global,
    profiles: &[Profile],
    branches: Items<Branch>,
) -> Result<Stage, AllocError>
    requires { length branches < 2 ^ 32 }
    ensures { IfOk result (λ stage. stage ≡ stage_of profiles.now branches) }
{
    let parts = parts(alloc, branches.as_slice(), profiles)?;
    Ok(Stage { branches, parts })
}

// Closes the open stage, if it has a branch.
pub(crate) fn finished(
    alloc: Global,
    profiles: &[Profile],
    draft: Draft,
) -> Result<Graph, AllocError>
    requires { length draft.branches < 2 ^ 32 }
    ensures { IfOk result (λ graph. graph ≡ finished profiles.now draft) }
{
    let Draft {
        mut stages,
        branches,
    } = draft;
    if !branches.as_slice().is_empty() {
        stages.push(stage_of(alloc, profiles, branches)?)?;
    }
    Ok(Graph { stages })
}
