//! What a text lists.

ghost use Rattle.std.specs.Prelude.{◌≡◌, ◌++◌, ◌∷◌, [], IfOk};
ghost use Rattle.policy_text.specs.Grammar.{change_latest};
ghost use Rattle.graph_text.specs.Listing.{with_stage, with_branch, with_branch_in, stages_with};

use graph_compile::Branch;
use item_list::Items;
use std::alloc::{AllocError, Global};

/// A chain that a text lists, so far.
#[derive(Drop)]
pub(crate) struct Listed {
    /// The chain, counted from 0 as declared.
    pub(crate) chain: u32,
    /// Has its latest stage no branch yet? Then it is not yet in `stages`.
    pub(crate) opened: bool,
    /// The branches of its stages.
    pub(crate) stages: Items<Items<Branch>>,
}

/// Opens a stage in the latest chain.
#[tactic(auto, using(crate::proofs::Latest::changed))]
pub(crate) fn with_stage(listed: Items<Listed>) -> Result<Items<Listed>, AllocError>
    ensures { IfOk result (λ more. more ≡ change_latest with_stage listed) }
{
    let mut listed = listed.into_vec();
    match listed.pop() {
        None => Ok(Items::new(listed)),
        Some(latest) => {
            listed.push(opened(latest))?;
            Ok(Items::new(listed))
        }
    }
}

fn opened(listed: Listed) -> Listed
    ensures { result ≡ with_stage listed }
{
    let Listed {
        chain,
        opened: _,
        stages,
    } = listed;
    Listed {
        chain,
        opened: true,
        stages,
    }
}

/// Adds a branch to the latest stage of the latest chain.
#[tactic(auto, using(crate::proofs::Latest::changed))]
pub(crate) fn with_branch(
    alloc: Global,
    listed: Items<Listed>,
    branch: Branch,
) -> Result<Items<Listed>, AllocError>
    ensures { IfOk result (λ more. more ≡ change_latest (with_branch branch) listed) }
{
    let mut listed = listed.into_vec();
    match listed.pop() {
        None => Ok(Items::new(listed)),
        Some(latest) => {
            listed.push(grown(alloc, latest, branch)?)?;
            Ok(Items::new(listed))
        }
    }
}

fn grown(alloc: Global, listed: Listed, branch: Branch) -> Result<Listed, AllocError>
    ensures { IfOk result (λ l. l ≡ with_branch branch listed) }
{
    let Listed {
        chain,
        opened,
        stages,
    } = listed;
    Ok(Listed {
        chain,
        opened: false,
        stages: stages_with(alloc, opened, stages, branch)?,
    })
}

fn stages_with(
    alloc: Global,
    opened: bool,
    stages: Items<Items<Branch>>,
    branch: Branch,
) -> Result<Items<Items<Branch>>, AllocError>
    ensures { IfOk result (λ more. more ≡ stages_with opened stages branch) }
{
    if opened {
        with_new_stage(alloc, stages, branch)
    } else {
        with_branch_in_latest(stages, branch)
    }
}

fn with_new_stage(
    alloc: Global,
    stages: Items<Items<Branch>>,
    branch: Branch,
) -> Result<Items<Items<Branch>>, AllocError>
    ensures { IfOk result (λ more. more ≡ stages ++ (branch ∷ []) ∷ []) }
{
    let mut stages = stages;
    let mut branches = Items::new(Vec::new(alloc));
    branches.push(branch)?;
    stages.push(branches)?;
    Ok(stages)
}

#[tactic(auto, using(crate::proofs::Latest::changed))]
fn with_branch_in_latest(
    stages: Items<Items<Branch>>,
    branch: Branch,
) -> Result<Items<Items<Branch>>, AllocError>
    ensures { IfOk result (λ more. more ≡ change_latest (with_branch_in branch) stages) }
{
    let mut stages = stages.into_vec();
    match stages.pop() {
        None => Ok(Items::new(stages)),
        Some(latest) => {
            stages.push(with_branch_in(latest, branch)?)?;
            Ok(Items::new(stages))
        }
    }
}

fn with_branch_in(branches: Items<Branch>, branch: Branch) -> Result<Items<Branch>, AllocError>
    ensures { IfOk result (λ more. more ≡ with_branch_in branch branches) }
{
    let mut branches = branches;
    branches.push(branch)?;
    Ok(branches)
}
