//! Where functions are in stages of branches.

ghost use Rattle.std.specs.Prelude.{◌≡◌, ◌==◌};
ghost use Rattle.std.specs.List.{list_any};
ghost use Rattle.graph_compile.specs.Positions.{holds};
ghost use Rattle.graph_text.specs.Standing.{is_in, is_placed, repeats, stands_twice, leads, leads_in, comes_before, are_beside_in, are_beside};

use graph_compile::Branch;
use item_list::Items;

/// Is a position in some stage?
pub(crate) fn is_placed(stages: &[Items<Branch>], position: usize) -> bool
    ensures { result ≡ is_placed position stages.now }
{
    stages.iter().any(|stage| is_in(stage.as_slice(), position))
}

fn is_in(branches: &[Branch], position: usize) -> bool
    ensures { result ≡ is_in position branches.now }
{
    branches.iter().any(|branch| holds(branch, position))
}

fn holds(branch: &Branch, position: usize) -> bool
    ensures { result ≡ holds position branch.now }
{
    has(branch.positions.as_slice(), position)
}

fn has(positions: &[u32], position: usize) -> bool
    ensures { result ≡ list_any (λ q. q == position) positions.now }
{
    positions.iter().any(|q| *q as usize == position)
}

/// Is one of these positions placed already, or listed twice?
pub(crate) fn stands_twice(stages: &[Items<Branch>], positions: &[u32]) -> bool
    ensures { result ≡ stands_twice stages.now positions.now }
{
    stand_already(stages, positions) || repeats(positions)
}

fn stand_already(stages: &[Items<Branch>], positions: &[u32]) -> bool
    ensures { result ≡ list_any (λ p. is_placed p stages.now) positions.now }
{
    positions.iter().any(|p| is_placed(stages, *p as usize))
}

fn repeats(positions: &[u32]) -> bool
    ensures { result ≡ repeats positions.now }
{
    let mut rest = positions;
    'rest: while let Some((first, behind)) = rest.split_first() {
        if has(behind, *first as usize) {
            return true;
        }
        rest = behind;
    }
    false
}

/// Is a position in an earlier stage than another, or before it in one branch?
pub(crate) fn comes_before(stages: &[Items<Branch>], first: usize, second: usize) -> bool
    ensures { result ≡ comes_before first second stages.now }
{
    stage_leads(stages, first, second) || leads_in_some(stages, first, second)
}

fn stage_leads(stages: &[Items<Branch>], first: usize, second: usize) -> bool
    ensures { result ≡ leads (is_in first) (is_in second) stages.now }
{
    let mut rest = stages;
    'rest: while let Some((stage, behind)) = rest.split_first() {
        if is_in(stage.as_slice(), first) && is_placed(behind, second) {
            return true;
        }
        rest = behind;
    }
    false
}

fn leads_in_some(stages: &[Items<Branch>], first: usize, second: usize) -> bool
    ensures { result ≡ list_any (list_any (leads_in first second)) stages.now }
{
    stages
        .iter()
        .any(|stage| leads_in_stage(stage.as_slice(), first, second))
}

fn leads_in_stage(branches: &[Branch], first: usize, second: usize) -> bool
    ensures { result ≡ list_any (leads_in first second) branches.now }
{
    branches.iter().any(|branch| leads_in(branch.positions.as_slice(), first, second))
}

fn leads_in(positions: &[u32], first: usize, second: usize) -> bool
    ensures { result ≡ leads (λ x. x == first) (λ x. x == second) positions.now }
{
    let mut rest = positions;
    'rest: while let Some((position, behind)) = rest.split_first() {
        if *position as usize == first && has(behind, second) {
            return true;
        }
        rest = behind;
    }
    false
}

/// Are two positions in different branches of one stage?
pub(crate) fn are_beside(stages: &[Items<Branch>], first: usize, second: usize) -> bool
    ensures { result ≡ are_beside first second stages.now }
{
    stages
        .iter()
        .any(|stage| are_beside_in(stage.as_slice(), first, second))
}

fn are_beside_in(branches: &[Branch], first: usize, second: usize) -> bool
    ensures { result ≡ are_beside_in first second branches.now }
{
    branch_leads(branches, first, second) || branch_leads(branches, second, first)
}

fn branch_leads(branches: &[Branch], first: usize, second: usize) -> bool
    ensures { result ≡ leads (holds first) (holds second) branches.now }
{
    let mut rest = branches;
    'rest: while let Some((branch, behind)) = rest.split_first() {
        if holds(branch, first) && is_in(behind, second) {
            return true;
        }
        rest = behind;
    }
    false
}
