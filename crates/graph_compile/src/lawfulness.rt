//! Whether a graph may replace a chain.

ghost use Rattle.std.specs.Prelude.{◌≡◌, ◌==◌, ◌≤◌, ◌↔◌, suc, length, IsTrue, All, nat_le, nat_lt, count_by};
ghost use Rattle.std.specs.List.{list_any, list_all};
ghost use Rattle.graph_compile.specs.Facts.{rises, positions_of, IsLawful, IsFull};
ghost use Rattle.graph_compile.specs.Judging.{stands_once, stand_once, stand_within, are_below, joins, is_joined, is_above_last, are_in_order, IsSound, AreJudged};
ghost use Rattle.graph_compile.specs.Lawful.{IsStaged};
ghost use Rattle.action_profile.specs.Modes.{has_write, mode_of, modes_of};
ghost use Rattle.graph_compile.specs.Parts.{touches_of, stage_parts};
ghost use Rattle.graph_compile.specs.Positions.{holds, stands};

use crate::graph::{Branch, Graph, Stage};
use crate::handing::{first_writer, is_alone, some_only_reads};
use crate::placing::is_forbidden;
use crate::touching::touch_of;
use action_profile::{Mode, Profile, StageParts, Touch, all_fields};
use packet_fields::Field;

/// Whether a graph may replace a chain. `profiles` are those of the chain, in chain order. Allocates nothing.
///
/// It may if each position from 1 to the number of functions occurs once and no other number occurs, positions rise
/// within each branch, every position of a stage is below every position of the next, the dependency table forbids no
/// function before another in a different branch of its stage, and the parts of each stage are those that its branches
/// need.
pub fn lawful(graph: &Graph, profiles: &[Profile]) -> bool
    ensures facts { IsTrue result ↔ IsLawful graph.now profiles.now }
    // If no stage and no branch is empty, the same stage by stage, each from the position of its first function on.
    ensures staged { IsFull graph.now → IsTrue result ↔ IsStaged profiles.now 1 graph.now.stages (suc (length profiles.now)) }
{
    are_lawful(graph.stages.as_slice(), profiles)
}

fn are_lawful(stages: &[Stage], profiles: &[Profile]) -> bool
    ensures { IsTrue result ↔ AreJudged profiles.now stages.now }
{
    let end = profiles.len() + 1;
    stand_once(stages, end)
        && stand_within(stages, end)
        && are_in_order(stages)
        && are_sound(stages, profiles)
}

// Does each position from 1 up to `end` occur once?
fn stand_once(stages: &[Stage], end: usize) -> bool
    requires { 1 ≤ end }
    ensures { result ≡ stand_once end stages.now }
{
    (1..end).all(|position| stands_once(stages, position))
}

// Does the position occur in one stage, and in one of its branches?
fn stands_once(stages: &[Stage], position: usize) -> bool
    ensures { result ≡ stands_once position stages.now }
{
    holding_stages(stages, position) == 1 && stands_once_at_most(stages, position)
}

fn holding_stages(stages: &[Stage], position: usize) -> usize
    ensures { result ≡ count_by (stands position) stages.now }
{
    stages
        .iter()
        .filter(|stage| stands(stage.branches.as_slice(), position))
        .count()
}

fn stands_once_at_most(stages: &[Stage], position: usize) -> bool
    ensures { result ≡ list_all (λ s. nat_le (count_by (holds position) s.branches) 1) stages.now }
{
    stages.iter().all(|stage| holding_branches(stage.branches.as_slice(), position) <= 1)
}

fn holding_branches(branches: &[Branch], position: usize) -> usize
    ensures { result ≡ count_by (holds position) branches.now }
{
    branches
        .iter()
        .filter(|branch| holds(branch, position))
        .count()
}

fn stand_within(stages: &[Stage], end: usize) -> bool
    ensures { result ≡ stand_within end stages.now }
{
    let branches = stages.iter().flat_map(|stage| stage.branches.as_slice());
    branches
        .flat_map(|branch| branch.positions.as_slice())
        .all(|q| 1 <= *q && (*q as usize) < end)
}

// Is every position of a stage below every position of the next?
fn are_in_order(stages: &[Stage]) -> bool
    ensures { result ≡ are_in_order stages.now }
{
    (1..stages.len()).all(|index| is_above_last(stages, index))
}

fn is_above_last(stages: &[Stage], index: usize) -> bool
    ensures { result ≡ is_above_last stages.now index }
{
    match (stages.get(index.saturating_sub(1)), stages.get(index)) {
        (Some(last), Some(stage)) => {
            are_below(last.branches.as_slice(), stage.branches.as_slice())
        }
        _ => true,
    }
}

fn are_below(branches: &[Branch], others: &[Branch]) -> bool
    ensures { result ≡ are_below branches.now others.now }
{
    branches
        .iter()
        .flat_map(|branch| branch.positions.as_slice())
        .all(|q| is_below(*q, others))
}

fn is_below(position: u32, branches: &[Branch]) -> bool
    ensures { result ≡ list_all (λ r. nat_lt position r) (positions_of branches.now) }
{
    branches
        .iter()
        .flat_map(|branch| branch.positions.as_slice())
        .all(|r| position < *r)
}

fn are_sound(stages: &[Stage], profiles: &[Profile]) -> bool
    ensures { IsTrue result ↔ All (IsSound profiles.now) stages.now }
{
    stages.iter().all(|stage| is_sound(stage, profiles))
}

fn is_sound(stage: &Stage, profiles: &[Profile]) -> bool
    ensures { IsTrue result ↔ IsSound profiles.now stage.now }
{
    let branches = stage.branches.as_slice();
    are_rising(branches)
        && are_joined(profiles, branches)
        && are_parts(&stage.parts, profiles, branches)
}

fn are_rising(branches: &[Branch]) -> bool
    ensures { result ≡ list_all (λ b. rises 0 b.positions) branches.now }
{
    branches
        .iter()
        .all(|branch| rises(branch.positions.as_slice()))
}

fn rises(positions: &[u32]) -> bool
    ensures { result ≡ rises 0 positions.now }
{
    let mut low = 0;
    'positions: for position in positions {
        let position = *position as usize;
        if position < low {
            return false;
        }
        low = position + 1;
    }
    true
}

fn are_joined(profiles: &[Profile], branches: &[Branch]) -> bool
    ensures { result ≡ list_all (is_joined profiles.now branches.now) branches.now }
{
    branches
        .iter()
        .all(|branch| is_joined(profiles, branches, branch))
}

fn is_joined(profiles: &[Profile], branches: &[Branch], branch: &Branch) -> bool
    ensures { result ≡ is_joined profiles.now branches.now branch.now }
{
    let positions = branch.positions.as_slice();
    positions
        .iter()
        .all(|r| joins(profiles, branches, branch, *r as usize))
}

// Does the branch hold each function of its stage that is forbidden before the function at `position`?
fn joins(profiles: &[Profile], branches: &[Branch], branch: &Branch, position: usize) -> bool
    ensures { result ≡ joins profiles.now branches.now branch.now position }
{
    (0..position).all(|q| {
        !is_forbidden(profiles, q, position) || holds(branch, q) || !stands(branches, q)
    })
}

/// Is the function at this position, counted from 1, in one of the branches? Allocates nothing.
pub fn stands(branches: &[Branch], position: usize) -> bool
    ensures { result ≡ list_any (holds position) branches.now }
{
    branches.iter().any(|branch| holds(branch, position))
}

fn holds(branch: &Branch, position: usize) -> bool
    ensures { result ≡ holds position branch.now }
{
    let positions = branch.positions.as_slice();
    positions.iter().any(|q| *q as usize == position)
}

#[tactic(auto, unfolding(crate::specs::Parts::stage_parts))]
fn are_parts(parts: &StageParts, profiles: &[Profile], branches: &[Branch]) -> bool
    ensures { IsTrue result ↔ (parts.now ≡ stage_parts profiles.now branches.now) }
{
    let touches = parts.touches.as_slice();
    are_touches(touches, profiles, branches) && are_modes(&parts.modes, touches)
}

fn are_touches(touches: &[Touch], profiles: &[Profile], branches: &[Branch]) -> bool
    ensures { IsTrue result ↔ (touches.now ≡ touches_of profiles.now branches.now) }
{
    if touches.len() != branches.len() {
        return false;
    }
    'branches: for (index, branch) in branches.iter().enumerate() {
        if touches[index] != touch_of(profiles, branch) {
            return false;
        }
    }
    true
}

fn are_modes(modes: &[Mode; 10], touches: &[Touch]) -> bool
    ensures { IsTrue result ↔ (modes.now ≡ modes_of touches.now) }
{
    'fields: for (index, field) in all_fields().iter().enumerate() {
        if !is_mode(modes[index], touches, *field) {
            return false;
        }
    }
    true
}

// Is it the mode of the field? A branch's number may be too great for a mode.
#[tactic(auto, unfolding(action_profile::specs::Modes::mode_of))]
fn is_mode(mode: Mode, touches: &[Touch], field: Field) -> bool
    ensures { IsTrue result ↔ (mode ≡ mode_of touches.now field) }
{
    let Some(first) = first_writer(touches, field) else {
        return mode == Mode::Shared;
    };
    let alone = is_alone(touches, field);
    match mode {
        Mode::Shared => false,
        Mode::Moved(branch) => alone && branch as usize == first,
        Mode::Copied { original: None } => !alone && some_only_reads(touches, field),
        Mode::Copied {
            original: Some(branch),
        } => !alone && !some_only_reads(touches, field) && branch as usize == first,
    }
}
