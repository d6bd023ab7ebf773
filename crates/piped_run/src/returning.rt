//! Moves functions back from the branches that own them.
ghost use Rattle.std.specs.Prelude.{◌≡◌, ◌≤◌, ◌-◌, ◌++◌, ℕ, List, None, Some, length, map, replicate, filter_map, slice_set, IfOk};
ghost use Rattle.graph_compile.specs.Facts.{positions_of};
ghost use Rattle.burst_law.specs.Owned.{owned, owned_in, owned_by};
ghost use Rattle.piped_run.specs.Places.{AreBack};
ghost use Rattle.piped_run.specs.Standing.{EachStands};

use graph_compile::{Branch, Stage};
use std::alloc::{AllocError, Global};

/// The `count` functions of a chain, in chain order, from the branches that own them.
pub(crate) fn put_together<F: Drop>(
    alloc: Global,
    stages: &[Stage],
    count: usize,
    owned: Vec<Vec<Vec<F>>>,
) -> Result<Vec<F>, AllocError>
    requires stands { EachStands stages.now count }
    requires owned { (functions : List F) × (length functions ≡ count) × (map (λ own. map (λ v. v.items) own.items) owned.items ≡ owned_by stages.now functions) }
    ensures { (functions : List F) → length functions ≡ count → map (λ own. map (λ v. v.items) own.items) owned.items ≡ owned_by stages.now functions →
        IfOk result (λ together. together.items ≡ functions) }
{
    let mut places = empty_places(alloc, count)?;
    let mut index = 0;
    for own in owned {
        put_stage(stages[index].branches.as_slice(), own, &mut places);
        index += 1;
    }
    functions_in(alloc, places)
}

/// This number of empty places.
fn empty_places<F: Drop>(alloc: Global, count: usize) -> Result<Vec<Option<F>>, AllocError>
    ensures { IfOk result (λ places. places.items ≡ replicate count None) }
{
    let mut places = Vec::with_capacity(alloc, count)?;
    for _place in 0..count {
        places.push(None)?;
    }
    Ok(places)
}

/// Puts the functions of a stage back in their places.
fn put_stage<F: Drop>(branches: &[Branch], own: Vec<Vec<F>>, places: &mut [Option<F>])
    requires { (functions : List F) × (later : List ℕ) × AreBack functions places.old (positions_of branches.now ++ later) × (map (λ v. v.items) own.items ≡ owned_in branches.now functions) }
    ensures { (functions : List F) (later : List ℕ) → AreBack functions places.old (positions_of branches.now ++ later) → map (λ v. v.items) own.items ≡ owned_in branches.now functions → AreBack functions places.new later }
{
    let mut index = 0;
    for functions in own {
        put_branch(branches[index].positions.as_slice(), functions, places);
        index += 1;
    }
}

/// Puts the functions of a branch, which have these positions, back in their places.
fn put_branch<F: Drop>(positions: &[u32], own: Vec<F>, places: &mut [Option<F>])
    requires { (functions : List F) × (later : List ℕ) × AreBack functions places.old (positions.now ++ later) × (own.items ≡ owned positions.now functions) }
    ensures { (functions : List F) (later : List ℕ) → AreBack functions places.old (positions.now ++ later) → own.items ≡ owned positions.now functions → AreBack functions places.new later }
{
    let mut index = 0;
    for function in own {
        put_at(places, positions[index], function);
        index += 1;
    }
}

/// Puts a function in the place of a position.
fn put_at<F: Drop>(places: &mut [Option<F>], position: u32, function: F)
    requires first { 1 ≤ position }
    requires last { position ≤ length places.old }
    ensures { places.new ≡ slice_set places.old (position - 1) (Some function) }
{
    places[position as usize - 1] = Some(function);
}

/// The functions in their places.
fn functions_in<F: Drop>(alloc: Global, places: Vec<Option<F>>) -> Result<Vec<F>, AllocError>
    ensures { IfOk result (λ functions. functions.items ≡ filter_map (λ place. place) places.items) }
{
    places.into_iter().filter_map(|place| place).collect(alloc)
}
