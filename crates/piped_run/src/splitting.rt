//! Takes the functions of a branch out of their places.
ghost use Rattle.std.specs.Prelude.{◌≡◌, ◌≤◌, ◌-◌, ◌++◌, ℕ, List, None, Some, length, map, slice_set, IfOk, OnOk};
ghost use Rattle.burst_law.specs.Owned.{owned};
ghost use Rattle.piped_run.specs.Places.{AreThere, at_place};

use std::alloc::{AllocError, Global};
use std::mem;

/// Each function in a place of its own.
pub(crate) fn places_of<F: Drop>(
    alloc: Global,
    functions: Vec<F>,
) -> Result<Vec<Option<F>>, AllocError>
    ensures { IfOk result (λ places. places.items ≡ map (λ f. Some f) functions.items) }
{
    functions.into_iter().map(|f| Some(f)).collect(alloc)
}

/// Takes the functions at these positions out of their places.
pub(crate) fn split_branch<F: Drop>(
    alloc: Global,
    positions: &[u32],
    places: &mut [Option<F>],
) -> Result<Vec<F>, AllocError>
    requires there { (functions : List F) × (later : List ℕ) × AreThere functions places.old (positions.now ++ later) }
    ensures own { (functions : List F) (later : List ℕ) → AreThere functions places.old (positions.now ++ later) → IfOk result (λ own. own.items ≡ owned positions.now functions) }
    ensures left { (functions : List F) (later : List ℕ) → AreThere functions places.old (positions.now ++ later) → OnOk result (AreThere functions places.new later) }
{
    let mut own = Vec::with_capacity(alloc, positions.len())?;
    for position in positions {
        if let Some(function) = take_at(places, *position) {
            own.push(function)?;
        }
    }
    Ok(own)
}

/// Takes the content of the place of a position, which is empty afterwards.
fn take_at<F: Drop>(places: &mut [Option<F>], position: u32) -> Option<F>
    requires first { 1 ≤ position }
    requires last { position ≤ length places.old }
    ensures taken { result ≡ at_place places.old (position - 1) }
    ensures left { places.new ≡ slice_set places.old (position - 1) None }
{
    mem::replace(&mut places[position as usize - 1], None)
}
