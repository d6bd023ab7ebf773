//! The parts of a chain, of functions that are taken out of those that were made.
ghost use Rattle.std.specs.Prelude.{◌≡◌, ◌<◌, ◌≤◌, All, IfOk, OnOk, IsPermutation, length, map, slice_get};
ghost use Rattle.std.specs.List.{range_with_len};
ghost use Rattle.policy_judge.specs.Making.{place_of};
ghost use Rattle.policy_chains.specs.Cutting.{GoesOn, with_declared};
ghost use Rattle.policy_chains.specs.Parts.{parts_of};
ghost use Rattle.policy_chains.specs.Services.{pieces_at};
ghost use Rattle.policy_chains.specs.Taking.{without};

use crate::cutting::Cutting;
use crate::part::ChainPart;
use crate::parts::ChainParts;
use net_functions::Made;
use policy_text::{FunctionDecl, Name};
use std::alloc::{AllocError, Global};

/// The parts of the functions that are declared at these places, each taken out of those that were made. No place
/// occurs twice, so each function is found.
#[tactic(auto, using(crate::proofs::Counted::few_parts))]
pub fn chain_parts(
    alloc: Global,
    declared: &[FunctionDecl],
    places: &[u32],
    made: Vec<Option<Made>>,
) -> Result<ChainParts, AllocError>
    requires each_once { IsPermutation (range_with_len 0 (length declared.now)) places.now }
    requires inside { All (λ p. p < length declared.now) places.now }
    requires few { length places.now ≤ 64 }
    requires made { made.items ≡ map place_of declared.now }
    ensures { IfOk result (λ parts. parts_of parts ≡ pieces_at declared.now places.now) }
{
    let parts = taken_parts(alloc, declared, places, made)?;
    Ok(ChainParts::new(parts))
}

// The same parts one by one.
#[tactic(auto, using(crate::proofs::CutSoFar::cutting_begins, crate::proofs::CutSoFar::cutting_goes_on, crate::proofs::CutSoFar::cutting_ends))]
fn taken_parts(
    alloc: Global,
    declared: &[FunctionDecl],
    places: &[u32],
    made: Vec<Option<Made>>,
) -> Result<Vec<ChainPart>, AllocError>
    requires each_once { IsPermutation (range_with_len 0 (length declared.now)) places.now }
    requires inside { All (λ p. p < length declared.now) places.now }
    requires made { made.items ≡ map place_of declared.now }
    ensures { IfOk result (λ parts. parts_of parts.items ≡ pieces_at declared.now places.now) }
{
    let mut made = made;
    let mut cutting = Cutting::new(alloc);
    'places: for place in places {
        cutting = with_place(alloc, cutting, declared, &mut made, *place as usize)?;
    }
    cutting.into_parts()
}

// Takes the function that was made for a place, and adds it with its name.
#[tactic(auto, using(crate::proofs::Taking::is_there, crate::proofs::Taking::goes_on_so))]
fn with_place(
    alloc: Global,
    cutting: Cutting,
    declared: &[FunctionDecl],
    made: &mut [Option<Made>],
    place: usize,
) -> Result<Cutting, AllocError>
    requires inside { place < length declared.now }
    requires as_long { length made.old ≡ length declared.now }
    requires untaken { slice_get made.old place ≡ slice_get (map place_of declared.now) place }
    ensures goes_on { IfOk result (λ new. GoesOn cutting new (with_declared declared.now place)) }
    ensures taken { OnOk result (made.new ≡ without made.old place) }
{
    let name = Name::new(declared[place].name.bytes().to_vec(alloc)?);
    match made[place].take() {
        Some(function) => cutting.with(alloc, name, function),
        None => unreachable!(),
    }
}
