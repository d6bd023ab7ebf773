//! The functions of a chain, in chain order.
ghost use Rattle.std.specs.Prelude.{◌≡◌, ◌<◌, ◌≤◌, length, All, IfOk};
ghost use Rattle.plan_text.specs.Plan.{profile_in, profiles_in, is_whole_at, name_in};

use action_profile::{Profile, profile};
use policy_text::{FunctionDecl, name_at};
use std::alloc::{AllocError, Global};

/// The profiles of the functions in chain order. `order` counts the functions from 0 as declared.
pub(crate) fn profiles_in(
    alloc: Global,
    functions: &[FunctionDecl],
    order: &[u32],
) -> Result<Vec<Profile>, AllocError>
    requires { All (λ p. p < length functions.now) order.now }
    ensures { IfOk result (λ profiles. profiles.items ≡ profiles_in functions.now order.now) }
{
    let mut profiles = Vec::new(alloc);
    'places: for place in order {
        profiles.push(profile_in(functions, *place))?;
    }
    Ok(profiles)
}

fn profile_in(functions: &[FunctionDecl], place: u32) -> Profile
    requires { place < length functions.now }
    ensures { result ≡ profile_in functions.now place }
{
    profile(functions[place as usize].kind)
}

/// Does the function at a place rewrite packets whole?
pub(crate) fn is_whole_at(functions: &[FunctionDecl], place: u32) -> bool
    ensures { result ≡ is_whole_at functions.now place }
{
    match functions.get(place as usize) {
        Some(function) => profile(function.kind).whole,
        None => false,
    }
}

/// The name of the function at a position of the chain, counted from 1; empty past its end.
pub(crate) fn name_in<'a>(functions: &'a [FunctionDecl], order: &[u32], position: u32) -> &'a [u8]
    ensures { result.now ≡ name_in functions.now order.now position }
{
    match order.get((position as usize).saturating_sub(1)) {
        Some(place) => name_at(functions, *place),
        None => &[],
    }
}
