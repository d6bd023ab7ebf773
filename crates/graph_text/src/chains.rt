//! The chains of a policy, each with its order.

ghost use Rattle.std.specs.Prelude.{◌≡◌, ◌<◌, ◌≤◌, ◌==◌, length, All, IfOk, IfSome, position};
ghost use Rattle.std.specs.Option.{option_map};
ghost use Rattle.policy_text.specs.Grammar.{is_function};
ghost use Rattle.graph_text.specs.Chains.{chain_named, functions_at, order_at, profile_in, profiles_in, has_whole, position_of, position_named, positions_named, declared};

use action_profile::{Profile, profile};
use policy_check::Order;
use policy_text::{ChainPolicy, FunctionDecl, WordSpan};
use std::alloc::{AllocError, Global};

/// The chain of this name, counted from 0 as declared.
pub(crate) fn chain_named(chains: &[ChainPolicy], name: &[u8]) -> Option<u32>
    requires { length chains.now ≤ 16 }
    ensures { result ≡ chain_named chains.now name.now }
{
    match place_of_chain(chains, name) {
        None => None,
        Some(place) => Some(place as u32),
    }
}

fn place_of_chain(chains: &[ChainPolicy], name: &[u8]) -> Option<usize>
    ensures found { result ≡ chain_named chains.now name.now }
    ensures within { IfSome result (λ place. place < length chains.now) }
{
    chains.iter().position(|chain| chain.name.bytes() == name)
}

/// The functions of the chain at a place, counted from 0, as they are declared; the empty list past the last chain.
pub fn functions_at(chains: &[ChainPolicy], place: u32) -> &[FunctionDecl]
    ensures { result.now ≡ functions_at chains.now place }
{
    match chains.get(place as usize) {
        None => &[],
        Some(chain) => chain.functions.as_slice(),
    }
}

/// The functions of the chain at a place, counted from 0 as declared, in the chain's order.
pub(crate) fn order_at(orders: &[Order], place: u32) -> &[u32]
    ensures { result.now ≡ order_at orders.now place }
{
    match orders.get(place as usize) {
        None => &[],
        Some(order) => order.positions.as_slice(),
    }
}

/// The profiles of functions, in this order.
pub(crate) fn profiles_in(
    alloc: Global,
    functions: &[FunctionDecl],
    order: &[u32],
) -> Result<Vec<Profile>, AllocError>
    requires { All (λ p. p < length functions.now) order.now }
    ensures { IfOk result (λ profiles. profiles.items ≡ profiles_in functions.now order.now) }
{
    let mut profiles = Vec::new(alloc);
    'places: for place in order {
        profiles.push(profile_in(functions, *place))?;
    }
    Ok(profiles)
}

fn profile_in(functions: &[FunctionDecl], place: u32) -> Profile
    requires { place < length functions.now }
    ensures { result ≡ profile_in functions.now place }
{
    profile(functions[place as usize].kind)
}

/// Does some function work on the frame as a whole?
pub(crate) fn has_whole(functions: &[FunctionDecl]) -> bool
    ensures { result ≡ has_whole functions.now }
{
    functions
        .iter()
        .any(|function| profile(function.kind).whole)
}

// The position in the chain, counted from 1, of the function at a place.
fn position_of(order: &[u32], place: usize) -> Option<u32>
    requires { length order.now ≤ 64 }
    ensures { result ≡ position_of order.now place }
{
    match index_of(order, place) {
        None => None,
        Some(index) => Some(index as u32 + 1),
    }
}

fn index_of(order: &[u32], place: usize) -> Option<usize>
    ensures found { result ≡ position (λ f. f == place) order.now }
    ensures within { IfSome result (λ index. index < length order.now) }
{
    order
        .iter()
        .position(|function| *function as usize == place)
}

// The position in the chain, counted from 1, of the function of this name.
fn position_named(functions: &[FunctionDecl], order: &[u32], name: &[u8]) -> Option<u32>
    requires { length order.now ≤ 64 }
    ensures { result ≡ position_named functions.now order.now name.now }
{
    position_of(order, place_named(functions, name)?)
}

fn place_named(functions: &[FunctionDecl], name: &[u8]) -> Option<usize>
    ensures { result ≡ position (is_function name.now) functions.now }
{
    functions
        .iter()
        .position(|function| function.name.bytes() == name)
}

/// The positions of the functions that these words name.
pub(crate) fn positions_named(
    alloc: Global,
    functions: &[FunctionDecl],
    order: &[u32],
    words: &[WordSpan<'_>],
) -> Result<Option<Vec<u32>>, AllocError>
    requires { length order.now ≤ 64 }
    ensures { IfOk result (λ o. option_map (λ v. v.items) o ≡ positions_named functions.now order.now words.now) }
{
    let mut positions = Vec::new(alloc);
    'words: for word in words {
        let Some(position) = position_named(functions, order, word.text()) else {
            return Ok(None);
        };
        positions.push(position)?;
    }
    Ok(Some(positions))
}

/// The function at a position, counted from 0 as declared.
pub(crate) fn declared(order: &[u32], position: usize) -> u32
    ensures { result ≡ declared order.now position }
{
    match order.get(position.saturating_sub(1)) {
        None => 0,
        Some(function) => *function,
    }
}
