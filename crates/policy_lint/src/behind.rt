//! Functions that stand behind others in the order of their chain. A place is that of a function as declared, counted from 0.
ghost use Rattle.std.specs.Prelude.{◌≡◌, ◌++◌, map, find, OnOk, IfOk};
ghost use Rattle.std.specs.Option.{option_copied, option_to_list};
ghost use Rattle.std.specs.List.{list_any};
ghost use Rattle.policy_lint.specs.Behind.{is_at, line_at, told_unreached, unreached, writes_source, is_limiter, limits, is_whole, told_behind, limited_behind};
ghost use Rattle.policy_lint.specs.Firewalls.{drops_all};

use crate::asking::push_one;
use crate::finding::Finding;
use crate::firewalls::drops_all;
use action_profile::{Kind, profile};
use item_list::Items;
use packet_fields::Field;
use policy_text::FunctionDecl;
use std::alloc::{AllocError, Global};

/// Adds the functions behind the first that drops every packet.
#[tactic(auto, using(crate::proofs::Steps::none_first, crate::proofs::Steps::none_more, crate::proofs::Steps::some_here, crate::proofs::Steps::none_at_all))]
pub fn push_unreached(
    alloc: Global,
    found: &mut Items<Finding>,
    functions: &[FunctionDecl],
    order: &[u32],
) -> Result<(), AllocError>
    ensures { OnOk result (found.new ≡ found.old ++ unreached functions.now order.now) }
{
    'order: for at in 0..order.len() {
        if drops_at(alloc, functions, order[at])? {
            return push_behind(found, functions, order[at], &order[at + 1..]);
        }
    }
    Ok(())
}

fn push_behind(
    found: &mut Items<Finding>,
    functions: &[FunctionDecl],
    dropper: u32,
    places: &[u32],
) -> Result<(), AllocError>
    ensures { OnOk result (found.new ≡ found.old ++ map (told_unreached functions.now dropper) places.now) }
{
    'places: for place in places {
        found.push(told_unreached(functions, dropper, *place))?;
    }
    Ok(())
}

fn told_unreached(functions: &[FunctionDecl], dropper: u32, place: u32) -> Finding
    ensures { result ≡ told_unreached functions.now dropper place }
{
    let line = line_at(functions, place);
    let by = line_at(functions, dropper);
    Finding::NeverReached { line, by }
}

fn drops_at(alloc: Global, functions: &[FunctionDecl], place: u32) -> Result<bool, AllocError>
    ensures { IfOk result (λ drops. drops ≡ is_at drops_all functions.now place) }
{
    match functions.get(place as usize) {
        Some(decl) => drops_all(alloc, decl),
        None => Ok(false),
    }
}

/// The line of the function at a place, 0 past the last.
pub fn line_at(functions: &[FunctionDecl], place: u32) -> u32
    ensures { result ≡ line_at functions.now place }
{
    match functions.get(place as usize) {
        Some(decl) => decl.line,
        None => 0,
    }
}

/// Adds the limiters that stand behind what writes sources.
#[tactic(auto, using(crate::proofs::Steps::begins, crate::proofs::Steps::ends))]
pub fn push_limited(
    found: &mut Items<Finding>,
    functions: &[FunctionDecl],
    order: &[u32],
) -> Result<(), AllocError>
    ensures { OnOk result (found.new ≡ found.old ++ limited_behind functions.now order.now) }
{
    'order: for at in 0..order.len() {
        push_one(found, told_behind(functions, &order[..at], order[at]))?;
    }
    Ok(())
}

fn told_behind(functions: &[FunctionDecl], before: &[u32], place: u32) -> Option<Finding>
    ensures { result ≡ told_behind functions.now before.now place }
{
    if !limits_at(functions, place) || has_whole(functions, before) {
        return None;
    }
    let writer = writer_in(functions, before)?;
    let line = line_at(functions, place);
    let by = line_at(functions, writer);
    Some(Finding::LimiterBehind { line, by })
}

/// Does the function at one of these places rewrite packets whole?
pub fn has_whole(functions: &[FunctionDecl], places: &[u32]) -> bool
    ensures { result ≡ list_any (is_at is_whole functions.now) places.now }
{
    places.iter().any(|place| is_whole_at(functions, *place))
}

/// Does the function at a place rewrite packets whole?
pub fn is_whole_at(functions: &[FunctionDecl], place: u32) -> bool
    ensures { result ≡ is_at is_whole functions.now place }
{
    match functions.get(place as usize) {
        Some(decl) => profile(decl.kind).whole,
        None => false,
    }
}

// The first of these places whose function writes sources.
fn writer_in(functions: &[FunctionDecl], places: &[u32]) -> Option<u32>
    ensures { result ≡ find (is_at writes_source functions.now) places.now }
{
    places
        .iter()
        .copied()
        .find(|place| writes_source_at(functions, *place))
}

fn writes_source_at(functions: &[FunctionDecl], place: u32) -> bool
    ensures { result ≡ is_at writes_source functions.now place }
{
    match functions.get(place as usize) {
        Some(decl) => profile(decl.kind).writes_field(Field::SrcIp),
        None => false,
    }
}

fn limits_at(functions: &[FunctionDecl], place: u32) -> bool
    ensures { result ≡ is_at limits functions.now place }
{
    match functions.get(place as usize) {
        Some(decl) => is_limiter(decl.kind),
        None => false,
    }
}

pub fn is_limiter(kind: Kind) -> bool
    ensures { result ≡ is_limiter kind }
{
    matches!(kind, Kind::Limiter)
}
