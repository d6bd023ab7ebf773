//! The cycle that is named if functions remain and none can be taken.

ghost use Rattle.std.specs.Prelude.{◌≡◌, ◌<◌, ◌≤◌, ◌^◌, ◌==◌, Some, None, nat_le, take_while, not, suc, [], reverse, length, find, true, IfOk, IfSome};
ghost use Rattle.std.specs.List.{list_any, list_all};
ghost use Rattle.policy_check.specs.Cycles.{predecessor, up_to, cycle_back, earliest_place, from_earliest, named_cycle};
ghost use Rattle.policy_check.specs.Edges.{edges_of};
ghost use Rattle.policy_check.specs.Turns.{ready};
ghost use Rattle.policy_check.specs.Waiting.{waits};

use crate::edges::has_edge;
use policy_text::Statement;
use std::alloc::{AllocError, Global};

/// The earliest declared function that waits.
#[tactic(auto, using(crate::proofs::WaitingLemmas::waits_first, crate::proofs::WaitingLemmas::waits_no_first))]
pub(crate) fn earliest(waiting: &[bool]) -> Option<u32>
    requires { length waiting.now < 2 ^ 32 }
    ensures { result ≡ find (λ x. true) (waits waiting.now) }
{
    for x in 0..waiting.len() as u32 {
        if waiting[x as usize] {
            return Some(x);
        }
    }
    None
}

/// The cycle found by going back from the earliest declared of the functions that remain.
pub(crate) fn named_cycle(
    alloc: Global,
    statements: &[Statement],
    left: &[bool],
    start: u32,
) -> Result<Vec<u32>, AllocError>
    requires few { length left.now < 2 ^ 32 }
    requires stuck { ready (edges_of statements.now) (waits left.now) ≡ None }
    requires start { find (λ x. true) (waits left.now) ≡ Some start }
    ensures { IfOk result (λ cycle. cycle.items ≡ named_cycle (edges_of statements.now) (waits left.now)) }
{
    let mut cycle = cycle_back(alloc, statements, left, start)?;
    let place = earliest_place(&cycle);
    cycle.rotate_left(place);
    Ok(cycle)
}

// Goes back, each time to the earliest declared predecessor, until a function comes again.
fn cycle_back(
    alloc: Global,
    statements: &[Statement],
    left: &[bool],
    start: u32,
) -> Result<Vec<u32>, AllocError>
    requires few { length left.now < 2 ^ 32 }
    requires stuck { ready (edges_of statements.now) (waits left.now) ≡ None }
    requires start { find (λ x. true) (waits left.now) ≡ Some start }
    ensures { IfOk result (λ cycle. cycle.items ≡ cycle_back (edges_of statements.now) (waits left.now) (suc (length (waits left.now))) start []) }
{
    let mut trail = Vec::new(alloc);
    let mut at = start;
    'back: while !trail.contains(&at) {
        trail.push(at)?;
        at = predecessor(statements, left, at).unwrap();
    }
    up_to(alloc, at, &trail)
}

// The earliest declared predecessor that remains.
#[tactic(auto, using(crate::proofs::WaitingLemmas::waits_first, crate::proofs::WaitingLemmas::waits_no_first))]
fn predecessor(statements: &[Statement], left: &[bool], x: u32) -> Option<u32>
    requires { length left.now < 2 ^ 32 }
    ensures { result ≡ predecessor (edges_of statements.now) (waits left.now) x }
{
    for a in 0..left.len() as u32 {
        if left[a as usize] && has_edge(statements, a, x) {
            return Some(a);
        }
    }
    None
}

// The functions of a trail from the newest back to this function.
fn up_to(alloc: Global, x: u32, trail: &[u32]) -> Result<Vec<u32>, AllocError>
    requires { list_any (λ y. y == x) trail.now ≡ true }
    ensures { IfOk result (λ front. front.items ≡ up_to x (reverse trail.now)) }
{
    let mut front = newer(alloc, x, trail)?;
    front.push(x)?;
    Ok(front)
}

// The functions of a trail that are newer than this function, the newest first.
fn newer(alloc: Global, x: u32, trail: &[u32]) -> Result<Vec<u32>, AllocError>
    ensures { IfOk result (λ front. front.items ≡ take_while (λ y. not (y == x)) (reverse trail.now)) }
{
    trail
        .iter()
        .rev()
        .copied()
        .take_while(|y| *y != x)
        .collect(alloc)
}

// The place of the function before which none in the cycle is declared.
fn earliest_place(cycle: &[u32]) -> usize
    ensures place { result ≡ earliest_place cycle.now }
    ensures within { result ≤ length cycle.now }
{
    cycle
        .iter()
        .position(|x| is_earliest(*x, cycle))
        .unwrap_or(0)
}

fn is_earliest(x: u32, cycle: &[u32]) -> bool
    ensures { result ≡ list_all (λ y. nat_le x y) cycle.now }
{
    cycle.iter().all(|y| x <= *y)
}
