//! Messages go over links in their order, and from one thread to another.
ghost use Rattle.std.specs.Prelude.{◌≡◌, ◌∷◌, []};

use crate::plenty::had;
use ruled_links::{Counts, LinkDue, Putter, Taker, finish, link};
use std::alloc::Global;
use std::marker::Brand;
use std::process::Abort;
use std::sync::Wait;
use std::thread;
use std::thread::Threads;

/// A link on which these three numbers are due.
fn link_of<D: LinkDue<u32>>(
    rt: &impl Abort,
    alloc: Global,
    first: u32,
    second: u32,
    third: u32,
) -> (Putter<u32>, Taker<u32>)
    requires { D.due ≡ first ∷ second ∷ third ∷ [] }
    ensures one_link { result.1.link ≡ result.0.link }
    ensures putter { (result.0.capacity ≡ 3) × (result.0.due ≡ first ∷ second ∷ third ∷ []) × (result.0.put ≡ []) }
    ensures taker { (result.1.due ≡ first ∷ second ∷ third ∷ []) × (result.1.taken ≡ []) }
{
    had(rt, link::<u32, D>(alloc, 3))
}

/// What a link returns before anything was put, and what afterwards.
fn asked_twice(rt: &(impl Abort + Wait), alloc: Global) -> [Option<u32>; 2] {
    let (mut putter, mut taker) = link_of::<Brand>(rt, alloc, 5, 6, 7);
    let before = taker.try_take(rt);
    putter.put(rt, 5);
    [before, taker.try_take(rt)]
}

#[test]
fn a_new_link_is_empty_until_a_number_is_put(rt: HostRuntime) {
    assert_eq!(rt; asked_twice(&rt, rt.alloc()), [None, Some(5)]);
}

/// Puts as many numbers as a link has room for, and takes two of them.
fn all_put_two_taken(rt: &(impl Abort + Wait), alloc: Global) -> ([u32; 2], Counts) {
    let (mut putter, mut taker) = link_of::<Brand>(rt, alloc, 5, 6, 7);
    putter.put(rt, 5);
    putter.put(rt, 6);
    putter.put(rt, 7);
    let taken = [taker.take(rt), taker.take(rt)];
    (taken, finish(putter, taker))
}

#[test]
fn a_link_counts_what_was_put_and_taken(rt: HostRuntime) {
    let (taken, counts) = all_put_two_taken(&rt, rt.alloc());
    assert_eq!(rt; taken, [5, 6]);
    assert_eq!(rt; counts, Counts { put: 3, taken: 2 });
}

/// Asks three times, and waits for each answer before it asks again.
fn ask<R: Wait>(
    rt: &R,
    mut asking: Putter<u32>,
    mut answered: Taker<u32>,
) -> ([u32; 3], Putter<u32>, Taker<u32>)
    requires { (asking.capacity ≡ 3) × (asking.due ≡ 1 ∷ 2 ∷ 3 ∷ []) × (asking.put ≡ []) }
    ensures { (result.1.link ≡ asking.link) × (result.2.link ≡ answered.link) }
{
    asking.put(rt, 1);
    let first = answered.take(rt);
    asking.put(rt, 2);
    let second = answered.take(rt);
    asking.put(rt, 3);
    let third = answered.take(rt);
    ([first, second, third], asking, answered)
}

/// Waits for three questions, and answers each with the number plus ten.
fn answer<R: Wait>(
    rt: &R,
    mut asked: Taker<u32>,
    mut answering: Putter<u32>,
) -> (Taker<u32>, Putter<u32>)
    requires asked { (asked.due ≡ 1 ∷ 2 ∷ 3 ∷ []) × (asked.taken ≡ []) }
    requires answering { (answering.capacity ≡ 3) × (answering.due ≡ 11 ∷ 12 ∷ 13 ∷ []) × (answering.put ≡ []) }
    ensures { (result.0.link ≡ asked.link) × (result.1.link ≡ answering.link) }
{
    let first = asked.take(rt);
    answering.put(rt, first + 10);
    let second = asked.take(rt);
    answering.put(rt, second + 10);
    let third = asked.take(rt);
    answering.put(rt, third + 10);
    (asked, answering)
}

/// One thread asks and another answers, over a link for each way.
fn talk(rt: &(impl Abort + Threads + Wait + Sync), alloc: Global) -> ([u32; 3], Counts, Counts) {
    let (asking, asked) = link_of::<Brand>(rt, alloc, 1, 2, 3);
    let (answering, answered) = link_of::<Brand>(rt, alloc, 11, 12, 13);
    let ((heard, asking, answered), (asked, answering)) = thread::join(
        rt,
        move || -> ([u32; 3], Putter<u32>, Taker<u32>)
            requires { (asking.capacity ≡ 3) × (asking.due ≡ 1 ∷ 2 ∷ 3 ∷ []) × (asking.put ≡ []) }
            ensures { (result.1.link ≡ asking.link) × (result.2.link ≡ answered.link) }
        { ask(rt, asking, answered) },
        move || -> (Taker<u32>, Putter<u32>)
            requires { (asked.due ≡ 1 ∷ 2 ∷ 3 ∷ []) × (asked.taken ≡ []) × (answering.capacity ≡ 3) × (answering.due ≡ 11 ∷ 12 ∷ 13 ∷ []) × (answering.put ≡ []) }
            ensures { (result.0.link ≡ asked.link) × (result.1.link ≡ answering.link) }
        { answer(rt, asked, answering) },
    );
    (heard, finish(asking, asked), finish(answering, answered))
}

#[test]
fn two_threads_talk_over_two_links(rt: HostRuntime) {
    let (heard, questions, answers) = talk(&rt, rt.alloc());
    assert_eq!(rt; heard, [11, 12, 13]);
    assert_eq!(rt; questions, Counts { put: 3, taken: 3 });
    assert_eq!(rt; answers, Counts { put: 3, taken: 3 });
}
