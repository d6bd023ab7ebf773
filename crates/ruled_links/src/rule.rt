//! The rule of a link, and what is known after each of its steps. These types are for proofs alone.
ghost use Rattle.std.specs.Prelude.{◌≡◌, ◌≤◌, ◌^◌, ◌++◌, ◌∷◌, [], true, false, length, ⊤};
ghost use Rattle.ruled_links.specs.Fitting.{EachFits, FitsAt};
ghost use Rattle.ruled_links.specs.Rule.{IsLink, closed, knowledge, spent};

use crate::fit::{LinkDue, LinkFit};
use crossbeam_queue::RuledArrayQueue;
use crossbeam_queue::protocol::{Join, Lesson, Outcome, Protocol, Split};
use std::collections::LinkedList;
use std::marker::PhantomData;

/// The queue of a link.
pub type Queue<T> = RuledArrayQueue<T, Knowledge<T>, InOrder<T>>;

// What a pass of the queue knows: whether the link has its two ends yet, whether this pass puts or
// takes, what is due, what it has put and what it has taken. No value of it is made.
pub struct Knowledge<T> {
    pub opened: bool,
    pub puts: bool,
    pub takes: bool,
    pub due: LinkedList<T>,
    pub put: LinkedList<T>,
    pub taken: LinkedList<T>,
}

// The rule.
pub struct InOrder<T> {
    of: PhantomData<T>,
}

impl<T: LinkFit> Protocol<T, Knowledge<T>> for InOrder<T> {
    ghost holds = { IsLink T.fits };

    ghost first = { closed };
}

// A link gets its two ends: what is due is fixed, the one puts and the other takes.
pub struct Opened<T, D> {
    of: PhantomData<(T, D)>,
}

impl<T: LinkFit, D: LinkDue<T>> Split<Knowledge<T>> for Opened<T, D> {
    ghost left = { λ v. knowledge true true false D.due [] [] };

    ghost right = { λ v. knowledge true false true D.due [] [] };
}

// A message was put. What the link holds is part of what was put.
pub struct Put;

impl<T> Outcome<T, Knowledge<T>> for Put {
    ghost then = { λ v x w. w ≡ record v { put = v.put ++ x ∷ [] } };
}

impl<T> Lesson<T, Knowledge<T>> for Put {
    ghost fact = { λ v items. length items ≤ length v.put };
}

// A message was taken. It fits the due one of its place.
pub struct Taken<T> {
    of: PhantomData<T>,
}

impl<T: LinkFit> Outcome<T, Knowledge<T>> for Taken<T> {
    ghost then = { λ v x w. (w ≡ record v { taken = v.taken ++ x ∷ [] }) × (length w.taken ≤ 2 ^ 32) × FitsAt T.fits v.due (length v.taken) x };
}

impl<T> Lesson<T, Knowledge<T>> for Taken<T> {
    ghost fact = { λ v items. ⊤ };
}

// Both ends are in one hand.
pub struct Joined;

impl<T> Join<Knowledge<T>> for Joined {
    ghost both = { λ v w. knowledge true true true v.due v.put w.taken };

    ghost spent = { spent };
}

// What the rule says of a link whose ends are in one hand.
pub struct Whole<T> {
    of: PhantomData<T>,
}

impl<T: LinkFit> Lesson<T, Knowledge<T>> for Whole<T> {
    ghost fact = { λ v items. (v.put ≡ v.taken ++ items) × EachFits T.fits v.due v.put };
}
