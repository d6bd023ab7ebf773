//! Messages of packets over links, one by one and in rows.
ghost use Rattle.std.specs.Prelude.{◌≡◌, ◌∷◌, []};
ghost use Rattle.packet_messages.specs.Messages.{PlainMessage.Live, PlainMessage.Nil, PlainMessage.Short};

use crate::plenty::had;
use packet_messages::{
    Fans, Inlet, Inlets, Message, Outlet, Outlets, Parcel, all_boxed, boxed, edge, message_without,
};
use ruled_links::LinkDue;
use std::alloc::Global;
use std::marker::Brand;
use std::process::Abort;
use std::sync::Wait;

/// What came over a link.
#[derive(Clone, Copy, PartialEq, Debug)]
enum Came {
    Part(u32),
    Position(u32),
    NoMemory,
}

fn taken(message: Message<u32>) -> Came {
    match message {
        Message::Live(part) => Came::Part(Box::into_inner(part)),
        Message::Nil(position) => Came::Position(position),
        Message::Short => Came::NoMemory,
    }
}

/// A link on which a part, a position and `Short` are due.
fn each_due<D: LinkDue<Parcel<u32>>>(
    rt: &impl Abort,
    alloc: Global,
    part: u32,
    position: u32,
) -> (Outlet<u32>, Inlet<u32>)
    requires { D.due ≡ Live part ∷ Nil position ∷ Short ∷ [] }
    ensures outlet { result.0 ≡ Live part ∷ Nil position ∷ Short ∷ [] }
    ensures inlet { result.1 ≡ Live part ∷ Nil position ∷ Short ∷ [] }
{
    had(rt, edge::<u32, D>(alloc, 3))
}

fn one_by_one(rt: &(impl Abort + Wait), alloc: Global) -> [Came; 3] {
    let (mut outlet, mut inlet) = each_due::<Brand>(rt, alloc, 5, 2);
    outlet.give(rt, boxed(alloc, 5));
    outlet.give(rt, message_without(Some(2)));
    outlet.give(rt, message_without(None));
    let first = taken(inlet.accept(rt));
    let second = taken(inlet.accept(rt));
    [first, second, taken(inlet.accept(rt))]
}

#[test]
fn what_is_due_comes_one_by_one(rt: HostRuntime) {
    let all = one_by_one(&rt, rt.alloc());
    assert_eq!(rt; all, [Came::Part(5), Came::Position(2), Came::NoMemory]);
}

/// A link on which a part and a position are due.
fn two_due<D: LinkDue<Parcel<u32>>>(
    rt: &impl Abort,
    alloc: Global,
    part: u32,
    position: u32,
) -> (Outlet<u32>, Inlet<u32>)
    requires { D.due ≡ Live part ∷ Nil position ∷ [] }
    ensures outlet { result.0 ≡ Live part ∷ Nil position ∷ [] }
    ensures inlet { result.1 ≡ Live part ∷ Nil position ∷ [] }
{
    had(rt, edge::<u32, D>(alloc, 2))
}

/// The one inlet of a list.
fn alone(rt: &impl Abort, alloc: Global, inlet: Inlet<u32>) -> Inlets<u32>
    ensures { result ≡ inlet ∷ [] }
{
    let mut list = Inlets::new(alloc);
    had(rt, list.push(inlet));
    list
}

/// The one outlet of a stream.
fn unshared(rt: &impl Abort, alloc: Global, outlet: Outlet<u32>) -> Outlets<u32>
    ensures { result ≡ outlet ∷ [] }
{
    let mut list = Outlets::new(alloc);
    had(rt, list.push(outlet));
    list
}

/// What came of two parts, and of the position after each.
fn in_rows(rt: &(impl Abort + Wait), alloc: Global) -> [Came; 4] {
    let (outlet, inlet) = two_due::<Brand>(rt, alloc, 5, 2);
    let (other_outlet, other_inlet) = two_due::<Brand>(rt, alloc, 6, 2);
    let mut fans = Fans::new(alloc);
    had(rt, fans.push(unshared(rt, alloc, outlet)));
    had(rt, fans.push(unshared(rt, alloc, other_outlet)));
    let mut inlets = alone(rt, alloc, inlet);
    had(rt, inlets.push(other_inlet));
    let parts = had(rt, Vec::from_array(alloc, [5, 6]));
    let row = had(rt, all_boxed(alloc, parts));
    fans.give_each(rt, row);
    fans.give_word(rt, Some(2));
    let first = taken(inlets.accept_next(rt));
    let second = taken(inlets.accept_at(rt, 0));
    let third = taken(inlets.accept_next(rt));
    [first, second, third, taken(inlets.accept_next(rt))]
}

#[test]
fn rows_come_in_turn(rt: HostRuntime) {
    let all = in_rows(&rt, rt.alloc());
    assert_eq!(rt;
        all,
        [
            Came::Part(5),
            Came::Part(6),
            Came::Position(2),
            Came::Position(2)
        ]
    );
}
