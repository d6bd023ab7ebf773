//! The values that branches put on a board come together, packet by packet.
ghost use Rattle.std.specs.Prelude.{◌≡◌, ◌≤◌, ◌<◌, ◌%◌, ◌∷◌, [], false};
ghost use Rattle.std.specs.Vec.{vec_capacity};
ghost use Rattle.merge_board.specs.Rule.{has};

use crate::plenty::had;
use merge_board::{Board, BoardDue, BranchSeat, Complete, MergerSeat, Seats};
use std::alloc::Global;
use std::marker::Brand;
use std::process::Abort;
use std::sync::Wait;
use std::thread;
use std::thread::Threads;

/// A board for two packets, two branches and one merger. Its seats are taken out of their lists.
#[derive(Drop)]
struct Meeting {
    board: Board<u32>,
    first: BranchSeat<u32>,
    second: BranchSeat<u32>,
    merger: MergerSeat<u32>,
    lists: Seats<u32>,
}

/// A board on which 5 and 15 are due from the first branch, and 6 and 16 from the second.
fn new_meeting<D: BoardDue<u32>>(rt: &impl Abort, alloc: Global) -> Meeting
    requires { D.due ≡ (5 ∷ 15 ∷ []) ∷ (6 ∷ 16 ∷ []) ∷ [] }
    ensures pids { result.board.pids ≡ 2 }
    ensures branches { result.board.branches ≡ 2 }
    ensures mergers { result.board.mergers ≡ 1 }
    ensures first { result.first ≡ record { board = result.board.board; branch = 0; due = (5 ∷ 15 ∷ []) ∷ (6 ∷ 16 ∷ []) ∷ []; put = [] } }
    ensures second { result.second ≡ record { board = result.board.board; branch = 1; due = (5 ∷ 15 ∷ []) ∷ (6 ∷ 16 ∷ []) ∷ []; put = [] } }
    ensures merger { result.merger ≡ record { board = result.board.board; merger = 0; due = (5 ∷ 15 ∷ []) ∷ (6 ∷ 16 ∷ []) ∷ []; done = []; loads = 0; pid = 0; word = 0 } }
    ensures branch_list { result.lists.branch.items ≡ [] }
    ensures merger_list { result.lists.merger.items ≡ [] }
{
    let (board, seats) = had(rt, Board::<u32>::new::<D>(alloc, 2, 2, 1));
    let Seats {
        branch: mut branches,
        merger: mut mergers,
    } = seats;
    let Some(second) = branches.pop() else {
        unreachable!()
    };
    let Some(first) = branches.pop() else {
        unreachable!()
    };
    let Some(merger) = mergers.pop() else {
        unreachable!()
    };
    Meeting {
        board,
        first,
        second,
        merger,
        lists: Seats {
            branch: branches,
            merger: mergers,
        },
    }
}

/// Polls before each put of a packet's values, when nothing is complete, and after the last, and ends the board.
fn in_turn(rt: &impl Abort, alloc: Global) -> (Option<Complete>, Vec<u32>) {
    let mut values = had(rt, Vec::with_capacity(alloc, 2));
    let Meeting {
        board,
        mut first,
        mut second,
        merger: mut seat,
        lists,
    } = new_meeting::<Brand>(rt, alloc);
    assert!(rt; board.poll(&mut seat, 0, &mut values).is_none());
    board.put(&mut second, 0, 6);
    assert!(rt; board.poll(&mut seat, 0, &mut values).is_none());
    board.put(&mut first, 0, 5);
    let complete = board.poll(&mut seat, 0, &mut values);
    let Seats {
        mut branch,
        mut merger,
    } = lists;
    had(rt, branch.push(first));
    had(rt, branch.push(second));
    had(rt, merger.push(seat));
    board.close(Seats { branch, merger });
    (complete, values)
}

#[test]
fn a_packet_is_complete_with_its_last_value(rt: HostRuntime) {
    let (complete, values) = in_turn(&rt, rt.alloc());
    assert_eq!(rt; complete, Some(Complete { pid: 0 }));
    assert_eq!(rt; values.as_slice(), [5, 6].as_slice());
}

/// Puts what is due from the first branch.
fn put_first(board: &Board<u32>, mut first: BranchSeat<u32>)
    requires pids { board.now.pids ≡ 2 }
    requires first { first ≡ record { board = board.now.board; branch = 0; due = (5 ∷ 15 ∷ []) ∷ (6 ∷ 16 ∷ []) ∷ []; put = [] } }
{
    board.put(&mut first, 0, 5);
    board.put(&mut first, 1, 15);
}

/// Polls until the packet is complete.
fn collect<R: Wait>(
    rt: &R,
    board: &Board<u32>,
    seat: &mut MergerSeat<u32>,
    pid: u32,
    into: &mut Vec<u32>,
)
    requires board { seat.old.board ≡ board.now.board }
    requires pid { pid < board.now.pids }
    requires own { pid % board.now.mergers ≡ seat.old.merger }
    requires first { has seat.old.done pid ≡ false }
    requires empty { into.old.items ≡ [] }
    requires room { board.now.branches ≤ vec_capacity into.old }
    ensures done { seat.new.done ≡ pid ∷ seat.old.done }
    ensures board { seat.new.board ≡ seat.old.board }
    ensures merger { seat.new.merger ≡ seat.old.merger }
{
    for _ in rt.forever() {
        if board.poll(seat, pid, into).is_some() {
            return;
        }
        thread::yield_now();
    }
    unreachable!()
}

/// Puts what is due from the second branch, the last packet first, and collects both packets.
fn put_second_and_collect<R: Wait>(
    rt: &R,
    board: &Board<u32>,
    mut second: BranchSeat<u32>,
    mut merger: MergerSeat<u32>,
    mut values: Vec<u32>,
    mut others: Vec<u32>,
) -> (Vec<u32>, Vec<u32>)
    requires pids { board.now.pids ≡ 2 }
    requires branches { board.now.branches ≡ 2 }
    requires mergers { board.now.mergers ≡ 1 }
    requires second { second ≡ record { board = board.now.board; branch = 1; due = (5 ∷ 15 ∷ []) ∷ (6 ∷ 16 ∷ []) ∷ []; put = [] } }
    requires same_board { merger.board ≡ board.now.board }
    requires merger { merger.merger ≡ 0 }
    requires done { merger.done ≡ [] }
    requires values { values.items ≡ [] }
    requires others { others.items ≡ [] }
    requires room { 2 ≤ vec_capacity values }
    requires other_room { 2 ≤ vec_capacity others }
{
    board.put(&mut second, 1, 16);
    board.put(&mut second, 0, 6);
    collect(rt, board, &mut merger, 0, &mut values);
    collect(rt, board, &mut merger, 1, &mut others);
    (values, others)
}

/// One thread puts for the first branch; another puts for the second, and collects the values of both.
fn across(rt: &(impl Abort + Threads + Wait + Sync), alloc: Global) -> (Vec<u32>, Vec<u32>) {
    let values = had(rt, Vec::with_capacity(alloc, 2));
    let others = had(rt, Vec::with_capacity(alloc, 2));
    let Meeting {
        board,
        first,
        second,
        merger,
        lists: _,
    } = new_meeting::<Brand>(rt, alloc);
    let shared = &board;
    let (_, collected) = thread::join(
        rt,
        move || put_first(shared, first),
        move || put_second_and_collect(rt, shared, second, merger, values, others),
    );
    collected
}

#[test]
fn what_two_threads_put_comes_together(rt: HostRuntime) {
    let (values, others) = across(&rt, rt.alloc());
    assert_eq!(rt; values.as_slice(), [5, 6].as_slice());
    assert_eq!(rt; others.as_slice(), [15, 16].as_slice());
}
