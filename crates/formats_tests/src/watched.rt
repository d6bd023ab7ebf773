// A watched desk over memory: what the watcher is informed of, and what it keeps and counts.

ghost use Rattle.std.specs.Prelude.{◌≤◌};

use crate::plenty::had;
use nfp_outside::{Desk, MemDesk, Slot};
use std::time::Duration;
use watched_desk::{Amount, RecordCount, Seen, Watched};

/// A capture with the order of its first byte, whose two frames have three bytes and none.
fn capture(big: bool) -> [u8; 59] {
    let mut bytes = [0; 59];
    bytes[0] = if big { 0xa1 } else { 0xd4 };
    bytes[32..36].copy_from_slice(if big { &[0, 0, 0, 3] } else { &[3, 0, 0, 0] });
    bytes[36..43].copy_from_slice(&[9; 4 + 3]);
    bytes
}

// The number of records that are counted in the bytes, in pieces of `step` bytes.
fn counted(bytes: &[u8], step: usize) -> u64
    requires { 1 ≤ step }
{
    let mut count = RecordCount::new();
    for piece in bytes.chunks(step) {
        count.follow(piece);
    }
    count.records()
}

// The same for pieces of one byte, of seven, and for one piece.
fn counted_in_pieces(big: bool) -> [u64; 3] {
    let bytes = capture(big);
    [counted(&bytes, 1), counted(&bytes, 7), counted(&bytes, 100)]
}

#[test]
fn counts_the_records_of_any_pieces(rt: HostRuntime) {
    assert_eq!(rt; counted_in_pieces(true), [2, 2, 2]);
    assert_eq!(rt; counted_in_pieces(false), [2, 2, 2]);
}

// Are the policy's name and text kept, if no capture is read?
fn is_kept(seen: &Seen) -> bool {
    seen.name(Slot::Policy) == Some("a.nfp")
        && seen.name(Slot::Out).is_none()
        && seen.policy() == Some(b"nfp 1\n".as_slice())
        && seen.front().is_empty()
}

#[test]
fn keeps_what_passed(rt: HostRuntime) {
    let alloc = rt.alloc();
    let policy = had(&rt, b"nfp 1\n".to_vec(alloc));
    let capture = had(&rt, capture(true).to_vec(alloc));
    let desk = MemDesk::new(alloc, policy, capture, 100, Vec::new(alloc));
    let mut watched = Watched::new(desk, Seen::new(alloc));
    let mut buffer = [0u8; 100];
    had(&rt, watched.attach(Slot::Policy, "a.nfp"));
    had(&rt, watched.read(Slot::Policy, &mut buffer));
    let (_, seen) = watched.into_parts();
    assert!(rt; is_kept(&seen));
}

#[test]
fn tells_how_far_it_is(rt: HostRuntime) {
    let mut amount = Amount {
        bytes: 450_000_000,
        size: Some(1_000_000_000),
        records: 700_000,
        time: Duration::from_millis(5_000),
    };
    let line = had(&rt, format!(in rt.alloc(); "{amount}"));
    assert_eq!(rt;
        line.as_str(),
        "nfp: 45 % of 1000 MB, 700000 records, 90.0 MB/s, 6 s left"
    );
    amount.size = None;
    let line = had(&rt, format!(in rt.alloc(); "{amount}"));
    assert_eq!(rt; line.as_str(), "nfp: 450 MB, 700000 records, 90.0 MB/s");
}
