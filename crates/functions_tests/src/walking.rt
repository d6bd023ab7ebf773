//! Functions act on whole frames that walk through them.
ghost use Rattle.std.specs.Prelude.{◌≤◌, length};

use crate::making::built;
use crate::painter::Painter;
use crate::plenty::had;
use chain_walk::Fate;
use fixtures::udp;
use frame_walk::walk_chain;
use net_functions::NetFunction;
use packet_fields::Frame;
use packet_function::Function;
use std::alloc::Global;
use std::process::Abort;
use std::sync::Wait;

// The contract of the walk is long, and the prover sees all of its clauses in every function that calls it. So the
// tests call this function, which promises nothing itself.

/// The fate of a frame with this time after a chain.
pub fn walked<F: Function>(
    rt: &(impl Abort + Wait),
    alloc: Global,
    chain: &mut [F],
    time: u64,
    frame: &[u8],
) -> Fate
    requires { length chain.old ≤ 64 }
{
    let frame = Frame::new(had(rt, frame.to_vec(alloc)));
    had(rt, walk_chain(rt, alloc, chain, time, frame))
}

/// Does the frame go out with these bytes?
pub fn is_out(fate: &Fate, bytes: &[u8]) -> bool {
    match fate {
        Fate::Out(frame) => frame.bytes() == bytes,
        Fate::Gone(_) => false,
    }
}

/// Is the frame dropped by the function at this position?
pub fn is_gone(fate: &Fate, at: u32) -> bool {
    match fate {
        Fate::Out(_) => false,
        Fate::Gone(position) => *position == at,
    }
}

/// The lines of the states of a chain.
pub fn lines_of<F: Function>(rt: &impl Abort, alloc: Global, chain: &[F]) -> Vec<u8> {
    let mut lines = Vec::new(alloc);
    for function in chain {
        had(rt, function.state_lines(&mut lines));
    }
    lines
}

const FIRST: &str = "nfp 1\nchain c\nfn a firewall\nrule deny dport 80\n";

const SECOND: &str =
    "nfp 1\nchain c\nfn b firewall\nset default deny\nrule deny src 10.0.0.9 sport 7\nrule allow src 10.0.0.0/29\nrule allow sport 7-9\n";

// Checks the fate of a packet from this host and port: it passes unchanged, or the second firewall drops it.
fn compare(
    rt: &(impl Abort + AllocGlobal + Wait),
    chain: &mut [NetFunction],
    host: u8,
    port: u16,
    passes: bool,
)
    requires { length chain.old ≤ 64 }
{
    let frame = udp(host, port);
    let fate = walked(rt, rt.alloc(), chain, 0, &frame);
    assert!(rt; is_out(&fate, &frame) == passes && is_gone(&fate, 2) != passes);
}

#[test]
fn the_second_firewall_drops_what_its_rules_deny(rt: HostRuntime) {
    let mut chain = [
        built(&rt, rt.alloc(), FIRST).expect(&rt, "a firewall"),
        built(&rt, rt.alloc(), SECOND).expect(&rt, "a firewall"),
    ];
    compare(&rt, &mut chain, 9, 7, false);
    compare(&rt, &mut chain, 9, 8, true);
    compare(&rt, &mut chain, 7, 10, true);
    compare(&rt, &mut chain, 8, 10, false);
    assert!(rt; lines_of(&rt, rt.alloc(), &chain).is_empty());
}

// The type of service that a painter writes into a frame, if it passes.
fn painted(rt: &(impl Abort + AllocGlobal + Wait), chain: &mut [Painter]) -> Option<u8>
    requires { length chain.old ≤ 64 }
{
    match walked(rt, rt.alloc(), chain, 0, &udp(1, 1000)) {
        Fate::Out(out) => out.bytes().get(15).copied(),
        Fate::Gone(_) => None,
    }
}

#[test]
fn a_painter_writes_and_drops_every_third(rt: HostRuntime) {
    let mut chain = [Painter { count: 0 }];
    let services = [
        painted(&rt, &mut chain),
        painted(&rt, &mut chain),
        painted(&rt, &mut chain),
        painted(&rt, &mut chain),
    ];
    assert_eq!(rt; services, [Some(0), Some(1), None, Some(0)]);
    assert!(rt; lines_of(&rt, rt.alloc(), &chain).as_slice() == [1].as_slice());
}
