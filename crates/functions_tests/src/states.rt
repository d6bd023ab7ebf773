//! The state lines of functions that keep flows and sources.
ghost use Rattle.std.specs.Prelude.{◌≡◌, ◌≤◌, length};

use crate::making::built;
use crate::plenty::had;
use crate::walking::{lines_of, walked};
use fixtures::udp;
use net_functions::NetFunction;
use packet_function::Function;
use std::alloc::Global;
use std::process::Abort;
use std::sync::Wait;

const LIMITER: &str = "nfp 1\nchain c\nfn lim limiter\nset rate 14\nset burst 28\n";

const FIVE_PORTS: &str =
    "nfp 1\nchain c\nfn n nat\nset inside 10.0.0.0/8\nset public 192.0.2.1\nset ports 40000-40004\n";

const LEFT: &[u8] =
    b"  source 10.0.0.1 tokens 14000000000 at 19000000000\n  map 17 10.0.0.1 1000 port 40000\n  map 17 10.0.0.1 1002 port 40001\n  map 17 10.0.0.1 1004 port 40002\n  map 17 10.0.0.1 1006 port 40003\n  map 17 10.0.0.1 1008 port 40004\n";

// Runs the twenty packets through a chain.
fn lead_twenty(rt: &(impl Abort + AllocGlobal + Wait), chain: &mut [NetFunction])
    requires { length chain.old ≤ 64 }
    ensures { length chain.new ≡ length chain.old }
{
    for second in 0..20u16 {
        let time = u64::from(second) * 1_000_000_000;
        walked(rt, rt.alloc(), chain, time, &udp(1, 1000 + second));
    }
}

// The lines of a chain, one by one.
fn single_lines(rt: &impl Abort, alloc: Global, chain: &[NetFunction]) -> Vec<u8> {
    let mut lines = Vec::new(alloc);
    for function in chain {
        for place in 0..function.state_count() {
            had(rt, function.state_line(place, &mut lines));
        }
    }
    lines
}

// A packet of 28 bytes each second from a source that may send 14 bytes a second, each from a port of its own: every
// second one is dropped, and those that pass take the five ports of a translation after the limiter one after another.
#[test]
fn states_are_told_in_lines(rt: HostRuntime) {
    let mut chain = [
        built(&rt, rt.alloc(), LIMITER).expect(&rt, "a limiter"),
        built(&rt, rt.alloc(), FIVE_PORTS).expect(&rt, "a nat"),
    ];
    lead_twenty(&rt, &mut chain);
    assert!(rt; lines_of(&rt, rt.alloc(), &chain).as_slice() == LEFT);
    assert!(rt; single_lines(&rt, rt.alloc(), &chain).as_slice() == LEFT);
}
