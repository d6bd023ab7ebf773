//! Runs a burst of packets through a graph: packet by packet, stage by stage, and all at once, in both ways of merging.
ghost use Rattle.std.specs.Prelude.{◌≡◌, ◌≤◌, [], ◌∷◌, length, map};
ghost use Rattle.action_profile.specs.Profiles.{profile_of};
ghost use Rattle.action_profile.specs.declared.kind.Kind.{Kind};
ghost use Rattle.net_functions.specs.NetFunctions.{net_behaviour};

use crate::plenty::had;
use action_profile::{Kind, profile};
use capture_bytes::{PcapRecord, Unit};
use chain_walk::Fate;
use classifier::{Burst, Item};
use fixtures::udp;
use function_lines::FitRules;
use graph_compile::compile;
use graph_run::{Running, run_plain};
use item_list::Items;
use net_functions::NetFunction;
use nf_filter::Firewall;
use nf_mark::Hop;
use nfp_outside::Gate;
use packet_fields::{Field, Frame};
use packet_messages::Message;
use packet_version::Tally;
use piped_run::{MergeWay, branch_turn, run_joined, run_piped};
use std::alloc::{AllocError, Global};
use std::process::Abort;
use std::rt::Clock;
use std::sync::Wait;
use std::sync::atomic::{AtomicU64, Ordering};
use std::thread::Threads;

/// A gate that is always open, and counts the calls.
#[derive(Drop)]
struct Passes {
    count: AtomicU64,
}

impl Passes {
    fn new() -> Passes {
        Passes {
            count: AtomicU64::new(0),
        }
    }

    fn so_far(&self) -> u64 {
        self.count.load(Ordering::SeqCst)
    }
}

impl Gate for Passes {
    fn pass<R: Wait>(&self, _rt: &R, _chain: u32, _position: u32, _number: u32) {
        self.count.fetch_add(1, Ordering::SeqCst);
    }
}

/// A packet from this host.
pub fn packet(rt: &impl Abort, alloc: Global, host: u8) -> PcapRecord {
    PcapRecord {
        seconds: 0,
        fraction: 0,
        wire: 42,
        frame: Frame::new(had(rt, udp(host, 1000).to_vec(alloc))),
    }
}

/// A packet with this number, from the host with the same number.
fn item(rt: &impl Abort, alloc: Global, number: u8, class: Option<u32>) -> Item {
    Item {
        number: u32::from(number),
        class,
        packet: packet(rt, alloc, number),
    }
}

/// Three packets of chain 0 from the hosts 1, 3 and 5, and between them two of no chain.
fn burst(rt: &impl Abort, alloc: Global) -> Burst
    ensures { length result.items ≤ 5 }
{
    let items = [
        item(rt, alloc, 1, Some(0)),
        item(rt, alloc, 2, None),
        item(rt, alloc, 3, Some(0)),
        item(rt, alloc, 4, None),
        item(rt, alloc, 5, Some(0)),
    ];
    Burst {
        items: Items::new(had(rt, Vec::from_array(alloc, items))),
    }
}

/// A firewall without rules.
#[tactic(auto, unfolding(net_functions::specs::NetFunctions::profile_by))]
fn firewall(rt: &impl Abort, alloc: Global, default: bool) -> NetFunction
    ensures { net_behaviour.profile result ≡ profile_of Kind.Firewall }
{
    let rules = had(rt, FitRules::new(alloc, Items::new(Vec::new(alloc))));
    NetFunction::Firewall(Firewall { default, rules })
}

/// Two firewalls: the first lets every packet pass, the second none.
fn open_and_shut(rt: &impl Abort, alloc: Global) -> Vec<NetFunction>
    ensures { map net_behaviour.profile result.items ≡ profile_of Kind.Firewall ∷ profile_of Kind.Firewall ∷ [] }
{
    let functions = [firewall(rt, alloc, true), firewall(rt, alloc, false)];
    had(rt, Vec::from_array(alloc, functions))
}

/// A firewall that lets every packet pass, and a hop.
#[tactic(auto, unfolding(net_functions::specs::NetFunctions::profile_by))]
fn open_and_hop(rt: &impl Abort, alloc: Global) -> Vec<NetFunction>
    ensures { map net_behaviour.profile result.items ≡ profile_of Kind.Firewall ∷ profile_of Kind.Hop ∷ [] }
{
    let functions = [firewall(rt, alloc, true), NetFunction::Hop(Hop)];
    had(rt, Vec::from_array(alloc, functions))
}

/// A chain of two functions.
#[derive(Clone, Copy)]
enum Chain {
    /// The second drops every packet.
    Shut,
    /// The first lets every packet pass, and the second is a hop.
    Open,
}

/// The functions of a chain in their graph.
fn running(rt: &impl Abort, alloc: Global, chain: Chain) -> Running<NetFunction> {
    match chain {
        Chain::Shut => shut(rt, alloc),
        Chain::Open => open(rt, alloc),
    }
}

fn shut(rt: &impl Abort, alloc: Global) -> Running<NetFunction> {
    let profiles = [profile(Kind::Firewall), profile(Kind::Firewall)];
    let graph = had(rt, compile(alloc, &profiles));
    Running::new(open_and_shut(rt, alloc), graph)
}

fn open(rt: &impl Abort, alloc: Global) -> Running<NetFunction> {
    let profiles = [profile(Kind::Firewall), profile(Kind::Hop)];
    let graph = had(rt, compile(alloc, &profiles));
    Running::new(open_and_hop(rt, alloc), graph)
}

/// How packets go through a graph.
#[derive(Clone, Copy)]
enum Way {
    /// One after another, past no gate.
    Plain,
    /// All through one stage and then the next, with this number of mergers.
    Joined(u32),
    /// The stages at once, with this number of mergers, which merge in this way.
    Piped(u32, MergeWay),
}

// The contracts of the runs are long, and the prover sees all of their clauses in every function that calls them. So
// only one function calls each of them, and it promises nothing itself.

type Ran = Result<(Running<NetFunction>, Vec<Fate>), AllocError>;

fn run<R: Threads + Wait + Clock + Sync>(
    rt: &R,
    alloc: Global,
    run: Running<NetFunction>,
    burst: &Burst,
    tally: &mut Tally,
    way: Way,
    gate: &Passes,
) -> Ran
    requires { length burst.now.items ≤ 5 }
{
    match way {
        Way::Plain => run_plain(rt, alloc, run, burst, Unit::Micro, 0, tally),
        Way::Joined(mergers) => join_run(rt, alloc, run, burst, tally, mergers, gate),
        Way::Piped(mergers, merge) => {
            pipe_run(rt, alloc, run, burst, tally, mergers, gate, merge)
        }
    }
}

fn join_run<R: Threads + Wait + Sync>(
    rt: &R,
    alloc: Global,
    run: Running<NetFunction>,
    burst: &Burst,
    tally: &mut Tally,
    mergers: u32,
    gate: &Passes,
) -> Ran
    requires { length burst.now.items ≤ 5 }
{
    let mergers = mergers.max(1).min(16);
    let unit = Unit::Micro;
    run_joined(rt, alloc, run, burst, unit, 0, tally, mergers, gate)
}

fn pipe_run<R: Threads + Wait + Clock + Sync>(
    rt: &R,
    alloc: Global,
    run: Running<NetFunction>,
    burst: &Burst,
    tally: &mut Tally,
    mergers: u32,
    gate: &Passes,
    merge: MergeWay,
) -> Ran
    requires { length burst.now.items ≤ 5 }
{
    let mergers = mergers.max(1).min(16);
    let unit = Unit::Micro;
    run_piped(rt, alloc, run, burst, unit, 0, tally, mergers, gate, merge)
}

/// Did the packet from this host go out with a time to live that is one less? Checksums are not sealed yet.
fn is_hopped(fate: &Fate, host: u8) -> bool {
    let mut sent = udp(host, 1000);
    sent[22] = 63;
    match fate {
        Fate::Out(frame) => frame.bytes() == sent.as_slice(),
        Fate::Gone(_) => false,
    }
}

/// Was a packet dropped by the second function?
fn is_shut_out(fate: &Fate) -> bool {
    match fate {
        Fate::Gone(position) => *position == 2,
        Fate::Out(_) => false,
    }
}

/// Did the packets of the hosts 1, 3 and 5 end as this chain decides, in this order?
fn are_due(chain: Chain, fates: &[Fate]) -> bool {
    match (chain, fates) {
        (Chain::Shut, [one, three, five]) => {
            is_shut_out(one) && is_shut_out(three) && is_shut_out(five)
        }
        (Chain::Open, [one, three, five]) => {
            is_hopped(one, 1) && is_hopped(three, 3) && is_hopped(five, 5)
        }
        _ => false,
    }
}

// Runs the burst through a chain. Each of its two functions sees each of three packets, and nothing is copied.
fn compare(
    rt: &(impl Abort + AllocGlobal + Threads + Wait + Clock + Sync),
    chain: Chain,
    way: Way,
    passes: u64,
) {
    let (gate, mut tally) = (Passes::new(), Tally::new());
    let running = running(rt, rt.alloc(), chain);
    let burst = burst(rt, rt.alloc());
    let ran = run(rt, rt.alloc(), running, &burst, &mut tally, way, &gate);
    let (behind, fates) = had(rt, ran);
    assert!(rt; are_due(chain, &fates) && behind.functions().len() == 2);
    let copies = tally.of(Field::SrcIp).saturating_add(tally.of(Field::Ttl));
    assert_eq!(rt; (copies, gate.so_far()), (0, passes));
}

// Ways, and the number of steps that pass the gate.
const WAYS: &[(Way, u64)] = &[
    (Way::Plain, 0),
    (Way::Joined(2), 6),
    (Way::Joined(16), 6),
    (Way::Piped(1, MergeWay::Inbox), 6),
    (Way::Piped(2, MergeWay::Inbox), 6),
    (Way::Piped(16, MergeWay::Inbox), 6),
    (Way::Piped(1, MergeWay::Board), 6),
    (Way::Piped(2, MergeWay::Board), 6),
    (Way::Piped(16, MergeWay::Board), 6),
];

fn compare_ways(rt: &(impl Abort + AllocGlobal + Threads + Wait + Clock + Sync), chain: Chain) {
    for (way, passes) in WAYS {
        compare(rt, chain, *way, *passes);
    }
}

#[test]
fn each_packet_is_dropped_by_the_function_that_drops_it(rt: HostRuntime) {
    compare_ways(&rt, Chain::Shut);
}

#[test]
fn packets_go_out_in_their_order(rt: HostRuntime) {
    compare_ways(&rt, Chain::Open);
}

/// The result for a packet that the second function dropped, at two functions after it.
fn behind(rt: &(impl Abort + Wait), alloc: Global, gate: &Passes) -> Option<u32> {
    let mut functions = open_and_shut(rt, alloc);
    let positions = [3, 4];
    let functions = functions.as_mut_slice();
    let mut notes = Vec::new(alloc);
    match branch_turn(
        rt,
        alloc,
        functions,
        &positions,
        Message::Nil(2),
        1,
        0,
        gate,
        0,
        &mut notes,
    ) {
        Message::Nil(position) if notes.is_empty() => Some(position),
        _ => None,
    }
}

#[test]
fn no_function_sees_a_packet_that_is_gone(rt: HostRuntime) {
    let gate = Passes::new();
    assert_eq!(rt; behind(&rt, rt.alloc(), &gate), Some(2));
    assert_eq!(rt; gate.so_far(), 0);
}
