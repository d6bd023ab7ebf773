//! Runs the packets of a burst through the chains, each chain with its own packets.
ghost use Rattle.std.specs.Prelude.{◌≡◌, ◌≤◌, ◌<◌, ◌^◌, All, IfOk, length, map};
ghost use Rattle.capture_bytes.specs.Packets.{IsShort};
ghost use Rattle.piece_walk.specs.PiecePackets.{long_fates};
ghost use Rattle.service_walk.specs.Service.{packets_in};
ghost use Rattle.service_walk.specs.Weaving.{each_fates};
ghost use Rattle.policy_chains.specs.NamedFunctions.{named_behaviour};
ghost use Rattle.chain_service.specs.Opening.{pieces_in};
ghost use Rattle.burst_walk.specs.Leading.{IsWritable, LeadsChain, LeadsEach, classed_items};

use crate::merging::Merging;
use crate::tunnels::pieces_grow_little;
use capture_bytes::Unit;
use chain_service::{ChainPieces, ServiceChain, run_pieces};
use chain_walk::Fate;
use classifier::Burst;
use item_list::Items;
use nfp_outside::Gate;
use piece_walk::{frames_grow_little, pieces_keep_their_kind};
use policy_chains::NamedFunction;
use std::alloc::{AllocError, Global};
use std::rt::Clock;
use std::sync::Wait;
use std::thread::Threads;

/// Runs the packets of a burst through their chains, one chain after another, and returns the fates of each chain's
/// packets. The dealers and branches of a graph run side by side, and the results of the branches of a stage are merged
/// as `merging` says.
pub fn lead<R: Threads + Wait + Clock + Sync, G: Gate + Sync>(
    rt: &R,
    alloc: Global,
    chains: Items<ServiceChain>,
    burst: &Burst,
    unit: Unit,
    merging: Merging,
    gate: &G,
) -> Result<(Items<ServiceChain>, Vec<Vec<Fate>>), AllocError>
    requires few { length burst.now.items ≤ 65536 }
    requires short { All (λ i. IsShort i.packet) burst.now.items }
    requires few_chains { length chains < 2 ^ 32 }
    ensures led { IfOk result (λ led. LeadsEach (classed_items unit burst.now.items) 0 chains led.0) }
    ensures fates { IfOk result (λ led. map (λ v. v.items) led.1.items ≡ each_fates named_behaviour (classed_items unit burst.now.items) 0 (map pieces_in chains)) }
    ensures writable { IfOk result (λ led. All (λ v. All IsWritable v.items) led.1.items) }
{
    let mut led = Vec::new(alloc);
    let mut rows = Vec::new(alloc);
    let mut number = 0;
    'chains: for chain in chains.into_vec() {
        let (chain, fates) = lead_chain(rt, alloc, chain, burst, unit, number, merging, gate)?;
        led.push(chain)?;
        rows.push(fates)?;
        number += 1;
    }
    Ok((Items::new(led), rows))
}

// Runs the packets of a burst through the chain with this number that takes them.
fn lead_chain<R: Threads + Wait + Clock + Sync, G: Gate + Sync>(
    rt: &R,
    alloc: Global,
    chain: ServiceChain,
    burst: &Burst,
    unit: Unit,
    number: u32,
    merging: Merging,
    gate: &G,
) -> Result<(ServiceChain, Vec<Fate>), AllocError>
    requires few { length burst.now.items ≤ 65536 }
    requires short { All (λ i. IsShort i.packet) burst.now.items }
    ensures led { IfOk result (λ led. LeadsChain (classed_items unit burst.now.items) number chain led.0) }
    ensures fates { IfOk result (λ led. led.1.items ≡ long_fates named_behaviour (pieces_in chain) (packets_in number (classed_items unit burst.now.items))) }
    ensures writable { IfOk result (λ led. All IsWritable led.1.items) }
{
    // A frame grows only a little, so a frame that goes out fits into a record.
    frames_grow_little::<NamedFunction>();
    pieces_keep_their_kind::<NamedFunction>();
    let ServiceChain {
        declared,
        names,
        pieces,
        mut copies,
    } = chain;
    let pieces = pieces.into_vec();
    pieces_grow_little(pieces.as_slice());
    let (pieces, fates) = run_pieces(
        rt,
        alloc,
        pieces,
        burst,
        unit,
        number,
        &mut copies,
        merging.mergers.count(),
        gate,
        merging.way,
    )?;
    let chain = ServiceChain {
        declared,
        names,
        pieces: ChainPieces::new(pieces),
        copies,
    };
    Ok((chain, fates))
}
