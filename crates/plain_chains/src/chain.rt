//! A chain, ready for packets.
ghost use Rattle.std.specs.Prelude.{◌≡◌, IfOk, OnOk, map};
ghost use Rattle.policy_judge.specs.Making.{place_of};
ghost use Rattle.policy_judge.specs.Orders.{IsOrdered};
ghost use Rattle.piece_walk.specs.Pieces.{long};
ghost use Rattle.traced_walk.specs.Traced.{long_traced};
ghost use Rattle.traced_run.specs.Telling.{with_acts};
ghost use Rattle.policy_chains.specs.NamedFunctions.{named_behaviour, named_decides};
ghost use Rattle.plain_chains.specs.Plain.{IsPlain, pieces_in};

use crate::walking::walk_parts;
use chain_walk::Fate;
use item_list::Items;
use net_functions::Made;
use packet_fields::Frame;
use piece_walk::pieces_keep_their_kind;
use policy_chains::{ChainParts, NamedFunction, chain_parts};
use policy_check::Order;
use policy_text::ChainPolicy;
use std::alloc::{AllocError, Global};
use std::mem;
use std::sync::Wait;
use traced_run::Trace;
use traced_walk::the_trace_is_the_walk;

/// A chain, ready for packets: as it is declared, the order of its functions, and its parts.
#[derive(Drop)]
pub struct PlainChain {
    pub declared: ChainPolicy,
    pub order: Order,
    pub parts: ChainParts,
}

/// A chain with the functions that were made for it, in its order.
pub(crate) fn plain_chain(
    alloc: Global,
    declared: ChainPolicy,
    order: Order,
    made: Items<Option<Made>>,
) -> Result<PlainChain, AllocError>
    requires ordered { IsOrdered declared order }
    requires made { made ≡ map place_of declared.functions }
    ensures declared { IfOk result (λ c. c.declared ≡ declared) }
    ensures order { IfOk result (λ c. c.order ≡ order) }
    ensures ready { IfOk result IsPlain }
{
    let functions = declared.functions.as_slice();
    let parts = chain_parts(
        alloc,
        functions,
        order.positions.as_slice(),
        made.into_vec(),
    )?;
    Ok(PlainChain {
        declared,
        order,
        parts,
    })
}

/// Leads a packet, captured at `time` in nanoseconds, through a chain, and adds what each function did to `trace`. The
/// only error is that memory runs out, and then the chain's functions are lost.
pub(crate) fn lead_chain<R: Wait>(
    rt: &R,
    alloc: Global,
    chain: &mut PlainChain,
    time: u64,
    frame: Frame,
    trace: &mut Trace,
) -> Result<Fate, AllocError>
    ensures declared { chain.new.declared ≡ chain.old.declared }
    ensures order { chain.new.order ≡ chain.old.order }
    ensures fate { IfOk result (λ fate. fate ≡ (long_traced named_behaviour named_decides time 1 (pieces_in chain.old) frame).fate) }
    ensures pieces { OnOk result (pieces_in chain.new ≡ (long named_behaviour time 1 (pieces_in chain.old) frame).pieces) }
    ensures acts { OnOk result (trace.new ≡ with_acts trace.old (long_traced named_behaviour named_decides time 1 (pieces_in chain.old) frame).acts) }
{
    the_trace_is_the_walk::<NamedFunction>();
    pieces_keep_their_kind::<NamedFunction>();
    let parts = mem::replace(&mut chain.parts, ChainParts::new(Vec::new(alloc)));
    let mut parts = parts.into_vec();
    let fate = walk_parts(rt, alloc, parts.as_mut_slice(), time, frame, trace)?;
    chain.parts = ChainParts::new(parts);
    Ok(fate)
}
