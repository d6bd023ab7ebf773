//! The way of one packet through one part of a chain.
ghost use Rattle.std.specs.Prelude.{◌≡◌, [], ◌∷◌, ◌≤◌, ◌+◌, length, false, IfOk, OnOk};
ghost use Rattle.packet_fields.specs.Checksums.{sealed};
ghost use Rattle.piece_walk.specs.Pieces.{count_of};
ghost use Rattle.piece_walk.specs.Rejoining.{sealed_by};
ghost use Rattle.chain_walk.specs.declared.walk.Fate.TheVariants.{Out};
ghost use Rattle.nf_tunnel.specs.Tunnels.{decapsulated, encapsulated};
ghost use Rattle.traced_walk.specs.Traced.{rewriting, traced};
ghost use Rattle.traced_run.specs.Telling.{with_act, with_acts};
ghost use Rattle.policy_chains.specs.NamedFunctions.{named_behaviour, named_decides};
ghost use Rattle.policy_chains.specs.Parts.{part_of};
ghost use Rattle.plain_chains.specs.Leading.{IsLed};

use chain_walk::Fate;
use item_list::Items;
use nf_tunnel::{Decap, Encap};
use packet_fields::{Frame, seal};
use policy_chains::{ChainPart, NamedFunction};
use std::alloc::{AllocError, Global};
use std::sync::Wait;
use traced_run::{Trace, trace_chain};

/// Leads a packet through one part, whose first function has this `position` in the chain, and adds what its functions
/// did to `trace`. The only error is that memory runs out, and then the part is lost.
#[tactic(auto, using(crate::proofs::Parting::functions_lead, crate::proofs::Parting::end_leads))]
pub(crate) fn lead_part<R: Wait>(
    rt: &R,
    alloc: Global,
    part: ChainPart,
    position: u32,
    time: u64,
    frame: Frame,
    trace: &mut Trace,
) -> Result<(ChainPart, Fate), AllocError>
    requires { position + count_of (part_of part) ≤ 65 }
    ensures { IfOk result (λ led. IsLed named_behaviour named_decides time position frame (part_of part) (part_of led.0) led.1 trace.old trace.new) }
{
    match part {
        ChainPart::Functions(functions) => {
            let (functions, fate) = lead_functions(
                rt, alloc, functions, position, time, frame, trace,
            )?;
            Ok((ChainPart::Functions(functions), fate))
        }
        ChainPart::Encap(tunnel) => {
            let fate = lead_encap(alloc, tunnel, frame, trace)?;
            Ok((ChainPart::Encap(tunnel), fate))
        }
        ChainPart::Decap(tunnel) => {
            let fate = lead_decap(alloc, tunnel, frame, trace)?;
            Ok((ChainPart::Decap(tunnel), fate))
        }
    }
}

// Leads a packet through functions in a row. What goes out is sealed by the frame that entered.
fn lead_functions<R: Wait>(
    rt: &R,
    alloc: Global,
    functions: Vec<NamedFunction>,
    position: u32,
    time: u64,
    frame: Frame,
    trace: &mut Trace,
) -> Result<(Vec<NamedFunction>, Fate), AllocError>
    requires { position + length functions.items ≤ 65 }
    ensures functions { IfOk result (λ led. led.0.items ≡ (traced named_behaviour named_decides time position functions.items frame).functions) }
    ensures fate { IfOk result (λ led. led.1 ≡ sealed_by frame (traced named_behaviour named_decides time position functions.items frame).fate) }
    ensures acts { OnOk result (trace.new ≡ with_acts trace.old (traced named_behaviour named_decides time position functions.items frame).acts) }
{
    let mut functions = functions;
    let entered = copy(alloc, &frame)?;
    let row = functions.as_mut_slice();
    let fate = trace_chain(rt, alloc, row, position, time, frame, trace)?;
    Ok((functions, seal_fate(entered.bytes(), fate)))
}

// Leads a packet through the entry of a tunnel.
fn lead_encap(
    alloc: Global,
    tunnel: Encap,
    frame: Frame,
    trace: &mut Trace,
) -> Result<Fate, AllocError>
    ensures fate { IfOk result (λ fate. fate ≡ Out (encapsulated tunnel frame)) }
    ensures acts { OnOk result (trace.new ≡ with_acts trace.old (rewriting (encapsulated tunnel) frame ∷ [])) }
{
    let after = tunnel.step(alloc, copy(alloc, &frame)?)?;
    add_rewritten(alloc, &frame, &after, trace)?;
    Ok(Fate::Out(after))
}

// Leads a packet through the exit of a tunnel.
fn lead_decap(
    alloc: Global,
    tunnel: Decap,
    frame: Frame,
    trace: &mut Trace,
) -> Result<Fate, AllocError>
    ensures fate { IfOk result (λ fate. fate ≡ Out (decapsulated tunnel frame)) }
    ensures acts { OnOk result (trace.new ≡ with_acts trace.old (rewriting (decapsulated tunnel) frame ∷ [])) }
{
    let after = tunnel.step(copy(alloc, &frame)?)?;
    add_rewritten(alloc, &frame, &after, trace)?;
    Ok(Fate::Out(after))
}

// Adds the act of one end of a tunnel, which rewrote a frame whole.
fn add_rewritten(
    alloc: Global,
    before: &Frame,
    after: &Frame,
    trace: &mut Trace,
) -> Result<(), AllocError>
    ensures { OnOk result (trace.new ≡ with_act trace.old (record { lines = []; dropped = false; before = before.now; after = after.now })) }
{
    let lines = Items::new(Vec::new(alloc));
    trace.add_passed(alloc, lines, before, after)
}

/// The same frame once more.
pub(crate) fn copy(alloc: Global, frame: &Frame) -> Result<Frame, AllocError>
    ensures { IfOk result (λ copy. copy ≡ frame.now) }
{
    Ok(Frame::new(Vec::from_slice(alloc, frame.bytes())?))
}

// A fate whose frame is sealed.
fn seal_fate(before: &[u8], fate: Fate) -> Fate
    ensures { result ≡ sealed_by before.now fate }
{
    match fate {
        Fate::Out(frame) => Fate::Out(seal_frame(before, frame)),
        Fate::Gone(position) => Fate::Gone(position),
    }
}

// The frame with its checksums adjusted to what changed.
fn seal_frame(before: &[u8], frame: Frame) -> Frame
    ensures { result ≡ sealed before.now frame }
{
    let mut bytes = frame.into_bytes();
    seal(before, bytes.as_mut_slice());
    Frame::new(bytes)
}
