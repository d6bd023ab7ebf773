//! Runs packets through one end of a tunnel, each by itself.
ghost use Rattle.std.specs.Prelude.{◌≡◌, ◌++◌, List, ◌∷◌, IfOk, OnOk, map};
ghost use Rattle.capture_bytes.specs.declared.packet.Unit.{Unit as TimeUnit};
ghost use Rattle.classifier.specs.declared.burst.Item.{Item};
ghost use Rattle.graph_run.specs.Packets.{packets_taken};
ghost use Rattle.segment_run.specs.Rewriting.{out_by, out_of, rewritten};

use chain_walk::Fate;
use classifier::Item;
use graph_run::is_of;
use nf_tunnel::{Decap, Encap};
use packet_fields::Frame;
use std::alloc::{AllocError, Global};

/// An end of a tunnel, or none.
#[derive(Clone, Copy)]
pub(crate) enum End {
    Entry(Encap),
    Exit(Decap),
    Open,
}

/// Lets each packet of the chain with this number go out after the end.
pub(crate) fn rewrite_all(
    alloc: Global,
    end: End,
    items: &[Item],
    chain: u32,
) -> Result<Vec<Fate>, AllocError>
    ensures { IfOk result (λ fates. (unit : TimeUnit) → fates.items ≡ map (out_of (rewritten end)) (packets_taken unit chain items.now)) }
{
    let mut fates = Vec::with_capacity(alloc, items.len())?;
    'items: for item in items {
        rewrite_next(alloc, end, item, chain, &mut fates)?;
    }
    Ok(fates)
}

// Adds the fate of a packet, if it is of the chain.
fn rewrite_next(
    alloc: Global,
    end: End,
    item: &Item,
    chain: u32,
    fates: &mut Vec<Fate>,
) -> Result<(), AllocError>
    ensures { OnOk result ((unit : TimeUnit) (later : List Item) → fates.new.items ++ map (out_of (rewritten end)) (packets_taken unit chain later) ≡ fates.old.items ++ map (out_of (rewritten end)) (packets_taken unit chain (item.now ∷ later))) }
{
    if !is_of(item, chain) {
        return Ok(());
    }
    let copy = copied(alloc, item.packet.frame.bytes())?;
    let frame = rewrite(alloc, end, copy)?;
    fates.push(Fate::Out(frame))?;
    Ok(())
}

/// Rewrites the frame of each packet that goes out. The frame isn't copied before.
pub(crate) fn rewrite_fates(
    alloc: Global,
    end: End,
    ended: Vec<Fate>,
) -> Result<Vec<Fate>, AllocError>
    ensures { IfOk result (λ fates. fates.items ≡ map (out_by (rewritten end)) ended.items) }
{
    let mut fates = Vec::with_capacity(alloc, ended.len())?;
    'fates: for fate in ended {
        let fate = rewrite_fate(alloc, end, fate)?;
        fates.push(fate)?;
    }
    Ok(fates)
}

// The fate after the end.
fn rewrite_fate(alloc: Global, end: End, fate: Fate) -> Result<Fate, AllocError>
    ensures { IfOk result (λ new. new ≡ out_by (rewritten end) fate) }
{
    match fate {
        Fate::Out(frame) => {
            let frame = rewrite(alloc, end, frame)?;
            Ok(Fate::Out(frame))
        }
        Fate::Gone(position) => Ok(Fate::Gone(position)),
    }
}

// The frame after the end.
fn rewrite(alloc: Global, end: End, frame: Frame) -> Result<Frame, AllocError>
    ensures { IfOk result (λ new. new ≡ rewritten end frame) }
{
    match end {
        End::Entry(tunnel) => tunnel.step(alloc, frame),
        End::Exit(tunnel) => tunnel.step(frame),
        End::Open => Ok(frame),
    }
}

// A frame of these bytes.
fn copied(alloc: Global, bytes: &[u8]) -> Result<Frame, AllocError>
    ensures { IfOk result (λ new. new ≡ bytes.now) }
{
    let mut copy = Vec::with_capacity(alloc, bytes.len())?;
    copy.extend_from_slice(bytes)?;
    Ok(Frame::new(copy))
}
