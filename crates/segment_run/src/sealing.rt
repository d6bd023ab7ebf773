//! Seals the frames that go out of a graph by those that went in.
ghost use Rattle.std.specs.Prelude.{◌≡◌, ◌++◌, List, ◌∷◌, true, IfOk, OnOk};
ghost use Rattle.capture_bytes.specs.declared.packet.Unit.{Unit as TimeUnit};
ghost use Rattle.classifier.specs.declared.burst.Item.{Item};
ghost use Rattle.packet_fields.specs.Checksums.{sealed};
ghost use Rattle.piece_walk.specs.Rejoining.{sealed_by, sealed_fates};
ghost use Rattle.graph_run.specs.Packets.{packets_taken};

use chain_walk::Fate;
use classifier::Item;
use graph_run::is_of;
use packet_fields::{Frame, seal};
use std::alloc::{AllocError, Global};
use std::vec::IntoIter;

/// The fates of the packets of the chain with this number, each frame that goes out sealed by the frame that the packet
/// had.
pub(crate) fn seal_all(
    alloc: Global,
    items: &[Item],
    chain: u32,
    fates: Vec<Fate>,
) -> Result<Vec<Fate>, AllocError>
    ensures { IfOk result (λ all. (unit : TimeUnit) → all.items ≡ sealed_fates (packets_taken unit chain items.now) fates.items) }
{
    let mut all = Vec::with_capacity(alloc, fates.len())?;
    let mut left = fates.into_iter();
    'items: for item in items {
        seal_next(item, chain, &mut left, &mut all)?;
    }
    Ok(all)
}

// Seals the next fate, if the packet is of the chain.
fn seal_next(
    item: &Item,
    chain: u32,
    left: &mut IntoIter<Fate>,
    all: &mut Vec<Fate>,
) -> Result<(), AllocError>
    ensures { OnOk result ((unit : TimeUnit) (later : List Item) → all.new.items ++ sealed_fates (packets_taken unit chain later) left.new.rest.items ≡ all.old.items ++ sealed_fates (packets_taken unit chain (item.now ∷ later)) left.old.rest.items) }
{
    if !is_of(item, chain) {
        return Ok(());
    }
    match left.next() {
        Some(fate) => {
            all.push(seal_fate(item.packet.frame.bytes(), fate))?;
            Ok(())
        }
        None => Ok(()),
    }
}

// A fate whose frame is sealed.
fn seal_fate(before: &[u8], fate: Fate) -> Fate
    ensures { result ≡ sealed_by before.now fate }
{
    match fate {
        Fate::Out(frame) => Fate::Out(seal_frame(before, frame)),
        Fate::Gone(position) => Fate::Gone(position),
    }
}

// The frame with its checksums adjusted to what changed. To compare frames is far cheaper than to seal one.
fn seal_frame(before: &[u8], frame: Frame) -> Frame
    ensures { result ≡ sealed before.now frame }
{
    if is_sealed(before, frame.bytes()) {
        return frame;
    }
    let mut bytes = frame.into_bytes();
    seal(before, &mut bytes);
    Frame::new(bytes)
}

// Is a frame the same as before, so that there is nothing to adjust?
fn is_sealed(before: &[u8], after: &[u8]) -> bool
    ensures { result ≡ true → sealed before.now after.now ≡ after.now }
{
    unchanged_is_sealed(before);
    before == after
}

// A law: to seal a frame by itself changes nothing.
fn unchanged_is_sealed(frame: &[u8])
    ensures { sealed frame.now frame.now ≡ frame.now }
{}
