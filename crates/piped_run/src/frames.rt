//! Takes the frames of a burst apart, one after another.
ghost use Rattle.std.specs.Prelude.{◌≡◌, length, IfOk};
ghost use Rattle.capture_bytes.specs.declared.packet.Unit.{Unit as TimeUnit};
ghost use Rattle.graph_run.specs.Packets.{packet_of, packets_taken};
ghost use Rattle.packet_messages.specs.Messages.{Fits};
ghost use Rattle.stage_nodes.specs.Streams.{of_merged};
ghost use Rattle.stream_law.specs.Apart.{apart_of};

use capture_bytes::Unit;
use classifier::Item;
use graph_run::is_of;
use merge_ops::Merged;
use packet_version::split;
use stage_nodes::Supply;
use std::alloc::{AllocError, Global};
use std::marker::Model;
use std::sync::Wait;

/// The rest of a burst, whose packets of one chain are taken apart when they are requested, each with room for
/// `taggers` more tags. Contracts see the packets that are left.
#[derive(Drop)]
pub(crate) struct Frames<'a> {
    rest: &'a [Item],
    unit: Unit,
    chain: u32,
    taggers: u32,
}

impl<'a> Model for Frames<'a> {
    ghost use Rattle.graph_run.specs.Packets.{packets_taken};
    ghost use Rattle.piped_run.specs.Frames.{PlainFrames};

    ghost Value = { PlainFrames };

    ghost view = { λ f. record { taggers = f.taggers; packets = packets_taken f.unit f.chain f.rest.now } };
}

impl<'a> Frames<'a> {
    /// The packets of these items that are of the chain with this number.
    pub(crate) fn new(items: &'a [Item], unit: Unit, chain: u32, taggers: u32) -> Frames<'a>
        ensures { result ≡ record { taggers = taggers; packets = packets_taken unit chain items.now } }
    {
        Frames {
            rest: items,
            unit,
            chain,
            taggers,
        }
    }
}

impl<'a> Supply for Frames<'a> {
    ghost use Rattle.std.specs.Prelude.{◌≡◌, map};
    ghost use Rattle.stage_nodes.specs.Streams.{of_merged};
    ghost use Rattle.piped_run.specs.Frames.{apart_from};

    ghost comes = { λ f xs. xs ≡ map of_merged (apart_from f) };

    fn next<R: Wait>(&mut self, _rt: &R, alloc: Global) -> Merged {
        'items: while let Some((item, rest)) = self.rest.split_first() {
            self.rest = rest;
            if is_of(item, self.chain) {
                return take_apart(alloc, item, self.unit, self.taggers);
            }
        }
        unreachable!()
    }
}

/// The packet of an item in parts, or the word that memory ran out.
fn take_apart(alloc: Global, item: &Item, unit: Unit, taggers: u32) -> Merged
    ensures { Fits (of_merged (apart_of taggers (packet_of unit item.now))) (of_merged result) }
{
    match split(
        alloc,
        item.packet.frame.bytes(),
        item.packet.time(unit),
        taggers,
    ) {
        Ok(whole) => Merged::Whole(whole),
        Err(_) => Merged::Short,
    }
}

/// The record numbers of the packets of these items that are of the chain with this number, in their order. The only
/// error is that memory runs out.
pub(crate) fn numbers_of(alloc: Global, items: &[Item], chain: u32) -> Result<Vec<u32>, AllocError>
    ensures { (unit : TimeUnit) → IfOk result (λ numbers. length numbers.items ≡ length (packets_taken unit chain items.now)) }
{
    let mut numbers = Vec::with_capacity(alloc, items.len())?;
    for item in items {
        if is_of(item, chain) {
            numbers.push(item.number)?;
        }
    }
    Ok(numbers)
}
