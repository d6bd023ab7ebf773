//! The number of copies that the graph would make of packets that ran in a row, where none was made.
ghost use Rattle.std.specs.Prelude.{◌≡◌, ◌-◌, ◌^◌, ◌<◌, min, drop, [], ◌∷◌, length, is_some, IfSome, if◌then◌else◌};
ghost use Rattle.std.specs.List.{position};
ghost use Rattle.packet_fields.specs.Fields.{value};
ghost use Rattle.packet_fields.specs.Outlines.{outline_of};
ghost use Rattle.chain_walk.specs.declared.walk.Fate.TheVariants.{Gone};
ghost use Rattle.capture_bytes.specs.declared.packet.Unit.{Unit as TimeUnit};
ghost use Rattle.graph_compile.specs.Positions.{stands};
ghost use Rattle.graph_run.specs.Counting.{RaisesAll, copies_in, copies_made, copies_of, reached};
ghost use Rattle.graph_run.specs.Packets.{is_of, packets_taken};

use crate::plain::is_of;
use action_profile::all_fields;
use chain_walk::Fate;
use classifier::Item;
use graph_compile::{Graph, Stage, copies, copies_nothing, stands};
use packet_fields::{Field, Outline};
use packet_version::Tally;

/// Counts the copies that the graph makes of the packets of its chain among these items, by their fates.
pub(crate) fn count_copies(
    graph: &Graph,
    items: &[Item],
    chain: u32,
    fates: &[Fate],
    tally: &mut Tally,
)
    ensures { (unit : TimeUnit) → RaisesAll (copies_made graph.now.stages (packets_taken unit chain items.now) fates.now) tally.old tally.new }
{
    if copies_nothing(graph) {
        return;
    }
    let mut left = fates;
    for item in items {
        left = count_item(graph, item, chain, left, tally);
    }
}

/// Counts the copies of an item's packet if it is of the chain. The first of these fates is that of the packet. Returns
/// the fates of the packets after it.
fn count_item<'a>(
    graph: &Graph,
    item: &Item,
    chain: u32,
    fates: &'a [Fate],
    tally: &mut Tally,
) -> &'a [Fate]
    ensures counted { (unit : TimeUnit) → RaisesAll (copies_made graph.now.stages (packets_taken unit chain (item.now ∷ [])) fates.now) tally.old tally.new }
    ensures left { result.now ≡ (if is_of chain item.now then drop 1 fates.now else fates.now) }
{
    if !is_of(item, chain) {
        return fates;
    }
    let Some((fate, left)) = fates.split_first() else {
        return fates;
    };
    count_packet(
        graph.stages.as_slice(),
        item.packet.frame.bytes(),
        fate,
        tally,
    );
    left
}

/// Counts the copies that the stages make of a packet with this frame and fate.
fn count_packet(stages: &[Stage], frame: &[u8], fate: &Fate, tally: &mut Tally)
    ensures { RaisesAll (copies_of stages.now frame.now fate.now) tally.old tally.new }
{
    let stages = reached(stages, fate);
    let outline = Outline::of(frame);
    for field in all_fields() {
        tally.raise(
            *field,
            copies_where_present(stages, &outline, frame, *field),
        );
    }
}

/// The copies of a field that these stages make of a packet with this frame and outline; at most the maximum of a
/// count.
fn copies_where_present(stages: &[Stage], outline: &Outline, frame: &[u8], field: Field) -> u64
    requires own { outline.now ≡ outline_of frame.now }
    ensures { result ≡ min (if is_some (value field frame.now) then copies_in stages.now field else 0) (2 ^ 64 - 1) }
{
    let made = copies_in(stages, field);
    if made == 0 || outline.get(field, frame).is_some() {
        made
    } else {
        0
    }
}

/// The copies of a field that these stages make of a packet that has it; at most the maximum of a count.
fn copies_in(stages: &[Stage], field: Field) -> u64
    ensures { result ≡ min (copies_in stages.now field) (2 ^ 64 - 1) }
{
    let mut made: u64 = 0;
    for stage in stages {
        made = made.saturating_add(copies(&stage.parts, field) as u64);
    }
    made
}

/// The stages that a packet with this fate reaches.
fn reached<'a>(stages: &'a [Stage], fate: &Fate) -> &'a [Stage]
    ensures { result.now ≡ reached stages.now fate.now }
{
    match fate {
        Fate::Out(_) => stages,
        Fate::Gone(position) => reached_up_to(stages, *position),
    }
}

/// The stages up to the one with the function at this position.
fn reached_up_to(stages: &[Stage], dropper: u32) -> &[Stage]
    ensures { result.now ≡ reached stages.now (Gone dropper) }
{
    match stage_of(stages, dropper) {
        Some(last) => &stages[..last + 1],
        None => stages,
    }
}

/// The place of the stage with the function at this position.
fn stage_of(stages: &[Stage], dropper: u32) -> Option<usize>
    ensures found { result ≡ position (stands dropper) stages.now }
    ensures within { IfSome result (λ place. place < length stages.now) }
{
    stages.iter().position(|stage| stands(stage.branches.as_slice(), dropper as usize))
}
