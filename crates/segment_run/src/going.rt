//! The packets that go on after a piece.
ghost use Rattle.std.specs.Prelude.{◌≡◌, ◌≤◌, ◌+◌, ◌++◌, List, [], ◌∷◌, IfOk, OnOk, length};
ghost use Rattle.capture_bytes.specs.declared.packet.Unit.{Unit as TimeUnit};
ghost use Rattle.classifier.specs.declared.burst.Item.{Item};
ghost use Rattle.piece_walk.specs.Rejoining.{still_going};
ghost use Rattle.graph_run.specs.Packets.{packet_of, packets_taken};

use capture_bytes::PcapRecord;
use chain_walk::Fate;
use classifier::{Burst, Item};
use graph_run::is_of;
use item_list::Items;
use std::alloc::{AllocError, Global};
use std::vec::IntoIter;

/// The packets of the chain with this number that go on, of those that came so far: each with its present frame, which
/// is moved and not copied.
pub(crate) fn going(
    alloc: Global,
    items: &[Item],
    chain: u32,
    ended: Vec<Fate>,
) -> Result<Burst, AllocError>
    ensures packets { IfOk result (λ next. (unit : TimeUnit) → packets_taken unit chain next.items ≡ still_going (packets_taken unit chain items.now) ended.items) }
    ensures fewer { IfOk result (λ next. length next.items ≤ length items.now) }
{
    let mut next = Vec::with_capacity(alloc, ended.len())?;
    let mut left = ended.into_iter();
    'items: for item in items {
        go_on(item, chain, &mut left, &mut next)?;
    }
    Ok(Burst {
        items: Items::new(next),
    })
}

// Adds the packet, if it is of the chain and goes on by the next fate, which is removed from the front.
fn go_on(
    item: &Item,
    chain: u32,
    left: &mut IntoIter<Fate>,
    next: &mut Vec<Item>,
) -> Result<(), AllocError>
    ensures packets { OnOk result ((unit : TimeUnit) (later : List Item) → packets_taken unit chain next.new.items ++ still_going (packets_taken unit chain later) left.new.rest.items
        ≡ packets_taken unit chain next.old.items ++ still_going (packets_taken unit chain (item.now ∷ later)) left.old.rest.items) }
    ensures fewer { OnOk result (length next.new.items ≤ length next.old.items + 1) }
{
    if !is_of(item, chain) {
        return Ok(());
    }
    match left.next() {
        Some(fate) => add_going(item, chain, fate, next),
        None => Ok(()),
    }
}

// Adds the packet, if it goes on.
fn add_going(item: &Item, chain: u32, fate: Fate, next: &mut Vec<Item>) -> Result<(), AllocError>
    ensures packets { OnOk result ((unit : TimeUnit) → packets_taken unit chain next.new.items ≡ packets_taken unit chain next.old.items ++ still_going (packet_of unit item.now ∷ []) (fate ∷ [])) }
    ensures fewer { OnOk result (length next.new.items ≤ length next.old.items + 1) }
{
    match fate {
        Fate::Out(frame) => {
            let packet = PcapRecord {
                seconds: item.packet.seconds,
                fraction: item.packet.fraction,
                wire: item.packet.wire,
                frame,
            };
            next.push(Item {
                number: item.number,
                class: Some(chain),
                packet,
            })?;
            Ok(())
        }
        Fate::Gone(_) => Ok(()),
    }
}
