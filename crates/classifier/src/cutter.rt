//! The cutter of packets into bursts.
ghost use Rattle.std.specs.Prelude.{◌≡◌, ◌↔◌, ◌<◌, ◌≤◌, ◌-◌, ◌^◌, [], IsTrue, IfOk, IfSome, IsSome, OnErr, OnOk, length};
ghost use Rattle.classifier.specs.Cutting.{after, closed_now, closes, with_packet};

use crate::burst::{Burst, Item};
use capture_bytes::PcapRecord;
use item_list::Items;
use std::alloc::{AllocError, Global};
use std::marker::Model;
use std::mem;

/// The greatest number of packets of a burst.
pub const BURST_LIMIT: u32 = 65_536;

/// The number of captured bytes at which a burst is closed.
pub const BURST_BYTES: usize = 67_108_864;

/// Cuts packets into bursts. A contract sees its limit, the number of packets added, and the
/// items of its open burst.
#[derive(Drop)]
pub struct Cutter {
    alloc: Global,
    limit: u32,
    added: u32,
    bytes: usize,
    held: Items<Item>,
}

impl Model for Cutter {
    ghost use Rattle.std.specs.Prelude.{◌≡◌, ◌<◌, ◌≤◌, length};
    ghost use Rattle.classifier.specs.Cutting.{Cutting, captured};

    ghost Value = { Cutting };

    ghost view = { λ c. record { limit = c.limit; added = c.added; held = c.held } };

    ghost invariant = { λ c. (c.limit ≤ 65536) × (length c.held < c.limit) × (c.bytes ≡ captured c.held) × (c.bytes < 67108864) };
}

impl Cutter {
    /// A cutter into bursts of `limit` packets, to which none was added. It allocates the room of a burst.
    pub fn new(alloc: Global, limit: u32) -> Result<Cutter, AllocError>
        requires some { 0 < limit }
        requires few { limit ≤ 65536 }
        ensures { IfOk result (λ c. c ≡ record { limit = limit; added = 0; held = [] }) }
    {
        Ok(Cutter {
            alloc,
            limit,
            added: 0,
            bytes: 0,
            held: Items::new(Vec::with_capacity(alloc, limit as usize)?),
        })
    }

    /// Adds a packet of this class to the open burst, under the next number, and returns the whole burst if this packet
    /// closes it. If memory runs out the packet is lost.
    pub fn add(
        &mut self,
        packet: PcapRecord,
        class: Option<u32>,
    ) -> Result<Option<Burst>, AllocError>
        requires { self.old.added < 2 ^ 32 - 1 }
        ensures closed { IfOk result (λ b. IsSome b ↔ IsTrue (closes self.old packet class)) }
        ensures burst { IfOk result (λ b. IfSome b (λ b. b.items ≡ with_packet self.old packet class)) }
        // A burst has no more packets than a cutter's limit may be.
        ensures few { IfOk result (λ b. IfSome b (λ b. length b.items ≤ 65536)) }
        ensures added { OnOk result (self.new ≡ after self.old packet class) }
        ensures err { OnErr result (self.new ≡ self.old) }
    {
        let number = self.added + 1;
        let bytes = self.bytes + packet.frame.bytes().len();
        let is_full = self.held.as_slice().len() + 1 >= self.limit as usize || bytes >= BURST_BYTES;
        let item = Item {
            number,
            class,
            packet,
        };
        if !is_full {
            self.held.push(item)?;
            self.added = number;
            self.bytes = bytes;
            return Ok(None);
        }
        let next = Items::new(Vec::with_capacity(self.alloc, self.limit as usize)?);
        self.held.push(item)?;
        self.added = number;
        self.bytes = 0;
        Ok(Some(Burst {
            items: mem::replace(&mut self.held, next),
        }))
    }

    /// Closes the open burst, which may be empty, and returns it; the numbers continue with the next packet. If memory
    /// runs out nothing changes.
    pub fn cut_now(&mut self) -> Result<Burst, AllocError>
        ensures burst { IfOk result (λ b. b.items ≡ self.old.held) }
        ensures few { IfOk result (λ b. length b.items ≤ 65536) }
        ensures closed { OnOk result (self.new ≡ closed_now self.old) }
        ensures err { OnErr result (self.new ≡ self.old) }
    {
        let next = Items::new(Vec::with_capacity(self.alloc, self.limit as usize)?);
        self.bytes = 0;
        Ok(Burst {
            items: mem::replace(&mut self.held, next),
        })
    }

    /// The open burst, which may be empty.
    pub fn rest(self) -> Burst
        ensures items { result.items ≡ self.held }
        ensures few { length result.items ≤ 65536 }
    {
        Burst { items: self.held }
    }
}
