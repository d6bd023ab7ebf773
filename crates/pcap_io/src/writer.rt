ghost use Rattle.std.specs.Prelude.{◌≡◌, ◌<◌, ◌^◌, length};
ghost use Rattle.pcap_io.specs.Capture.{magic_of};
ghost use Rattle.pcap_io.specs.Written.{head_bytes, record_head};

use crate::capture::CaptureHead;
use crate::parse::{ETHERNET, HEAD_LEN, MAGIC_MICRO, MAGIC_NANO, VERSION_MAJOR, VERSION_MINOR};
use crate::record::RECORD_HEAD_LEN;
use capture_bytes::{Endian, PcapRecord, Unit, put_u16, put_u32};
use nfp_outside::{Desk, OutsideFault, Slot, write_whole};
use std::marker::Model;

/// Writes a capture into the slot Out of a desk: its head, and then its records.
///
/// Contracts see a writer as the order of the capture's numbers. Neither call allocates memory. After an error Out
/// holds a front part of what was to be written, and the writer must not be used again.
#[derive(Drop)]
pub struct Writer {
    order: Endian,
}

impl Model for Writer {
    ghost use Rattle.capture_bytes.specs.declared.order.Endian.{Endian};

    ghost Value = { Endian };

    ghost view = { λ w. w.order };
}

impl Writer {
    ghost use Rattle.std.specs.Prelude.{◌≡◌, ◌≢◌, ◌<◌, ◌^◌, IsSome, IfOk, OnOk, OnErr, length};
    ghost use Rattle.nfp_outside.specs.declared.slot.Slot.{Slot};
    ghost use Rattle.nfp_outside.specs.Outside.{Appends, AppendsPrefix, WriteCause};
    ghost use Rattle.pcap_io.specs.Written.{head_bytes, record_bytes};

    /// Writes the head, in one piece of 24 bytes, and returns a writer of the head's order.
    ///
    /// `WriteFault` of Out only if its count of faults rose; `OutOfMemory` only if the desk had no memory.
    pub fn begin<D: Desk>(desk: &mut D, head: &CaptureHead) -> Result<Writer, OutsideFault>
        requires { IsSome (D.slots desk.old Slot.Out).name }
        ensures order { IfOk result (λ writer. writer ≡ head.now.order) }
        ensures ok { OnOk result (Appends (head_bytes head.now) (D.slots desk.old Slot.Out) (D.slots desk.new Slot.Out)) }
        ensures err { OnErr result (AppendsPrefix (head_bytes head.now) (D.slots desk.old Slot.Out) (D.slots desk.new Slot.Out)) }
        ensures cause { WriteCause Slot.Out (D.slots desk.old Slot.Out) (D.slots desk.new Slot.Out) result }
        ensures others { (s : Slot) → s ≢ Slot.Out → D.slots desk.new s ≡ D.slots desk.old s }
    {
        write_whole(desk, Slot::Out, &spell_head(head))?;
        Ok(Writer { order: head.order })
    }

    /// Writes a record: its head in one piece of 16 bytes, and its frame in another.
    ///
    /// It has the errors of `begin`.
    #[tactic(auto, using(nfp_outside::specs::Adding::prefix_longer, nfp_outside::specs::Adding::prefix_more))]
    pub fn put<D: Desk>(&mut self, desk: &mut D, packet: &PcapRecord) -> Result<(), OutsideFault>
        requires attached { IsSome (D.slots desk.old Slot.Out).name }
        requires short { length packet.now.frame < 2 ^ 32 }
        ensures same { self.new ≡ self.old }
        ensures ok { OnOk result (Appends (record_bytes self.old packet.now) (D.slots desk.old Slot.Out) (D.slots desk.new Slot.Out)) }
        ensures err { OnErr result (AppendsPrefix (record_bytes self.old packet.now) (D.slots desk.old Slot.Out) (D.slots desk.new Slot.Out)) }
        ensures cause { WriteCause Slot.Out (D.slots desk.old Slot.Out) (D.slots desk.new Slot.Out) result }
        ensures others { (s : Slot) → s ≢ Slot.Out → D.slots desk.new s ≡ D.slots desk.old s }
    {
        let head = spell_record_head(self.order, packet);
        if let Err(fault) = write_whole(desk, Slot::Out, &head) {
            return Err(fault);
        }
        write_whole(desk, Slot::Out, packet.frame.bytes())
    }
}

fn spell_head(head: &CaptureHead) -> [u8; HEAD_LEN]
    ensures { result ≡ head_bytes head.now }
{
    let mut bytes = [0; HEAD_LEN];
    put_u32(head.order, &mut bytes, 0, magic_number(head.unit));
    put_u16(head.order, &mut bytes, 4, VERSION_MAJOR);
    put_u16(head.order, &mut bytes, 6, VERSION_MINOR);
    put_u32(head.order, &mut bytes, 8, head.zone);
    put_u32(head.order, &mut bytes, 12, head.sigfigs);
    put_u32(head.order, &mut bytes, 16, head.snaplen);
    put_u32(head.order, &mut bytes, 20, ETHERNET);
    bytes
}

fn magic_number(unit: Unit) -> u32
    ensures { result ≡ magic_of unit }
{
    match unit {
        Unit::Micro => MAGIC_MICRO,
        Unit::Nano => MAGIC_NANO,
    }
}

fn spell_record_head(order: Endian, packet: &PcapRecord) -> [u8; RECORD_HEAD_LEN]
    requires { length packet.now.frame < 2 ^ 32 }
    ensures { result ≡ record_head order packet.now }
{
    let mut bytes = [0; RECORD_HEAD_LEN];
    put_u32(order, &mut bytes, 0, packet.seconds);
    put_u32(order, &mut bytes, 4, packet.fraction);
    put_u32(order, &mut bytes, 8, packet.frame.bytes().len() as u32);
    put_u32(order, &mut bytes, 12, packet.wire);
    bytes
}
