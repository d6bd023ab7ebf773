//! Puts lines into packets, and the packets into the slot Out.
ghost use Rattle.std.specs.Prelude.{◌≡◌, ◌≢◌, ◌≤◌, ◌<◌, ◌+◌, ◌*◌, ◌^◌, ◌++◌, ◌∷◌, [], All, IfOk, IsSome, OnErr, OnOk, count_by, drop, length, take};
ghost use Rattle.std.specs.List.{flat_map};
ghost use Rattle.nfp_outside.specs.declared.slot.Slot.{Slot};
ghost use Rattle.nfp_outside.specs.Outside.{Appends, AppendsPrefix, WriteCause};
ghost use Rattle.flow_line.specs.Versions.{HasFittingKey};
ghost use Rattle.flow_export.specs.Layouts.{record_bytes};
ghost use Rattle.flow_export.specs.Exports.{export_bytes, exported, packet_bytes, packet_count, record_of};

use crate::field::put_fields;
use crate::span::Span5;
use flow_line::FlowLine;
use nfp_outside::{Desk, OutsideFault, Slot, write_whole};
use std::alloc::Global;

/// The greatest number of records of a packet.
const RECORDS: usize = 30;

/// The greatest number of bytes of a packet: a header of 24, and 30 records of 48.
const PACKET_LEN: usize = 1464;

/// Puts the export packets of all lines of IPv4 into Out, each in one piece, and returns the number of packets. It
/// allocates the memory of one packet before it writes any.
///
/// `WriteFault` of Out only if its count of faults rose. After an error Out holds a front part of what was to be
/// written.
pub fn export<D: Desk>(
    alloc: Global,
    desk: &mut D,
    lines: &[FlowLine],
    span: &Span5,
) -> Result<u32, OutsideFault>
    requires attached { IsSome (D.slots desk.old Slot.Out).name }
    requires few { length lines.now < 2 ^ 32 }
    requires origin { span.now.origin < 2 ^ 63 }
    requires greatest { span.now.greatest < 2 ^ 63 }
    requires fits { All HasFittingKey lines.now }
    ensures count { IfOk result (λ packets. packets ≡ packet_count (length (exported lines.now))) }
    ensures ok { OnOk result (Appends (export_bytes span.now lines.now) (D.slots desk.old Slot.Out) (D.slots desk.new Slot.Out)) }
    ensures err { OnErr result (AppendsPrefix (export_bytes span.now lines.now) (D.slots desk.old Slot.Out) (D.slots desk.new Slot.Out)) }
    ensures cause { WriteCause Slot.Out (D.slots desk.old Slot.Out) (D.slots desk.new Slot.Out) result }
    ensures others { (s : Slot) → s ≢ Slot.Out → D.slots desk.new s ≡ D.slots desk.old s }
{
    let Ok(mut buffer) = vec![in alloc; 0; PACKET_LEN] else {
        return Err(OutsideFault::OutOfMemory);
    };
    let packets = exported_count(lines).div_ceil(RECORDS) as u32;
    match send(desk, &mut buffer, lines, span, packets) {
        Ok(()) => Ok(packets),
        Err(fault) => Err(fault),
    }
}

/// Puts the packets of all lines into Out. `packets` is their number.
fn send<D: Desk>(
    desk: &mut D,
    buffer: &mut [u8],
    lines: &[FlowLine],
    span: &Span5,
    packets: u32,
) -> Result<(), OutsideFault>
    requires attached { IsSome (D.slots desk.old Slot.Out).name }
    requires room { length buffer.old ≡ 1464 }
    requires few { length lines.now < 2 ^ 32 }
    requires origin { span.now.origin < 2 ^ 63 }
    requires fits { All HasFittingKey lines.now }
    requires count { packets ≡ packet_count (length (exported lines.now)) }
    ensures ok { OnOk result (Appends (export_bytes span.now lines.now) (D.slots desk.old Slot.Out) (D.slots desk.new Slot.Out)) }
    ensures err { OnErr result (AppendsPrefix (export_bytes span.now lines.now) (D.slots desk.old Slot.Out) (D.slots desk.new Slot.Out)) }
    ensures cause { WriteCause Slot.Out (D.slots desk.old Slot.Out) (D.slots desk.new Slot.Out) result }
    ensures others { (s : Slot) → s ≢ Slot.Out → D.slots desk.new s ≡ D.slots desk.old s }
{
    let mut rest = lines;
    'packets: for number in 0..packets {
        let (now, later) = split_packet(rest);
        let end = put_packet(buffer, span, number * 30, now);
        if let Err(fault) = write_whole(desk, Slot::Out, &buffer[..end]) {
            return Err(fault);
        }
        rest = later;
    }
    Ok(())
}

/// The number of lines that are exported.
fn exported_count(lines: &[FlowLine]) -> usize
    ensures count { result ≡ length (exported lines.now) }
    ensures few { result ≤ length lines.now }
{
    lines.iter().filter(|line| !line.key.wide).count()
}

/// The lines of the next packet, with others that aren't exported, and the lines after them.
fn split_packet(lines: &[FlowLine]) -> (&[FlowLine], &[FlowLine])
    ensures parts { result.0.now ++ result.1.now ≡ lines.now }
    ensures front { exported result.0.now ≡ take 30 (exported lines.now) }
    ensures back { exported result.1.now ≡ drop 30 (exported lines.now) }
{
    let mut count = 0;
    'lines: for (place, line) in lines.iter().enumerate() {
        if count == RECORDS {
            return lines.split_at(place);
        }
        count += usize::from(!line.key.wide);
    }
    lines.split_at(lines.len())
}

/// Writes the packet of these lines into the front of the buffer, after `before` records in earlier packets, and
/// returns where it ends.
fn put_packet(buffer: &mut [u8], span: &Span5, before: u32, lines: &[FlowLine]) -> usize
    requires room { length buffer.old ≡ 1464 }
    requires few { length (exported lines.now) ≤ 30 }
    requires origin { span.now.origin < 2 ^ 63 }
    requires fits { All HasFittingKey lines.now }
    ensures inside { result ≤ length buffer.new }
    ensures written { take result buffer.new ≡ packet_bytes span.now before (exported lines.now) }
{
    let header = span.header(before, exported_count(lines) as u16);
    let mut end = put_fields(buffer, 0, &header.fields());
    'lines: for line in lines {
        end = put_line(buffer, end, span, line);
    }
    end
}

/// Writes the record of a line at a place, if the line is exported, and returns where it ends.
fn put_line(buffer: &mut [u8], at: usize, span: &Span5, line: &FlowLine) -> usize
    requires room { at + 48 * length (exported (line.now ∷ [])) ≤ length buffer.old }
    requires fits { HasFittingKey line.now }
    ensures end { result ≡ at + 48 * length (exported (line.now ∷ [])) }
    ensures written { take result buffer.new ≡ take at buffer.old ++ flat_map (λ l. record_bytes (record_of span.now l)) (exported (line.now ∷ [])) }
{
    if line.key.wide {
        return at;
    }
    put_fields(buffer, at, &span.record(line).fields())
}
