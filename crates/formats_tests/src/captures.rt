// Captures through desks in memory; the tests themselves have ample memory.
ghost use Rattle.std.specs.Prelude.{IsNone};
ghost use Rattle.nfp_outside.specs.declared.slot.Slot.{Slot};

use crate::plenty::had;
use nfp_outside::{Desk, FixedDesk, MemDesk, Slot};
use pcap_io::{CaptureFault, PcapFault, Reader, Writer};
use std::alloc::Global;
use std::process::Abort;

// Little-endian, in microseconds.
const HEAD: [u8; 24] = [
    0xd4, 0xc3, 0xb2, 0xa1, 2, 0, 4, 0, 0, 0, 0, 0, 0, 0, 0, 0, 0xff, 0xff, 0, 0, 1, 0, 0, 0,
];

// Big-endian, in nanoseconds.
const NANO_HEAD: [u8; 24] = [
    0xa1, 0xb2, 0x3c, 0x4d, 0, 2, 0, 4, 0, 0, 0, 0, 0, 0, 0, 0, 0, 0, 0xff, 0xff, 0, 0, 0, 1,
];

// A record of two bytes, at second 1 and fraction 258, of 60 bytes on the wire.
const RECORD: [u8; 18] = [1, 0, 0, 0, 2, 1, 0, 0, 2, 0, 0, 0, 60, 0, 0, 0, 0xab, 0xcd];

const NANO_RECORD: [u8; 18] = [0, 0, 0, 1, 0, 0, 1, 2, 0, 0, 0, 2, 0, 0, 0, 60, 0xab, 0xcd];

// Reads a capture of one record, and writes it: the time of the record.
fn copy<D: Desk>(rt: &impl Abort, alloc: Global, desk: &mut D) -> Option<u64>
    requires { (s : Slot) → IsNone (D.slots desk.old s).name }
{
    had(rt, desk.attach(Slot::Capture, "capture"));
    had(rt, desk.attach(Slot::Out, "out"));
    let (head, mut reader) = had(rt, Reader::begin(desk));
    let mut writer = had(rt, Writer::begin(desk, &head));
    match had(rt, reader.next(alloc, desk)) {
        Some(packet) => {
            had(rt, writer.put(desk, &packet));
            Some(packet.time(head.unit))
        }
        None => None,
    }
}

// A capture of this head and this record.
fn of_one(rt: &impl Abort, alloc: Global, head: &[u8], record: &[u8]) -> Vec<u8> {
    let mut bytes = had(rt, head.to_vec(alloc));
    had(rt, bytes.extend_from_slice(record));
    bytes
}

// Is a capture of this head and this record, which is of this time, the same when it is copied?
fn is_copied(rt: &impl Abort, alloc: Global, head: &[u8], record: &[u8], time: u64) -> bool {
    let bytes = of_one(rt, alloc, head, record);
    let wanted = of_one(rt, alloc, head, record);
    let mut desk = FixedDesk::new(alloc, Vec::new(alloc), bytes, 7);
    let copied = copy(rt, alloc, &mut desk);
    copied == Some(time) && desk.put(Slot::Out) == wanted.as_slice()
}

#[test]
fn a_copied_capture_is_the_same(rt: HostRuntime) {
    assert!(rt; is_copied(&rt, rt.alloc(), &HEAD, &RECORD, 1_000_258_000));
    assert!(rt; is_copied(&rt, rt.alloc(), &NANO_HEAD, &NANO_RECORD, 1_000_000_258));
}

// The length of the first frame of a capture, or why there is none.
fn first_length<D: Desk>(alloc: Global, desk: &mut D) -> Result<Option<usize>, PcapFault>
    requires { (s : Slot) → IsNone (D.slots desk.old s).name }
{
    if desk.attach(Slot::Capture, "capture").is_err() {
        return Err(PcapFault::OutOfMemory);
    }
    let (_, mut reader) = Reader::begin(desk)?;
    match reader.next(alloc, desk)? {
        Some(packet) => Ok(Some(packet.frame.bytes().len())),
        None => Ok(None),
    }
}

// A capture whose one record claims a frame of `length` bytes, and has 262,144.
fn claiming(rt: &impl Abort, alloc: Global, length: u32) -> Vec<u8> {
    let [a, b, c, d] = length.to_le_bytes();
    let record = [0, 0, 0, 0, 0, 0, 0, 0, a, b, c, d, a, b, c, d];
    let mut bytes = of_one(rt, alloc, &HEAD, &record);
    had(rt, bytes.resize(24 + 16 + 262_144, 0));
    bytes
}

fn claimed(rt: &impl Abort, alloc: Global, length: u32) -> Result<Option<usize>, PcapFault> {
    let bytes = claiming(rt, alloc, length);
    let mut desk = MemDesk::new(alloc, Vec::new(alloc), bytes, 65536, Vec::new(alloc));
    first_length(alloc, &mut desk)
}

#[test]
fn the_longest_frame_is_read_and_a_longer_one_refused(rt: HostRuntime) {
    assert_eq!(rt; claimed(&rt, rt.alloc(), 262_144), Ok(Some(262_144)));
    let too_long = PcapFault::Capture(CaptureFault::FrameTooLong(1, 262_145));
    assert_eq!(rt; claimed(&rt, rt.alloc(), 262_145), Err(too_long));
}

// The result of reading a capture of one record if this call on it fails.
fn failed(rt: &impl Abort, alloc: Global, call: u64) -> Result<Option<usize>, PcapFault> {
    let bytes = of_one(rt, alloc, &HEAD, &RECORD);
    let fails = had(rt, Vec::from_array(alloc, [(Slot::Capture, call)]));
    let mut desk = MemDesk::new(alloc, Vec::new(alloc), bytes, 7, fails);
    first_length(alloc, &mut desk)
}

#[test]
fn a_failed_read_is_told(rt: HostRuntime) {
    let fault = PcapFault::ReadFault(Slot::Capture);
    assert_eq!(rt; failed(&rt, rt.alloc(), 1), Err(fault));
    assert_eq!(rt; failed(&rt, rt.alloc(), 5), Err(fault));
}
