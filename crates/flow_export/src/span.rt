//! The span of a capture, and the headers and records that depend on it.
ghost use Rattle.std.specs.Prelude.{◌≡◌, ◌≤◌, ◌<◌, ◌^◌, false};
ghost use Rattle.flow_line.specs.Versions.{HasFittingKey};
ghost use Rattle.flow_export.specs.Exports.{header_of, millis, record_of, up_to_32};

use crate::layout::{Header, Record};
use flow_line::FlowLine;

const NANOS_OF_A_MILLI: u64 = 1_000_000;

const NANOS_OF_A_SECOND: u64 = 1_000_000_000;

/// From the least time of a capture's records to the greatest, in nanoseconds since 1970.
#[derive(Clone, Copy, PartialEq, Eq, Debug)]
pub struct Span5 {
    /// The least time of a record.
    pub origin: u64,
    /// The greatest time of a record.
    pub greatest: u64,
}

impl Span5 {
    /// The header of a packet of `count` records, after `before` records in earlier packets.
    pub(crate) fn header(&self, before: u32, count: u16) -> Header
        requires { self.now.origin < 2 ^ 63 }
        ensures { result ≡ header_of self.now before count }
    {
        let sys_uptime = self.millis(self.greatest);
        let moment = self.origin + u64::from(sys_uptime) * NANOS_OF_A_MILLI;
        Header {
            version: 5,
            count,
            sys_uptime,
            unix_secs: up_to_32(moment / NANOS_OF_A_SECOND),
            unix_nsecs: (moment % NANOS_OF_A_SECOND) as u32,
            flow_sequence: before,
            engine_type: 0,
            engine_id: 0,
            sampling_interval: 0,
        }
    }

    /// The record of a line of IPv4.
    pub(crate) fn record(&self, line: &FlowLine) -> Record
        requires narrow { line.now.key.wide ≡ false }
        requires fits { HasFittingKey line.now }
        ensures { result ≡ record_of self.now line.now }
    {
        Record {
            srcaddr: line.key.src as u32,
            dstaddr: line.key.dst as u32,
            nexthop: 0,
            input: 0,
            output: 0,
            d_pkts: up_to_32(line.packets),
            d_octets: up_to_32(line.bytes),
            first: self.millis(line.begun),
            last: self.millis(line.last),
            srcport: line.key.sport.unwrap_or(0),
            dstport: line.key.dport.unwrap_or(0),
            pad1: 0,
            tcp_flags: line.flags,
            prot: line.key.proto,
            tos: 0,
            src_as: 0,
            dst_as: 0,
            src_mask: 0,
            dst_mask: 0,
            pad2: 0,
        }
    }

    /// The milliseconds from the least time of the records to a time.
    fn millis(&self, time: u64) -> u32
        ensures { result ≡ millis self.now time }
    {
        up_to_32(time.saturating_sub(self.origin) / NANOS_OF_A_MILLI)
    }
}

fn up_to_32(number: u64) -> u32
    ensures { result ≡ up_to_32 number }
{
    number.min(u64::from(u32::MAX)) as u32
}
