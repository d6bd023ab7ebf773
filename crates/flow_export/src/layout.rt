//! The header and the records of an export packet, field by field, with Cisco's names.
ghost use Rattle.std.specs.Prelude.{◌≡◌};
ghost use Rattle.flow_export.specs.Layouts.{header_fields, record_fields};

use crate::field::Field;

/// The header of a packet.
#[derive(Clone, Copy, PartialEq, Eq, Debug)]
pub struct Header {
    /// Of the format: 5.
    pub version: u16,
    /// The number of records of this packet.
    pub count: u16,
    /// Milliseconds since the exporter started.
    pub sys_uptime: u32,
    /// The moment of the export: seconds since 1970.
    pub unix_secs: u32,
    /// The moment of the export: the nanoseconds beyond those seconds.
    pub unix_nsecs: u32,
    /// The number of records of all packets before.
    pub flow_sequence: u32,
    pub engine_type: u8,
    pub engine_id: u8,
    pub sampling_interval: u16,
}

impl Header {
    /// Its fields in the order in which they are written.
    pub fn fields(&self) -> [Field; 9]
        ensures { result ≡ header_fields self.now }
    {
        [
            Field::Short(self.version),
            Field::Short(self.count),
            Field::Long(self.sys_uptime),
            Field::Long(self.unix_secs),
            Field::Long(self.unix_nsecs),
            Field::Long(self.flow_sequence),
            Field::Byte(self.engine_type),
            Field::Byte(self.engine_id),
            Field::Short(self.sampling_interval),
        ]
    }
}

/// The record of a flow.
#[derive(Clone, Copy, PartialEq, Eq, Debug)]
pub struct Record {
    pub srcaddr: u32,
    pub dstaddr: u32,
    pub nexthop: u32,
    pub input: u16,
    pub output: u16,
    pub d_pkts: u32,
    pub d_octets: u32,
    /// The exporter's uptime at the least time of the flow's packets, in milliseconds.
    pub first: u32,
    /// The exporter's uptime at the greatest time of the flow's packets, in milliseconds.
    pub last: u32,
    pub srcport: u16,
    pub dstport: u16,
    pub pad1: u8,
    pub tcp_flags: u8,
    pub prot: u8,
    pub tos: u8,
    pub src_as: u16,
    pub dst_as: u16,
    pub src_mask: u8,
    pub dst_mask: u8,
    pub pad2: u16,
}

impl Record {
    /// Its fields in the order in which they are written.
    pub fn fields(&self) -> [Field; 20]
        ensures { result ≡ record_fields self.now }
    {
        [
            Field::Long(self.srcaddr),
            Field::Long(self.dstaddr),
            Field::Long(self.nexthop),
            Field::Short(self.input),
            Field::Short(self.output),
            Field::Long(self.d_pkts),
            Field::Long(self.d_octets),
            Field::Long(self.first),
            Field::Long(self.last),
            Field::Short(self.srcport),
            Field::Short(self.dstport),
            Field::Byte(self.pad1),
            Field::Byte(self.tcp_flags),
            Field::Byte(self.prot),
            Field::Byte(self.tos),
            Field::Short(self.src_as),
            Field::Short(self.dst_as),
            Field::Byte(self.src_mask),
            Field::Byte(self.dst_mask),
            Field::Short(self.pad2),
        ]
    }
}
