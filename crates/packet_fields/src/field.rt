//! The names of the fields.
ghost use Rattle.std.specs.Prelude.{◌≡◌, ◌<◌};
ghost use Rattle.packet_fields.specs.Fields.{number_of, name_of};

/// A field of a frame that a network function can write, in their order in the frame.
#[derive(Clone, Copy, Debug, PartialEq, Eq)]
pub enum Field {
    /// The destination's link address, 6 bytes (IEEE 802.3, 3.2.3).
    LinkDst,
    /// The source's link address, 6 bytes (IEEE 802.3, 3.2.3).
    LinkSrc,
    /// The list of tags, 4 bytes each, possibly empty (IEEE 802.1Q, 9.3).
    Tag,
    /// The type of service of IPv4, 1 byte (RFC 791, 3.1). IPv6's traffic class isn't a field.
    Tos,
    /// The time to live, 1 byte (RFC 791, 3.1), which IPv6 names hop limit (RFC 8200, 3).
    Ttl,
    /// The source address, 4 bytes (RFC 791, 3.1) or 16 (RFC 8200, 3).
    SrcIp,
    /// The destination address, 4 bytes (RFC 791, 3.1) or 16 (RFC 8200, 3).
    DstIp,
    /// The source port, 2 bytes (RFC 793, 3.1; RFC 768).
    SrcPort,
    /// The destination port, 2 bytes (RFC 793, 3.1; RFC 768).
    DstPort,
    /// The data after the transport header, possibly empty (RFC 793, 3.1; RFC 768).
    Payload,
}

impl Field {
    /// The field's place in the order of the fields, from 0.
    pub fn number(self) -> usize
        ensures number { result ≡ number_of self }
        ensures below { result < 10 }
    {
        match self {
            Field::LinkDst => 0,
            Field::LinkSrc => 1,
            Field::Tag => 2,
            Field::Tos => 3,
            Field::Ttl => 4,
            Field::SrcIp => 5,
            Field::DstIp => 6,
            Field::SrcPort => 7,
            Field::DstPort => 8,
            Field::Payload => 9,
        }
    }

    /// The field's name in printed texts.
    pub fn name(self) -> &'static str
        ensures { result.now ≡ name_of self }
    {
        match self {
            Field::LinkDst => "link-dst",
            Field::LinkSrc => "link-src",
            Field::Tag => "tag",
            Field::Tos => "tos",
            Field::Ttl => "ttl",
            Field::SrcIp => "src",
            Field::DstIp => "dst",
            Field::SrcPort => "sport",
            Field::DstPort => "dport",
            Field::Payload => "payload",
        }
    }
}
