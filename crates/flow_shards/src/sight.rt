//! The values of a packet that are counted.
use crate::key::key_of;
use capture_bytes::Unit;
use classifier::Item;
use frame_seen::{seen_ip_address, seen_port};
use packet_fields::{Field, Outline};
use packet_function::{Endpoint, FiveTuple};

/// A packet of a flow, and what it adds to the flow's line.
#[derive(Clone, Copy, Debug)]
pub struct Sight {
    pub flow: FiveTuple,
    /// Its IP length (RFC 791, 3.1; RFC 8200, 3).
    pub bytes: u16,
    /// The number of its record, from 1.
    pub number: u32,
    /// The time of its record in nanoseconds.
    pub time: u64,
    /// The control bits of its TCP header (RFC 793, 3.1), or 0 if it has none.
    pub flags: u8,
}

impl Sight {
    ghost use Rattle.std.specs.Prelude.{◌≡◌, IfSome};
    ghost use Rattle.flow_shards.specs.Flows.{sight_of};
    ghost use Rattle.flow_shards.specs.Sharding.{HasFittingFlow};

    /// The sight of a packet, if it belongs to a flow.
    pub fn of(item: &Item, unit: Unit) -> Option<Sight>
        ensures seen { result ≡ sight_of unit item.now }
        ensures fits { IfSome result HasFittingFlow }
    {
        let frame = item.packet.frame.bytes();
        let outline = Outline::of(frame);
        let flow = flow_in(&outline, frame)?;
        // The call shows that the addresses have the length of their version of IP.
        let _key = key_of(&flow);
        Some(Sight {
            flow,
            bytes: outline.total_len(frame)?,
            number: item.number,
            time: item.packet.time(unit),
            flags: outline.control_bits(frame).unwrap_or(0),
        })
    }
}

ghost use Rattle.std.specs.Prelude.{◌≡◌};
ghost use Rattle.packet_fields.specs.Outlines.{outline_of};
ghost use Rattle.flow_shards.specs.Flows.{flow_in};

/// The flow of a frame, by its outline.
fn flow_in(outline: &Outline, frame: &[u8]) -> Option<FiveTuple>
    requires { outline.now ≡ outline_of frame.now }
    ensures { result ≡ flow_in frame.now }
{
    Some(FiveTuple {
        proto: outline.protocol(frame)?,
        source: Endpoint {
            address: seen_ip_address(outline.get(Field::SrcIp, frame))?,
            port: seen_port(outline.get(Field::SrcPort, frame)),
        },
        destination: Endpoint {
            address: seen_ip_address(outline.get(Field::DstIp, frame))?,
            port: seen_port(outline.get(Field::DstPort, frame)),
        },
    })
}
