//! Flows: what distinguishes them.
ghost use Rattle.std.specs.Cmp.{partial_equiv_from_equiv};
ghost use Rattle.packet_function.specs.SameFlow.{is_same_endpoint, is_same_flow};
ghost use Rattle.packet_function.specs.SameFlowLaws.{same_endpoint, same_flow, flow_end_writes, flow_end_alike};

use first_sight::{hash_endpoint, same_address};
use std::hash::{Hash, Hasher};
use std::net::IpAddr;

/// An address of either version of IP, and a port there. The bytes of the port are read most significant first.
#[derive(Clone, Copy, Debug)]
pub struct Endpoint {
    /// An address of IPv4 is never one of IPv6, so flows of both versions stay apart.
    pub address: IpAddr,
    /// `None` if the packet has no ports, such as a fragment that isn't the first.
    pub port: Option<u16>,
}

impl PartialEq for Endpoint {
    ghost eq = { is_same_endpoint };

    ghost laws = { partial_equiv_from_equiv same_endpoint };

    fn eq(&self, other: &Endpoint) -> bool {
        same_address(&self.address, &other.address) && self.port == other.port
    }
}

impl Eq for Endpoint {
    ghost laws = { same_endpoint };
}

impl Hash for Endpoint {
    ghost hash_input = { flow_end_writes };

    ghost respects_eq = { flow_end_alike };

    fn hash<H: Hasher>(&self, state: &mut H) {
        // An absent port is hashed as 0, which hardly any packet has.
        hash_endpoint(&self.address, self.port.unwrap_or(0), state);
    }
}

/// What distinguishes flows.
#[derive(Clone, Copy, Hash, Debug)]
pub struct FiveTuple {
    /// The IPv4 header's protocol (RFC 791, 3.1), or the IPv6 header's next header (RFC 8200, 3).
    pub proto: u8,
    pub source: Endpoint,
    pub destination: Endpoint,
}

impl PartialEq for FiveTuple {
    ghost eq = { is_same_flow };

    ghost laws = { partial_equiv_from_equiv same_flow };

    fn eq(&self, other: &FiveTuple) -> bool {
        self.proto == other.proto
            && self.source == other.source
            && self.destination == other.destination
    }
}

impl Eq for FiveTuple {
    ghost laws = { same_flow };
}
