//! A client of a virtual address.
ghost use Rattle.std.specs.Cmp.{partial_equiv_from_equiv};
ghost use Rattle.nf_translate.specs.Clients.{is_same};
ghost use Rattle.nf_translate.specs.ClientLaws.{same_client, client_writes, client_alike};

use first_sight::{hash_endpoint, same_address};
use std::hash::{Hash, Hasher};
use std::net::IpAddr;

/// The source of the packets of a flow: their protocol, an address of IPv4 or of IPv6, and a port (RFC 791, RFC 8200,
/// RFC 793, RFC 768).
#[derive(Clone, Copy, Debug)]
pub struct Client {
    pub proto: u8,
    pub address: IpAddr,
    pub port: u16,
}

impl PartialEq for Client {
    ghost eq = { is_same };

    ghost laws = { partial_equiv_from_equiv same_client };

    fn eq(&self, other: &Client) -> bool {
        self.proto == other.proto
            && same_address(&self.address, &other.address)
            && self.port == other.port
    }
}

impl Eq for Client {
    ghost laws = { same_client };
}

impl Hash for Client {
    ghost hash_input = { client_writes };

    ghost respects_eq = { client_alike };

    fn hash<H: Hasher>(&self, state: &mut H) {
        self.proto.hash(state);
        hash_endpoint(&self.address, self.port, state);
    }
}
