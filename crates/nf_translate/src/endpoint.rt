//! One end of a flow.

/// The source of packets: their protocol, an IPv4 address and a port (RFC 791, RFC 793, RFC 768).
#[derive(Clone, Copy, Debug, Eq, Hash)]
pub struct Endpoint {
    pub proto: u8,
    pub address: u32,
    pub port: u16,
}

impl PartialEq for Endpoint {
    ghost use Rattle.std.specs.Prelude.{◌==◌, ◌&&◌};
    ghost use Rattle.std.proofs.Common.{rules};
    ghost use Rattle.std.specs.Cmp.Rules.{comparing};

    ghost eq = { λ a b. a.proto == b.proto && (a.address == b.address && a.port == b.port) };

    ghost laws = { Prim.search (comparing, rules) };

    fn eq(&self, other: &Endpoint) -> bool {
        self.proto == other.proto && self.address == other.address && self.port == other.port
    }
}
