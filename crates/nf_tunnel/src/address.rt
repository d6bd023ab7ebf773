//! Addresses in the lines of a tunnel.
ghost use Rattle.std.specs.Prelude.{◌≡◌};
ghost use Rattle.nf_tunnel.specs.TunnelLines.{ipv4_address, address_by};

use policy_text::address;
use std::net::Ipv4Addr;

/// An address in four decimal numbers (RFC 791).
pub fn address_by(text: &[u8]) -> Option<Ipv4Addr>
    ensures { result ≡ address_by text.now }
{
    address(text).map(ipv4_address)
}

/// The address that is this number, whose highest byte comes first.
#[tactic(auto, unfolding(std::specs::Net::Addr::IsIpv4OfBits))]
pub fn ipv4_address(bits: u32) -> Ipv4Addr
    ensures { result ≡ ipv4_address bits }
{
    Ipv4Addr::from_bits(bits)
}
