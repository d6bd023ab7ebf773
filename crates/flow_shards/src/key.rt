//! The key of a flow, and the worker whose shard it is in.
ghost use Rattle.std.specs.Prelude.{◌≡◌, ◌≤◌, ◌<◌, ◌^◌, false};
ghost use Rattle.flow_line.specs.Versions.{FitsVersion};
ghost use Rattle.flow_shards.specs.Flows.{is_wide, address_number, key_of};
ghost use Rattle.flow_shards.specs.Sharding.{shard_of};

use flow_line::FlowKey;
use packet_function::FiveTuple;
use std::net::IpAddr;

/// The key of a flow. It is wide if one of its addresses is of IPv6.
pub fn key_of(flow: &FiveTuple) -> FlowKey
    ensures key { result ≡ key_of flow.now }
    ensures fits { FitsVersion (key_of flow.now) }
{
    FlowKey {
        wide: is_wide(&flow.source.address) || is_wide(&flow.destination.address),
        proto: flow.proto,
        src: address_number(&flow.source.address),
        sport: flow.source.port,
        dst: address_number(&flow.destination.address),
        dport: flow.destination.port,
    }
}

/// The worker, counted from 0, that has the flow of this key.
pub fn shard_of(key: &FlowKey, workers: u32) -> u32
    requires some { 1 ≤ workers }
    requires few { workers ≤ 16 }
    ensures shard { result ≡ shard_of workers key.now }
    ensures inside { result < workers }
{
    let addresses = (key.src % 65_536) as u32 + (key.dst % 65_536) as u32;
    let ports = u32::from(key.sport.unwrap_or(0)) + u32::from(key.dport.unwrap_or(0));
    (addresses + ports + u32::from(key.proto)) % workers
}

fn is_wide(address: &IpAddr) -> bool
    ensures { result ≡ is_wide address.now }
{
    match address {
        IpAddr::V4(_) => false,
        IpAddr::V6(_) => true,
    }
}

fn address_number(address: &IpAddr) -> u128
    ensures number { result ≡ address_number address.now }
    ensures narrow { is_wide address.now ≡ false → address_number address.now < 2 ^ 32 }
{
    match address {
        IpAddr::V4(address) => u128::from(address.to_bits()),
        IpAddr::V6(address) => address.to_bits(),
    }
}
