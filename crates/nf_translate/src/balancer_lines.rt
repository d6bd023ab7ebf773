//! The lines that set a balancer up.
ghost use Rattle.std.specs.Prelude.{◌≡◌, find};
ghost use Rattle.std.specs.List.{list_any};
ghost use Rattle.std.specs.Option.{option_copied};
ghost use Rattle.nf_translate.specs.Addresses.{ip_address_of, ipv4_address, ipv6_address, is_same_version};
ghost use Rattle.nf_translate.specs.BalancerLines.{virtual_address_of, backend_of, is_virtual_address, is_backend, virtual_in, virtual_address_by, clashes};

use function_lines::FunctionLine;
use policy_text::{Word, address, address6};
use std::alloc::{AllocError, Global};
use std::net::{IpAddr, Ipv4Addr, Ipv6Addr};

/// The content of a line.
#[derive(Debug, Drop)]
pub enum BalancerLine {
    /// The address whose packets are balanced.
    VirtualAddress(IpAddr),
    /// The address of one more backend.
    Backend(IpAddr),
}

impl FunctionLine for BalancerLine {
    ghost use Rattle.nf_translate.specs.BalancerLines.{balancer_lines};

    ghost kind_lines = { balancer_lines };

    #[tactic(auto, unfolding(crate::specs::BalancerLines::line_of))]
    fn read(_alloc: Global, words: &[Word]) -> Result<Option<BalancerLine>, AllocError> {
        if words.len() != 3 {
            return Ok(None);
        }
        let lead = words[0].bytes();
        let key = words[1].bytes();
        if lead == b"set".as_slice() {
            Ok(virtual_address_of(key, words[2].bytes()))
        } else if lead == b"rule".as_slice() {
            Ok(backend_of(key, words[2].bytes()))
        } else {
            Ok(None)
        }
    }

    fn lacks_one(lines: &[BalancerLine]) -> bool {
        !has_virtual_address(lines) || !has_backend(lines)
    }

    fn clashes(lines: &[BalancerLine], line: &Option<BalancerLine>) -> bool {
        match line {
            Some(line) => clashes(lines, line),
            None => false,
        }
    }
}

// Is the line a backend of the other version of IP than the virtual address?
fn clashes(lines: &[BalancerLine], line: &BalancerLine) -> bool
    ensures { result ≡ clashes lines.now line.now }
{
    match line {
        BalancerLine::VirtualAddress(_) => false,
        BalancerLine::Backend(address) => match virtual_address_by(lines) {
            Some(virtual_address) => !is_same_version(virtual_address, *address),
            None => false,
        },
    }
}

fn virtual_address_of(key: &[u8], text: &[u8]) -> Option<BalancerLine>
    ensures { result ≡ virtual_address_of key.now text.now }
{
    if key == b"vip".as_slice() {
        ip_address(text).map(BalancerLine::VirtualAddress)
    } else {
        None
    }
}

fn backend_of(key: &[u8], text: &[u8]) -> Option<BalancerLine>
    ensures { result ≡ backend_of key.now text.now }
{
    if key == b"backend".as_slice() {
        ip_address(text).map(BalancerLine::Backend)
    } else {
        None
    }
}

// Reads an address of either version.
fn ip_address(text: &[u8]) -> Option<IpAddr>
    ensures { result ≡ ip_address_of text.now }
{
    match address(text) {
        Some(bits) => Some(ipv4_address(bits)),
        None => address6(text).map(ipv6_address),
    }
}

#[tactic(auto, unfolding(std::specs::Net::Addr::IsIpv4OfBits))]
fn ipv4_address(bits: u32) -> IpAddr
    ensures { result ≡ ipv4_address bits }
{
    IpAddr::V4(Ipv4Addr::from_bits(bits))
}

#[tactic(auto, unfolding(std::specs::Net::Addr::IsIpv6OfBits))]
fn ipv6_address(bits: u128) -> IpAddr
    ensures { result ≡ ipv6_address bits }
{
    IpAddr::V6(Ipv6Addr::from_bits(bits))
}

// Are both of one version of IP?
fn is_same_version(a: IpAddr, b: IpAddr) -> bool
    ensures { result ≡ is_same_version a b }
{
    a.is_ipv4() == b.is_ipv4()
}

/// The address of the first of these lines that sets one.
pub(crate) fn virtual_address_by(lines: &[BalancerLine]) -> Option<IpAddr>
    ensures { result ≡ virtual_address_by lines.now }
{
    virtual_in(first_virtual(lines)?)
}

fn first_virtual(lines: &[BalancerLine]) -> Option<&BalancerLine>
    ensures { option_copied result ≡ find is_virtual_address lines.now }
{
    lines.iter().find(|line| is_virtual_address(line))
}

fn virtual_in(line: &BalancerLine) -> Option<IpAddr>
    ensures { result ≡ virtual_in line.now }
{
    match line {
        BalancerLine::VirtualAddress(address) => Some(*address),
        BalancerLine::Backend(_) => None,
    }
}

fn has_virtual_address(lines: &[BalancerLine]) -> bool
    ensures { result ≡ list_any is_virtual_address lines.now }
{
    lines.iter().any(|line| is_virtual_address(line))
}

fn is_virtual_address(line: &BalancerLine) -> bool
    ensures { result ≡ is_virtual_address line.now }
{
    matches!(line, BalancerLine::VirtualAddress(_))
}

fn has_backend(lines: &[BalancerLine]) -> bool
    ensures { result ≡ list_any is_backend lines.now }
{
    lines.iter().any(|line| is_backend(line))
}

fn is_backend(line: &BalancerLine) -> bool
    ensures { result ≡ is_backend line.now }
{
    matches!(line, BalancerLine::Backend(_))
}
