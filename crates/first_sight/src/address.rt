//! Addresses: as text, compared and hashed.
ghost use Rattle.std.specs.Prelude.{◌≡◌, ◌++◌, ◌<◌, OnOk, codes, fold, nat_eq};
ghost use Rattle.std.specs.Cmp.Lexicographic.{pointwise};
ghost use Rattle.std.specs.List.{flat_map};
ghost use Rattle.std.specs.Char.{digit_char};
ghost use Rattle.std.specs.Net.Text.{hex, groups_text, leading_zero_digits};
ghost use Rattle.first_sight.specs.Addresses.{dotted, address_text};
ghost use Rattle.first_sight.specs.HashedAddress.{endpoint_writes};
ghost use Rattle.first_sight.specs.SameAddress.{is_same_address};

use std::alloc::{AllocError, Global};
use std::hash::Hasher;
use std::net::IpAddr;
use text_lines::{Piece, push_pieces};

/// Are two addresses the same? The result is that of `==`. Those of IPv4 are compared as numbers, which is cheaper than
/// byte by byte.
#[inline(always)]
pub fn same_address(a: &IpAddr, b: &IpAddr) -> bool
    ensures { result ≡ is_same_address a.now b.now }
{
    match (a, b) {
        (IpAddr::V4(a), IpAddr::V4(b)) => same_octets(a.octets(), b.octets()),
        (IpAddr::V6(a), IpAddr::V6(b)) => a == b,
        _ => false,
    }
}

/// Feeds an address and a port to a hasher. For IPv4 both are one number, which costs the least.
#[inline(always)]
pub fn hash_endpoint<H: Hasher>(address: &IpAddr, port: u16, state: &mut H)
    ensures { state.new ≡ fold H.write state.old (endpoint_writes address.now port) }
{
    match address {
        IpAddr::V4(address) => {
            state.write_u64(u64::from(address.to_bits()) * 65_536 + u64::from(port));
        }
        IpAddr::V6(address) => {
            state.write_u128(address.to_bits());
            state.write_u16(port);
        }
    }
}

/// Are four bytes the same as four others? They are compared as one number.
fn same_octets(a: [u8; 4], b: [u8; 4]) -> bool
    ensures { result ≡ pointwise nat_eq a b }
{
    u32::from_be_bytes(a) == u32::from_be_bytes(b)
}

/// Appends an address of either version: one of IPv4 as four decimal numbers separated by dots, the highest byte first
/// (RFC 791, 3.1), and one of IPv6 as eight hexadecimal groups in lower case separated by colons, without leading zeros
/// and with no group left out (RFC 4291, 2.2). If memory runs out, the content of the text is unspecified.
pub fn push_ip_address(alloc: Global, text: &mut Vec<u8>, address: IpAddr) -> Result<(), AllocError>
    ensures { OnOk result (text.new.items ≡ text.old.items ++ address_text address) }
{
    match address {
        IpAddr::V4(address) => push_address(alloc, text, address.to_bits()),
        IpAddr::V6(address) => push_groups(text, &address.segments()),
    }
}

/// Appends an IPv4 address as four decimal numbers separated by dots, the highest byte first (RFC 791, 3.1). If memory
/// runs out, the content of the text is unspecified.
#[tactic(auto, unfolding(crate::specs::Addresses::dotted))]
pub fn push_address(alloc: Global, text: &mut Vec<u8>, address: u32) -> Result<(), AllocError>
    ensures { OnOk result (text.new.items ≡ text.old.items ++ dotted address) }
{
    let [a, b, c, d] = address.to_be_bytes();
    push_pieces(
        alloc,
        text,
        &[
            Piece::Number(u64::from(a)),
            Piece::Text(b"."),
            Piece::Number(u64::from(b)),
            Piece::Text(b"."),
            Piece::Number(u64::from(c)),
            Piece::Text(b"."),
            Piece::Number(u64::from(d)),
        ],
    )
}

/// Appends groups in hexadecimal digits, separated by colons.
fn push_groups(text: &mut Vec<u8>, groups: &[u16]) -> Result<(), AllocError>
    ensures { OnOk result (text.new.items ≡ text.old.items ++ groups_text groups.now) }
{
    let Some((first, rest)) = groups.split_first() else {
        return Ok(());
    };
    push_group(text, *first)?;
    push_more_groups(text, rest)
}

/// Appends groups, each after a colon.
fn push_more_groups(text: &mut Vec<u8>, groups: &[u16]) -> Result<(), AllocError>
    ensures { OnOk result (text.new.items ≡ text.old.items ++ flat_map (λ group. codes ":" ++ hex group) groups.now) }
{
    'groups: for group in groups {
        text.push(b':')?;
        push_group(text, *group)?;
    }
    Ok(())
}

/// Appends a group in hexadecimal digits, without leading zeros.
#[tactic(auto, unfolding(std::specs::Net::Text::hex))]
fn push_group(text: &mut Vec<u8>, group: u16) -> Result<(), AllocError>
    ensures { OnOk result (text.new.items ≡ text.old.items ++ hex group) }
{
    let digits = [
        hex_digit(group / 0x1000),
        hex_digit(group / 0x100 % 16),
        hex_digit(group / 0x10 % 16),
        hex_digit(group % 16),
    ];
    text.extend_from_slice(&digits[leading_zero_digits(group)..])
}

fn leading_zero_digits(group: u16) -> usize
    ensures zeros { result ≡ leading_zero_digits group }
    ensures few { result < 4 }
{
    match group {
        0x1000.. => 0,
        0x100.. => 1,
        0x10.. => 2,
        _ => 3,
    }
}

fn hex_digit(digit: u16) -> u8
    requires { digit < 16 }
    ensures { result ≡ digit_char digit }
{
    if digit < 10 {
        b'0' + digit as u8
    } else {
        b'a' + (digit - 10) as u8
    }
}
