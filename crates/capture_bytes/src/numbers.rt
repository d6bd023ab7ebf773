//! Numbers at places of a text, in either byte order.
ghost use Rattle.std.specs.Prelude.{◌≡◌, ◌≤◌, ◌+◌, ◌++◌, length, take, drop};
ghost use Rattle.capture_bytes.specs.Numbers.{number_at, bytes_of};

use crate::order::Endian;
use byteorder::{BigEndian, ByteOrder, LittleEndian};

/// The number of 16 bits at place `at`, counted in bytes from 0.
pub fn u16_at(order: Endian, bytes: &[u8], at: usize) -> u16
    requires { at + 2 ≤ length bytes.now }
    ensures { result ≡ number_at order 2 at bytes.now }
{
    match order {
        Endian::Big => BigEndian::read_u16(&bytes[at..]),
        Endian::Little => LittleEndian::read_u16(&bytes[at..]),
    }
}

/// The number of 32 bits at place `at`, counted in bytes from 0.
pub fn u32_at(order: Endian, bytes: &[u8], at: usize) -> u32
    requires { at + 4 ≤ length bytes.now }
    ensures { result ≡ number_at order 4 at bytes.now }
{
    match order {
        Endian::Big => BigEndian::read_u32(&bytes[at..]),
        Endian::Little => LittleEndian::read_u32(&bytes[at..]),
    }
}

/// Writes a number of 16 bits at a place, and leaves all other bytes as they are.
pub fn put_u16(order: Endian, bytes: &mut [u8], at: usize, number: u16)
    requires { at + 2 ≤ length bytes.old }
    ensures number { take (at + 2) bytes.new ≡ take at bytes.old ++ bytes_of order 2 number }
    ensures rest { drop (at + 2) bytes.new ≡ drop (at + 2) bytes.old }
{
    match order {
        Endian::Big => BigEndian::write_u16(&mut bytes[at..at + 2], number),
        Endian::Little => LittleEndian::write_u16(&mut bytes[at..at + 2], number),
    }
}

/// Writes a number of 32 bits at a place, and leaves all other bytes as they are.
pub fn put_u32(order: Endian, bytes: &mut [u8], at: usize, number: u32)
    requires { at + 4 ≤ length bytes.old }
    ensures number { take (at + 4) bytes.new ≡ take at bytes.old ++ bytes_of order 4 number }
    ensures rest { drop (at + 4) bytes.new ≡ drop (at + 4) bytes.old }
{
    match order {
        Endian::Big => BigEndian::write_u32(&mut bytes[at..at + 4], number),
        Endian::Little => LittleEndian::write_u32(&mut bytes[at..at + 4], number),
    }
}
