//! The text of a value.
ghost use Rattle.std.specs.Prelude.{◌≡◌, ◌++◌, ◌<◌, ◌⊎◌, ◌∷◌, [], IfSome, OnOk, codes, length};
ghost use Rattle.std.specs.Char.{digit_char};
ghost use Rattle.std.specs.Fmt.{decimal};
ghost use Rattle.std.specs.List.{flat_map};
ghost use Rattle.std.specs.Option.{option_copied};
ghost use Rattle.byteorder.specs.Endian.{big_number};
ghost use Rattle.packet_fields.specs.Fields.{IsLengthOf};
ghost use Rattle.trace_text.specs.Values.{ip_text, link_text, pair, pairs, present_text, tags_text, value_text};

use byteorder::{BigEndian, ByteOrder};
use first_sight::push_ip_address;
use frame_seen::seen_ip_address;
use packet_fields::Field;
use std::alloc::{AllocError, Global};
use text_lines::Piece::Number;
use text_lines::push_pieces;

/// Adds the value of a field, or `none` if it is absent.
pub fn push_value(
    alloc: Global,
    text: &mut Vec<u8>,
    field: Field,
    value: Option<&[u8]>,
) -> Result<(), AllocError>
    requires { IfSome value (λ bytes. IsLengthOf field (length bytes.now)) }
    ensures { OnOk result (text.new.items ≡ text.old.items ++ value_text field (option_copied value.entry)) }
{
    match value {
        Some(bytes) => push_present(alloc, text, field, bytes),
        None => text.extend_from_slice(b"none"),
    }
}

fn push_present(
    alloc: Global,
    text: &mut Vec<u8>,
    field: Field,
    bytes: &[u8],
) -> Result<(), AllocError>
    requires { IsLengthOf field (length bytes.now) }
    ensures { OnOk result (text.new.items ≡ text.old.items ++ present_text field bytes.now) }
{
    match field {
        Field::LinkDst | Field::LinkSrc => push_link(text, bytes),
        Field::Tag | Field::Payload => push_tags(text, bytes),
        Field::SrcIp | Field::DstIp => push_ip(alloc, text, bytes),
        Field::Tos | Field::Ttl => push_number(alloc, text, u64::from(bytes[0])),
        Field::SrcPort | Field::DstPort => {
            push_number(alloc, text, u64::from(BigEndian::read_u16(bytes)))
        }
    }
}

fn push_number(alloc: Global, text: &mut Vec<u8>, number: u64) -> Result<(), AllocError>
    ensures { OnOk result (text.new.items ≡ text.old.items ++ decimal number) }
{
    push_pieces(alloc, text, &[Number(number)])
}

fn push_ip(alloc: Global, text: &mut Vec<u8>, bytes: &[u8]) -> Result<(), AllocError>
    ensures { OnOk result (text.new.items ≡ text.old.items ++ ip_text bytes.now) }
{
    match seen_ip_address(Some(bytes)) {
        Some(address) => push_ip_address(alloc, text, address),
        None => text.extend_from_slice(b"none"),
    }
}

fn push_tags(text: &mut Vec<u8>, bytes: &[u8]) -> Result<(), AllocError>
    ensures { OnOk result (text.new.items ≡ text.old.items ++ tags_text bytes.now) }
{
    if bytes.is_empty() {
        text.extend_from_slice(b"none")
    } else {
        push_pairs(text, bytes)
    }
}

fn push_pairs(text: &mut Vec<u8>, bytes: &[u8]) -> Result<(), AllocError>
    ensures { OnOk result (text.new.items ≡ text.old.items ++ pairs bytes.now) }
{
    'bytes: for byte in bytes {
        push_pair(text, *byte)?;
    }
    Ok(())
}

// Adds an Ethernet address.
fn push_link(text: &mut Vec<u8>, bytes: &[u8]) -> Result<(), AllocError>
    ensures { OnOk result (text.new.items ≡ text.old.items ++ link_text bytes.now) }
{
    let Some((first, rest)) = bytes.split_first() else {
        return Ok(());
    };
    push_pair(text, *first)?;
    push_more_pairs(text, rest)
}

// Adds pairs, each after a colon.
fn push_more_pairs(text: &mut Vec<u8>, bytes: &[u8]) -> Result<(), AllocError>
    ensures { OnOk result (text.new.items ≡ text.old.items ++ flat_map (λ b. codes ":" ++ pair b) bytes.now) }
{
    'bytes: for byte in bytes {
        text.push(b':')?;
        push_pair(text, *byte)?;
    }
    Ok(())
}

// Adds a byte as two hexadecimal digits.
fn push_pair(text: &mut Vec<u8>, byte: u8) -> Result<(), AllocError>
    ensures { OnOk result (text.new.items ≡ text.old.items ++ pair byte) }
{
    text.extend_from_slice(&[hex_digit(byte / 16), hex_digit(byte % 16)])
}

fn hex_digit(digit: u8) -> u8
    requires { digit < 16 }
    ensures { result ≡ digit_char digit }
{
    if digit < 10 {
        b'0' + digit
    } else {
        b'a' + (digit - 10)
    }
}
