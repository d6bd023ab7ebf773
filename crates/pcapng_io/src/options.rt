//! The options of a block.
ghost use Rattle.std.specs.Prelude.{◌≡◌, ◌%◌, ◌≤◌, ◌++◌, IfOk, OnOk, if◌then◌else◌, length};
ghost use Rattle.std.specs.Option.{option_map};
ghost use Rattle.pcapng_io.specs.Options.{copied, front_length, is_uncopied, options_of, padded, resolution_among};

use capture_bytes::{Endian, u16_at};
use std::alloc::{AllocError, Global};

// The bytes of an option's code and length.
const OPTION_HEAD: usize = 4;

// The code after which no option follows (opt_endofopt).
const END: u16 = 0;

// The code of an interface's resolution (if_tsresol), whose value has one byte.
const RESOLUTION: u16 = 9;

// The codes of custom options that must not be copied into a capture that was changed: one of text, one of bytes.
const UNCOPIED_TEXT: u16 = 19_372;

const UNCOPIED_BYTES: u16 = 19_373;

// The resolution if none is given: microseconds.
const MICRO: u8 = 6;

// The resolution among options, or `None` if one runs past the bytes.
pub fn resolution_among(order: Endian, bytes: &[u8]) -> Option<u8>
    requires whole { length bytes.now % 4 ≡ 0 }
    ensures { result ≡ option_map resolution_among (options_of order bytes.now) }
{
    let mut at = 0;
    let mut found = None;
    'options: while at < bytes.len() {
        let code = u16_at(order, bytes, at);
        if code == END {
            return Some(found.unwrap_or(MICRO));
        }
        let length = u16_at(order, bytes, at + 2) as usize;
        let next = at + OPTION_HEAD + padded(length);
        if next > bytes.len() {
            return None;
        }
        if found.is_none() && code == RESOLUTION && length == 1 {
            found = Some(bytes[at + OPTION_HEAD]);
        }
        at = next;
    }
    Some(found.unwrap_or(MICRO))
}

// The bytes of options without those that must not be copied. What follows the end of the list stays.
pub fn copied(alloc: Global, order: Endian, bytes: &[u8]) -> Result<Vec<u8>, AllocError>
    requires whole { length bytes.now % 4 ≡ 0 }
    ensures { IfOk result (λ options. options.items ≡ copied order bytes.now) }
{
    let mut options = Vec::new(alloc);
    let mut rest = bytes;
    let mut size = front_length(order, rest);
    'options: while size > 0 {
        copy_option(&mut options, u16_at(order, rest, 0), &rest[..size])?;
        rest = &rest[size..];
        size = front_length(order, rest);
    }
    options.extend_from_slice(rest)?;
    Ok(options)
}

// Puts an option with this code at the end, unless it must not be copied.
fn copy_option(options: &mut Vec<u8>, code: u16, option: &[u8]) -> Result<(), AllocError>
    ensures { OnOk result (options.new.items ≡ (if is_uncopied code then options.old.items else options.old.items ++ option.now)) }
{
    if is_uncopied(code) {
        return Ok(());
    }
    options.extend_from_slice(option)
}

// The length of the option at the front, or 0 if the list ends.
fn front_length(order: Endian, bytes: &[u8]) -> usize
    requires whole { length bytes.now % 4 ≡ 0 }
    ensures value { result ≡ front_length order bytes.now }
    ensures within { result ≤ length bytes.now }
    ensures whole { result % 4 ≡ 0 }
{
    if bytes.is_empty() {
        return 0;
    }
    if u16_at(order, bytes, 0) == END {
        return 0;
    }
    let size = OPTION_HEAD + padded(u16_at(order, bytes, 2) as usize);
    if size > bytes.len() { 0 } else { size }
}

fn is_uncopied(code: u16) -> bool
    ensures { result ≡ is_uncopied code }
{
    code == UNCOPIED_TEXT || code == UNCOPIED_BYTES
}

// This length, padded to a multiple of four.
pub fn padded(length: usize) -> usize
    requires { length ≤ 4294967295 }
    ensures { result ≡ padded length }
{
    (length + 3) / 4 * 4
}
