//! Fields of an export packet, and how they are written.
ghost use Rattle.std.specs.Prelude.{◌≡◌, ◌≤◌, ◌+◌, ◌++◌, length, take};
ghost use Rattle.flow_export.specs.Layouts.{field_bytes, spelled};

use capture_bytes::{Endian, put_u16, put_u32};

/// A field, which is written most significant byte first.
#[derive(Clone, Copy, PartialEq, Eq, Debug)]
pub enum Field {
    /// A field of one byte.
    Byte(u8),
    /// A field of two bytes.
    Short(u16),
    /// A field of four bytes.
    Long(u32),
}

/// Writes fields at a place, one after another, and returns where they end.
pub fn put_fields(bytes: &mut [u8], at: usize, fields: &[Field]) -> usize
    requires room { at + length (spelled fields.now) ≤ length bytes.old }
    ensures end { result ≡ at + length (spelled fields.now) }
    ensures written { take result bytes.new ≡ take at bytes.old ++ spelled fields.now }
{
    let mut end = at;
    'fields: for field in fields {
        end = put_field(bytes, end, *field);
    }
    end
}

/// Writes a field at a place, and returns where it ends.
fn put_field(bytes: &mut [u8], at: usize, field: Field) -> usize
    requires room { at + length (field_bytes field) ≤ length bytes.old }
    ensures end { result ≡ at + length (field_bytes field) }
    ensures written { take result bytes.new ≡ take at bytes.old ++ field_bytes field }
{
    match field {
        Field::Byte(value) => {
            bytes[at] = value;
            at + 1
        }
        Field::Short(value) => {
            put_u16(Endian::Big, bytes, at, value);
            at + 2
        }
        Field::Long(value) => {
            put_u32(Endian::Big, bytes, at, value);
            at + 4
        }
    }
}
