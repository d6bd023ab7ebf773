//! Reading and writing the fields of a frame.
ghost use Rattle.std.specs.Prelude.{◌≡◌, ◌≢◌, ◌≤◌, ◌+◌, length, IfSome};
ghost use Rattle.std.specs.Option.{option_copied};
ghost use Rattle.packet_fields.specs.Fields.{layout_of, value as value_of, bytes_at, IsLengthOf};
ghost use Rattle.packet_fields.specs.Writing.{put as put_in, overwritten, Fits, rest_of};
ghost use Rattle.packet_fields.specs.declared.field.Field.{Field};

use crate::field::Field;
use crate::plan::{Layout, Span};

/// The bytes of a field, if it is present; `plan` is the frame's own layout.
pub fn get<'a>(field: Field, frame: &'a [u8], plan: &Layout) -> Option<&'a [u8]>
    requires { plan.now ≡ layout_of frame.now }
    ensures value { option_copied result ≡ value_of field frame.now }
    ensures length { IfSome result (λ bytes. IsLengthOf field (length bytes.now)) }
{
    let span = plan.spans[field.number()]?;
    Some(part(frame, span))
}

/// Writes a field that is present, other than the tags; `plan` is the frame's own layout. The value has as many bytes
/// as the old one.
pub fn put(field: Field, value: &[u8], frame: &mut [u8], plan: &Layout)
    requires own { plan.now ≡ layout_of frame.old }
    requires not_tag { field ≢ Field.Tag }
    requires fits { Fits field value.now frame.old }
    ensures whole { frame.new ≡ put_in field value.now frame.old }

    // The field has the value, every other field has its old one, each field keeps its place, and bytes that belong to
    // no field stay.
    ensures written { value_of field frame.new ≡ Some value.now }
    ensures others { (g : Field) → field ≢ g → value_of g frame.new ≡ value_of g frame.old }
    ensures layout { layout_of frame.new ≡ layout_of frame.old }
    ensures rest { rest_of frame.new ≡ rest_of frame.old }
{
    if let Some(span) = plan.spans[field.number()] {
        overwrite(frame, span, value);
    }
}

/// The bytes of a span.
pub fn part(bytes: &[u8], span: Span) -> &[u8]
    requires { span.at + span.len ≤ length bytes.now }
    ensures part { result.now ≡ bytes_at bytes.now span }
    ensures len { length result.now ≡ span.len }
{
    &bytes[span.at..span.at + span.len]
}

/// Writes the bytes of a span.
pub fn overwrite(bytes: &mut [u8], span: Span, value: &[u8])
    requires inside { span.at + span.len ≤ length bytes.old }
    requires len { length value.now ≡ span.len }
    ensures { bytes.new ≡ overwritten span.at value.now bytes.old }
{
    bytes[span.at..span.at + span.len].copy_from_slice(value);
}
