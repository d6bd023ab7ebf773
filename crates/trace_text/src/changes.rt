//! What a function changed of a packet.
ghost use Rattle.std.specs.Prelude.{◌≡◌, ◌++◌, IfSome, OnOk, count_by, length};
ghost use Rattle.std.specs.List.{range_with_len};
ghost use Rattle.std.specs.Option.{option_copied};
ghost use Rattle.packet_fields.specs.Fields.{IsLengthOf};
ghost use Rattle.trace_text.specs.Kept.{kept_changes};
ghost use Rattle.trace_text.specs.Trace.{changes_text, field_lines, frame_line};
ghost use Rattle.trace_text.specs.Values.{bytes_or_none, change_line, differing, differs_at, field_line, is_same, is_same_byte, payload_line, value_line};

use crate::values::push_value;
use action_profile::{Kind, all_fields, profile};
use packet_fields::{Field, get, layout};
use std::alloc::{AllocError, Global};
use text_lines::Piece::{Number, Text};
use text_lines::push_pieces;
use traced_run::Frames;

/// Adds the changes of a function of this kind between the two frames, if they were kept.
pub fn push_changes(
    alloc: Global,
    text: &mut Vec<u8>,
    kind: Kind,
    frames: &Option<Frames>,
) -> Result<(), AllocError>
    ensures { OnOk result (text.new.items ≡ text.old.items ++ kept_changes kind frames.now) }
{
    match frames {
        Some(frames) => {
            push_between(
                alloc,
                text,
                kind,
                frames.before.bytes(),
                frames.after.bytes(),
            )
        }
        None => Ok(()),
    }
}

fn push_between(
    alloc: Global,
    text: &mut Vec<u8>,
    kind: Kind,
    before: &[u8],
    after: &[u8],
) -> Result<(), AllocError>
    ensures { OnOk result (text.new.items ≡ text.old.items ++ changes_text kind before.now after.now) }
{
    if profile(kind).whole {
        push_frame_line(alloc, text, before.len(), after.len())
    } else {
        push_field_lines(alloc, text, before, after)
    }
}

#[tactic(auto, unfolding(crate::specs::Trace::frame_line))]
fn push_frame_line(
    alloc: Global,
    text: &mut Vec<u8>,
    old: usize,
    new: usize,
) -> Result<(), AllocError>
    ensures { OnOk result (text.new.items ≡ text.old.items ++ frame_line old new) }
{
    push_pieces(
        alloc,
        text,
        &[
            Text(b"  frame "),
            Number(old as u64),
            Text(b" "),
            Number(new as u64),
            Text(b"\n"),
        ],
    )
}

// Adds the fields whose values differ, in field order.
#[tactic(auto, unfolding(crate::specs::Trace::field_lines))]
fn push_field_lines(
    alloc: Global,
    text: &mut Vec<u8>,
    before: &[u8],
    after: &[u8],
) -> Result<(), AllocError>
    ensures { OnOk result (text.new.items ≡ text.old.items ++ field_lines before.now after.now) }
{
    let old = layout(before);
    let new = layout(after);
    'fields: for field in all_fields() {
        let old = get(*field, before, &old);
        push_change(alloc, text, *field, old, get(*field, after, &new))?;
    }
    Ok(())
}

// Adds the line of a field, if its value differs.
#[tactic(auto, unfolding(crate::specs::Values::change_line))]
fn push_change(
    alloc: Global,
    text: &mut Vec<u8>,
    field: Field,
    old: Option<&[u8]>,
    new: Option<&[u8]>,
) -> Result<(), AllocError>
    requires old { IfSome old (λ bytes. IsLengthOf field (length bytes.now)) }
    requires new { IfSome new (λ bytes. IsLengthOf field (length bytes.now)) }
    ensures { OnOk result (text.new.items ≡ text.old.items ++ change_line field (option_copied old.entry) (option_copied new.entry)) }
{
    if is_same(old, new) {
        Ok(())
    } else {
        push_field_line(alloc, text, field, old, new)
    }
}

fn is_same(old: Option<&[u8]>, new: Option<&[u8]>) -> bool
    ensures { result ≡ is_same (option_copied old.entry) (option_copied new.entry) }
{
    match (old, new) {
        (Some(old), Some(new)) => old == new,
        (None, None) => true,
        _ => false,
    }
}

fn push_field_line(
    alloc: Global,
    text: &mut Vec<u8>,
    field: Field,
    old: Option<&[u8]>,
    new: Option<&[u8]>,
) -> Result<(), AllocError>
    requires old { IfSome old (λ bytes. IsLengthOf field (length bytes.now)) }
    requires new { IfSome new (λ bytes. IsLengthOf field (length bytes.now)) }
    ensures { OnOk result (text.new.items ≡ text.old.items ++ field_line field (option_copied old.entry) (option_copied new.entry)) }
{
    match field {
        Field::Payload => push_payload_line(alloc, text, old, new),
        _ => push_value_line(alloc, text, field, old, new),
    }
}

#[tactic(auto, unfolding(crate::specs::Values::value_line))]
fn push_value_line(
    alloc: Global,
    text: &mut Vec<u8>,
    field: Field,
    old: Option<&[u8]>,
    new: Option<&[u8]>,
) -> Result<(), AllocError>
    requires old { IfSome old (λ bytes. IsLengthOf field (length bytes.now)) }
    requires new { IfSome new (λ bytes. IsLengthOf field (length bytes.now)) }
    ensures { OnOk result (text.new.items ≡ text.old.items ++ value_line field (option_copied old.entry) (option_copied new.entry)) }
{
    push_pieces(
        alloc,
        text,
        &[Text(b"  "), Text(field.name().as_bytes()), Text(b" ")],
    )?;
    push_value(alloc, text, field, old)?;
    text.push(b' ')?;
    push_value(alloc, text, field, new)?;
    text.push(b'\n')?;
    Ok(())
}

#[tactic(auto, unfolding(crate::specs::Values::payload_line))]
fn push_payload_line(
    alloc: Global,
    text: &mut Vec<u8>,
    old: Option<&[u8]>,
    new: Option<&[u8]>,
) -> Result<(), AllocError>
    ensures { OnOk result (text.new.items ≡ text.old.items ++ payload_line (option_copied old.entry) (option_copied new.entry)) }
{
    let count = differing(bytes_or_none(old), bytes_or_none(new));
    push_pieces(
        alloc,
        text,
        &[
            Text(b"  payload "),
            Number(count as u64),
            Text(b" bytes differ\n"),
        ],
    )
}

fn bytes_or_none<'a>(bytes: Option<&'a [u8]>) -> &'a [u8]
    ensures { result.now ≡ bytes_or_none (option_copied bytes.entry) }
{
    match bytes {
        Some(bytes) => bytes,
        None => &[],
    }
}

// The number of places at which they differ.
fn differing(old: &[u8], new: &[u8]) -> usize
    ensures { result ≡ differing old.now new.now }
{
    differing_below(old, new, old.len().max(new.len()))
}

fn differing_below(old: &[u8], new: &[u8], end: usize) -> usize
    ensures { result ≡ count_by (differs_at old.now new.now) (range_with_len 0 end) }
{
    (0..end)
        .filter(|place| differs_at(old, new, *place))
        .count()
}

fn differs_at(old: &[u8], new: &[u8], place: usize) -> bool
    ensures { result ≡ differs_at old.now new.now place }
{
    !is_same_byte(old.get(place), new.get(place))
}

fn is_same_byte(old: Option<&u8>, new: Option<&u8>) -> bool
    ensures { result ≡ is_same_byte (option_copied old.entry) (option_copied new.entry) }
{
    match (old, new) {
        (Some(old), Some(new)) => old == new,
        (None, None) => true,
        _ => false,
    }
}
