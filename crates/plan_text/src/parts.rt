//! The lines of a stage's parts.
ghost use Rattle.std.specs.Prelude.{◌≡◌, ◌++◌, OnOk};
ghost use Rattle.std.specs.List.{flat_map, list_any};
ghost use Rattle.action_profile.specs.FieldSets.{all_fields};
ghost use Rattle.action_profile.specs.Modes.{has_touch};
ghost use Rattle.plan_text.specs.Plan.{part_line, part_text, mode_text};

use action_profile::{Mode, StageParts, all_fields};
use graph_compile::copies;
use packet_fields::Field;
use std::alloc::{AllocError, Global};
use text_lines::Piece::{Number, Text};
use text_lines::push_pieces;

/// Adds the line of each field that some branch touches.
pub(crate) fn put_parts(
    alloc: Global,
    out: &mut Vec<u8>,
    parts: &StageParts,
) -> Result<(), AllocError>
    ensures { OnOk result (out.new.items ≡ out.old.items ++ flat_map (part_text parts.now) all_fields) }
{
    'fields: for field in all_fields() {
        put_part(alloc, out, parts, *field)?;
    }
    Ok(())
}

fn put_part(
    alloc: Global,
    out: &mut Vec<u8>,
    parts: &StageParts,
    field: Field,
) -> Result<(), AllocError>
    ensures { OnOk result (out.new.items ≡ out.old.items ++ part_text parts.now field) }
{
    if is_touched(parts, field) {
        put_part_line(alloc, out, parts, field)?;
    }
    Ok(())
}

fn is_touched(parts: &StageParts, field: Field) -> bool
    ensures { result ≡ list_any (has_touch field) parts.now.touches }
{
    let touches = parts.touches.as_slice();
    touches
        .iter()
        .any(|touch| touch.reads.has(field) || touch.writes.has(field))
}

#[tactic(auto, unfolding(crate::specs::Plan::part_line))]
fn put_part_line(
    alloc: Global,
    out: &mut Vec<u8>,
    parts: &StageParts,
    field: Field,
) -> Result<(), AllocError>
    ensures { OnOk result (out.new.items ≡ out.old.items ++ part_line parts.now field) }
{
    push_pieces(alloc, out, &[Text(b"part "), Text(field.name().as_bytes())])?;
    put_mode(
        alloc,
        out,
        parts.modes[field.number()],
        copies(parts, field),
    )?;
    out.push(b'\n')?;
    Ok(())
}

// Adds how a field is passed on, and how often it is copied.
fn put_mode(alloc: Global, out: &mut Vec<u8>, mode: Mode, count: usize) -> Result<(), AllocError>
    ensures { OnOk result (out.new.items ≡ out.old.items ++ mode_text mode count) }
{
    match mode {
        Mode::Shared => out.extend_from_slice(b" shared".as_slice()),
        Mode::Moved(branch) => {
            push_pieces(alloc, out, &[Text(b" moved "), Number(branch as u64 + 1)])
        }
        Mode::Copied { .. } => {
            push_pieces(alloc, out, &[Text(b" copied "), Number(count as u64)])
        }
    }
}
