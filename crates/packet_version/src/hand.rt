//! Passes the parts of a packet to the versions of a stage's branches.

ghost use Rattle.std.specs.Prelude.{◌≡◌, ◌-◌, ◌&&◌, Some, None, option_map, map, true, OnOk, OnErr, IfOk, position, if◌then◌else◌, is_ok};
ghost use Rattle.std.specs.List.{All, list_any};
ghost use Rattle.packet_fields.specs.declared.field.Field.{Field};
ghost use Rattle.action_profile.specs.Modes.{has_write, mode_of};
ghost use Rattle.packet_version.specs.Parts.{as_map, writer_in, unwritten, IsValueOf, IsPartOf};
ghost use Rattle.packet_version.specs.Splitting.{fresh};
ghost use Rattle.packet_version.specs.Raising.{RaisesBy, RaisesAtMost};
ghost use Rattle.packet_version.specs.Dealing.{kept_part, copies_due};
ghost use Rattle.packet_version.specs.Handing.{touches_in, copies_of, copied_to, copied_some, lent_to, reads_more, writers_in, kept_in, with_place};

use crate::base::Kept;
use crate::held::Held;
use crate::part::{Part, copy_bytes};
use crate::tally::Tally;
use crate::version::Version;
use action_profile::Mode;
use packet_fields::Field;
use part_lease::{Owner, lend};
use std::alloc::{AllocError, Global};

/// Gives a copy to a branch that writes the field.
fn give_copy(
    alloc: Global,
    field: Field,
    bytes: &[u8],
    spare: usize,
    version: &mut Version,
    tally: &mut Tally,
) -> Result<(), AllocError>
    requires { IsValueOf field bytes.now }
    ensures given { OnOk result (version.new ≡ copied_to field (fresh spare bytes.now) version.old) }
    ensures counted { RaisesBy (if is_ok result && has_write field version.old.touch then 1 else 0) field tally.old tally.new }
{
    if version.writes(field) {
        let made = copy_bytes(alloc, bytes, spare, field, tally)?;
        version.give(field, made);
    }
    Ok(())
}

/// Gives a copy to each branch that writes the field.
fn give_copies(
    alloc: Global,
    field: Field,
    bytes: &[u8],
    spare: usize,
    versions: &mut [Version],
    tally: &mut Tally,
) -> Result<(), AllocError>
    requires { IsValueOf field bytes.now }
    ensures given { OnOk result (versions.new ≡ map (copied_to field (fresh spare bytes.now)) versions.old) }
    ensures counted { OnOk result (RaisesBy (writers_in field versions.old) field tally.old tally.new) }
    ensures refused { OnErr result (RaisesAtMost (writers_in field versions.old) field tally.old tally.new) }
{
    for version in versions.iter_mut() {
        give_copy(alloc, field, bytes, spare, version, tally)?;
    }
    Ok(())
}

/// Moves the original to the first branch that writes the field, and gives a copy to each later one.
fn give_original(
    alloc: Global,
    field: Field,
    part: Part,
    first: usize,
    versions: &mut [Version],
    tally: &mut Tally,
) -> Result<(), AllocError>
    requires first { position (has_write field) (touches_in versions.old) ≡ Some first }
    requires formed { IsValueOf field part.bytes }
    ensures given { OnOk result (versions.new ≡ map (copied_to field part) versions.old) }
    ensures counted { OnOk result (RaisesBy (writers_in field versions.old - 1) field tally.old tally.new) }
    ensures refused { OnErr result (RaisesAtMost (writers_in field versions.old - 1) field tally.old tally.new) }
{
    let spare = part.spare();
    give_copies(
        alloc,
        field,
        part.bytes(),
        spare,
        &mut versions[first + 1..],
        tally,
    )?;
    versions[first].give(field, part.unwritten());
    Ok(())
}

/// Takes the part of a field out and moves it to the first branch that writes the field.
fn move_out(
    alloc: Global,
    field: Field,
    held: &mut Held,
    first: usize,
    versions: &mut [Version],
    tally: &mut Tally,
) -> Result<(), AllocError>
    requires first { position (has_write field) (touches_in versions.old) ≡ Some first }
    requires formed { IsPartOf field (as_map held.old.parts field) }
    ensures given { OnOk result (versions.new ≡ map (copied_some field (as_map held.old.parts field)) versions.old) }
    ensures left { OnOk result (held.new ≡ with_place field None held.old) }
    ensures counted { OnOk result (RaisesBy (copies_of (as_map held.old.parts field) (writers_in field versions.old - 1)) field tally.old tally.new) }
    ensures refused { OnErr result (RaisesAtMost (copies_of (as_map held.old.parts field) (writers_in field versions.old - 1)) field tally.old tally.new) }
{
    match held.take(alloc, field)? {
        Some(part) => give_original(alloc, field, part, first, versions, tally),
        None => Ok(()),
    }
}

/// Gives each branch that writes the field a copy, and keeps the part.
fn copy_out(
    alloc: Global,
    field: Field,
    held: &mut Held,
    versions: &mut [Version],
    tally: &mut Tally,
) -> Result<(), AllocError>
    requires formed { IsPartOf field (as_map held.old.parts field) }
    ensures given { OnOk result (versions.new ≡ map (copied_some field (as_map held.old.parts field)) versions.old) }
    ensures left { OnOk result (held.new ≡ with_place field (option_map unwritten (as_map held.old.parts field)) held.old) }
    ensures counted { OnOk result (RaisesBy (copies_of (as_map held.old.parts field) (writers_in field versions.old)) field tally.old tally.new) }
    ensures refused { OnErr result (RaisesAtMost (copies_of (as_map held.old.parts field) (writers_in field versions.old)) field tally.old tally.new) }
{
    let spare = held.spare(field);
    if let Some(bytes) = held.bytes(field) {
        give_copies(alloc, field, bytes, spare, versions, tally)?;
    }
    held.keep(field);
    Ok(())
}

/// Passes the part of a field to the branches that write it, as its mode says, and keeps the rest of it here.
pub(crate) fn deal_field(
    alloc: Global,
    field: Field,
    held: &mut Held,
    mode: Mode,
    versions: &mut [Version],
    tally: &mut Tally,
) -> Result<(), AllocError>
    requires mode { mode ≡ mode_of (touches_in versions.old) field }
    requires formed { IsPartOf field (as_map held.old.parts field) }
    ensures given { OnOk result (versions.new ≡ map (copied_some field (as_map held.old.parts field)) versions.old) }
    ensures left { OnOk result (held.new ≡ with_place field (kept_part mode (as_map held.old.parts field)) held.old) }
    ensures counted { OnOk result (RaisesBy (copies_due (touches_in versions.old) field (as_map held.old.parts field)) field tally.old tally.new) }
    ensures refused { OnErr result (RaisesAtMost (copies_due (touches_in versions.old) field (as_map held.old.parts field)) field tally.old tally.new) }
{
    match mode {
        Mode::Shared => {
            held.keep(field);
            Ok(())
        }
        Mode::Moved(first) => move_out(alloc, field, held, first as usize, versions, tally),
        Mode::Copied { original } => match original {
            Some(first) => move_out(alloc, field, held, first as usize, versions, tally),
            None => copy_out(alloc, field, held, versions, tally),
        },
    }
}

/// Lends the packet to a branch that reads fields which it doesn't write.
fn lend_one(owner: &Owner<Held>, version: &mut Version) -> Result<(), AllocError>
    requires unwritten { (f : Field) → writer_in (as_map owner.now.parts f) ≡ 0 }
    requires formed { (f : Field) → IsPartOf f (as_map owner.now.parts f) }
    requires apart { version.old.kept ≡ None }
    ensures { OnOk result (version.new ≡ lent_to (as_map owner.now.parts) version.old) }
{
    if version.reads_more() {
        version.lend(owner.reader()?);
    }
    Ok(())
}

/// Lends the packet to each branch that reads fields which it doesn't write.
fn lend_out(owner: &Owner<Held>, versions: &mut [Version]) -> Result<(), AllocError>
    requires unwritten { (f : Field) → writer_in (as_map owner.now.parts f) ≡ 0 }
    requires formed { (f : Field) → IsPartOf f (as_map owner.now.parts f) }
    requires apart { All (λ v. v.kept ≡ None) versions.old }
    ensures { OnOk result (versions.new ≡ map (lent_to (as_map owner.now.parts)) versions.old) }
{
    for version in versions.iter_mut() {
        lend_one(owner, version)?;
    }
    Ok(())
}

/// Lends the packet to the branches that read fields which they don't write, all of it at once, or keeps it if there is
/// no such branch.
pub(crate) fn share_out(
    alloc: Global,
    held: Held,
    versions: &mut [Version],
) -> Result<Kept, AllocError>
    requires unwritten { (f : Field) → writer_in (as_map held.parts f) ≡ 0 }
    requires formed { (f : Field) → IsPartOf f (as_map held.parts f) }
    requires apart { All (λ v. v.kept ≡ None) versions.old }
    ensures lent { OnOk result (versions.new ≡ map (lent_to (as_map held.parts)) versions.old) }
    ensures kept { IfOk result (λ kept. kept_in kept ≡ held) }
{
    if !some_reads_more(versions) {
        return Ok(Kept::Own(held));
    }
    let owner = lend(alloc, held)?;
    lend_out(&owner, versions)?;
    Ok(Kept::Lent(owner))
}

/// Does some branch read a field that it doesn't write?
fn some_reads_more(versions: &[Version]) -> bool
    ensures { result ≡ list_any (λ v. reads_more v.touch) versions.now }
{
    versions.iter().any(|version| version.reads_more())
}
