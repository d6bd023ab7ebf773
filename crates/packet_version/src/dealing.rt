//! Dealing a packet to the branches of a stage.

ghost use Rattle.std.specs.Prelude.{◌≡◌, ◌≤◌, [], ◌∷◌, map, length, option_map, false, IsTrue, OnOk, OnErr, IfOk};
ghost use Rattle.std.specs.List.{list_any};
ghost use Rattle.packet_fields.specs.declared.field.Field.{Field};
ghost use Rattle.action_profile.specs.Modes.{modes_of};
ghost use Rattle.packet_version.specs.Parts.{as_map, as_list, unwritten, IsPartOf};
ghost use Rattle.packet_version.specs.Splitting.{packet_parts, IsWhole};
ghost use Rattle.packet_version.specs.Versions.{nothing};
ghost use Rattle.packet_version.specs.Dealing.{dealt, dealt_whole, based, kept_parts, RaisesByDue, RaisesWithinDue};
ghost use Rattle.packet_version.specs.Handing.{touches_in, writes_few, writes_some, with_own, without_fields};

use crate::apart::Apart;
use crate::base::Base;
use crate::hand::{deal_field, share_out};
use crate::held::Held;
use crate::tally::Tally;
use crate::version::Version;
use action_profile::{Mode, StageParts, Touch, all_fields};
use chain_walk::Fixed;
use packet_fields::Field;
use std::alloc::{AllocError, Global};
use std::slice;

/// Makes the versions of a stage's branches, in branch order, and the base beside them.
///
/// A branch gets the fields that it touches and the packet has. If no branch writes a field, the one part is lent to
/// all that read it. If one branch alone touches it, it is moved there. Otherwise each branch that writes it has a part
/// of its own: a copy, or the original, which the first writer has if none only reads the field. The parts are
/// unwritten. Only copies raise the tally. If memory runs out the packet is gone, and the tally may have risen by
/// copies that were made.
///
/// An original that is still in the frame is taken out of it if it goes to a branch. This belongs to taking the packet
/// apart, and is no copy: the frame's bytes in its place have no meaning from then on.
///
/// Allocates the list of versions, the parts of each branch that writes some field, each of these parts that has room
/// for more than 16 bytes, and one loan if a branch reads a field that it doesn't write.
pub fn deal(
    alloc: Global,
    whole: Apart,
    parts: &StageParts,
    tally: &mut Tally,
) -> Result<(Base, Vec<Version>), AllocError>
    requires some { 1 ≤ length parts.now.touches }
    requires few { length parts.now.touches ≤ 64 }
    requires modes { parts.now.modes ≡ modes_of parts.now.touches }
    ensures versions { IfOk result (λ d. d.1.items ≡ map (dealt whole) parts.now.touches) }
    ensures base { IfOk result (λ d. d.0 ≡ based parts.now.touches whole) }
    ensures counted { OnOk result (RaisesByDue parts.now.touches (packet_parts whole) tally.old tally.new) }
    ensures refused { OnErr result (RaisesWithinDue parts.now.touches (packet_parts whole) tally.old tally.new) }

    // The packet's parts are those of its frame, in number and length.
    ensures fits { IsWhole (packet_parts whole) whole.rest }
{
    let Apart { mut held, fixed } = whole;
    let mut versions = empty_versions(alloc, parts.touches.as_slice(), fixed)?;
    deal_parts(alloc, &mut held, &parts.modes, &mut versions, tally)?;
    let kept = share_out(alloc, held, &mut versions)?;
    Ok((Base { kept, fixed }, versions))
}

/// Makes the version of a stage's only branch, which also has the rest of the packet.
///
/// No other branch has any of the packet, so nothing is lent, and there is no base: [`Version::rejoin`] puts the packet
/// together again. Apart from that [`deal`] describes it, and what it counts. A branch that writes neither the tags nor
/// the payload writes in the packet itself, and allocates nothing. For another branch its parts are allocated, and each
/// of them that has room for more than 16 bytes.
#[inline(always)]
pub fn deal_whole(
    alloc: Global,
    whole: Apart,
    touch: Touch,
    modes: &[Mode; 10],
    tally: &mut Tally,
) -> Result<Version, AllocError>
    requires { modes.now ≡ modes_of (touch ∷ []) }
    ensures version { IfOk result (λ version. version ≡ dealt_whole whole touch) }
    ensures counted { OnOk result (RaisesByDue (touch ∷ []) (packet_parts whole) tally.old tally.new) }
    ensures refused { OnErr result (RaisesWithinDue (touch ∷ []) (packet_parts whole) tally.old tally.new) }

    // The packet's parts are those of its frame, in number and length.
    ensures fits { IsWhole (packet_parts whole) whole.rest }
{
    let Apart { mut held, fixed } = whole;
    if is_few(touch) {
        held.forget_writers();
        return Ok(Version::in_packet(alloc, held, touch, fixed));
    }
    let mut version = Version::empty(alloc, touch, fixed)?;
    let only = slice::from_mut(&mut version);
    deal_parts(alloc, &mut held, modes, only, tally)?;
    version.keep(held);
    Ok(version)
}

/// Does a branch write only fields of fixed length?
#[inline(always)]
fn is_few(touch: Touch) -> bool
    ensures { result ≡ writes_few touch }
{
    !touch.writes.has(Field::Tag) && !touch.writes.has(Field::Payload)
}

/// Versions without any field.
fn empty_versions(
    alloc: Global,
    touches: &[Touch],
    fixed: Fixed,
) -> Result<Vec<Version>, AllocError>
    ensures { IfOk result (λ versions. versions.items ≡ map (λ t. nothing t fixed) touches.now) }
{
    let mut versions = Vec::with_capacity(alloc, touches.len())?;
    for touch in touches {
        versions.push(Version::empty(alloc, *touch, fixed)?)?;
    }
    Ok(versions)
}

/// Gives the versions, which have no field yet, the parts of the fields that they write, and keeps the rest here. If no
/// branch writes, nothing is given, and a packet of which every part is in its frame is kept as it is.
fn deal_parts(
    alloc: Global,
    held: &mut Held,
    modes: &[Mode; 10],
    versions: &mut [Version],
    tally: &mut Tally,
) -> Result<(), AllocError>
    requires ten { length held.old.parts ≡ 10 }
    requires modes { modes.now ≡ modes_of (touches_in versions.old) }
    requires formed { (f : Field) → IsPartOf f (as_map held.old.parts f) }
    requires empty { versions.old ≡ map without_fields versions.old }
    ensures given { OnOk result (versions.new ≡ map (with_own (as_map held.old.parts)) versions.old) }
    ensures kept { OnOk result (held.new ≡ record held.old { parts = as_list (kept_parts (touches_in versions.old) (as_map held.old.parts)) }) }
    ensures counted { OnOk result (RaisesByDue (touches_in versions.old) (as_map held.old.parts) tally.old tally.new) }
    ensures refused { OnErr result (RaisesWithinDue (touches_in versions.old) (as_map held.old.parts) tally.old tally.new) }
{
    if is_dealt(held, versions) {
        return Ok(());
    }
    deal_each(alloc, held, modes, versions, tally)
}

/// Is every part in the frame, and does no branch write?
fn is_dealt(held: &Held, versions: &[Version]) -> bool
    ensures unwritten { IsTrue result → (f : Field) → option_map unwritten (as_map held.now.parts f) ≡ as_map held.now.parts f }
    ensures readers { IsTrue result → list_any (λ v. writes_some v.touch) versions.now ≡ false }
{
    held.is_inside() && !some_writes(versions)
}

/// Does some branch write a field?
fn some_writes(versions: &[Version]) -> bool
    ensures { result ≡ list_any (λ v. writes_some v.touch) versions.now }
{
    versions.iter().any(|version| version.writes_some())
}

/// Gives the versions the parts of the fields that they write, field by field, and keeps the rest here.
fn deal_each(
    alloc: Global,
    held: &mut Held,
    modes: &[Mode; 10],
    versions: &mut [Version],
    tally: &mut Tally,
) -> Result<(), AllocError>
    requires ten { length held.old.parts ≡ 10 }
    requires modes { modes.now ≡ modes_of (touches_in versions.old) }
    requires formed { (f : Field) → IsPartOf f (as_map held.old.parts f) }
    requires empty { versions.old ≡ map without_fields versions.old }
    ensures given { OnOk result (versions.new ≡ map (with_own (as_map held.old.parts)) versions.old) }
    ensures kept { OnOk result (held.new ≡ record held.old { parts = as_list (kept_parts (touches_in versions.old) (as_map held.old.parts)) }) }
    ensures counted { OnOk result (RaisesByDue (touches_in versions.old) (as_map held.old.parts) tally.old tally.new) }
    ensures refused { OnErr result (RaisesWithinDue (touches_in versions.old) (as_map held.old.parts) tally.old tally.new) }
{
    let fields = all_fields();
    for field in fields {
        deal_field(alloc, *field, held, modes[field.number()], versions, tally)?;
    }
    Ok(())
}
