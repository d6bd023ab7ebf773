//! Laws of versions and views, for the crates above.
ghost use Rattle.std.specs.Prelude.{◌≡◌, ◌≢◌, ◌++◌, ℕ, List, Some, length, drop, true, false, option_map};
ghost use Rattle.packet_fields.specs.declared.field.Field.{Field};
ghost use Rattle.action_profile.specs.declared.parts.Touch.{Touch};
ghost use Rattle.action_profile.specs.Modes.{has_write};
ghost use Rattle.packet_fields.specs.Writing.{over as values_over};
ghost use Rattle.chain_walk.specs.Shown.{Values, AreWellFormed};
ghost use Rattle.chain_walk.specs.Step.{nothing};
ghost use Rattle.packet_version.specs.Parts.{AreTags, Parts, rewritten, writers_of};
ghost use Rattle.packet_fields.specs.Writing.{rest_of};
ghost use Rattle.packet_version.specs.Splitting.{PlainApart, IsWhole, IsShapedAs, packet_parts, split_parts, taken_apart};
ghost use Rattle.packet_version.specs.Versions.{version_parts};
ghost use Rattle.packet_version.specs.Dealing.{dealt, dealt_parts, based, kept_parts};
ghost use Rattle.packet_version.specs.Views.{PlainView, seen_parts, seen_values, wrote, pushed, popped, wrote_all, rewritten_by, alone, HasBytes, WroteAlone};
ghost use Rattle.packet_version.specs.Lending.{edited, over};
ghost use Rattle.packet_version.specs.ViewLending.{left};
ghost use Rattle.action_profile.specs.Profiles.{writes_of};

use crate::version::Version;
use crate::view::View;
use packet_fields::Field;

/// A frame of any bytes that is taken apart has a part for each of its fields, and these fit the rest of it.
pub fn frames_come_apart()
    ensures parts { (taggers time : ℕ) (frame : List ℕ) → packet_parts (taken_apart taggers time frame) ≡ split_parts taggers frame }
    ensures fits { (taggers time : ℕ) (frame : List ℕ) → IsWhole (packet_parts (taken_apart taggers time frame)) (rest_of frame) }
{}

/// What is read after a write: the new bytes, by this function, in the field that was written, and the old bytes with
/// their writer in each other field.
pub fn written_is_read()
    ensures { (view : PlainView) (f : Field) (bytes : List ℕ) → WroteAlone f (option_map (rewritten bytes view.position) (seen_parts view f)) view (wrote f bytes view) }
{}

/// The same for bytes that were lent and written.
pub fn left_is_read()
    ensures { (view : PlainView) (f : Field) (bytes : List ℕ) → WroteAlone f (option_map (edited bytes view.position) (seen_parts view f)) view (left f bytes view) }
{}

/// A view in which nothing was written is as it was: it has a place for each field, and no other.
pub fn unwritten_stays(view: &View)
    ensures same { wrote_all nothing view.now ≡ view.now }
    ensures ten { length view.now.version.parts ≡ 10 }
{
    let _ = &view.position;
}

/// What a view shows has the form of a frame's fields: each value has its field's length, and the tags are whole.
pub fn view_is_formed(view: &View)
    ensures { AreWellFormed (seen_values view.now) }
{
    let _ = &view.position;
}

/// Each way of writing in a view is to write one field: new bytes, bytes that were lent and left, one more tag before
/// the others, or one tag fewer.
pub fn written_is_one_value()
    ensures set { (view : PlainView) (f : Field) (bytes : List ℕ) → wrote f bytes view ≡ wrote_all (alone f (Some bytes)) view }
    ensures edited { (view : PlainView) (f : Field) (bytes : List ℕ) → left f bytes view ≡ wrote_all (alone f (option_map (over bytes) (seen_values view f))) view }
    ensures pushed { (view : PlainView) (tag : List ℕ) → pushed tag view ≡ wrote_all (alone Field.Tag (option_map (λ tags. tag ++ tags) (seen_values view Field.Tag))) view }
    ensures popped { (view : PlainView) → popped view ≡ wrote_all (alone Field.Tag (option_map (λ tags. drop 4 tags) (seen_values view Field.Tag))) view }
{}

/// Writing some values and then others is writing the later ones over the first, in one step. A field that is there
/// after a write has the new bytes, by this function, and the same room; a field that wasn't there stays absent.
pub fn later_write_stands_over()
    ensures both { (view : PlainView) (first later : Values) → wrote_all later (wrote_all first view) ≡ wrote_all (values_over later first) view }
    ensures parts { (view : PlainView) (new : Values) (f : Field) → seen_parts (wrote_all new view) f ≡ rewritten_by (new f) view.position (seen_parts view f) }
{}

/// The writer of a field of a version is in a branch that writes the field: a field that a branch only reads is
/// unwritten. A version has a place for each field.
pub fn written_is_own(version: &Version)
    ensures unwritten { (f : Field) → has_write f version.now.touch ≡ false → writers_of (version_parts version.now) f ≡ 0 }
    ensures ten { length version.now.parts ≡ 10 }
{
    let _ = &version.touch;
}

/// The tags of a version are whole.
pub fn tags_are_whole(version: &Version)
    ensures { AreTags (version_parts version.now Field.Tag) }
{
    let _ = &version.touch;
}

/// What one branch writes is visible in no other branch's version.
pub fn write_apart(mine: &mut View, other: &mut View, field: Field, value: &[u8])
    requires not_tag { field ≢ Field.Tag }
    requires written { writes_of mine.old.profile field ≡ true }
    requires fits { HasBytes mine.old field (λ old. length value.now ≡ length old) }
    ensures mine { mine.new ≡ wrote field value.now mine.old }
    ensures other { other.new ≡ other.old }
{
    mine.set(field, value);
}

/// What a version and a base get when a packet is dealt, field by field.
pub fn dealt_is_read()
    ensures version { (whole : PlainApart) (touch : Touch) → version_parts (dealt whole touch) ≡ dealt_parts touch (packet_parts whole) }
    ensures base { (whole : PlainApart) (touches : List Touch) → packet_parts (based touches whole) ≡ kept_parts touches (packet_parts whole) }
{}

/// Parts that have the shape of a packet's parts make a packet with its rest.
pub fn shape_fits()
    ensures { (old new : Parts) (rest : List ℕ) → IsWhole old rest → IsShapedAs old new → IsWhole new rest }
{}
