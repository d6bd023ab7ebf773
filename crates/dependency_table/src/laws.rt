//! What follows from an answer of the table.

ghost use Rattle.std.specs.Prelude.{◌≡◌, IsTrue, false, ◌||◌, ◌&&◌};
ghost use Rattle.packet_fields.specs.declared.field.Field.{Field};
ghost use Rattle.action_profile.specs.declared.rights.Profile.{Profile};
ghost use Rattle.action_profile.specs.Profiles.{reads_of, writes_of};
ghost use Rattle.dependency_table.specs.Actions.{has_action};
ghost use Rattle.dependency_table.specs.declared.action.Action.{Action};
ghost use Rattle.dependency_table.specs.declared.action.Answer.TheVariants.{Forbidden};
ghost use Rattle.dependency_table.specs.Table.{forbids, pair_of, is_allowed, copies_field};

/// A law: if the table lets two functions run side by side, the later one sees what it would see after the earlier one.
/// No field that the earlier one writes is read by the later one, a packet that the earlier one may drop changes no
/// state of the later one, and neither works on the frame as a whole.
pub fn beside_is_independent()
    ensures unread { (x y : Profile) → (f : Field) → IsTrue (is_allowed (pair_of x y)) → IsTrue (writes_of x f) → reads_of y f ≡ false }
    ensures stateless { (x y : Profile) → IsTrue (is_allowed (pair_of x y)) → IsTrue x.drops → y.state ≡ false }
    ensures first_in_parts { (x y : Profile) → IsTrue (is_allowed (pair_of x y)) → x.whole ≡ false }
    ensures second_in_parts { (x y : Profile) → IsTrue (is_allowed (pair_of x y)) → y.whole ≡ false }
{}

/// A law: if two functions run side by side, the fields that each needs a copy of are those that the later one writes
/// and the earlier one reads or writes.
pub fn copied_fields()
    ensures { (x y : Profile) → (f : Field) → IsTrue (is_allowed (pair_of x y)) → copies_field (pair_of x y) f ≡ ((reads_of x f || writes_of x f) && writes_of y f) }
{}

/// A law: an answer that two functions may not run side by side names an action of each, of which
/// the first forbids the second.
pub fn forbidden_has_a_cause()
    ensures of_first { (x y : Profile) → (a b : Action) → pair_of x y ≡ Forbidden a b → IsTrue (has_action x a) }
    ensures of_second { (x y : Profile) → (a b : Action) → pair_of x y ≡ Forbidden a b → IsTrue (has_action y b) }
    ensures forbids { (x y : Profile) → (a b : Action) → pair_of x y ≡ Forbidden a b → IsTrue (forbids a b) }
{}
