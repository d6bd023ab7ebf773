//! What holds of the names of kinds.

ghost use Rattle.std.specs.Prelude.{◌≡◌, ℕ, List, Some};
ghost use Rattle.action_profile.specs.Kinds.{kind_name, kind_named};
ghost use Rattle.action_profile.specs.declared.kind.Kind.{Kind};

/// A law: the name of a kind is read as that kind, and a word that is read as a kind is that kind's name.
pub fn kinds_have_their_words()
    ensures read { (kind : Kind) → kind_named (kind_name kind) ≡ Some kind }
    ensures named { (word : List ℕ) → (kind : Kind) → kind_named word ≡ Some kind → word ≡ kind_name kind }
{}
