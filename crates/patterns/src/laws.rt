//! Properties of finding and overwriting, stated without the functions.
ghost use Rattle.std.specs.Prelude.{◌≡◌, ◌≢◌, ◌<◌, ◌++◌, ℕ, List, length, true, false, All};
ghost use Rattle.patterns.specs.Occurrences.{occurs};
ghost use Rattle.patterns.specs.Overwriting.{cross, overwritten, redacted};
ghost use Rattle.patterns.specs.Laws.{StandsIn, Becomes};

/// A pattern occurs exactly in the payloads that consist of the pattern with bytes before it and after it, either of
/// which may be empty.
pub fn a_pattern_occurs_where_it_stands()
    ensures stands { (pattern payload : List ℕ) → occurs pattern payload ≡ true → StandsIn pattern payload }
    ensures occurs { (pattern before behind : List ℕ) → occurs pattern (before ++ (pattern ++ behind)) ≡ true }
{}

/// Overwriting goes from one occurrence to the next: the bytes before the first occurrence stay, the occurrence is
/// overwritten byte by byte, and the bytes after it become what they become by themselves. No other result satisfies
/// these statements.
pub fn overwriting_goes_from_occurrence_to_occurrence()
    ensures becomes { (pattern payload : List ℕ) → 0 < length pattern → Becomes pattern payload (overwritten pattern payload) }
    ensures alone { (pattern payload after : List ℕ) → 0 < length pattern → Becomes pattern payload after → after ≡ overwritten pattern payload }
{}

/// A payload keeps its length. A pattern that doesn't occur changes nothing, and one without a small x is gone.
pub fn overwritten_patterns_are_gone()
    ensures length { (patterns : List (List ℕ)) (payload : List ℕ) → length (redacted patterns payload) ≡ length payload }
    ensures stays { (pattern payload : List ℕ) → occurs pattern payload ≡ false → overwritten pattern payload ≡ payload }
    ensures gone { (pattern payload : List ℕ) → 0 < length pattern → All (λ b. b ≢ cross) pattern → occurs pattern (overwritten pattern payload) ≡ false }
{}
