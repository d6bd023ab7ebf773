//! Several patterns, one after another.
ghost use Rattle.std.specs.Prelude.{◌≡◌, position};
ghost use Rattle.patterns.specs.Occurrences.{occurs};
ghost use Rattle.patterns.specs.Overwriting.{redacted};
ghost use Rattle.patterns.specs.Steps.{BeginsAt};

use crate::pattern::Pattern;
use crate::set::PatternSet;

/// The place of the first pattern that occurs in the payload, or `None` if none occurs. To overwrite all patterns, it
/// is enough to go on from this place.
#[tactic(auto, using(crate::proofs::OneByOne::first_place))]
pub fn first_occurring(patterns: &PatternSet, payload: &[u8]) -> Option<usize>
    ensures first { result ≡ position (λ pattern. occurs pattern payload.now) patterns.now }
    ensures enough { BeginsAt patterns.now payload.now result }
{
    patterns.place_of(payload)
}

/// Overwrites the patterns one after another, each in the payload as the patterns before it left it. Its length stays.
pub fn redact(patterns: &[Pattern], payload: &mut [u8])
    ensures { payload.new ≡ redacted patterns.now payload.old }
{
    'patterns: for pattern in patterns {
        pattern.overwrite(payload);
    }
}
