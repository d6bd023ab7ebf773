//! Patterns that are searched for together.

use crate::pattern::Pattern;
use crate::sieve::{GROUPS, Sieve};
use function_lines::SharedItems;
use item_list::Items;
use std::alloc::{AllocError, Global};
use std::marker::Model;
use std::sync::Arc;

/// The number of patterns from which on one pass over a payload is cheaper than a search for each.
const MANY: usize = 8;

/// Patterns in order, shared by several owners and changed by none, with a sieve that spares the search for most of
/// them. A contract sees them as a list.
#[derive(Debug, Drop)]
pub struct PatternSet {
    patterns: SharedItems<Pattern>,
    /// Finds which of many patterns may occur. `None` for few patterns, which are searched one after another.
    sieve: Option<Arc<Sieve>>,
}

impl Model for PatternSet {
    ghost use Rattle.std.specs.Prelude.{ℕ, List, IfSome};
    ghost use Rattle.std.specs.Arc.{arc_value};
    ghost use Rattle.patterns.specs.Sieving.{IsSieveOf};

    ghost Value = { List (List ℕ) };

    ghost view = { λ s. s.patterns };

    ghost invariant = { λ s. IfSome s.sieve (λ sieve. IsSieveOf (arc_value sieve).width (arc_value sieve).stride (arc_value sieve).short (arc_value sieve).table.items s.patterns) };
}

impl PatternSet {
    ghost use Rattle.std.specs.Prelude.{◌≡◌, position, IfOk};
    ghost use Rattle.patterns.specs.Occurrences.{occurs};

    /// Makes patterns ready to be looked for and to be shared, with one owner so far. The only error is that memory
    /// runs out.
    pub fn new(alloc: Global, patterns: Items<Pattern>) -> Result<PatternSet, AllocError>
        ensures { IfOk result (λ set. set ≡ patterns) }
    {
        let sieve = sieve_of(alloc, patterns.as_slice())?;
        let patterns = SharedItems::new(alloc, patterns)?;
        Ok(PatternSet { patterns, sieve })
    }

    /// The same patterns once more, for one more owner. It copies no pattern and allocates nothing. The only error is
    /// that no more owners can be counted.
    pub fn try_clone(&self) -> Result<PatternSet, AllocError>
        ensures { IfOk result (λ set. set ≡ self.now) }
    {
        let sieve = match &self.sieve {
            Some(sieve) => Some(Arc::try_clone(sieve)?),
            None => None,
        };
        let patterns = self.patterns.try_clone()?;
        Ok(PatternSet { patterns, sieve })
    }

    /// The patterns, in their order.
    pub fn as_slice(&self) -> &[Pattern]
        ensures { result.now ≡ self.now }
    {
        self.patterns.as_slice()
    }

    /// The place of the first pattern that occurs in the payload.
    pub(crate) fn place_of(&self, payload: &[u8]) -> Option<usize>
        ensures { result ≡ position (λ pattern. occurs pattern payload.now) self.now }
    {
        let patterns = self.patterns.as_slice();
        match &self.sieve {
            Some(sieve) => first_of_groups(patterns, sieve.groups_in(payload), payload),
            None => patterns.iter().position(|pattern| pattern.occurs(payload)),
        }
    }
}

ghost use Rattle.std.specs.Prelude.{◌≡◌, ◌%◌, ◌<◌, position, IfOk, IfSome, IsTrue, ◌↔◌};
ghost use Rattle.std.specs.Arc.{arc_value};
ghost use Rattle.std.specs.Int.{bit_at};
ghost use Rattle.patterns.specs.Occurrences.{occurs};
ghost use Rattle.patterns.specs.Sieving.{IsSieveOf, HasAll};

/// The sieve of many patterns.
fn sieve_of(alloc: Global, patterns: &[Pattern]) -> Result<Option<Arc<Sieve>>, AllocError>
    ensures { IfOk result (λ made. IfSome made (λ sieve. IsSieveOf (arc_value sieve).width (arc_value sieve).stride (arc_value sieve).short (arc_value sieve).table.items patterns.now)) }
{
    if patterns.len() < MANY {
        return Ok(None);
    }
    let sieve = Sieve::of(alloc, patterns)?;
    Ok(Some(Arc::new(alloc, sieve)?))
}

/// The place of the first pattern that occurs in the payload, if the groups have all patterns that do.
fn first_of_groups(patterns: &[Pattern], groups: u64, payload: &[u8]) -> Option<usize>
    requires { HasAll patterns.now payload.now groups }
    ensures { result ≡ position (λ pattern. occurs pattern payload.now) patterns.now }
{
    if groups == 0 {
        return None;
    }
    'patterns: for place in 0..patterns.len() {
        if has_group(groups, place % GROUPS) && patterns[place].occurs(payload) {
            return Some(place);
        }
    }
    None
}

/// Is the group among these?
fn has_group(groups: u64, group: usize) -> bool
    requires { group < 64 }
    ensures { IsTrue result ↔ (bit_at groups group ≡ 1) }
{
    groups >> group & 1 == 1
}
