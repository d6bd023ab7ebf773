//! What asks for clauses, and what one before it leaves to it.
ghost use Rattle.std.specs.Prelude.{◌≡◌, ◌++◌, [], OnOk};
ghost use Rattle.std.specs.Option.{option_copied, option_to_list};
ghost use Rattle.policy_lint.specs.Gathering.{Asking, told_if, cover_of, told_of, covered};

use crate::covering::covers;
use crate::finding::Finding;
use item_list::Items;
use policy_text::{ChainPolicy, Match};
use std::alloc::AllocError;

/// What asks for clauses: the first whose clauses a packet meets takes or decides it.
pub trait Asks {
    /// Its line, its clauses, and what is told where one before it covers it.
    ghost asking: { Asking Self };

    fn line(&self) -> u32
        ensures { result ≡ asking.line self.now };

    fn fit(&self) -> &Match
        ensures { result.now ≡ asking.fit self.now };

    fn told(line: u32, by: u32) -> Finding
        ensures { result ≡ asking.told line by };
}

impl Asks for ChainPolicy {
    ghost use Rattle.policy_lint.specs.declared.finding.Finding.TheVariants.{ChainTaken};

    ghost asking = { record { line = λ c. c.line; fit = λ c. c.fit; told = λ line by. ChainTaken line by } };

    fn line(&self) -> u32 {
        self.line
    }

    fn fit(&self) -> &Match {
        &self.fit
    }

    fn told(line: u32, by: u32) -> Finding {
        Finding::ChainTaken { line, by }
    }
}

/// Adds what is told of those that one before them covers.
#[tactic(auto, using(crate::proofs::Steps::begins, crate::proofs::Steps::ends))]
pub fn push_covered<T: Asks>(found: &mut Items<Finding>, things: &[T]) -> Result<(), AllocError>
    ensures { OnOk result (found.new ≡ found.old ++ covered T.asking things.now) }
{
    'things: for place in 0..things.len() {
        push_one(found, told_of(&things[..place], &things[place]))?;
    }
    Ok(())
}

/// Adds a finding, where there is one.
pub fn push_one(found: &mut Items<Finding>, finding: Option<Finding>) -> Result<(), AllocError>
    ensures { OnOk result (found.new ≡ found.old ++ option_to_list finding) }
{
    if let Some(finding) = finding {
        found.push(finding)?;
    }
    Ok(())
}

/// Adds a finding, where it is so.
pub fn push_if(found: &mut Items<Finding>, is_so: bool, finding: Finding) -> Result<(), AllocError>
    ensures { OnOk result (found.new ≡ found.old ++ told_if is_so finding) }
{
    if is_so {
        found.push(finding)?;
    }
    Ok(())
}

fn told_of<T: Asks>(before: &[T], thing: &T) -> Option<Finding>
    ensures { result ≡ told_of T.asking before.now thing.now }
{
    let other = cover_of(before, thing)?;
    Some(T::told(thing.line(), other.line()))
}

// The first of those before it that covers it.
fn cover_of<'a, T: Asks>(before: &'a [T], thing: &T) -> Option<&'a T>
    ensures { option_copied result ≡ cover_of T.asking before.now thing.now }
{
    let fit = thing.fit();
    before.iter().find(|other| covers(other.fit(), fit))
}
