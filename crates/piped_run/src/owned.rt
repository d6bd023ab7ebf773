//! The functions that a branch owns, as the work of a node.
ghost use Rattle.std.specs.Prelude.{◌≡◌, suc, [], false, All, IfOk, IfSome, IsSome, if◌then◌else◌};

use crate::turn::branch_turn;
use chain_walk::quiet_functions_keep_to_profiles;
use graph_run::functions_keep_to_profiles;
use nfp_outside::Gate;
use packet_function::Function;
use packet_messages::Message;
use packet_version::Version;
use settled_notes::ListedNote;
use stage_nodes::BranchWork;
use std::alloc::{AllocError, Global};
use std::marker::Model;
use std::sync::Wait;

/// The functions of a branch, their positions in the chain with this number, and the record numbers of a burst's
/// packets. If one of the functions counts, packets are numbered as they come, and what is noted of them is listed.
#[derive(Drop)]
pub(crate) struct OwnedFunctions<F> {
    pub(crate) functions: Vec<F>,
    pub(crate) positions: Vec<u32>,
    pub(crate) numbers: Vec<u32>,
    pub(crate) chain: u32,
    pub(crate) counts: bool,
    pub(crate) seen: u32,
    pub(crate) listed: Vec<ListedNote>,
}

impl<F> Model for OwnedFunctions<F> {
    ghost use Rattle.std.specs.Prelude.{length};
    ghost use Rattle.packet_function.specs.declared.note.FlowNote.{FlowNote};
    ghost use Rattle.stream_law.specs.Owned.{PlainOwned};

    ghost Value = { PlainOwned F FlowNote };

    ghost view = { λ o. record {
      functions = o.functions.items;
      positions = o.positions.items;
      packets = length o.numbers.items;
      counts = o.counts;
      seen = o.seen;
      listed = o.listed.items;
    } };
}

impl<F: Function + Drop> BranchWork for OwnedFunctions<F> {
    ghost use Rattle.chain_walk.specs.Counting.{quiet};
    ghost use Rattle.stream_law.specs.Owned.{owned_kit, owned_may};

    ghost kit = { owned_kit (quiet F.behaviour) F.notes };

    ghost may = { owned_may (quiet F.behaviour) };

    fn turn<R: Wait, G: Gate>(
        &mut self,
        rt: &R,
        alloc: Global,
        gate: &G,
        place: u32,
        message: Message<Version>,
    ) -> Message<Version> {
        let Some(next) = next_number(self.counts, self.seen) else {
            return Message::Short;
        };
        match message {
            Message::Live(version) => {
                let number = self.numbers[place as usize];
                let came = branch_turn(
                    rt,
                    alloc,
                    self.functions.as_mut_slice(),
                    self.positions.as_slice(),
                    Message::Live(version),
                    number,
                    self.chain,
                    gate,
                    self.seen,
                    &mut self.listed,
                );
                self.seen = next;
                came
            }
            gone => {
                self.seen = next;
                gone
            }
        }
    }

    fn try_clone(&self, alloc: Global) -> Result<Option<Self>, AllocError> {
        functions_keep_to_profiles::<F>();
        quiet_functions_keep_to_profiles::<F>();
        if self.counts || !self.listed.is_empty() {
            return Ok(None);
        }
        let Some(functions) = clone_all(alloc, self.functions.as_slice())? else {
            return Ok(None);
        };
        let work = beside(alloc, self, functions)?;
        Ok(Some(work))
    }
}

/// The number of the packet after this one, in a work that numbers packets, and the same number in another. `None` if
/// numbers end, which never happens within a burst.
fn next_number(counts: bool, seen: u32) -> Option<u32>
    ensures { IfSome result (λ next. next ≡ (if counts then suc seen else seen)) }
{
    if counts {
        seen.checked_add(1)
    } else {
        Some(seen)
    }
}

/// A work with these functions and otherwise the fields of `work`, but with an empty list of notes.
fn beside<F: Drop>(
    alloc: Global,
    work: &OwnedFunctions<F>,
    functions: Vec<F>,
) -> Result<OwnedFunctions<F>, AllocError>
    ensures { IfOk result (λ other. other ≡ record work.now { functions = functions.items; listed = [] }) }
{
    let positions = Vec::from_slice(alloc, work.positions.as_slice())?;
    let numbers = Vec::from_slice(alloc, work.numbers.as_slice())?;
    Ok(OwnedFunctions {
        functions,
        positions,
        numbers,
        chain: work.chain,
        counts: work.counts,
        seen: work.seen,
        listed: Vec::new(alloc),
    })
}

/// The same functions once more, if none of them keeps a state or counts.
fn clone_all<F: Function + Drop>(
    alloc: Global,
    functions: &[F],
) -> Result<Option<Vec<F>>, AllocError>
    ensures same { IfOk result (λ found. IfSome found (λ all. all.items ≡ functions.now)) }
    ensures stateless { IfOk result (λ found. IsSome found → All (λ f. ((F.behaviour.profile f).state ≡ false) × ((F.behaviour.profile f).counts ≡ false)) functions.now) }
{
    let mut all = Vec::with_capacity(alloc, functions.len())?;
    for function in functions {
        match function.try_clone(alloc)? {
            Some(same) => all.push(same)?,
            None => return Ok(None),
        }
    }
    Ok(Some(all))
}
