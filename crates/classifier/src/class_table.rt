//! The table that decides which chain takes a packet.
ghost use Rattle.std.specs.Prelude.{◌≡◌, ◌<◌, ◌^◌, List, ℕ, IfOk, IfSome, IsTrue, Some, length, map, position};
ghost use Rattle.policy_text.specs.Meeting.{is_fitting};
ghost use Rattle.classifier.specs.Classes.{class_of};

use frame_seen::seen;
use item_list::Items;
use policy_text::{ChainPolicy, Match, Policy, Seen, fits};
use std::alloc::{AllocError, Global};
use std::marker::Model;

/// The clauses of each chain of a policy, in the order of the text. A contract sees it as a list.
#[derive(Drop)]
pub struct ClassTable {
    fits: Items<Match>,
}

impl Model for ClassTable {
    ghost use Rattle.std.specs.Prelude.{List, ◌<◌, length};
    ghost use Rattle.policy_text.specs.declared.clause.Match.{Match};

    ghost Value = { List Match };

    ghost view = { λ t. t.fits };

    // Chains are numbered in 32 bits.
    ghost invariant = { λ t. length t.fits < 4294967296 };
}

impl ClassTable {
    /// The table of a policy's chains. It copies their clauses, and allocates the memory for that.
    pub fn new(alloc: Global, policy: &Policy) -> Result<ClassTable, AllocError>
        requires few { length policy.now.chains < 2 ^ 32 }
        ensures { IfOk result (λ table. table ≡ map (λ c. c.fit) policy.now.chains) }
    {
        let fits = fits_of(alloc, policy.chains.as_slice())?;
        Ok(ClassTable {
            fits: Items::new(fits),
        })
    }

    /// The chain that takes a packet with this frame, counted from 0: the first whose clauses the frame meets, as it
    /// was read. `None` if no chain takes it. Allocates nothing.
    pub fn class(&self, frame: &[u8]) -> Option<u32>
        ensures { result ≡ class_of self.now frame.now }
    {
        let chains = self.fits.as_slice();
        // The frame isn't read if that can't change the result.
        if chains.is_empty() {
            return None;
        }
        if first_takes_all(chains) {
            return Some(0);
        }
        match first_that_fits(chains, &seen(frame)) {
            None => None,
            Some(place) => Some(place as u32),
        }
    }
}

/// Is there a first chain, and does it have no clauses?
fn first_takes_all(chains: &[Match]) -> bool
    ensures { IsTrue result → (frame : List ℕ) → class_of chains.now frame ≡ Some 0 }
{
    match chains.first() {
        Some(fit) => fit.clauses.as_slice().is_empty(),
        None => false,
    }
}

/// The place of the first clauses that are met.
fn first_that_fits(chains: &[Match], seen: &Seen) -> Option<usize>
    ensures found { result ≡ position (λ fit. is_fitting fit seen.now) chains.now }
    ensures within { IfSome result (λ place. place < length chains.now) }
{
    chains.iter().position(|fit| fits(fit, seen))
}

/// A copy of each chain's clauses.
fn fits_of(alloc: Global, chains: &[ChainPolicy]) -> Result<Vec<Match>, AllocError>
    ensures { IfOk result (λ fits. fits.items ≡ map (λ c. c.fit) chains.now) }
{
    let mut fits = Vec::with_capacity(alloc, chains.len())?;
    for chain in chains {
        fits.push(copy_of(alloc, &chain.fit)?)?;
    }
    Ok(fits)
}

/// The same clauses.
fn copy_of(alloc: Global, fit: &Match) -> Result<Match, AllocError>
    ensures { IfOk result (λ copy. copy ≡ fit.now) }
{
    Ok(Match {
        clauses: Items::new(fit.clauses.as_slice().to_vec(alloc)?),
    })
}
