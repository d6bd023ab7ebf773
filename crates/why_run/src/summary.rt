//! What follows the lines of the dropped packets.
ghost use Rattle.std.specs.Prelude.{◌≡◌, ◌≤◌, OnOk};
ghost use Rattle.why_run.specs.Telling.{AddsChainAt, AddsChains, AddsSummary};

use capture_items::{FormatFault, push_last_line, push_totals_line};
use plain_chains::PlainChain;
use std::alloc::{AllocError, Global};
use why_account::{Account, ChainAccount, push_chain};
use why_report::push_untaken_line;

/// Adds the totals, the packets that no chain took, the chains with their functions, and the end or the capture's fault.
#[tactic(auto, unfolding(why_report::specs::Report::summary))]
pub fn push_summary(
    alloc: Global,
    text: &mut Vec<u8>,
    chains: &[PlainChain],
    account: &Account,
    fault: Option<FormatFault>,
) -> Result<(), AllocError>
    requires within { account.now.totals.dropped ≤ account.now.totals.records }
    ensures { OnOk result (AddsSummary chains.now account.now fault text.old.items text.new.items) }
{
    push_totals_line(alloc, text, account.totals)?;
    push_untaken_line(alloc, text, account.untaken)?;
    push_chains(alloc, text, chains, account.chains.as_slice())?;
    push_last_line(alloc, text, fault)
}

// Adds the lines of each chain.
fn push_chains(
    alloc: Global,
    text: &mut Vec<u8>,
    chains: &[PlainChain],
    accounts: &[ChainAccount],
) -> Result<(), AllocError>
    ensures { OnOk result (AddsChains chains.now accounts.now text.old.items text.new.items) }
{
    'chains: for (place, chain) in chains.iter().enumerate() {
        push_chain_at(alloc, text, chain, accounts, place)?;
    }
    Ok(())
}

// Adds the lines of the chain whose account is at this place.
fn push_chain_at(
    alloc: Global,
    text: &mut Vec<u8>,
    chain: &PlainChain,
    accounts: &[ChainAccount],
    place: usize,
) -> Result<(), AllocError>
    ensures { OnOk result (AddsChainAt chain.now accounts.now place text.old.items text.new.items) }
{
    match accounts.get(place) {
        Some(account) => push_chain(alloc, text, &chain.declared, account),
        None => Ok(()),
    }
}
