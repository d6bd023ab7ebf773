//! The lines of a chain and its functions.
ghost use Rattle.std.specs.Prelude.{◌≡◌, OnOk};
ghost use Rattle.why_account.specs.Accounts.{AddsChain, AddsFunctionAt, AddsFunctions};

use crate::chain::ChainAccount;
use crate::function::FunctionAccount;
use policy_text::{ChainPolicy, FunctionDecl};
use std::alloc::{AllocError, Global};
use why_report::{push_chain_line, push_function_lines};

/// Adds the lines of a chain and its functions, as they are declared.
#[tactic(auto, unfolding(why_report::specs::Report::chain_lines))]
pub fn push_chain(
    alloc: Global,
    text: &mut Vec<u8>,
    chain: &ChainPolicy,
    account: &ChainAccount,
) -> Result<(), AllocError>
    ensures { OnOk result (AddsChain chain.now account.now text.old.items text.new.items) }
{
    push_chain_line(alloc, text, chain.name.bytes(), account.took)?;
    push_functions(
        alloc,
        text,
        chain.name.bytes(),
        chain.functions.as_slice(),
        account.functions.as_slice(),
    )
}

// Adds the lines of each function.
fn push_functions(
    alloc: Global,
    text: &mut Vec<u8>,
    chain: &[u8],
    decls: &[FunctionDecl],
    functions: &[FunctionAccount],
) -> Result<(), AllocError>
    ensures { OnOk result (AddsFunctions chain.now decls.now functions.now text.old.items text.new.items) }
{
    'decls: for (place, decl) in decls.iter().enumerate() {
        push_function(alloc, text, chain, decl, functions, place)?;
    }
    Ok(())
}

// Adds the lines of the function whose account is at this place.
fn push_function(
    alloc: Global,
    text: &mut Vec<u8>,
    chain: &[u8],
    decl: &FunctionDecl,
    functions: &[FunctionAccount],
    place: usize,
) -> Result<(), AllocError>
    ensures { OnOk result (AddsFunctionAt chain.now decl.now functions.now place text.old.items text.new.items) }
{
    match functions.get(place) {
        Some(account) => {
            push_function_lines(alloc, text, chain, decl, &account.lines, &account.used)
        }
        None => Ok(()),
    }
}
