//! The line of a packet that was dropped.
ghost use Rattle.std.specs.Prelude.{◌≡◌, ◌++◌, OnOk, map};
ghost use Rattle.std.specs.List.{flat_map};
ghost use Rattle.policy_text.specs.declared.policy.FunctionDecl.{FunctionDecl};
ghost use Rattle.declared_lines.specs.LinesOf.{lines_of};
ghost use Rattle.declared_lines.specs.DeclaredLines.{number_of};
ghost use Rattle.why_report.specs.Report.{drop_text};
ghost use Rattle.why_account.specs.Accounts.{AddsDrop, AddsDropAt, AddsDropBy};

use crate::chain::ChainAccount;
use chain_walk::Fate;
use declared_lines::DeclaredLines;
use item_list::Items;
use packet_function::DecidingLine;
use policy_text::Name;
use std::alloc::{AllocError, Global};
use traced_run::TracedAct;
use why_report::push_drop_line;

/// Adds the line of packet `number`, which the chain `name` took, if it was dropped there: with the function and the line of
/// the policy that decided it.
pub fn push_drop(
    alloc: Global,
    text: &mut Vec<u8>,
    number: u64,
    name: &Name,
    account: &ChainAccount,
    acts: &[TracedAct],
    fate: &Fate,
) -> Result<(), AllocError>
    ensures { OnOk result (AddsDrop number name.now account.now acts.now fate.now text.old.items text.new.items) }
{
    match fate {
        Fate::Out(_) => Ok(()),
        Fate::Gone(position) => {
            let place = position.saturating_sub(1) as usize;
            push_drop_at(alloc, text, number, name, account, acts, place)
        }
    }
}

// Adds the line of a packet that the function at this place of its chain dropped.
fn push_drop_at(
    alloc: Global,
    text: &mut Vec<u8>,
    number: u64,
    name: &Name,
    account: &ChainAccount,
    acts: &[TracedAct],
    place: usize,
) -> Result<(), AllocError>
    ensures { OnOk result (AddsDropAt number name.now account.now acts.now place text.old.items text.new.items) }
{
    match acts.get(place) {
        Some(act) => push_drop_by(alloc, text, number, name, account, &act.lines, place),
        None => Ok(()),
    }
}

// Adds the line of a packet that the function at this place dropped, decided by these lines.
fn push_drop_by(
    alloc: Global,
    text: &mut Vec<u8>,
    number: u64,
    name: &Name,
    account: &ChainAccount,
    deciding: &Items<DecidingLine>,
    place: usize,
) -> Result<(), AllocError>
    ensures { OnOk result (AddsDropBy number name.now account.now deciding.now place text.old.items text.new.items) }
{
    let Some(function) = account.names.as_slice().get(place) else {
        return Ok(());
    };
    match account.lines.as_slice().get(place) {
        Some(lines) => {
            push_drops(
                alloc,
                text,
                number,
                name,
                function,
                lines,
                deciding.as_slice(),
            )
        }
        None => Ok(()),
    }
}

// Adds a line for each line of the declaration that decided the drop.
fn push_drops(
    alloc: Global,
    text: &mut Vec<u8>,
    number: u64,
    name: &Name,
    function: &Name,
    lines: &DeclaredLines,
    deciding: &[DecidingLine],
) -> Result<(), AllocError>
    ensures { (decl : FunctionDecl) → lines.now ≡ lines_of decl → OnOk result (text.new.items ≡ text.old.items ++ flat_map (drop_text number name.now function.now) (map (number_of decl) deciding.now)) }
{
    'deciding: for role in deciding {
        let line = lines.number(*role);
        push_drop_line(alloc, text, number, name.bytes(), function.bytes(), line)?;
    }
    Ok(())
}
