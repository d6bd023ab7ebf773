//! A capture through plain chains, and its report.
ghost use Rattle.std.specs.Prelude.{◌≡◌, ◌≢◌, ◌≤◌, [], true, IfErr, IfNone, IfOk, IfSome, IsSome};
ghost use Rattle.nfp_outside.specs.declared.slot.Slot.{Slot};
ghost use Rattle.why_account.specs.Accounts.{chain_accounts};
ghost use Rattle.why_run.specs.Running.{ReportBreaks, ReportsAll, ordered_of};
ghost use Rattle.why_run.specs.Telling.{Begins};

use crate::records::{FULL, tell_records};
use crate::summary::push_summary;
use crate::telling::Telling;
use capture_bytes::Unit;
use capture_items::{FormatFault, RunFault, Source, Totals, put_text};
use item_list::Items;
use nfp_outside::Desk;
use plain_chains::{PlainChain, PlainService};
use std::alloc::{AllocError, Global};
use std::sync::Wait;
use why_account::{Account, ChainAccounts};
use why_report::TITLE;

/// How a capture ended: its totals, its fault if it has one, and the trace of the record that was asked for, if the
/// capture has it.
#[derive(Drop)]
pub struct WhyEnded {
    pub totals: Totals,
    pub fault: Option<FormatFault>,
    pub trace: Option<Items<u8>>,
}

/// Leads each packet of a capture through the chain that takes it, and puts the report into Report. `asked` is the number
/// of the record whose trace is wanted, counted from 1.
///
/// If the format has a head, it was read: the source is after it.
pub fn run_why<R: Wait, D: Desk, X: Drop, B: Drop, S: Source<X, B> + Drop>(
    rt: &R,
    alloc: Global,
    desk: &mut D,
    service: PlainService,
    unit: Unit,
    source: S,
    asked: Option<u32>,
) -> Result<WhyEnded, RunFault>
    requires capture { IsSome (D.slots desk.old Slot.Capture).name }
    requires report { IsSome (D.slots desk.old Slot.Report).name }
    requires asked { IfSome asked (λ n. 1 ≤ n) }
    requires fresh { S.packets source ≡ 0 }
    requires open { S.is_open source ≡ true }
    ensures ok { IfOk result (ReportsAll service unit asked (S.left source (D.slots desk.old Slot.Capture)) (D.slots desk.old) (D.slots desk.new)) }
    ensures err { IfErr result (ReportBreaks service unit asked (S.left source (D.slots desk.old Slot.Capture)) (D.slots desk.old) (D.slots desk.new)) }
    ensures drained { IfOk result (λ ended. IfNone ended.fault (S.is_drained (D.slots desk.new Slot.Capture))) }
    ensures capture_name { (D.slots desk.new Slot.Capture).name ≡ (D.slots desk.old Slot.Capture).name }
    ensures others { (s : Slot) → s ≢ Slot.Report → s ≢ Slot.Capture → D.slots desk.new s ≡ D.slots desk.old s }
{
    let mut text = Vec::with_capacity(alloc, FULL)?;
    text.extend_from_slice(TITLE)?;
    let mut telling = begin(alloc, service, asked)?;
    let fault = tell_records(rt, alloc, desk, &mut telling, &mut text, unit, source)?;
    push_summary(
        alloc,
        &mut text,
        telling.service.chains(),
        &telling.account,
        fault,
    )?;
    put_text(desk, &text)?;
    Ok(WhyEnded {
        totals: telling.account.totals,
        fault,
        trace: telling.trace,
    })
}

// What is kept before the first packet.
fn begin(alloc: Global, service: PlainService, asked: Option<u32>) -> Result<Telling, AllocError>
    requires asked { IfSome asked (λ n. 1 ≤ n) }
    ensures { IfOk result (λ t. Begins service asked t) }
{
    let chains = open_accounts(alloc, service.chains())?;
    Ok(Telling {
        service,
        account: Account {
            totals: Totals {
                records: 0,
                dropped: 0,
            },
            untaken: 0,
            chains,
        },
        asked,
        trace: None,
    })
}

// The accounts of chains that took no packet so far.
fn open_accounts(alloc: Global, chains: &[PlainChain]) -> Result<ChainAccounts, AllocError>
    ensures { IfOk result (λ accounts. accounts ≡ chain_accounts 0 (ordered_of chains.now) []) }
{
    let mut accounts = ChainAccounts::new(alloc);
    'chains: for chain in chains {
        accounts.add(alloc, &chain.declared, &chain.order)?;
    }
    Ok(accounts)
}
