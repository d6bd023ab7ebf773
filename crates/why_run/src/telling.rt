//! What is kept of the packets so far, and one packet on its way through the chains.
ghost use Rattle.std.specs.Prelude.{◌≡◌, ◌<◌, ◌≤◌, ◌+◌, IfOk, OnOk};
ghost use Rattle.plain_chains.specs.Plain.{Leads, way_next};
ghost use Rattle.why_run.specs.Telling.{AddsLed, AddsLine, AddsTrace, AddsWay, KeepsTrace, TellsLed, TellsWay, TracesWay, is_asked};

use capture_bytes::{PcapRecord, Unit};
use item_list::Items;
use plain_chains::{Led, PlainChain, PlainService};
use std::alloc::{AllocError, Global};
use std::sync::Wait;
use trace_text::{push_record_line, push_trace, push_untaken_trace};
use traced_run::{Trace, TracedAct};
use why_account::{Account, ChainAccount, push_drop};

/// A capture on its way: the chains as the last packet left them, the account of the packets so far, the number of the
/// record that was asked for, and its trace once the record was read.
#[derive(Drop)]
pub struct Telling {
    pub service: PlainService,
    pub account: Account,
    pub asked: Option<u32>,
    pub trace: Option<Items<u8>>,
}

/// Leads the packet of a record through the chain that takes it, and notes what it met. Adds its line to `text` if it was
/// dropped.
pub fn tell_packet<R: Wait>(
    rt: &R,
    alloc: Global,
    telling: &mut Telling,
    text: &mut Vec<u8>,
    unit: Unit,
    packet: &PcapRecord,
) -> Result<(), AllocError>
    requires room { telling.old.account.totals.records < 4294967295 }
    requires within { telling.old.account.totals.dropped ≤ telling.old.account.totals.records }
    ensures led { OnOk result (Leads unit packet.now telling.old.service telling.new.service) }
    ensures told { OnOk result (TellsWay (way_next telling.old.service unit packet.now) telling.old telling.new) }
    ensures text { OnOk result (AddsWay (way_next telling.old.service unit packet.now) telling.old text.old.items text.new.items) }
{
    let keeps = is_asked(telling.asked, telling.account.totals.records + 1);
    let mut trace = Trace::new(alloc, keeps);
    let led = telling.service.lead(rt, alloc, unit, packet, &mut trace)?;
    tell_led(alloc, telling, text, keeps, &led, trace.acts.as_slice())
}

// Is this the number of the record that was asked for?
fn is_asked(asked: Option<u32>, number: u64) -> bool
    ensures { result ≡ is_asked asked number }
{
    match asked {
        Some(wanted) => u64::from(wanted) == number,
        None => false,
    }
}

// Notes a packet that went so: its line, its trace if that is kept, and its part of the account.
fn tell_led(
    alloc: Global,
    telling: &mut Telling,
    text: &mut Vec<u8>,
    keeps: bool,
    led: &Led,
    acts: &[TracedAct],
) -> Result<(), AllocError>
    requires room { telling.old.account.totals.records < 4294967295 }
    requires within { telling.old.account.totals.dropped ≤ telling.old.account.totals.records }
    requires asked { keeps ≡ is_asked telling.old.asked (telling.old.account.totals.records + 1) }
    ensures service { OnOk result (telling.new.service ≡ telling.old.service) }
    ensures told { OnOk result (TellsLed keeps led.now acts.now telling.old telling.new) }
    ensures text { OnOk result (AddsLed keeps led.now acts.now telling.old text.old.items text.new.items) }
{
    let number = telling.account.totals.records + 1;
    let accounts = telling.account.chains.as_slice();
    push_line(
        alloc,
        text,
        telling.service.chains(),
        accounts,
        number,
        led,
        acts,
    )?;
    keep_trace(alloc, telling, keeps, led, acts)?;
    telling.account.note(led.class, &led.fate, acts);
    Ok(())
}

// Adds the line of packet `number`, if it was dropped.
fn push_line(
    alloc: Global,
    text: &mut Vec<u8>,
    chains: &[PlainChain],
    accounts: &[ChainAccount],
    number: u64,
    led: &Led,
    acts: &[TracedAct],
) -> Result<(), AllocError>
    ensures { OnOk result (AddsLine chains.now accounts.now number led.now acts.now text.old.items text.new.items) }
{
    let Some(class) = led.class else {
        return Ok(());
    };
    let Some(chain) = chains.get(class as usize) else {
        return Ok(());
    };
    match accounts.get(class as usize) {
        Some(account) => {
            push_drop(
                alloc,
                text,
                number,
                &chain.declared.name,
                account,
                acts,
                &led.fate,
            )
        }
        None => Ok(()),
    }
}

// Keeps the trace of the next packet, if it was asked for.
fn keep_trace(
    alloc: Global,
    telling: &mut Telling,
    keeps: bool,
    led: &Led,
    acts: &[TracedAct],
) -> Result<(), AllocError>
    requires room { telling.old.account.totals.records < 4294967295 }
    ensures { OnOk result (KeepsTrace keeps led.now acts.now telling.old telling.new) }
{
    if !keeps {
        return Ok(());
    }
    let number = telling.account.totals.records + 1;
    let trace = trace_of(alloc, telling.service.chains(), number, led, acts)?;
    telling.trace = Some(trace);
    Ok(())
}

// The trace of packet `number`.
fn trace_of(
    alloc: Global,
    chains: &[PlainChain],
    number: u64,
    led: &Led,
    acts: &[TracedAct],
) -> Result<Items<u8>, AllocError>
    ensures { IfOk result (TracesWay chains.now number led.now acts.now) }
{
    let mut text = Vec::new(alloc);
    push_record_line(alloc, &mut text, number)?;
    push_way(alloc, &mut text, chains, led, acts)?;
    Ok(Items::new(text))
}

// Adds the way of a packet, behind the first line of its trace.
fn push_way(
    alloc: Global,
    text: &mut Vec<u8>,
    chains: &[PlainChain],
    led: &Led,
    acts: &[TracedAct],
) -> Result<(), AllocError>
    ensures { OnOk result (AddsTrace chains.now led.now acts.now text.old.items text.new.items) }
{
    let Some(class) = led.class else {
        return push_untaken_trace(text);
    };
    match chains.get(class as usize) {
        Some(chain) => push_trace(alloc, text, &chain.declared, &chain.order, acts, &led.fate),
        None => Ok(()),
    }
}
