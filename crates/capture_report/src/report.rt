//! The texts of the report.
ghost use Rattle.std.specs.Prelude.{◌≡◌, ◌<◌, ◌+◌, ◌^◌, ◌++◌, IfOk, OnOk, Some, length, map};
ghost use Rattle.packet_version.specs.Tallies.{count_of};
ghost use Rattle.burst_walk.specs.ChainServiceProofs.{chains_of};
ghost use Rattle.burst_walk.specs.Leading.{all_ended, ended};
ghost use Rattle.action_profile.specs.Kinds.{kind_name};
ghost use Rattle.capture_report.specs.Report.{dropped_by, drop_text, drop_line, drop_lines, names_among, copies_text, copies_line, copies_lines, function_text};
ghost use Rattle.capture_report.specs.Telling.{names_in};

use action_profile::all_fields;
use burst_walk::ServiceChain;
use chain_walk::Fate;
use classifier::Item;
use packet_fields::Field;
use packet_version::Tally;
use policy_text::FunctionDecl;
use std::alloc::{AllocError, Global};
use text_lines::Piece::{Number, Text};
use text_lines::{join, push_pieces};

/// The report's first line.
pub const TITLE: &[u8] = b"nfp report 1\n";

/// The lines of the packets of a burst that were dropped. `first` is the number of the first packet.
pub fn burst_lines(
    alloc: Global,
    chains: &[ServiceChain],
    first: u64,
    items: &[Item],
    fates: &[Option<Fate>],
) -> Result<Vec<u8>, AllocError>
    requires room { first + length fates.now < 2 ^ 64 }
    requires as_many { length fates.now ≡ length items.now }
    ensures { IfOk result (λ v. v.items ≡ drop_lines (names_among (chains_of chains.now)) first (map (λ i. i.class) items.now) (all_ended items.now fates.now)) }
{
    let mut text = Vec::new(alloc);
    'fates: for index in 0..fates.len() {
        let number = first + index as u64;
        push_drop_line(
            alloc,
            &mut text,
            chains,
            number,
            &items[index],
            &fates[index],
        )?;
    }
    Ok(text)
}

// Adds the line of a packet that its chain dropped. Other packets have no line.
fn push_drop_line(
    alloc: Global,
    text: &mut Vec<u8>,
    chains: &[ServiceChain],
    number: u64,
    item: &Item,
    fate: &Option<Fate>,
) -> Result<(), AllocError>
    ensures { OnOk result (text.new.items ≡ text.old.items ++ drop_line (names_among (chains_of chains.now)) number item.now.class (ended item.now.packet fate.now)) }
{
    match (&item.class, fate) {
        (Some(class), Some(Fate::Gone(position))) => {
            push_gone(alloc, text, chains, number, *class, *position)
        }
        _ => Ok(()),
    }
}

// Adds the line of a packet that this chain dropped.
fn push_gone(
    alloc: Global,
    text: &mut Vec<u8>,
    chains: &[ServiceChain],
    number: u64,
    class: u32,
    position: u32,
) -> Result<(), AllocError>
    ensures { OnOk result (text.new.items ≡ text.old.items ++ drop_line (names_among (chains_of chains.now)) number (Some class) (Fate.Gone position)) }
{
    match chains.get(class as usize) {
        Some(chain) => push_dropped(alloc, text, chain, number, position),
        None => Ok(()),
    }
}

// Adds the line of a packet that the function at this position of its chain dropped.
fn push_dropped(
    alloc: Global,
    text: &mut Vec<u8>,
    chain: &ServiceChain,
    number: u64,
    position: u32,
) -> Result<(), AllocError>
    ensures { OnOk result (text.new.items ≡ text.old.items ++ dropped_by number position (names_in chain.now)) }
{
    match chain
        .names
        .as_slice()
        .get((position as usize).saturating_sub(1))
    {
        Some(name) => push_drop_text(
            alloc,
            text,
            chain.declared.name.bytes(),
            number,
            name.bytes(),
        ),
        None => Ok(()),
    }
}

#[tactic(auto, unfolding(crate::specs::Report::drop_text))]
fn push_drop_text<'a>(
    alloc: Global,
    text: &mut Vec<u8>,
    chain: &'a [u8],
    number: u64,
    name: &'a [u8],
) -> Result<(), AllocError>
    ensures { OnOk result (text.new.items ≡ text.old.items ++ drop_text chain.now number name.now) }
{
    push_pieces(
        alloc,
        text,
        &[
            Text(b"drop "),
            Number(number),
            Text(b" "),
            Text(chain),
            Text(b" "),
            Text(name),
            Text(b"\n"),
        ],
    )
}

/// Adds the line of each field of which copies were made for the packets of the chain with this name.
#[tactic(auto, unfolding(crate::specs::Report::copies_lines))]
pub fn push_copies_lines(
    alloc: Global,
    text: &mut Vec<u8>,
    chain: &[u8],
    copies: &Tally,
) -> Result<(), AllocError>
    ensures { OnOk result (text.new.items ≡ text.old.items ++ copies_lines chain.now (count_of copies.now)) }
{
    'fields: for field in all_fields() {
        push_copies_line(alloc, text, chain, *field, copies.of(*field))?;
    }
    Ok(())
}

fn push_copies_line(
    alloc: Global,
    text: &mut Vec<u8>,
    chain: &[u8],
    field: Field,
    count: u64,
) -> Result<(), AllocError>
    ensures { OnOk result (text.new.items ≡ text.old.items ++ copies_line chain.now field count) }
{
    if count == 0 {
        return Ok(());
    }
    let line = copies_text(alloc, chain, field.name().as_bytes(), count)?;
    text.extend_from_slice(&line)
}

#[tactic(auto, unfolding(crate::specs::Report::copies_text))]
fn copies_text<'a>(
    alloc: Global,
    chain: &'a [u8],
    field: &'a [u8],
    count: u64,
) -> Result<Vec<u8>, AllocError>
    ensures { IfOk result (λ v. v.items ≡ copies_text chain.now field.now count) }
{
    join(
        alloc,
        &[
            Text(b"copies "),
            Text(chain),
            Text(b" "),
            Text(field),
            Text(b" "),
            Number(count),
            Text(b"\n"),
        ],
    )
}

/// Adds the line of a function itself, with the name of its chain.
pub fn push_function_line(
    alloc: Global,
    text: &mut Vec<u8>,
    chain: &[u8],
    declared: &FunctionDecl,
) -> Result<(), AllocError>
    ensures { OnOk result (text.new.items ≡ text.old.items ++ function_text chain.now declared.now.name (kind_name declared.now.kind)) }
{
    push_function_text(
        alloc,
        text,
        chain,
        declared.name.bytes(),
        declared.kind.name().as_bytes(),
    )
}

#[tactic(auto, unfolding(crate::specs::Report::function_text))]
fn push_function_text<'a>(
    alloc: Global,
    text: &mut Vec<u8>,
    chain: &'a [u8],
    name: &'a [u8],
    kind: &'a [u8],
) -> Result<(), AllocError>
    ensures { OnOk result (text.new.items ≡ text.old.items ++ function_text chain.now name.now kind.now) }
{
    push_pieces(
        alloc,
        text,
        &[
            Text(b"function "),
            Text(chain),
            Text(b" "),
            Text(name),
            Text(b" "),
            Text(kind),
            Text(b"\n"),
        ],
    )
}
