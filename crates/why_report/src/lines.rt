//! The lines of the report.
ghost use Rattle.std.specs.Prelude.{◌≡◌, ◌++◌, OnOk};
ghost use Rattle.action_profile.specs.Kinds.{kind_name};
ghost use Rattle.why_report.specs.Report.{drop_text, untaken_text, chain_text, line_text};
ghost use Rattle.why_report.specs.Uses.{used_text, AddsHits, AddsFunction};

use crate::uses::{FunctionUse, Hits};
use declared_lines::DeclaredLines;
use policy_text::FunctionDecl;
use std::alloc::{AllocError, Global};
use text_lines::Piece::{Number, Text};
use text_lines::push_pieces;

/// The report's first line.
pub const TITLE: &[u8] = b"nfp why 1\n";

/// Adds the line of packet `number`, which the function `name` of `chain` dropped by this line of the policy.
#[tactic(auto, unfolding(crate::specs::Report::drop_text))]
pub fn push_drop_line<'a>(
    alloc: Global,
    text: &mut Vec<u8>,
    number: u64,
    chain: &'a [u8],
    name: &'a [u8],
    line: u32,
) -> Result<(), AllocError>
    ensures { OnOk result (text.new.items ≡ text.old.items ++ drop_text number chain.now name.now line) }
{
    push_pieces(
        alloc,
        text,
        &[
            Text(b"drop "),
            Number(number),
            Text(b" "),
            Text(chain),
            Text(b" "),
            Text(name),
            Text(b" line "),
            Number(u64::from(line)),
            Text(b"\n"),
        ],
    )
}

/// Adds the line of the packets that no chain took.
#[tactic(auto, unfolding(crate::specs::Report::untaken_text))]
pub fn push_untaken_line(alloc: Global, text: &mut Vec<u8>, count: u64) -> Result<(), AllocError>
    ensures { OnOk result (text.new.items ≡ text.old.items ++ untaken_text count) }
{
    push_pieces(
        alloc,
        text,
        &[Text(b"no chain took "), Number(count), Text(b"\n")],
    )
}

/// Adds the line of a chain and the packets that it took.
#[tactic(auto, unfolding(crate::specs::Report::chain_text))]
pub fn push_chain_line<'a>(
    alloc: Global,
    text: &mut Vec<u8>,
    chain: &'a [u8],
    count: u64,
) -> Result<(), AllocError>
    ensures { OnOk result (text.new.items ≡ text.old.items ++ chain_text chain.now count) }
{
    push_pieces(
        alloc,
        text,
        &[
            Text(b"chain "),
            Text(chain),
            Text(b" took "),
            Number(count),
            Text(b"\n"),
        ],
    )
}

/// Adds the line of a function of `chain`, and one line for each line of its declaration that can decide.
#[tactic(auto, unfolding(crate::specs::Report::function_lines))]
pub fn push_function_lines(
    alloc: Global,
    text: &mut Vec<u8>,
    chain: &[u8],
    decl: &FunctionDecl,
    lines: &DeclaredLines,
    used: &FunctionUse,
) -> Result<(), AllocError>
    ensures { OnOk result (AddsFunction chain.now decl.now lines.now used.now text.old.items text.new.items) }
{
    push_function_line(alloc, text, chain, decl, used)?;
    push_hits(alloc, text, lines.deciders(), &used.hits)?;
    Ok(())
}

// Adds the line of the function itself.
fn push_function_line(
    alloc: Global,
    text: &mut Vec<u8>,
    chain: &[u8],
    decl: &FunctionDecl,
    used: &FunctionUse,
) -> Result<(), AllocError>
    ensures { OnOk result (text.new.items ≡ text.old.items ++ used_text chain.now decl.now.name (kind_name decl.now.kind) used.now) }
{
    push_function_text(
        alloc,
        text,
        chain,
        decl.name.bytes(),
        decl.kind.name().as_bytes(),
        used,
    )
}

#[tactic(auto, unfolding(crate::specs::Report::function_text))]
fn push_function_text<'a>(
    alloc: Global,
    text: &mut Vec<u8>,
    chain: &'a [u8],
    name: &'a [u8],
    kind: &'a [u8],
    used: &FunctionUse,
) -> Result<(), AllocError>
    ensures { OnOk result (text.new.items ≡ text.old.items ++ used_text chain.now name.now kind.now used.now) }
{
    push_pieces(
        alloc,
        text,
        &[
            Text(b"function "),
            Text(chain),
            Text(b" "),
            Text(name),
            Text(b" "),
            Text(kind),
            Text(b" saw "),
            Number(used.saw),
            Text(b" changed "),
            Number(used.changed),
            Text(b" dropped "),
            Number(used.dropped),
            Text(b"\n"),
        ],
    )
}

// Adds each line with its hits.
fn push_hits(
    alloc: Global,
    text: &mut Vec<u8>,
    lines: &[u32],
    hits: &Hits,
) -> Result<(), AllocError>
    ensures { OnOk result (AddsHits lines.now hits.now text.old.items text.new.items) }
{
    'lines: for (place, line) in lines.iter().enumerate() {
        push_line_text(alloc, text, *line, hits.at(place))?;
    }
    Ok(())
}

#[tactic(auto, unfolding(crate::specs::Report::line_text))]
fn push_line_text(
    alloc: Global,
    text: &mut Vec<u8>,
    line: u32,
    count: u64,
) -> Result<(), AllocError>
    ensures { OnOk result (text.new.items ≡ text.old.items ++ line_text line count) }
{
    push_pieces(
        alloc,
        text,
        &[
            Text(b"  line "),
            Number(u64::from(line)),
            Text(b" hits "),
            Number(count),
            Text(b"\n"),
        ],
    )
}
