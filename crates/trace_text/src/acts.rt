//! The functions of a trace.
ghost use Rattle.std.specs.Prelude.{◌≡◌, ◌++◌, ◌∷◌, [], true, List, IfOk, OnOk, filter_map, map, slice_get};
ghost use Rattle.std.specs.List.{flat_map};
ghost use Rattle.std.specs.Fmt.{decimal};
ghost use Rattle.action_profile.specs.Kinds.{kind_name};
ghost use Rattle.declared_lines.specs.LinesOf.{lines_of};
ghost use Rattle.declared_lines.specs.DeclaredLines.{number_of};
ghost use Rattle.policy_text.specs.declared.policy.FunctionDecl.{FunctionDecl};
ghost use Rattle.trace_text.specs.Kept.{kept_act, kept_acts, kept_at, kept_trace};
ghost use Rattle.trace_text.specs.Trace.{chain_trace, head_text, lines_text, verb};
ghost use Rattle.traced_run.specs.Telling.{told};
ghost use Rattle.traced_walk.specs.Traced.{Act};
ghost use Rattle.why_report.specs.Report.{in_order};

use crate::changes::push_changes;
use crate::lines::{push_chain_line, push_fate_line};
use chain_walk::Fate;
use declared_lines::DeclaredLines;
use packet_function::DecidingLine;
use policy_check::Order;
use policy_text::{ChainPolicy, FunctionDecl};
use std::alloc::{AllocError, Global};
use text_lines::Piece::{Number, Text};
use text_lines::push_pieces;
use traced_run::TracedAct;

/// Adds the trace of a packet that this chain took, behind its first line. The acts were kept with their frames.
#[tactic(auto, using(crate::proofs::Keeping::told_trace))]
pub fn push_trace(
    alloc: Global,
    text: &mut Vec<u8>,
    chain: &ChainPolicy,
    order: &Order,
    acts: &[TracedAct],
    fate: &Fate,
) -> Result<(), AllocError>
    ensures { (way_acts : List Act) → acts.now ≡ map (told true) way_acts
        → OnOk result (text.new.items ≡ text.old.items ++ chain_trace (in_order chain.now order.now) way_acts fate.now) }
{
    push_kept(alloc, text, chain, order, acts, fate)
}

fn push_kept(
    alloc: Global,
    text: &mut Vec<u8>,
    chain: &ChainPolicy,
    order: &Order,
    acts: &[TracedAct],
    fate: &Fate,
) -> Result<(), AllocError>
    ensures { OnOk result (text.new.items ≡ text.old.items ++ kept_trace (in_order chain.now order.now) acts.now fate.now) }
{
    let order = in_order(
        alloc,
        chain.functions.as_slice(),
        order.positions.as_slice(),
    )?;
    push_chain_line(alloc, text, chain.name.bytes())?;
    push_acts(alloc, text, order.as_slice(), acts)?;
    push_fate_line(alloc, text, order.as_slice(), fate)
}

// The declarations at these positions.
#[tactic(auto, using(crate::proofs::Keeping::one_place))]
fn in_order<'a>(
    alloc: Global,
    functions: &'a [FunctionDecl],
    positions: &[u32],
) -> Result<Vec<&'a FunctionDecl>, AllocError>
    ensures { IfOk result (λ order. map (λ d. d.now) order.items ≡ filter_map (λ place. slice_get functions.now place) positions.now) }
{
    let mut order = Vec::new(alloc);
    'positions: for position in positions {
        push_decl(&mut order, functions, *position)?;
    }
    Ok(order)
}

// Adds the declaration at this place, if there is one.
fn push_decl<'a>(
    order: &mut Vec<&'a FunctionDecl>,
    functions: &'a [FunctionDecl],
    place: u32,
) -> Result<(), AllocError>
    ensures { OnOk result (map (λ d. d.now) order.new.items ≡ map (λ d. d.now) order.old.items ++ filter_map (λ p. slice_get functions.now p) (place ∷ [])) }
{
    if let Some(decl) = functions.get(place as usize) {
        order.push(decl)?;
    }
    Ok(())
}

#[tactic(auto, using(crate::proofs::Keeping::none_kept, crate::proofs::Keeping::one_more))]
fn push_acts(
    alloc: Global,
    text: &mut Vec<u8>,
    order: &[&FunctionDecl],
    acts: &[TracedAct],
) -> Result<(), AllocError>
    ensures { OnOk result (text.new.items ≡ text.old.items ++ kept_acts (map (λ d. d.now) order.now) acts.now) }
{
    'acts: for (place, act) in acts.iter().enumerate() {
        push_act_at(alloc, text, order, place, act)?;
    }
    Ok(())
}

// Adds what the function at this place did, if there is one.
#[tactic(auto, using(crate::proofs::Keeping::decl_at, crate::proofs::Keeping::no_decl_at))]
fn push_act_at(
    alloc: Global,
    text: &mut Vec<u8>,
    order: &[&FunctionDecl],
    place: usize,
    act: &TracedAct,
) -> Result<(), AllocError>
    ensures { OnOk result (text.new.items ≡ text.old.items ++ kept_at (slice_get (map (λ d. d.now) order.now) place) act.now) }
{
    match order.get(place) {
        Some(decl) => push_act(alloc, text, decl, act),
        None => Ok(()),
    }
}

// Adds the line of a function, and what it changed.
fn push_act(
    alloc: Global,
    text: &mut Vec<u8>,
    decl: &FunctionDecl,
    act: &TracedAct,
) -> Result<(), AllocError>
    ensures { OnOk result (text.new.items ≡ text.old.items ++ kept_act decl.now act.now) }
{
    let lines = DeclaredLines::of(alloc, decl)?;
    let verb = verb(act.dropped, act.changed);
    push_head(
        alloc,
        text,
        decl.name.bytes(),
        decl.kind.name().as_bytes(),
        verb,
    )?;
    push_lines(alloc, text, decl, &lines, act.lines.as_slice())?;
    text.push(b'\n')?;
    if !act.dropped && act.changed {
        push_changes(alloc, text, decl.kind, &act.frames)
    } else {
        Ok(())
    }
}

// What became of the packet.
fn verb(dropped: bool, changed: bool) -> &'static [u8]
    ensures { result.now ≡ verb dropped changed }
{
    if dropped {
        b"dropped"
    } else if changed {
        b"changed"
    } else {
        b"passed"
    }
}

#[tactic(auto, unfolding(crate::specs::Trace::head_text))]
fn push_head<'a>(
    alloc: Global,
    text: &mut Vec<u8>,
    name: &'a [u8],
    kind: &'a [u8],
    verb: &'a [u8],
) -> Result<(), AllocError>
    ensures { OnOk result (text.new.items ≡ text.old.items ++ head_text name.now kind.now verb.now) }
{
    push_pieces(
        alloc,
        text,
        &[
            Text(b"function "),
            Text(name),
            Text(b" "),
            Text(kind),
            Text(b" "),
            Text(verb),
        ],
    )
}

// Adds the numbers of the lines that decided.
fn push_lines(
    alloc: Global,
    text: &mut Vec<u8>,
    decl: &FunctionDecl,
    lines: &DeclaredLines,
    deciding: &[DecidingLine],
) -> Result<(), AllocError>
    requires { lines.now ≡ lines_of decl.now }
    ensures { OnOk result (text.new.items ≡ text.old.items ++ lines_text (map (number_of decl.now) deciding.now)) }
{
    'deciding: for line in deciding {
        push_line_number(alloc, text, decl, lines, *line)?;
    }
    Ok(())
}

fn push_line_number(
    alloc: Global,
    text: &mut Vec<u8>,
    decl: &FunctionDecl,
    lines: &DeclaredLines,
    line: DecidingLine,
) -> Result<(), AllocError>
    requires { lines.now ≡ lines_of decl.now }
    ensures { OnOk result (text.new.items ≡ text.old.items ++ lines_text (number_of decl.now line ∷ [])) }
{
    let number = lines.number(line);
    push_pieces(alloc, text, &[Text(b" line "), Number(u64::from(number))])
}
