//! The lines around the functions of a trace.
ghost use Rattle.std.specs.Prelude.{◌≡◌, ◌++◌, OnOk, map, slice_get};
ghost use Rattle.trace_text.specs.Trace.{chain_line, dropped_line, fate_line, missing_line, record_line, untaken_trace};

use chain_walk::Fate;
use policy_text::FunctionDecl;
use std::alloc::{AllocError, Global};
use text_lines::Piece::{Number, Text};
use text_lines::push_pieces;

/// Adds the first line of the trace of record `number`.
#[tactic(auto, unfolding(crate::specs::Trace::record_line))]
pub fn push_record_line(alloc: Global, text: &mut Vec<u8>, number: u64) -> Result<(), AllocError>
    ensures { OnOk result (text.new.items ≡ text.old.items ++ record_line number) }
{
    push_pieces(
        alloc,
        text,
        &[Text(b"record "), Number(number), Text(b"\n")],
    )
}

/// Adds the line for a record that the capture doesn't have.
#[tactic(auto, unfolding(crate::specs::Trace::missing_line))]
pub fn push_missing_line(alloc: Global, text: &mut Vec<u8>, number: u64) -> Result<(), AllocError>
    ensures { OnOk result (text.new.items ≡ text.old.items ++ missing_line number) }
{
    push_pieces(
        alloc,
        text,
        &[Text(b"no record "), Number(number), Text(b"\n")],
    )
}

/// Adds the trace of a packet that no chain took.
pub fn push_untaken_trace(text: &mut Vec<u8>) -> Result<(), AllocError>
    ensures { OnOk result (text.new.items ≡ text.old.items ++ untaken_trace) }
{
    text.extend_from_slice(b"no chain\nout\n")
}

/// Adds the line of the chain that took the packet.
#[tactic(auto, unfolding(crate::specs::Trace::chain_line))]
pub fn push_chain_line<'a>(
    alloc: Global,
    text: &mut Vec<u8>,
    name: &'a [u8],
) -> Result<(), AllocError>
    ensures { OnOk result (text.new.items ≡ text.old.items ++ chain_line name.now) }
{
    push_pieces(alloc, text, &[Text(b"chain "), Text(name), Text(b"\n")])
}

#[tactic(auto, unfolding(crate::specs::Trace::dropped_line))]
fn push_dropped_line<'a>(
    alloc: Global,
    text: &mut Vec<u8>,
    name: &'a [u8],
) -> Result<(), AllocError>
    ensures { OnOk result (text.new.items ≡ text.old.items ++ dropped_line name.now) }
{
    push_pieces(alloc, text, &[Text(b"dropped "), Text(name), Text(b"\n")])
}

/// Adds where the packet ended; the declarations are those of the chain, in its order.
pub fn push_fate_line(
    alloc: Global,
    text: &mut Vec<u8>,
    order: &[&FunctionDecl],
    fate: &Fate,
) -> Result<(), AllocError>
    ensures { OnOk result (text.new.items ≡ text.old.items ++ fate_line (map (λ d. d.now) order.now) fate.now) }
{
    match fate {
        Fate::Out(_) => text.extend_from_slice(b"out\n"),
        Fate::Gone(position) => match order.get(position.saturating_sub(1) as usize) {
            Some(decl) => push_dropped_line(alloc, text, decl.name.bytes()),
            None => Ok(()),
        },
    }
}
