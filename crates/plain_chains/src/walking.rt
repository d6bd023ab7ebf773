//! The way of one packet through the parts of a chain.
ghost use Rattle.std.specs.Prelude.{◌≡◌, ◌≤◌, IfOk, OnOk};
ghost use Rattle.traced_walk.specs.Traced.{long_traced};
ghost use Rattle.traced_run.specs.Telling.{with_acts};
ghost use Rattle.piece_walk.specs.Pieces.{count_of as count_of_piece};
ghost use Rattle.policy_chains.specs.NamedFunctions.{named_behaviour, named_decides};
ghost use Rattle.policy_chains.specs.Parts.{part_of, parts_count, parts_of};

use crate::part::lead_part;
use chain_walk::Fate;
use packet_fields::Frame;
use policy_chains::ChainPart;
use std::alloc::{AllocError, Global};
use std::mem;
use std::sync::Wait;
use traced_run::Trace;

/// Leads a packet, captured at `time` in nanoseconds, through the parts of a chain, and adds what each function did to
/// `trace`. The only error is that memory runs out.
pub(crate) fn walk_parts<R: Wait>(
    rt: &R,
    alloc: Global,
    parts: &mut [ChainPart],
    time: u64,
    frame: Frame,
    trace: &mut Trace,
) -> Result<Fate, AllocError>
    requires { parts_count parts.old ≤ 64 }
    ensures fate { IfOk result (λ fate. fate ≡ (long_traced named_behaviour named_decides time 1 (parts_of parts.old) frame).fate) }
    ensures pieces { OnOk result (parts_of parts.new ≡ (long_traced named_behaviour named_decides time 1 (parts_of parts.old) frame).pieces) }
    ensures acts { OnOk result (trace.new ≡ with_acts trace.old (long_traced named_behaviour named_decides time 1 (parts_of parts.old) frame).acts) }
{
    let mut frame = frame;
    let mut position = 1;
    'parts: for index in 0..parts.len() {
        let count = count_of(&parts[index]);
        let part = mem::replace(&mut parts[index], ChainPart::Functions(Vec::new(alloc)));
        let (part, fate) = lead_part(rt, alloc, part, position, time, frame, trace)?;
        parts[index] = part;
        match fate {
            Fate::Out(next) => frame = next,
            Fate::Gone(place) => return Ok(Fate::Gone(place)),
        }
        position += count;
    }
    Ok(Fate::Out(frame))
}

// The number of functions of a part.
fn count_of(part: &ChainPart) -> u32
    requires { count_of_piece (part_of part.now) ≤ 64 }
    ensures { result ≡ count_of_piece (part_of part.now) }
{
    match part {
        ChainPart::Functions(functions) => functions.len() as u32,
        ChainPart::Encap(_) => 1,
        ChainPart::Decap(_) => 1,
    }
}
