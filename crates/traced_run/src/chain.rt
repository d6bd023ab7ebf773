//! The way of one packet through a chain.
ghost use Rattle.std.specs.Prelude.{◌≡◌, ◌≤◌, ◌+◌, ◌^◌, length, IfOk, OnOk};
ghost use Rattle.traced_walk.specs.Traced.{traced};
ghost use Rattle.traced_run.specs.Telling.{with_acts};

use crate::acts::Trace;
use crate::turn::{Parted, turn};
use chain_walk::Fate;
use packet_fields::Frame;
use packet_function::Function;
use packet_version::split;
use std::alloc::{AllocError, Global};
use std::sync::Wait;

/// Runs one packet, captured at `time` in nanoseconds, through the functions of a chain, of which the first has this
/// `position` in the chain. What each of them does is added to `trace`.
///
/// The only error is that memory runs out.
pub fn trace_chain<F: Function, R: Wait>(
    rt: &R,
    alloc: Global,
    functions: &mut [F],
    position: u32,
    time: u64,
    frame: Frame,
    trace: &mut Trace,
) -> Result<Fate, AllocError>
    requires { position + length functions.old ≤ 2 ^ 32 }
    ensures fate { IfOk result (λ fate. fate ≡ (traced F.behaviour F.decides time position functions.old frame).fate) }
    ensures functions { OnOk result (functions.new ≡ (traced F.behaviour F.decides time position functions.old frame).functions) }
    ensures acts { OnOk result (trace.new ≡ with_acts trace.old (traced F.behaviour F.decides time position functions.old frame).acts) }
{
    let whole = split(alloc, frame.bytes(), time, 1)?;
    let mut packet = Parted { time, frame, whole };
    'functions: for index in 0..functions.len() {
        match turn(rt, alloc, &mut functions[index], packet, trace)? {
            Some(next) => packet = next,
            None => return Ok(Fate::Gone(position + index as u32)),
        }
    }
    Ok(Fate::Out(packet.frame))
}
