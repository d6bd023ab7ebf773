//! The way of one packet through a chain.
ghost use Rattle.std.specs.Prelude.{◌≡◌, ◌<◌, ◌^◌, ℕ, length, IfOk, OnOk, OnErr};
ghost use Rattle.chain_walk.specs.Walk.{walk, EndsWithin};
ghost use Rattle.frame_walk.specs.Stopping.{StopsAt};

use crate::step::step_frame;
use chain_walk::Fate;
use packet_fields::Frame;
use packet_function::Function;
use std::alloc::{AllocError, Global};
use std::sync::Wait;

/// Runs one packet, captured at `time` in nanoseconds, through the functions of a chain.
///
/// The only error is that memory runs out in a function's turn. The functions before it have then passed the packet on,
/// and it may have done so too; those after it are as before.
pub fn walk_chain<F: Function, R: Wait>(
    rt: &R,
    alloc: Global,
    functions: &mut [F],
    time: u64,
    frame: Frame,
) -> Result<Fate, AllocError>
    requires { length functions.old < 2 ^ 32 }
    ensures fate { IfOk result (λ fate. fate ≡ (walk F.behaviour time 1 functions.old frame).fate) }
    // The named function is in the chain.
    ensures within { IfOk result (EndsWithin (length functions.old)) }
    ensures functions { OnOk result (functions.new ≡ (walk F.behaviour time 1 functions.old frame).functions) }
    // `seen` of the functions have seen the packet and passed it on, and no other has.
    ensures refused { OnErr result ((seen : ℕ) × StopsAt F.behaviour time frame seen functions.old functions.new) }
{
    let mut frame = frame;
    'functions: for index in 0..functions.len() {
        match step_frame(rt, alloc, &mut functions[index], time, &frame)? {
            Some(next) => frame = next,
            None => return Ok(Fate::Gone(index as u32 + 1)),
        }
    }
    Ok(Fate::Out(frame))
}
