//! Runs each command, before its line is put into Note.
ghost use Rattle.std.specs.Prelude.{◌≡◌, map, None, string_bytes};
ghost use Rattle.nfp_outside.specs.declared.slot.Slot.{Slot};
ghost use Rattle.nfp_run.specs.Ran.{Ran};
ghost use Rattle.command_words.specs.Words.{command_of};

use crate::demo::demo;
use crate::flows::flows;
use crate::plan::plan;
use crate::run::run;
use call_ending::{Ending, Outcome};
use command_words::{Command, WordsFault, read_command};
use nfp_outside::{Desk, Gate};
use std::alloc::Global;
use std::rt::Clock;
use std::sync::Wait;
use std::thread::Threads;

/// Runs the command of the words.
#[tactic(auto, using(crate::proofs::ShownPlans::demo_ran, crate::proofs::ShownPlans::usage_ran, crate::proofs::UnreadWords::unread_ran))]
pub fn run_words<R: Threads + Wait + Clock + Sync, D: Desk, G: Gate + Sync>(
    rt: &R,
    alloc: Global,
    words: &[String],
    desk: &mut D,
    gate: &G,
) -> Ending
    requires { (s : Slot) → (D.slots desk.old s).name ≡ None }
    ensures ran { Ran (command_of (map string_bytes words.now)) (D.slots desk.old) (D.slots desk.new) result }
{
    match read_command(alloc, words) {
        Ok(Command::Run(names, options)) => run(rt, alloc, &names, options, desk, gate),
        Ok(Command::Plan(names)) => plan(alloc, &names, desk),
        Ok(Command::Demo(input, options)) => demo(rt, alloc, input, options, gate),
        Ok(Command::Flows(names, options)) => flows(rt, alloc, &names, options, desk),
        Err(WordsFault::Usage(fault)) => Ending::Stopped(Outcome::Usage(fault)),
        Err(WordsFault::OutOfMemory) => Ending::Stopped(Outcome::OutOfMemory),
    }
}
