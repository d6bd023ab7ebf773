//! The words of the command line.
ghost use Rattle.std.specs.Prelude.{◌≤◌, IfOk, IfSome, map, string_bytes};
ghost use Rattle.command_words.specs.Named.{HasRanges, ReadsWhy, ReadsWords, answer_seen, why_seen};
ghost use Rattle.command_words.specs.WhyWords.{why_of};
ghost use Rattle.command_words.specs.Words.{command_of, demo_of, flows_of, plan_of, run_of};

use crate::answers::{demo_answer, flows_answer, plan_answer, run_answer, why_answer};
use crate::matches::{demo_matches, flows_matches, plan_matches, run_matches, why_matches};
use crate::requests::{Command, WhyRequest};
use crate::usage::{UsageFault, WordsFault};
use std::alloc::Global;

/// Reads the words of a command, or returns why they are refused. Memory may run out whatever the words are.
pub fn read_command<'a>(alloc: Global, words: &'a [String]) -> Result<Command<'a>, WordsFault>
    ensures reads { ReadsWords result (command_of (map string_bytes words.entry.now)) }
    // Each number lies in its range.
    ensures ranges { IfOk result HasRanges }
{
    let Some((command, rest)) = words.split_first() else {
        return Err(WordsFault::Usage(UsageFault::NoCommand));
    };
    match command.as_str() {
        "run" => read_run(alloc, rest),
        "plan" => read_plan(alloc, rest),
        "demo" => read_demo(alloc, rest),
        "flows" => read_flows(alloc, rest),
        _ => Err(WordsFault::Usage(UsageFault::UnknownCommand)),
    }
}

// The command of words that were matched, or their fault.
fn settled<'a>(answer: Result<Command<'a>, UsageFault>) -> Result<Command<'a>, WordsFault>
    ensures reads { ReadsWords result (answer_seen answer.entry) }
    ensures ranges { IfOk answer.entry HasRanges → IfOk result HasRanges }
{
    match answer {
        Ok(command) => Ok(command),
        Err(fault) => Err(WordsFault::Usage(fault)),
    }
}

fn read_run<'a>(alloc: Global, words: &'a [String]) -> Result<Command<'a>, WordsFault>
    ensures reads { ReadsWords result (run_of (map string_bytes words.entry.now)) }
    ensures ranges { IfOk result HasRanges }
{
    let matches = run_matches(alloc, words)?;
    settled(run_answer(&matches))
}

fn read_plan<'a>(alloc: Global, words: &'a [String]) -> Result<Command<'a>, WordsFault>
    ensures reads { ReadsWords result (plan_of (map string_bytes words.entry.now)) }
    ensures ranges { IfOk result HasRanges }
{
    let matches = plan_matches(alloc, words)?;
    settled(plan_answer(&matches))
}

fn read_demo<'a>(alloc: Global, words: &'a [String]) -> Result<Command<'a>, WordsFault>
    ensures reads { ReadsWords result (demo_of (map string_bytes words.entry.now)) }
    ensures ranges { IfOk result HasRanges }
{
    let matches = demo_matches(alloc, words)?;
    settled(demo_answer(&matches))
}

fn read_flows<'a>(alloc: Global, words: &'a [String]) -> Result<Command<'a>, WordsFault>
    ensures reads { ReadsWords result (flows_of (map string_bytes words.entry.now)) }
    ensures ranges { IfOk result HasRanges }
{
    let matches = flows_matches(alloc, words)?;
    settled(flows_answer(&matches))
}

/// Reads the words behind `why`, or returns why they are refused. Memory may run out whatever the words are.
pub fn read_why<'a>(alloc: Global, words: &'a [String]) -> Result<WhyRequest<'a>, WordsFault>
    ensures reads { ReadsWhy result (why_of (map string_bytes words.entry.now)) }
    // The number of the record, if it is given, is at least 1.
    ensures ranges { IfOk result (λ r. IfSome r.«record» (λ n. 1 ≤ n)) }
{
    let matches = why_matches(alloc, words)?;
    settled_why(why_answer(&matches))
}

// The names and the option of words that were matched, or their fault.
fn settled_why<'a>(answer: Result<WhyRequest<'a>, UsageFault>) -> Result<WhyRequest<'a>, WordsFault>
    ensures reads { ReadsWhy result (why_seen answer.entry) }
    ensures ranges { IfOk answer.entry (λ r. IfSome r.«record» (λ n. 1 ≤ n)) → IfOk result (λ r. IfSome r.«record» (λ n. 1 ≤ n)) }
{
    match answer {
        Ok(request) => Ok(request),
        Err(fault) => Err(WordsFault::Usage(fault)),
    }
}
