//! The messages on standard error, beside the line of an outcome.
//!
//! The line and the status are what the program promises. Where there is no memory for more, or no standard error, there is no more.

use crate::asked::{behind_why, may_thread};
use crate::odd::{count_odd, tell_odd};
use file_desk::Reason;
use nfp_outside::Slot;
use nfp_run::{Option4, Outcome, UsageFault};
use operator_help::capture::{Captured, Purpose};
use operator_help::graph::GraphText;
use operator_help::policy::PolicyText;
use operator_help::{Page, capture, capture_ng, files, graph, policy, usage};
use policy_check::CheckFault;
use policy_judge::PolicyFault;
use std::env::FillError;
use std::io::{Error, ErrorKind};
use std::rt::Env;
use std::str::from_utf8;
use watched_desk::Seen;

/// How many words are looked at for one that isn't UTF-8.
const MOST_WORDS: usize = 64;

/// The longest word that is looked at.
const LONGEST_WORD: usize = 4096;

/// The message if memory ran out and no packets were on threads. It is printed without memory.
const NO_MEMORY: &str = "nfp: out of memory; no threads were at work\n";

/// The message if packets may have been on threads.
const NO_MEMORY_FOR_PACKETS: &str = "\
nfp: out of memory; threads may have been at work, and each takes memory of its own
nfp:   a smaller --burst, --mergers 1 and for flows --workers 1 take less
";

/// Why a file that another run writes can't be written.
const LOCKED: &str = "another run writes it";

/// Why a file to which standard output leads can't be read.
const LED: &str = "standard output goes to it, and what is printed would get into it";

/// Reports what to do about an outcome, and why its slot failed, if one did.
pub fn tell_about<R: Env + Eprint + AllocGlobal>(
    rt: &R,
    words: &[String],
    seen: &Seen,
    outcome: &Outcome,
    reason: Option<Reason>,
    has_capture: bool,
) {
    match outcome {
        Outcome::OutOfMemory => tell_memory(rt, may_thread(words, has_capture)),
        _ => tell_more(rt, words, seen, outcome, reason),
    }
}

fn tell_more<R: Env + Eprint + AllocGlobal>(
    rt: &R,
    words: &[String],
    seen: &Seen,
    outcome: &Outcome,
    reason: Option<Reason>,
) {
    let mut page = Page::new(rt.alloc());
    match (outcome, seen.name(Slot::Capture)) {
        (Outcome::Done, None) => tell_odd(&mut page, rt, rt.alloc(), seen),
        (Outcome::Done, Some(_)) => count_odd(&mut page, rt, rt.alloc(), seen),
        _ => fill(&mut page, rt, words, seen, outcome, reason),
    }
    if !page.text().is_empty() {
        let _ = rt.eprint(page.text());
    }
}

/// Reports that memory ran out, and whether threads may have been at work then.
pub fn tell_memory(rt: &impl Eprint, may_thread: bool) {
    let _ = rt.eprint(if may_thread {
        NO_MEMORY_FOR_PACKETS
    } else {
        NO_MEMORY
    });
}

fn fill<R: Env>(
    page: &mut Page,
    rt: &R,
    words: &[String],
    seen: &Seen,
    outcome: &Outcome,
    reason: Option<Reason>,
) {
    match outcome {
        Outcome::Done | Outcome::OutOfMemory => {}
        Outcome::Usage(fault) => usage_help(page, rt, words, *fault),
        Outcome::Policy(fault) => policy_help(page, seen, fault),
        Outcome::Graph(fault) => {
            if let Some(text) = graph_seen(seen) {
                graph::fault(page, text, *fault);
            }
        }
        Outcome::Capture(fault) => capture::fault(page, captured(words, seen), *fault),
        Outcome::CaptureNg(fault) => capture_ng::fault(page, captured(words, seen), *fault),
        Outcome::ReadFault(slot) => unread_help(page, seen, *slot, reason),
        Outcome::WriteFault(slot) => unwritten_help(page, seen, *slot, reason),
    }
}

// The capture that was read, through chains where there is a policy.
fn captured<'a>(words: &[String], seen: &'a Seen) -> Captured<'a> {
    Captured {
        name: seen.name(Slot::Capture).unwrap_or(""),
        front: seen.front(),
        purpose: match seen.name(Slot::Policy) {
            Some(_) if behind_why(words).is_some() => Purpose::Why,
            Some(_) => Purpose::Chains,
            None => Purpose::Flows,
        },
    }
}

// A file that can't be read. Nothing is printed if standard error leads to it, since it would get into the file.
fn unread_help(page: &mut Page, seen: &Seen, slot: Slot, reason: Option<Reason>) {
    match (seen.name(slot), reason) {
        (None, _) | (_, Some(Reason::StandardError | Reason::BothStreams)) => {}
        (Some(name), reason) => files::unread(page, name, of_system(reason)),
    }
}

// A slot that can't be written. Where standard output can't, the files of a run were written before.
fn unwritten_help(page: &mut Page, seen: &Seen, slot: Slot, reason: Option<Reason>) {
    match seen.name(slot) {
        Some(name) => unwritten_file(page, seen, name, reason),
        None => files::unprinted(page, seen.name(Slot::Out).is_some()),
    }
}

fn unwritten_file(page: &mut Page, seen: &Seen, name: &str, reason: Option<Reason>) {
    match reason {
        Some(Reason::AttachedAt(other)) => {
            files::one_file(page, name, seen.name(other).unwrap_or(""));
        }
        Some(Reason::StandardOutput) => files::printed_file(page, name),
        Some(Reason::StandardError) => files::told_file(page, name),
        other => files::unwritten(page, name, of_system(other)),
    }
}

// What the system said, or why its file can't be used.
fn of_system(reason: Option<Reason>) -> Option<Error> {
    match reason {
        Some(Reason::System(error)) => Some(error),
        Some(Reason::Locked) => Some(Error::new(ErrorKind::WouldBlock, LOCKED)),
        Some(Reason::StandardOutput) => Some(Error::new(ErrorKind::InvalidInput, LED)),
        _ => None,
    }
}

// Words that are refused.
fn usage_help<R: Env>(page: &mut Page, rt: &R, words: &[String], fault: UsageFault) {
    if !foreign_word(page, rt) {
        usage_reason(page, words, fault);
    }
    usage::forms(page);
}

fn usage_reason(page: &mut Page, words: &[String], fault: UsageFault) {
    match fault {
        UsageFault::UnknownCommand => {
            if let Some(word) = words.first() {
                usage::no_command(page, word.as_str());
            }
        }
        UsageFault::Number(which) => number_help(page, which),
        UsageFault::Merge => usage::no_way(page),
        UsageFault::SameName => usage::same_name(page),
        UsageFault::Words => usage::misfit(page, words),
        UsageFault::NoCommand => {}
    }
}

fn number_help(page: &mut Page, which: Option4) {
    match which {
        Option4::Mergers => usage::out_of_range(page, "the value of --mergers", 1, 16),
        Option4::Burst => usage::out_of_range(page, "the value of --burst", 1, 65536),
        Option4::Workers => usage::out_of_range(page, "the value of --workers", 1, 16),
        Option4::Record => {
            usage::out_of_range(page, "the value of --record", 1, u64::from(u32::MAX));
        }
        Option4::Seed => usage::out_of_range(page, "SEED", 0, u64::MAX),
        Option4::Count => usage::out_of_range(page, "COUNT", 1, 1_000_000),
    }
}

// Reports the first word of the command line that isn't UTF-8, if there is one. Returns whether there is.
fn foreign_word<R: Env>(page: &mut Page, rt: &R) -> bool {
    let mut buffer = [0u8; LONGEST_WORD];
    for place in 1..MOST_WORDS {
        match rt.arg(place, &mut buffer) {
            Ok(length) => {
                let word = &buffer[..length];
                if from_utf8(word).is_err() {
                    usage::not_utf8(page, place as u64, word);
                    return true;
                }
            }
            Err(FillError::TooLong) => {}
            Err(FillError::NotPresent) => return false,
        }
    }
    false
}

// A policy that is refused.
fn policy_help(page: &mut Page, seen: &Seen, fault: &PolicyFault) {
    if let Some(text) = policy_seen(seen) {
        policy_fault(page, text, fault);
    }
}

// What was read of the policy, unless there was no memory to keep it.
fn policy_seen(seen: &Seen) -> Option<PolicyText<'_>> {
    match (seen.name(Slot::Policy), seen.policy()) {
        (Some(name), Some(text)) => Some(PolicyText { name, text }),
        _ => None,
    }
}

// The same of the text of graphs, with the policy that it is for.
fn graph_seen(seen: &Seen) -> Option<GraphText<'_>> {
    match (seen.name(Slot::Graph), seen.graph(), policy_seen(seen)) {
        (Some(name), Some(text), Some(policy)) => Some(GraphText { name, text, policy }),
        _ => None,
    }
}

fn policy_fault(page: &mut Page, text: PolicyText<'_>, fault: &PolicyFault) {
    match fault {
        PolicyFault::TooLong => policy::too_long(page, text),
        PolicyFault::Text(fault) => policy::text_fault(page, text, *fault),
        PolicyFault::BadSetting(line) => policy::bad_setting(page, text, *line),
        PolicyFault::Check { chain, fault } => check_help(page, text, *chain, fault),
    }
}

fn check_help(page: &mut Page, text: PolicyText<'_>, chain: u32, fault: &CheckFault) {
    match fault {
        CheckFault::Cycle(_) => policy::cycle(page, text, chain),
        CheckFault::PriorityForbidden { line, .. } => policy::forbidden(page, text, *line),
        CheckFault::OutOfMemory => {}
    }
}
