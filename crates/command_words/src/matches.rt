//! The words after each command, matched by `clap`.
ghost use Rattle.std.specs.Prelude.{◌≡◌, ◌≢◌, ◌⊎◌, [], MatchResult, map, string_bytes};
ghost use Rattle.clap.specs.Words.{kind_of};
ghost use Rattle.command_words.specs.Apps.{app, demo_names, flows_names, plan_names, rule_for, run_names, why_names, with_rules};
ghost use Rattle.command_words.specs.Matched.{IsFaulty, IsMatched, IsUnfit, Matches};
ghost use Rattle.command_words.specs.WhyWords.{why_options};
ghost use Rattle.command_words.specs.Words.{demo_options, flows_options, plan_options, run_options};

use crate::commands::{Argument, command};
use crate::usage::{UsageFault, WordsFault};
use clap::error::ErrorKind;
use clap::{ArgMatches, Error};
use std::alloc::Global;

// All faults that `clap` finds in the words are reported as one.
fn refusal(error: Error) -> WordsFault
    ensures { (result ≡ WordsFault.OutOfMemory) ⊎ ((result ≡ WordsFault.Usage UsageFault.Words)
        × (kind_of error ≢ ErrorKind.OutOfMemory)) }
{
    if error.kind() == ErrorKind::OutOfMemory {
        WordsFault::OutOfMemory
    } else {
        WordsFault::Usage(UsageFault::Words)
    }
}

// The words as `clap` matches them to a command with these names and options.
fn matches_of<'a>(
    alloc: Global,
    name: &'a str,
    arguments: &[Argument<'a>],
    words: &'a [String],
) -> Result<ArgMatches<'a>, WordsFault>
    ensures { MatchResult result (IsMatched (with_rules (app name.entry.now [] []) (map rule_for arguments.now)) (map string_bytes words.entry.now))
        (λ e. (e ≡ WordsFault.OutOfMemory) ⊎ ((e ≡ WordsFault.Usage UsageFault.Words)
        × IsFaulty (with_rules (app name.entry.now [] []) (map rule_for arguments.now)) (map string_bytes words.entry.now))) }
{
    let command = command(alloc, name, arguments)?;
    match command.try_get_matches_from(words) {
        Ok(matches) => Ok(matches),
        Err(error) => Err(refusal(error)),
    }
}

/// The words of `run POLICY CAPTURE OUT REPORT` with its options.
pub fn run_matches<'a>(alloc: Global, words: &'a [String]) -> Result<ArgMatches<'a>, WordsFault>
    ensures { MatchResult result (Matches run_names run_options (map string_bytes words.entry.now))
        (λ e. (e ≡ WordsFault.OutOfMemory) ⊎ ((e ≡ WordsFault.Usage UsageFault.Words)
        × IsUnfit run_names run_options (map string_bytes words.entry.now))) }
{
    matches_of(
        alloc,
        "run",
        &[
            Argument::Name("policy"),
            Argument::Name("capture"),
            Argument::Name("out"),
            Argument::Name("report"),
            Argument::Option("mergers"),
            Argument::Option("burst"),
            Argument::Option("merge"),
            Argument::Option("graph"),
        ],
        words,
    )
}

/// The words of `plan POLICY` with its option.
pub fn plan_matches<'a>(alloc: Global, words: &'a [String]) -> Result<ArgMatches<'a>, WordsFault>
    ensures { MatchResult result (Matches plan_names plan_options (map string_bytes words.entry.now))
        (λ e. (e ≡ WordsFault.OutOfMemory) ⊎ ((e ≡ WordsFault.Usage UsageFault.Words)
        × IsUnfit plan_names plan_options (map string_bytes words.entry.now))) }
{
    matches_of(
        alloc,
        "plan",
        &[Argument::Name("policy"), Argument::Option("graph")],
        words,
    )
}

/// The words of `demo SEED COUNT` with its options.
pub fn demo_matches<'a>(alloc: Global, words: &'a [String]) -> Result<ArgMatches<'a>, WordsFault>
    ensures { MatchResult result (Matches demo_names demo_options (map string_bytes words.entry.now))
        (λ e. (e ≡ WordsFault.OutOfMemory) ⊎ ((e ≡ WordsFault.Usage UsageFault.Words)
        × IsUnfit demo_names demo_options (map string_bytes words.entry.now))) }
{
    matches_of(
        alloc,
        "demo",
        &[
            Argument::Name("seed"),
            Argument::Name("count"),
            Argument::Option("mergers"),
            Argument::Option("burst"),
            Argument::Option("merge"),
        ],
        words,
    )
}

/// The words of `flows CAPTURE OUT` with its options.
pub fn flows_matches<'a>(alloc: Global, words: &'a [String]) -> Result<ArgMatches<'a>, WordsFault>
    ensures { MatchResult result (Matches flows_names flows_options (map string_bytes words.entry.now))
        (λ e. (e ≡ WordsFault.OutOfMemory) ⊎ ((e ≡ WordsFault.Usage UsageFault.Words)
        × IsUnfit flows_names flows_options (map string_bytes words.entry.now))) }
{
    matches_of(
        alloc,
        "flows",
        &[
            Argument::Name("capture"),
            Argument::Name("out"),
            Argument::Option("workers"),
            Argument::Option("burst"),
        ],
        words,
    )
}

/// The words of `why POLICY CAPTURE REPORT` with its option.
pub fn why_matches<'a>(alloc: Global, words: &'a [String]) -> Result<ArgMatches<'a>, WordsFault>
    ensures { MatchResult result (Matches why_names why_options (map string_bytes words.entry.now))
        (λ e. (e ≡ WordsFault.OutOfMemory) ⊎ ((e ≡ WordsFault.Usage UsageFault.Words)
        × IsUnfit why_names why_options (map string_bytes words.entry.now))) }
{
    matches_of(
        alloc,
        "why",
        &[
            Argument::Name("policy"),
            Argument::Name("capture"),
            Argument::Name("report"),
            Argument::Option("record"),
        ],
        words,
    )
}
