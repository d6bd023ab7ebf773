//! Makes a command of matched words.
ghost use Rattle.std.specs.Prelude.{◌≡◌, ◌≤◌, ◌&&◌, [], ◌∷◌, IfOk, IfSome, codes, option_map};
ghost use Rattle.std.specs.List.{list_all};
ghost use Rattle.clap.specs.Words.{first_value, found_of};
ghost use Rattle.command_words.specs.Matched.{demo_read, flow_options_have_text as flow_options_spell, flows_read, four_names, given_has_text as given_spells, names_of, options_have_text as options_spell, plan_read, run_options_have_text as run_options_spell, run_read, why_read};
ghost use Rattle.command_words.specs.Named.{HasRanges, answer_seen, files_seen, names_seen, plan_seen, why_files_seen, why_seen, word_in};
ghost use Rattle.command_words.specs.Given.{all_differ, contains, has_text as spells};
ghost use Rattle.command_words.specs.WhyWords.{why_with};
ghost use Rattle.command_words.specs.Words.{demo_with, flows_with, plan_with, run_with, with_graph};

use crate::numbers::{burst, count, mergers, record, seed, workers};
use crate::requests::{
    Command, DemoInput, FileNames, FlowNames, FlowOptions, PlanNames, RunOptions, WhyRequest,
};
use crate::usage::UsageFault;
use crate::ways::merge_way;
use clap::ArgMatches;

// The values of the options on the command line.
#[derive(Clone, Copy)]
struct OptionWords<'a> {
    mergers: Option<&'a str>,
    burst: Option<&'a str>,
    merge: Option<&'a str>,
}

fn has_text(word: &str) -> bool
    ensures { result ≡ spells word.now }
{
    !word.is_empty() && word != "-"
}

fn given_has_text(word: Option<&str>) -> bool
    ensures { result ≡ given_spells (word_in word.entry) }
{
    match word {
        Some(text) => has_text(text),
        None => true,
    }
}

fn options_have_text(options: &OptionWords<'_>) -> bool
    ensures { result ≡ options_spell (word_in options.now.mergers) (word_in options.now.burst) (word_in options.now.merge) }
{
    given_has_text(options.mergers)
        && given_has_text(options.burst)
        && given_has_text(options.merge)
}

fn run_options_have_text(options: &OptionWords<'_>, graph: Option<&str>) -> bool
    ensures { result ≡ run_options_spell (word_in options.now.mergers) (word_in options.now.burst) (word_in options.now.merge)
        (word_in graph.entry) }
{
    given_has_text(options.mergers)
        && given_has_text(options.burst)
        && given_has_text(options.merge)
        && given_has_text(graph)
}

fn names_have_text(names: &FileNames<'_>) -> bool
    ensures { result ≡ list_all spells (names_of (names_seen names.now)) }
{
    has_text(names.policy)
        && has_text(names.capture)
        && has_text(names.out)
        && has_text(names.report)
}

// Is `graph` the name of one of the four files?
fn is_named(names: &FileNames<'_>, graph: &str) -> bool
    ensures { result ≡ contains graph.now (names_of (names_seen names.now)) }
{
    names.policy == graph || names.capture == graph || names.out == graph || names.report == graph
}

fn four_are_distinct(names: &FileNames<'_>) -> bool
    ensures { result ≡ all_differ (names_of (names_seen names.now)) }
{
    let first = names.capture == names.policy
        || names.out == names.policy
        || names.report == names.policy;
    let second = names.out == names.capture || names.report == names.capture;
    !first && !second && names.report != names.out
}

fn are_distinct(names: &FileNames<'_>) -> bool
    ensures { result ≡ all_differ (with_graph (word_in names.now.graph) (names_of (names_seen names.now))) }
{
    match names.graph {
        Some(graph) => !is_named(names, graph) && four_are_distinct(names),
        None => four_are_distinct(names),
    }
}

fn run_from<'a>(names: FileNames<'a>, options: &OptionWords<'_>) -> Result<Command<'a>, UsageFault>
    ensures answer { answer_seen result ≡ run_with (names_seen names.entry) (word_in options.now.mergers) (word_in options.now.burst)
        (word_in options.now.merge) }
    ensures ranges { IfOk result HasRanges }
{
    let mergers = mergers(options.mergers)?;
    let burst = burst(options.burst)?;
    let way = merge_way(options.merge)?;
    if are_distinct(&names) {
        Ok(Command::Run(
            names,
            RunOptions {
                mergers,
                burst,
                way,
            },
        ))
    } else {
        Err(UsageFault::SameName)
    }
}

fn demo_from<'a>(
    seed_word: &str,
    count_word: &str,
    options: &OptionWords<'_>,
) -> Result<Command<'a>, UsageFault>
    ensures answer { answer_seen result ≡ demo_with seed_word.now count_word.now (word_in options.now.mergers) (word_in options.now.burst)
        (word_in options.now.merge) }
    ensures ranges { IfOk result HasRanges }
{
    let mergers = mergers(options.mergers)?;
    let burst = burst(options.burst)?;
    let seed = seed(seed_word)?;
    let count = count(count_word)?;
    let way = merge_way(options.merge)?;
    Ok(Command::Demo(
        DemoInput { seed, count },
        RunOptions {
            mergers,
            burst,
            way,
        },
    ))
}

fn option_words<'a>(matches: &ArgMatches<'a>) -> OptionWords<'a>
    ensures mergers { word_in result.mergers ≡ first_value (found_of matches.now) (codes "mergers") }
    ensures burst { word_in result.burst ≡ first_value (found_of matches.now) (codes "burst") }
    ensures merge { word_in result.merge ≡ first_value (found_of matches.now) (codes "merge") }
{
    OptionWords {
        mergers: matches.get_str("mergers"),
        burst: matches.get_str("burst"),
        merge: matches.get_str("merge"),
    }
}

fn file_names<'a>(matches: &ArgMatches<'a>) -> Option<FileNames<'a>>
    ensures { option_map names_seen result ≡ four_names (first_value (found_of matches.now) (codes "policy"))
        (first_value (found_of matches.now) (codes "capture")) (first_value (found_of matches.now) (codes "out"))
        (first_value (found_of matches.now) (codes "report")) (first_value (found_of matches.now) (codes "graph")) }
{
    match (
        matches.get_str("policy"),
        matches.get_str("capture"),
        matches.get_str("out"),
        matches.get_str("report"),
    ) {
        (Some(policy), Some(capture), Some(out), Some(report)) => Some(FileNames {
            policy,
            capture,
            out,
            report,
            graph: matches.get_str("graph"),
        }),
        _ => None,
    }
}

/// The command `run`, from words that `clap` matched.
pub fn run_answer<'a>(matches: &ArgMatches<'a>) -> Result<Command<'a>, UsageFault>
    ensures answer { answer_seen result ≡ run_read (four_names (first_value (found_of matches.now) (codes "policy"))
        (first_value (found_of matches.now) (codes "capture")) (first_value (found_of matches.now) (codes "out"))
        (first_value (found_of matches.now) (codes "report")) (first_value (found_of matches.now) (codes "graph")))
        (first_value (found_of matches.now) (codes "mergers"))
        (first_value (found_of matches.now) (codes "burst")) (first_value (found_of matches.now) (codes "merge")) }
    ensures ranges { IfOk result HasRanges }
{
    let options = option_words(matches);
    let Some(names) = file_names(matches) else {
        return Err(UsageFault::Words);
    };
    if names_have_text(&names) && run_options_have_text(&options, names.graph) {
        run_from(names, &options)
    } else {
        Err(UsageFault::Words)
    }
}

fn plan_from<'a>(names: PlanNames<'a>) -> Result<Command<'a>, UsageFault>
    ensures answer { answer_seen result ≡ plan_with (plan_seen names.entry) }
    ensures ranges { IfOk result HasRanges }
{
    match names.graph {
        Some(graph) if names.policy == graph => Err(UsageFault::SameName),
        _ => Ok(Command::Plan(names)),
    }
}

/// The command `plan`, from words that `clap` matched.
pub fn plan_answer<'a>(matches: &ArgMatches<'a>) -> Result<Command<'a>, UsageFault>
    ensures answer { answer_seen result ≡ plan_read (first_value (found_of matches.now) (codes "policy"))
        (first_value (found_of matches.now) (codes "graph")) }
    ensures ranges { IfOk result HasRanges }
{
    let Some(policy) = matches.get_str("policy") else {
        return Err(UsageFault::Words);
    };
    let graph = matches.get_str("graph");
    if has_text(policy) && given_has_text(graph) {
        plan_from(PlanNames { policy, graph })
    } else {
        Err(UsageFault::Words)
    }
}

/// The command `demo`, from words that `clap` matched.
pub fn demo_answer<'a>(matches: &ArgMatches<'a>) -> Result<Command<'a>, UsageFault>
    ensures answer { answer_seen result ≡ demo_read (first_value (found_of matches.now) (codes "seed"))
        (first_value (found_of matches.now) (codes "count")) (first_value (found_of matches.now) (codes "mergers"))
        (first_value (found_of matches.now) (codes "burst")) (first_value (found_of matches.now) (codes "merge")) }
    ensures ranges { IfOk result HasRanges }
{
    let options = option_words(matches);
    let (Some(seed), Some(count)) = (matches.get_str("seed"), matches.get_str("count")) else {
        return Err(UsageFault::Words);
    };
    if has_text(seed) && has_text(count) && options_have_text(&options) {
        demo_from(seed, count, &options)
    } else {
        Err(UsageFault::Words)
    }
}

fn flow_options_have_text(workers: Option<&str>, burst: Option<&str>) -> bool
    ensures { result ≡ flow_options_spell (word_in workers.entry) (word_in burst.entry) }
{
    given_has_text(workers) && given_has_text(burst)
}

fn flows_from<'a>(
    names: FlowNames<'a>,
    workers_word: Option<&str>,
    burst_word: Option<&str>,
) -> Result<Command<'a>, UsageFault>
    ensures answer { answer_seen result ≡ flows_with (files_seen names.entry) (word_in burst_word.entry) (word_in workers_word.entry) }
    ensures ranges { IfOk result HasRanges }
{
    let burst = burst(burst_word)?;
    let workers = workers(workers_word)?;
    if names.out == names.capture {
        Err(UsageFault::SameName)
    } else {
        Ok(Command::Flows(names, FlowOptions { workers, burst }))
    }
}

/// The command `flows`, from words that `clap` matched.
pub fn flows_answer<'a>(matches: &ArgMatches<'a>) -> Result<Command<'a>, UsageFault>
    ensures answer { answer_seen result ≡ flows_read (first_value (found_of matches.now) (codes "capture"))
        (first_value (found_of matches.now) (codes "out")) (first_value (found_of matches.now) (codes "workers"))
        (first_value (found_of matches.now) (codes "burst")) }
    ensures ranges { IfOk result HasRanges }
{
    let (Some(capture), Some(out)) = (matches.get_str("capture"), matches.get_str("out")) else {
        return Err(UsageFault::Words);
    };
    let workers = matches.get_str("workers");
    let burst = matches.get_str("burst");
    if has_text(capture) && has_text(out) && flow_options_have_text(workers, burst) {
        flows_from(FlowNames { capture, out }, workers, burst)
    } else {
        Err(UsageFault::Words)
    }
}

fn three_have_text(first: &str, second: &str, third: &str) -> bool
    ensures { result ≡ (spells first.now && (spells second.now && spells third.now)) }
{
    has_text(first) && has_text(second) && has_text(third)
}

fn three_are_distinct(first: &str, second: &str, third: &str) -> bool
    ensures { result ≡ all_differ (first.now ∷ second.now ∷ third.now ∷ []) }
{
    second != first && third != first && third != second
}

// `request` has no number yet.
fn why_from<'a>(
    request: WhyRequest<'a>,
    record_word: Option<&str>,
) -> Result<WhyRequest<'a>, UsageFault>
    ensures answer { why_seen result ≡ why_with (why_files_seen request.entry) (word_in record_word.entry) }
    ensures range { IfOk result (λ r. IfSome r.«record» (λ n. 1 ≤ n)) }
{
    let record = record(record_word)?;
    if three_are_distinct(request.policy, request.capture, request.report) {
        Ok(WhyRequest { record, ..request })
    } else {
        Err(UsageFault::SameName)
    }
}

/// The words behind `why`, from words that `clap` matched.
pub fn why_answer<'a>(matches: &ArgMatches<'a>) -> Result<WhyRequest<'a>, UsageFault>
    ensures answer { why_seen result ≡ why_read (first_value (found_of matches.now) (codes "policy"))
        (first_value (found_of matches.now) (codes "capture")) (first_value (found_of matches.now) (codes "report"))
        (first_value (found_of matches.now) (codes "record")) }
    ensures range { IfOk result (λ r. IfSome r.«record» (λ n. 1 ≤ n)) }
{
    let (Some(policy), Some(capture), Some(report)) = (
        matches.get_str("policy"),
        matches.get_str("capture"),
        matches.get_str("report"),
    ) else {
        return Err(UsageFault::Words);
    };
    let number = matches.get_str("record");
    if three_have_text(policy, capture, report) && given_has_text(number) {
        why_from(
            WhyRequest {
                policy,
                capture,
                report,
                record: None,
            },
            number,
        )
    } else {
        Err(UsageFault::Words)
    }
}
