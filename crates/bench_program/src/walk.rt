//! Runs the same burst of packets through the chain of a policy again and again: through the graph on one thread,
//! through the graph on threads that are joined after each stage, with its dealers, branches and mergers side by side,
//! or by the walk of whole frames. Or it only searches for the patterns of the functions, or only reads the same bytes.
//! This is what `bench/walk` and `bench/payload` measure.
//!
//! Its words are `graph`, `joined`, `threads`, `piped`, `board`, `walk`, `search`, `pass` or `none`, the number of
//! times, the length of each frame in bytes, the policy, the number of mergers (by default 1), and the number of
//! packets of a burst (1,024). `piped` and `board` are the run of the program, which uses threads if they pay: in
//! `piped` the results of branches go to the mergers over links, in `board` on a board. In `threads` each burst runs as
//! the first one of `piped` does. The functions of the first chain are taken in the order of their declarations. For
//! bursts that run through a chain, stderr gets the nanoseconds of the fastest one.
ghost use Rattle.std.specs.Prelude.{◌≤◌, length, vec_len};

use crate::frames::{BURST, burst_of};
use crate::runs::{Counts, Least, Way, by_walk, through_graph};
use crate::search::{pass, search};
use crate::{number, short};
use classifier::Burst;
use net_functions::{Made, NetFunction, make};
use piped_run::MergeWay;
use policy_text::{BuildFault, ChainPolicy, FunctionDecl, parse};
use std::alloc::Global;
use std::rt::{Clock, Files};
use std::sync::Wait;
use std::thread::Threads;
use std::{fs, io};

/// The longest policy, in bytes.
const LONGEST: usize = 1_048_576;

fn functions_of(alloc: Global, chain: &ChainPolicy) -> Result<Vec<NetFunction>, BuildFault> {
    let mut functions = Vec::new(alloc);
    for decl in chain.functions.as_slice() {
        push_function(alloc, &mut functions, decl)?;
    }
    Ok(functions)
}

fn push_function(
    alloc: Global,
    functions: &mut Vec<NetFunction>,
    decl: &FunctionDecl,
) -> Result<(), BuildFault> {
    // An end of a tunnel isn't a function of a graph.
    let Made::Function(function) = make(alloc, decl)? else {
        return Err(BuildFault::BadSetting(decl.line));
    };
    if functions.push(function).is_err() {
        return Err(BuildFault::OutOfMemory);
    }
    Ok(())
}

/// The settings of a measurement.
#[derive(Drop)]
struct Run<'a> {
    mode: &'a str,
    rounds: u32,
    size: u16,
    mergers: u32,
    packets: u32,
}

fn lead(
    rt: &(impl Alloc<A = Global> + Print + Eprint + Threads + Wait + Clock + Sync),
    run: &Run,
    chain: &ChainPolicy,
) -> io::Result<()> {
    let alloc = rt.alloc();
    let burst = burst_of(alloc, run.packets, run.size)?;
    let mut functions = match functions_of(alloc, chain) {
        Ok(functions) => functions,
        Err(fault) => return println!(rt; "fault {fault:?}"),
    };
    if functions.len() > 64 || burst.items.as_slice().len() > 65_536 {
        return println!(rt; "too many");
    }
    match way_of(run.mode) {
        Some(way) => tell_graph(rt, functions, &burst, run, way),
        None => beside(rt, run, &mut functions, &burst),
    }
}

// How a mode runs the burst through the graph, if it does.
fn way_of(mode: &str) -> Option<Way> {
    match mode {
        "graph" => Some(Way::Plain),
        "joined" => Some(Way::Joined),
        "threads" => Some(Way::Threads),
        "piped" => Some(Way::Piped(MergeWay::Inbox)),
        "board" => Some(Way::Piped(MergeWay::Board)),
        _ => None,
    }
}

// Measures the modes without a graph.
fn beside(
    rt: &(impl Alloc<A = Global> + Print + Eprint + Wait + Clock),
    run: &Run,
    functions: &mut [NetFunction],
    burst: &Burst,
) -> io::Result<()>
    requires { length functions.old ≤ 64 }
{
    match run.mode {
        "walk" => tell_walk(rt, run, functions, burst),
        "search" => println!(rt; "found {}", search(functions, burst, run.rounds)),
        "pass" => println!(rt; "sum {}", pass(burst, run.rounds)),
        _ => println!(rt; "none"),
    }
}

fn tell_walk(
    rt: &(impl Alloc<A = Global> + Print + Eprint + Wait + Clock),
    run: &Run,
    functions: &mut [NetFunction],
    burst: &Burst,
) -> io::Result<()>
    requires { length functions.old ≤ 64 }
{
    let (out, least) = by_walk(rt, rt.alloc(), functions, burst, run.rounds)?;
    tell_least(rt, least)?;
    println!(rt; "out {out}")
}

fn tell_graph(
    rt: &(impl Alloc<A = Global> + Print + Eprint + Threads + Wait + Clock + Sync),
    functions: Vec<NetFunction>,
    burst: &Burst,
    run: &Run,
    way: Way,
) -> io::Result<()>
    requires few { vec_len functions ≤ 64 }
    requires short { length burst.now.items ≤ 65536 }
{
    let counts = through_graph(
        rt,
        rt.alloc(),
        functions,
        burst,
        run.rounds,
        way,
        run.mergers,
    )?;
    tell(rt, counts)
}

fn tell(rt: &(impl Print + Eprint), counts: Counts) -> io::Result<()> {
    let (out, copies) = (counts.out, counts.copies);
    tell_least(rt, counts.least)?;
    println!(rt; "out {out} copies {copies}")
}

fn tell_least(rt: &impl Eprint, least: Least) -> io::Result<()> {
    match least.0 {
        Some(nanos) => eprintln!(rt; "least {nanos}"),
        None => Ok(()),
    }
}

/// Runs the packets of the words, the first of which is the mode.
pub fn measure(
    rt: &(impl Files + Alloc<A = Global> + Print + Eprint + Threads + Wait + Clock + Sync),
    mode: &str,
    words: &[String],
) -> io::Result<()> {
    let Some(path) = words.get(2) else {
        return println!(rt; "no policy");
    };
    let run = Run {
        mode,
        rounds: number(words, 0, 1),
        size: short(words, 1, 42),
        mergers: number(words, 3, 1),
        packets: number(words, 4, BURST),
    };
    let text = fs::read(rt, path.as_str())?;
    if text.len() > LONGEST {
        return println!(rt; "too long");
    }
    match parse(rt.alloc(), &text) {
        Ok(policy) => match policy.chains.as_slice().first() {
            Some(chain) => lead(rt, &run, chain),
            None => println!(rt; "no chain"),
        },
        Err(fault) => println!(rt; "fault {fault:?}"),
    }
}
