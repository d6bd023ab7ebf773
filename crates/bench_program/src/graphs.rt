//! Compiles the chains of a policy again and again, and prints the number of stages of each: what `bench/graphs`
//! measures. Its words are the number of times, and the policy; the functions are taken in the order of their
//! declarations.
ghost use Rattle.std.specs.Prelude.{◌≤◌, length};

use crate::number;
use action_profile::{Profile, profile};
use graph_compile::compile;
use policy_text::{ChainPolicy, parse};
use std::alloc::{AllocError, Global};
use std::rt::Files;
use std::{fs, io};

/// The longest policy, in bytes.
const LONGEST: usize = 1_048_576;

fn profiles_of(alloc: Global, chain: &ChainPolicy) -> Result<Vec<Profile>, AllocError> {
    let functions = chain.functions.as_slice();
    functions.iter().map(|f| profile(f.kind)).collect(alloc)
}

// Compiles the graph `times` times, and returns the number of its stages.
fn compile_often(alloc: Global, profiles: &[Profile], times: u32) -> Result<usize, AllocError>
    requires { length profiles.now ≤ 64 }
{
    let mut stages = 0;
    for _ in 0..times {
        stages = compile(alloc, profiles)?.stages.as_slice().len();
    }
    Ok(stages)
}

fn measure_chain(
    rt: &(impl Alloc<A = Global> + Print),
    chain: &ChainPolicy,
    times: u32,
) -> io::Result<()> {
    let profiles = profiles_of(rt.alloc(), chain)?;
    if profiles.len() > 64 {
        return println!(rt; "too many functions");
    }
    let stages = compile_often(rt.alloc(), &profiles, times)?;
    println!(rt; "stages {stages}")
}

fn run(rt: &(impl Files + Alloc<A = Global> + Print), times: u32, path: &str) -> io::Result<()> {
    let text = fs::read(rt, path)?;
    if text.len() > LONGEST {
        return println!(rt; "too long");
    }
    match parse(rt.alloc(), &text) {
        Ok(policy) => {
            for chain in policy.chains.as_slice() {
                measure_chain(rt, chain, times)?;
            }
            Ok(())
        }
        Err(fault) => println!(rt; "fault {fault:?}"),
    }
}

/// Compiles the chains of the words.
pub fn measure(rt: &(impl Files + Alloc<A = Global> + Print), words: &[String]) -> io::Result<()> {
    match words.get(1) {
        Some(path) => run(rt, number(words, 0, 1), path.as_str()),
        None => println!(rt; "no policy"),
    }
}
