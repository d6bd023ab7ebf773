//! What the scripts of `bench/` measure. The first word selects it: `arrivals`, `graphs`, `versions`, or a way of
//! [`walk`]; the words after it are those of the module.
#![tactic(auto)]

mod arrivals;
mod frames;
mod graphs;
mod runs;
mod search;
mod versions;
mod walk;

use std::{env, io};

/// The number at this place of the words, or `otherwise` if there is none.
fn number(words: &[String], place: usize, otherwise: u32) -> u32 {
    match words.get(place) {
        Some(word) => word.parse().unwrap_or(otherwise),
        None => otherwise,
    }
}

/// The same for a number of 16 bits.
fn short(words: &[String], place: usize, otherwise: u16) -> u16 {
    let number = number(words, place, u32::from(otherwise));
    u16::try_from(number).unwrap_or(otherwise)
}

fn main(rt: HostRuntime) -> io::Result<()> {
    let words: Vec<String> = env::args(&rt)?.skip(1).collect(rt.alloc())?;
    let Some((what, words)) = words.split_first() else {
        return Ok(());
    };
    match what.as_str() {
        "arrivals" => arrivals::measure(&rt, words),
        "graphs" => graphs::measure(&rt, words),
        "versions" => versions::measure(&rt, words),
        mode => walk::measure(&rt, mode, words),
    }
}
