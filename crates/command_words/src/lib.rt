//! The words of the command line.
//!
//! [`read_command`] reads one of these commands, or returns why the words are refused, exactly as `specs/Words.antt`
//! defines it:
//!
//! - `run POLICY CAPTURE OUT REPORT [--mergers N] [--burst N] [--merge WAY] [--graph NAME]`
//! - `plan POLICY [--graph NAME]`
//! - `demo SEED COUNT [--mergers N] [--burst N] [--merge WAY]`
//! - `flows CAPTURE OUT [--workers N] [--burst N]`
//!
//! [`read_why`] reads the words behind `why`, as `specs/WhyWords.antt` defines it:
//!
//! - `why POLICY CAPTURE REPORT [--record N]`
//!
//! An option may come before, between or after the names, as `--burst 7` or `--burst=7`, and at most once. After the
//! word `--` each word is a name, so a name that begins with a dash can be given there. WAY is `inbox` or `board`.
//! First options and names are separated, then the numbers are read, then the way, and last the names of files are
//! compared, including that of `--graph`. The reported fault is the first in this order.
//!
//! The words after the command's own are read by `clap`, and it is proved that the result is that of the definition,
//! which doesn't mention `clap`. Two differences are handled here: `clap` accepts an empty word and a single dash as a
//! name or a value, and they are refused; and all its faults are reported as one.
//!
//! Left out: what a command does.
#![tactic(auto)]

mod answers;
mod commands;
mod matches;
mod numbers;
mod requests;
mod usage;
mod ways;
mod words;

pub use requests::{
    Command, DemoInput, FileNames, FlowNames, FlowOptions, PlanNames, RunOptions, Way, WhyRequest,
};
pub use usage::{Option4, UsageFault, WordsFault};
pub use words::{read_command, read_why};
