//! The words of help and the version, which are printed if the first word asks for them.
//!
//! They are answered before the call that the theorem speaks of, which takes none of these words for a command.

use crate::build::BUILD;
use nfp_outside::Slot;
use nfp_run::Outcome;
use operator_help::VERSION;
use std::io;
use std::io::Write;

/// The words of help. The script `nfp` prints them from this file if nothing is built yet.
pub const HELP: &str = "\
nfp runs service chains of network functions over packet captures.

  nfp plan POLICY [--graph NAME]
      checks a policy, and prints the order of each chain and what may run side by side
  nfp run POLICY CAPTURE OUT REPORT [--mergers N] [--burst N] [--merge WAY] [--graph NAME] [--sync]
      runs a capture through the chains of a policy: what passes is in OUT, the drops and states are in REPORT
  nfp why POLICY CAPTURE REPORT [--record N]
      says which line of the policy decided on each dropped packet, how often each line did, and how record N went
  nfp flows CAPTURE OUT [--workers N] [--burst N] [--sync]
      writes the flows of a capture in the classic format to OUT, as packets of NetFlow version 5
  nfp demo SEED COUNT [--mergers N] [--burst N] [--merge WAY]
      makes a capture of COUNT packets in memory, runs it, and prints how many pass
  nfp --help, -h, help
  nfp --version

POLICY, CAPTURE and NAME are read, OUT and REPORT are replaced. After -- each word is a name.
NAME is a text of graphs written by hand, for chains of the policy.
N is 1 to 16 for --mergers and --workers (2), 1 to 65536 packets for --burst (1024), and 1 to 4294967295 for --record.
WAY is inbox or board (inbox).
--sync brings OUT and REPORT to the disk before the line is printed.

Tools, in a clone and once installed; each prints its words with --help:
  nfp explain          which function and which line dropped or changed what
  nfp report-to-csv    a report as tables
  nfp report-to-html   a report as a page for a browser
  nfp plan-to-dot      a plan as a picture for Graphviz
  nfp plan-to-graph    a plan as a text of graphs
  nfp chains-apart     the chains of a policy on several processors or machines
  nfp send-flows       the flows of an OUT to a NetFlow collector

Pages: nfp(1), nfp-policy(5) for the policy language, and nfp-TOOL(1) for each tool.
";

/// What the first word asks for.
#[derive(Clone, Copy)]
pub enum Question {
    /// The words of help.
    Help,
    /// The version, and how the program was built.
    Version,
}

/// What the first word asks for. `None` if the words are for the call.
pub fn question_in(words: &[String]) -> Option<Question> {
    match words.first()?.as_str() {
        "--help" | "-h" | "help" => Some(Question::Help),
        "--version" => Some(Question::Version),
        _ => None,
    }
}

/// The words behind `why`, if that is the command.
pub fn behind_why(words: &[String]) -> Option<&[String]> {
    match words.split_first() {
        Some((first, others)) if first.as_str() == "why" => Some(others),
        _ => None,
    }
}

/// Whether the command may lead packets on threads: a demo does without a capture, and `why` takes one thread.
pub fn may_thread(words: &[String], has_capture: bool) -> bool {
    match words.first() {
        Some(word) if word.as_str() == "demo" => true,
        Some(word) if word.as_str() == "why" => false,
        _ => has_capture,
    }
}

/// Prints the answer. A line that can't be printed is the outcome of a call whose line can't be.
pub fn answer(rt: &impl Print, question: Question) -> Outcome {
    let printed = match question {
        Question::Help => print(rt, &[HELP]),
        Question::Version => print(rt, &["nfp ", VERSION, ", ", BUILD, "\n"]),
    };
    match printed {
        Ok(()) => Outcome::Done,
        Err(_) => Outcome::WriteFault(Slot::Note),
    }
}

fn print(rt: &impl Print, pieces: &[&str]) -> io::Result<()> {
    let mut output = io::writer(rt);
    for piece in pieces {
        output.write_all(piece.as_bytes())?;
    }
    Ok(())
}
