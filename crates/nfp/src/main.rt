//! `nfp` runs the service chains of a policy over a capture file, says which lines of the policy decided, shows the plan
//! of a policy, exports the flows of a capture file, and runs a demo.
//!
//! The program passes its words to [`nfp_run::nfp`], over files and an open gate, and those behind `why` to
//! [`why_call::why`]. It exits with the status of the outcome. What these calls promise is the program's theorem. If
//! bytes that the desk had gathered for a file were lost, the call printed no line, and the program prints the one that
//! names that file.
//!
//! Words that ask for help or for the version are answered before, and neither call takes one of them for a command. The
//! option `--sync` of `run` and `flows` is taken out of the words before it, and sets the desk ([`sync`]).
//!
//! The desk is watched. If the environment has `NFP_PROGRESS=1` and standard error is a terminal, a long run shows its
//! progress there. Standard error also says what to do about an outcome. Nothing is promised of either.
#![tactic(auto)]

ghost use Rattle.std.specs.Prelude.{◌≡◌, ◌≢◌, true};
ghost use Rattle.file_desk.specs.Desks.{IsAllSynced, IsAllWritten};

mod asked;
mod build;
mod help;
mod odd;
mod sync;

use asked::{answer, behind_why, question_in};
use file_desk::{FileDesk, Host, Reason, System};
use help::{tell_about, tell_memory};
use nfp_outside::{OpenGate, Slot};
use nfp_run::{Outcome, nfp, write_fault_text};
use std::alloc::AllocError;
use std::fs::File;
use std::io::{ErrorKind, IsTerminal, Write};
use std::process::ExitCode;
use std::rt::{Clock, Env, Files};
use std::{env, fs, io, str};
use sync::take_sync;
use watched_desk::{Progress, Seen, Watch, Watched};
use why_call::why;

/// The length of the longest word that is a command.
const LONGEST_COMMAND: usize = 5;

fn main(rt: HostRuntime) -> ExitCode {
    let _places = (
        place_of(&rt, "/proc/self/fd/0"),
        place_of(&rt, "/proc/self/fd/1"),
        place_of(&rt, "/proc/self/fd/2"),
    );
    let words = command_line(&rt);
    if let Ok(words) = &words {
        if let Some(question) = question_in(words) {
            return ExitCode::from(answer(&rt, question).status());
        }
    }
    let files: Result<_, _> = rt.clone();
    let outcome = match (words, files) {
        (Ok(mut words), Ok(files)) => {
            let watch = watch(&rt, rt.stderr().is_terminal());
            let mut files = FileDesk::new(Host::new(files));
            files.set_sync(take_sync(&mut words));
            let mut desk = Watched::new(files, watch);
            let outcome = match behind_why(&words) {
                Some(words) => why(&rt, rt.alloc(), words, &mut desk),
                None => nfp(&rt, rt.alloc(), &words, &mut desk, &OpenGate),
            };
            let (mut files, watch) = desk.into_parts();
            let seen = watch.end();
            let outcome = end(&rt, &mut files, outcome);
            let reason = reason_of(&files, &outcome);
            let has_capture = files.has_capture();
            drop(files);
            tell_about(&rt, &words, &seen, &outcome, reason, has_capture);
            outcome
        }
        _ => {
            tell_memory(&rt, false);
            Outcome::OutOfMemory
        }
    };
    ExitCode::from(outcome.status())
}

// A file in the place of a standard stream that is closed, so that no file of the run gets that place and receives what is
// printed.
fn place_of<R: Files>(rt: &R, stream: &str) -> Option<R::File> {
    match fs::metadata(rt, stream) {
        Ok(_) => None,
        Err(_) => File::open(rt, "/dev/null").ok(),
    }
}

// What the run is watched with. Progress is shown on a terminal, if the environment asks for it.
fn watch<R: Env + Clock + Files + Eprint + AllocGlobal + Clone + Drop>(
    rt: &R,
    terminal: bool,
) -> Watch<R> {
    Watch {
        seen: Seen::new(rt.alloc()),
        progress: progress(rt, terminal),
    }
}

fn progress<R: Env + Clock + Files + Eprint + Clone + Drop>(
    rt: &R,
    terminal: bool,
) -> Option<Progress<R>> {
    if !terminal || !wants_progress(rt) {
        return None;
    }
    match rt.clone() {
        Ok(rt) => Some(Progress::new(rt)),
        Err(_) => None,
    }
}

fn wants_progress(rt: &impl Env) -> bool {
    let mut value = [0u8; 2];
    matches!(rt.var("NFP_PROGRESS", &mut value), Ok(1)) && value[0] == b'1'
}

// The outcome of the program. If gathered bytes were lost, or can't be brought to the disk, Note has taken nothing, and
// the line of the first slot that failed is printed here: one that had failed at a call of its own before, or else the
// one that lost them. Nothing is printed once memory ran out.
fn end<S: System + Drop>(
    rt: &(impl Print + AllocGlobal),
    desk: &mut FileDesk<S>,
    outcome: Outcome,
) -> Outcome
    // Done says that the files of Out and Report, where they are attached, hold all that was put into them.
    ensures written { result ≡ Outcome.Done → IsAllWritten S.Output.contents desk.new }
    // With `--sync` it also says that all of it was brought to the disk.
    ensures synced { result ≡ Outcome.Done → desk.old.syncs ≡ true → IsAllSynced S.Output.on_disk desk.new }
{
    match (desk.hand_on(), outcome) {
        (None, Outcome::Done) => match desk.unwritten() {
            None => Outcome::Done,
            Some(slot) => tell(rt, slot),
        },
        (None, outcome) => outcome,
        (Some(_), Outcome::OutOfMemory) => Outcome::OutOfMemory,
        (Some(_), Outcome::WriteFault(slot)) if slot != Slot::Note => tell(rt, slot),
        (Some(lost), _) => tell(rt, lost),
    }
}

// Why the slot of an outcome failed.
fn reason_of<S: System + Drop>(desk: &FileDesk<S>, outcome: &Outcome) -> Option<Reason> {
    match outcome {
        Outcome::ReadFault(slot) | Outcome::WriteFault(slot) => desk.reason(*slot),
        _ => None,
    }
}

// Prints the slot that couldn't be written, as a note does. The status says it too if the line can't be printed.
fn tell(rt: &(impl Print + AllocGlobal), slot: Slot) -> Outcome
    ensures { result ≢ Outcome.Done }
{
    match write_fault_text(rt.alloc(), slot) {
        Ok(line) => {
            let _ = io::writer(rt).write_all(&line);
            Outcome::WriteFault(slot)
        }
        Err(_) => Outcome::OutOfMemory,
    }
}

// The command line without the program's name. If one of its words isn't UTF-8, it is refused as words that end in an
// empty one are.
fn command_line(rt: &(impl Env + AllocGlobal)) -> io::Result<Vec<String>> {
    match env::args(rt) {
        Ok(words) => Ok(words.skip(1).collect(rt.alloc())?),
        Err(error) if error.kind() == ErrorKind::InvalidData => Ok(command_alone(rt)?),
        Err(error) => Err(error),
    }
}

// The command, if the first word is one, and an empty word, which no command takes.
fn command_alone(rt: &(impl Env + AllocGlobal)) -> Result<Vec<String>, AllocError> {
    let mut buffer = [0; LONGEST_COMMAND];
    let length = rt.arg(1, &mut buffer).unwrap_or(0);
    let command = str::from_utf8(&buffer[..length]).unwrap_or("");
    let mut words = Vec::new(rt.alloc());
    words.push(String::from_str(rt.alloc(), command)?)?;
    words.push(String::new(rt.alloc()))?;
    Ok(words)
}
