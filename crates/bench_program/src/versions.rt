//! Takes a frame apart and joins it again, with or without a stage of two branches in between, again and again, or only
//! copies it: what `bench/versions` measures. Its words are the length of the frame in bytes, and then `copy`, `join`,
//! `read` or `write`.
ghost use Rattle.std.specs.Prelude.{◌≡◌, [], length, IfOk, OnOk};
ghost use Rattle.action_profile.specs.Modes.{modes_of};
ghost use Rattle.merge_ops.specs.Behind.{AreArrivals};

use crate::short;
use action_profile::{FieldSet, Mode, StageParts, Touch};
use item_list::Items;
use merge_ops::{Arrival, Merged, merge};
use packet_version::{Apart, Base, Tally, deal, join, split};
use std::alloc::{AllocError, Global};
use std::io;
use std::sync::Wait;

const ROUNDS: u32 = 200_000;

/// Addresses, and the headers of UDP from 10.0.0.1:1000 to 10.0.0.2:53 in an IPv4 packet of 1,486 bytes, which a
/// shorter frame cuts.
const HEADERS: [u8; 42] = [
    2, 0, 0, 0, 0, 2, 2, 0, 0, 0, 0, 1, 8, 0, 0x45, 0, 0x05, 0xce, 0, 0, 0, 0, 64, 17, 0x61, 0x1d,
    10, 0, 0, 1, 10, 0, 0, 2, 0x03, 0xe8, 0, 53, 0x05, 0xba, 0, 0,
];

/// The fields of a monitor.
const WATCHES: Touch = Touch {
    reads: FieldSet::ENDPOINTS,
    writes: FieldSet::NONE,
};

/// The fields of a redactor.
const REDACTS: Touch = Touch {
    reads: FieldSet::PAYLOAD,
    writes: FieldSet::PAYLOAD,
};

const SHARED: Mode = Mode::Shared;

/// Two monitors: no field is written.
fn readers(alloc: Global) -> Result<StageParts, AllocError>
    ensures modes { IfOk result (λ parts. parts.modes ≡ modes_of parts.touches) }
    ensures count { IfOk result (λ parts. length parts.touches ≡ 2) }
{
    let touches = Vec::from_array(alloc, [WATCHES, WATCHES])?;
    Ok(StageParts {
        modes: [
            SHARED, SHARED, SHARED, SHARED, SHARED, SHARED, SHARED, SHARED, SHARED, SHARED,
        ],
        touches: Items::new(touches),
    })
}

/// Two branches that write the data: the first has the original, and the second a copy.
fn writers(alloc: Global) -> Result<StageParts, AllocError>
    ensures modes { IfOk result (λ parts. parts.modes ≡ modes_of parts.touches) }
    ensures count { IfOk result (λ parts. length parts.touches ≡ 2) }
{
    let touches = Vec::from_array(alloc, [REDACTS, REDACTS])?;
    let copied = Mode::Copied { original: Some(0) };
    Ok(StageParts {
        modes: [
            SHARED, SHARED, SHARED, SHARED, SHARED, SHARED, SHARED, SHARED, SHARED, copied,
        ],
        touches: Items::new(touches),
    })
}

/// A frame of `length` bytes, at least those of its headers.
fn frame(alloc: Global, length: usize) -> Result<Vec<u8>, AllocError> {
    let mut bytes = Vec::from_slice(alloc, &HEADERS)?;
    bytes.resize(length.max(HEADERS.len()), 7)?;
    Ok(bytes)
}

/// The last byte. It is used so that the compiler removes no work.
fn last_of(bytes: &[u8]) -> u64 {
    match bytes.last() {
        Some(byte) => u64::from(*byte),
        None => 0,
    }
}

fn copied(alloc: Global, frame: &[u8]) -> Result<u64, AllocError> {
    let mut sum = 0u64;
    for _round in 0..ROUNDS {
        let copy = Vec::from_slice(alloc, frame)?;
        sum = sum.wrapping_add(last_of(&copy));
    }
    Ok(sum)
}

fn joined(alloc: Global, frame: &[u8]) -> Result<u64, AllocError> {
    let mut sum = 0u64;
    for _round in 0..ROUNDS {
        let whole = join(alloc, split(alloc, frame, 0, 0)?)?;
        sum = sum.wrapping_add(last_of(whole.bytes()));
    }
    Ok(sum)
}

/// The base of a packet. The versions of branches without a function are added to the arrivals, of which there are none
/// yet.
fn dealt(
    alloc: Global,
    whole: Apart,
    parts: &StageParts,
    tally: &mut Tally,
    arrivals: &mut Vec<Arrival>,
) -> Result<Base, AllocError>
    requires two { length parts.now.touches ≡ 2 }
    requires modes { parts.now.modes ≡ modes_of parts.now.touches }
    requires none { arrivals.old.items ≡ [] }
    ensures arrivals { IfOk result (λ base. AreArrivals base arrivals.new.items) }
    ensures two { OnOk result (length arrivals.new.items ≡ 2) }
{
    let (base, mut versions) = deal(alloc, whole, parts, tally)?;
    let Some(second) = versions.pop() else {
        return Err(AllocError);
    };
    let Some(first) = versions.pop() else {
        return Err(AllocError);
    };
    arrivals.push(Arrival::Version(first))?;
    arrivals.push(Arrival::Version(second))?;
    Ok(base)
}

/// One frame through a stage.
fn passed<R: Wait>(
    rt: &R,
    alloc: Global,
    frame: &[u8],
    parts: &StageParts,
    tally: &mut Tally,
    arrivals: &mut Vec<Arrival>,
) -> Result<u64, AllocError>
    requires two { length parts.now.touches ≡ 2 }
    requires modes { parts.now.modes ≡ modes_of parts.now.touches }
    requires none { arrivals.old.items ≡ [] }
    ensures none { OnOk result (arrivals.new.items ≡ []) }
{
    let whole = split(alloc, frame, 0, 0)?;
    let base = dealt(alloc, whole, parts, tally, arrivals)?;
    match merge(rt, base, arrivals) {
        Merged::Whole(back) => Ok(last_of(join(alloc, back)?.bytes())),
        _ => Ok(0),
    }
}

fn all_passed<R: Wait>(
    rt: &R,
    alloc: Global,
    frame: &[u8],
    parts: &StageParts,
) -> Result<u64, AllocError>
    requires two { length parts.now.touches ≡ 2 }
    requires modes { parts.now.modes ≡ modes_of parts.now.touches }
{
    let mut tally = Tally::new();
    let mut arrivals = Vec::with_capacity(alloc, 2)?;
    let mut sum = 0u64;
    for _round in 0..ROUNDS {
        sum = sum.wrapping_add(passed(rt, alloc, frame, parts, &mut tally, &mut arrivals)?);
    }
    Ok(sum)
}

fn run_one<R: Wait>(rt: &R, alloc: Global, work: &str, length: usize) -> Result<u64, AllocError> {
    let bytes = frame(alloc, length)?;
    match work {
        "copy" => copied(alloc, &bytes),
        "join" => joined(alloc, &bytes),
        "read" => all_passed(rt, alloc, &bytes, &readers(alloc)?),
        "write" => all_passed(rt, alloc, &bytes, &writers(alloc)?),
        _ => Ok(0),
    }
}

/// Does the work of each of the words, one after another.
pub fn measure<R: Alloc<A = Global> + Print + Wait>(rt: &R, words: &[String]) -> io::Result<()> {
    let length = usize::from(short(words, 0, 42));
    for work in words.iter().skip(1) {
        match run_one(rt, rt.alloc(), work.as_str(), length) {
            Ok(sum) => println!(rt; "{sum}")?,
            Err(_) => println!(rt; "no memory")?,
        }
    }
    Ok(())
}
