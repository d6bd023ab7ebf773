//! The summary of a demo: what was made, the result, and the lengths and weights of the texts.
ghost use Rattle.std.specs.Prelude.{◌≡◌, ◌++◌, OnOk, OnErr};
ghost use Rattle.demo_capture.specs.Summary.{demo_line, records_line, weighed_line, summary_text};

use std::alloc::{AllocError, Global};
use text_lines::Piece::{Number, Text};
use text_lines::push_line;

/// The length of a text in bytes, and its weight.
#[derive(Clone, Copy, Debug, PartialEq, Eq)]
pub struct Weighed {
    pub bytes: u64,
    pub weight: u64,
}

/// The numbers of a summary.
#[derive(Clone, Copy, Debug, PartialEq, Eq)]
pub struct Summary {
    pub seed: u64,
    pub count: u32,
    /// The number of records that ran through the policy, and of packets by their fate.
    pub records: u64,
    pub emitted: u64,
    pub dropped: u64,
    /// The texts that were written to Out and to Report.
    pub out: Weighed,
    pub report: Weighed,
}

/// Adds the four lines of a summary to a text, or nothing if there is no memory.
pub fn push_summary(alloc: Global, text: &mut Vec<u8>, summary: &Summary) -> Result<(), AllocError>
    ensures ok { OnOk result (text.new.items ≡ text.old.items ++ summary_text summary.now) }
    ensures err { OnErr result (text.new.items ≡ text.old.items) }
{
    let mut lines = Vec::new(alloc);
    push_lines(alloc, &mut lines, summary)?;
    text.extend_from_slice(&lines)
}

// Adds the four lines.
fn push_lines(alloc: Global, text: &mut Vec<u8>, summary: &Summary) -> Result<(), AllocError>
    ensures { OnOk result (text.new.items ≡ text.old.items ++ summary_text summary.now) }
{
    push_demo_line(alloc, text, summary.seed, summary.count)?;
    push_records_line(
        alloc,
        text,
        summary.records,
        summary.emitted,
        summary.dropped,
    )?;
    push_weighed_line(alloc, text, b"out", summary.out)?;
    push_weighed_line(alloc, text, b"report", summary.report)
}

// `demo SEED COUNT`
#[tactic(auto, unfolding(crate::specs::Summary::demo_line))]
fn push_demo_line(
    alloc: Global,
    text: &mut Vec<u8>,
    seed: u64,
    count: u32,
) -> Result<(), AllocError>
    ensures { OnOk result (text.new.items ≡ text.old.items ++ demo_line seed count) }
{
    let count = u64::from(count);
    push_line(
        alloc,
        text,
        &[Text(b"demo "), Number(seed), Text(b" "), Number(count)],
    )
}

// `records N emitted E dropped D`
#[tactic(auto, unfolding(crate::specs::Summary::records_line))]
fn push_records_line(
    alloc: Global,
    text: &mut Vec<u8>,
    records: u64,
    emitted: u64,
    dropped: u64,
) -> Result<(), AllocError>
    ensures { OnOk result (text.new.items ≡ text.old.items ++ records_line records emitted dropped) }
{
    push_line(
        alloc,
        text,
        &[
            Text(b"records "),
            Number(records),
            Text(b" emitted "),
            Number(emitted),
            Text(b" dropped "),
            Number(dropped),
        ],
    )
}

// `NAME BYTES WEIGHT`
#[tactic(auto, unfolding(crate::specs::Summary::weighed_line))]
fn push_weighed_line(
    alloc: Global,
    text: &mut Vec<u8>,
    name: &[u8],
    weighed: Weighed,
) -> Result<(), AllocError>
    ensures { OnOk result (text.new.items ≡ text.old.items ++ weighed_line name.now weighed) }
{
    push_line(
        alloc,
        text,
        &[
            Text(name),
            Text(b" "),
            Number(weighed.bytes),
            Text(b" "),
            Number(weighed.weight),
        ],
    )
}
