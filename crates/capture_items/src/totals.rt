//! The totals of a capture, and their line.
ghost use Rattle.std.specs.Prelude.{◌≡◌, ◌≤◌, ◌++◌, IfOk, OnOk};
ghost use Rattle.capture_items.specs.Totals.{total_line};

use std::alloc::{AllocError, Global};
use text_lines::Piece::{Number, Text};
use text_lines::join;

/// The number of records that were read, and of their packets that were dropped.
#[derive(Clone, Copy, Debug, PartialEq, Eq)]
pub struct Totals {
    pub records: u64,
    pub dropped: u64,
}

/// `records N emitted E dropped D`
#[tactic(auto, unfolding(crate::specs::Totals::total_line))]
pub fn totals_line(alloc: Global, totals: Totals) -> Result<Vec<u8>, AllocError>
    requires { totals.dropped ≤ totals.records }
    ensures { IfOk result (λ v. v.items ≡ total_line totals.records totals.dropped) }
{
    join(
        alloc,
        &[
            Text(b"records "),
            Number(totals.records),
            Text(b" emitted "),
            Number(totals.records - totals.dropped),
            Text(b" dropped "),
            Number(totals.dropped),
            Text(b"\n"),
        ],
    )
}

/// Adds the line of the totals.
pub fn push_totals_line(alloc: Global, text: &mut Vec<u8>, totals: Totals) -> Result<(), AllocError>
    requires { totals.dropped ≤ totals.records }
    ensures { OnOk result (text.new.items ≡ text.old.items ++ total_line totals.records totals.dropped) }
{
    let line = totals_line(alloc, totals)?;
    text.extend_from_slice(&line)
}
