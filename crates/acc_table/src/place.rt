//! The rows of a table, and the row in which a packet's values are kept.
ghost use Rattle.std.specs.Prelude.{◌≡◌, ◌<◌, IfOk, None, Some, length, replicate, slice_set};
ghost use Rattle.acc_table.specs.Arrivals.{heads_for, nothing};
ghost use Rattle.acc_table.specs.Links.{AreLinked, owners};
ghost use Rattle.acc_table.specs.Rows.{Absent, IsPlaceFor, opened};

use crate::links::Links;
use crate::row::Row;
use std::alloc::{AllocError, Global};

/// This number of free rows.
pub fn free_rows<T: Drop>(
    alloc: Global,
    count: usize,
    branches: usize,
) -> Result<Vec<Row<T>>, AllocError>
    ensures { IfOk result (λ v. v.items ≡ replicate count (record { pid = None; arrived = nothing branches })) }
{
    let mut rows = Vec::with_capacity(alloc, count)?;
    for _i in 0..count {
        rows.push(Row::free(alloc, branches)?)?;
    }
    Ok(rows)
}

/// The packet's row, or a free one, which is then put into the packet's bucket.
pub fn place_for<T: Drop>(rows: &[Row<T>], links: &mut Links, pid: u32) -> usize
    requires linked { AreLinked (heads_for (length rows.now)) (owners rows.now) links.old }
    requires room { Absent pid rows.now → length (opened rows.now) < length rows.now }
    ensures place { IsPlaceFor pid rows.now result }
    ensures linked { AreLinked (heads_for (length rows.now)) (slice_set (owners rows.now) result (Some pid)) links.new }
{
    match links.row_of(rows, pid) {
        Some(place) => place,
        None => links.take_first(pid),
    }
}
