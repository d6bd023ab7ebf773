//! All functions of a chain in one branch.

ghost use Rattle.std.specs.Prelude.{◌≡◌, ◌≤◌, true, length, IfOk};
ghost use Rattle.std.specs.List.{range_with_len};
ghost use Rattle.graph_compile.specs.Facts.{IsLawful, IsFull};
ghost use Rattle.graph_compile.specs.InARow.{copies_nothing, graph_in_a_row, row_of};

use crate::draft::Draft;
use crate::graph::{Branch, Graph};
use crate::placing::finished;
use action_profile::Profile;
use item_list::Items;
use std::alloc::{AllocError, Global};

/// The graph of a chain whose functions are all in one branch, one after another, so that no field is copied. The only
/// error is that memory runs out.
pub fn in_a_row(alloc: Global, profiles: &[Profile]) -> Result<Graph, AllocError>
    requires { length profiles.now ≤ 64 }
    ensures is { IfOk result (λ graph. graph ≡ graph_in_a_row profiles.now) }
    ensures lawful { IfOk result (λ graph. IsLawful graph profiles.now) }
    ensures full { IfOk result IsFull }
    ensures uncopied { IfOk result (λ graph. copies_nothing graph.stages ≡ true) }
{
    graph_in_a_row(alloc, profiles)
}

fn graph_in_a_row(alloc: Global, profiles: &[Profile]) -> Result<Graph, AllocError>
    requires { length profiles.now ≤ 64 }
    ensures { IfOk result (λ graph. graph ≡ graph_in_a_row profiles.now) }
{
    let row = Draft {
        stages: Items::new(Vec::new(alloc)),
        branches: row_of(alloc, profiles.len())?,
    };
    finished(alloc, profiles, row)
}

// The branch of `count` functions, or no branch if there are none.
fn row_of(alloc: Global, count: usize) -> Result<Items<Branch>, AllocError>
    requires { count ≤ 64 }
    ensures { IfOk result (λ branches. branches ≡ row_of count) }
{
    let mut branches = Items::new(Vec::new(alloc));
    if count > 0 {
        let positions = positions_up_to(alloc, count)?;
        branches.push(Branch { positions })?;
    }
    Ok(branches)
}

fn positions_up_to(alloc: Global, count: usize) -> Result<Items<u32>, AllocError>
    requires { count ≤ 64 }
    ensures { IfOk result (λ positions. positions ≡ range_with_len 1 count) }
{
    let mut positions = Items::new(Vec::new(alloc));
    'row: for index in 0..count {
        positions.push(index as u32 + 1)?;
    }
    Ok(positions)
}
