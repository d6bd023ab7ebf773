//! The lines of a stage's branches.
ghost use Rattle.std.specs.Prelude.{◌≡◌, ◌++◌, OnOk, map};
ghost use Rattle.text_lines.specs.Texts.{spaced};
ghost use Rattle.plan_text.specs.Plan.{name_in, numbered, branch_text};

use crate::functions::name_in;
use graph_compile::Branch;
use policy_text::FunctionDecl;
use std::alloc::{AllocError, Global};
use text_lines::Piece::{Number, Text};
use text_lines::{push_pieces, push_word};

/// Adds the lines of branches, counted from 1.
pub(crate) fn put_branches(
    alloc: Global,
    out: &mut Vec<u8>,
    functions: &[FunctionDecl],
    order: &[u32],
    branches: &[Branch],
) -> Result<(), AllocError>
    ensures { OnOk result (out.new.items ≡ out.old.items ++ numbered (branch_text functions.now order.now) 1 branches.now) }
{
    'branches: for (index, branch) in branches.iter().enumerate() {
        put_branch(alloc, out, functions, order, index + 1, branch)?;
    }
    Ok(())
}

#[tactic(auto, unfolding(crate::specs::Plan::branch_text))]
fn put_branch(
    alloc: Global,
    out: &mut Vec<u8>,
    functions: &[FunctionDecl],
    order: &[u32],
    number: usize,
    branch: &Branch,
) -> Result<(), AllocError>
    ensures { OnOk result (out.new.items ≡ out.old.items ++ branch_text functions.now order.now number branch.now) }
{
    push_pieces(alloc, out, &[Text(b"branch "), Number(number as u64)])?;
    put_names(out, functions, order, branch.positions.as_slice())?;
    out.push(b'\n')?;
    Ok(())
}

fn put_names(
    out: &mut Vec<u8>,
    functions: &[FunctionDecl],
    order: &[u32],
    positions: &[u32],
) -> Result<(), AllocError>
    ensures { OnOk result (out.new.items ≡ out.old.items ++ spaced (map (name_in functions.now order.now) positions.now)) }
{
    'positions: for position in positions {
        push_word(out, name_in(functions, order, *position))?;
    }
    Ok(())
}
