//! The plan of a chain.
ghost use Rattle.std.specs.Prelude.{◌≡◌, ◌<◌, ◌≤◌, ◌+◌, ◌++◌, length, All, OnOk};
ghost use Rattle.plan_text.specs.Plan.{chain_plan, stages_text};
ghost use Rattle.plan_text.specs.Putting.{IsShownFor};

use crate::pieces::{put_pieces, put_stages};
use graph_compile::Graph;
use policy_text::{ChainPolicy, FunctionDecl, names_at};
use std::alloc::{AllocError, Global};
use text_lines::Piece::Text;
use text_lines::{push_line, push_words};

/// Adds the plan of a chain. `order` has the chain's functions, counted from 0 as declared, in the order in which a
/// packet passes them. If a graph was written for the chain, its stages are shown, and otherwise those that are
/// compiled. The only error is that memory runs out; the content of `out` is then unspecified.
#[tactic(auto, unfolding(crate::specs::Plan::chain_plan))]
pub fn put_chain(
    alloc: Global,
    out: &mut Vec<u8>,
    chain: &ChainPolicy,
    order: &[u32],
    graph: &Option<Graph>,
) -> Result<(), AllocError>
    requires inside { All (λ p. p < length chain.now.functions) order.now }
    requires few { length order.now ≤ 64 }
    requires shown { IsShownFor chain.now.functions order.now graph.now }
    ensures { OnOk result (out.new.items ≡ out.old.items ++ chain_plan chain.now order.now graph.now) }
{
    let functions = chain.functions.as_slice();
    push_line(alloc, out, &[Text(b"chain "), Text(chain.name.bytes())])?;
    out.extend_from_slice(b"order".as_slice())?;
    push_words(out, &names_at(alloc, functions, order)?)?;
    out.push(b'\n')?;
    put_graph(alloc, out, functions, order, graph)
}

// Adds the stages of a chain.
#[tactic(auto, using(crate::proofs::Staging::few_written))]
fn put_graph(
    alloc: Global,
    out: &mut Vec<u8>,
    functions: &[FunctionDecl],
    order: &[u32],
    graph: &Option<Graph>,
) -> Result<(), AllocError>
    requires inside { All (λ p. p < length functions.now) order.now }
    requires few { length order.now ≤ 64 }
    requires shown { IsShownFor functions.now order.now graph.now }
    ensures { OnOk result (out.new.items ≡ out.old.items ++ stages_text functions.now order.now graph.now) }
{
    match graph {
        Some(graph) => put_stages(alloc, out, functions, order, graph.stages.as_slice(), 1),
        None => put_pieces(alloc, out, functions, order),
    }
}
