//! The line that reports why a text of graphs is refused.
ghost use Rattle.std.specs.Prelude.{◌≡◌, IfOk};
ghost use Rattle.nfp_run.specs.GraphLines.{forbidden_line, graph_at_line, graph_line, name_in, pair_line};

use graph_text::{GraphFault, functions_at};
use policy_judge::action_text;
use policy_text::{ChainPolicy, name_at};
use std::alloc::{AllocError, Global};
use text_lines::Piece::{Number, Text};
use text_lines::line;

/// The line of a fault of graphs for these chains.
#[tactic(auto, unfolding(crate::specs::GraphLines::graph_line))]
pub fn graph_line(
    alloc: Global,
    chains: &[ChainPolicy],
    fault: &GraphFault,
) -> Result<Vec<u8>, AllocError>
    ensures { IfOk result (λ line. line.items ≡ graph_line chains.now fault.now) }
{
    match fault {
        GraphFault::TooLong => line(alloc, &[Text(b"graph: too long")]),
        GraphFault::NotUtf8(place) => line(
            alloc,
            &[Text(b"graph: not utf-8 at "), Number(*place as u64)],
        ),
        GraphFault::BadVersionLine => line(alloc, &[Text(b"graph: bad version line")]),
        GraphFault::Syntax(number) => at_line(alloc, *number, b"syntax"),
        GraphFault::UnknownName(number) => at_line(alloc, *number, b"unknown name"),
        GraphFault::Twice(number) => at_line(alloc, *number, b"twice"),
        GraphFault::WholeChain(number) => at_line(alloc, *number, b"whole chain"),
        GraphFault::Missing(chain, function) => line(
            alloc,
            &[
                Text(b"graph: missing "),
                Text(name_in(chains, *chain, *function)),
            ],
        ),
        GraphFault::OutOfOrder(chain, first, second) => pair_line(
            alloc,
            name_in(chains, *chain, *first),
            name_in(chains, *chain, *second),
            b" out of order",
        ),
        GraphFault::Forbidden(chain, first, second, action, later) => {
            let action = action_text(alloc, *action)?;
            let later = action_text(alloc, *later)?;
            let first = name_in(chains, *chain, *first);
            let second = name_in(chains, *chain, *second);
            forbidden_line(alloc, first, second, &action, &later)
        }
    }
}

// The fault of a line of the text.
#[tactic(auto, unfolding(crate::specs::GraphLines::graph_at_line))]
fn at_line(alloc: Global, number: u32, fault: &[u8]) -> Result<Vec<u8>, AllocError>
    ensures { IfOk result (λ line. line.items ≡ graph_at_line number fault.now) }
{
    line(
        alloc,
        &[
            Text(b"graph: line "),
            Number(number as u64),
            Text(b": "),
            Text(fault),
        ],
    )
}

// The name of a function of a chain.
fn name_in(chains: &[ChainPolicy], chain: u32, function: u32) -> &[u8]
    ensures { result.now ≡ name_in chains.now chain function }
{
    name_at(functions_at(chains, chain), function)
}

// The fault of one function before another.
#[tactic(auto, unfolding(crate::specs::GraphLines::pair_line))]
fn pair_line<'a>(
    alloc: Global,
    first: &'a [u8],
    second: &'a [u8],
    fault: &'a [u8],
) -> Result<Vec<u8>, AllocError>
    ensures { IfOk result (λ line. line.items ≡ pair_line first.now second.now fault.now) }
{
    line(
        alloc,
        &[
            Text(b"graph: "),
            Text(first),
            Text(b" before "),
            Text(second),
            Text(fault),
        ],
    )
}

// The fault of two functions side by side, with the action of the one that must come before that of the other.
#[tactic(auto, unfolding(crate::specs::GraphLines::forbidden_line))]
fn forbidden_line<'a>(
    alloc: Global,
    first: &'a [u8],
    second: &'a [u8],
    action: &'a [u8],
    later: &'a [u8],
) -> Result<Vec<u8>, AllocError>
    ensures { IfOk result (λ line. line.items ≡ forbidden_line first.now second.now action.now later.now) }
{
    line(
        alloc,
        &[
            Text(b"graph: "),
            Text(first),
            Text(b" before "),
            Text(second),
            Text(b" forbidden: "),
            Text(action),
            Text(b" before "),
            Text(later),
        ],
    )
}
