//! The lines that set a nexthop up.
ghost use Rattle.std.specs.Prelude.{◌≡◌, IfOk};
ghost use Rattle.nf_mark.specs.NexthopLines.{rule_of};

use crate::link_address::{LinkAddress, read_link};
use crate::nexthop::NexthopRule;
use function_lines::FunctionLine;
use item_list::Items;
use policy_text::{Clause, Match, Word, clause_of};
use std::alloc::{AllocError, Global};

impl FunctionLine for NexthopRule {
    ghost use Rattle.nf_mark.specs.NexthopLines.{nexthop_lines};

    ghost kind_lines = { nexthop_lines };

    #[tactic(auto, unfolding(crate::specs::NexthopLines::line_of))]
    fn read(alloc: Global, words: &[Word]) -> Result<Option<NexthopRule>, AllocError> {
        if words.len() == 6
            && words[0].bytes() == b"rule".as_slice()
            && words[2].bytes() == b"to".as_slice()
            && words[4].bytes() == b"from".as_slice()
        {
            let link_dst = read_link(words[3].bytes());
            let link_src = read_link(words[5].bytes());
            rule_of(
                alloc,
                clause_of(b"dst", words[1].bytes()),
                link_dst,
                link_src,
            )
        } else {
            Ok(None)
        }
    }

    // A nexthop has no required line.
    fn lacks_one(_lines: &[NexthopRule]) -> bool {
        false
    }

    fn clashes(_lines: &[NexthopRule], _line: &Option<NexthopRule>) -> bool {
        false
    }
}

fn rule_of(
    alloc: Global,
    clause: Option<Clause>,
    link_dst: Option<LinkAddress>,
    link_src: Option<LinkAddress>,
) -> Result<Option<NexthopRule>, AllocError>
    ensures { IfOk result (λ rule. rule ≡ rule_of clause link_dst link_src) }
{
    let Some(clause) = clause else {
        return Ok(None);
    };
    let Some(link_dst) = link_dst else {
        return Ok(None);
    };
    let Some(link_src) = link_src else {
        return Ok(None);
    };
    let mut clauses = Items::new(Vec::new(alloc));
    clauses.push(clause)?;
    Ok(Some(NexthopRule {
        fit: Match { clauses },
        link_dst,
        link_src,
    }))
}
