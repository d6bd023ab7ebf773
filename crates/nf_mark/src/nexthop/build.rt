//! Makes a nexthop of the lines that declare it.

use crate::nexthop::{Nexthop, NexthopRule};
use function_lines::{FitRules, read_lines};
use policy_text::{BuildFault, FunctionDecl};
use std::alloc::Global;

impl Nexthop {
    ghost use Rattle.std.specs.Prelude.{◌≡◌};
    ghost use Rattle.action_profile.specs.declared.kind.Kind.{Kind};
    ghost use Rattle.function_lines.specs.Builds.{Builds};
    ghost use Rattle.nf_mark.specs.NexthopLines.{nexthop_lines};
    ghost use Rattle.nf_mark.specs.Nexthops.{nexthop_by};

    /// Makes the nexthop that is declared, or returns the least line of the declaration that is refused: one that isn't
    /// a rule of a nexthop.
    pub fn build(alloc: Global, decl: &FunctionDecl) -> Result<Nexthop, BuildFault>
        requires { decl.now.kind ≡ Kind.Nexthop }
        ensures { Builds nexthop_lines nexthop_by decl.now result }
    {
        let rules = read_lines::<NexthopRule>(alloc, decl)?;
        Ok(Nexthop {
            rules: FitRules::new(alloc, rules)?,
        })
    }
}
