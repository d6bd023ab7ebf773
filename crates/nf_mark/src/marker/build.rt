//! Makes a marker of the lines that declare it.

use crate::marker::{MarkRule, Marker};
use function_lines::{FitRules, read_lines};
use policy_text::{BuildFault, FunctionDecl};
use std::alloc::Global;

impl Marker {
    ghost use Rattle.std.specs.Prelude.{◌≡◌};
    ghost use Rattle.action_profile.specs.declared.kind.Kind.{Kind};
    ghost use Rattle.function_lines.specs.Builds.{Builds};
    ghost use Rattle.nf_mark.specs.MarkerLines.{marker_lines};
    ghost use Rattle.nf_mark.specs.Markers.{marker_by};

    /// Makes the marker that is declared, or returns the least line of the declaration that is refused: one that isn't
    /// a rule of a marker, such as one with a clause on tags.
    pub fn build(alloc: Global, decl: &FunctionDecl) -> Result<Marker, BuildFault>
        requires { decl.now.kind ≡ Kind.Marker }
        ensures { Builds marker_lines marker_by decl.now result }
    {
        let rules = read_lines::<MarkRule>(alloc, decl)?;
        Ok(Marker {
            rules: FitRules::new(alloc, rules)?,
        })
    }
}
