//! Makes a tagger of the lines that declare it.

use crate::tagger::{TagRule, Tagger};
use function_lines::{FitRules, read_lines};
use policy_text::{BuildFault, FunctionDecl};
use std::alloc::Global;

impl Tagger {
    ghost use Rattle.std.specs.Prelude.{◌≡◌};
    ghost use Rattle.action_profile.specs.declared.kind.Kind.{Kind};
    ghost use Rattle.function_lines.specs.Builds.{Builds};
    ghost use Rattle.nf_mark.specs.TaggerLines.{tagger_lines};
    ghost use Rattle.nf_mark.specs.Taggers.{tagger_by};

    /// Makes the tagger that is declared, or returns the least line of the declaration that is refused: one that isn't
    /// a rule of a tagger, such as one with a clause on anything but the source address.
    pub fn build(alloc: Global, decl: &FunctionDecl) -> Result<Tagger, BuildFault>
        requires { decl.now.kind ≡ Kind.Tagger }
        ensures { Builds tagger_lines tagger_by decl.now result }
    {
        let rules = read_lines::<TagRule>(alloc, decl)?;
        Ok(Tagger {
            rules: FitRules::new(alloc, rules)?,
        })
    }
}
