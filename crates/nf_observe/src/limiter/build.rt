//! Makes a limiter of the lines that declare it.

use crate::limiter::Limiter;
use crate::limiter::lines::LimiterLine;
use first_sight::FirstSeen;
use function_lines::read_lines;
use item_list::Items;
use policy_text::{BuildFault, FunctionDecl};
use std::alloc::Global;

impl Limiter {
    ghost use Rattle.std.specs.Prelude.{◌≡◌};
    ghost use Rattle.action_profile.specs.declared.kind.Kind.{Kind};
    ghost use Rattle.function_lines.specs.Builds.{Builds};
    ghost use Rattle.nf_observe.specs.LimiterLines.{limiter_lines};
    ghost use Rattle.nf_observe.specs.Limiters.{unset_limiter, with_line, limiter_by};

    /// Makes the limiter that is declared, which has seen no source, or returns the least line of the declaration that
    /// is refused: one that isn't a line of a limiter, a second `set rate` or `set burst`, or the `fn` line if one of
    /// them is missing.
    pub fn build(alloc: Global, decl: &FunctionDecl) -> Result<Limiter, BuildFault>
        requires { decl.now.kind ≡ Kind.Limiter }
        ensures { Builds limiter_lines limiter_by decl.now result }
    {
        let lines = read_lines::<LimiterLine>(alloc, decl)?;
        Ok(Limiter::of_lines(alloc, lines))
    }

    // The limiter that these lines set up, one after another.
    fn of_lines(alloc: Global, lines: Items<LimiterLine>) -> Limiter
        ensures { result ≡ limiter_by lines }
    {
        let mut limiter = Limiter::unset(alloc);
        'lines: for line in lines.into_vec() {
            limiter.take(line);
        }
        limiter
    }

    // The limiter before its lines are read.
    fn unset(alloc: Global) -> Limiter
        ensures { result ≡ unset_limiter }
    {
        Limiter {
            rate: 0,
            burst: 0,
            sources: FirstSeen::new(alloc),
        }
    }

    // Applies the line.
    fn take(&mut self, line: LimiterLine)
        ensures { self.new ≡ with_line self.old line }
    {
        match line {
            LimiterLine::Rate(rate) => self.rate = rate,
            LimiterLine::Burst(burst) => self.burst = burst,
        }
    }
}
