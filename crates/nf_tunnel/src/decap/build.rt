//! Makes the exit of a tunnel of the line that declares it.

use crate::address::ipv4_address;
use crate::decap::Decap;
use crate::decap::lines::ExitLine;
use function_lines::read_lines;
use item_list::Items;
use policy_text::{BuildFault, FunctionDecl};
use std::alloc::Global;

impl Decap {
    ghost use Rattle.std.specs.Prelude.{◌≡◌};
    ghost use Rattle.action_profile.specs.declared.kind.Kind.{Kind};
    ghost use Rattle.function_lines.specs.Builds.{Builds};
    ghost use Rattle.nf_tunnel.specs.TunnelLines.{exit_lines};
    ghost use Rattle.nf_tunnel.specs.Ends.{unset_decap, with_exit_line, decap_by};

    /// Makes the exit that is declared, or returns the least line of the declaration that is refused: one that isn't a
    /// line of an exit, a second `set exit`, or the `fn` line if there is no `set exit`.
    pub fn build(alloc: Global, decl: &FunctionDecl) -> Result<Decap, BuildFault>
        requires { decl.now.kind ≡ Kind.Decap }
        ensures { Builds exit_lines decap_by decl.now result }
    {
        let lines = read_lines::<ExitLine>(alloc, decl)?;
        Ok(Decap::of_lines(lines))
    }

    // The exit that these lines set up, one after another.
    fn of_lines(lines: Items<ExitLine>) -> Decap
        ensures { result ≡ decap_by lines }
    {
        let mut decap = Decap::unset();
        'lines: for line in lines.into_vec() {
            decap.take(line);
        }
        decap
    }

    // The exit before its line is read.
    fn unset() -> Decap
        ensures { result ≡ unset_decap }
    {
        Decap {
            exit: ipv4_address(0),
        }
    }

    // Applies the line.
    fn take(&mut self, line: ExitLine)
        ensures { self.new ≡ with_exit_line self.old line }
    {
        match line {
            ExitLine::Exit(address) => self.exit = address,
        }
    }
}
