//! Makes the entry of a tunnel of the lines that declare it.

use crate::address::ipv4_address;
use crate::encap::Encap;
use crate::encap::lines::EntryLine;
use function_lines::read_lines;
use item_list::Items;
use policy_text::{BuildFault, FunctionDecl};
use std::alloc::Global;

impl Encap {
    ghost use Rattle.std.specs.Prelude.{◌≡◌};
    ghost use Rattle.action_profile.specs.declared.kind.Kind.{Kind};
    ghost use Rattle.function_lines.specs.Builds.{Builds};
    ghost use Rattle.nf_tunnel.specs.TunnelLines.{entry_lines};
    ghost use Rattle.nf_tunnel.specs.Ends.{unset_encap, with_entry_line, encap_by};

    /// Makes the entry that is declared, or returns the least line of the declaration that is refused: one that isn't a
    /// line of an entry, a second `set` of a key, or the `fn` line if one of the three is missing.
    pub fn build(alloc: Global, decl: &FunctionDecl) -> Result<Encap, BuildFault>
        requires { decl.now.kind ≡ Kind.Encap }
        ensures { Builds entry_lines encap_by decl.now result }
    {
        let lines = read_lines::<EntryLine>(alloc, decl)?;
        Ok(Encap::of_lines(lines))
    }

    // The entry that these lines set up, one after another.
    fn of_lines(lines: Items<EntryLine>) -> Encap
        ensures { result ≡ encap_by lines }
    {
        let mut encap = Encap::unset();
        'lines: for line in lines.into_vec() {
            encap.take(line);
        }
        encap
    }

    // The entry before its lines are read.
    fn unset() -> Encap
        ensures { result ≡ unset_encap }
    {
        Encap {
            entry: ipv4_address(0),
            exit: ipv4_address(0),
            ttl: 0,
        }
    }

    // Applies the line.
    fn take(&mut self, line: EntryLine)
        ensures { self.new ≡ with_entry_line self.old line }
    {
        match line {
            EntryLine::Entry(address) => self.entry = address,
            EntryLine::Exit(address) => self.exit = address,
            EntryLine::Ttl(ttl) => self.ttl = ttl,
        }
    }
}
