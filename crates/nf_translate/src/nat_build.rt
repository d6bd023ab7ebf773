//! Makes a translation of the lines that declare it.

use crate::nat::{Nat, NatSettings};
use crate::nat_lines::NatLine;
use function_lines::read_lines;
use item_list::Items;
use policy_text::{BuildFault, FunctionDecl};
use std::alloc::Global;

impl Nat {
    ghost use Rattle.std.specs.Prelude.{◌≡◌};
    ghost use Rattle.action_profile.specs.declared.kind.Kind.{Kind};
    ghost use Rattle.function_lines.specs.Builds.{Builds};
    ghost use Rattle.nf_translate.specs.NatLines.{nat_lines};
    ghost use Rattle.nf_translate.specs.Nats.{nat_by};

    /// Makes the translation that is declared, or returns the least line of the declaration that is refused: one that
    /// isn't a line of a translation, a second `set` of a key, or the `fn` line if one of the three is missing.
    pub fn build(alloc: Global, decl: &FunctionDecl) -> Result<Nat, BuildFault>
        requires { decl.now.kind ≡ Kind.Nat }
        ensures { Builds nat_lines nat_by decl.now result }
    {
        let lines = read_lines::<NatLine>(alloc, decl)?;
        Ok(Nat::new(alloc, NatSettings::of_lines(lines)))
    }
}

impl NatSettings {
    ghost use Rattle.std.specs.Prelude.{◌≡◌};
    ghost use Rattle.nf_translate.specs.Nats.{settings_by, with_line};

    // The settings in these lines, one after another.
    fn of_lines(lines: Items<NatLine>) -> NatSettings
        ensures { result ≡ settings_by lines }
    {
        let mut settings = NatSettings {
            inside: 0,
            inside_bits: 0,
            public_address: 0,
            low: 0,
            high: 0,
        };
        'lines: for line in lines.into_vec() {
            settings.take(line);
        }
        settings
    }

    // Applies the line.
    fn take(&mut self, line: NatLine)
        ensures { self.new ≡ with_line self.old line }
    {
        match line {
            NatLine::Inside(prefix, bits) => {
                self.inside = prefix;
                self.inside_bits = bits;
            }
            NatLine::Public(address) => self.public_address = address,
            NatLine::Ports(low, high) => {
                self.low = low;
                self.high = high;
            }
        }
    }
}
