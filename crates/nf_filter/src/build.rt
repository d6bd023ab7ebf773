//! Makes a firewall of the lines that declare it.

use crate::firewall::{Firewall, GuardedRule};
use crate::lines::FirewallLine;
use function_lines::{FitRules, read_lines};
use item_list::Items;
use policy_text::{BuildFault, FunctionDecl};
use std::alloc::{AllocError, Global};
use std::marker::Model;

impl Firewall {
    ghost use Rattle.std.specs.Prelude.{◌≡◌, IfOk};
    ghost use Rattle.action_profile.specs.declared.kind.Kind.{Kind};
    ghost use Rattle.function_lines.specs.Builds.{Builds};
    ghost use Rattle.nf_filter.specs.Lines.{firewall_lines};
    ghost use Rattle.nf_filter.specs.Firewalls.{firewall_by};

    /// Makes the firewall that is declared, or returns the least line of the declaration that is refused: one that
    /// isn't a line of a firewall, or a second `set default`.
    pub fn build(alloc: Global, decl: &FunctionDecl) -> Result<Firewall, BuildFault>
        requires { decl.now.kind ≡ Kind.Firewall }
        ensures { Builds firewall_lines firewall_by decl.now result }
    {
        let lines = read_lines::<FirewallLine>(alloc, decl)?;
        Ok(Firewall::of_lines(alloc, lines)?)
    }

    // The firewall that these lines set up, one after another.
    fn of_lines(alloc: Global, lines: Items<FirewallLine>) -> Result<Firewall, AllocError>
        ensures { IfOk result (λ firewall. firewall ≡ firewall_by lines) }
    {
        let mut draft = Draft::open(alloc);
        'lines: for line in lines.into_vec() {
            draft.take(line)?;
        }
        draft.into_firewall(alloc)
    }
}

/// A firewall that may still get rules.
#[derive(Drop)]
struct Draft {
    default: bool,
    rules: Items<GuardedRule>,
}

impl Model for Draft {
    ghost use Rattle.nf_filter.specs.declared.firewall.Firewall.{Firewall};

    ghost Value = { Firewall };

    ghost view = { λ d. record { default = d.default; rules = d.rules } };
}

impl Draft {
    ghost use Rattle.std.specs.Prelude.{◌≡◌, IfOk, OnOk};
    ghost use Rattle.nf_filter.specs.Firewalls.{open_firewall, with_line};

    // Without rules, allowing every packet.
    fn open(alloc: Global) -> Draft
        ensures { result ≡ open_firewall }
    {
        Draft {
            default: true,
            rules: Items::new(Vec::new(alloc)),
        }
    }

    // Applies the line.
    fn take(&mut self, line: FirewallLine) -> Result<(), AllocError>
        ensures { OnOk result (self.new ≡ with_line self.old line) }
    {
        match line {
            FirewallLine::Default(allow) => self.default = allow,
            FirewallLine::Rule(rule) => self.rules.push(GuardedRule::new(rule))?,
        }
        Ok(())
    }

    // The firewall, with its rules ready to be shared.
    fn into_firewall(self, alloc: Global) -> Result<Firewall, AllocError>
        ensures { IfOk result (λ firewall. firewall ≡ self) }
    {
        let Draft { default, rules } = self;
        let rules = FitRules::new(alloc, rules)?;
        Ok(Firewall { default, rules })
    }
}
