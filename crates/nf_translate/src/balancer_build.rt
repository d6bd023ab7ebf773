//! Makes a balancer of the lines that declare it.

use crate::balancer::{Balancer, BalancerSettings};
use crate::balancer_lines::{BalancerLine, virtual_address_by};
use function_lines::read_lines;
use item_list::Items;
use policy_text::{BuildFault, FunctionDecl};
use std::alloc::{AllocError, Global};
use std::net::IpAddr;

impl Balancer {
    ghost use Rattle.std.specs.Prelude.{◌≡◌};
    ghost use Rattle.action_profile.specs.declared.kind.Kind.{Kind};
    ghost use Rattle.function_lines.specs.Builds.{Builds};
    ghost use Rattle.nf_translate.specs.BalancerLines.{balancer_lines};
    ghost use Rattle.nf_translate.specs.Balancers.{balancer_by};

    /// Makes the balancer that is declared, or returns the least line of the declaration that is refused: one that
    /// isn't a line of a balancer, a second `set vip`, a backend of another version of IP than the virtual address, or
    /// the `fn` line if there is no `set vip` or no `rule backend`.
    #[tactic(auto, using(crate::proofs::Building::has_backends))]
    pub fn build(alloc: Global, decl: &FunctionDecl) -> Result<Balancer, BuildFault>
        requires { decl.now.kind ≡ Kind.Balancer }
        ensures { Builds balancer_lines balancer_by decl.now result }
    {
        let lines = read_lines::<BalancerLine>(alloc, decl)?;
        let settings = BalancerSettings::of_lines(alloc, lines)?;
        Ok(Balancer::new(alloc, settings))
    }
}

impl BalancerSettings {
    ghost use Rattle.std.specs.Prelude.{◌≡◌, IfOk};
    ghost use Rattle.nf_translate.specs.Balancers.{settings_by};

    // The settings in these lines.
    fn of_lines(alloc: Global, lines: Items<BalancerLine>) -> Result<BalancerSettings, AllocError>
        ensures { IfOk result (λ settings. settings ≡ settings_by lines) }
    {
        let virtual_address = match virtual_address_by(lines.as_slice()) {
            Some(address) => address,
            None => IpAddr::from([0, 0, 0, 0]),
        };
        let backends = backends_of(alloc, lines)?;
        Ok(BalancerSettings {
            virtual_address,
            backends,
        })
    }
}

ghost use Rattle.std.specs.Prelude.{◌≡◌, ◌++◌, IfOk, OnOk, filter_map};
ghost use Rattle.std.specs.Option.{option_to_list};
ghost use Rattle.nf_translate.specs.BalancerLines.{backend_in};

// The backends that these lines add, in order.
#[tactic(auto, using(crate::proofs::Building::one_more))]
fn backends_of(alloc: Global, lines: Items<BalancerLine>) -> Result<Items<IpAddr>, AllocError>
    ensures { IfOk result (λ backends. backends ≡ filter_map backend_in lines) }
{
    let mut backends = Items::new(Vec::new(alloc));
    'lines: for line in lines.into_vec() {
        add_backend(&mut backends, line)?;
    }
    Ok(backends)
}

// Adds the backend of the line, if it adds one.
fn add_backend(backends: &mut Items<IpAddr>, line: BalancerLine) -> Result<(), AllocError>
    ensures { OnOk result (backends.new ≡ backends.old ++ option_to_list (backend_in line)) }
{
    if let BalancerLine::Backend(address) = line {
        backends.push(address)?;
    }
    Ok(())
}
