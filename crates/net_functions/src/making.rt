//! Makes the function that a policy declares.
ghost use Rattle.std.specs.Prelude.{◌≡◌, false};
ghost use Rattle.action_profile.specs.Profiles.{profile_of};
ghost use Rattle.net_functions.specs.Builds.{Builds, as_made};

use crate::net_function::NetFunction;
use action_profile::Kind;
use nf_filter::{Firewall, Signature};
use nf_mark::{Hop, Marker, Nexthop, Redactor, Tagger, Untagger};
use nf_observe::{Limiter, Monitor};
use nf_translate::{Balancer, Nat};
use nf_tunnel::{Decap, Encap};
use policy_text::{BuildFault, FunctionDecl};
use std::alloc::Global;

/// A function that a policy declares: one of those that see a packet's fields, or an end of a tunnel, which rewrites it whole.
#[derive(Debug, Drop)]
pub enum Made {
    /// Sees a packet's fields, and changes no more than its kind may.
    Function(NetFunction),
    /// Puts packets into packets (RFC 2003).
    Encap(Encap),
    /// Takes packets out of packets (RFC 2003).
    Decap(Decap),
}

/// Makes the function that is declared, of any kind, or returns the least line of the declaration that is refused.
#[tactic(auto, unfolding(crate::specs::Builds::making_of))]
pub fn make(alloc: Global, decl: &FunctionDecl) -> Result<Made, BuildFault>
    ensures { Builds decl.now result }
{
    match decl.kind {
        Kind::Encap => Ok(Made::Encap(Encap::build(alloc, decl)?)),
        Kind::Decap => Ok(Made::Decap(Decap::build(alloc, decl)?)),
        _ => Ok(Made::Function(build(alloc, decl)?)),
    }
}

/// Makes the function that is declared, which isn't an end of a tunnel, or returns the least line of the declaration
/// that is refused.
#[tactic(auto, unfolding(crate::specs::Builds::making_of))]
pub fn build(alloc: Global, decl: &FunctionDecl) -> Result<NetFunction, BuildFault>
    requires { (profile_of decl.now.kind).whole ≡ false }
    ensures { Builds decl.now (as_made result) }
{
    match decl.kind {
        Kind::Firewall => Ok(NetFunction::Firewall(Firewall::build(alloc, decl)?)),
        Kind::Nat => Ok(NetFunction::Nat(Nat::build(alloc, decl)?)),
        Kind::Balancer => Ok(NetFunction::Balancer(Balancer::build(alloc, decl)?)),
        Kind::Monitor => Ok(NetFunction::Monitor(Monitor::build(alloc, decl)?)),
        Kind::Limiter => Ok(NetFunction::Limiter(Limiter::build(alloc, decl)?)),
        Kind::Marker => Ok(NetFunction::Marker(Marker::build(alloc, decl)?)),
        Kind::Hop => Ok(NetFunction::Hop(Hop::build(alloc, decl)?)),
        Kind::Tagger => Ok(NetFunction::Tagger(Tagger::build(alloc, decl)?)),
        Kind::Untagger => Ok(NetFunction::Untagger(Untagger::build(alloc, decl)?)),
        Kind::Signature => Ok(NetFunction::Signature(Signature::build(alloc, decl)?)),
        Kind::Nexthop => Ok(NetFunction::Nexthop(Nexthop::build(alloc, decl)?)),
        Kind::Redactor => Ok(NetFunction::Redactor(Redactor::build(alloc, decl)?)),
        // These rewrite a packet whole.
        Kind::Encap | Kind::Decap => unreachable!(),
    }
}
