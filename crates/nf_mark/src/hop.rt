//! A hop, and its effect on a packet's time to live.

use crate::no_lines::NoLine;
use crate::present::has_field;
use chain_walk::Verdict;
use function_lines::read_lines;
use packet_fields::Field;
use packet_function::DecidingLine;
use packet_version::{View, unwritten_stays, written_is_one_value};
use policy_text::{BuildFault, FunctionDecl};
use std::alloc::{AllocError, Global};

/// Reduces a packet's time to live by one, as each node does that forwards it (RFC 791, 3.2; RFC 1812, 5.3.1; RFC 8200,
/// 3).
#[derive(Clone, Copy, Debug)]
pub struct Hop;

impl Hop {
    ghost use Rattle.std.specs.Prelude.{◌≡◌, ◌++◌, Ok, true, is_ok, OnOk, OnErr};
    ghost use Rattle.action_profile.specs.declared.kind.Kind.{Kind};
    ghost use Rattle.function_lines.specs.Builds.{Builds};
    ghost use Rattle.packet_version.specs.Views.{seen_values, viewed, wrote_all};
    ghost use Rattle.packet_function.specs.Deciding.{decided};
    ghost use Rattle.nf_mark.specs.NoLines.{no_lines};
    ghost use Rattle.nf_mark.specs.Hops.{hop_by, hop_behaviour, hop_decides};

    /// Makes the hop that is declared, or returns the least line of the declaration. Each line is refused.
    pub fn build(alloc: Global, decl: &FunctionDecl) -> Result<Hop, BuildFault>
        requires { decl.now.kind ≡ Kind.Hop }
        ensures { Builds no_lines hop_by decl.now result }
    {
        read_lines::<NoLine>(alloc, decl)?;
        Ok(Hop)
    }

    /// Sends one packet on through a view of a hop's profile. Its time to live falls by one, and a packet for which
    /// nothing would be left is dropped. It allocates nothing.
    pub fn step(&mut self, view: &mut View) -> Result<Verdict, AllocError>
        requires profile { view.old.profile ≡ hop_behaviour.profile self.old }
        ensures after { self.new ≡ (viewed hop_behaviour self.old view.old).after }
        ensures verdict { result ≡ Ok (viewed hop_behaviour self.old view.old).verdict }
        ensures view { view.new ≡ wrote_all (viewed hop_behaviour self.old view.old).written view.old }
    {
        let Some(ttl) = ttl_in(view) else {
            unwritten_stays(view);
            return Ok(Verdict::Pass);
        };
        if ttl <= 1 {
            unwritten_stays(view);
            return Ok(Verdict::Drop);
        }
        view.set(Field::Ttl, &[ttl - 1]);
        written_is_one_value();
        Ok(Verdict::Pass)
    }

    /// Appends the line that decides what it does to one packet, which it sees through a view of a hop's profile: its
    /// declaration if it drops the packet, and none otherwise. If memory runs out, it appends nothing.
    pub fn decide(&self, view: &View, deciding: &mut Vec<DecidingLine>) -> Result<(), AllocError>
        requires profile { view.now.profile ≡ hop_behaviour.profile self.now }
        ensures decided { OnOk result (deciding.new.items ≡
            deciding.old.items ++ decided hop_behaviour hop_decides view.now.version.fixed self.now (seen_values view.now)) }
        ensures stays { OnErr result (deciding.new.items ≡ deciding.old.items) }
    {
        let Some(ttl) = ttl_in(view) else {
            return Ok(());
        };
        if ttl <= 1 {
            deciding.push(DecidingLine::Declaration)?;
        }
        Ok(())
    }

    /// Appends the lines of its state, which a hop doesn't have.
    pub fn state_lines(&self, _out: &mut Vec<u8>) -> Result<(), AllocError>
        ensures none { _out.new ≡ _out.old }
        ensures never_fails { is_ok result ≡ true }
    {
        Ok(())
    }
}

ghost use Rattle.std.specs.Prelude.{◌≡◌, length, IsSome};
ghost use Rattle.action_profile.specs.Profiles.{profile_of};
ghost use Rattle.action_profile.specs.declared.kind.Kind.{Kind};
ghost use Rattle.packet_fields.specs.declared.field.Field.{Field};
ghost use Rattle.packet_version.specs.Views.{seen_values, HasBytes};
ghost use Rattle.nf_mark.specs.Hops.{ttl_of};

/// The time to live of the packet of a view (RFC 791, 3.1), which IPv6 names hop limit (RFC 8200, 3).
fn ttl_in(view: &View) -> Option<u8>
    requires profile { view.now.profile ≡ profile_of Kind.Hop }
    ensures ttl { result ≡ ttl_of (seen_values view.now Field.Ttl) }
    ensures there { IsSome result → HasBytes view.now Field.Ttl (λ old. length old ≡ 1) }
{
    let bytes = view.get(Field::Ttl)?;
    Some(bytes[0])
}
