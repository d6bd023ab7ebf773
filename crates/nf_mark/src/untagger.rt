//! An untagger, and the tag that it removes.

use crate::no_lines::NoLine;
use chain_walk::Verdict;
use function_lines::read_lines;
use packet_fields::Field;
use packet_version::{View, unwritten_stays, written_is_one_value};
use policy_text::{BuildFault, FunctionDecl};
use std::alloc::{AllocError, Global};

/// Removes the outermost tag of a packet (IEEE 802.1Q, 9.3).
#[derive(Clone, Copy, Debug)]
pub struct Untagger;

impl Untagger {
    ghost use Rattle.std.specs.Prelude.{◌≡◌, Ok, true, is_ok};
    ghost use Rattle.action_profile.specs.declared.kind.Kind.{Kind};
    ghost use Rattle.function_lines.specs.Builds.{Builds};
    ghost use Rattle.packet_version.specs.Views.{viewed, wrote_all};
    ghost use Rattle.nf_mark.specs.NoLines.{no_lines};
    ghost use Rattle.nf_mark.specs.Untaggers.{untagger_by, untagger_behaviour};

    /// Makes the untagger that is declared, or returns the least line of the declaration. Each line is refused.
    pub fn build(alloc: Global, decl: &FunctionDecl) -> Result<Untagger, BuildFault>
        requires { decl.now.kind ≡ Kind.Untagger }
        ensures { Builds no_lines untagger_by decl.now result }
    {
        read_lines::<NoLine>(alloc, decl)?;
        Ok(Untagger)
    }

    /// Removes the outermost tag of one packet, if it has one, through a view of an untagger's profile. It allocates
    /// nothing.
    pub fn step(&mut self, view: &mut View) -> Result<Verdict, AllocError>
        requires profile { view.old.profile ≡ untagger_behaviour.profile self.old }
        ensures after { self.new ≡ (viewed untagger_behaviour self.old view.old).after }
        ensures verdict { result ≡ Ok (viewed untagger_behaviour self.old view.old).verdict }
        ensures view { view.new ≡ wrote_all (viewed untagger_behaviour self.old view.old).written view.old }
    {
        if !is_tagged(view) {
            unwritten_stays(view);
            return Ok(Verdict::Pass);
        }
        view.pop_tag();
        written_is_one_value();
        Ok(Verdict::Pass)
    }

    /// Appends the lines of its state, which an untagger doesn't have.
    pub fn state_lines(&self, _out: &mut Vec<u8>) -> Result<(), AllocError>
        ensures none { _out.new ≡ _out.old }
        ensures never_fails { is_ok result ≡ true }
    {
        Ok(())
    }
}

ghost use Rattle.std.specs.Prelude.{◌≡◌, ◌<◌, length, drop, true, false, None, option_map};
ghost use Rattle.action_profile.specs.Profiles.{profile_of};
ghost use Rattle.action_profile.specs.declared.kind.Kind.{Kind};
ghost use Rattle.packet_fields.specs.declared.field.Field.{Field};
ghost use Rattle.packet_version.specs.Views.{seen_values, HasBytes};
ghost use Rattle.nf_mark.specs.Untaggers.{untagged};

/// Does the packet of a view have a tag?
fn is_tagged(view: &View) -> bool
    requires profile { view.now.profile ≡ profile_of Kind.Untagger }
    ensures tagged { result ≡ true → HasBytes view.now Field.Tag (λ tags. 0 < length tags) }
    ensures less { result ≡ true → untagged (seen_values view.now Field.Tag) ≡ option_map (λ tags. drop 4 tags) (seen_values view.now Field.Tag) }
    ensures bare { result ≡ false → untagged (seen_values view.now Field.Tag) ≡ None }
{
    match view.get(Field::Tag) {
        Some(tags) => !tags.is_empty(),
        None => false,
    }
}
