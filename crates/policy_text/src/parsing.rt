//! Reads a whole policy text.

ghost use Rattle.std.specs.Prelude.{◌≡◌, ◌≢◌, ◌<◌, ◌≤◌, [], length, IfOk, IfErr};
ghost use Rattle.policy_text.specs.declared.fault.TextFault.TheVariants.{OutOfMemory};
ghost use Rattle.policy_text.specs.Grammar.{policy_of, policy_of_utf8, is_version};
ghost use Rattle.policy_text.specs.Soundness.{IsSound};
ghost use Rattle.policy_text.specs.Steps.{Gives};

use crate::draft::Draft;
use crate::fault::TextFault;
use crate::line::{Lines, WordSpan};
use crate::policy::Policy;
use crate::reading::after_line;
use std::alloc::Global;
use std::str::from_utf8;

/// Reads a policy text of at most 1,048,576 bytes. Returns the policy that it describes, or its first fault. Goes over
/// the text once.
#[tactic(auto, using(crate::proofs::Sound::policy_sound))]
pub fn parse(alloc: Global, bytes: &[u8]) -> Result<Policy, TextFault>
    requires { length bytes.now ≤ 1048576 }
    ensures exact { Gives (λ p. p) result (policy_of bytes.now) }
    ensures sound { IfOk result (λ p. IsSound p.chains) }
{
    read_text(alloc, bytes)
}

// Reads any bytes.
#[tactic(auto, using(crate::proofs::Remaining::part_text))]
fn read_text(alloc: Global, bytes: &[u8]) -> Result<Policy, TextFault>
    requires { length bytes.now ≤ 1048576 }
    ensures { Gives (λ p. p) result (policy_of bytes.now) }
{
    match from_utf8(bytes) {
        Err(fault) => Err(TextFault::NotUtf8(fault.valid_up_to())),
        Ok(_) => read_utf8(alloc, bytes),
    }
}

// Reads a text that is UTF-8.
#[tactic(auto, unfolding(crate::specs::Grammar::policy_of_utf8))]
fn read_utf8(alloc: Global, text: &[u8]) -> Result<Policy, TextFault>
    requires { length text.now ≤ 1048576 }
    ensures { Gives (λ p. p) result (policy_of_utf8 text.now) }
{
    let mut lines = Lines {
        number: 1,
        rest: text,
    };
    let Some(first) = lines.next(alloc)? else {
        return Err(TextFault::BadVersionLine);
    };
    if !is_version(first.words()) {
        return Err(TextFault::BadVersionLine);
    }
    let mut draft = Draft::new(alloc);
    'lines: while let Some(line) = lines.next(alloc)? {
        after_line(alloc, &mut draft, &line)?;
    }
    Ok(draft.into_policy())
}

// Is it `nfp 1`?
fn is_version(words: &[WordSpan<'_>]) -> bool
    ensures { result ≡ is_version words.now }
{
    match words {
        [name, number] => name.text() == b"nfp".as_slice() && number.text() == b"1".as_slice(),
        _ => false,
    }
}
