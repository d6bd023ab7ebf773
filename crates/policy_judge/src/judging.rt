//! Reads a policy text and judges it.
ghost use Rattle.std.specs.Prelude.{◌≡◌, ◌≤◌, length, All, IfOk, MatchResult};
ghost use Rattle.std.specs.List.{AllZip};
ghost use Rattle.policy_text.specs.Soundness.{IsSound};
ghost use Rattle.policy_judge.specs.declared.fault.JudgeFault.{JudgeFault};
ghost use Rattle.policy_judge.specs.declared.fault.PolicyFault.{PolicyFault};
ghost use Rattle.policy_judge.specs.Judging.{judged, judged_settings, told, Judges, Tells, TellsText};
ghost use Rattle.policy_judge.specs.Lines.{too_long_line};
ghost use Rattle.policy_judge.specs.Making.{functions_made};
ghost use Rattle.policy_judge.specs.Settings.{least_refused, IsSettled};
ghost use Rattle.policy_judge.specs.Orders.{IsOrdered};

use crate::chains::orders_of;
use crate::fault::{JudgeFault, PolicyFault, Refusal};
use crate::judged::Judged;
use crate::making::functions_of;
use crate::text::{setting_line, text_line};
use item_list::Items;
use policy_text::{BuildFault, Policy, TextFault, parse};
use std::alloc::{AllocError, Global};
use text_lines::Piece::Text;
use text_lines::line;

/// Reads a policy text of at most 1,048,576 bytes: returns the policy with the order and the functions of each of its
/// chains, or its first fault with the line that reports it.
#[tactic(auto, unfolding(crate::specs::Judging::judged), using(crate::proofs::FewFunctions::text_refused))]
pub fn judge(alloc: Global, bytes: &[u8]) -> Result<Judged, JudgeFault>
    requires { length bytes.now ≤ 1048576 }
    ensures exact { Judges (judged bytes.now) result }
    ensures settled { IfOk result (λ judged. All IsSettled judged.policy.chains) }
    ensures ordered { IfOk result (λ judged. AllZip IsOrdered judged.policy.chains judged.orders) }
    ensures made { IfOk result (λ judged. judged.functions ≡ functions_made judged.policy.chains) }
    ensures few { IfOk result (λ judged. length judged.policy.chains ≤ 16) }
{
    match parse(alloc, bytes) {
        Ok(policy) => judge_policy(alloc, policy),
        Err(fault) => Err(refuse_text(alloc, fault)),
    }
}

/// The refusal of a text of more than 1,048,576 bytes.
pub fn too_long(alloc: Global) -> JudgeFault
    ensures { Tells (told PolicyFault.TooLong too_long_line) result }
{
    refuse(
        PolicyFault::TooLong,
        line(alloc, &[Text(b"policy: too long")]),
    )
}

// Makes all functions, which checks their settings, and then finds the orders of the chains.
#[tactic(auto, using(crate::proofs::FewFunctions::few_here, crate::proofs::NoLineRefused::all_settled))]
fn judge_policy(alloc: Global, policy: Policy) -> Result<Judged, JudgeFault>
    requires { IsSound policy.chains }
    ensures exact { Judges (judged_settings policy (least_refused policy.chains)) result }
    ensures settled { IfOk result (λ judged. All IsSettled judged.policy.chains) }
    ensures ordered { IfOk result (λ judged. AllZip IsOrdered judged.policy.chains judged.orders) }
    ensures made { IfOk result (λ judged. judged.functions ≡ functions_made judged.policy.chains) }
    ensures few { IfOk result (λ judged. length judged.policy.chains ≤ 16) }
{
    match functions_of(alloc, policy.chains.as_slice()) {
        Ok(functions) => {
            let orders = orders_of(alloc, policy.chains.as_slice())?;
            Ok(Judged {
                policy,
                orders,
                functions,
            })
        }
        Err(BuildFault::BadSetting(line)) => {
            Err(refuse(PolicyFault::BadSetting(line), setting_line(alloc, line)))
        }
        Err(BuildFault::OutOfMemory) => Err(JudgeFault::OutOfMemory),
    }
}

// The refusal of a text for its own fault.
fn refuse_text(alloc: Global, fault: TextFault) -> JudgeFault
    ensures { TellsText fault result }
{
    match fault {
        TextFault::OutOfMemory => JudgeFault::OutOfMemory,
        fault => refuse(PolicyFault::Text(fault), text_line(alloc, fault)),
    }
}

/// A refusal with its line, unless there was no memory for it.
pub fn refuse(fault: PolicyFault, line: Result<Vec<u8>, AllocError>) -> JudgeFault
    ensures { MatchResult line (λ text. result ≡ JudgeFault.Refused (told fault text.items)) (λ e. result ≡ JudgeFault.OutOfMemory) }
{
    match line {
        Ok(line) => JudgeFault::Refused(Refusal {
            fault,
            line: Items::new(line),
        }),
        Err(_) => JudgeFault::OutOfMemory,
    }
}
