//! The lines that report the faults of a policy.
ghost use Rattle.std.specs.Prelude.{◌≡◌, IfOk};
ghost use Rattle.policy_text.specs.declared.fault.TextFault.{TextFault};
ghost use Rattle.policy_check.specs.declared.fault.CheckFault.{CheckFault};
ghost use Rattle.policy_judge.specs.Lines.{text_line, at_line, setting_line, check_line, priority_line, action_text};

use dependency_table::Action;
use packet_fields::Field;
use policy_check::CheckFault;
use policy_text::{FunctionDecl, TextFault, name_at, names_at};
use std::alloc::{AllocError, Global};
use text_lines::Piece::{Number, Text};
use text_lines::{join, line, push_words};

/// The line of the text's own fault.
#[tactic(auto, unfolding(crate::specs::Lines::text_line))]
pub fn text_line(alloc: Global, fault: TextFault) -> Result<Vec<u8>, AllocError>
    ensures { IfOk result (λ line. line.items ≡ text_line fault) }
{
    match fault {
        TextFault::NotUtf8(place) => {
            line(
                alloc,
                &[Text(b"policy: not utf-8 at "), Number(place as u64)],
            )
        }
        TextFault::Syntax(number, column) => line(
            alloc,
            &[
                Text(b"policy: line "),
                Number(number as u64),
                Text(b" column "),
                Number(column as u64),
                Text(b": syntax"),
            ],
        ),
        TextFault::UnknownKind(number) => at_line(alloc, number, b"unknown kind"),
        TextFault::DuplicateName(number) => at_line(alloc, number, b"duplicate name"),
        TextFault::UnknownName(number) => at_line(alloc, number, b"unknown name"),
        TextFault::TooManyFunctions(number) => at_line(alloc, number, b"too many functions"),
        TextFault::TooManyChains(number) => at_line(alloc, number, b"too many chains"),
        TextFault::TooManyRules(number) => at_line(alloc, number, b"too many rules"),
        TextFault::BadVersionLine => line(alloc, &[Text(b"policy: bad version line")]),
        TextFault::OutOfMemory => Ok(Vec::new(alloc)),
    }
}

/// The line of a setting that is refused.
#[tactic(auto, unfolding(crate::specs::Lines::setting_line))]
pub fn setting_line(alloc: Global, number: u32) -> Result<Vec<u8>, AllocError>
    ensures { IfOk result (λ text. text.items ≡ setting_line number) }
{
    at_line(alloc, number, b"bad setting")
}

fn at_line(alloc: Global, number: u32, fault: &[u8]) -> Result<Vec<u8>, AllocError>
    ensures { IfOk result (λ text. text.items ≡ at_line number fault.now) }
{
    line(
        alloc,
        &[
            Text(b"policy: line "),
            Number(number as u64),
            Text(b": "),
            Text(fault),
        ],
    )
}

/// The line of a chain that has no order.
#[tactic(auto, unfolding(crate::specs::Lines::check_line))]
pub fn check_line(
    alloc: Global,
    functions: &[FunctionDecl],
    fault: &CheckFault,
) -> Result<Vec<u8>, AllocError>
    ensures { IfOk result (λ line. line.items ≡ check_line functions.now fault.now) }
{
    match fault {
        CheckFault::Cycle(places) => cycle_line(alloc, functions, places.as_slice()),
        CheckFault::PriorityForbidden {
            high,
            low,
            line,
            first,
            second,
        } => {
            let first = action_text(alloc, *first)?;
            let second = action_text(alloc, *second)?;
            let high = name_at(functions, *high);
            let low = name_at(functions, *low);
            priority_line(alloc, *line, high, low, &first, &second)
        }
        CheckFault::OutOfMemory => Ok(Vec::new(alloc)),
    }
}

#[tactic(auto, unfolding(crate::specs::Lines::check_line))]
fn cycle_line(
    alloc: Global,
    functions: &[FunctionDecl],
    places: &[u32],
) -> Result<Vec<u8>, AllocError>
    ensures { IfOk result (λ line. line.items ≡ check_line functions.now (CheckFault.Cycle places.now)) }
{
    let mut text = Vec::from_slice(alloc, b"policy: cycle".as_slice())?;
    push_words(&mut text, &names_at(alloc, functions, places)?)?;
    text.push(b'\n')?;
    Ok(text)
}

#[tactic(auto, unfolding(crate::specs::Lines::priority_line))]
fn priority_line<'a>(
    alloc: Global,
    number: u32,
    high: &'a [u8],
    low: &'a [u8],
    first: &'a [u8],
    second: &'a [u8],
) -> Result<Vec<u8>, AllocError>
    ensures { IfOk result (λ line. line.items ≡ priority_line number high.now low.now first.now second.now) }
{
    line(
        alloc,
        &[
            Text(b"policy: line "),
            Number(number as u64),
            Text(b": priority "),
            Text(high),
            Text(b" over "),
            Text(low),
            Text(b" forbidden: "),
            Text(first),
            Text(b" before "),
            Text(second),
        ],
    )
}

/// What a function does with a packet, in words: `read src-ip`, `drop`. The only error is that memory runs out.
pub fn action_text(alloc: Global, action: Action) -> Result<Vec<u8>, AllocError>
    ensures { IfOk result (λ text. text.items ≡ action_text action) }
{
    match action {
        Action::Read(field) => join(alloc, &[Text(b"read "), Text(field.name().as_bytes())]),
        Action::Write(field) => join(alloc, &[Text(b"write "), Text(field.name().as_bytes())]),
        Action::Drop => Vec::from_slice(alloc, b"drop".as_slice()),
        Action::State => Vec::from_slice(alloc, b"state".as_slice()),
        Action::Count => Vec::from_slice(alloc, b"count".as_slice()),
        Action::Whole => Vec::from_slice(alloc, b"whole".as_slice()),
        Action::Pass => Vec::from_slice(alloc, b"pass".as_slice()),
    }
}
