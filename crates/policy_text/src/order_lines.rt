//! The lines that order the functions of a chain.

ghost use Rattle.std.specs.Prelude.{◌≡◌};
ghost use Rattle.policy_text.specs.Grammar.{named_at, order_line, priority_line, position_line, end_statement};
ghost use Rattle.policy_text.specs.Steps.{Gives};

use crate::draft::Draft;
use crate::fault::TextFault;
use crate::form::{WordForm, fit_form, in_chain};
use crate::line::Line;
use crate::policy::Statement;

// The function of the current chain with this name, counted from 0 as declared.
fn named_at(draft: &Draft, line: &Line<'_>, place: usize) -> Result<u32, TextFault>
    ensures { Gives (λ x. x) result (named_at draft.now line.now place) }
{
    match draft.function_named(line.word(place)) {
        None => Err(TextFault::UnknownName(line.number())),
        Some(function) => Ok(function),
    }
}

// `order A before B`.
pub fn order_line(draft: &mut Draft, line: &Line<'_>) -> Result<(), TextFault>
    ensures { Gives (λ _. draft.new) result (order_line draft.old line.now) }
{
    in_chain(draft, line)?;
    fit_form(&[WordForm::Name, WordForm::Before, WordForm::Name], line)?;
    let a = named_at(draft, line, 1)?;
    let b = named_at(draft, line, 3)?;
    let line = line.number();
    draft.add_statement(Statement::Order { a, b, line })?;
    Ok(())
}

// `priority A > B`.
pub fn priority_line(draft: &mut Draft, line: &Line<'_>) -> Result<(), TextFault>
    ensures { Gives (λ _. draft.new) result (priority_line draft.old line.now) }
{
    in_chain(draft, line)?;
    fit_form(&[WordForm::Name, WordForm::Above, WordForm::Name], line)?;
    let high = named_at(draft, line, 1)?;
    let low = named_at(draft, line, 3)?;
    let line = line.number();
    draft.add_statement(Statement::Priority { high, low, line })?;
    Ok(())
}

// `position A first` and `position A last`.
pub fn position_line(draft: &mut Draft, line: &Line<'_>) -> Result<(), TextFault>
    ensures { Gives (λ _. draft.new) result (position_line draft.old line.now) }
{
    in_chain(draft, line)?;
    fit_form(&[WordForm::Name, WordForm::End], line)?;
    let x = named_at(draft, line, 1)?;
    draft.add_statement(end_statement(x, line.number(), line.word(2)))?;
    Ok(())
}

fn end_statement(x: u32, line: u32, end: &[u8]) -> Statement
    ensures { result ≡ end_statement x line end.now }
{
    if end == b"first".as_slice() {
        Statement::First { x, line }
    } else {
        Statement::Last { x, line }
    }
}
