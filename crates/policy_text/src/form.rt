//! The forms of lines, word by word.

ghost use Rattle.std.specs.Prelude.{◌≡◌, ◌<◌, length, drop};
ghost use Rattle.policy_text.specs.Forms.{is_fit, misfit_from};
ghost use Rattle.policy_text.specs.Grammar.{syntax_at, fit_form, in_chain};
ghost use Rattle.policy_text.specs.Steps.{Gives};

use crate::draft::Draft;
use crate::fault::TextFault;
use crate::line::{Line, WordSpan};
use crate::value::is_name;

/// What a word of a line has to be.
#[derive(Clone, Copy)]
pub enum WordForm {
    /// A name.
    Name,
    /// `before`.
    Before,
    /// `>`.
    Above,
    /// `first` or `last`.
    End,
}

impl WordForm {
    ghost use Rattle.std.specs.Prelude.{◌≡◌};
    ghost use Rattle.policy_text.specs.Forms.{is_fit};

    // Does the word fit here?
    fn accepts(self, word: &[u8]) -> bool
        ensures { result ≡ is_fit self word.now }
    {
        match self {
            WordForm::Name => is_name(word),
            WordForm::Before => word == b"before".as_slice(),
            WordForm::Above => word == b">".as_slice(),
            WordForm::End => word == b"first".as_slice() || word == b"last".as_slice(),
        }
    }
}

/// The place of the first word after the leading one that doesn't fit the form, is missing or is one too many.
fn misfit(form: &[WordForm], words: &[WordSpan<'_>]) -> Option<usize>
    requires { 0 < length words.now }
    ensures { result ≡ misfit_from 1 form.now (drop 1 words.now) }
{
    let mut place = 1;
    'forms: for wanted in form {
        if place >= words.len() {
            return Some(place);
        }
        if !wanted.accepts(words[place].text()) {
            return Some(place);
        }
        place += 1;
    }
    if place < words.len() {
        Some(place)
    } else {
        None
    }
}

/// The fault that the word at this place doesn't fit.
pub fn syntax_at(line: &Line<'_>, place: usize) -> TextFault
    ensures { result ≡ syntax_at line.now place }
{
    TextFault::Syntax(line.number(), line.column(place))
}

/// Checks that the words after the first have this form.
pub fn fit_form(form: &[WordForm], line: &Line<'_>) -> Result<(), TextFault>
    ensures { Gives (λ x. x) result (fit_form form.now line.now) }
{
    match misfit(form, line.words()) {
        None => Ok(()),
        Some(place) => Err(syntax_at(line, place)),
    }
}

/// Checks that the line is in a chain.
pub fn in_chain(draft: &Draft, line: &Line<'_>) -> Result<(), TextFault>
    ensures { Gives (λ x. x) result (in_chain draft.now line.now) }
{
    if draft.is_in_chain() {
        Ok(())
    } else {
        Err(syntax_at(line, 0))
    }
}
