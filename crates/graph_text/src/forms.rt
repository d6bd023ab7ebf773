//! The forms of lines, and the lines of a text.

ghost use Rattle.std.specs.Prelude.{◌≡◌, ◌≤◌, length, IfOk};
ghost use Rattle.std.specs.List.{list_all};
ghost use Rattle.policy_text.specs.Lines.{lines_of};
ghost use Rattle.policy_text.specs.Values.{is_name};
ghost use Rattle.graph_text.specs.Forms.{is_version, is_chain, is_stage, is_branch, names_of, has_branch};

use policy_text::{Line, Lines, WordSpan, is_name};
use std::alloc::{AllocError, Global};

/// Is it `nfp-graph 1`?
pub(crate) fn is_version(words: &[WordSpan<'_>]) -> bool
    ensures { result ≡ is_version words.now }
{
    match words {
        [word, number] => word.text() == b"nfp-graph".as_slice()
            && number.text() == b"1".as_slice(),
        _ => false,
    }
}

/// Is it `chain NAME`?
pub(crate) fn is_chain(words: &[WordSpan<'_>]) -> bool
    ensures { result ≡ is_chain words.now }
{
    match words {
        [word, name] => word.text() == b"chain".as_slice() && is_name(name.text()),
        _ => false,
    }
}

/// Is it `stage`?
pub(crate) fn is_stage(words: &[WordSpan<'_>]) -> bool
    ensures { result ≡ is_stage words.now }
{
    match words {
        [word] => word.text() == b"stage".as_slice(),
        _ => false,
    }
}

/// Is it `branch NAME ..`?
pub(crate) fn is_branch(words: &[WordSpan<'_>]) -> bool
    ensures { result ≡ is_branch words.now }
{
    let Some((word, names)) = words.split_first() else {
        return false;
    };
    !names.is_empty() && word.text() == b"branch".as_slice() && are_names(names)
}

fn are_names(words: &[WordSpan<'_>]) -> bool
    ensures { result ≡ list_all (λ w. is_name w.text) words.now }
{
    words.iter().all(|word| is_name(word.text()))
}

/// The words after the first.
pub(crate) fn names_of<'s, 'a>(words: &'s [WordSpan<'a>]) -> &'s [WordSpan<'a>]
    ensures { result.now ≡ names_of words.now }
{
    let Some((_, names)) = words.split_first() else {
        return words;
    };
    names
}

/// Does a branch come before the next stage and the next chain?
pub(crate) fn has_branch(lines: &[Line<'_>]) -> bool
    ensures { result ≡ has_branch lines.now }
{
    'lines: for line in lines {
        if is_branch(line.words()) {
            return true;
        }
        if is_stage(line.words()) || is_chain(line.words()) {
            return false;
        }
    }
    false
}

/// The lines of a text that aren't blank.
pub(crate) fn lines_of<'a>(alloc: Global, text: &'a [u8]) -> Result<Vec<Line<'a>>, AllocError>
    requires { length text.now ≤ 1048576 }
    ensures { IfOk result (λ v. v.items ≡ lines_of text.now) }
{
    let mut found = Vec::new(alloc);
    let mut lines = Lines {
        number: 1,
        rest: text,
    };
    'lines: while let Some(line) = lines.next(alloc)? {
        found.push(line)?;
    }
    Ok(found)
}
