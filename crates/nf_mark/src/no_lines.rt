//! Kinds that no line sets up.

use function_lines::FunctionLine;
use policy_text::Word;
use std::alloc::{AllocError, Global};

/// A line of a kind that has no lines.
#[derive(Drop)]
pub enum NoLine {}

impl FunctionLine for NoLine {
    ghost use Rattle.nf_mark.specs.NoLines.{no_lines};

    ghost kind_lines = { no_lines };

    fn read(_alloc: Global, _words: &[Word]) -> Result<Option<NoLine>, AllocError> {
        Ok(None)
    }

    // The kind has no required line.
    fn lacks_one(_lines: &[NoLine]) -> bool {
        false
    }

    fn clashes(_lines: &[NoLine], _line: &Option<NoLine>) -> bool {
        false
    }
}
