//! The lines with patterns.

use crate::pattern::Pattern;
use function_lines::FunctionLine;
use policy_text::Word;
use std::alloc::{AllocError, Global};

impl FunctionLine for Pattern {
    ghost use Rattle.patterns.specs.Lines.{pattern_lines};

    ghost kind_lines = { pattern_lines };

    #[tactic(auto, unfolding(crate::specs::Lines::line_of))]
    fn read(alloc: Global, words: &[Word]) -> Result<Option<Pattern>, AllocError> {
        if words.len() != 3 {
            return Ok(None);
        }
        if words[0].bytes() == b"rule".as_slice() {
            Pattern::read(alloc, words[1].bytes(), words[2].bytes())
        } else {
            Ok(None)
        }
    }

    // No line is required: a function without a pattern finds nothing.
    fn lacks_one(_lines: &[Pattern]) -> bool {
        false
    }

    fn clashes(_lines: &[Pattern], _line: &Option<Pattern>) -> bool {
        false
    }
}
