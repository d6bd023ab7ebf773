//! The lines of a kind of function.
ghost use Rattle.std.specs.Prelude.{◌≡◌, false, IfOk};
ghost use Rattle.std.specs.Option.{option_map_or};
ghost use Rattle.function_lines.specs.KindLines.{KindLines, lacks_one};

use policy_text::Word;
use std::alloc::{AllocError, Global};

/// The content of a line of a kind of function.
pub trait FunctionLine: Drop {
    /// What words are a line of the kind, which of its lines each declaration has to have, and which can't be together.
    ghost kind_lines: { KindLines Self };

    /// Reads a line, or returns `None` if it isn't a line of the kind.
    fn read(alloc: Global, words: &[Word]) -> Result<Option<Self>, AllocError>
        ensures { IfOk result (λ line. line ≡ kind_lines.line_of words.now) };

    /// Is a line missing that each declaration has to have?
    fn lacks_one(lines: &[Self]) -> bool
        ensures { result ≡ lacks_one kind_lines lines.now };

    /// Is `line` there, and can't it be beside `lines`, which are all lines of its declaration?
    fn clashes(lines: &[Self], line: &Option<Self>) -> bool
        ensures { result ≡ option_map_or (kind_lines.clashes lines.now) line.now false };
}
