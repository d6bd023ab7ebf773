//! The line that sets the exit of a tunnel up.
ghost use Rattle.std.specs.Prelude.{◌≡◌};
ghost use Rattle.std.specs.List.{list_any};
ghost use Rattle.nf_tunnel.specs.TunnelLines.{exit_setting_of, is_exit};

use crate::address::address_by;
use function_lines::FunctionLine;
use policy_text::Word;
use std::alloc::{AllocError, Global};
use std::net::Ipv4Addr;

/// The content of a line.
#[derive(Clone, Copy, Debug)]
pub enum ExitLine {
    /// The destination of the outer header.
    Exit(Ipv4Addr),
}

impl FunctionLine for ExitLine {
    ghost use Rattle.nf_tunnel.specs.TunnelLines.{exit_lines};

    ghost kind_lines = { exit_lines };

    #[tactic(auto, unfolding(crate::specs::TunnelLines::exit_line_of))]
    fn read(_alloc: Global, words: &[Word]) -> Result<Option<ExitLine>, AllocError> {
        if words.len() == 3 && words[0].bytes() == b"set".as_slice() {
            Ok(setting_of(words[1].bytes(), words[2].bytes()))
        } else {
            Ok(None)
        }
    }

    fn lacks_one(lines: &[ExitLine]) -> bool {
        !has_exit(lines)
    }

    // Each line can be beside any others.
    fn clashes(_lines: &[ExitLine], _line: &Option<ExitLine>) -> bool {
        false
    }
}

fn setting_of(key: &[u8], text: &[u8]) -> Option<ExitLine>
    ensures { result ≡ exit_setting_of key.now text.now }
{
    if key == b"exit".as_slice() {
        address_by(text).map(ExitLine::Exit)
    } else {
        None
    }
}

fn has_exit(lines: &[ExitLine]) -> bool
    ensures { result ≡ list_any is_exit lines.now }
{
    lines.iter().any(|line| is_exit(*line))
}

fn is_exit(line: ExitLine) -> bool
    ensures { result ≡ is_exit line }
{
    match line {
        ExitLine::Exit(_) => true,
    }
}
