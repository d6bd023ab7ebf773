//! The lines that set the entry of a tunnel up.
ghost use Rattle.std.specs.Prelude.{◌≡◌};
ghost use Rattle.std.specs.List.{list_any};
ghost use Rattle.nf_tunnel.specs.TunnelLines.{entry_setting_of, ttl_of, is_entry, is_entry_exit, is_ttl};

use crate::address::address_by;
use function_lines::FunctionLine;
use policy_text::{Word, number};
use std::alloc::{AllocError, Global};
use std::net::Ipv4Addr;

/// The content of a line.
#[derive(Clone, Copy, Debug)]
pub enum EntryLine {
    /// The source of the outer header.
    Entry(Ipv4Addr),
    /// The destination of the outer header.
    Exit(Ipv4Addr),
    /// The time to live of the outer header.
    Ttl(u8),
}

impl FunctionLine for EntryLine {
    ghost use Rattle.nf_tunnel.specs.TunnelLines.{entry_lines};

    ghost kind_lines = { entry_lines };

    #[tactic(auto, unfolding(crate::specs::TunnelLines::entry_line_of))]
    fn read(_alloc: Global, words: &[Word]) -> Result<Option<EntryLine>, AllocError> {
        if words.len() == 3 && words[0].bytes() == b"set".as_slice() {
            Ok(setting_of(words[1].bytes(), words[2].bytes()))
        } else {
            Ok(None)
        }
    }

    fn lacks_one(lines: &[EntryLine]) -> bool {
        !has_entry(lines) || !has_exit(lines) || !has_ttl(lines)
    }

    // Each line can be beside any others.
    fn clashes(_lines: &[EntryLine], _line: &Option<EntryLine>) -> bool {
        false
    }
}

fn setting_of(key: &[u8], text: &[u8]) -> Option<EntryLine>
    ensures { result ≡ entry_setting_of key.now text.now }
{
    if key == b"entry".as_slice() {
        address_by(text).map(EntryLine::Entry)
    } else if key == b"exit".as_slice() {
        address_by(text).map(EntryLine::Exit)
    } else if key == b"ttl".as_slice() {
        ttl_of(text).map(EntryLine::Ttl)
    } else {
        None
    }
}

// A number from 1 to 255.
fn ttl_of(word: &[u8]) -> Option<u8>
    ensures { result ≡ ttl_of word.now }
{
    let ttl = number(word, 20, 255)?;
    if ttl == 0 { None } else { Some(ttl as u8) }
}

fn has_entry(lines: &[EntryLine]) -> bool
    ensures { result ≡ list_any is_entry lines.now }
{
    lines.iter().any(|line| is_entry(*line))
}

fn has_exit(lines: &[EntryLine]) -> bool
    ensures { result ≡ list_any is_entry_exit lines.now }
{
    lines.iter().any(|line| is_exit(*line))
}

fn has_ttl(lines: &[EntryLine]) -> bool
    ensures { result ≡ list_any is_ttl lines.now }
{
    lines.iter().any(|line| is_ttl(*line))
}

fn is_entry(line: EntryLine) -> bool
    ensures { result ≡ is_entry line }
{
    matches!(line, EntryLine::Entry(_))
}

fn is_exit(line: EntryLine) -> bool
    ensures { result ≡ is_entry_exit line }
{
    matches!(line, EntryLine::Exit(_))
}

fn is_ttl(line: EntryLine) -> bool
    ensures { result ≡ is_ttl line }
{
    matches!(line, EntryLine::Ttl(_))
}
