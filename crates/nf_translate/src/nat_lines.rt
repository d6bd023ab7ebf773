//! The lines that set a translation of addresses and ports up.
ghost use Rattle.std.specs.Prelude.{◌≡◌, ◌==◌};
ghost use Rattle.std.specs.List.{list_any};
ghost use Rattle.nf_translate.specs.NatLines.{value_of, ports_of, has_dash, is_inside, is_public, is_ports};

use function_lines::FunctionLine;
use policy_text::{Word, address, prefix, range};
use std::alloc::{AllocError, Global};

/// The content of a line.
#[derive(Debug, Drop)]
pub enum NatLine {
    /// The prefix of the addresses inside, and its length in bits.
    Inside(u32, u8),
    /// The address that the outside sees.
    Public(u32),
    /// The first and the last of the ports that the outside sees.
    Ports(u16, u16),
}

impl FunctionLine for NatLine {
    ghost use Rattle.nf_translate.specs.NatLines.{nat_lines};

    ghost kind_lines = { nat_lines };

    #[tactic(auto, unfolding(crate::specs::NatLines::line_of))]
    fn read(_alloc: Global, words: &[Word]) -> Result<Option<NatLine>, AllocError> {
        if words.len() != 3 {
            return Ok(None);
        }
        if words[0].bytes() == b"set".as_slice() {
            Ok(value_of(words[1].bytes(), words[2].bytes()))
        } else {
            Ok(None)
        }
    }

    fn lacks_one(lines: &[NatLine]) -> bool {
        !has_inside(lines) || !has_public(lines) || !has_ports(lines)
    }

    fn clashes(_lines: &[NatLine], _line: &Option<NatLine>) -> bool {
        false
    }
}

fn value_of(key: &[u8], text: &[u8]) -> Option<NatLine>
    ensures { result ≡ value_of key.now text.now }
{
    if key == b"inside".as_slice() {
        prefix(text).map(|(address, bits)| NatLine::Inside(address, bits))
    } else if key == b"public".as_slice() {
        address(text).map(NatLine::Public)
    } else if key == b"ports".as_slice() {
        ports_of(text)
    } else {
        None
    }
}

fn ports_of(text: &[u8]) -> Option<NatLine>
    ensures { result ≡ ports_of text.now }
{
    if !has_dash(text) {
        return None;
    }
    let (low, high) = range(text)?;
    if low == 0 {
        return None;
    }
    Some(NatLine::Ports(low, high))
}

fn has_dash(text: &[u8]) -> bool
    ensures { result ≡ has_dash text.now }
{
    text.iter().any(|b| *b == b'-')
}

fn has_inside(lines: &[NatLine]) -> bool
    ensures { result ≡ list_any is_inside lines.now }
{
    lines.iter().any(|line| is_inside(line))
}

fn is_inside(line: &NatLine) -> bool
    ensures { result ≡ is_inside line.now }
{
    matches!(line, NatLine::Inside(_, _))
}

fn has_public(lines: &[NatLine]) -> bool
    ensures { result ≡ list_any is_public lines.now }
{
    lines.iter().any(|line| is_public(line))
}

fn is_public(line: &NatLine) -> bool
    ensures { result ≡ is_public line.now }
{
    matches!(line, NatLine::Public(_))
}

fn has_ports(lines: &[NatLine]) -> bool
    ensures { result ≡ list_any is_ports lines.now }
{
    lines.iter().any(|line| is_ports(line))
}

fn is_ports(line: &NatLine) -> bool
    ensures { result ≡ is_ports line.now }
{
    matches!(line, NatLine::Ports(_, _))
}
