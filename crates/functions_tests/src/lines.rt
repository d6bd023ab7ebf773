//! A kind with a required line, `set size N`, N up to 9: which line of a declaration is refused.
ghost use Rattle.std.specs.Prelude.{◌≡◌, true};
ghost use Rattle.std.specs.List.{list_any};

use crate::making::{first_declared, parsed};
use function_lines::{FunctionLine, read_lines};
use policy_text::{BuildFault, FunctionDecl, Word, number};
use std::alloc::{AllocError, Global};
use std::process::Abort;

/// The only line of the kind.
#[derive(Drop)]
struct SizeLine {
    size: u64,
}

impl FunctionLine for SizeLine {
    ghost use Rattle.functions_tests.specs.SizeLines.{size_lines};

    ghost kind_lines = { size_lines (λ n. record { size = n }) };

    fn read(_alloc: Global, words: &[Word]) -> Result<Option<SizeLine>, AllocError> {
        if words.len() != 3 {
            return Ok(None);
        }
        if words[0].bytes() == b"set".as_slice() && words[1].bytes() == b"size".as_slice() {
            Ok(number(words[2].bytes(), 20, 9).map(|size| SizeLine { size }))
        } else {
            Ok(None)
        }
    }

    fn lacks_one(lines: &[SizeLine]) -> bool {
        !is_there(lines)
    }

    fn clashes(_lines: &[SizeLine], _line: &Option<SizeLine>) -> bool {
        false
    }
}

// Is a size among these lines?
fn is_there(lines: &[SizeLine]) -> bool
    ensures { result ≡ list_any (λ line. true) lines.now }
{
    lines.iter().any(|_| true)
}

fn size(rt: &impl Abort, alloc: Global, decl: &FunctionDecl) -> Result<u64, u32> {
    match read_lines::<SizeLine>(alloc, decl) {
        Ok(lines) => Ok(lines.as_slice().first().expect(rt, "a size").size),
        Err(BuildFault::BadSetting(line)) => Err(line),
        Err(BuildFault::OutOfMemory) => rt.abort(),
    }
}

// Declarations, and their sizes or the lines that are refused.
const DECLARATIONS: &[(&str, Result<u64, u32>)] = &[
    ("nfp 1\nchain c\nfn f hop\nset size 7\n", Ok(7)),
    // There is none, or only one that can't be read.
    ("nfp 1\nchain c\nfn f hop\n", Err(3)),
    ("nfp 1\nchain c\nfn f hop\nset size 10\n", Err(3)),
    (
        "nfp 1\nchain c\nfn f hop\nset width 1\nset size 7\n",
        Err(4),
    ),
    // A second one is refused, but the required line is there.
    ("nfp 1\nchain c\nfn f hop\nset size 7\nset size 8\n", Err(5)),
    ("nfp 1\nchain c\nfn f hop\nset size x\nset size 8\n", Err(4)),
    (
        "nfp 1\nchain c\nfn f hop\nset size 7\nrule x\nset size 8\n",
        Err(5),
    ),
];

#[test]
fn the_least_refused_line_is_named(rt: HostRuntime) {
    for (text, answer) in DECLARATIONS {
        is_due(&rt, rt.alloc(), text, *answer);
    }
}

fn is_due(rt: &impl Abort, alloc: Global, text: &str, answer: Result<u64, u32>) {
    let policy = parsed(rt, alloc, text.as_bytes());
    let size = size(rt, alloc, first_declared(rt, &policy));
    assert_eq!(rt; size, answer);
}
