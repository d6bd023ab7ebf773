//! Reads the lines of a declaration.
ghost use Rattle.std.specs.Prelude.{◌≡◌, ◌||◌, ◌++◌, if◌then◌else◌, false, is_none, fold, OnOk, IfOk};
ghost use Rattle.std.specs.Option.{option_to_list};
ghost use Rattle.function_lines.specs.Builds.{Builds};
ghost use Rattle.function_lines.specs.KindLines.{lacks_one, clashing, lesser, repeats};

use crate::line::FunctionLine;
use crate::settings::{least_refused, repeats};
use item_list::Items;
use policy_text::{BuildFault, FunctionDecl, Setting};
use std::alloc::{AllocError, Global};

/// The lines of a declaration in order, or its least line that is refused: one that isn't a line of the kind, a second
/// `set` of a key, one that can't be beside the others, or the `fn` line if a required line is missing.
#[tactic(auto, using(crate::proofs::Gathering::begins, crate::proofs::Gathering::goes_on))]
pub fn read_lines<L: FunctionLine>(
    alloc: Global,
    decl: &FunctionDecl,
) -> Result<Items<L>, BuildFault>
    ensures lines { Builds L.kind_lines (λ lines. lines) decl.now result }
    ensures whole { IfOk result (λ lines. lacks_one L.kind_lines lines ≡ false) }
{
    let settings = decl.settings.as_slice();
    let mut lines = Items::new(Vec::new(alloc));
    let mut least = None;
    'settings: for place in 0..settings.len() {
        let setting = &settings[place];
        let line = L::read(alloc, setting.words.as_slice())?;
        least = least_behind(least, &line, &settings[..place], setting);
        keep(&mut lines, line)?;
    }
    let least = least_clashing(alloc, lines.as_slice(), settings, least)?;
    let lacks_one = L::lacks_one(lines.as_slice());
    match least_refused(least, lacks_one, decl.line) {
        Some(line) => Err(BuildFault::BadSetting(line)),
        None => Ok(lines),
    }
}

// The least refused line, including those of these settings that can't be beside the lines. Each is read a second time,
// since all lines are known only after the last of them.
fn least_clashing<L: FunctionLine>(
    alloc: Global,
    lines: &[L],
    settings: &[Setting],
    least: Option<u32>,
) -> Result<Option<u32>, AllocError>
    ensures { IfOk result (λ line. line ≡ fold lesser least (clashing L.kind_lines lines.now settings.now)) }
{
    let mut least = least;
    'settings: for place in 0..settings.len() {
        let setting = &settings[place];
        let line = L::read(alloc, setting.words.as_slice())?;
        least = least_refused(least, L::clashes(lines, &line), setting.line);
    }
    Ok(least)
}

// Keeps the line, if there is one.
fn keep<L: Drop>(lines: &mut Items<L>, line: Option<L>) -> Result<(), AllocError>
    ensures { OnOk result (lines.new ≡ lines.old ++ option_to_list line) }
{
    if let Some(line) = line {
        lines.push(line)?;
    }
    Ok(())
}

// The least refused line, including `setting`, which was read as `line` and follows `before`.
#[tactic(auto, using(crate::proofs::Gathering::stays_least))]
fn least_behind<L>(
    least: Option<u32>,
    line: &Option<L>,
    before: &[Setting],
    setting: &Setting,
) -> Option<u32>
    ensures { result ≡ (if (is_none line.now || repeats before.now setting.now) then lesser least setting.now.line else least) }
{
    match least {
        // It is the least whether or not this one is refused, so the lines before need no second pass.
        Some(other) if other <= setting.line => least,
        _ => least_refused(least, is_refused(line, before, setting), setting.line),
    }
}

// Is `setting` refused, which was read as `line` and follows `before`?
fn is_refused<L>(line: &Option<L>, before: &[Setting], setting: &Setting) -> bool
    ensures { result ≡ (is_none line.now || repeats before.now setting.now) }
{
    line.is_none() || repeats(before, setting)
}
