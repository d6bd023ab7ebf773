//! How often a function and each of its lines were used.
ghost use Rattle.std.specs.Prelude.{◌≡◌, [], IfOk, map, slice_index};
ghost use Rattle.policy_text.specs.declared.policy.FunctionDecl.{FunctionDecl};
ghost use Rattle.declared_lines.specs.LinesOf.{lines_of};
ghost use Rattle.why_report.specs.Uses.{use_of, raised, is_hit, NotesAct, NotesHits, TellsHit};

use declared_lines::DeclaredLines;
use packet_function::DecidingLine;
use std::alloc::{AllocError, Global};
use std::marker::Model;

/// How many packets a function saw, changed and dropped, and how many each of its lines decided. A count stops at
/// 2^64 - 1.
#[derive(Debug, Drop)]
pub struct FunctionUse {
    /// The packets that reached the function.
    pub saw: u64,
    /// Those whose frame it changed.
    pub changed: u64,
    /// Those that it dropped.
    pub dropped: u64,
    /// Those that each of its lines decided.
    pub hits: Hits,
}

impl FunctionUse {
    /// The use of a function with these lines that no packet has reached.
    pub fn none(alloc: Global, lines: &DeclaredLines) -> Result<FunctionUse, AllocError>
        ensures { (decl : FunctionDecl) → lines.now ≡ lines_of decl → IfOk result (λ used. used ≡ use_of decl []) }
    {
        let hits = Hits::none(alloc, lines.deciders())?;
        Ok(FunctionUse {
            saw: 0,
            changed: 0,
            dropped: 0,
            hits,
        })
    }

    /// Notes what the function did to one more packet: the lines that decided it, and whether it `dropped` the packet
    /// or `changed` its frame. A line that decides twice counts once. Allocates nothing.
    pub fn note(
        &mut self,
        lines: &DeclaredLines,
        deciding: &[DecidingLine],
        dropped: bool,
        changed: bool,
    )
        ensures { NotesAct lines.now deciding.now dropped changed self.old self.new }
    {
        self.saw = raised(self.saw, true);
        self.changed = raised(self.changed, changed);
        self.dropped = raised(self.dropped, dropped);
        self.hits.note(lines, deciding);
    }
}

/// The hits of the lines of a declaration that can decide, lowest line first. Contracts see the list of the numbers.
#[derive(Debug, Drop)]
pub struct Hits {
    counts: Vec<u64>,
}

impl Model for Hits {
    ghost use Rattle.std.specs.Prelude.{List, ℕ};

    ghost Value = { List ℕ };

    ghost view = { λ hits. hits.counts.items };
}

impl Hits {
    // No hits of each of these lines.
    fn none(alloc: Global, lines: &[u32]) -> Result<Hits, AllocError>
        ensures { IfOk result (λ none. none ≡ map (λ line. 0) lines.now) }
    {
        let counts = lines.iter().map(|_| 0).collect(alloc)?;
        Ok(Hits { counts })
    }

    /// The hits of the line at this place, counted from 0.
    pub fn at(&self, place: usize) -> u64
        ensures { result ≡ slice_index self.now place }
    {
        match self.counts.as_slice().get(place) {
            Some(count) => *count,
            None => 0,
        }
    }

    // One more for each line that is among the deciding ones.
    fn note(&mut self, lines: &DeclaredLines, deciding: &[DecidingLine])
        ensures { NotesHits lines.now deciding.now self.old self.new }
    {
        raise_each(self.counts.as_mut_slice(), lines, deciding);
    }
}

fn raise_each(counts: &mut [u64], lines: &DeclaredLines, deciding: &[DecidingLine])
    ensures { NotesHits lines.now deciding.now counts.old counts.new }
{
    'counts: for (place, count) in counts.iter_mut().enumerate() {
        *count = raised(*count, is_hit(lines, deciding, place));
    }
}

// Is the line at this place among the deciding ones?
fn is_hit(lines: &DeclaredLines, deciding: &[DecidingLine], place: usize) -> bool
    ensures { TellsHit lines.now deciding.now place result }
{
    match lines.deciders().get(place) {
        Some(line) => is_among(lines, deciding, *line),
        None => false,
    }
}

fn is_among(lines: &DeclaredLines, deciding: &[DecidingLine], line: u32) -> bool
    ensures { (decl : FunctionDecl) → lines.now ≡ lines_of decl → result ≡ is_hit decl deciding.now line }
{
    'roles: for role in deciding {
        if lines.number(*role) == line {
            return true;
        }
    }
    false
}

// The count, one higher if this holds.
fn raised(count: u64, holds: bool) -> u64
    ensures { result ≡ raised count holds }
{
    if holds {
        count.saturating_add(1)
    } else {
        count
    }
}
