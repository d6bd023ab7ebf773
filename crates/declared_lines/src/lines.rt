//! The numbers of the lines of a declaration.
ghost use Rattle.std.specs.Prelude.{◌≡◌, ◌∷◌, [], if◌then◌else◌, IfOk};
ghost use Rattle.policy_text.specs.declared.policy.FunctionDecl.{FunctionDecl};
ghost use Rattle.packet_function.specs.declared.deciding.DecidingLine.TheVariants.{Set};
ghost use Rattle.declared_lines.specs.DeclaredLines.{rule_lines, set_line, number_of, declaration_decides, deciders};
ghost use Rattle.declared_lines.specs.LinesOf.{lines_of};

use crate::roles::{can_decide, is_rule, sets};
use action_profile::Kind;
use item_list::Items;
use packet_function::{DecidingLine, SettingKey};
use policy_text::FunctionDecl;
use std::alloc::{AllocError, Global};

/// The numbers of the lines of a declaration, by their roles. Where a `set` line isn't there, the `fn` line stands for it.
#[derive(Debug, Drop)]
pub struct DeclaredLines {
    declaration: u32,
    rules: Items<u32>,
    default: u32,
    inside: u32,
    public: u32,
    ports: u32,
    rate: u32,
    deciding: Items<u32>,
}

impl DeclaredLines {
    /// The numbers of the lines of `decl`. The only error is that memory runs out.
    pub fn of(alloc: Global, decl: &FunctionDecl) -> Result<DeclaredLines, AllocError>
        ensures { IfOk result (λ lines. lines ≡ lines_of decl.now) }
    {
        let rules = rule_lines(alloc, decl)?;
        let deciding = deciders(alloc, decl)?;
        Ok(DeclaredLines {
            declaration: decl.line,
            rules,
            default: set_number(decl, SettingKey::Default),
            inside: set_number(decl, SettingKey::Inside),
            public: set_number(decl, SettingKey::Public),
            ports: set_number(decl, SettingKey::Ports),
            rate: set_number(decl, SettingKey::Rate),
            deciding,
        })
    }

    /// The number of the line that has this role. Takes the same time for any declaration.
    pub fn number(&self, line: DecidingLine) -> u32
        ensures { (decl : FunctionDecl) → self.now ≡ lines_of decl → result ≡ number_of decl line }
    {
        match line {
            DecidingLine::Rule(place) => match self.rules.as_slice().get(place) {
                Some(number) => *number,
                None => self.declaration,
            },
            DecidingLine::Set(key) => self.set_number(key),
            DecidingLine::Declaration => self.declaration,
        }
    }

    fn set_number(&self, key: SettingKey) -> u32
        ensures { (decl : FunctionDecl) → self.now ≡ lines_of decl → result ≡ number_of decl (Set key) }
    {
        match key {
            SettingKey::Default => self.default,
            SettingKey::Inside => self.inside,
            SettingKey::Public => self.public,
            SettingKey::Ports => self.ports,
            SettingKey::Rate => self.rate,
        }
    }

    /// The numbers of the lines that can decide, lowest first.
    pub fn deciders(&self) -> &[u32]
        ensures { (decl : FunctionDecl) → self.now ≡ lines_of decl → result.now ≡ deciders decl }
    {
        self.deciding.as_slice()
    }
}

fn rule_lines(alloc: Global, decl: &FunctionDecl) -> Result<Items<u32>, AllocError>
    ensures { IfOk result (λ lines. lines ≡ rule_lines decl.now) }
{
    let mut lines = Items::new(Vec::new(alloc));
    'settings: for setting in decl.settings.as_slice() {
        if is_rule(setting) {
            lines.push(setting.line)?;
        }
    }
    Ok(lines)
}

// The number of the `set` line of this key, or of the `fn` line.
fn set_number(decl: &FunctionDecl, key: SettingKey) -> u32
    ensures { result ≡ number_of decl.now (Set key) }
{
    set_line(decl, key).unwrap_or(decl.line)
}

fn set_line(decl: &FunctionDecl, key: SettingKey) -> Option<u32>
    ensures { result ≡ set_line decl.now key }
{
    let settings = decl.settings.as_slice();
    let found = settings.iter().find(|setting| sets(key, setting));
    found.map(|setting| setting.line)
}

// Can the `fn` line decide?
fn declaration_decides(decl: &FunctionDecl) -> bool
    ensures { result ≡ declaration_decides decl.now (decl.now).kind }
{
    match decl.kind {
        Kind::Firewall => set_line(decl, SettingKey::Default).is_none(),
        Kind::Nat | Kind::Hop => true,
        _ => false,
    }
}

fn deciders(alloc: Global, decl: &FunctionDecl) -> Result<Items<u32>, AllocError>
    ensures { IfOk result (λ lines. lines ≡ deciders decl.now) }
{
    let kind = decl.kind;
    let mut lines = lead(alloc, decl)?;
    'settings: for setting in decl.settings.as_slice() {
        if can_decide(kind, setting) {
            lines.push(setting.line)?;
        }
    }
    Ok(lines)
}

// The `fn` line alone, if it can decide.
fn lead(alloc: Global, decl: &FunctionDecl) -> Result<Items<u32>, AllocError>
    ensures { IfOk result (λ lines. lines ≡ (if declaration_decides decl.now (decl.now).kind then (decl.now).line ∷ [] else [])) }
{
    let mut lines = Items::new(Vec::new(alloc));
    if declaration_decides(decl) {
        lines.push(decl.line)?;
    }
    Ok(lines)
}
