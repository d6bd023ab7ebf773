//! The definition of a command for `clap`: required names, and options with a value.
ghost use Rattle.std.specs.Prelude.{◌≡◌, IfOk, false, [], map};
ghost use Rattle.clap.specs.Words.{app_of, rule_of};
ghost use Rattle.command_words.specs.Apps.{app, name_rule, option_rule, rule_for, with_rules};

use clap::{Arg, ArgAction, Command};
use std::alloc::{AllocError, Global};

/// What may follow a command.
pub enum Argument<'a> {
    /// A required name.
    Name(&'a str),
    /// An option with a value.
    Option(&'a str),
}

fn name<'a>(alloc: Global, id: &'a str) -> Arg<'a>
    ensures rule { rule_of result ≡ name_rule id.entry.now }
    ensures local { result.global ≡ false }
{
    Arg::new(alloc, id).required(true).action(ArgAction::Set)
}

fn option<'a>(alloc: Global, id: &'a str) -> Arg<'a>
    ensures rule { rule_of result ≡ option_rule id.entry.now }
    ensures local { result.global ≡ false }
{
    Arg::new(alloc, id).long(id).action(ArgAction::Set)
}

fn told<'a>(alloc: Global, argument: &Argument<'a>) -> Arg<'a>
    ensures rule { rule_of result ≡ rule_for argument.now }
    ensures local { result.global ≡ false }
{
    match argument {
        Argument::Name(id) => name(alloc, id),
        Argument::Option(id) => option(alloc, id),
    }
}

// A command to which no name and no option was added.
fn without_arguments<'a>(alloc: Global, name: &'a str) -> Command<'a>
    ensures { app_of result ≡ app name.entry.now [] [] }
{
    Command::new(alloc, name)
        .no_binary_name(true)
        .disable_help_flag(true)
        .disable_version_flag(true)
}

/// A command with these names and options, the names in their order.
pub fn command<'a>(
    alloc: Global,
    name: &'a str,
    arguments: &[Argument<'a>],
) -> Result<Command<'a>, AllocError>
    ensures { IfOk result (λ c. app_of c ≡ with_rules (app name.entry.now [] []) (map rule_for arguments.now)) }
{
    let mut command = without_arguments(alloc, name);
    for argument in arguments {
        command = command.arg(told(alloc, argument))?;
    }
    Ok(command)
}
