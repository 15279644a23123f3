//! The commands as their arguments.

ghost use Rattle.std.specs.Prelude.{◌≡◌, false, IfOk};
ghost use Rattle.clap.specs.Words.{app_of, rule_of, with_rule};
ghost use Rattle.ja_words.specs.Commands.{bare_command, confirm_app, demo_app, sign_app, sign_files, positional, option, switch};

use clap::{Arg, ArgAction, Command};
use std::alloc::{AllocError, Global};

fn bare_command<'a>(alloc: Global, name: &'a str) -> Command<'a>
    ensures { app_of result ≡ bare_command name.entry.now }
{
    Command::new(alloc, name)
        .no_binary_name(true)
        .disable_help_flag(true)
        .disable_version_flag(true)
}

fn positional<'a>(alloc: Global, id: &'a str, required: bool) -> Arg<'a>
    ensures rule { rule_of result ≡ positional id.entry.now required }
    ensures local { result.global ≡ false }
{
    Arg::new(alloc, id)
        .required(required)
        .action(ArgAction::Set)
}

fn option<'a>(alloc: Global, id: &'a str) -> Arg<'a>
    ensures rule { rule_of result ≡ option id.entry.now }
    ensures local { result.global ≡ false }
{
    Arg::new(alloc, id).long(id).action(ArgAction::Set)
}

fn switch<'a>(alloc: Global, id: &'a str) -> Arg<'a>
    ensures rule { rule_of result ≡ switch id.entry.now }
    ensures local { result.global ≡ false }
{
    Arg::new(alloc, id).long(id).action(ArgAction::SetTrue)
}

fn with<'a>(command: Command<'a>, arg: Arg<'a>) -> Result<Command<'a>, AllocError>
    requires { arg.global ≡ false }
    ensures { IfOk result (λ more. app_of more ≡ with_rule (app_of command.entry)
        (rule_of arg.entry)) }
{
    let command = command.arg(arg)?;
    Ok(command)
}

pub(crate) fn confirm_command<'a>(alloc: Global) -> Result<Command<'a>, AllocError>
    ensures { IfOk result (λ command. app_of command ≡ confirm_app) }
{
    let command = bare_command(alloc, "confirm");
    let command = with(command, positional(alloc, "design", true))?;
    let command = with(command, positional(alloc, "stim", true))?;
    let command = with(command, positional(alloc, "expect", false))?;
    Ok(command)
}

fn sign_files<'a>(alloc: Global) -> Result<Command<'a>, AllocError>
    ensures { IfOk result (λ command. app_of command ≡ sign_files) }
{
    let command = bare_command(alloc, "sign");
    let command = with(command, positional(alloc, "design", true))?;
    let command = with(command, positional(alloc, "expect", false))?;
    Ok(command)
}

pub(crate) fn sign_command<'a>(alloc: Global) -> Result<Command<'a>, AllocError>
    ensures { IfOk result (λ command. app_of command ≡ sign_app) }
{
    let command = sign_files(alloc)?;
    let command = with(command, option(alloc, "workers"))?;
    let command = with(command, option(alloc, "budget"))?;
    let command = with(command, switch(alloc, "fail-fast"))?;
    let command = with(command, switch(alloc, "journal"))?;
    Ok(command)
}

pub(crate) fn demo_command<'a>(alloc: Global) -> Result<Command<'a>, AllocError>
    ensures { IfOk result (λ command. app_of command ≡ demo_app) }
{
    let command = bare_command(alloc, "demo");
    let command = with(command, positional(alloc, "n", true))?;
    let command = with(command, option(alloc, "workers"))?;
    Ok(command)
}
