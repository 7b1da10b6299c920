// The program's commands and their arguments, as `clap` is told of them.
ghost use Rattle.clap.specs.Words.{app_of, rule_of};
ghost use Rattle.command_words.specs.Application.{Gains, flag_rule, option_rule, positional_rule, the_app, with_maybe_name, with_name, with_options, with_pair, with_served, with_volume, with_what_if};
ghost use Rattle.std.specs.Prelude.{◌≡◌, false, IfOk};

use clap::{Arg, ArgAction, Command};
use std::alloc::{AllocError, Global};

/// The program as a command of `clap`: one of its subcommands has to be given, and there is no help and no version.
pub(crate) fn application<'a>(alloc: Global) -> Result<Command<'a>, AllocError>
    ensures { IfOk result (λ made. app_of made ≡ the_app) }
{
    Command::new(alloc, "wol")
        .no_binary_name(true)
        .disable_help_flag(true)
        .disable_help_subcommand(true)
        .disable_version_flag(true)
        .subcommand_required(true)
        .subcommand(of_volume(alloc, Command::new(alloc, "solo"))?)?
        .subcommand(of_maybe_name(alloc, Command::new(alloc, "format"))?)?
        .subcommand(of_options(alloc, Command::new(alloc, "replay"))?)?
        .subcommand(Command::new(alloc, "check"))?
        .subcommand(Command::new(alloc, "dump"))?
        .subcommand(of_pair(alloc, Command::new(alloc, "gen"), "SEED", "LINES")?)?
        .subcommand(of_what_if(alloc, Command::new(alloc, "whatif"))?)?
        .subcommand(of_pair(alloc, Command::new(alloc, "view-add"), "NAME", "LOGGER")?)?
        .subcommand(of_pair(alloc, Command::new(alloc, "view-remove"), "NAME", "LOGGER")?)?
        .subcommand(Command::new(alloc, "clean"))?
        .subcommand(of_name(alloc, Command::new(alloc, "nbd"))?)?
        .subcommand(of_served(alloc, Command::new(alloc, "serve"))?)?
        .subcommand(of_options(
            alloc,
            of_pair(alloc, Command::new(alloc, "soak"), "SEED", "LINES")?,
        )?)
}

// The command with two arguments of these names.
fn of_pair<'a>(
    alloc: Global,
    command: Command<'a>,
    first: &'a str,
    second: &'a str,
) -> Result<Command<'a>, AllocError>
    ensures { IfOk result (Gains (with_pair first.entry.now second.entry.now) command.entry) }
{
    command
        .arg(positional(alloc, first))?
        .arg(positional(alloc, second))
}

// The command with the arguments that name a volume.
fn of_volume<'a>(alloc: Global, command: Command<'a>) -> Result<Command<'a>, AllocError>
    ensures { IfOk result (Gains with_volume command.entry) }
{
    of_pair(alloc, command, "HOST", "DISK")?.arg(positional(alloc, "BLOCKS"))
}

// The command with the argument that names a volume of the configuration.
fn of_name<'a>(alloc: Global, command: Command<'a>) -> Result<Command<'a>, AllocError>
    ensures { IfOk result (Gains with_name command.entry) }
{
    command.arg(positional(alloc, "NAME"))
}

// The command with an argument that may name a volume of the configuration.
fn of_maybe_name<'a>(alloc: Global, command: Command<'a>) -> Result<Command<'a>, AllocError>
    ensures { IfOk result (Gains with_maybe_name command.entry) }
{
    command.arg(Arg::new(alloc, "NAME"))
}

// The command with the argument that names a volume of the configuration, and the option of how long it waits.
fn of_served<'a>(alloc: Global, command: Command<'a>) -> Result<Command<'a>, AllocError>
    ensures { IfOk result (Gains with_served command.entry) }
{
    of_name(alloc, command)?.arg(option(alloc, "wait"))
}

// The command with the options of what is printed of policies, and by which timeout.
fn of_what_if<'a>(alloc: Global, command: Command<'a>) -> Result<Command<'a>, AllocError>
    ensures { IfOk result (Gains with_what_if command.entry) }
{
    command
        .arg(option(alloc, "timeout"))?
        .arg(flag(alloc, "long"))?
        .arg(flag(alloc, "volumes"))
}

// The command with the options of a run over a trace.
fn of_options<'a>(alloc: Global, command: Command<'a>) -> Result<Command<'a>, AllocError>
    ensures { IfOk result (Gains with_options command.entry) }
{
    command
        .arg(option(alloc, "workers"))?
        .arg(option(alloc, "reclaim"))?
        .arg(flag(alloc, "each"))
}

// An argument that is known by its place, and has to be given.
fn positional<'a>(alloc: Global, name: &'a str) -> Arg<'a>
    ensures rule { rule_of result ≡ positional_rule name.entry.now }
    ensures global { result.global ≡ false }
{
    Arg::new(alloc, name).required(true)
}

// An option that has a value.
fn option<'a>(alloc: Global, name: &'a str) -> Arg<'a>
    ensures rule { rule_of result ≡ option_rule name.entry.now }
    ensures global { result.global ≡ false }
{
    Arg::new(alloc, name).long(name)
}

// An option without a value.
fn flag<'a>(alloc: Global, name: &'a str) -> Arg<'a>
    ensures rule { rule_of result ≡ flag_rule name.entry.now }
    ensures global { result.global ≡ false }
{
    option(alloc, name).action(ArgAction::SetTrue)
}
