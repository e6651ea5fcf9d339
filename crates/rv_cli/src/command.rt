//! The program's command.
ghost use Rattle.std.specs.Prelude.{◌≡◌, false, IfOk};
ghost use Rattle.clap.specs.Words.{app_of, rule_of};
ghost use Rattle.rv_cli.specs.Command.{HasOptions, IsCommand, ListsModels, bare_app, files_rule};
ghost use Rattle.rv_cli.specs.Command.{flag_rule, model_rule, slots_rule, text_rule, with_flags};
ghost use Rattle.rv_cli.specs.Command.{with_names, workers_rule};

use crate::help;
use clap::{Arg, ArgAction, Command, value_parser};
use std::alloc::{AllocError, Global};

/// The names of the memory models.
static MODELS: [&str; 2] = ["rvwmo", "tso"];

/// `--workers`.
fn workers_arg<'a>(alloc: Global) -> Arg<'a>
    ensures rule { rule_of result ≡ workers_rule }
    ensures local { result.global ≡ false }
{
    Arg::new(alloc, "workers")
        .long("workers")
        .action(ArgAction::Set)
        .value_name("N")
        .value_parser(value_parser!(u8).range(1..=24))
        .default_value("4")
        .help(help::WORKERS)
}

/// `--slots`.
fn slots_arg<'a>(alloc: Global) -> Arg<'a>
    ensures rule { rule_of result ≡ slots_rule }
    ensures local { result.global ≡ false }
{
    Arg::new(alloc, "slots")
        .long("slots")
        .action(ArgAction::Set)
        .value_name("N")
        .value_parser(value_parser!(u8).range(2..=16))
        .default_value("8")
        .help(help::SLOTS)
}

/// `--model`.
fn model_arg<'a>(alloc: Global) -> Arg<'a>
    ensures rule { (names : _) × ListsModels names × (rule_of result ≡ model_rule names) }
    ensures local { result.global ≡ false }
{
    Arg::new(alloc, "model")
        .long("model")
        .action(ArgAction::Set)
        .value_name("MODEL")
        .value_parser(MODELS.as_slice())
        .hide_possible_values(true)
        .default_value("rvwmo")
        .help(help::MODEL)
}

/// The flag of this name.
fn flag<'a>(alloc: Global, name: &'a str, help: &'a str) -> Arg<'a>
    ensures rule { rule_of result ≡ flag_rule name.now }
    ensures local { result.global ≡ false }
{
    Arg::new(alloc, name)
        .long(name)
        .action(ArgAction::SetTrue)
        .help(help)
}

/// The option of this name that takes a text, which help calls so.
fn text_option<'a>(alloc: Global, name: &'a str, value: &'a str, help: &'a str) -> Arg<'a>
    ensures rule { rule_of result ≡ text_rule name.now }
    ensures local { result.global ≡ false }
{
    Arg::new(alloc, name)
        .long(name)
        .action(ArgAction::Set)
        .value_name(value)
        .help(help)
}

/// `FILE`.
fn files_arg<'a>(alloc: Global) -> Arg<'a>
    ensures rule { rule_of result ≡ files_rule }
    ensures local { result.global ≡ false }
{
    Arg::new(alloc, "FILE")
        .action(ArgAction::Append)
        .help(help::FILES)
}

/// The command without its arguments, for words without the program's name.
fn bare_command<'a>(alloc: Global) -> Command<'a>
    ensures { app_of result ≡ bare_app }
{
    Command::new(alloc, "rvmon")
        .no_binary_name(true)
        .about(help::ABOUT)
        .after_help(help::FORMAT)
}

/// The command with the options that have a value in any case.
fn with_options<'a>(alloc: Global) -> Result<Command<'a>, AllocError>
    ensures { IfOk result (λ c. HasOptions (app_of c)) }
{
    bare_command(alloc)
        .arg(workers_arg(alloc))?
        .arg(slots_arg(alloc))?
        .arg(model_arg(alloc))
}

/// The command with the flags too.
fn with_flags<'a>(alloc: Global, command: Command<'a>) -> Result<Command<'a>, AllocError>
    ensures { IfOk result (λ c. app_of c ≡ with_flags (app_of command.entry)) }
{
    command
        .arg(flag(alloc, "json", help::JSON))?
        .arg(flag(alloc, "carriers", help::CARRIERS))?
        .arg(flag(alloc, "explain", help::EXPLAIN))?
        .arg(flag(alloc, "svg", help::SVG))?
        .arg(flag(alloc, "coverage", help::COVERAGE))?
        .arg(flag(alloc, "complete", help::COMPLETE))?
        .arg(flag(alloc, "strength", help::STRENGTH))
}

/// The command with the names of files too.
fn with_names<'a>(alloc: Global, command: Command<'a>) -> Result<Command<'a>, AllocError>
    ensures { IfOk result (λ c. app_of c ≡ with_names (app_of command.entry)) }
{
    command
        .arg(text_option(alloc, "where", "ROWS", help::WHERE))?
        .arg(text_option(alloc, "list", "LIST", help::LIST))?
        .arg(files_arg(alloc))
}

/// The command.
pub(crate) fn command_of<'a>(alloc: Global) -> Result<Command<'a>, AllocError>
    ensures { IfOk result (λ c. IsCommand (app_of c)) }
{
    let command = with_options(alloc)?;
    let command = with_flags(alloc, command)?;
    with_names(alloc, command)
}
