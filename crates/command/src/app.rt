// The command that `clap` is given.
ghost use Rattle.std.specs.Prelude.{◌≡◌, false, IfOk};
ghost use Rattle.clap.specs.Simple.{app_of, with_rule, with_subcommand};
ghost use Rattle.clap.specs.Walk.{rule_of};
ghost use Rattle.clap.specs.declared.builder.command.Command.TheViews.{out-Command as fields_of};
ghost use Rattle.command.specs.App.{file_rule, certificate_rule, args_rule, input_rule, steps_rule, tight_rule, cert_rule, seed_rule, lines_rule, audit_app};
ghost use Rattle.command.specs.App.{with_run_rules, check_app, self_app, cub_alone, cub_app};

use clap::builder::ValueParser;
use clap::{Arg, ArgAction, Command};
use std::alloc::{AllocError, Global};

/// The file of the program.
pub fn file_arg<'a>(alloc: Global) -> Arg<'a>
    ensures rule { rule_of result ≡ file_rule }
    ensures local { result.global ≡ false }
{
    Arg::new(alloc, "FILE").required(true)
}

fn certificate_arg<'a>(alloc: Global) -> Arg<'a>
    ensures rule { rule_of result ≡ certificate_rule }
    ensures local { result.global ≡ false }
{
    Arg::new(alloc, "CERT").required(true)
}

/// Any number of words for the program.
pub fn args_arg<'a>(alloc: Global) -> Arg<'a>
    ensures rule { rule_of result ≡ args_rule }
    ensures local { result.global ≡ false }
{
    Arg::new(alloc, "ARGS").num_args(0..)
}

fn input_arg<'a>(alloc: Global) -> Arg<'a>
    ensures rule { rule_of result ≡ input_rule }
    ensures local { result.global ≡ false }
{
    Arg::new(alloc, "input")
        .long("input")
        .action(ArgAction::Set)
}

/// The most steps, from 1 to 100,000,000; 1,000,000 where none are given.
pub fn steps_arg<'a>(alloc: Global) -> Arg<'a>
    ensures rule { rule_of result ≡ steps_rule }
    ensures local { result.global ≡ false }
{
    Arg::new(alloc, "steps")
        .long("steps")
        .action(ArgAction::Set)
        .value_parser(ValueParser::Unsigned(1, 100000000))
        .default_value("1000000")
}

/// Whether objects stand close.
pub fn tight_arg<'a>(alloc: Global) -> Arg<'a>
    ensures rule { rule_of result ≡ tight_rule }
    ensures local { result.global ≡ false }
{
    Arg::new(alloc, "tight")
        .long("tight")
        .action(ArgAction::SetTrue)
}

fn cert_arg<'a>(alloc: Global) -> Arg<'a>
    ensures rule { rule_of result ≡ cert_rule }
    ensures local { result.global ≡ false }
{
    Arg::new(alloc, "cert").long("cert").action(ArgAction::Set)
}

fn seed_arg<'a>(alloc: Global) -> Arg<'a>
    ensures rule { rule_of result ≡ seed_rule }
    ensures local { result.global ≡ false }
{
    Arg::new(alloc, "SEED")
        .required(true)
        .value_parser(ValueParser::Unsigned(0, 65536))
}

fn lines_arg<'a>(alloc: Global) -> Arg<'a>
    ensures rule { rule_of result ≡ lines_rule }
    ensures local { result.global ≡ false }
{
    Arg::new(alloc, "N")
        .required(true)
        .value_parser(ValueParser::Unsigned(1, 20000))
}

/// Adds an argument to a command.
pub fn with_arg<'a>(command: Command<'a>, arg: Arg<'a>) -> Result<Command<'a>, AllocError>
    requires local { arg.global ≡ false }
    requires no_globals { (fields_of command).has_globals ≡ false }
    ensures app { IfOk result (λ new. app_of new ≡ with_rule (app_of command.entry) (rule_of arg.entry)) }
    ensures local { IfOk result (λ new. (fields_of new).has_globals ≡ false) }
{
    command.arg(arg)
}

/// Adds the arguments that say which run is meant, but for the program's own.
pub fn with_run_args<'a>(alloc: Global, command: Command<'a>) -> Result<Command<'a>, AllocError>
    requires no_globals { (fields_of command).has_globals ≡ false }
    ensures app { IfOk result (λ new. app_of new ≡ with_run_rules (app_of command.entry)) }
    ensures local { IfOk result (λ new. (fields_of new).has_globals ≡ false) }
{
    let command = with_arg(command, file_arg(alloc))?;
    let command = with_arg(command, input_arg(alloc))?;
    let command = with_arg(command, steps_arg(alloc))?;
    let command = with_arg(command, tight_arg(alloc))?;
    Ok(command)
}

fn audit_command<'a>(alloc: Global) -> Result<Command<'a>, AllocError>
    ensures app { IfOk result (λ command. app_of command ≡ audit_app) }
    ensures local { IfOk result (λ command. (fields_of command).has_globals ≡ false) }
{
    let command = with_run_args(alloc, Command::new(alloc, "audit"))?;
    let command = with_arg(command, cert_arg(alloc))?;
    let command = with_arg(command, args_arg(alloc))?;
    Ok(command)
}

fn check_command<'a>(alloc: Global) -> Result<Command<'a>, AllocError>
    ensures app { IfOk result (λ command. app_of command ≡ check_app) }
    ensures local { IfOk result (λ command. (fields_of command).has_globals ≡ false) }
{
    let command = Command::new(alloc, "check");
    let command = with_arg(command, file_arg(alloc))?;
    let command = with_arg(command, certificate_arg(alloc))?;
    let command = with_arg(command, input_arg(alloc))?;
    let command = with_arg(command, args_arg(alloc))?;
    Ok(command)
}

fn self_command<'a>(alloc: Global) -> Result<Command<'a>, AllocError>
    ensures app { IfOk result (λ command. app_of command ≡ self_app) }
    ensures local { IfOk result (λ command. (fields_of command).has_globals ≡ false) }
{
    let command = Command::new(alloc, "self");
    let command = with_arg(command, seed_arg(alloc))?;
    let command = with_arg(command, lines_arg(alloc))?;
    Ok(command)
}

/// Adds a subcommand to a command.
pub fn with_command<'a>(command: Command<'a>, sub: Command<'a>) -> Result<Command<'a>, AllocError>
    requires no_globals { (fields_of command).has_globals ≡ false }
    requires local { (fields_of sub).has_globals ≡ false }
    ensures app { IfOk result (λ new. app_of new ≡ with_subcommand (app_of command.entry) (app_of sub.entry).top) }
    ensures local { IfOk result (λ new. (fields_of new).has_globals ≡ false) }
{
    command.subcommand(sub)
}

/// The command that reads words with no program's name in front, without its subcommands.
pub fn cub_without_commands<'a>(alloc: Global) -> Command<'a>
    ensures app { app_of result ≡ cub_alone }
    ensures local { (fields_of result).has_globals ≡ false }
{
    Command::new(alloc, "cub")
        .no_binary_name(true)
        .subcommand_required(true)
        .disable_help_subcommand(true)
}

/// The command that reads the words, with no program's name in front.
pub fn cub_command<'a>(alloc: Global) -> Result<Command<'a>, AllocError>
    ensures app { IfOk result (λ command. app_of command ≡ cub_app) }
    ensures local { IfOk result (λ command. (fields_of command).has_globals ≡ false) }
{
    let command = cub_without_commands(alloc);
    let command = with_command(command, audit_command(alloc)?)?;
    let command = with_command(command, check_command(alloc)?)?;
    let command = with_command(command, self_command(alloc)?)?;
    Ok(command)
}
