// The command for a person that `clap` is given.
ghost use Rattle.std.specs.Prelude.{◌≡◌, false, IfOk};
ghost use Rattle.clap.specs.Simple.{app_of};
ghost use Rattle.clap.specs.Walk.{rule_of};
ghost use Rattle.clap.specs.declared.builder.command.Command.TheViews.{out-Command as fields_of};
ghost use Rattle.person_command.specs.PersonApp.{json_rule, text_rule, names_rule, program_rule, list_rule, topic_rule, object_rule, explain_app, batch_app};
ghost use Rattle.person_command.specs.PersonApp.{help_app, version_app, run_app, static_app, story_app, person_app};

use clap::{Arg, ArgAction, Command};
use command::{
    args_arg, cub_without_commands, file_arg, steps_arg, tight_arg, with_arg, with_command,
    with_run_args,
};
use std::alloc::{AllocError, Global};

fn json_arg<'a>(alloc: Global) -> Arg<'a>
    ensures rule { rule_of result ≡ json_rule }
    ensures local { result.global ≡ false }
{
    Arg::new(alloc, "json")
        .long("json")
        .action(ArgAction::SetTrue)
}

fn text_arg<'a>(alloc: Global) -> Arg<'a>
    ensures rule { rule_of result ≡ text_rule }
    ensures local { result.global ≡ false }
{
    Arg::new(alloc, "text")
        .long("text")
        .action(ArgAction::SetTrue)
}

fn names_arg<'a>(alloc: Global) -> Arg<'a>
    ensures rule { rule_of result ≡ names_rule }
    ensures local { result.global ≡ false }
{
    Arg::new(alloc, "NAME").required(true).num_args(1..)
}

fn program_arg<'a>(alloc: Global) -> Arg<'a>
    ensures rule { rule_of result ≡ program_rule }
    ensures local { result.global ≡ false }
{
    Arg::new(alloc, "program")
        .long("program")
        .action(ArgAction::Set)
}

fn list_arg<'a>(alloc: Global) -> Arg<'a>
    ensures rule { rule_of result ≡ list_rule }
    ensures local { result.global ≡ false }
{
    Arg::new(alloc, "list")
        .long("list")
        .action(ArgAction::SetTrue)
}

fn topic_arg<'a>(alloc: Global) -> Arg<'a>
    ensures rule { rule_of result ≡ topic_rule }
    ensures local { result.global ≡ false }
{
    Arg::new(alloc, "COMMAND")
}

fn object_arg<'a>(alloc: Global) -> Arg<'a>
    ensures rule { rule_of result ≡ object_rule }
    ensures local { result.global ≡ false }
{
    Arg::new(alloc, "NAME").required(true)
}

fn explain_command<'a>(alloc: Global) -> Result<Command<'a>, AllocError>
    ensures app { IfOk result (λ command. app_of command ≡ explain_app) }
    ensures local { IfOk result (λ command. (fields_of command).has_globals ≡ false) }
{
    let command = with_run_args(alloc, Command::new(alloc, "explain"))?;
    let command = with_arg(command, args_arg(alloc))?;
    let command = with_arg(command, json_arg(alloc))?;
    let command = with_arg(command, text_arg(alloc))?;
    Ok(command)
}

fn batch_command<'a>(alloc: Global) -> Result<Command<'a>, AllocError>
    ensures app { IfOk result (λ command. app_of command ≡ batch_app) }
    ensures local { IfOk result (λ command. (fields_of command).has_globals ≡ false) }
{
    let command = Command::new(alloc, "batch");
    let command = with_arg(command, names_arg(alloc))?;
    let command = with_arg(command, program_arg(alloc))?;
    let command = with_arg(command, list_arg(alloc))?;
    let command = with_arg(command, steps_arg(alloc))?;
    let command = with_arg(command, tight_arg(alloc))?;
    Ok(command)
}

fn help_command<'a>(alloc: Global) -> Result<Command<'a>, AllocError>
    ensures app { IfOk result (λ command. app_of command ≡ help_app) }
    ensures local { IfOk result (λ command. (fields_of command).has_globals ≡ false) }
{
    let command = Command::new(alloc, "help");
    let command = with_arg(command, topic_arg(alloc))?;
    Ok(command)
}

fn version_command<'a>(alloc: Global) -> Command<'a>
    ensures app { app_of result ≡ version_app }
    ensures local { (fields_of result).has_globals ≡ false }
{
    Command::new(alloc, "version")
}

// A command that is told which run is meant, and nothing else.
fn run_command<'a>(alloc: Global, name: &'a str) -> Result<Command<'a>, AllocError>
    ensures app { IfOk result (λ command. app_of command ≡ run_app name.now) }
    ensures local { IfOk result (λ command. (fields_of command).has_globals ≡ false) }
{
    let command = with_run_args(alloc, Command::new(alloc, name))?;
    let command = with_arg(command, args_arg(alloc))?;
    Ok(command)
}

fn static_command<'a>(alloc: Global) -> Result<Command<'a>, AllocError>
    ensures app { IfOk result (λ command. app_of command ≡ static_app) }
    ensures local { IfOk result (λ command. (fields_of command).has_globals ≡ false) }
{
    let command = Command::new(alloc, "static");
    let command = with_arg(command, file_arg(alloc))?;
    Ok(command)
}

fn story_command<'a>(alloc: Global) -> Result<Command<'a>, AllocError>
    ensures app { IfOk result (λ command. app_of command ≡ story_app) }
    ensures local { IfOk result (λ command. (fields_of command).has_globals ≡ false) }
{
    let command = with_run_args(alloc, Command::new(alloc, "story"))?;
    let command = with_arg(command, object_arg(alloc))?;
    let command = with_arg(command, args_arg(alloc))?;
    Ok(command)
}

/// The command for a person, with no program's name in front.
pub fn person_command<'a>(alloc: Global) -> Result<Command<'a>, AllocError>
    ensures app { IfOk result (λ command. app_of command ≡ person_app) }
    ensures local { IfOk result (λ command. (fields_of command).has_globals ≡ false) }
{
    let command = cub_without_commands(alloc);
    let command = with_command(command, explain_command(alloc)?)?;
    let command = with_command(command, batch_command(alloc)?)?;
    let command = with_command(command, help_command(alloc)?)?;
    let command = with_command(command, version_command(alloc))?;
    let command = with_command(command, run_command(alloc, "errors")?)?;
    let command = with_command(command, static_command(alloc)?)?;
    let command = with_command(command, run_command(alloc, "swap")?)?;
    let command = with_command(command, story_command(alloc)?)?;
    Ok(command)
}
