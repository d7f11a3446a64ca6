//! The command of `node` and `pool`, and its parse.

ghost use Rattle.std.specs.Prelude.{◌≡◌, [], map, IfOk, IsErrOf, ◌≢◌, true, string_bytes};
ghost use Rattle.clap.specs.Words.{app_of, with_rule, fault_of, matches_of, rows_of};
ghost use Rattle.clap.specs.Matches.{found_of};
ghost use Rattle.node_words.specs.Options.{option_rule, flag_rule, plan_app};

use crate::plan::PlanError;
use clap::error::ErrorKind;
use clap::{Arg, ArgAction, ArgMatches, Command};
use std::alloc::{AllocError, Global};

/// The command with an option that takes a value.
fn with_option<'a>(
    alloc: Global,
    command: Command<'a>,
    name: &'a str,
) -> Result<Command<'a>, AllocError>
    ensures { IfOk result (λ c. app_of c ≡ with_rule (app_of command.entry) (option_rule name.now)) }
{
    let option = Arg::new(alloc, name).long(name).action(ArgAction::Set);
    command.arg(option)
}

/// The command with a flag.
fn with_flag<'a>(
    alloc: Global,
    command: Command<'a>,
    name: &'a str,
) -> Result<Command<'a>, AllocError>
    ensures { IfOk result (λ c. app_of c ≡ with_rule (app_of command.entry) (flag_rule name.now)) }
{
    let flag = Arg::new(alloc, name).long(name).action(ArgAction::SetTrue);
    command.arg(flag)
}

/// The command of `node` and `pool`.
fn command<'a>(alloc: Global) -> Result<Command<'a>, AllocError>
    ensures { IfOk result (λ c. app_of c ≡ plan_app) }
{
    let command = Command::new(alloc, "l2tp").disable_help_flag(true);
    let command = with_option(alloc, command, "role")?;
    let command = with_option(alloc, command, "number")?;
    let command = with_option(alloc, command, "listen")?;
    let command = with_option(alloc, command, "peer")?;
    let command = with_option(alloc, command, "store")?;
    let command = with_option(alloc, command, "turns")?;
    let command = with_option(alloc, command, "secret")?;
    let command = with_option(alloc, command, "port")?;
    let command = with_option(alloc, command, "ether")?;
    let command = with_option(alloc, command, "uplink")?;
    let command = with_option(alloc, command, "seed")?;
    let command = with_option(alloc, command, "workers")?;
    let command = with_flag(alloc, command, "hide")?;
    let command = with_flag(alloc, command, "open")?;
    Ok(command)
}

/// Parses the words, of which the first is the command's name. `Usage` comes exactly where clap's definition has a fault.
pub(crate) fn parse<'a>(alloc: Global, words: &'a [String]) -> Result<ArgMatches<'a>, PlanError>
    ensures taken { IfOk result (λ m. fault_of plan_app (map string_bytes words.now) ≡ []) }
    ensures matches { IfOk result (λ m. rows_of (found_of m) ≡ matches_of plan_app (map string_bytes words.now)) }
    ensures usage { IsErrOf result PlanError.Usage → fault_of plan_app (map string_bytes words.now) ≢ [] }
{
    let command = command(alloc)?;
    match command.try_get_matches_from(words) {
        Ok(matches) => Ok(matches),
        Err(error) if error.kind() == ErrorKind::OutOfMemory => Err(PlanError::NoMemory),
        Err(_) => Err(PlanError::Usage),
    }
}
