//! The arguments of a subcommand, read by `clap` as those of one simple command whose arguments are required texts.
ghost use Rattle.std.specs.Prelude.{◌≡◌, ◌≢◌, ◌⊎◌, [], false, map, string_bytes, IfOk, IfErr};
ghost use Rattle.clap.specs.Words.{app_of, rows_of, rule_of, found_of};
ghost use Rattle.clap.specs.declared.error.kind.ErrorKind.TheVariants.{OutOfMemory};
ghost use Rattle.program_edge.specs.Rows.{row_of, memory_row};
ghost use Rattle.key_commands.specs.Texts.{key_usage};
ghost use Rattle.key_commands.specs.Parsing.{required_text, simple_command, command_of, refusals, found, value_in};

use crate::refusals::usage_refusal;
use crate::subcommands::Subcommand;
use clap::error::ErrorKind;
use clap::{Arg, ArgMatches, Command};
use program_edge::Refusal;
use std::alloc::{AllocError, Global};

/// What `clap` finds in the arguments from the subcommand on, or the refusal of arguments that it doesn't take.
pub fn parse<'a>(
    alloc: Global,
    subcommand: Subcommand,
    words: &'a [String],
) -> Result<ArgMatches<'a>, Refusal>
    ensures taken { IfOk result (λ _. refusals subcommand (map string_bytes words.entry.now) ≡ []) }
    ensures values { IfOk result (λ matches. rows_of (found_of matches)
        ≡ found subcommand (map string_bytes words.entry.now)) }
    ensures refused { IfErr result (λ row. (row ≡ memory_row)
        ⊎ (refusals subcommand (map string_bytes words.entry.now) ≢ [] × (row ≡ row_of 2 key_usage))) }
{
    let command = match command_of(alloc, subcommand) {
        Ok(command) => command,
        Err(AllocError) => return Err(Refusal::no_memory()),
    };
    let matches = match command.try_get_matches_from(words) {
        Ok(matches) => matches,
        Err(error) => return Err(refusal_of(error.kind())),
    };
    Ok(matches)
}

/// The simple command that reads the arguments of a subcommand.
fn command_of<'a>(alloc: Global, subcommand: Subcommand) -> Result<Command<'a>, AllocError>
    ensures { IfOk result (λ command. app_of command ≡ command_of subcommand) }
{
    match subcommand {
        Subcommand::Make => simple_command(
            alloc,
            "make",
            &["UID", "ID", "AUTH", "COUNTER", "FLAGS", "NEWKEY", "AUTHKEY"],
        ),
        Subcommand::Read => simple_command(alloc, "read", &["AUTHKEY", "M1", "M2", "M3"]),
        Subcommand::Confirm => simple_command(
            alloc,
            "confirm",
            &["UID", "ID", "AUTH", "COUNTER", "NEWKEY", "M4", "M5"],
        ),
        Subcommand::Bootmac => simple_command(alloc, "bootmac", &["KEY", "IMAGE"]),
        Subcommand::Load => simple_command(alloc, "load", &["FILE", "UID"]),
    }
}

/// The simple command of this name whose arguments are required texts of these names.
fn simple_command<'a>(
    alloc: Global,
    name: &'a str,
    values: &[&'a str],
) -> Result<Command<'a>, AllocError>
    ensures { IfOk result (λ command. app_of command
        ≡ simple_command name.entry.now (map (λ value. value.now) values.now)) }
{
    let mut command = Command::new(alloc, name);
    for value in values {
        command = command.arg(required_text(alloc, *value))?;
    }
    Ok(command)
}

/// An argument that is a required text.
fn required_text<'a>(alloc: Global, name: &'a str) -> Arg<'a>
    ensures rule { rule_of result ≡ required_text name.entry.now }
    ensures local { result.global ≡ false }
{
    Arg::new(alloc, name).required(true)
}

/// The refusal by the kind of error that `clap` gives.
fn refusal_of(kind: ErrorKind) -> Refusal
    ensures { ((kind ≡ OutOfMemory) × (result ≡ memory_row))
        ⊎ (¬ (kind ≡ OutOfMemory) × (result ≡ row_of 2 key_usage)) }
{
    match kind {
        ErrorKind::OutOfMemory => Refusal::no_memory(),
        _ => usage_refusal(),
    }
}

/// The value of this name.
#[tactic(auto, using(crate::proofs::Values::value_found))]
pub fn value_of<'a>(matches: &ArgMatches<'a>, name: &str) -> &'a [u8]
    ensures { result.now ≡ value_in (rows_of (found_of matches.now)) name.now }
{
    match matches.get_str(name) {
        Some(text) => text.as_bytes(),
        None => b"",
    }
}
