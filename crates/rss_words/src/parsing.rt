// Good words, read by clap.
ghost use Rattle.std.specs.Prelude.{◌≡◌, ℕ, ◌≤◌, false, Some, IfOk, map, string_bytes};
ghost use Rattle.clap.specs.Words.{found_of, rows_of, rule_of, app_of};
ghost use Rattle.rss_model.specs.Generator.{most_employees};
ghost use Rattle.rss_words.specs.Words.{IsCommand, AskFor};
ghost use Rattle.rss_words.specs.Rows.{required, IsRow, task_row, format_row, generate_row, trial_row, bare, rss, Has, Finds};

use crate::command::Command;
use crate::task::Task;
use clap::error::ErrorKind;
use clap::{Arg, ArgMatches};
use rss_line::{MOST_EMPLOYEES, read_number};
use std::alloc::{AllocError, Global};

/// A word that is to follow.
fn word<'a>(alloc: Global, name: &'a str) -> Arg<'a>
    ensures rule { rule_of result ≡ required name.entry.now }
    ensures local { result.global ≡ false }
{
    Arg::new(alloc, name).required(true)
}

fn format_row<'a>(alloc: Global) -> Result<clap::Command<'a>, AllocError>
    ensures { IfOk result (IsRow format_row) }
{
    clap::Command::new(alloc, "format")
        .arg(word(alloc, "FILE"))?
        .arg(word(alloc, "N"))?
        .arg(word(alloc, "G"))
}

/// The row of a task.
fn task_row<'a>(alloc: Global, name: &'a str) -> Result<clap::Command<'a>, AllocError>
    ensures { IfOk result (IsRow (task_row name.entry.now)) }
{
    clap::Command::new(alloc, name).arg(word(alloc, "FILE"))
}

fn generate_row<'a>(alloc: Global) -> Result<clap::Command<'a>, AllocError>
    ensures { IfOk result (IsRow generate_row) }
{
    clap::Command::new(alloc, "gen")
        .arg(word(alloc, "NUMBER"))?
        .arg(word(alloc, "COUNT"))
}

fn trial_row<'a>(alloc: Global) -> Result<clap::Command<'a>, AllocError>
    ensures { IfOk result (IsRow trial_row) }
{
    clap::Command::new(alloc, "trial")
        .arg(word(alloc, "FILE"))?
        .arg(word(alloc, "NUMBER"))?
        .arg(word(alloc, "COUNT"))
}

/// The program without its subcommands, one of which is to be there.
fn bare<'a>(alloc: Global) -> clap::Command<'a>
    ensures { app_of result ≡ bare }
{
    clap::Command::new(alloc, "rss")
        .subcommand_required(true)
        .disable_help_flag(true)
        .disable_help_subcommand(true)
        .disable_version_flag(true)
}

/// The subcommands, and the words that follow each.
fn rss<'a>(alloc: Global) -> Result<clap::Command<'a>, AllocError>
    ensures { IfOk result (λ command. app_of command ≡ rss) }
{
    bare(alloc)
        .subcommand(format_row(alloc)?)?
        .subcommand(task_row(alloc, "run")?)?
        .subcommand(generate_row(alloc)?)?
        .subcommand(trial_row(alloc)?)?
        .subcommand(task_row(alloc, "talk")?)
}

/// The command of good words. clap refuses them only for want of memory.
pub fn parse(alloc: Global, words: &[String]) -> Result<Command, AllocError>
    requires { IsCommand (map string_bytes words.now) }
    ensures { IfOk result (AskFor (map string_bytes words.now)) }
{
    match rss(alloc)?.try_get_matches_from(words) {
        Ok(matches) => match command_of(&matches) {
            Some(command) => Ok(command),
            None => unreachable!(),
        },
        Err(error) => {
            let lacks_memory = error.kind() == ErrorKind::OutOfMemory;
            prove!(lacks_memory);
            Err(AllocError)
        }
    }
}

/// The command that was found.
fn command_of(matches: &ArgMatches) -> Option<Command>
    ensures { (command : Command) → Finds matches.now command → result ≡ Some command }
{
    let (name, values) = matches.subcommand()?;
    match name {
        "format" => Some(Command::Format {
            slots: number_in(values, "N")?,
            log_pages: number_in(values, "G")?,
        }),
        "gen" => Some(Command::Generate {
            number: number_in(values, "NUMBER")?,
            count: count_in(values, "COUNT")?,
        }),
        "trial" => Some(Command::Trial {
            number: number_in(values, "NUMBER")?,
            count: count_in(values, "COUNT")?,
        }),
        _ => Some(Command::OnFile(Task::named(name)?)),
    }
}

/// How many employees an argument asks for.
fn count_in(values: &ArgMatches, name: &str) -> Option<u32>
    ensures { (n : ℕ) → Has (rows_of (found_of values.now)) name.now n → n ≤ most_employees
        → result ≡ Some n }
{
    let count = number_in(values, name)?;
    if count <= u64::from(MOST_EMPLOYEES) {
        Some(count as u32)
    } else {
        None
    }
}

/// The number that an argument is.
fn number_in(values: &ArgMatches, name: &str) -> Option<u64>
    ensures { (n : ℕ) → Has (rows_of (found_of values.now)) name.now n → result ≡ Some n }
{
    let number = read_number(values.get_str(name)?)?;
    Some(number)
}
