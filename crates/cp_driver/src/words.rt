// The words of the command line.
ghost use Rattle.std.specs.Prelude.{◌≡◌, IfOk, option_map, true, false};
ghost use Rattle.clap.specs.Matches.{found_of};
ghost use Rattle.clap.specs.Words.{app_of, kind_of, rule_of, rows_of};
ghost use Rattle.cp_driver.specs.Jobs.{assembly_option, command, dump_option, file_word, has_flag, job_of, job_of_options, options_of, stage_of, task_of};
ghost use Rattle.cp_driver.specs.Asked.{job_now, options_now};

use crate::job::{Job, Stage, Task};
use clap::builder::ValueParser;
use clap::error::ErrorKind;
use clap::{Arg, ArgAction, ArgMatches, Command, Error};
use cp_base::Name;
use std::alloc::{AllocError, Global};

/// The job that the words ask for; none, where they are no job.
pub fn job_of<'a>(alloc: Global, words: &'a [Name]) -> Result<Option<Job<'a>>, AllocError>
    ensures { IfOk result (λ job. option_map job_now job ≡ job_of words.now) }
{
    let command = command(alloc)?;
    match command.try_get_matches_from(words) {
        Ok(matches) => Ok(options_of(&matches).job()),
        Err(error) if is_out_of_memory(&error) => Err(AllocError),
        Err(_) => Ok(None),
    }
}

fn is_out_of_memory(error: &Error) -> bool
    ensures yes { kind_of error.now ≡ ErrorKind.OutOfMemory → result ≡ true }
    ensures only { result ≡ true → kind_of error.now ≡ ErrorKind.OutOfMemory }
{
    error.kind() == ErrorKind::OutOfMemory
}

// What the words say.
#[derive(Clone, Copy)]
struct Options<'a> {
    assembly: bool,
    dump: Option<&'a str>,
    file: Option<&'a str>,
}

fn options_of<'a>(matches: &ArgMatches<'a>) -> Options<'a>
    ensures { options_now result ≡ options_of (rows_of (found_of matches.now)) }
{
    Options {
        assembly: has_flag(matches, "assembly"),
        dump: matches.get_str("dump"),
        file: matches.get_str("file"),
    }
}

// A flag's value is the text `true` where the words have it.
fn has_flag(matches: &ArgMatches<'_>, id: &str) -> bool
    ensures { result ≡ has_flag id.now (rows_of (found_of matches.now)) }
{
    match matches.get_str(id) {
        Some(text) => text == "true",
        None => false,
    }
}

impl<'a> Options<'a> {
    fn job(self) -> Option<Job<'a>>
        ensures { option_map job_now result ≡ job_of_options (options_now self.entry) }
    {
        let task = self.task()?;
        let file = self.file?;
        Some(Job { task, file })
    }

    // The one task that is asked for.
    fn task(self) -> Option<Task>
        ensures { result ≡ task_of (options_now self.entry).assembly (options_now self.entry).dump }
    {
        match self.dump {
            None => Some(Task::Compile),
            Some(_) if self.assembly => None,
            Some(name) => Some(Task::Dump(stage_of(name)?)),
        }
    }
}

// The stage of this name.
fn stage_of(name: &str) -> Option<Stage>
    ensures { result ≡ stage_of name.now }
{
    if name == "tokens" {
        Some(Stage::Tokens)
    } else if name == "tree" {
        Some(Stage::Tree)
    } else {
        None
    }
}

// `cparser [-S] [--dump STAGE] [FILE]`
fn command<'a>(alloc: Global) -> Result<Command<'a>, AllocError>
    ensures { IfOk result (λ c. app_of c ≡ command) }
{
    Command::new(alloc, "cparser")
        .disable_help_flag(true)
        .arg(assembly_option(alloc))?
        .arg(dump_option(alloc))?
        .arg(file_word(alloc))
}

// `-S`
fn assembly_option<'a>(alloc: Global) -> Arg<'a>
    ensures rule { rule_of result ≡ assembly_option }
    ensures local { result.global ≡ false }
{
    Arg::new(alloc, "assembly")
        .short('S')
        .action(ArgAction::SetTrue)
}

// `--dump STAGE`
fn dump_option<'a>(alloc: Global) -> Arg<'a>
    ensures rule { rule_of result ≡ dump_option }
    ensures local { result.global ≡ false }
{
    Arg::new(alloc, "dump")
        .long("dump")
        .action(ArgAction::Set)
        .value_parser(ValueParser::NonEmptyString)
}

// FILE
fn file_word<'a>(alloc: Global) -> Arg<'a>
    ensures rule { rule_of result ≡ file_word }
    ensures local { result.global ≡ false }
{
    Arg::new(alloc, "file")
        .action(ArgAction::Set)
        .value_parser(ValueParser::NonEmptyString)
}
