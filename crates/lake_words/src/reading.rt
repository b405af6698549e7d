//! The reader of the words.
ghost use Rattle.std.specs.Prelude.{◌≡◌, IfOk, MatchResult, map, option_map};
ghost use Rattle.clap.specs.Words.{fault_of, first_of, found_of, kind_of, rows_of, subcommand_of, subcommand_rows_of, FailsBy};
ghost use Rattle.lake_words.specs.Words.{commands};
ghost use Rattle.lake_words.specs.Asked.{command_view, given_number, optional_number_in, text_in, work_of, work_view, ProgramCommand, AsksFor, Spells};
ghost use Rattle.lake_words.specs.Spelling.{SpellsJob};
ghost use Rattle.lake_words.specs.declared.command.Command.{Command};

use crate::command::{Command, Job, TableCommand};
use crate::parser::parser;
use clap::error::ErrorKind;
use clap::{ArgMatches, Error};
use std::alloc::Global;
use std::convert::AsStr;

/// The text that was given, if one was.
fn optional_text_in<'a>(matches: &ArgMatches<'a>, id: &str) -> Option<&'a str>
    ensures { option_map (λ text. text.now) result ≡ first_of id.now (rows_of (found_of matches.now)) }
{
    matches.get_str(id)
}

/// The text that was given.
fn text_in<'a>(matches: &ArgMatches<'a>, id: &str) -> &'a str
    ensures { result.now ≡ text_in id.now (rows_of (found_of matches.now)) }
{
    optional_text_in(matches, id).unwrap_or("")
}

/// The number that was given, if one was.
fn optional_number_in(matches: &ArgMatches<'_>, id: &str) -> Option<u64>
    ensures { result ≡ optional_number_in id.now (rows_of (found_of matches.now)) }
{
    matches.get_one::<u64>(id)
}

/// The number that was given.
fn number_in(matches: &ArgMatches<'_>, id: &str) -> u64
    ensures { result ≡ given_number id.now (rows_of (found_of matches.now)) }
{
    optional_number_in(matches, id).unwrap_or(0)
}

/// What is to be done, by the subcommand's name.
fn job_in<'a>(name: &str, matches: &ArgMatches<'a>) -> Option<Job<'a>>
    ensures { option_map work_view result ≡ work_of name.now (rows_of (found_of matches.now)) }
{
    let job = match name {
        "create" => Job::Create {
            id: text_in(matches, "id"),
            schema: text_in(matches, "schema"),
            at: number_in(matches, "at"),
        },
        "append" => Job::Append {
            application: text_in(matches, "APP"),
            number: number_in(matches, "NUMBER"),
            at: number_in(matches, "at"),
            tries: number_in(matches, "tries"),
            rows: optional_number_in(matches, "rows"),
        },
        "close" => Job::Close {
            application: text_in(matches, "APP"),
            at: number_in(matches, "at"),
            tries: number_in(matches, "tries"),
        },
        "load" => Job::Load {
            workers: number_in(matches, "workers"),
            at: number_in(matches, "at"),
            tries: number_in(matches, "tries"),
        },
        "tail" => Job::Tail {
            max: number_in(matches, "max"),
            offset: text_in(matches, "from"),
        },
        "snapshot" => Job::Snapshot,
        "checkpoint" => Job::Checkpoint,
        "history" => Job::History,
        _ => return None,
    };
    Some(job)
}

fn command_in<'a>(matches: &ArgMatches<'a>) -> Command<'a>
    ensures { AsksFor (subcommand_rows_of matches.now) result }
{
    let Some((name, matches)) = matches.subcommand() else {
        return Command::Script {
            use_checkpoints: true,
        };
    };
    let use_checkpoints = !matches.get_flag("no-checkpoint");
    if name == "check" {
        let folder = text_in(matches, "DIR");
        return Command::Check { folder };
    }
    if name == "explain" {
        let asked = optional_text_in(matches, "CODE");
        return Command::Explain { asked };
    }
    match job_in(name, matches) {
        Some(job) => Command::Table(TableCommand {
            folder: text_in(matches, "DIR"),
            use_checkpoints,
            job,
        }),
        None => Command::Script { use_checkpoints },
    }
}

/// Reads the words of a command line, of which the first is the program's name. `Spells` lists the words that ask for a
/// script and `SpellsJob` those that ask for a job on a table, for its check or for what refusals mean, with options
/// in the order in which the help has them; `found` says of all other words, too, what they are read as.
pub fn read_words<'a, S: AsStr>(alloc: Global, words: &'a [S]) -> Result<Command<'a>, Error>
    // What is read is what `clap` finds in the words, and an error is one that they have.
    ensures found { IfOk result (AsksFor (subcommand_of commands (map S.text words.now))) }
    ensures kinds { FailsBy (fault_of commands (map S.text words.now)) result }

    // Words that ask for a script are read as that command, unless memory runs out.
    ensures spelled { (command : Command) → Spells (map S.text words.now) command
        → MatchResult result (λ read. read ≡ command) (λ e. kind_of e ≡ ErrorKind.OutOfMemory) }

    // And words that ask for a job on a table, for its check or for what refusals mean are read as that.
    ensures job_spelled { (asked : ProgramCommand) → SpellsJob (map S.text words.now) asked
        → MatchResult result (λ read. command_view read ≡ asked) (λ e. kind_of e ≡ ErrorKind.OutOfMemory) }
{
    let matches = parser(alloc)?.try_get_matches_from(words)?;
    Ok(command_in(&matches))
}
