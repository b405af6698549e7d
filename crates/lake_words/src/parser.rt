//! The commands of the program, for `clap`.
ghost use Rattle.std.specs.Prelude.{◌≡◌, IfOk, false};
ghost use Rattle.clap.specs.Words.{App, app_of, rule_of, with_subcommand};
ghost use Rattle.clap.specs.declared.builder.command.Command.TheViews.{out-Command as fields_of};
ghost use Rattle.lake_words.specs.Words as words;
ghost use Rattle.lake_words.specs.Words.{commands};
ghost use Rattle.lake_words.specs.Arguments.{app_in, rule_in, with_subcommands};

use crate::arguments::{Argument, Kind};
use crate::subcommands::{STATUSES, SUBCOMMANDS, Subcommand, help_of};
use clap::builder::ValueParser;
use clap::{Arg, ArgAction, Command};
use std::alloc::{AllocError, Global};

/// What `--version` prints behind the program's name: the product's version, which is that of its sources, and the
/// toolchain that they are made for. A program can't tell whether it was built from proved crates.
const VERSION: &str =
    "0.1.0 (made for the Rattle kit of logic dac8208d650f15bf; claims no proof of this build)";

const ABOUT: &str = "Exactly-once batches in a Delta Lake table";

/// An argument.
fn argument<'a>(alloc: Global, said: &Argument) -> Arg<'a>
    ensures rule { rule_of result ≡ rule_in said.now }
    ensures local { result.global ≡ false }
{
    let name = said.name;
    let arg = Arg::new(alloc, name).help(said.help);
    match said.kind {
        Kind::Place => arg.action(ArgAction::Set).required(true),
        Kind::OptionalPlace => arg.action(ArgAction::Set),
        Kind::NumberPlace => arg
            .action(ArgAction::Set)
            .required(true)
            .value_parser(ValueParser::Unsigned(0, u64::MAX)),
        Kind::Text(value) => arg
            .long(name)
            .action(ArgAction::Set)
            .value_name(value)
            .required(true),
        Kind::TextOr { value, default } => arg
            .long(name)
            .action(ArgAction::Set)
            .value_name(value)
            .default_value(default),
        Kind::Number(greatest) => arg
            .long(name)
            .action(ArgAction::Set)
            .value_name("N")
            .value_parser(ValueParser::Unsigned(0, greatest)),
        Kind::NeededNumber(greatest) => arg
            .long(name)
            .action(ArgAction::Set)
            .value_name("N")
            .required(true)
            .value_parser(ValueParser::Unsigned(0, greatest)),
        Kind::NumberOr {
            value,
            least,
            greatest,
            default,
        } => arg
            .long(name)
            .action(ArgAction::Set)
            .value_name(value)
            .value_parser(ValueParser::Unsigned(least, greatest))
            .default_value(default),
        Kind::Flag => arg.long(name).action(ArgAction::SetTrue),
    }
}

/// A subcommand with its arguments.
fn subcommand<'a>(alloc: Global, said: &Subcommand) -> Result<Command<'a>, AllocError>
    ensures app { IfOk result (λ command. app_of command ≡ app_in said.now) }
    ensures local { IfOk result (λ command. (fields_of command).has_globals ≡ false) }
{
    let arguments = said.arguments;
    let mut command = Command::new(alloc, said.name)
        .about(said.about)
        .after_help(help_of(said.name));
    for one in arguments {
        command = command.arg(argument(alloc, one))?;
    }
    Ok(command)
}

/// A command with one more subcommand, which is taken as it was made: where a command is held over a `?`, its whole
/// drop is to be proved.
fn with_subcommand<'a>(
    command: Command<'a>,
    sub: Result<Command<'a>, AllocError>,
) -> Result<Command<'a>, AllocError>
    requires sub { IfOk sub (λ made. (fields_of made).has_globals ≡ false) }
    requires above { (fields_of command).has_globals ≡ false }
    ensures app { (app : App) → IfOk sub.entry (λ made. app_of made ≡ app)
        → IfOk result (λ more. app_of more ≡ with_subcommand (app_of command.entry) app.top) }
    ensures local { IfOk result (λ more. (fields_of more).has_globals ≡ false) }
{
    command.subcommand(sub?)
}

/// A command with these subcommands.
fn with_subcommands<'a>(
    alloc: Global,
    command: Command<'a>,
    subcommands: &[Subcommand],
) -> Result<Command<'a>, AllocError>
    requires above { (fields_of command).has_globals ≡ false }
    ensures { IfOk result (λ more. app_of more ≡ with_subcommands (app_of command.entry) subcommands.now) }
{
    let mut more = command;
    for said in subcommands {
        more = with_subcommand(more, subcommand(alloc, said))?;
    }
    Ok(more)
}

/// What the program can be asked for.
fn subcommands() -> &'static [Subcommand]
    ensures { with_subcommands words.top result.now ≡ commands }
{
    SUBCOMMANDS
}

/// The program's commands.
pub(crate) fn parser<'a>(alloc: Global) -> Result<Command<'a>, AllocError>
    ensures { IfOk result (λ parser. app_of parser ≡ commands) }
{
    let top = Command::new(alloc, "lake")
        .about(ABOUT)
        .after_help(STATUSES)
        .version(VERSION)
        .subcommand_required(true);
    with_subcommands(alloc, top, subcommands())
}
