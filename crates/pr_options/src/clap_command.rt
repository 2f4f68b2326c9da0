//! The program's command with its subcommands and options, as clap takes it.

ghost use Rattle.std.specs.Prelude.{◌≡◌, IfOk, None, false};
ghost use Rattle.clap.specs.Words.{app_of, new_app, rule_of};
ghost use Rattle.pr_options.specs.CommandLine.{input_rule, kind_rule, output_rule, print1525, rule, subcommand};
ghost use Rattle.pr_options.specs.Rows.{command_name};
ghost use Rattle.pr_options.specs.Subcommands.{IsLocal, alone, row_view, with_files};

use crate::help;
use crate::help::HelpText;
use crate::options::{
    ALL_LINES, FileArgument, INPUT, Kind, OUTPUT, OUTPUT_LETTER, Opt, OptionRow, Subcommand,
};
use clap::{Arg, ArgAction, Command};
use std::alloc::{AllocError, Global};

/// What help calls a file.
const FILE: &str = "FILE";

/// The version of the program, and the kit and the program logic in which it is proved.
const VERSION: &str = "1.0.0 (rattle-kit-13f, logic dac8208d650f15bf)";

/// An option.
fn option_argument<'a>(alloc: Global, opt: Opt) -> Arg<'a>
    ensures rule { rule_of result ≡ rule opt }
    ensures local { result.global ≡ false }
{
    let row = opt.row();
    match row.kind {
        Kind::Value => value_option(alloc, row),
        Kind::Lines => lines_option(alloc, row),
        Kind::Flag => flag_option(alloc, row, opt.letter()),
        Kind::File => file_option(alloc, row),
    }
}

/// An option with a value.
fn value_option<'a>(alloc: Global, row: OptionRow) -> Arg<'a>
    ensures rule { rule_of result ≡ kind_rule Kind.Value None (row_view row) }
    ensures local { result.global ≡ false }
{
    Arg::new(alloc, row.name)
        .long(row.name)
        .value_name(row.value)
        .default_value(row.default)
        .help(row.help)
        .hide_default_value(is_told(row))
}

/// Whether the help of an option says its default in words: it is the empty text, or FILE says another one.
fn is_told(row: OptionRow) -> bool {
    row.default.is_empty() || row.file == INPUT.name
}

/// An option that lines of the bus may follow.
fn lines_option<'a>(alloc: Global, row: OptionRow) -> Arg<'a>
    ensures rule { rule_of result ≡ kind_rule Kind.Lines None (row_view row) }
    ensures local { result.global ≡ false }
{
    value_option(alloc, row)
        .num_args(..=1)
        .default_missing_value(ALL_LINES)
}

/// An option without a value, and with a letter if it has one.
fn flag_option<'a>(alloc: Global, row: OptionRow, letter: Option<char>) -> Arg<'a>
    ensures rule { rule_of result ≡ kind_rule Kind.Flag letter (row_view row) }
    ensures local { result.global ≡ false }
{
    let flag = Arg::new(alloc, row.name)
        .long(row.name)
        .action(ArgAction::SetTrue)
        .help(row.help);
    match letter {
        Some(letter) => flag.short(letter),
        None => flag,
    }
}

/// An option that names a file.
fn file_option<'a>(alloc: Global, row: OptionRow) -> Arg<'a>
    ensures rule { rule_of result ≡ kind_rule Kind.File None (row_view row) }
    ensures local { result.global ≡ false }
{
    Arg::new(alloc, row.name)
        .long(row.name)
        .value_name(FILE)
        .help(row.help)
}

/// The file that is read.
fn input_argument<'a>(alloc: Global, file: FileArgument) -> Arg<'a>
    ensures rule { rule_of result ≡ input_rule file.name.now }
    ensures local { result.global ≡ false }
{
    Arg::new(alloc, file.name).value_name(FILE).help(file.help)
}

/// The file that is written.
fn output_option<'a>(alloc: Global, file: FileArgument) -> Arg<'a>
    ensures rule { rule_of result ≡ output_rule file.name.now }
    ensures local { result.global ≡ false }
{
    Arg::new(alloc, file.name)
        .long(file.name)
        .short(OUTPUT_LETTER)
        .value_name(FILE)
        .help(file.help)
}

/// A command with its help, and no option yet.
fn new_command<'a>(alloc: Global, name: &'a str, text: HelpText) -> Command<'a>
    ensures app { app_of result ≡ new_app name.entry.now }
    ensures local { IsLocal result }
{
    Command::new(alloc, name)
        .about(text.about)
        .override_usage(text.usage)
        .after_help(text.more)
}

/// What help says of a subcommand.
fn help_of(command: Subcommand) -> HelpText {
    match command {
        Subcommand::Pages => help::PAGES,
        Subcommand::Bus => help::BUS,
        Subcommand::Check => help::CHECK,
        Subcommand::Decode => help::DECODE,
        Subcommand::Raw => help::RAW,
    }
}

/// A subcommand with its files, and no other option yet.
fn file_command<'a>(alloc: Global, name: &'a str, text: HelpText) -> Result<Command<'a>, AllocError>
    ensures app { IfOk result (λ c. app_of c ≡ with_files name.entry.now) }
    ensures local { IfOk result IsLocal }
{
    let command = new_command(alloc, name, text);
    let one = command.arg(input_argument(alloc, INPUT))?;
    let whole = one.arg(output_option(alloc, OUTPUT))?;
    Ok(whole)
}

/// A subcommand.
fn subcommand<'a>(alloc: Global, which: Subcommand) -> Result<Command<'a>, AllocError>
    ensures app { IfOk result (λ c. app_of c ≡ alone (subcommand which)) }
    ensures local { IfOk result IsLocal }
{
    let name: &'a str = which.name();
    let options = which.options();
    let mut whole = file_command(alloc, name, help_of(which))?;
    for opt in options {
        whole = whole.arg(option_argument(alloc, *opt))?;
    }
    Ok(whole)
}

/// The command with its subcommands.
pub fn make_command<'a>(alloc: Global) -> Result<Command<'a>, AllocError>
    ensures app { IfOk result (λ c. app_of c ≡ print1525) }
    ensures local { IfOk result IsLocal }
{
    let program = new_command(alloc, "print1525", help::PROGRAM)
        .version(VERSION)
        .subcommand_required(true)
        .disable_help_subcommand(true);
    let all = Subcommand::all();
    let mut whole = program;
    for which in all {
        let made = subcommand(alloc, *which)?;
        whole = whole.subcommand(made)?;
    }
    Ok(whole)
}
