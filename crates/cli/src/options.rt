//! The options of a program: a table of them, and the values that the arguments give them.
ghost use Rattle.std.specs.Prelude.{◌≡◌, false, map, option_map, IfOk};
ghost use Rattle.clap.specs.Words.{all_of, app_of, found_of, rows_of, rule_of};
ghost use Rattle.cli.specs.Options.{HasFlag, HasNumber, named_rule, option_text};
ghost use Rattle.cli.specs.Options.{rule_of_row, value_rule, with_rules};

use clap::builder::ValueParser;
use clap::{Arg, ArgAction, ArgMatches, Command};
use std::alloc::{AllocError, Global};

/// An option of a program.
#[derive(Clone, Copy)]
pub struct OptionRow<'a> {
    /// The name after the two dashes.
    pub name: &'a str,
    /// What follows the name.
    pub takes: Takes<'a>,
    /// The help text.
    pub help: &'a str,
}

/// What an option takes. The first text is the name of the value in the help. The help lists no possible values, since
/// the row's own help text has them.
#[derive(Clone, Copy)]
pub enum Takes<'a> {
    /// No value: a flag.
    Nothing,
    /// Any text. The option has to be given.
    Required(&'a str),
    /// Any text; the second one is the default.
    Text(&'a str, &'a str),
    /// Any text; the second one is the default, which the help doesn't show.
    HiddenText(&'a str, &'a str),
    /// A whole number from the first to the second; the last text is the default.
    Number(&'a str, i64, i64, &'a str),
    /// A whole number from the first to the second. There is no default.
    MaybeNumber(&'a str, i64, i64),
    /// One of these names; the last text is the default.
    Name(&'a str, &'a [&'a str], &'a str),
    /// One of these names. The option may be repeated.
    Names(&'a str, &'a [&'a str]),
}

/// Adds the options of these rows to a command line, after those that it has, and returns it.
///
/// # Errors
///
/// If memory can't be allocated.
pub fn with_options<'a>(
    alloc: Global,
    mut command: Command<'a>,
    rows: &[OptionRow<'a>],
) -> Result<Command<'a>, AllocError>
    ensures { IfOk result (λ with. app_of with
        ≡ with_rules (app_of command.entry) (map rule_of_row rows.now)) }
{
    for row in rows {
        command = command.arg(option(alloc, *row))?;
    }
    Ok(command)
}

/// Returns the option of a row.
fn option<'a>(alloc: Global, row: OptionRow<'a>) -> Arg<'a>
    ensures rule { rule_of result ≡ rule_of_row row.entry }
    ensures local { result.global ≡ false }
{
    match row.takes {
        Takes::Nothing => named(alloc, row).action(ArgAction::SetTrue),
        Takes::Required(called) => value(alloc, row, called).required(true),
        Takes::Text(called, default) => value(alloc, row, called).default_value(default),
        Takes::HiddenText(called, default) => value(alloc, row, called)
            .default_value(default)
            .hide_default_value(true),
        Takes::Number(called, least, most, default) => value(alloc, row, called)
            .value_parser(ValueParser::Signed(least, most))
            .default_value(default),
        Takes::MaybeNumber(called, least, most) => {
            value(alloc, row, called).value_parser(ValueParser::Signed(least, most))
        }
        Takes::Name(called, names, default) => value(alloc, row, called)
            .value_parser(ValueParser::Names(names))
            .default_value(default)
            .hide_possible_values(true),
        Takes::Names(called, names) => value(alloc, row, called)
            .value_parser(ValueParser::Names(names))
            .action(ArgAction::Append)
            .hide_possible_values(true),
    }
}

/// Returns the option of a row with a value of any text, which the help calls by this name.
fn value<'a>(alloc: Global, row: OptionRow<'a>, called: &'a str) -> Arg<'a>
    ensures rule { rule_of result ≡ value_rule row.entry.name.now }
    ensures local { result.global ≡ false }
{
    named(alloc, row).value_name(called)
}

/// Returns the option of a row with just its name and its help.
fn named<'a>(alloc: Global, row: OptionRow<'a>) -> Arg<'a>
    ensures rule { rule_of result ≡ named_rule row.entry.name.now }
    ensures local { result.global ≡ false }
{
    Arg::new(alloc, row.name).long(row.name).help(row.help)
}

/// Returns the text of an option, or the empty text if it has none.
pub fn text_at<'a>(matches: &ArgMatches<'a>, name: &str) -> &'a str
    ensures { result.now ≡ option_text name.now (rows_of (found_of matches.now)) }
{
    matches.get_str(name).unwrap_or("")
}

/// Returns the texts of an option that may be repeated, or `None` if it isn't given.
pub fn texts_at<'m, 'a>(matches: &'m ArgMatches<'a>, name: &str) -> Option<&'m [&'a str]>
    ensures { option_map (λ texts. map (λ text. text.now) texts.now) result
        ≡ all_of name.now (rows_of (found_of matches.now)) }
{
    matches.get_strs(name)
}

/// Returns the number of an option, or 0 if it has none.
pub fn number_at(matches: &ArgMatches<'_>, name: &str) -> u32
    ensures { HasNumber name.now (rows_of (found_of matches.now)) result }
{
    matches.get_one::<u32>(name).unwrap_or(0)
}

/// Returns whether a flag is given.
pub fn flag_at(matches: &ArgMatches<'_>, name: &str) -> bool
    ensures { HasFlag name.now (rows_of (found_of matches.now)) result }
{
    matches.get_flag(name)
}
