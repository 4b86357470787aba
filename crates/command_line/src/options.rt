//! The arguments of commands: one file, or options with one value or none.
ghost use Rattle.command_line.specs.Options.{AddsOption, HasRule, file_rule, flag_rule, number_rule, text_rule};

use clap::builder::ValueParser;
use clap::{Arg, ArgAction, Command as Parser};
use std::alloc::{AllocError, Global};

/// The argument FILE, which has to be given.
pub fn file_argument<'a>(alloc: Global) -> Arg<'a>
    ensures { HasRule file_rule result }
{
    Arg::new(alloc, "FILE")
        .help("The schedule: servers, homes, and one event a line; - is the standard input")
        .required(true)
        .action(ArgAction::Set)
}

/// An option with a text.
pub fn text_option<'a>(alloc: Global, name: &'a str, value: &'a str, help: &'a str) -> Arg<'a>
    ensures { HasRule (text_rule name.entry.now) result }
{
    Arg::new(alloc, name)
        .long(name)
        .value_name(value)
        .help(help)
}

/// An option without a value, which is given or not.
pub fn flag_option<'a>(alloc: Global, name: &'a str, help: &'a str) -> Arg<'a>
    ensures { HasRule (flag_rule name.entry.now) result }
{
    Arg::new(alloc, name)
        .long(name)
        .help(help)
        .action(ArgAction::SetTrue)
}

/// An option with one of these numbers.
pub fn number_option<'a>(
    alloc: Global,
    name: &'a str,
    value: &'a str,
    help: &'a str,
    numbers: ValueParser<'a>,
) -> Arg<'a>
    ensures { HasRule (number_rule name.entry.now numbers.entry) result }
{
    text_option(alloc, name, value, help).value_parser(numbers)
}

/// The parser with one more option, if the parser was made.
pub fn and_option<'a>(
    parser: Result<Parser<'a>, AllocError>,
    option: Arg<'a>,
) -> Result<Parser<'a>, AllocError>
    ensures { AddsOption parser.entry option.entry result }
{
    match parser {
        Ok(parser) => parser.arg(option),
        Err(AllocError) => {
            drop(option);
            Err(AllocError)
        }
    }
}
