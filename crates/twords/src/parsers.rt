//! The parser of the words, from the table of the commands.

ghost use Rattle.std.specs.Prelude.{◌≡◌, [], IfOk};
ghost use Rattle.clap.specs.Words.{Shape, app_of, rule_of};
ghost use Rattle.twords.specs.CommandLines as spec;
ghost use Rattle.twords.specs.CommandLines.{HasShape};

use crate::table::{Argument, COMMANDS, CommandRow, Form, PROGRAM, VERSION, Which};
use clap::builder::ValueParser;
use clap::{Arg, ArgAction, Command as Parser};
use std::alloc::{AllocError, Global};

/// The words that the program takes.
pub(crate) fn program<'a>(alloc: Global) -> Result<Parser<'a>, AllocError>
    ensures { IfOk result (λ c. app_of c ≡ spec.program) }
{
    let mut program = top(alloc)?;
    for which in COMMANDS {
        program = program.subcommand(parser(alloc, which)?)?;
    }
    Ok(program)
}

/// The program without its commands, of which one has to be named.
fn top<'a>(alloc: Global) -> Result<Parser<'a>, AllocError>
    ensures { IfOk result (λ c. app_of c ≡ spec.top) }
{
    Parser::new(alloc, "temu")
        .about("Emulates nets of Inmos T414 transputers")
        .version(VERSION)
        .after_help(PROGRAM)
        .disable_help_subcommand(true)
        .arg_required_else_help(true)
        .subcommand_required(true)
        .bin_name("temu")
}

/// The words of a command.
pub(crate) fn parser<'a>(alloc: Global, which: Which) -> Result<Parser<'a>, AllocError>
    ensures { IfOk result (HasShape (spec.shape_of which)) }
{
    let row = which.row();
    with_arguments(alloc, bare(alloc, &row), row.arguments)
}

/// A command with no arguments yet.
fn bare<'a>(alloc: Global, row: &CommandRow) -> Parser<'a>
    ensures { HasShape (spec.shape row.now.name.now []) result }
{
    Parser::new(alloc, row.name)
        .about(row.about)
        .after_help(row.below)
}

/// A command with more arguments.
fn with_arguments<'a>(
    alloc: Global,
    mut parser: Parser<'a>,
    arguments: &'static [Argument],
) -> Result<Parser<'a>, AllocError>
    ensures { IfOk result (λ c. (s : Shape) → HasShape s parser.entry
        → HasShape (spec.with_rows s arguments.entry.now) c) }
{
    for argument in arguments {
        parser = parser.arg(argument_of(alloc, argument))?;
    }
    Ok(parser)
}

/// An argument, as the parser takes it.
fn argument_of<'a>(alloc: Global, row: &'a Argument) -> Arg<'a>
    ensures rule { rule_of result ≡ spec.rule_of_row row.entry.now }
    ensures local { spec.IsLocal result }
{
    let argument = Arg::new(alloc, row.name)
        .value_name(row.value)
        .help(row.help);
    match row.form {
        Form::File => argument.required(true),
        Form::Text => argument.long(row.name),
        Form::TextOr(default) => argument.long(row.name).default_value(default),
        Form::Texts => argument.long(row.name).action(ArgAction::Append),
        Form::Flag => argument.long(row.name).action(ArgAction::SetTrue),
        Form::WantedText => argument.long(row.name).required(true),
        Form::WantedNumber(least, most) => argument
            .long(row.name)
            .value_parser(ValueParser::signed(least, most))
            .required(true),
        Form::Number(least, most, default) => argument
            .long(row.name)
            .value_parser(ValueParser::signed(least, most))
            .default_value(default),
    }
}
