//! The parser of the program's words.

use crate::vocabulary::{Asked, COMMANDS, Form, Rule, Word};
use clap::{Arg, ArgAction, Command, value_parser};
use pw_model::MOST_RECORDS;
use std::alloc::{AllocError, Global};

// The words of the two clocks that a readout may tell its time by.
static CLOCKS: [&str; 2] = ["winter", "local"];

// The words of the kinds of upload.
static KINDS: [&str; 5] = [
    "telegrams",
    "readouts",
    "assignments",
    "topups",
    "withdrawals",
];

// The words of what can be exported.
static TABLES: [&str; 8] = [
    "readings",
    "energy",
    "assignments",
    "topups",
    "withdrawals",
    "accounts",
    "falls",
    "disputes",
];

// The names that stand behind `--rename`.
static OLD_AND_NEW: [&str; 2] = ["OLD", "NEW"];

// What the parser is told of a word.
fn argument<'a>(alloc: Global, word: &Word) -> Result<Arg<'a>, AllocError> {
    let argument = Arg::new(alloc, word.name).help(word.help);
    let argument = match word.form {
        Form::Required => argument.required(true),
        Form::Optional => argument,
        Form::Flag => argument.long(word.name).action(ArgAction::SetTrue),
        Form::Value(value) => argument.long(word.name).value_name(value),
    };
    under(argument, word.rule)
}

// Under a rule of its own.
fn under(argument: Arg<'_>, rule: Rule) -> Result<Arg<'_>, AllocError> {
    match rule {
        Rule::Nothing => Ok(argument),
        Rule::Kind => argument
            .value_parser(KINDS.as_slice())
            .required_unless_present("list"),
        Rule::Files => argument.num_args(1..).required_unless_present("list"),
        Rule::List => argument
            .conflicts_with("KIND")?
            .conflicts_with("FILE")?
            .conflicts_with("meter"),
        Rule::Meter => argument.required_if_eq("KIND", "readouts"),
        Rule::Table => Ok(argument.value_parser(TABLES.as_slice())),
        Rule::Limit => Ok(
            argument
                .value_parser(value_parser!(u32).range(1..=i64::from(MOST_RECORDS)))
                .default_value("1000000"),
        ),
        Rule::Clock => Ok(
            argument
                .value_parser(CLOCKS.as_slice())
                .default_value("winter"),
        ),
        Rule::Count => Ok(argument.value_parser(value_parser!(u32))),
        Rule::Port => Ok(
            argument
                .value_parser(value_parser!(u16).range(1..=65_535))
                .default_value("8460"),
        ),
        Rule::Origins => Ok(argument.action(ArgAction::Append)),
        Rule::Renamed => Ok(
            argument
                .value_names(OLD_AND_NEW.as_slice())
                .num_args(2)
                .action(ArgAction::Append),
        ),
    }
}

fn command<'a>(alloc: Global, asked: &Asked) -> Result<Command<'a>, AllocError> {
    let mut command = Command::new(alloc, asked.name)
        .about(asked.about)
        .after_help(asked.end);
    for word in asked.words {
        let argument = argument(alloc, word)?;
        command = command.arg(argument)?;
    }
    Ok(command)
}

// The parser without its commands.
fn empty_parser<'a>(alloc: Global) -> Result<Command<'a>, AllocError> {
    Command::new(alloc, "powerbook")
        .version("1.10.3")
        .about("Meter readings and prepaid accounts of an electricity cooperative")
        .after_help(
            "Without a command it acts as pipe. Each command tells more: powerbook load --help.",
        )
        .bin_name("powerbook")
}

// The parser of the program's words.
pub(crate) fn parser<'a>(alloc: Global) -> Result<Command<'a>, AllocError> {
    let mut parser = empty_parser(alloc)?;
    for asked in &COMMANDS {
        let command = command(alloc, asked)?;
        parser = parser.subcommand(command)?;
    }
    Ok(parser)
}
