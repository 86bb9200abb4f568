// `Word` and `Argument` (structs): a word of the program and an argument of it, as data, written by `row!` (`lib.rt`); `FLAG`, `OPTION` and
// `POSITIONAL`, which rows complete; `command_of`: a word as clap takes it. To add an option, write its row in the file of the word, a field
// of the struct there, and in `of` how it is read. Words are statics one by one: all in one are past the prover's limit of steps.

use clap::builder::ValueParser;
use clap::{Arg, ArgAction, Command};
use std::alloc::{AllocError, Global};

/// A word of the program, clap's subcommand.
#[derive(Clone, Copy)]
pub struct Word {
    /// The first word of its command lines.
    pub name: &'static str,
    /// What help says of it.
    pub about: &'static str,
    /// Its arguments, in the order of help.
    pub arguments: &'static [Argument],
}

/// An argument of a word. Fields that are named as a method of clap's `Arg` are what it takes.
#[derive(Clone, Copy)]
pub struct Argument {
    /// The long name of an option, without `--`; what help calls a positional argument. It is the id by which the argument is read.
    pub name: &'static str,
    /// Whether the argument is known by its place; else it is an option.
    pub positional: bool,
    /// The letter of an option, if it has one too.
    pub short: Option<char>,
    /// What help calls the value of an option; `None` for a flag.
    pub value_name: Option<&'static str>,
    /// `SetTrue` for a flag, `Set` for one value, `Append` for several.
    pub action: ArgAction,
    /// The least number of values of one use, if it may have several.
    pub values_from: Option<usize>,
    /// What a value has to be.
    pub value_parser: ValueParser<'static>,
    /// The value if the argument is not there.
    pub default_value: Option<&'static str>,
    /// Whether the argument must be there.
    pub required: bool,
    /// If there are any: the argument must be there unless one of these is.
    pub required_unless_present_any: &'static [&'static str],
    /// The arguments that must be there if this one is.
    pub requires_all: &'static [&'static str],
    /// The arguments that must not be there if this one is.
    pub conflicts_with_all: &'static [&'static str],
    /// What help says of it.
    pub help: &'static str,
}

/// A positional argument with any text.
pub const POSITIONAL: Argument = Argument {
    name: "",
    positional: true,
    short: None,
    value_name: None,
    action: ArgAction::Set,
    values_from: None,
    value_parser: ValueParser::String,
    default_value: None,
    required: false,
    required_unless_present_any: &[],
    requires_all: &[],
    conflicts_with_all: &[],
    help: "",
};

/// An option with any text as its value.
pub const OPTION: Argument = Argument {
    positional: false,
    ..POSITIONAL
};

/// An option without a value.
pub const FLAG: Argument = Argument {
    action: ArgAction::SetTrue,
    value_parser: ValueParser::Bool,
    ..OPTION
};

/// Gives an option its names.
fn with_names<'a>(arg: Arg<'a>, row: &Argument) -> Arg<'a> {
    if row.positional {
        return arg;
    }
    let arg = arg.long(row.name);
    match row.short {
        Some(letter) => arg.short(letter),
        None => arg,
    }
}

/// Says how many values an argument takes, and what they are called and are by default.
fn with_values<'a>(arg: Arg<'a>, row: &Argument) -> Arg<'a> {
    let arg = match row.value_name {
        Some(name) => arg.value_name(name),
        None => arg,
    };
    let arg = match row.default_value {
        Some(value) => arg.default_value(value),
        None => arg,
    };
    match row.values_from {
        Some(least) => arg.num_args(least..),
        None => arg,
    }
}

/// Says with which arguments an argument has to be, or cannot be.
fn with_others<'a>(arg: Arg<'a>, row: &Argument) -> Result<Arg<'a>, AllocError> {
    arg.required_unless_present_any(row.required_unless_present_any)?
        .requires_all(row.requires_all)?
        .conflicts_with_all(row.conflicts_with_all)
}

/// Returns an argument for clap.
fn arg_of<'a>(alloc: Global, row: &Argument) -> Result<Arg<'a>, AllocError> {
    let arg = Arg::new(alloc, row.name)
        .action(row.action)
        .value_parser(row.value_parser)
        .required(row.required)
        .help(row.help);
    let arg = with_values(with_names(arg, row), row);
    with_others(arg, row)
}

/// Returns a word's command for clap.
pub fn command_of<'a>(alloc: Global, word: &Word) -> Result<Command<'a>, AllocError> {
    let mut command = Command::new(alloc, word.name).about(word.about);
    'arguments: for row in word.arguments {
        command = command.arg(arg_of(alloc, row)?)?;
    }
    Ok(command)
}
