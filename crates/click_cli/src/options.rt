//! The options of a command line.

ghost use Rattle.std.specs.Prelude.{◌≡◌, IfOk, None, false, true};
ghost use Rattle.std.specs.List.{AllByRecursion};
ghost use Rattle.clap.specs.Built.{IsParsedFrom, IsPlainArg, TakesValue};
ghost use Rattle.clap.specs.Matches.{found_of};
ghost use Rattle.clap.specs.declared.builder.command.Command.{Command};
ghost use Rattle.click_cli.specs.Options.{HasItsValue, IsNew, are_apart, is_needed};

use clap::{Arg, ArgAction, ArgMatches, Command, Error};
use std::alloc::Global;

/// The name of an option, such as `-e` or `--in`.
#[derive(Clone, Copy, Debug)]
pub enum OptionName {
    Short(char),
    Long(&'static str),
}

/// The value that an option takes, with its name in the help text.
#[derive(Clone, Copy, Debug)]
pub enum Takes {
    /// The option is a flag.
    Nothing,
    /// A text, which may also be a negative number. The program parses the number.
    Number(&'static str),
    /// A text that does not begin with a hyphen.
    Text(&'static str),
    /// A text that does not begin with a hyphen; the option may be repeated.
    Texts(&'static str),
    /// A text that does not begin with a hyphen; the option is required.
    NeededText(&'static str),
    /// The next word, whatever it is; the option is required.
    NeededWord(&'static str),
}

/// An option of a command line. A program finds its value by the `id`.
#[derive(Clone, Copy, Debug)]
pub struct CommandOption {
    pub id: &'static str,
    pub name: OptionName,
    pub takes: Takes,
    pub help: &'static str,
}

/// The option for the configuration, which each mode has.
pub const TEXT: CommandOption = CommandOption {
    id: "text",
    name: OptionName::Short('e'),
    takes: Takes::NeededWord("TEXT"),
    help: "Configuration of the router",
};

/// Returns the option as an argument of clap.
fn argument<'a>(alloc: Global, option: &CommandOption) -> Arg<'a>
    ensures plain { (result.id.now ≡ option.now.id.now) × IsPlainArg result × (result.global ≡ false) }
    ensures needed { is_needed option.now.takes ≡ true → TakesValue result }
{
    let named = named(alloc, option);
    match option.takes {
        Takes::Nothing => named.action(ArgAction::SetTrue),
        Takes::Number(name) => named
            .value_name(name)
            .allow_negative_numbers(true)
            .action(ArgAction::Set),
        Takes::Text(name) => named.value_name(name).action(ArgAction::Set),
        Takes::Texts(name) => named.value_name(name).action(ArgAction::Append),
        Takes::NeededText(name) => named.value_name(name).required(true).action(ArgAction::Set),
        Takes::NeededWord(name) => named
            .value_name(name)
            .required(true)
            .allow_hyphen_values(true)
            .action(ArgAction::Set),
    }
}

/// Parses the words with a command that gets these options.
pub fn parse<'a>(
    alloc: Global,
    command: Command<'a>,
    options: &[CommandOption],
    words: &'a [String],
) -> Result<ArgMatches<'a>, Error>
    requires new { IsNew command }
    requires apart { are_apart options.now ≡ true }
    // If clap reports no error, each required option has a value.
    ensures values { IfOk result (λ matches. AllByRecursion (HasItsValue (found_of matches)) options.now) }
    ensures parsed { IfOk result (λ matches. (command : Command) × IsParsedFrom command matches) }
{
    let mut arguments = Vec::new(alloc);
    for option in options {
        arguments.push(argument(alloc, option))?;
    }
    let command = command.args(arguments)?;
    let matches = command.try_get_matches_from(words)?;
    Ok(matches)
}

/// Returns an argument with the name and the help text of the option.
fn named<'a>(alloc: Global, option: &CommandOption) -> Arg<'a>
    ensures plain { (result.id.now ≡ option.now.id.now) × IsPlainArg result × (result.global ≡ false) }
    ensures values { (result.val_delim ≡ None) × (result.num_vals ≡ None) }
{
    let argument = Arg::new(alloc, option.id).help(option.help);
    match option.name {
        OptionName::Short(letter) => argument.short(letter),
        OptionName::Long(name) => argument.long(name),
    }
}
