//! The command line of the mode `--calls`.

ghost use Rattle.std.specs.Prelude.{◌≡◌, IfOk, is_some, true};
ghost use Rattle.clap.specs.Built.{IsParsedFrom};
ghost use Rattle.clap.specs.Matches.{found_of};
ghost use Rattle.clap.specs.declared.builder.command.Command.{Command};
ghost use Rattle.clap.specs.declared.parser.matches.ArgMatches.{ArgMatches};
ghost use Rattle.click_prog.specs.CallsAsked.{AsksFor};

use clap::{ArgMatches, Command, Error};
use click_cli::{CommandOption, OptionName, TEXT, Takes, parse};
use std::alloc::Global;

/// The options that a command line of this mode gave.
#[derive(Clone, Copy, Debug)]
pub struct Options<'a> {
    /// The text of the configuration, from `-e`.
    pub text: Option<&'a str>,
    /// Whether `--replay` was given: standard input has the lines of a book, whose calls are made
    /// again.
    pub replay: bool,
}

/// The options that this mode accepts.
const OPTIONS: [CommandOption; 2] = [
    TEXT,
    CommandOption {
        id: "replay",
        name: OptionName::Long("replay"),
        takes: Takes::Nothing,
        help: "Replay the book on standard input, as click_prog --book prints it, and report the first reply that differs",
    },
];

/// Returns the options that a command line gave, or the error of clap. The first word is
/// `--calls`.
///
/// `-e` takes the next word literally, even if it begins with `-`.
pub fn options_of<'a>(alloc: Global, words: &'a [String]) -> Result<Options<'a>, Error>
    // If clap finds no error, the configuration was given.
    ensures text { IfOk result (λ options. is_some options.text ≡ true) }
    // The options are those that clap found with some command; the clause does not say which.
    ensures asked { IfOk result (λ options. (command : Command) × (matches : ArgMatches) × IsParsedFrom command matches × AsksFor (found_of matches) options) }
{
    let command = Command::new(alloc, "click_prog")
        .bin_name("click_prog --calls")?
        .about("Runs a Click router and answers calls, one per line, on standard input and output")
        .after_help(
            "Calls: arrive DEVICE HEX, poll DEVICE HEX,HEX,.., round, transmit DEVICE, read NAME [TEXT],\nwrite NAME [TEXT], checkread NAME, checkwrite NAME, swap TEXT. HEX is a packet in hex digits, or - for\nan empty one. NAME is a handler, such as c.count for the count of element c. docs/CALLS.md lists the\nreplies.",
        );
    let matches = parse(alloc, command, &OPTIONS, words)?;
    Ok(options_in(&matches))
}

/// Returns the options among the matches that clap found.
fn options_in<'a>(matches: &ArgMatches<'a>) -> Options<'a>
    ensures { AsksFor (found_of matches.now) result }
{
    Options {
        text: matches.get_str("text"),
        replay: matches.get_flag("replay"),
    }
}
