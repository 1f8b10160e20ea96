//! The command line of the mode `--pcap`.

ghost use Rattle.std.specs.Prelude.{◌≡◌, IfOk, is_some, true};

use clap::{Command, Error};
use click_cli::{CommandOption, OptionName, TEXT, Takes, parse};
use std::alloc::Global;

/// The options of a command line.
#[derive(Clone, Copy, Debug)]
pub struct Options<'a> {
    /// The configuration.
    pub text: Option<&'a str>,
    /// The device at whose source the packets enter.
    pub source: Option<&'a str>,
    /// The device at whose sink the packets leave.
    pub sink: Option<&'a str>,
}

/// The options of the command line.
const OPTIONS: [CommandOption; 3] = [
    TEXT,
    CommandOption {
        id: "from",
        name: OptionName::Long("in"),
        takes: Takes::NeededText("DEVICE"),
        help: "Device at which packets enter: its FromDevice",
    },
    CommandOption {
        id: "sink",
        name: OptionName::Long("out"),
        takes: Takes::NeededText("DEVICE"),
        help: "Device at which packets leave: its ToDevice",
    },
];

/// Returns the options of a command line, whose first word is `--pcap`, or the error of clap.
///
/// `-e` takes the next word literally, even if it begins with `-`.
pub fn options_of<'a>(alloc: Global, words: &'a [String]) -> Result<Options<'a>, Error>
    // If clap finds no error, there are a text and both devices.
    ensures text { IfOk result (λ options. is_some options.text ≡ true) }
    ensures source { IfOk result (λ options. is_some options.source ≡ true) }
    ensures sink { IfOk result (λ options. is_some options.sink ≡ true) }
{
    let command = Command::new(alloc, "click_prog")
        .bin_name("click_prog --pcap")?
        .about(
            "Sends the packets of a pcap file on standard input through a Click router, and writes the result to standard output",
        );
    let matches = parse(alloc, command, &OPTIONS, words)?;
    Ok(Options {
        text: matches.get_str("text"),
        source: matches.get_str("from"),
        sink: matches.get_str("sink"),
    })
}
