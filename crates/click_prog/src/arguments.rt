//! The command line of the mode that serves sessions or draws a picture.

ghost use Rattle.std.specs.Prelude.{◌≡◌, ◌≤◌, IfOk, IfErr, IfSome, MatchOption, codes, is_some, true};
ghost use Rattle.clap.specs.Built.{IsParsedFrom};
ghost use Rattle.clap.specs.Matches.{first_value, found_of};
ghost use Rattle.clap.specs.declared.builder.command.Command.{Command};
ghost use Rattle.clap.specs.declared.parser.matches.ArgMatches.{ArgMatches};
ghost use Rattle.click_prog.specs.Asked.{AsksFor, DrawsAlone, Ends, Finds, GoesOn, HasNoNumber, HasNoWord, TellsOfLinks, IsGiven, IsGivenOr, IsInRanges, IsMistyped, IsRefused, IsRefusedFor, LogsOver, usual_idle, values_of};
ghost use Rattle.click_prog.specs.Links.{AreLinks, IsLinkFault};

use crate::link::{Link, LinkFault, links_of};
use crate::number::number_in;
use clap::{ArgMatches, Command, Error};
use click_cli::{CommandOption, OptionName, TEXT, Takes, parse};
use std::alloc::Global;

/// The options of a command line.
#[derive(Debug, Drop)]
pub struct Options<'a> {
    /// The configuration.
    pub text: Option<&'a str>,
    /// Whether sessions and the page may only read.
    pub readonly: bool,
    /// The port of 127.0.0.1 for sessions over TCP; without it there is one session, on standard
    /// input and output.
    pub port: Option<u16>,
    /// The port of 127.0.0.1 at which a page shows the router in a browser, if there is a page.
    pub page: Option<u16>,
    /// The number of sessions over TCP (1 to 64); with `live`, the number at the same time.
    pub sessions: usize,
    /// The number of drivers (0 to 16).
    pub workers: usize,
    /// The number of rounds of each driver (0 to 1,000,000).
    pub rounds: u64,
    /// The handler that is checked at the end.
    pub check: Option<&'a str>,
    /// Whether the book is written at the end.
    pub book: bool,
    /// Whether the router is live: it keeps no book, and serves until the process ends.
    pub live: bool,
    /// The links, at most 16 and each of another device. There are none without `live`.
    pub links: Vec<Link<'a>>,
    /// The interval at which the counts of links are printed, in seconds (0 to 86,400). 0 means
    /// never, and is the value without `live`.
    pub tell: u64,
    /// The time after which a session over TCP ends if its client keeps it waiting, in seconds (0 to
    /// 86,400). 0 means never.
    pub idle: u64,
    /// Whether sessions over TCP, and writes of the page, are logged on standard error. It is `false`
    /// without `port`.
    pub log: bool,
    /// Whether a picture is drawn, and no session served.
    pub draw: bool,
}

/// The reason why a command line is refused.
#[derive(Drop)]
pub enum ArgumentRefusal<'a> {
    /// An error of clap; a request for help or for the version is one too.
    Clap(Error),
    NoNumber(NoNumber<'a>),
    NotDrawn(NotDrawn),
    NotLive(NotLive),
    OnlyLive(OnlyLive),
    OnlyOver(OnlyOver),
    OnlyWith(OnlyWith),
    Link(LinkFault<'a>),
}

impl<'a> From<NoNumber<'a>> for ArgumentRefusal<'a> {
    ghost use Rattle.std.specs.Prelude.{◌≡◌};
    ghost use Rattle.click_prog.specs.declared.arguments.ArgumentRefusal.TheVariants as why;

    ghost from_gives = { λ number refusal. refusal ≡ why.NoNumber number };

    fn from(number: NoNumber<'a>) -> Self {
        ArgumentRefusal::NoNumber(number)
    }
}

impl<'a> From<LinkFault<'a>> for ArgumentRefusal<'a> {
    ghost use Rattle.std.specs.Prelude.{◌≡◌};
    ghost use Rattle.click_prog.specs.declared.arguments.ArgumentRefusal.TheVariants as why;

    ghost from_gives = { λ fault refusal. refusal ≡ why.Link fault };

    fn from(fault: LinkFault<'a>) -> Self {
        ArgumentRefusal::Link(fault)
    }
}

/// The option that was given with `--draw`, which makes no run.
#[derive(Clone, Copy, Debug, Drop, thiserror::Error)]
#[error("--draw cannot be used with {option}")]
pub struct NotDrawn {
    option: &'static str,
}

/// The option that was given with `--live`, under which drivers go on without end and nothing is
/// reported at an end.
#[derive(Clone, Copy, Debug, Drop, thiserror::Error)]
#[error("--live cannot be used with {option}")]
pub struct NotLive {
    option: &'static str,
}

/// The option that was given without `--live`: a link, or the interval at which counts are printed.
#[derive(Clone, Copy, Debug, Drop, thiserror::Error)]
#[error("{option} needs --live")]
pub struct OnlyLive {
    option: &'static str,
}

/// The option that was given without `-p`, and that only sessions over TCP have.
#[derive(Clone, Copy, Debug, Drop, thiserror::Error)]
#[error("{option} needs -p")]
pub struct OnlyOver {
    option: &'static str,
}

/// The option that was given without `partner`, and that has an effect only with it.
#[derive(Clone, Copy, Debug, Drop, thiserror::Error)]
#[error("{option} needs {partner}")]
pub struct OnlyWith {
    option: &'static str,
    partner: &'static str,
}

/// The value of an option that is not a number from `least` to `most` in decimal digits.
#[derive(Clone, Copy, Debug, Drop, thiserror::Error)]
#[error("{option}: '{text}' is not a number from {least} to {most} in decimal digits")]
pub struct NoNumber<'a> {
    option: &'static str,
    text: &'a str,
    least: u64,
    most: u64,
}

/// The options of the command line.
const OPTIONS: [CommandOption; 15] = [
    TEXT,
    CommandOption {
        id: "port",
        name: OptionName::Short('p'),
        takes: Takes::Number("PORT"),
        help: "Serve sessions over TCP on this port of 127.0.0.1 (1 to 65535)",
    },
    CommandOption {
        id: "sessions",
        name: OptionName::Short('n'),
        takes: Takes::Number("SESSIONS"),
        help: "Number of TCP sessions; with --live, at the same time (1 to 64; default 1)",
    },
    CommandOption {
        id: "workers",
        name: OptionName::Short('w'),
        takes: Takes::Number("WORKERS"),
        help: "Number of drivers: threads that run the router's tasks (0 to 16; default 0)",
    },
    CommandOption {
        id: "number",
        name: OptionName::Long("rounds"),
        takes: Takes::Number("N"),
        help: "Number of rounds that each driver makes (0 to 1000000; default 1000)",
    },
    CommandOption {
        id: "readonly",
        name: OptionName::Long("readonly"),
        takes: Takes::Nothing,
        help: "Refuse every write to a handler",
    },
    CommandOption {
        id: "check",
        name: OptionName::Long("check"),
        takes: Takes::Text("NAME"),
        help: "At the end, print on standard error whether this handler can be read",
    },
    CommandOption {
        id: "book",
        name: OptionName::Long("book"),
        takes: Takes::Nothing,
        help: "At the end, print each call with its seat and reply on standard error, for --calls --replay",
    },
    CommandOption {
        id: "live",
        name: OptionName::Long("live"),
        takes: Takes::Nothing,
        help: "Serve until the process ends; keep no book, so that memory does not grow with calls",
    },
    CommandOption {
        id: "device",
        name: OptionName::Long("link"),
        takes: Takes::Texts("DEVICE=HERE,THERE"),
        help: "With --live: connect a device over UDP, with local address HERE and peer THERE, each PORT (of 127.0.0.1) or ADDRESS:PORT; up to 16 links",
    },
    CommandOption {
        id: "every",
        name: OptionName::Long("tell"),
        takes: Takes::Number("SECONDS"),
        help: "With --live: print the counts of all links on standard error at this interval (0 to 86400; default 0, never)",
    },
    CommandOption {
        id: "quiet",
        name: OptionName::Long("idle"),
        takes: Takes::Number("SECONDS"),
        help: "End a TCP session whose client keeps it waiting for this time (0 to 86400, 0 is never; default 600 with --live, else 0)",
    },
    CommandOption {
        id: "log",
        name: OptionName::Long("log"),
        takes: Takes::Nothing,
        help: "With -p: print a line on standard error for each session that begins or ends, and for each swap and each other write of a session or the page",
    },
    CommandOption {
        id: "front",
        name: OptionName::Long("page"),
        takes: Takes::Number("PORT"),
        help: "Show the router in a browser at this port of 127.0.0.1 (1 to 65535)",
    },
    CommandOption {
        id: "image",
        name: OptionName::Long("draw"),
        takes: Takes::Nothing,
        help: "Write a picture of the configuration to standard output, as SVG, and exit",
    },
];

/// Returns the options of a command line, or the reason why it is refused.
///
/// `-e` takes the next word literally, even if it begins with `-`.
pub fn options_of<'a>(
    alloc: Global,
    words: &'a [String],
) -> Result<Options<'a>, ArgumentRefusal<'a>>
    // A command line that is not refused has a text.
    ensures text { IfOk result (λ options. is_some options.text ≡ true) }
    ensures port { IfOk result (λ options. IfSome options.port (λ port. 1 ≤ port) × IfSome options.page (λ port. 1 ≤ port)) }
    ensures ranges { IfOk result IsInRanges }
    ensures asked { IfOk result (λ options. (command : Command) × (matches : ArgMatches) × IsParsedFrom command matches × AsksFor (found_of matches) options) }
    ensures refused { IfErr result IsRefused }
{
    match parsed(alloc, words) {
        Ok(matches) => options_in(alloc, &matches),
        Err(error) => Err(ArgumentRefusal::Clap(error)),
    }
}

/// Parses a command line by clap.
fn parsed<'a>(alloc: Global, words: &'a [String]) -> Result<ArgMatches<'a>, Error>
    ensures text { IfOk result (λ matches. is_some (first_value (found_of matches) (codes "text")) ≡ true) }
    ensures parsed { IfOk result (λ matches. (command : Command) × IsParsedFrom command matches) }
{
    let command = Command::new(alloc, "click_prog")
        .version("1")
        .about(
            "Runs a Click router and serves control sessions on standard input and output, or over TCP",
        )
        .after_help(
            "Two more modes are selected by the first word; each has options and a --help of its own:\n--calls answers calls, one per line, on standard input and output, or replays a book;\n--pcap sends a capture from standard input through the router and writes one to standard output.\n\nCommands of a session, one per line: READ NAME [TEXT], WRITE NAME [TEXT], READDATA NAME BYTES,\nWRITEDATA NAME BYTES, CHECKREAD NAME, CHECKWRITE NAME, QUIT. NAME is a handler, such as c.count\nfor the count of element c. docs/CONTROL.md lists the replies.",
        );
    let matches = parse(alloc, command, &OPTIONS, words)?;
    Ok(matches)
}

/// Returns the options that clap found, if they can be used together.
fn options_in<'a>(
    alloc: Global,
    matches: &ArgMatches<'a>,
) -> Result<Options<'a>, ArgumentRefusal<'a>>
    ensures asked { IfOk result (AsksFor (found_of matches.now)) }
    ensures refused { IfErr result (IsRefusedFor (found_of matches.now)) }
{
    let options = options_found(alloc, matches)?;
    if let Some(option) = run_only_option(matches, &options) {
        return Err(ArgumentRefusal::NotDrawn(NotDrawn { option }));
    }
    if let Some(option) = ending_only_option(matches, &options) {
        return Err(ArgumentRefusal::NotLive(NotLive { option }));
    }
    if let Some(option) = live_only_option(matches, &options) {
        return Err(ArgumentRefusal::OnlyLive(OnlyLive { option }));
    }
    if let Some(option) = port_only_option(&options) {
        return Err(ArgumentRefusal::OnlyOver(OnlyOver { option }));
    }
    match partner_option(matches, &options) {
        Some(pair) => Err(ArgumentRefusal::OnlyWith(pair)),
        None => Ok(options),
    }
}

/// Returns the options that clap found, if their values are valid.
fn options_found<'a>(
    alloc: Global,
    matches: &ArgMatches<'a>,
) -> Result<Options<'a>, ArgumentRefusal<'a>>
    ensures found { IfOk result (Finds (found_of matches.now)) }
    ensures refused { IfErr result (IsRefusedFor (found_of matches.now)) }
{
    let live = matches.get_flag("live");
    Ok(Options {
        text: matches.get_str("text"),
        readonly: matches.get_flag("readonly"),
        port: port_of(matches, "port", "-p <PORT>")?,
        page: port_of(matches, "front", "--page <PORT>")?,
        sessions: number_of(matches, "sessions", "-n <SESSIONS>", 1, 64, 1)? as usize,
        workers: number_of(matches, "workers", "-w <WORKERS>", 0, 16, 0)? as usize,
        rounds: number_of(matches, "number", "--rounds <N>", 0, 1_000_000, 1_000)?,
        check: matches.get_str("check"),
        book: matches.get_flag("book"),
        live,
        links: links_found(alloc, matches)?,
        tell: number_of(matches, "every", "--tell <SECONDS>", 0, 86_400, 0)?,
        idle: number_of(
            matches,
            "quiet",
            "--idle <SECONDS>",
            0,
            86_400,
            usual_idle(live),
        )?,
        log: matches.get_flag("log"),
        draw: matches.get_flag("image"),
    })
}

/// Returns the idle time of sessions if none is given, in seconds.
fn usual_idle(live: bool) -> u64
    ensures usual { result ≡ usual_idle live }
    ensures range { result ≤ 86400 }
{
    if live { 600 } else { 0 }
}

/// Returns the links that were given.
fn links_found<'a>(alloc: Global, matches: &ArgMatches<'a>) -> Result<Vec<Link<'a>>, LinkFault<'a>>
    ensures links { IfOk result (λ links. AreLinks (values_of (found_of matches.now) (codes "device")) links.items) }
    ensures refused { IfErr result (IsLinkFault (values_of (found_of matches.now) (codes "device"))) }
{
    match matches.get_strs("device") {
        Some(values) => links_of(alloc, values),
        None => Ok(Vec::new(alloc)),
    }
}

/// Returns the first option that was given with `--draw` and that only a run has.
fn run_only_option(matches: &ArgMatches, options: &Options) -> Option<&'static str>
    ensures { MatchOption result (DrawsAlone (found_of matches.now) options.now) (λ _. DrawsAlone (found_of matches.now) options.now → ⊥) }
{
    if !options.draw {
        return None;
    }
    match run_only_number(matches) {
        Some(option) => Some(option),
        None => run_only_word(options),
    }
}

/// Returns the first option with a number that was given and that only a run has.
fn run_only_number(matches: &ArgMatches) -> Option<&'static str>
    ensures { MatchOption result (HasNoNumber (found_of matches.now)) (λ _. HasNoNumber (found_of matches.now) → ⊥) }
{
    if matches.get_str("port").is_some() {
        return Some("-p");
    }
    if matches.get_str("sessions").is_some() {
        return Some("-n");
    }
    if matches.get_str("workers").is_some() {
        return Some("-w");
    }
    if matches.get_str("number").is_some() {
        return Some("--rounds");
    }
    if matches.get_str("every").is_some() {
        return Some("--tell");
    }
    if matches.get_str("quiet").is_some() {
        return Some("--idle");
    }
    if matches.get_str("front").is_some() {
        return Some("--page");
    }
    None
}

/// Returns the first option without a number that was given and that only a run has.
fn run_only_word(found: &Options) -> Option<&'static str>
    ensures { MatchOption result (HasNoWord found.now) (λ _. HasNoWord found.now → ⊥) }
{
    if found.readonly {
        return Some("--readonly");
    }
    if found.check.is_some() {
        return Some("--check");
    }
    if found.book {
        return Some("--book");
    }
    if found.live {
        return Some("--live");
    }
    if !found.links.is_empty() {
        return Some("--link");
    }
    if found.log {
        return Some("--log");
    }
    None
}

/// Returns the first option that was given with `--live` and that only a run with an end has.
fn ending_only_option(matches: &ArgMatches, options: &Options) -> Option<&'static str>
    ensures { MatchOption result (GoesOn (found_of matches.now) options.now) (λ _. GoesOn (found_of matches.now) options.now → ⊥) }
{
    if !options.live {
        return None;
    }
    if matches.get_str("number").is_some() {
        return Some("--rounds");
    }
    if options.check.is_some() {
        return Some("--check");
    }
    if options.book {
        return Some("--book");
    }
    None
}

/// Returns the first option that was given without `--live` and that only a live router has.
fn live_only_option(matches: &ArgMatches, options: &Options) -> Option<&'static str>
    ensures { MatchOption result (Ends (found_of matches.now) options.now) (λ _. Ends (found_of matches.now) options.now → ⊥) }
{
    if options.live {
        return None;
    }
    if !options.links.is_empty() {
        return Some("--link");
    }
    if matches.get_str("every").is_some() {
        return Some("--tell");
    }
    None
}

/// Returns the option that was given without a port for sessions and that only sessions over TCP
/// have.
fn port_only_option(options: &Options) -> Option<&'static str>
    ensures { MatchOption result (LogsOver options.now) (λ _. LogsOver options.now → ⊥) }
{
    if options.log && options.port.is_none() {
        Some("--log")
    } else {
        None
    }
}

/// Returns the option that was given without the option with which alone it has an effect.
fn partner_option(matches: &ArgMatches, options: &Options) -> Option<OnlyWith>
    ensures { MatchOption result (TellsOfLinks (found_of matches.now) options.now) (λ _. TellsOfLinks (found_of matches.now) options.now → ⊥) }
{
    if options.links.is_empty() && matches.get_str("every").is_some() {
        return Some(OnlyWith {
            option: "--tell",
            partner: "--link",
        });
    }
    None
}

/// Returns the port that was given to an option, if one was.
fn port_of<'a>(
    matches: &ArgMatches<'a>,
    id: &str,
    option: &'static str,
) -> Result<Option<u16>, NoNumber<'a>>
    ensures given { IfOk result (IsGiven 1 65535 (first_value (found_of matches.now) id.now)) }
    ensures mistyped { IfErr result (IsMistyped (found_of matches.now) id.now 1 65535) }
{
    match given(matches, id, option, 1, 65_535)? {
        Some(port) => Ok(Some(port as u16)),
        None => Ok(None),
    }
}

/// Returns the number that was given to an option, or `usual` if none was.
fn number_of<'a>(
    matches: &ArgMatches<'a>,
    id: &str,
    option: &'static str,
    least: u64,
    most: u64,
    usual: u64,
) -> Result<u64, NoNumber<'a>>
    requires { (least ≤ usual) × (usual ≤ most) }
    ensures range { IfOk result (λ n. (least ≤ n) × (n ≤ most)) }
    ensures given { IfOk result (IsGivenOr least most usual (first_value (found_of matches.now) id.now)) }
    ensures mistyped { IfErr result (IsMistyped (found_of matches.now) id.now least most) }
{
    match given(matches, id, option, least, most)? {
        Some(number) => Ok(number),
        None => Ok(usual),
    }
}

/// Returns the number that was given to an option, if one was.
fn given<'a>(
    matches: &ArgMatches<'a>,
    id: &str,
    option: &'static str,
    least: u64,
    most: u64,
) -> Result<Option<u64>, NoNumber<'a>>
    ensures given { IfOk result (IsGiven least most (first_value (found_of matches.now) id.now)) }
    ensures mistyped { IfErr result (IsMistyped (found_of matches.now) id.now least most) }
{
    let Some(text) = matches.get_str(id) else {
        return Ok(None);
    };
    match number_in(text, least, most) {
        Some(number) => Ok(Some(number)),
        None => Err(NoNumber {
            option,
            text,
            least,
            most,
        }),
    }
}
