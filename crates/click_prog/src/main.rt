//! The router as a program. It serves control sessions, on standard input and output or over TCP,
//! or draws a picture of its configuration. Its first word may choose another mode: `--calls`
//! answers calls, one on each line, and `--pcap` sends a capture through the router.
#![tactic(auto)]

ghost use Rattle.std.specs.Prelude.{◌≡◌, ◌<◌, ◌*◌, ◌∷◌, [], MatchOption};
ghost use Rattle.std.specs.Duration.{as_nanos};
ghost use Rattle.std.specs.Net.Addr.{ipv4_octets};

mod arguments;
mod book_lines;
pub mod calls;
mod counts;
mod doors;
mod drawing;
mod keep_alive;
mod link;
mod link_count;
mod linking;
mod log;
mod log_line;
mod mode;
mod number;
mod paging;
pub mod pcap;
mod process_figures;
mod process_memory;
mod runs;
mod serving;
mod session_counts;
mod sockets;
mod status;

use arguments::{ArgumentRefusal, Options, options_of};
use calls::run_calls;
use click_cli::{Status, refuse_arguments, words_of};
use click_handlers::with_table;
use drawing::draw;
use keep_alive::keep_alive;
use link::{Link, LinkFault};
use linking::OpenLinks;
use mode::{Mode, mode_of};
use pcap::run_pcap;
use runs::{Serving, SessionSource, config_fault_status, refuse_port};
use serving::{EndReport, RunSetup, plan_of};
use sockets::{SocketFault, open_sockets};
use std::alloc::Global;
use std::net::{Ipv4Addr, Net, TcpListener, TcpStream};
use std::process::ExitCode;
use std::sync::Wait;
use std::thread::Threads;
use std::time::Duration;

fn main(rt: HostRuntime) -> ExitCode {
    ExitCode::from(program(&rt, &rt).code())
}

/// Reads the command line, and runs the mode that it asks for.
fn program<R: Threads + Wait + Net<Listener = TcpListener, Stream = TcpStream> + Sync>(
    rt: &R,
    host: &HostRuntime,
) -> Status {
    let words = match words_of(host, "click_prog") {
        Ok(words) => words,
        Err(status) => return status,
    };
    match mode_of(words.as_slice()) {
        Mode::Sessions => run_sessions(rt, host, words.as_slice()),
        Mode::Calls(words) => run_calls(rt, host, words),
        Mode::Pcap(words) => run_pcap(host, words),
    }
}

/// Serves sessions or draws a picture, according to the command line.
fn run_sessions<R: Threads + Wait + Net<Listener = TcpListener, Stream = TcpStream> + Sync>(
    rt: &R,
    host: &HostRuntime,
    words: &[String],
) -> Status {
    let alloc = host.alloc();
    match options_of(alloc, words) {
        Ok(options) if options.draw => draw(
            alloc,
            &mut host.stdout(),
            &mut host.stderr(),
            options.text.unwrap().as_bytes(),
        ),
        Ok(options) => {
            let setup = RunSetup {
                text: options.text.unwrap().as_bytes(),
                plan: plan_of(&options),
                end: EndReport {
                    check: options.check.map(|name| name.as_bytes()),
                    book: options.book,
                },
            };
            serve(rt, host, setup, &options)
        }
        Err(refusal) => refused(host, &refusal),
    }
}

/// Makes the run: opens the sockets of its links and its listener, and builds the table of
/// handlers.
fn serve<R: Threads + Wait + Net<Listener = TcpListener, Stream = TcpStream> + Sync>(
    rt: &R,
    host: &HostRuntime,
    setup: RunSetup,
    options: &Options,
) -> Status {
    let alloc = host.alloc();
    let links = match opened_links(rt, alloc, options.links.as_slice(), options.tell) {
        Ok(links) => links,
        Err(fault) => return refuse_links(host, setup.text, &fault),
    };
    let session_source = match options.port {
        None => SessionSource::Standard,
        Some(port) => match TcpListener::bind(rt, address_of(port)) {
            Ok(listener) => {
                if !keep_alive(&listener) {
                    // A failed write does not affect the run.
                    let _ = eprintln!(host; "click_prog: sessions: TCP keepalive cannot be set");
                }
                SessionSource::Over(listener, idle_limit_of(options.idle), options.log)
            }
            Err(fault) => return refuse_port(host, setup.text, "sessions", port, &fault),
        },
    };
    let serving = Serving {
        host,
        setup,
        session_source,
        links,
        page: options.page,
    };
    match with_table(rt, alloc, serving) {
        Ok(status) => status,
        Err(_) => Status::NoMemory,
    }
}

/// Opens the sockets of the links, if there are any.
fn opened_links<'a, R: Net>(
    rt: &R,
    alloc: Global,
    links: &[Link<'a>],
    tell: u64,
) -> Result<Option<OpenLinks>, SocketFault<'a>> {
    if links.is_empty() {
        return Ok(None);
    }
    let sockets = open_sockets(rt, alloc, links)?;
    Ok(Some(OpenLinks { sockets, tell }))
}

/// Prints the reason why there are no links. If the configuration has a fault, prints that instead.
fn refuse_links(host: &HostRuntime, text: &[u8], fault: &SocketFault) -> Status {
    if let Some(status) = config_fault_status(host, text) {
        return status;
    }
    // A failed write does not change the status.
    let _ = eprintln!(host; "click_prog: {fault}");
    match fault {
        SocketFault::NoMemory => Status::NoMemory,
        SocketFault::Place { .. } => Status::DeviceFailed,
    }
}

/// Returns the address at which the program listens: only on this machine.
fn address_of(port: u16) -> (Ipv4Addr, u16)
    ensures address { ipv4_octets result.0 ≡ 127 ∷ 0 ∷ 0 ∷ 1 ∷ [] }
    ensures port { result.1 ≡ port }
{
    (Ipv4Addr::LOCALHOST, port)
}

/// Returns the idle limit of sessions, or `None` for 0 seconds: they have no limit.
fn idle_limit_of(seconds: u64) -> Option<Duration>
    ensures { MatchOption result (seconds ≡ 0) (λ limit. (0 < seconds) × (as_nanos limit ≡ seconds * 1_000_000_000)) }
{
    if seconds == 0 {
        None
    } else {
        Some(Duration::from_secs(seconds))
    }
}

/// Prints the reason why the command line is refused, but nothing for out of memory.
fn refused(host: &HostRuntime, refusal: &ArgumentRefusal) -> Status {
    // A failed write does not change the status.
    let _ = match refusal {
        ArgumentRefusal::Clap(error) => return refuse_arguments(host, error),
        ArgumentRefusal::Link(LinkFault::NoMemory) => return Status::NoMemory,
        ArgumentRefusal::NoNumber(number) => eprintln!(host; "click_prog: {number}"),
        ArgumentRefusal::NotDrawn(option) => eprintln!(host; "click_prog: {option}"),
        ArgumentRefusal::NotLive(option) => eprintln!(host; "click_prog: {option}"),
        ArgumentRefusal::OnlyLive(option) => eprintln!(host; "click_prog: {option}"),
        ArgumentRefusal::OnlyOver(option) => eprintln!(host; "click_prog: {option}"),
        ArgumentRefusal::OnlyWith(pair) => eprintln!(host; "click_prog: {pair}"),
        ArgumentRefusal::Link(fault) => eprintln!(host; "click_prog: {fault}"),
    };
    Status::Wrong
}
