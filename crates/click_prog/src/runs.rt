//! The run that a command line asks for, over a table of handlers.

ghost use Rattle.std.specs.Prelude.{◌≡◌, ◌||◌, ◌<◌, Bool, Option, true, false, is_some, option_map};
ghost use Rattle.std.specs.declared.net.TcpListener.{TcpListener};
ghost use Rattle.std.specs.declared.time.Duration.{Duration};
ghost use Rattle.click_prog.specs.Running.{RunsAlone};
ghost use Rattle.click_prog.specs.Serving.{ServesTo, ServesFrom, is_alone, turns_of};

use crate::doors::Standard;
use crate::linking::{OpenLinks, serve_linked};
use crate::log::{PageLog, SessionLog};
use crate::paging::serve_paged;
use crate::process_figures::ProcessFigures;
use crate::serving::{Arrivals, Plan, RunSetup, serve_all, serve_live, session};
use crate::session_counts::SessionCounts;
use crate::status::MESSAGE_PREFIX;
use click_cli::{Status, refuse_configuration};
use click_desk::BoxedTable;
use click_handlers::{Table, TakesTable};
use click_http::{HttpListener, open_http_listener};
use click_router::{Handlers, prepare};
use click_streams::{Reading, Sink, Source, Writing};
use click_workers::{Connection, Door, Gate, Listening, OpenGate};
use std::io::{self, Stdin, Stdout};
use std::net::TcpListener;
use std::sync::Wait;
use std::thread::Threads;
use std::time::Duration;

/// The origin of the sessions of a run.
#[derive(Drop)]
pub enum SessionSource {
    /// One session, on standard input and output.
    Standard,
    /// Sessions over TCP, with the idle limit of each, and whether they are logged.
    Over(TcpListener, Option<Duration>, bool),
}

/// The arguments of a run.
#[derive(Drop)]
pub struct Serving<'a> {
    pub host: &'a HostRuntime,
    pub setup: RunSetup<'a>,
    pub session_source: SessionSource,
    pub links: Option<OpenLinks>,
    /// The port of 127.0.0.1 at which browsers are shown a page, if there is a page.
    pub page: Option<u16>,
}

impl<'a> Serving<'a> {
    /// Makes the run over a table of handlers.
    fn serve<T: Handlers + Send + Drop, R: Threads + Wait + Sync>(
        self,
        rt: &R,
        table: T,
    ) -> Status {
        let Serving {
            host,
            setup,
            session_source,
            links,
            page,
        } = self;
        let page = match page {
            None => None,
            Some(port) => match open_http_listener(host, host.alloc(), port) {
                Ok(http_listener) => Some(http_listener),
                Err(fault) => return refuse_port(host, setup.text, "page", port, &fault),
            },
        };
        serve_source(rt, host, table, setup, session_source, links, page)
    }
}

/// Prints the reason why the program cannot listen on a port, and what it is for. If the
/// configuration has a fault, prints that instead.
pub fn refuse_port(
    host: &HostRuntime,
    text: &[u8],
    user: &str,
    port: u16,
    fault: &io::Error,
) -> Status {
    if let Some(status) = config_fault_status(host, text) {
        return status;
    }
    if fault.kind() == io::ErrorKind::OutOfMemory {
        return Status::NoMemory;
    }
    // A failed write does not change the status.
    let _ = eprintln!(host; "click_prog: {user}: cannot listen on 127.0.0.1:{port}: {fault}");
    Status::DeviceFailed
}

/// Prints the fault of the configuration, if it has one, and returns its status.
pub fn config_fault_status(host: &HostRuntime, text: &[u8]) -> Option<Status> {
    let alloc = host.alloc();
    match prepare(alloc, text) {
        Ok(_) => None,
        Err(fault) => {
            let mut errors = host.stderr();
            Some(refuse_configuration(alloc, &mut errors, MESSAGE_PREFIX, &fault))
        }
    }
}

/// Makes the run over a table in a box.
fn serve_boxed<R: Threads + Wait + Sync>(
    rt: &R,
    table: BoxedTable<Table>,
    serving: Serving,
) -> Status {
    serving.serve(rt, table)
}

impl<'a> TakesTable for Serving<'a> {
    type Out = Status;

    fn take<R: Threads + Wait + Sync>(self, rt: &R, table: Table) -> Status {
        match Box::new(self.host.alloc(), table) {
            Ok(table) => serve_boxed(rt, BoxedTable { table }, self),
            Err(_) => Status::NoMemory,
        }
    }
}

/// Returns whether the run is one session on standard input and output, with nothing in parallel.
fn is_alone(plan: &Plan, beside: bool) -> bool
    ensures { result ≡ is_alone beside plan.now }
{
    !beside && !plan.live && plan.workers == 0
}

/// Returns the number of sessions over TCP that each session slot serves.
fn turns_of(stays: bool) -> u64
    ensures { result ≡ turns_of stays }
{
    if stays { u64::MAX } else { 1 }
}

/// Serves the sessions of the plan, with links and a page if these are opened.
///
/// The run ends with its one session on standard input, or with the last session over TCP if the
/// router is not live. A live router over TCP ends with the process.
fn serve_source<T: Handlers + Send + Drop, R: Threads + Wait + Sync>(
    rt: &R,
    host: &HostRuntime,
    table: T,
    setup: RunSetup,
    session_source: SessionSource,
    links: Option<OpenLinks>,
    page: Option<HttpListener>,
) -> Status
    ensures alone { session_source ≡ SessionSource.Standard → is_alone (is_some links || is_some page) setup.entry.plan ≡ true → RunsAlone setup.entry.text.now setup.entry.plan.readonly result }
    ensures standard { session_source ≡ SessionSource.Standard → is_alone (is_some links || is_some page) setup.entry.plan ≡ false → ServesFrom ⟦<Standard as Door>⟧.lets_in ⟦<Reading<Stdin> as Source>⟧.input
        ⟦<Writing<Stdout> as Sink>⟧.output ⟦<OpenGate as Gate>⟧.gives ⟦<OpenGate as Gate>⟧.told links (option_map (λ p. p.port) page) setup.entry.plan setup.entry.text.now 1 result }
    ensures over { (listener : TcpListener) (idle_limit : Option Duration) (logged : Bool) → session_source ≡ SessionSource.Over listener idle_limit logged → ServesFrom ⟦<Listening<'static, HostRuntime, SessionLog<'static>> as Door>⟧.lets_in ⟦<Reading<Connection> as Source>⟧.input
        ⟦<Writing<Connection> as Sink>⟧.output ⟦<OpenGate as Gate>⟧.gives ⟦<OpenGate as Gate>⟧.told links (option_map (λ p. p.port) page) setup.entry.plan setup.entry.text.now
        (turns_of (is_some links || setup.entry.plan.live)) result }
{
    let sessions = SessionCounts::new();
    match session_source {
        SessionSource::Standard if is_alone(&setup.plan, links.is_some() || page.is_some()) => {
            let (status, _, _) = session(rt, host, table, setup, host.stdin(), host.stdout());
            tell_failed_device(host, status)
        }
        SessionSource::Standard => {
            let door = Standard::new(host.stdin(), host.stdout());
            let arrivals = Arrivals::open(&door, 1);
            let page_log = PageLog::new(host, false);
            let status = serve_at(
                rt, host, table, setup, arrivals, links, page, &page_log, &sessions,
            );
            tell_failed_device(host, status)
        }
        SessionSource::Over(listener, idle_limit, logged) => {
            let log = SessionLog::new(host, &sessions, logged);
            let door = Listening::new(listener, idle_limit, host, &log);
            let turns = turns_of(links.is_some() || setup.plan.live);
            let arrivals = Arrivals::open(&door, turns);
            let page_log = PageLog::new(host, logged);
            serve_at(
                rt, host, table, setup, arrivals, links, page, &page_log, &sessions,
            )
        }
    }
}

/// Prints a line if standard input or output failed, which this status of a run says. Returns the
/// status.
fn tell_failed_device(host: &HostRuntime, status: Status) -> Status
    ensures { result ≡ status }
{
    if status == Status::DeviceFailed {
        // A failed write does not change the status.
        let _ = eprintln!(host; "click_prog: a read or a write failed");
    }
    status
}

/// Serves sessions that come in at a door, with links and a page if these are opened. The metrics of
/// the page have these counts, and its writes are logged.
fn serve_at<T: Handlers + Send + Drop, D: Door, R: Threads + Wait + Sync>(
    rt: &R,
    host: &HostRuntime,
    table: T,
    setup: RunSetup,
    arrivals: Arrivals<D, OpenGate>,
    links: Option<OpenLinks>,
    page: Option<HttpListener>,
    page_log: &PageLog,
    sessions: &SessionCounts,
) -> Status
    requires { 0 < arrivals.turns }
    ensures { ServesTo D.lets_in D.Reader.input D.Writer.output ⟦<OpenGate as Gate>⟧.gives ⟦<OpenGate as Gate>⟧.told links (option_map (λ p. p.port) page) setup.entry.plan setup.entry.text.now
        arrivals.entry.turns arrivals.entry.door.now result }
{
    let figures = ProcessFigures::new(host, sessions, setup.plan.sessions);
    match links {
        Some(opened_links) => serve_linked(
            rt,
            host,
            table,
            setup,
            arrivals,
            opened_links,
            page,
            page_log,
            figures,
        ),
        None => match page {
            Some(http_listener) => serve_paged(
                rt,
                host,
                table,
                setup,
                arrivals,
                http_listener,
                page_log,
                figures,
            ),
            None if setup.plan.live => serve_live(rt, host, table, setup, arrivals),
            None => serve_all(rt, host, table, setup, arrivals.door),
        },
    }
}
