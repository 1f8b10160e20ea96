//! A run with a page for browsers.

ghost use Rattle.std.specs.Prelude.{◌≡◌, ◌<◌};
ghost use Rattle.click_prog.specs.Paging.{IsPagedOver, PagedRunTo, room_of, rounds_of};

use crate::log::PageLog;
use crate::serving::{Arrivals, RunSetup, clients_of, conclude, refuse};
use click_cli::Status;
use click_control::Port;
use click_desk::{Desk, Seat};
use click_http::{Ended, HttpListener, serve_until};
use click_page::{Figures, Page};
use click_router::Handlers;
use click_streams::{Sink, Source};
use click_workers::{
    Companion, CompanionRan, Door, Gate, MAX_ENTRIES, ObservedPort, OpenGate, Opening, SeatPort,
    run_with_companion,
};
use std::alloc::Global;
use std::sync::Wait;
use std::sync::atomic::AtomicBool;
use std::thread::Threads;
use std::time::Clock;

/// The page that shows the router in a browser. It has a listener, a clock, the log of its writes,
/// whether it may only read, and the figures that its metrics end with.
#[derive(Drop)]
pub struct Paging<'a, C, F> {
    pub http_listener: HttpListener,
    pub clock: &'a C,
    pub page_log: &'a PageLog<'a>,
    pub readonly: bool,
    pub figures: F,
}

impl<'a, T: Handlers + Send + Drop, C: Clock + Sync, F: Figures + Send + Drop> Companion<T>
    for Paging<'a, C, F> {
    ghost use Rattle.click_prog.specs.Paging.{IsPaged};

    type Seats = Seat<T>;

    type Done = Ended;

    ghost does = { λ paging old new _. IsPaged paging.readonly paging.http_listener.port old new };

    fn work<R: Threads + Wait + Sync>(
        self,
        rt: &R,
        alloc: Global,
        desk: &Desk<T, &R>,
        seats: Seat<T>,
        stop: &AtomicBool,
    ) -> (Ended, Seat<T>) {
        let Paging {
            http_listener,
            clock,
            page_log,
            readonly,
            figures,
        } = self;
        let port = SeatPort::new(rt, desk, seats);
        let (ended, port) = serve_page(
            rt,
            clock,
            alloc,
            http_listener,
            port,
            page_log,
            readonly,
            figures,
            stop,
        );
        (ended, port.into_seat())
    }
}

/// Serves a page over a port until `stop` is set. Its writes are logged.
fn serve_page<P: Port, C: Clock, F: Figures + Drop, R: Wait>(
    rt: &R,
    clock: &C,
    alloc: Global,
    http_listener: HttpListener,
    port: P,
    page_log: &PageLog,
    readonly: bool,
    figures: F,
    stop: &AtomicBool,
) -> (Ended, P)
    ensures { IsPagedOver P.asks readonly http_listener.port port result.1 }
{
    let at = http_listener.port();
    let observed = ObservedPort::of_page(port, page_log);
    let mut page = Page::new(alloc, observed, readonly, at, figures);
    let ended = serve_until(rt, clock, alloc, http_listener, &mut page, stop);
    let observed = page.into_port();
    (ended, observed.into_port())
}

/// Returns the room of a run's book, or `None` for a live router, which keeps no book.
fn room_of(live: bool) -> Option<usize>
    ensures { result ≡ room_of live }
{
    if live { None } else { Some(MAX_ENTRIES) }
}

/// Returns the number of rounds of each driver, or `None` for a live router, whose drivers go on.
fn rounds_of(live: bool, rounds: u64) -> Option<u64>
    ensures { result ≡ rounds_of live rounds }
{
    if live { None } else { Some(rounds) }
}

/// Serves sessions that come in at a door, with drivers and a page, over a router of the text. The
/// page's metrics end with these figures, and its writes are logged.
///
/// Each session slot serves as many sessions as `arrivals` says. Writes the reports of the run to
/// standard error.
pub fn serve_paged<
    T: Handlers + Send + Drop,
    D: Door,
    F: Figures + Send + Drop,
    R: Threads + Wait + Sync,
>(
    rt: &R,
    host: &HostRuntime,
    table: T,
    setup: RunSetup,
    arrivals: Arrivals<D, OpenGate>,
    http_listener: HttpListener,
    page_log: &PageLog,
    figures: F,
) -> Status
    requires { 0 < arrivals.turns }
    ensures { PagedRunTo D.lets_in D.Reader.input D.Writer.output ⟦<OpenGate as Gate>⟧.gives ⟦<OpenGate as Gate>⟧.told arrivals.entry.door.now setup.entry.plan setup.entry.text.now arrivals.entry.turns http_listener.port result }
{
    let RunSetup { text, plan, end } = setup;
    let opening = Opening {
        text,
        room: room_of(plan.live),
        check: end.check,
    };
    let paging = Paging {
        http_listener,
        clock: host,
        page_log,
        readonly: plan.readonly,
        figures,
    };
    let (alloc, rounds) = (host.alloc(), rounds_of(plan.live, plan.rounds));
    let clients = clients_of(plan, arrivals);
    match run_with_companion(rt, alloc, table, opening, clients, rounds, paging) {
        Ok(CompanionRan { all, done: _ }) => conclude(host, end, all),
        Err(fault) => refuse(host, &fault),
    }
}
