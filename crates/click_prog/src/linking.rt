//! The run of a live router with links.

ghost use Rattle.std.specs.Prelude.{◌≡◌, ◌<◌, ◌≤◌, ◌+◌, [], map, option_map, IfOk, IfErr};
ghost use Rattle.std.specs.List.{All};
ghost use Rattle.std.specs.Thread.{IsSend, IsSync};
ghost use Rattle.click_links.specs.Turns.{names_of};
ghost use Rattle.click_prog.specs.Linking.{HasLinked, LinkedBesideTo, LinkedTo};
ghost use Rattle.click_prog.specs.Statuses.{opening_status, sessions_status};
ghost use Rattle.click_workers.specs.Linked.{AreQuiet, IsTrueOpening};

use crate::counts::{Ending, tell_counts, tell_on};
use crate::log::PageLog;
use crate::paging::Paging;
use crate::process_figures::ProcessFigures;
use crate::serving::{Arrivals, RunSetup, clients_of};
use crate::sockets::Sockets;
use crate::status::{MESSAGE_PREFIX, sessions_status};
use click_cli::{Status, refuse_configuration};
use click_desk::OpenFault;
use click_http::HttpListener;
use click_links::{Device, UdpIn, UdpOut};
use click_router::Handlers;
use click_streams::{Sink, Source};
use click_workers::{
    Companion, Door, Gate, LinkSetup, LinkedRan, NoCompanion, OpenGate, SessionEnd,
    run_linked_with_companion,
};
use std::sync::Wait;
use std::thread;
use std::thread::Threads;

/// The sockets of links, and the interval at which their counts are printed, in seconds.
///
/// If the interval is 0, counts are printed at the end only.
#[derive(Drop)]
pub struct OpenLinks {
    pub sockets: Sockets,
    pub tell: u64,
}

/// Serves sessions that come in at a door over a live router, with drivers, links, and a page if
/// there is one. The page's metrics end with these figures and the counts of the links, and its
/// writes are logged.
///
/// Each session slot serves as many sessions as `arrivals` says, one after another. Writes the
/// fault of a refused text to standard error, and the counts of links at their interval and at the
/// end.
pub fn serve_linked<T: Handlers + Send + Drop, D: Door, R: Threads + Wait + Sync>(
    rt: &R,
    host: &HostRuntime,
    table: T,
    setup: RunSetup,
    arrivals: Arrivals<D, OpenGate>,
    opened_links: OpenLinks,
    page: Option<HttpListener>,
    page_log: &PageLog,
    figures: ProcessFigures,
) -> Status
    requires { 0 < arrivals.turns }
    ensures { LinkedTo D.lets_in D.Reader.input D.Writer.output ⟦<OpenGate as Gate>⟧.gives ⟦<OpenGate as Gate>⟧.told (option_map (λ p. p.port) page) arrivals.entry.door.now setup.entry.plan setup.entry.text.now
        arrivals.entry.turns opened_links.sockets.links.receivers.items opened_links.sockets.sender.tried result }
{
    let Ok(devices) = opened_links.sockets.links.devices(host.alloc()) else {
        return Status::NoMemory;
    };
    serve_with_devices(
        rt,
        host,
        table,
        setup,
        arrivals,
        opened_links,
        devices.as_slice(),
        page,
        page_log,
        figures,
    )
}

/// Does what `serve_linked` does. The devices are those of the links, and have their counts.
fn serve_with_devices<T: Handlers + Send + Drop, D: Door, R: Threads + Wait + Sync>(
    rt: &R,
    host: &HostRuntime,
    table: T,
    setup: RunSetup,
    arrivals: Arrivals<D, OpenGate>,
    opened_links: OpenLinks,
    devices: &[Device],
    page: Option<HttpListener>,
    page_log: &PageLog,
    figures: ProcessFigures,
) -> Status
    requires turns { 0 < arrivals.turns }
    requires names { names_of devices.now ≡ map (λ r. r.device) opened_links.sockets.links.receivers.items }
    ensures { LinkedTo D.lets_in D.Reader.input D.Writer.output ⟦<OpenGate as Gate>⟧.gives ⟦<OpenGate as Gate>⟧.told (option_map (λ p. p.port) page) arrivals.entry.door.now setup.entry.plan setup.entry.text.now
        arrivals.entry.turns opened_links.sockets.links.receivers.items opened_links.sockets.sender.tried result }
{
    match page {
        None => serve_with_companion(
            rt,
            host,
            table,
            setup,
            arrivals,
            opened_links,
            devices,
            NoCompanion,
        ),
        Some(http_listener) => {
            let paging = Paging {
                http_listener,
                clock: host,
                page_log,
                readonly: setup.plan.readonly,
                figures: figures.with_links(devices),
            };
            serve_with_companion(
                rt,
                host,
                table,
                setup,
                arrivals,
                opened_links,
                devices,
                paging,
            )
        }
    }
}

/// Does what `serve_linked` does, with any work in parallel with the links. The devices are those of
/// the links, and have their counts.
fn serve_with_companion<
    T: Handlers + Send + Drop,
    D: Door,
    G: Gate,
    B: Companion<T>,
    R: Threads + Wait + Sync,
>(
    rt: &R,
    host: &HostRuntime,
    table: T,
    setup: RunSetup,
    arrivals: Arrivals<D, G>,
    opened_links: OpenLinks,
    devices: &[Device],
    beside: B,
) -> Status
    requires many { setup.plan.sessions + setup.plan.workers + (1 + B.Seats.many) ≤ 256 }
    requires turns { 0 < arrivals.turns }
    requires names { names_of devices.now ≡ map (λ r. r.device) opened_links.sockets.links.receivers.items }
    requires quiet { (old new : B.Seats) (done : B.Done) → All (λ s. s.calls ≡ []) (B.Seats.sittings old) → B.does beside old new done → All (λ s. AreQuiet s.calls) (B.Seats.sittings new) }
    ensures { LinkedBesideTo B.Seats.sittings B.Seats.many (B.does beside) D.lets_in D.Reader.input D.Writer.output G.gives G.told arrivals.entry.door.now setup.entry.plan.readonly setup.entry.text.now
        setup.entry.plan.sessions setup.entry.plan.workers arrivals.entry.turns opened_links.sockets.links.receivers.items opened_links.sockets.sender.tried result }
{
    let (every, alloc) = (opened_links.tell, host.alloc());
    let Sockets { links, sender } = opened_links.sockets;
    let RunSetup { text, plan, .. } = setup;
    let Arrivals { door, gate, turns } = arrivals;
    let ending = Ending::new();
    let ending = &ending;
    let (ran, ()) = thread::join(
        rt,
        move || -> Result<(LinkedRan<T, UdpIn, UdpOut>, B::Done), OpenFault>
            requires { IsSync R.row × IsSync D.row × IsSync G.row × IsSend T.row × IsSend B.row × (plan.sessions + plan.workers + (1 + B.Seats.many) ≤ 256) × (0 < turns)
                × ((old new : B.Seats) (done : B.Done) → All (λ s. s.calls ≡ []) (B.Seats.sittings old) → B.does beside old new done → All (λ s. AreQuiet s.calls) (B.Seats.sittings new)) × (names_of devices.now ≡ map (λ r. r.device) links.receivers.items) }
            ensures ran { IfOk result (λ ran. HasLinked B.Seats.sittings B.Seats.many (B.does beside) D.lets_in D.Reader.input D.Writer.output G.gives G.told door.entry.now plan.readonly text.entry.now plan.sessions plan.workers turns
                links.receivers.items sender.tried ran.0.book ran.0.ended.items ran.0.drivers.items ran.0.sender.tried ran.0.links.items ran.1) }
            ensures config { IfErr result (IsTrueOpening (plan.sessions + plan.workers + (1 + B.Seats.many)) (map (λ r. r.device) links.receivers.items) text.entry.now) }
        {
            let clients = clients_of(plan, Arrivals { door, gate, turns });
            let wiring = LinkSetup {
                devices,
                links,
                sender,
            };
            let ran = run_linked_with_companion(rt, alloc, table, text, clients, wiring, beside);
            ending.set();
            ran
        },
        move ||
            requires { IsSync R.row }
        {
            tell_on(rt, &mut host.stderr(), devices, every, ending);
        },
    );
    match ran {
        Ok((ran, _)) => conclude(host, devices, ran.ended.as_slice()),
        Err(fault) => refuse(host, &fault),
    }
}

/// Prints the counts of the links at the end, and returns the status of the run.
fn conclude(host: &HostRuntime, devices: &[Device], ended: &[SessionEnd]) -> Status
    ensures { result ≡ sessions_status ended.now }
{
    tell_counts(&mut host.stderr(), devices);
    sessions_status(ended)
}

/// Prints the reason why there was no run, but nothing for out of memory.
fn refuse(host: &HostRuntime, fault: &OpenFault) -> Status
    ensures { result ≡ opening_status fault.now }
{
    match fault {
        OpenFault::Config(fault) => {
            refuse_configuration(host.alloc(), &mut host.stderr(), MESSAGE_PREFIX, fault)
        }
        OpenFault::NoMemory => Status::NoMemory,
        OpenFault::SeatCount
        | OpenFault::DeviceTwice
        | OpenFault::InletCount
        | OpenFault::ViewCount
        | OpenFault::NoView => Status::Refused,
    }
}
