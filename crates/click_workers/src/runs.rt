//! Whole runs: from opening a desk to its book.

ghost use Rattle.std.specs.Prelude.{◌≡◌, ◌↔◌, ◌<◌, ◌≤◌, ◌+◌, List, ℕ, [], None, IfOk, IfErr, IfSome, OnErr, option_map};
ghost use Rattle.click_desk.specs.SeatStates.{seats_below};
ghost use Rattle.click_workers.specs.Beside.{BesideWork};
ghost use Rattle.click_workers.specs.Work.{Attended, AttendedInTurn, Drove, DroveFor, Worked};
ghost use Rattle.click_workers.specs.Runs.{Headline, HeadlineFor, IsOpenedFor, IsOpenedWith, DriversRound, RanOver, IsChecked, IsTrueFault, IsNoClose, IsViewAsked, IsLate};

use crate::checking::close_and_check;
use crate::clients::Clients;
use crate::companion::{Companion, NoCompanion};
use crate::door::Door;
use crate::gate::Gate;
use crate::opening::{Opened, Opening, open_with};
use crate::run_seats::{OpenedRun, begin, finish, serve_with_companion};
use crate::seat_port::SeatPort;
use crate::service::Service;
use crate::session::{SessionEnd, serve_ungated};
use click_control::{Ended, ServeFault};
use click_desk::{Book, OpenFault};
use click_router::{Check, ConfigFault, Handlers};
use click_streams::{Sink, Source};
use std::alloc::Global;
use std::sync::Wait;
use std::thread::Threads;
use thiserror::Error;

/// The maximum number of entries of a book's history.
pub const MAX_ENTRIES: usize = 1_048_576;

/// The fault of a run that has no book.
#[derive(Debug, Drop, Error)]
pub enum RunFault {
    /// The configuration has a fault.
    #[error(transparent)]
    Config(ConfigFault),
    #[error("out of memory")]
    NoMemory,
    /// The close was refused, with a number for the cause. No run returns this.
    #[error("the close was refused ({0})")]
    Close(u16),
    /// No view was available for the check.
    #[error("no view")]
    NoView,
}

/// The outcomes of the session slots and drivers, the book, and the result of the check. The check
/// was made after all had ended.
#[derive(Drop)]
pub struct AllRan<T> {
    pub ended: Vec<SessionEnd>,
    pub drivers: Vec<bool>,
    pub book: Book<T>,
    pub checked: Option<Check>,
}

/// The outcomes of the session slots and drivers, with the book. `done` is the result of the
/// additional work.
#[derive(Drop)]
pub struct CompanionRan<T, X> {
    pub all: AllRan<T>,
    pub done: X,
}

/// How the session ended, the book, and the result of the check.
#[derive(Drop)]
pub struct Ran<T> {
    pub ended: Result<Ended, ServeFault>,
    pub book: Book<T>,
    pub checked: Option<Check>,
}

/// Converts the fault of opening a desk that has 1 to 256 seats, no inlets and at most one view.
fn fault_of(fault: OpenFault) -> RunFault
    requires { IsLate fault }
    ensures config { (f : ConfigFault) → (result ≡ RunFault.Config f) ↔ (fault ≡ OpenFault.Config f) }
    ensures never_close { IsNoClose result }
    ensures view { (result ≡ RunFault.NoView) ↔ (fault ≡ OpenFault.NoView) }
{
    match fault {
        OpenFault::SeatCount
        | OpenFault::DeviceTwice
        | OpenFault::InletCount
        | OpenFault::ViewCount => unreachable!(),
        OpenFault::Config(fault) => RunFault::Config(fault),
        OpenFault::NoMemory => RunFault::NoMemory,
        OpenFault::NoView => RunFault::NoView,
    }
}

/// Opens a desk with one new seat and no inlets, and with a view if a handler is to be checked.
fn open_one<'a, 'b, T: Drop, R: Wait>(
    rt: &'a R,
    alloc: Global,
    table: T,
    opening: Opening<'b>,
) -> Result<Opened<'a, 'b, T, R>, RunFault>
    ensures desk { IfOk result (λ o. IsOpenedFor opening.entry.room opening.entry.text.now 1 o.desk) }
    ensures many { IfOk result (λ o. o.desk.options.seats ≡ 1) }
    ensures seats { IfOk result (λ o. o.seats.items ≡ seats_below o.desk [] 1) }
    ensures name { IfOk result (λ o. option_map (λ a. a.name.now) o.asked ≡ option_map (λ n. n.now) opening.entry.check) }
    ensures view { IfOk result (λ o. IfSome o.asked (λ a. a.view.board ≡ o.desk.options.origin)) }
    ensures config { IfErr result (IsTrueFault opening.entry.text.now) }
    ensures never_close { IfErr result IsNoClose }
    ensures view_asked { IfErr result (IsViewAsked (option_map (λ n. n.now) opening.entry.check)) }
{
    match open_with(rt, alloc, table, opening, 1, Vec::new(alloc)) {
        Ok(opened) => Ok(opened),
        Err(fault) => Err(fault_of(fault)),
    }
}

/// Serves one session over a desk with one new seat, and closes the desk. Never fails.
fn serve_and_close<T: Handlers + Drop, S: Source, W: Sink, R: Wait>(
    rt: &R,
    alloc: Global,
    opened: Opened<T, R>,
    reader: &mut S,
    writer: &mut W,
    readonly: bool,
) -> Ran<T>
    requires many { opened.desk.options.seats ≡ 1 }
    requires seats { opened.seats.items ≡ seats_below opened.desk [] 1 }
    requires view { IfSome opened.asked (λ a. a.view.board ≡ opened.desk.options.origin) }
    ensures headline { (text : List ℕ) → IsOpenedWith text 1 opened.entry.desk → Headline text 1 result.book }
    ensures served { (text : List ℕ) → IsOpenedWith text 1 opened.entry.desk → RanOver text readonly result.book (S.input reader.old) (S.input reader.new) (W.output writer.old) (W.output writer.new) result.ended }
    ensures checked { IsChecked (option_map (λ a. a.name.now) opened.entry.asked) result.book result.checked }
{
    let Opened {
        desk,
        mut seats,
        asked,
    } = opened;
    let Some(seat) = seats.pop() else {
        unreachable!()
    };
    let port = SeatPort::new(rt, &desk, seat);
    let (ended, seat) = serve_ungated(alloc, port, reader, writer, readonly);
    seats.push_reserved(seat);
    let (book, checked) = close_and_check(rt, desk, seats, asked);
    Ran {
        ended,
        book,
        checked,
    }
}

/// Serves one session over a desk with one seat, and closes the desk. If the name of a handler is
/// given, a view then checks whether that handler can be read.
///
/// Except for calls that failed (out of memory or history full), the session gets the replies that
/// a single thread gets that starts with the given text.
pub fn run<T: Handlers + Drop, S: Source, W: Sink, R: Wait>(
    rt: &R,
    alloc: Global,
    table: T,
    reader: &mut S,
    writer: &mut W,
    text: &[u8],
    readonly: bool,
    check: Option<&[u8]>,
) -> Result<Ran<T>, RunFault>
    ensures headline { IfOk result (λ ran. Headline text.now 1 ran.book) }
    ensures served { IfOk result (λ ran. RanOver text.now readonly ran.book (S.input reader.old) (S.input reader.new) (W.output writer.old) (W.output writer.new) ran.ended) }
    ensures checked { IfOk result (λ ran. IsChecked (option_map (λ n. n.now) check.entry) ran.book ran.checked) }
    ensures untouched { OnErr result ((S.input reader.new ≡ S.input reader.old) × (W.output writer.new ≡ W.output writer.old)) }
    ensures config { IfErr result (IsTrueFault text.now) }
    ensures never_close { IfErr result IsNoClose }
    ensures view_asked { IfErr result (IsViewAsked (option_map (λ n. n.now) check.entry)) }
{
    let opening = Opening {
        text,
        room: Some(MAX_ENTRIES),
        check,
    };
    let opened = match open_one(rt, alloc, table, opening) {
        Ok(opened) => opened,
        Err(fault) => return Err(fault),
    };
    Ok(serve_and_close(rt, alloc, opened, reader, writer, readonly))
}

/// Runs session slots and drivers over a desk, with additional work, and closes the desk.
///
/// Each runs in a thread of its own if the system can create one. Each driver makes `rounds` Rounds
/// or, if no number is given, Rounds until every slot has served its sessions. Then the additional
/// work is requested to stop. If `opening` names a handler, a view finally checks whether it can be
/// read. The desk is live, and its history is not stored, if `opening` has no room.
///
/// Slots have the numbers from 1, and drivers the numbers after them. The seat of each has the
/// number one less. The seats of the additional work follow.
///
/// If no thread can be created, the additional work begins when it is already requested to stop.
pub fn run_with_companion<
    T: Handlers + Send + Drop,
    D: Door,
    G: Gate,
    B: Companion<T>,
    R: Threads + Wait + Sync,
>(
    rt: &R,
    alloc: Global,
    table: T,
    opening: Opening,
    clients: Clients<D, G>,
    rounds: Option<u64>,
    beside: B,
) -> Result<CompanionRan<T, B::Done>, RunFault>
    requires many { (0 < clients.places + clients.workers) × (clients.places + clients.workers + B.Seats.many ≤ 256) }
    requires turns { 0 < clients.turns }
    ensures headline { IfOk result (λ ran. HeadlineFor opening.entry.room opening.entry.text.now (clients.entry.places + clients.entry.workers + B.Seats.many) ran.all.book) }
    ensures work { IfOk result (λ ran. BesideWork B.Seats.sittings B.Seats.many (B.does beside)
        (AttendedInTurn D.lets_in D.Reader.input D.Writer.output G.gives G.told clients.entry.door.now clients.entry.gate.now clients.entry.readonly clients.entry.turns)
        (DroveFor G.gives G.told clients.entry.gate.now rounds) clients.entry.places clients.entry.workers ran.all.book.seats ran.all.ended.items ran.all.drivers.items ran.done) }
    ensures checked { IfOk result (λ ran. IsChecked (option_map (λ n. n.now) opening.entry.check) ran.all.book ran.all.checked) }
    ensures config { IfErr result (IsTrueFault opening.entry.text.now) }
    ensures never_close { IfErr result IsNoClose }
    ensures view_asked { IfErr result (IsViewAsked (option_map (λ n. n.now) opening.entry.check)) }
{
    let inlets = Vec::new(alloc);
    let OpenedRun {
        desk,
        run_seats,
        asked,
    } = match begin(
        rt,
        alloc,
        table,
        opening,
        clients.places,
        clients.workers,
        inlets,
    ) {
        Ok(begun) => begun,
        Err(fault) => return Err(fault_of(fault)),
    };
    let service = &Service::of(alloc, &clients, rounds);
    let Clients { door, gate, .. } = clients;
    let (run_seats, done) = serve_with_companion(rt, &desk, door, gate, service, beside, run_seats);
    let all = finish(rt, desk, run_seats, asked);
    Ok(CompanionRan { all, done })
}

/// Runs session slots and drivers, without additional work.
fn run_alone<T: Handlers + Send + Drop, D: Door, G: Gate, R: Threads + Wait + Sync>(
    rt: &R,
    alloc: Global,
    table: T,
    opening: Opening,
    clients: Clients<D, G>,
    rounds: Option<u64>,
) -> Result<AllRan<T>, RunFault>
    requires many { (0 < clients.places + clients.workers) × (clients.places + clients.workers ≤ 256) }
    requires turns { 0 < clients.turns }
    ensures headline { IfOk result (λ ran. HeadlineFor opening.entry.room opening.entry.text.now (clients.entry.places + clients.entry.workers) ran.book) }
    ensures worked { IfOk result (λ ran. Worked (AttendedInTurn D.lets_in D.Reader.input D.Writer.output G.gives G.told clients.entry.door.now clients.entry.gate.now clients.entry.readonly clients.entry.turns)
        (DroveFor G.gives G.told clients.entry.gate.now rounds) clients.entry.places (clients.entry.places + clients.entry.workers) ran.book.seats ran.ended.items ran.drivers.items) }
    ensures rounds { IfOk result (λ ran. DriversRound clients.entry.places ran.book) }
    ensures checked { IfOk result (λ ran. IsChecked (option_map (λ n. n.now) opening.entry.check) ran.book ran.checked) }
    ensures config { IfErr result (IsTrueFault opening.entry.text.now) }
    ensures never_close { IfErr result IsNoClose }
    ensures view_asked { IfErr result (IsViewAsked (option_map (λ n. n.now) opening.entry.check)) }
{
    match run_with_companion(rt, alloc, table, opening, clients, rounds, NoCompanion) {
        Ok(ran) => {
            let CompanionRan { all, done: _ } = ran;
            Ok(all)
        }
        Err(fault) => Err(fault),
    }
}

/// Runs sessions and drivers over a desk, and closes the desk. Each runs in a thread of its own if
/// the system can create one. If the name of a handler is given, a view finally checks whether that
/// handler can be read.
///
/// Sessions have the numbers from 1, and drivers the numbers after them. The seat of each has the
/// number one less.
pub fn run_workers<T: Handlers + Send + Drop, D: Door, G: Gate, R: Threads + Wait + Sync>(
    rt: &R,
    alloc: Global,
    table: T,
    text: &[u8],
    readonly: bool,
    door: &D,
    sessions: usize,
    workers: usize,
    rounds: u64,
    gate: &G,
    check: Option<&[u8]>,
) -> Result<AllRan<T>, RunFault>
    requires { (0 < sessions + workers) × (sessions + workers ≤ 256) }
    ensures headline { IfOk result (λ ran. Headline text.now (sessions + workers) ran.book) }
    ensures worked { IfOk result (λ ran. Worked (Attended D.lets_in D.Reader.input D.Writer.output G.gives G.told door.now gate.now readonly) (Drove G.gives G.told gate.now rounds)
        sessions (sessions + workers) ran.book.seats ran.ended.items ran.drivers.items) }
    ensures rounds { IfOk result (λ ran. DriversRound sessions ran.book) }
    ensures checked { IfOk result (λ ran. IsChecked (option_map (λ n. n.now) check.entry) ran.book ran.checked) }
    ensures config { IfErr result (IsTrueFault text.now) }
    ensures never_close { IfErr result IsNoClose }
    ensures view_asked { IfErr result (IsViewAsked (option_map (λ n. n.now) check.entry)) }
{
    let opening = Opening {
        text,
        room: Some(MAX_ENTRIES),
        check,
    };
    let clients = Clients {
        door,
        gate,
        readonly,
        places: sessions,
        workers,
        turns: 1,
    };
    run_alone(rt, alloc, table, opening, clients, Some(rounds))
}

/// Runs a live router: its desk stores no book, so its memory does not grow with the calls.
///
/// There are `places` session slots, each of which serves `turns` sessions, one after another over
/// one seat. Drivers make Rounds until every slot has served its sessions. Each slot and each
/// driver has a thread of its own if the system can create one. Finally the desk is closed. With
/// 2^64 - 1 turns this does not happen before the process ends.
///
/// The contract is that of `run_workers`, for a history that is ghost state: there is a history of
/// exactly these calls with exactly these replies. It is never full.
///
/// If no thread can be created, the first slot serves all its sessions before the next one begins,
/// and the drivers make no Round.
pub fn run_live<T: Handlers + Send + Drop, D: Door, G: Gate, R: Threads + Wait + Sync>(
    rt: &R,
    alloc: Global,
    table: T,
    text: &[u8],
    clients: Clients<D, G>,
    check: Option<&[u8]>,
) -> Result<AllRan<T>, RunFault>
    requires many { (0 < clients.places + clients.workers) × (clients.places + clients.workers ≤ 256) }
    requires turns { 0 < clients.turns }
    ensures headline { IfOk result (λ ran. HeadlineFor None text.now (clients.entry.places + clients.entry.workers) ran.book) }
    ensures worked { IfOk result (λ ran. Worked (AttendedInTurn D.lets_in D.Reader.input D.Writer.output G.gives G.told clients.entry.door.now clients.entry.gate.now clients.entry.readonly clients.entry.turns)
        (DroveFor G.gives G.told clients.entry.gate.now None) clients.entry.places (clients.entry.places + clients.entry.workers) ran.book.seats ran.ended.items ran.drivers.items) }
    ensures rounds { IfOk result (λ ran. DriversRound clients.entry.places ran.book) }
    ensures checked { IfOk result (λ ran. IsChecked (option_map (λ n. n.now) check.entry) ran.book ran.checked) }
    ensures config { IfErr result (IsTrueFault text.now) }
    ensures never_close { IfErr result IsNoClose }
    ensures view_asked { IfErr result (IsViewAsked (option_map (λ n. n.now) check.entry)) }
{
    let opening = Opening {
        text,
        room: None,
        check,
    };
    run_alone(rt, alloc, table, opening, clients, None)
}
