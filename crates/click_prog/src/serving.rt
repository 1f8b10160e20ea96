//! Runs of a plan over a table of handlers, and their reports on standard error.

ghost use Rattle.std.specs.Prelude.{◌≡◌, ◌++◌, ◌∷◌, ◌+◌, ◌<◌, ◌≤◌, [], OnOk, codes};
ghost use Rattle.std.specs.Io.KnownBytes.{Appends};
ghost use Rattle.click_prog.specs.Asked.{IsInRanges, plan_of};
ghost use Rattle.click_prog.specs.Running.{RunsTo, AllRunTo, LiveRunTo, fresh_input, fresh_output};
ghost use Rattle.click_prog.specs.Statuses.{fault_status, sessions_status, check_line, check_word};

use crate::arguments::Options;
use crate::book_lines::write_book;
use crate::status::{MESSAGE_PREFIX, end_status, sessions_status};
use click_cli::{Status, refuse_configuration};
use click_desk::Entry;
use click_router::{Check, Handlers};
use click_streams::{InputDevice, OutputDevice, Reading, Sink, Source, Writing};
use click_workers::{
    AllRan, Clients, Door, Gate, OpenGate, Ran, RunFault, run, run_live, run_workers,
};
use std::alloc::Global;
use std::io::{self, Write};
use std::marker::Model;
use std::mem;
use std::sync::Wait;
use std::thread::Threads;

/// The plan of a run.
///
/// It has the numbers of sessions (1 to 64), of drivers (0 to 16) and of the rounds of each driver.
/// It also says whether sessions may only read, and whether the router is live.
#[derive(Drop)]
pub struct Plan {
    pub(crate) sessions: usize,
    pub(crate) workers: usize,
    pub(crate) rounds: u64,
    pub(crate) readonly: bool,
    pub(crate) live: bool,
}

impl Model for Plan {
    ghost use Rattle.std.specs.Prelude.{◌≤◌};
    ghost use Rattle.click_prog.specs.Running.{Planned};

    ghost Value = { Planned };

    ghost view = { λ p. record { sessions = p.sessions; workers = p.workers; rounds = p.rounds; readonly = p.readonly; live = p.live } };

    ghost invariant = { λ p. (1 ≤ p.sessions) × (p.sessions ≤ 64) × (p.workers ≤ 16) };
}

impl Plan {
    pub fn new(sessions: usize, workers: usize, rounds: u64, readonly: bool, live: bool) -> Plan
        requires { (1 ≤ sessions) × (sessions ≤ 64) × (workers ≤ 16) }
        ensures { result ≡ record { sessions = sessions; workers = workers; rounds = rounds; readonly = readonly; live = live } }
    {
        Plan {
            sessions,
            workers,
            rounds,
            readonly,
            live,
        }
    }
}

/// Returns the plan of the options. Without a port there is one session.
pub fn plan_of(options: &Options) -> Plan
    requires { IsInRanges options.now }
    ensures { result ≡ plan_of options.now }
{
    let sessions = match options.port {
        None => 1,
        Some(_) => options.sessions,
    };
    Plan::new(
        sessions,
        options.workers,
        options.rounds,
        options.readonly,
        options.live,
    )
}

/// The reports at the end of a run: whether the handler `check` can be read, and the book.
#[derive(Clone, Copy)]
pub struct EndReport<'a> {
    pub check: Option<&'a [u8]>,
    pub book: bool,
}

/// The arguments of a run: the configuration, the plan, and the reports at its end.
#[derive(Drop)]
pub struct RunSetup<'a> {
    pub text: &'a [u8],
    pub plan: Plan,
    pub end: EndReport<'a>,
}

/// The arrival of sessions: at a door, past a gate, and `turns` of them in each session slot, one
/// after another.
#[derive(Drop)]
pub struct Arrivals<'a, D, G> {
    pub door: &'a D,
    pub gate: &'a G,
    pub turns: u64,
}

impl<'a, D> Arrivals<'a, D, OpenGate> {
    /// Returns arrivals past a gate that never holds a session.
    pub fn open(door: &'a D, turns: u64) -> Arrivals<'a, D, OpenGate>
        ensures { (result.door.now ≡ door.now) × (result.turns ≡ turns) }
    {
        Arrivals {
            door,
            gate: &OpenGate,
            turns,
        }
    }
}

/// Returns the sessions and drivers of a plan, with these arrivals.
pub(crate) fn clients_of<'a, D, G>(plan: Plan, arrivals: Arrivals<'a, D, G>) -> Clients<'a, D, G>
    ensures door { result.door.now ≡ arrivals.entry.door.now }
    ensures gate { result.gate.now ≡ arrivals.entry.gate.now }
    ensures turns { result.turns ≡ arrivals.entry.turns }
    ensures plan { (result.readonly ≡ plan.readonly) × (result.places ≡ plan.sessions) × (result.workers ≡ plan.workers) }
{
    Clients {
        door: arrivals.door,
        gate: arrivals.gate,
        readonly: plan.readonly,
        places: plan.sessions,
        workers: plan.workers,
        turns: arrivals.turns,
    }
}

/// Serves one session that reads from one device and writes to the other, over a router of the
/// text.
///
/// Returns the devices as the session left them. Writes to standard error the fault of a refused
/// text, or the reports at the end.
pub fn session<T: Handlers + Drop, I: InputDevice, O: OutputDevice, R: Wait>(
    rt: &R,
    host: &HostRuntime,
    table: T,
    setup: RunSetup,
    input: I,
    output: O,
) -> (Status, Reading<I>, Writing<O>)
    ensures { RunsTo setup.entry.text.now setup.entry.plan.readonly (fresh_input (I.remaining input)) (⟦<Reading<I> as Source>⟧.input result.1)
        (fresh_output (O.contents output)) (⟦<Writing<O> as Sink>⟧.output result.2) result.0 }
{
    let mut reader = Reading::new(input);
    let mut writer = Writing::new(output);
    let status = serve_text(rt, host, table, setup, &mut reader, &mut writer);
    (status, reader, writer)
}

/// Serves one session with this reader and this writer, over a router of the text. Writes the
/// reports to standard error.
fn serve_text<T: Handlers + Drop, S: Source, W: Sink, R: Wait>(
    rt: &R,
    host: &HostRuntime,
    table: T,
    setup: RunSetup,
    reader: &mut S,
    writer: &mut W,
) -> Status
    ensures { RunsTo setup.entry.text.now setup.entry.plan.readonly (S.input reader.old) (S.input reader.new) (W.output writer.old) (W.output writer.new) result }
{
    let RunSetup { text, plan, end } = setup;
    let alloc = host.alloc();
    let readonly = plan.readonly;
    match run(rt, alloc, table, reader, writer, text, readonly, end.check) {
        Ok(
            Ran {
                ended,
                book,
                checked,
            },
        ) => {
            tell_end(host, end, checked, book.entries.as_slice());
            // The process is about to end, and its memory with it.
            mem::forget(book);
            end_status(&ended)
        }
        Err(fault) => refuse(host, &fault),
    }
}

/// Serves sessions that come in at a door, with drivers, over a router of the text. Writes the
/// reports to standard error.
pub fn serve_all<T: Handlers + Send + Drop, D: Door, R: Threads + Wait + Sync>(
    rt: &R,
    host: &HostRuntime,
    table: T,
    setup: RunSetup,
    door: &D,
) -> Status
    ensures { AllRunTo D.lets_in D.Reader.input D.Writer.output ⟦<OpenGate as Gate>⟧.gives ⟦<OpenGate as Gate>⟧.told door.now setup.entry.plan.readonly setup.entry.text.now setup.entry.plan.sessions
        setup.entry.plan.workers setup.entry.plan.rounds result }
{
    let RunSetup { text, plan, end } = setup;
    let alloc = host.alloc();
    let Plan {
        sessions,
        workers,
        rounds,
        readonly,
        live: _,
    } = plan;
    match run_workers(
        rt, alloc, table, text, readonly, door, sessions, workers, rounds, &OpenGate, end.check,
    ) {
        Ok(all) => conclude(host, end, all),
        Err(fault) => refuse(host, &fault),
    }
}

/// Serves sessions that come in at a door over a live router of the text, with drivers that go on
/// as long as sessions are served.
///
/// Each session slot serves as many sessions as `arrivals` says, one after another. Writes the
/// fault of a refused text to standard error.
pub fn serve_live<T: Handlers + Send + Drop, D: Door, R: Threads + Wait + Sync>(
    rt: &R,
    host: &HostRuntime,
    table: T,
    setup: RunSetup,
    arrivals: Arrivals<D, OpenGate>,
) -> Status
    requires { 0 < arrivals.turns }
    ensures { LiveRunTo D.lets_in D.Reader.input D.Writer.output ⟦<OpenGate as Gate>⟧.gives ⟦<OpenGate as Gate>⟧.told arrivals.entry.door.now setup.entry.plan.readonly setup.entry.text.now
        setup.entry.plan.sessions setup.entry.plan.workers arrivals.entry.turns result }
{
    let RunSetup { text, plan, end: _ } = setup;
    let alloc = host.alloc();
    let clients = clients_of(plan, arrivals);
    match run_live(rt, alloc, table, text, clients, None) {
        Ok(ran) => sessions_status(ran.ended.as_slice()),
        Err(fault) => refuse(host, &fault),
    }
}

/// Prints the reports of a run of several sessions, and returns its status.
pub(crate) fn conclude<T: Drop>(host: &HostRuntime, end: EndReport, all: AllRan<T>) -> Status
    ensures { result ≡ sessions_status all.ended.items }
{
    let AllRan {
        ended,
        drivers: _,
        book,
        checked,
    } = all;
    tell_end(host, end, checked, book.entries.as_slice());
    // The process is about to end, and its memory with it.
    mem::forget(book);
    sessions_status(ended.as_slice())
}

/// Prints the reports of a run: the check, and the book.
fn tell_end(host: &HostRuntime, end: EndReport, checked: Option<Check>, entries: &[Entry]) {
    let mut errors = host.stderr();
    tell_check(&mut errors, end.check, checked);
    tell_book(host.alloc(), &mut errors, end.book, entries);
}

/// Prints the reason why there was no run, but nothing for out of memory.
pub(crate) fn refuse(host: &HostRuntime, fault: &RunFault) -> Status
    ensures { result ≡ fault_status fault.now }
{
    match fault {
        RunFault::Config(fault) => {
            refuse_configuration(host.alloc(), &mut host.stderr(), MESSAGE_PREFIX, fault)
        }
        RunFault::NoMemory => Status::NoMemory,
        RunFault::Close(_) | RunFault::NoView => Status::Refused,
    }
}

/// Prints the outcome of the check, if there was one.
fn tell_check<E: Write>(errors: &mut E, name: Option<&[u8]>, checked: Option<Check>) {
    if let (Some(name), Some(check)) = (name, checked) {
        // A failed write does not change the status.
        let _ = write_check(errors, name, check);
    }
}

/// Prints the book, if that was asked for.
fn tell_book<E: Write>(alloc: Global, errors: &mut E, asked: bool, entries: &[Entry]) {
    if asked {
        // A failed write does not change the status.
        let _ = write_book(alloc, errors, entries);
    }
}

/// Writes the outcome of the check as a line.
fn write_check<W: Write>(to: &mut W, name: &[u8], check: Check) -> io::Result<()>
    ensures { OnOk result (Appends (W.contents to.old) (W.contents to.new) (check_line name.now check)) }
{
    to.write_all(b"check ")?;
    to.write_all(name)?;
    to.write_all(b": ")?;
    to.write_all(word_of(check))?;
    to.write_all(b"\n")
}

/// Returns the word that reports the outcome of a check.
fn word_of(check: Check) -> &'static [u8]
    ensures { result.now ≡ check_word check }
{
    match check {
        Check::Yes => b"Yes",
        Check::NoElement => b"NoElement",
        Check::NoHandler => b"NoHandler",
        Check::WrongWay => b"WrongWay",
    }
}
