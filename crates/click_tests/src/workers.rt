//! Sessions and drivers in threads of their own, held by gates.

ghost use Rattle.std.specs.Prelude.{◌≤◌, ◌<◌, ◌+◌};

use crate::cases::{Case, assert_case};
use crate::gates::{Crossed, Meeting, Note, Notes, Progress, RefusesOnce, SESSION};
use crate::peers::Peers;
use click_control::{Ended, ServeFault};
use click_desk::{Entry, Seat};
use click_packet::PacketRoom;
use click_router::{Call, CompactReply, Handlers, RunningConfig, StepFault, StoredReply};
use click_workers::{AllRan, Gate, OpenGate, SessionEnd, run_workers};
use std::alloc::Global;
use std::sync::Wait;
use std::sync::atomic::{AtomicU64, Ordering};
use std::test::Fail;
use std::thread::Threads;

const COUNTED: &[u8] = b"Idle -> c :: Counter -> Discard;";

const SWITCH: &[u8] = b"Idle -> s :: Switch(0) -> Discard; s [1] -> Discard;";

/// The texts of a session that ends at once.
const QUITS: &[&[u8]] = &[b"QUIT\n"];

/// The texts of a session that reads a switch, and of one that writes it.
const READ_AND_WRITE: &[&[&[u8]]] = &[&[b"READ s.switch\nQUIT\n"], &[b"WRITE s.switch 1\nQUIT\n"]];

/// The texts of a session that writes a switch, and of one that reads it.
const WRITE_AND_READ: &[&[&[u8]]] = &[&[b"WRITE s.switch 1\n"], &[b"READ s.switch\nQUIT\n"]];

/// The text of a session of six commands.
const SIX: &[&[&[u8]]] = &[&[
    b"READ c.count\nREAD c.count\nREAD c.count\nREAD c.count\nFOO\nQUIT\n",
]];

/// The numbers of sessions and drivers, and of the rounds of each driver.
#[derive(Clone, Copy)]
struct Sizes {
    sessions: usize,
    drivers: usize,
    rounds: u64,
}

/// Runs sessions and drivers over the router of a text, and returns what is left if it ran.
fn ran<T: Handlers + Send + Drop, G: Gate, R: Threads + Wait + Sync>(
    rt: &R,
    alloc: Global,
    table: T,
    text: &[u8],
    peers: &Peers<'_>,
    gate: &G,
    sizes: Sizes,
) -> Option<AllRan<T>>
    requires { (0 < sizes.sessions + sizes.drivers) × (sizes.sessions + sizes.drivers ≤ 256) }
{
    run_workers(
        rt,
        alloc,
        table,
        text,
        false,
        peers,
        sizes.sessions,
        sizes.drivers,
        sizes.rounds,
        gate,
        None,
    )
    .ok()
}

/// Returns whether all sessions ended by `QUIT`, and all drivers made all their rounds.
fn all_well<T>(ran: &AllRan<T>, sizes: Sizes) -> bool {
    ran.ended.len() == sizes.sessions
        && ran.drivers.len() == sizes.drivers
        && ran
            .ended
            .iter()
            .all(|end| matches!(end, SessionEnd::Served(Ok(Ended::Quit))))
        && ran.drivers.iter().all(|all| *all)
}

/// Returns whether this seat's first call read exactly this value.
fn first_reads<T>(seat: Option<&Seat<T>>, text: &[u8]) -> bool {
    let Some(seat) = seat else {
        return false;
    };
    match seat.calls().first() {
        Some((_, reply)) => match reply.compact() {
            CompactReply::Value(value) => value.as_slice() == text,
            _ => false,
        },
        None => false,
    }
}

/// Runs two sessions that wait for one another: the first reads what the second has written.
pub(crate) fn reads_across<T: Handlers + Send + Drop, R: Threads + Wait + Sync>(
    rt: &R,
    alloc: Global,
    table: T,
) -> Option<bool> {
    let taken = AtomicU64::new(0);
    let peers = Peers::new(alloc, READ_AND_WRITE, &taken).ok()?;
    let gate = Crossed {
        first: AtomicU64::new(0),
        second: AtomicU64::new(0),
    };
    let sizes = Sizes {
        sessions: 2,
        drivers: 0,
        rounds: 0,
    };
    let ran = ran(rt, alloc, table, SWITCH, &peers, &gate, sizes)?;
    Some(all_well(&ran, sizes) & first_reads(ran.book.seats.first(), b"1"))
}

/// Returns whether an entry is a Round in which the tasks gave or pulled `count` packets.
fn is_round(entry: &Entry, count: u64) -> bool {
    match (&entry.call, entry.reply.compact()) {
        (Call::Round, CompactReply::Worked(worked)) => *worked == count,
        _ => false,
    }
}

/// Returns whether these are the rounds of a source that gives five packets, two at a time.
fn are_rounds(entries: &[Entry]) -> bool {
    let wanted: [u64; 6] = [2, 2, 1, 0, 0, 0];
    let same = wanted
        .iter()
        .zip(entries.iter())
        .all(|(count, entry)| is_round(entry, *count));
    same & (entries.len() == 6)
}

/// Runs two drivers that take turns at such a source.
pub(crate) fn makes_rounds<T: Handlers + Send + Drop, R: Threads + Wait + Sync>(
    rt: &R,
    alloc: Global,
    table: T,
) -> Option<bool> {
    let text = b"InfiniteSource(\"ab\", 5, 2) -> c :: Counter -> Discard;";
    let taken = AtomicU64::new(0);
    let peers = Peers::new(alloc, &[], &taken).ok()?;
    let sizes = Sizes {
        sessions: 0,
        drivers: 2,
        rounds: 3,
    };
    let ran = ran(rt, alloc, table, text, &peers, &OpenGate, sizes)?;
    Some(all_well(&ran, sizes) & are_rounds(ran.book.entries.as_slice()))
}

/// Runs eight sessions and eight drivers, each of which waits until all have come.
pub(crate) fn all_meet<T: Handlers + Send + Drop, R: Threads + Wait + Sync>(
    rt: &R,
    alloc: Global,
    table: T,
) -> Option<bool> {
    let taken = AtomicU64::new(0);
    let texts = [QUITS; 8];
    let peers = Peers::new(alloc, &texts, &taken).ok()?;
    let gate = Meeting {
        parties: 16,
        come: AtomicU64::new(0),
    };
    let sizes = Sizes {
        sessions: 8,
        drivers: 8,
        rounds: 1,
    };
    let ran = ran(rt, alloc, table, COUNTED, &peers, &gate, sizes)?;
    Some(all_well(&ran, sizes))
}

/// Returns whether an entry is the write of `1` to the switch, by the first session, and was done.
fn is_the_write(entry: &Entry) -> bool {
    match (&entry.call, entry.reply.compact()) {
        (Call::Write { name, text }, CompactReply::Done) => {
            (entry.seat == 0)
                & (name.as_slice() == b"s.switch".as_slice())
                & (text.as_slice() == b"1".as_slice())
        }
        _ => false,
    }
}

/// Returns whether the first of two sessions ended at a failed write, and the second by `QUIT`.
fn first_failed(ended: &[SessionEnd]) -> bool {
    match ended {
        [SessionEnd::Served(first), SessionEnd::Served(second)] => {
            (*first == Err(ServeFault::WriteFailed)) & (*second == Ok(Ended::Quit))
        }
        _ => false,
    }
}

/// Runs two sessions, of which the first writes the switch and its writer fails at the reply.
pub(crate) fn write_fails<T: Handlers + Send + Drop, R: Threads + Wait + Sync>(
    rt: &R,
    alloc: Global,
    table: T,
) -> Option<bool> {
    let taken = AtomicU64::new(0);
    let mut peers = Peers::new(alloc, WRITE_AND_READ, &taken).ok()?;
    peers.fails = Some(1);
    let sizes = Sizes {
        sessions: 2,
        drivers: 0,
        rounds: 0,
    };
    let ran = ran(rt, alloc, table, SWITCH, &peers, &OpenGate, sizes)?;
    let entries = ran.book.entries.as_slice();
    let writes = entries.iter().filter(|e| is_the_write(e)).count();
    Some(first_failed(ran.ended.as_slice()) & (writes == 1) & (entries.len() == 2))
}

/// What the gate notes of the session: once before each command, and once after its reply. The
/// greeting has 26 bytes, each count 40, and the last two replies 33 and 14; only the reads make a
/// call.
const SESSION_NOTES: [Note; 12] = [
    (1, false, 0, 26),
    (1, true, 1, 66),
    (2, false, 1, 66),
    (2, true, 2, 106),
    (3, false, 2, 106),
    (3, true, 3, 146),
    (4, false, 3, 146),
    (4, true, 4, 186),
    (5, false, 4, 186),
    (5, true, 4, 219),
    (6, false, 4, 219),
    (6, true, 4, 233),
];

/// What the gate notes of the driver: once before and once after each of two rounds.
const DRIVER_NOTES: [Note; 4] = [
    (1, false, 0, 0),
    (1, true, 0, 0),
    (2, false, 0, 0),
    (2, true, 0, 0),
];

/// Returns whether these are all the notes of a session and a driver.
fn are_notes(alloc: Global, notes: &Notes<'_>) -> Option<bool> {
    let session = notes.of(alloc, SESSION).ok()?;
    let driver = notes.of(alloc, SESSION + 1).ok()?;
    let same = (session.as_slice() == SESSION_NOTES.as_slice())
        & (driver.as_slice() == DRIVER_NOTES.as_slice());
    Some(same & (notes.count() == 16))
}

/// Returns whether an entry is a read of this value.
fn is_read(entry: &Entry, text: &[u8]) -> bool {
    match (&entry.call, entry.reply.compact()) {
        (Call::Read { .. }, CompactReply::Value(value)) => value.as_slice() == text,
        _ => false,
    }
}

/// Returns whether the count is read before and after each of two rounds.
fn are_in_turn(entries: &[Entry]) -> bool {
    match entries {
        [none, first, two, still, second, three] => {
            is_read(none, b"0")
                & is_round(first, 2)
                & is_read(two, b"2")
                & is_read(still, b"2")
                & is_round(second, 1)
                & is_read(three, b"3")
        }
        _ => false,
    }
}

/// A table that counts its calls. A round makes none.
#[derive(Drop)]
struct Counted<'a, T> {
    table: T,
    made: &'a AtomicU64,
}

impl<T: Handlers> Handlers for Counted<'_, T> {
    fn step_stored(
        &self,
        running: &mut RunningConfig,
        alloc: Global,
        call: &Call,
        room: Option<PacketRoom>,
    ) -> Result<StoredReply, StepFault> {
        let reply = self.table.step_stored(running, alloc, call, room);
        self.made.fetch_add(1, Ordering::SeqCst);
        reply
    }
}

/// Runs a session and a driver behind a gate that notes its calls, and holds the driver each time
/// until the session has read.
pub(crate) fn is_noted<T: Handlers + Send + Drop, R: Threads + Wait + Sync>(
    rt: &R,
    alloc: Global,
    table: T,
) -> Option<bool> {
    let text = b"InfiniteSource(\"ab\", 3, 2) -> c :: Counter -> Discard;";
    let progress = Progress {
        made: AtomicU64::new(0),
        written: AtomicU64::new(0),
    };
    let peers = Peers::new(alloc, SIX, &progress.written).ok()?;
    let notes = Notes::new(alloc, &progress, 20).ok()?;
    let table = Counted {
        table,
        made: &progress.made,
    };
    let sizes = Sizes {
        sessions: 1,
        drivers: 1,
        rounds: 2,
    };
    let ran = ran(rt, alloc, table, text, &peers, &notes, sizes)?;
    let in_turn = are_in_turn(ran.book.entries.as_slice());
    Some(all_well(&ran, sizes) & in_turn & are_notes(alloc, &notes)?)
}

/// Runs a session of six commands and a driver of three rounds behind a gate that refuses the second
/// command of each.
pub(crate) fn ends_when_refused<T: Handlers + Send + Drop, R: Threads + Wait + Sync>(
    rt: &R,
    alloc: Global,
    table: T,
) -> Option<bool> {
    let taken = AtomicU64::new(0);
    let peers = Peers::new(alloc, SIX, &taken).ok()?;
    let gate = RefusesOnce {
        of_session: AtomicU64::new(0),
        of_driver: AtomicU64::new(0),
    };
    let sizes = Sizes {
        sessions: 1,
        drivers: 1,
        rounds: 3,
    };
    let ran = ran(rt, alloc, table, COUNTED, &peers, &gate, sizes)?;
    let session = matches!(
        ran.ended.as_slice(),
        [SessionEnd::Served(Ok(Ended::GateClosed))]
    ) & (gate.of_session.load(Ordering::SeqCst) == 1);
    let driver = matches!(ran.drivers.as_slice(), [false])
        & (gate.of_driver.load(Ordering::SeqCst) == 1);
    Some(session & driver & (ran.book.entries.as_slice().len() == 2))
}

/// The number of sessions that come at once.
const MANY: usize = 64;

/// Runs many sessions, each of which comes in once.
pub(crate) fn all_enter<T: Handlers + Send + Drop, R: Threads + Wait + Sync>(
    rt: &R,
    alloc: Global,
    table: T,
) -> Option<bool> {
    let taken = AtomicU64::new(0);
    let texts = [QUITS; MANY];
    let peers = Peers::new(alloc, &texts, &taken).ok()?;
    let sizes = Sizes {
        sessions: MANY,
        drivers: 0,
        rounds: 0,
    };
    let ran = ran(rt, alloc, table, COUNTED, &peers, &OpenGate, sizes)?;
    let book = ran.book.entries.as_slice().is_empty() & (ran.book.seats.len() == MANY);
    Some(all_well(&ran, sizes) & peers.all_came(1) & book)
}

/// Two sessions in threads wait for each other, and the first reads what the second wrote.
#[test]
fn a_value_crosses_between_sessions(rt: HostRuntime) -> Result<(), Fail> {
    assert_case(&rt, rt.alloc(), None, Case::Crossed)
}

/// Two drivers in threads make three rounds each, and the book has their six rounds in order.
#[test]
fn two_drivers_make_rounds(rt: HostRuntime) -> Result<(), Fail> {
    assert_case(&rt, rt.alloc(), None, Case::Rounds)
}

/// Eight sessions and eight drivers in threads of their own all meet at a gate.
#[test]
fn sixteen_threads_meet(rt: HostRuntime) -> Result<(), Fail> {
    assert_case(&rt, rt.alloc(), None, Case::Meeting)
}

/// If the writer of a session fails at the reply to a write, the other session goes on, and the
/// write is in the book.
#[test]
fn a_write_stays_when_its_reply_fails(rt: HostRuntime) -> Result<(), Fail> {
    assert_case(&rt, rt.alloc(), None, Case::WriteFails)
}

/// A gate is asked once before each command of a session and each round of a driver, and notified
/// once after its reply or round.
#[test]
fn a_gate_is_asked_and_notified(rt: HostRuntime) -> Result<(), Fail> {
    assert_case(&rt, rt.alloc(), None, Case::Noted)
}

/// A session and a driver whose second command is refused end there. The gate is not asked again, and
/// only their first commands are in the book.
#[test]
fn a_refused_command_is_the_last(rt: HostRuntime) -> Result<(), Fail> {
    assert_case(&rt, rt.alloc(), None, Case::Refused)
}

/// Each of 64 sessions is let in exactly once, and no other session is.
#[test]
fn each_session_comes_once(rt: HostRuntime) -> Result<(), Fail> {
    assert_case(&rt, rt.alloc(), None, Case::Crowd)
}
