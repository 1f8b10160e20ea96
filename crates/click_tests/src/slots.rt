//! Session slots, which serve one session after another, and drivers that go on meanwhile.

ghost use Rattle.std.specs.Prelude.{◌≤◌, ◌<◌, ◌+◌};

use crate::cases::{Case, assert_case};
use crate::gates::Driven;
use crate::peers::Peers;
use crate::routers::reads;
use click_control::Ended;
use click_router::Handlers;
use click_workers::{AllRan, Clients, SessionEnd, run_live};
use std::alloc::Global;
use std::sync::Wait;
use std::sync::atomic::AtomicU64;
use std::test::Fail;
use std::thread::Threads;

/// A source of three packets, one in a round, and a switch.
const TEXT: &[u8] =
    b"InfiniteSource(ab, 3, 1) -> c :: Counter -> Discard; Idle -> s :: Switch(0); s [0] -> Discard; s [1] -> Discard; s [2] -> Discard; s [3] -> Discard;";

/// What the sessions of a slot write, one after another.
const TURNS: &[&[u8]] = &[
    b"WRITE s.switch 1\nQUIT\n",
    b"WRITE s.switch 2\nQUIT\n",
    b"WRITE s.switch 3\nQUIT\n",
];

/// The number of rounds of drivers before a session's first command: more than find work.
const ROUNDS: u64 = 20;

/// A run with slots and drivers, and what it leaves.
#[derive(Clone, Copy, Debug, Drop)]
pub(crate) struct Slots {
    slots: usize,
    drivers: usize,
    /// The number of sessions of each slot.
    turns: u64,
    /// The turn, from 0, that is not let in.
    refused: Option<u64>,
    /// The value of the switch afterwards.
    switch: &'static [u8],
    /// The number of packets that the source gave.
    count: &'static [u8],
    /// Whether the last session of each slot came in.
    served: bool,
}

const CASES: [Slots; 4] = [
    Slots {
        slots: 1,
        drivers: 0,
        turns: 3,
        refused: None,
        switch: b"3",
        count: b"0",
        served: true,
    },
    Slots {
        slots: 1,
        drivers: 2,
        turns: 3,
        refused: Some(1),
        switch: b"3",
        count: b"3",
        served: true,
    },
    Slots {
        slots: 1,
        drivers: 1,
        turns: 2,
        refused: Some(1),
        switch: b"1",
        count: b"3",
        served: false,
    },
    Slots {
        slots: 2,
        drivers: 1,
        turns: 3,
        refused: None,
        switch: b"3",
        count: b"3",
        served: true,
    },
];

/// Returns whether the last session of each slot ended by `QUIT`, or none of them came in, and no
/// driver was stopped.
fn are_ended<T>(ran: &AllRan<T>, case: Slots) -> bool {
    let ended = ran.ended.iter().all(|end| match end {
        SessionEnd::Served(Ok(Ended::Quit)) => case.served,
        SessionEnd::NoEntry => !case.served,
        _ => false,
    });
    ended
        & (ran.ended.len() == case.slots)
        & (ran.drivers.len() == case.drivers)
        & ran.drivers.iter().all(|all| *all)
}

/// Runs the slots and drivers over a live desk.
fn ran<T: Handlers + Send + Drop, R: Threads + Wait + Sync>(
    rt: &R,
    alloc: Global,
    table: T,
    peers: &Peers<'_>,
    case: Slots,
) -> Option<AllRan<T>>
    requires { (0 < case.slots) × (case.slots + case.drivers ≤ 256) × (0 < case.turns) }
{
    let gate = Driven {
        slots: case.slots,
        wanted: if case.drivers == 0 { 0 } else { ROUNDS },
        made: AtomicU64::new(0),
    };
    let clients = Clients {
        door: peers,
        gate: &gate,
        readonly: false,
        places: case.slots,
        workers: case.drivers,
        turns: case.turns,
    };
    run_live(rt, alloc, table, TEXT, clients, None).ok()
}

/// Runs the slots and drivers, and looks at what they leave.
pub(crate) fn serves_slots<T: Handlers + Send + Drop, R: Threads + Wait + Sync>(
    rt: &R,
    alloc: Global,
    table: T,
    case: Slots,
) -> Option<bool> {
    if case.slots == 0 || case.slots > 128 || case.drivers > 128 || case.turns == 0 {
        return None;
    }
    let taken = AtomicU64::new(0);
    let all = [TURNS; 2];
    let mut peers = Peers::new(alloc, all.get(..case.slots)?, &taken).ok()?;
    peers.refused = case.refused;
    let mut ran = ran(rt, alloc, table, &peers, case)?;
    let switch = reads(alloc, &mut ran.book.router, b"s.switch", case.switch)?;
    let count = reads(alloc, &mut ran.book.router, b"c.count", case.count)?;
    let kept = !ran.book.entries.as_slice().is_empty();
    Some(switch & count & !kept & are_ended(&ran, case) & peers.all_came(case.turns))
}

/// Session slots serve sessions one after another, also if one of them is not let in, while drivers
/// go on, and the live desk stores no entry.
#[test]
fn slots_serve_one_after_another(rt: HostRuntime) -> Result<(), Fail> {
    for case in CASES {
        assert_case(&rt, rt.alloc(), None, Case::Slots(case))?;
    }
    Ok(())
}
