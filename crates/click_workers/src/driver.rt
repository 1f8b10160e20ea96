//! Drivers: threads that make Rounds at a desk.

ghost use Rattle.std.specs.Prelude.{◌≡◌, ℕ, [], is_some};
ghost use Rattle.click_workers.specs.Seats.{SameSeat};
ghost use Rattle.click_workers.specs.Work.{Drives, DrivesFor, TakesTurn};

use crate::gate::Gate;
use crate::open_slots::OpenSlots;
use click_desk::{Desk, Seat};
use click_links::Pause;
use click_router::Handlers;
use std::sync::Wait;
use std::thread::Parker;

/// The duration of the first sleep of a driver or a slot, in microseconds.
pub(crate) const MIN_SLEEP_US: u64 = 20;

/// The maximum duration of the sleep of a driver that finds no work, in microseconds.
const MAX_DRIVER_SLEEP_US: u64 = 1_000;

/// Makes one Round, the nth of this driver. Returns the number of packets that its tasks emitted or
/// pulled, or `None` if the gate refused the Round or it failed.
fn take_turn<T: Handlers, G: Gate, R: Wait>(
    rt: &R,
    desk: &Desk<T, &R>,
    seat: &mut Seat<T>,
    gate: &G,
    who: usize,
    nth: u64,
) -> Option<u64>
    requires { seat.old.desk ≡ desk.now }
    ensures same { SameSeat seat.old seat.new }
    ensures turn { TakesTurn G.gives G.told gate.now who nth seat.old seat.new (is_some result) }
{
    if !gate.before(who, nth) {
        return None;
    }
    match desk.round(rt, seat) {
        Ok(worked) => {
            gate.after(who, nth);
            Some(worked)
        }
        Err(_) => None,
    }
}

/// Makes `rounds` Rounds. Stops early if the gate refuses one or one fails. Returns whether it made
/// them all.
fn drive<T: Handlers, G: Gate, R: Wait>(
    rt: &R,
    desk: &Desk<T, &R>,
    mut seat: Seat<T>,
    gate: &G,
    who: usize,
    rounds: u64,
) -> (bool, Seat<T>)
    requires desk { seat.desk ≡ desk.now }
    requires fresh { seat.calls ≡ [] }
    ensures same { SameSeat seat result.1 }
    ensures drives { Drives G.gives G.told gate.now who rounds result.1 result.0 }
{
    for nth in 0..rounds {
        match take_turn(rt, desk, &mut seat, gate, who, nth + 1) {
            None => return (false, seat),
            Some(_) => {}
        }
    }
    (true, seat)
}

/// Makes Rounds until every slot has served its sessions. Stops early if the gate refuses a Round
/// or one fails. Returns whether it did not stop early.
///
/// After a Round without work it sleeps, longer after each one in a row.
fn drive_on<T: Handlers, G: Gate, R: Wait>(
    rt: &R,
    desk: &Desk<T, &R>,
    mut seat: Seat<T>,
    gate: &G,
    who: usize,
    places: &OpenSlots,
) -> (bool, Seat<T>)
    requires desk { seat.desk ≡ desk.now }
    requires fresh { seat.calls ≡ [] }
    ensures same { SameSeat seat result.1 }
    ensures drives { (rounds : ℕ) × Drives G.gives G.told gate.now who rounds result.1 result.0 }
{
    // No thread wakes it, so each sleep takes the full time.
    let wake = Parker::new();
    let mut pause = Pause::between(MIN_SLEEP_US, MAX_DRIVER_SLEEP_US);
    for nth in 0..u64::MAX {
        if places.have_ended() {
            return (true, seat);
        }
        match take_turn(rt, desk, &mut seat, gate, who, nth + 1) {
            None => return (false, seat),
            Some(count) => pause.rest_after(rt, &wake, count),
        }
    }
    (true, seat)
}

/// Makes `rounds` Rounds as `drive` does or, if no number is given, makes Rounds as `drive_on`
/// does.
pub(crate) fn drive_for<T: Handlers, G: Gate, R: Wait>(
    rt: &R,
    desk: &Desk<T, &R>,
    seat: Seat<T>,
    gate: &G,
    who: usize,
    rounds: Option<u64>,
    places: &OpenSlots,
) -> (bool, Seat<T>)
    requires desk { seat.desk ≡ desk.now }
    requires fresh { seat.calls ≡ [] }
    ensures same { SameSeat seat result.1 }
    ensures drives { DrivesFor G.gives G.told gate.now who rounds result.1 result.0 }
{
    match rounds {
        Some(rounds) => drive(rt, desk, seat, gate, who, rounds),
        None => drive_on(rt, desk, seat, gate, who, places),
    }
}
