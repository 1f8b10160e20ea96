//! The session slots and drivers of a run, each in a thread of its own.

ghost use Rattle.std.specs.Prelude.{◌≡◌, ◌≤◌, ◌<◌, ◌+◌, ◌++◌, ◌∷◌, [], IfSome, IfNone, length, vec_len, vec_capacity};
ghost use Rattle.std.specs.Thread.{IsSend, IsSync};
ghost use Rattle.click_desk.specs.SeatStates.{new_seat};
ghost use Rattle.click_workers.specs.Seats.{SameSeat};
ghost use Rattle.click_workers.specs.Work.{Attends, AttendedInTurn, CameOf, DrivesFor, DroveFor, InTurn, Ready, StayOf, Worked, drives_of, ends_of};

use crate::door::Door;
use crate::driver::drive_for;
use crate::gate::Gate;
use crate::service::Service;
use crate::session::{SessionEnd, serve_slot};
use click_desk::{Desk, Seat};
use click_router::Handlers;
use std::sync::Wait;
use std::thread;
use std::thread::Threads;

/// The seats of a run, with the outcomes of its session slots and drivers, and room for all
/// outcomes.
#[derive(Drop)]
pub(crate) struct Work<T> {
    pub(crate) seats: Vec<Seat<T>>,
    pub(crate) ended: Vec<SessionEnd>,
    pub(crate) drivers: Vec<bool>,
}

/// The outcome of one seat. It says how the last session of its slot ended, or whether its driver
/// made all its Rounds.
#[derive(Drop)]
pub(crate) enum Outcome {
    Attended(SessionEnd),
    Drove(bool),
}

impl<T> Work<T> {
    /// Appends a seat, and appends its outcome to those of its kind. Never allocates.
    fn add(&mut self, outcome: Outcome, seat: Seat<T>)
        requires seats { vec_len self.old.seats < vec_capacity self.old.seats }
        requires ended { vec_len self.old.ended + length (ends_of outcome) ≤ vec_capacity self.old.ended }
        requires drivers { vec_len self.old.drivers + length (drives_of outcome) ≤ vec_capacity self.old.drivers }
        ensures seats { self.new.seats.items ≡ self.old.seats.items ++ seat ∷ [] }
        ensures ended { self.new.ended.items ≡ self.old.ended.items ++ ends_of outcome }
        ensures drivers { self.new.drivers.items ≡ self.old.drivers.items ++ drives_of outcome }
        ensures room { (vec_capacity self.old.seats ≤ vec_capacity self.new.seats) × (vec_capacity self.old.ended ≤ vec_capacity self.new.ended) × (vec_capacity self.old.drivers ≤ vec_capacity self.new.drivers) }
    {
        self.seats.push_reserved(seat);
        match outcome {
            Outcome::Attended(end) => self.ended.push_reserved(end),
            Outcome::Drove(all) => self.drivers.push_reserved(all),
        }
    }
}

/// Removes the last of the new seats and returns it, with the rest. Returns `None` if no seat is
/// left.
fn last_of<T, B: Wait + Drop>(
    desk: &Desk<T, B>,
    sessions: usize,
    work: Work<T>,
) -> (Option<Seat<T>>, Work<T>)
    requires { Ready desk.now sessions (vec_len work.seats) work.seats.items work.ended.items work.drivers.items (vec_capacity work.ended) (vec_capacity work.drivers) }
    ensures some { IfSome result.0 (λ s. (s ≡ new_seat desk.now s.feeds (vec_len result.1.seats)) × (vec_len work.seats ≡ vec_len result.1.seats + 1) × (work.seats.items ≡ result.1.seats.items ++ s ∷ [])) }
    ensures none { IfNone result.0 ((vec_len work.seats ≡ 0) × (vec_len result.1.seats ≡ 0) × (work.seats.items ≡ result.1.seats.items)) }
    ensures ready { Ready desk.now sessions (vec_len result.1.seats) result.1.seats.items result.1.ended.items result.1.drivers.items (vec_capacity result.1.ended) (vec_capacity result.1.drivers) }
    ensures room { (vec_capacity work.seats ≡ vec_capacity result.1.seats) × (vec_capacity work.ended ≡ vec_capacity result.1.ended) × (vec_capacity work.drivers ≡ vec_capacity result.1.drivers) }
{
    let Work {
        mut seats,
        ended,
        drivers,
    } = work;
    let last = seats.pop();
    let rest = Work {
        seats,
        ended,
        drivers,
    };
    (last, rest)
}

/// Serves the sessions of a slot, if `who` is at most the number of slots, and drives otherwise.
fn work_one<T: Handlers, D: Door, G: Gate, R: Wait>(
    rt: &R,
    desk: &Desk<T, &R>,
    door: &D,
    gate: &G,
    service: &Service,
    seat: Seat<T>,
    who: usize,
) -> (Outcome, Seat<T>)
    requires desk { seat.desk ≡ desk.now }
    requires fresh { seat.calls ≡ [] }
    requires some { 0 < service.now.turns }
    ensures same { SameSeat seat result.1 }
    ensures came { CameOf (InTurn (Attends D.lets_in D.Reader.input D.Writer.output G.gives G.told door.now gate.now service.now.readonly who) service.now.turns seat) (DrivesFor G.gives G.told gate.now who service.now.rounds) service.now.sessions who result.1 result.0 }
{
    if who > service.sessions {
        let (all, seat) = drive_for(rt, desk, seat, gate, who, service.rounds, &service.places);
        (Outcome::Drove(all), seat)
    } else {
        let (end, seat) = serve_slot(rt, desk, door, gate, service, seat, who);
        (Outcome::Attended(end), seat)
    }
}

/// Serves the slot or runs the driver of each seat. All run in parallel, each in a thread of its
/// own if the system can create one.
pub(crate) fn work_all<T: Handlers + Send + Drop, D: Door, G: Gate, R: Threads + Wait + Sync>(
    rt: &R,
    desk: &Desk<T, &R>,
    door: &D,
    gate: &G,
    service: &Service,
    work: Work<T>,
) -> Work<T>
    requires ready { Ready desk.now service.now.sessions (vec_len work.seats) work.seats.items work.ended.items work.drivers.items (vec_capacity work.ended) (vec_capacity work.drivers) }
    requires some { 0 < service.now.turns }
    ensures desk { StayOf desk.now work.seats.items result.seats.items }
    ensures worked { Worked (AttendedInTurn D.lets_in D.Reader.input D.Writer.output G.gives G.told door.now gate.now service.now.readonly service.now.turns) (DroveFor G.gives G.told gate.now service.now.rounds)
        service.now.sessions (vec_len work.seats) result.seats.items result.ended.items result.drivers.items }
    ensures room { (vec_capacity work.seats ≤ vec_capacity result.seats) × (vec_capacity work.ended ≤ vec_capacity result.ended) × (vec_capacity work.drivers ≤ vec_capacity result.drivers) }
{
    let (last, rest) = last_of(desk, service.sessions, work);
    let Some(seat) = last else {
        return rest;
    };
    let who = rest.seats.len() + 1;
    let ((outcome, seat), mut done) = thread::join(
        rt,
        move || -> (Outcome, Seat<T>)
            requires { IsSync R.row × IsSync D.row × IsSync G.row × (seat.desk ≡ desk.now) × (seat.calls ≡ []) × (0 < service.now.turns) }
            ensures { SameSeat seat result.1
                × CameOf (InTurn (Attends D.lets_in D.Reader.input D.Writer.output G.gives G.told door.entry.now gate.entry.now service.entry.now.readonly who) service.entry.now.turns seat)
                (DrivesFor G.gives G.told gate.entry.now who service.entry.now.rounds) service.entry.now.sessions who result.1 result.0 }
        { work_one(rt, desk, door, gate, service, seat, who) },
        move || -> Work<T>
            requires { IsSync R.row × IsSync D.row × IsSync G.row × IsSend T.row × Ready desk.now service.now.sessions (vec_len rest.seats) rest.seats.items rest.ended.items rest.drivers.items (vec_capacity rest.ended) (vec_capacity rest.drivers) × (0 < service.now.turns) }
            ensures { StayOf desk.entry.now rest.seats.items result.seats.items
                × Worked (AttendedInTurn D.lets_in D.Reader.input D.Writer.output G.gives G.told door.entry.now gate.entry.now service.entry.now.readonly service.entry.now.turns)
                (DroveFor G.gives G.told gate.entry.now service.entry.now.rounds) service.entry.now.sessions (vec_len rest.seats) result.seats.items result.ended.items result.drivers.items
                × (vec_capacity rest.seats ≤ vec_capacity result.seats) × (vec_capacity rest.ended ≤ vec_capacity result.ended) × (vec_capacity rest.drivers ≤ vec_capacity result.drivers) }
        { work_all(rt, desk, door, gate, service, rest) },
    );
    done.add(outcome, seat);
    done
}
