//! Sessions over a seat of a desk.

ghost use Rattle.std.specs.Prelude.{◌≡◌, ◌<◌};
ghost use Rattle.click_control.specs.Serving.{WentThrough, NoneRefused, most_reads};
ghost use Rattle.click_workers.specs.Seats.{SameSeat, SeatServes};
ghost use Rattle.click_workers.specs.Work.{Attends, InTurn};

use crate::door::Door;
use crate::driver::MIN_SLEEP_US;
use crate::gate::{AtGate, Gate};
use crate::observed_port::ObservedPort;
use crate::observer::Observer;
use crate::seat_port::SeatPort;
use crate::service::Service;
use click_control::{Ended, MAX_READS, ServeFault, Turns, serve, serve_turns};
use click_desk::{Desk, Seat};
use click_links::Pause;
use click_router::Handlers;
use click_streams::{Sink, Source};
use std::alloc::Global;
use std::sync::Wait;
use std::thread::Parker;

/// Serves a session over a seat of the desk. Returns how it ended, and the seat.
///
/// The seat's list grows by exactly the calls that did not fail (out of memory or history full),
/// with their replies.
pub fn serve_seat<T: Handlers, S: Source, W: Sink, G: Turns, R: Wait, B: Wait + Drop>(
    alloc: Global,
    mut port: SeatPort<T, R, B>,
    reader: &mut S,
    writer: &mut W,
    readonly: bool,
    turns: &mut G,
    reads: u32,
) -> (Result<Ended, ServeFault>, Seat<T>)
    ensures { SeatServes readonly reads (WentThrough G.turn G.done turns.old turns.new) port.entry result.1 (S.input reader.old) (S.input reader.new)
        (W.output writer.old) (W.output writer.new) result.0 }
{
    let ended = serve_turns(alloc, reader, writer, &mut port, readonly, turns, reads);
    (ended, port.into_seat())
}

/// Serves a session as `serve_seat` does, without a gate and with the maximum number of reads.
pub(crate) fn serve_ungated<T: Handlers, S: Source, W: Sink, R: Wait, B: Wait + Drop>(
    alloc: Global,
    mut port: SeatPort<T, R, B>,
    reader: &mut S,
    writer: &mut W,
    readonly: bool,
) -> (Result<Ended, ServeFault>, Seat<T>)
    ensures { SeatServes readonly most_reads NoneRefused port.entry result.1 (S.input reader.old) (S.input reader.new) (W.output writer.old) (W.output writer.new) result.0 }
{
    let ended = serve(alloc, reader, writer, &mut port, readonly);
    (ended, port.into_seat())
}

/// The outcome of a session.
#[derive(Drop)]
pub enum SessionEnd {
    /// The door did not let it in.
    NoEntry,
    /// It was served.
    Served(Result<Ended, ServeFault>),
}

/// Serves a session over a port that is observed, with the maximum number of reads. Reports its end
/// to the observer.
fn serve_observed<T: Handlers, S: Source, W: Sink, G: Turns, O: Observer, R: Wait, B: Wait + Drop>(
    alloc: Global,
    mut port: ObservedPort<SeatPort<T, R, B>, O>,
    reader: &mut S,
    writer: &mut W,
    readonly: bool,
    turns: &mut G,
) -> (Result<Ended, ServeFault>, Seat<T>)
    ensures { SeatServes readonly most_reads (WentThrough G.turn G.done turns.old turns.new) port.entry result.1 (S.input reader.old) (S.input reader.new)
        (W.output writer.old) (W.output writer.new) result.0 }
{
    let ended = serve_turns(alloc, reader, writer, &mut port, readonly, turns, MAX_READS);
    let seat = port.end(&ended).into_seat();
    (ended, seat)
}

/// Lets one session in through the door, under the number `who`, and serves it over the seat. Then
/// the session leaves through the door. The door observes the session.
fn serve_entrant<T: Handlers, D: Door, G: Gate, R: Wait>(
    rt: &R,
    desk: &Desk<T, &R>,
    door: &D,
    gate: &G,
    service: &Service,
    seat: Seat<T>,
    who: usize,
) -> (SessionEnd, Seat<T>)
    requires { seat.desk ≡ desk.now }
    ensures same { SameSeat seat result.1 }
    ensures attends { Attends D.lets_in D.Reader.input D.Writer.output G.gives G.told door.now gate.now service.now.readonly who seat result.1 result.0 }
{
    let Some((mut reader, mut writer)) = door.enter(who) else {
        return (SessionEnd::NoEntry, seat);
    };
    let mut turns = AtGate::new(gate, who);
    let (ended, seat) = serve_observed(
        service.alloc,
        ObservedPort::begin(SeatPort::new(rt, desk, seat), door, who),
        &mut reader,
        &mut writer,
        service.readonly,
        &mut turns,
    );
    door.leave(who, &ended, reader, writer);
    (SessionEnd::Served(ended), seat)
}

/// The maximum duration of the sleep of a slot after a session was not let in, in microseconds.
const MAX_DOOR_SLEEP_US: u64 = 100_000;

/// Lets `service.turns` sessions in, one after another, and serves each over the seat. Returns how
/// the last one ended.
///
/// If a session is not let in, sleeps before the next one. Finally records that this slot has
/// served all its sessions.
pub(crate) fn serve_slot<T: Handlers, D: Door, G: Gate, R: Wait>(
    rt: &R,
    desk: &Desk<T, &R>,
    door: &D,
    gate: &G,
    service: &Service,
    seat: Seat<T>,
    who: usize,
) -> (SessionEnd, Seat<T>)
    requires desk { seat.desk ≡ desk.now }
    requires some { 0 < service.now.turns }
    ensures same { SameSeat seat result.1 }
    ensures attends { InTurn (Attends D.lets_in D.Reader.input D.Writer.output G.gives G.told door.now gate.now service.now.readonly who) service.now.turns seat result.1 result.0 }
{
    // No thread wakes it, so each sleep takes the full time.
    let wake = Parker::new();
    let mut pause = Pause::between(MIN_SLEEP_US, MAX_DOOR_SLEEP_US);
    let (mut last, mut seat) = serve_entrant(rt, desk, door, gate, service, seat, who);
    for nth in 1..service.turns {
        match last {
            SessionEnd::NoEntry => pause.sleep(rt, &wake),
            SessionEnd::Served(_) => pause.begin_anew(),
        }
        let (end, left) = serve_entrant(rt, desk, door, gate, service, seat, who);
        last = end;
        seat = left;
    }
    service.places.leave();
    (last, seat)
}
