//! Sweeps over the devices of all links.

ghost use Rattle.std.specs.Prelude.{◌≡◌, ◌↔◌, ◌<◌, ◌++◌, ◌∷◌, [], ℕ, IsTrue, IfOk, IfErr, OnErr};
ghost use Rattle.std.specs.List.{All};
ghost use Rattle.click_links.specs.Turns.{SameSeat, IsIdleTurn, IsFullIfReported, names_of};
ghost use Rattle.click_links.specs.Forwarding.{Forwards};
ghost use Rattle.click_links.specs.Sweeps.{EachTurn, Rounds, RoundsUntil, IsSweep, count_worked, round};
ghost use Rattle.click_router.specs.declared.call.Reply.{Reply};

use crate::device::Device;
use crate::link::Outbound;
use crate::turns::{Turn, forward};
use click_desk::{Desk, DeskFault, Seat};
use click_router::Handlers;
use std::alloc::Global;
use std::sync::Wait;

/// The maximum number of Rounds of a sweep.
const MAX_ROUNDS: u64 = 16;

/// The outcome of a sweep.
#[derive(Drop)]
pub struct SweepResult {
    /// The turn of each device, in the order of the devices.
    pub turns: Vec<Turn>,
    /// The number of Rounds that found work.
    pub rounds: u64,
    /// Whether it made the maximum number of Rounds, so that there may be more work.
    pub more: bool,
}

impl SweepResult {
    /// Returns whether no packet entered, no packet was sent or lost, and no Round found work.
    pub fn is_idle(&self) -> bool
        ensures { IsTrue result ↔ (All IsIdleTurn self.now.turns.items × (self.now.rounds ≡ 0)) }
    {
        self.turns.iter().all(|turn| turn.is_idle()) && self.rounds == 0
    }
}

/// Makes one turn of each device, in order, and lists the turns.
fn forward_each<T: Handlers, S: Outbound, R: Wait>(
    rt: &R,
    alloc: Global,
    desk: &Desk<T, &R>,
    seat: &mut Seat<T>,
    devices: &[Device],
    sender: &mut S,
) -> Result<Vec<Turn>, DeskFault>
    requires { seat.old.desk ≡ desk.now }
    ensures same { SameSeat seat.old seat.new }
    ensures ok { IfOk result (λ turns. EachTurn (names_of devices.now) seat.old.feeds seat.old.calls seat.new.calls (S.attempts sender.old) (S.attempts sender.new) turns.items) }
    ensures forwards { Forwards (names_of devices.now) seat.old.calls seat.new.calls (S.attempts sender.old) (S.attempts sender.new) }
    ensures full { IfErr result (IsFullIfReported seat.new) }
{
    let Ok(mut turns) = Vec::with_capacity(alloc, devices.len()) else {
        return Err(DeskFault::NoMemory);
    };
    for device in devices {
        let turn = forward(rt, alloc, desk, seat, device, sender)?;
        turns.push_reserved(turn);
    }
    Ok(turns)
}

/// Makes one Round. Returns whether it found work.
fn round_once<T: Handlers, R: Wait>(
    rt: &R,
    desk: &Desk<T, &R>,
    seat: &mut Seat<T>,
) -> Result<bool, DeskFault>
    requires { seat.old.desk ≡ desk.now }
    ensures same { SameSeat seat.old seat.new }
    ensures ok { IfOk result (λ worked. (reply : Reply) × (seat.new.calls ≡ seat.old.calls ++ round reply ∷ []) × (IsTrue worked ↔ (0 < count_worked reply))) }
    ensures err { OnErr result (seat.new.calls ≡ seat.old.calls) }
    ensures full { IfErr result (IsFullIfReported seat.new) }
{
    Ok(desk.round(rt, seat)? > 0)
}

/// Makes Rounds until one finds no work, or the maximum number of a sweep. Returns how many found
/// work, and whether there may be more.
fn round_on<T: Handlers, R: Wait>(
    rt: &R,
    desk: &Desk<T, &R>,
    seat: &mut Seat<T>,
) -> Result<(u64, bool), DeskFault>
    requires { seat.old.desk ≡ desk.now }
    ensures same { SameSeat seat.old seat.new }
    ensures ok { IfOk result (λ r. RoundsUntil seat.old.calls seat.new.calls r.0 r.1) }
    ensures err { OnErr result ((count : ℕ) × Rounds seat.old.calls seat.new.calls count) }
    ensures full { IfErr result (IsFullIfReported seat.new) }
{
    for count in 0..MAX_ROUNDS {
        match round_once(rt, desk, seat) {
            Ok(true) => {}
            Ok(false) => return Ok((count, false)),
            Err(fault) => return Err(fault),
        }
    }
    Ok((MAX_ROUNDS, true))
}

/// Makes one sweep: one turn of each device, in order, and then at most 16 Rounds. The Rounds go on
/// while they find work.
///
/// If a call fails, or there is no memory to list the turns, the sweep stops early, and no packet
/// is lost by that.
pub fn sweep<T: Handlers, S: Outbound, R: Wait>(
    rt: &R,
    alloc: Global,
    desk: &Desk<T, &R>,
    seat: &mut Seat<T>,
    devices: &[Device],
    sender: &mut S,
) -> Result<SweepResult, DeskFault>
    requires { seat.old.desk ≡ desk.now }
    ensures same { SameSeat seat.old seat.new }
    ensures ok { IfOk result (λ s. IsSweep (names_of devices.now) seat.old.feeds seat.old.calls seat.new.calls (S.attempts sender.old) (S.attempts sender.new) s.turns.items s.rounds s.more) }
    ensures forwards { Forwards (names_of devices.now) seat.old.calls seat.new.calls (S.attempts sender.old) (S.attempts sender.new) }
    ensures full { IfErr result (IsFullIfReported seat.new) }
{
    let turns = forward_each(rt, alloc, desk, seat, devices, sender)?;
    let (rounds, more) = round_on(rt, desk, seat)?;
    Ok(SweepResult {
        turns,
        rounds,
        more,
    })
}
