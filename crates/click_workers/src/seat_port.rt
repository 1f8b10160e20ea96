//! A seat of a desk as the port of a session.

ghost use Rattle.std.specs.Prelude.{◌≡◌, MatchResult};

use click_control::{AskFault, Port};
use click_desk::{Desk, DeskFault, Seat};
use click_router::{Call, Handlers, StoredReply};
use std::alloc::Global;
use std::marker::Model;
use std::sync::Wait;

/// A seat, together with the desk that it belongs to. Its value in contracts is the seat.
pub struct SeatPort<'a, T, R, B: Wait + Drop> {
    rt: &'a R,
    desk: &'a Desk<T, B>,
    seat: Seat<T>,
}

impl<'a, T, R, B: Wait + Drop> Model for SeatPort<'a, T, R, B> {
    ghost use Rattle.click_desk.specs.SeatStates.{SeatState};

    ghost Value = { SeatState };

    ghost use Rattle.std.specs.Prelude.{◌≡◌};

    ghost view = { λ p. p.seat };

    ghost invariant = { λ p. p.seat.desk ≡ p.desk.now };
}

impl<'a, T, R, B: Wait + Drop> SeatPort<'a, T, R, B> {
    pub fn new(rt: &'a R, desk: &'a Desk<T, B>, seat: Seat<T>) -> SeatPort<'a, T, R, B>
        requires { seat.desk ≡ desk.now }
        ensures { result ≡ seat }
    {
        SeatPort { rt, desk, seat }
    }

    /// Returns the seat.
    pub fn into_seat(self) -> Seat<T>
        ensures { result ≡ self.entry }
    {
        let SeatPort {
            rt: _,
            desk: _,
            seat,
        } = self;
        seat
    }
}

impl<'a, T: Handlers, R: Wait, B: Wait + Drop> Port for SeatPort<'a, T, R, B> {
    ghost use Rattle.click_workers.specs.Seats.{SeatAsks};

    ghost asks = { SeatAsks };

    fn ask_stored(&mut self, _alloc: Global, call: Call) -> Result<StoredReply, AskFault> {
        match self.desk.call_stored(self.rt, &mut self.seat, call) {
            Ok(reply) => Ok(reply),
            Err(DeskFault::NoMemory) => Err(AskFault::NoMemory),
            Err(DeskFault::HistoryFull) => Err(AskFault::HistoryFull),
        }
    }
}
