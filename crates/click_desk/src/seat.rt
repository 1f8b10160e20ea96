//! Seats of a desk.

ghost use Rattle.std.specs.Prelude.{◌≡◌, [], true, false, is_some};
ghost use Rattle.click_desk.specs.SeatStates.{IsSeat};
ghost use Rattle.click_desk.specs.History.{installs};

use crate::rule::DeskPass;
use crate::trail::Trail;
use crate::watch::Notice;
use click_router::{Call, StoredReply};
use std::marker::Model;

/// The capability to make calls at a desk, from any thread.
#[derive(Drop)]
pub struct Seat<T> {
    pub(crate) pass: DeskPass<T>,
    pub(crate) number: usize,
    pub(crate) calls: Trail<(Call, StoredReply)>,
    pub(crate) notice: Notice,
}

impl<T> Model for Seat<T> {
    ghost use Rattle.click_desk.specs.SeatStates.{SeatState};

    ghost Value = { SeatState };

    ghost use Rattle.std.specs.Prelude.{◌≡◌, [], is_some};
    ghost use Rattle.crossbeam_queue.specs.Passes.{view as known};
    ghost use Rattle.click_desk.specs.DeskSetups.{terms_of};
    ghost use Rattle.click_desk.specs.Views.{seated};
    ghost use Rattle.click_desk.specs.SeatStates.{IsSeat};
    ghost use Rattle.click_desk.specs.History.{installs};

    ghost view = { λ s. record { desk = record { table = s.pass.table_id; options = terms_of (known s.pass).options }; feeds = (known s.pass).options.feeds; number = s.number; calls = s.calls.items; seen = (known s.pass).seen } };

    ghost invariant = { λ s. (s.pass.me.1 ≡ []) × (known s.pass ≡ seated (known s.pass).options s.number s.calls.items (known s.pass).seen) × IsSeat (record { desk = record { table = s.pass.table_id; options = terms_of (known s.pass).options }; feeds = (known s.pass).options.feeds; number = s.number; calls = s.calls.items; seen = (known s.pass).seen })
        × (s.notice ≡ record { board = (known s.pass).options.origin; list = installs (known s.pass).options.opening (known s.pass).seen })
        × (s.calls.keeps ≡ is_some (known s.pass).options.room) };
}

impl<T> Seat<T> {
    /// Returns the number of the seat at its desk.
    pub fn number(&self) -> usize
        ensures number { result ≡ self.now.number }
        ensures sound { IsSeat self.now }
    {
        self.number
    }

    /// Returns the notice of the seat's latest call, or of the opening of the desk if it has made
    /// no call.
    ///
    /// It covers the configurations that were installed so far. A view that learns it shows the
    /// last of them or a later one. Never allocates.
    pub fn notice(&self) -> &Notice
        ensures told { result.now ≡ record { board = self.now.desk.options.origin; list = installs self.now.desk.options.opening self.now.seen } }
        ensures sound { IsSeat self.now }
    {
        &self.notice
    }

    /// Returns the seat's calls, each with its reply, if the desk keeps a book. Otherwise returns
    /// none.
    pub fn calls(&self) -> &[(Call, StoredReply)]
        ensures calls { is_some self.now.desk.options.room ≡ true → result.now ≡ self.now.calls }
        ensures none { is_some self.now.desk.options.room ≡ false → result.now ≡ [] }
        ensures sound { IsSeat self.now }
    {
        self.calls.as_slice()
    }
}
