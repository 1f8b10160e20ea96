//! The forwarder: the seat and the sending end with which the threads of a run sweep.

ghost use Rattle.std.specs.Prelude.{◌≡◌, Some};
ghost use Rattle.click_links.specs.Forwarding.{Forwards};
ghost use Rattle.click_links.specs.kept.Forwarded.{HasForwarded};

use crate::link::Outbound;
use click_desk::Seat;
use std::marker::{Brand, PhantomData};

/// What a run began with, as ghost state of a type. It is the seat, the names of the devices, and
/// the packets that were sent before. Each run chooses it.
pub(crate) trait RunStart {
    ghost use Rattle.std.specs.Prelude.{ℕ, List, Option};
    ghost use Rattle.click_rings.specs.Feeds.{FeedName};
    ghost use Rattle.click_router.specs.declared.call.Call.{Call};
    ghost use Rattle.click_router.specs.declared.call.Reply.{Reply};
    ghost use Rattle.click_desk.specs.SeatStates.{DeskName};
    ghost use Rattle.click_links.specs.Ends.{Attempt};

    ghost desk: { Option DeskName };

    ghost number: { ℕ };

    ghost feeds: { List FeedName };

    ghost calls: { List (Call × Reply) };

    ghost names: { List (List ℕ) };

    ghost attempts: { List Attempt };
}

impl RunStart for Brand {
    ghost use Rattle.std.specs.Prelude.{[], None};

    ghost desk = { None };

    ghost number = { 0 };

    ghost feeds = { [] };

    ghost calls = { [] };

    ghost names = { [] };

    ghost attempts = { [] };
}

/// The seat of a run and the end that sends its packets, used by one thread at a time. By its
/// invariant, all that was done with them since the run began is what `Forwards` says.
#[derive(Drop)]
pub(crate) struct Forwarder<T, S: Outbound, B: RunStart> {
    pub(crate) seat: Seat<T>,
    pub(crate) sender: S,
    of: PhantomData<B>,
    pub(crate) ghost same: { (Some seat.desk ≡ B.desk) × (seat.number ≡ B.number) × (seat.feeds ≡ B.feeds) },
    pub(crate) ghost forwards: { HasForwarded B.names B.calls seat.calls B.attempts (S.attempts sender) },
}

impl<T, S: Outbound, B: RunStart> Forwarder<T, S, B> {
    /// Returns a forwarder with which nothing was done since the run began.
    #[tactic(auto, using(crate::proofs::ForwarderEquations::known_none))]
    pub(crate) fn new(seat: Seat<T>, sender: S) -> Forwarder<T, S, B>
        requires same { (Some seat.desk ≡ B.desk) × (seat.number ≡ B.number) × (seat.feeds ≡ B.feeds) }
        requires new { (seat.calls ≡ B.calls) × (S.attempts sender ≡ B.attempts) }
    {
        Forwarder {
            seat,
            sender,
            of: PhantomData,
        }
    }

    /// Returns the seat and the sending end.
    #[tactic(auto, using(crate::proofs::ForwarderEquations::forwards_of))]
    pub(crate) fn into_parts(self) -> (Seat<T>, S)
        ensures same { (Some result.0.desk ≡ B.desk) × (result.0.number ≡ B.number) × (result.0.feeds ≡ B.feeds) }
        ensures forwards { Forwards B.names B.calls result.0.calls B.attempts (S.attempts result.1) }
    {
        let Forwarder {
            seat,
            sender,
            of: _,
        } = self;
        (seat, sender)
    }
}
