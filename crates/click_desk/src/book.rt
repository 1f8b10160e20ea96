//! The book: what a closed desk leaves.

ghost use Rattle.std.specs.Prelude.{◌≡◌, ◌++◌, ◌↔◌, List, map, true, false, IfOk, IfErr, OnOk};
ghost use Rattle.std.specs.List.{All};
ghost use Rattle.click_packet.specs.Packet.{Packet};
ghost use Rattle.click_rings.specs.Feeds.{name_of, has_feed};
ghost use Rattle.click_views.specs.Showing.{BeginsWith};
ghost use Rattle.click_desk.specs.History.{installs};
ghost use Rattle.click_desk.specs.Polls.{polled, without};

use crate::entry::Entry;
use crate::seat::Seat;
use crate::trail::Trail;
use crate::watch::View;
use click_base::sequence::Sequence;
use click_packet::StoredPacket;
use click_rings::{FeedConsumer, FeedEnd, place_of};
use click_router::{Install, Router};
use click_views::ClosedPublisher;
use std::alloc::Global;
use std::marker::Model;
use thiserror::Error;

/// A closed desk.
///
/// It has the text that the desk was opened with, all calls with their replies, and the router that
/// they lead to. It also has the seats that made the calls, and the feeds that are not settled. For
/// a live desk the list of calls is ghost state, and `entries` has none at run time.
#[derive(Drop)]
pub struct Book<T> {
    pub opening: Sequence<u8>,
    pub entries: Trail<Entry>,
    pub router: Router<T>,
    pub seats: Vec<Seat<T>>,
    pub(crate) consumers: Vec<FeedConsumer>,
    pub(crate) published: ClosedPublisher<Install>,
}

impl<T> Model for Book<T> {
    ghost use Rattle.std.specs.Prelude.{◌≡◌, map, true};
    ghost use Rattle.click_rings.specs.Feeds.{name_of, have_distinct_devices};
    ghost use Rattle.click_desk.specs.BookState.{BookState};
    ghost use Rattle.click_desk.specs.Polls.{IsPolled};
    ghost use Rattle.click_desk.specs.History.{installs};

    ghost Value = { BookState };

    ghost view = { λ b. record { opening = b.opening; keeps = b.entries.keeps; entries = b.entries.items; router = b.router; seats = b.seats.items; consumers = b.consumers.items; board = b.published.board } };

    ghost invariant = { λ b. IsPolled b.entries.items b.consumers.items × (have_distinct_devices (map name_of b.consumers.items) ≡ true) × (b.published.list ≡ installs b.opening b.entries.items) };
}

/// The fault for which a feed was not settled.
#[derive(Clone, Copy, Debug, PartialEq, Eq, Error)]
pub enum SettleFault {
    /// The desk had no feed of the device, or the feed is already settled.
    #[error("no such feed")]
    NoFeed,
    #[error("out of memory")]
    NoMemory,
}

/// A feed that was not settled: the end that was handed in, and the fault.
#[derive(Drop)]
pub struct SettleRefused {
    pub end: FeedEnd,
    pub fault: SettleFault,
}

impl<T> Book<T> {
    /// States that what a view showed is a prefix of the installed configurations. The view must be
    /// of this desk. Never allocates, and does nothing else.
    pub fn meet(&self, view: &View)
        requires { view.now.board ≡ self.now.board }
        ensures { BeginsWith (installs self.now.opening self.now.entries) view.now.list }
    {
        self.published.meet(&view.shown);
    }

    /// Settles the feed of this device: returns the packets that were put into it and not polled.
    /// The end must be that of the desk's feed of this device.
    ///
    /// Fails with `NoFeed` if there is no such feed or it is already settled, and otherwise with
    /// out of memory; the book is then unchanged. What the history polled of the device is a prefix
    /// of what was put, also if this fails with out of memory.
    pub fn settle(
        &mut self,
        alloc: Global,
        device: &[u8],
        mut end: FeedEnd,
    ) -> Result<Vec<StoredPacket>, SettleRefused>
        requires { All (λ t. t.device ≡ device.now → t.ring ≡ end.ring) self.old.consumers }
        ensures left { IfOk result (λ left. end.put ≡ polled self.old.entries device.now ++ left.items) }
        ensures begins { has_feed device.now (map name_of self.old.consumers) ≡ true → (rest : List Packet) × (end.put ≡ polled self.old.entries device.now ++ rest) }
        ensures settled { OnOk result (self.new ≡ record self.old { consumers = without device.now self.old.consumers }) }
        ensures refused { IfErr result (λ r. (r.end ≡ end) × (self.new ≡ self.old)) }
        ensures unknown { IfErr result (λ r. (r.fault ≡ SettleFault.NoFeed) ↔ (has_feed device.now (map name_of self.old.consumers) ≡ false)) }
        ensures known { OnOk result (has_feed device.now (map name_of self.old.consumers) ≡ true) }
    {
        let Some(place) = place_of(self.consumers.as_slice(), device) else {
            return Err(SettleRefused {
                end,
                fault: SettleFault::NoFeed,
            });
        };
        let left = match self.consumers[place].drain(alloc, &mut end) {
            Ok(left) => left,
            Err(_) => {
                return Err(SettleRefused {
                    end,
                    fault: SettleFault::NoMemory,
                });
            }
        };
        let _settled = self.consumers.remove(place);
        Ok(left)
    }
}
