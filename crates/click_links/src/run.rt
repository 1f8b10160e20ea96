//! Runs of links: a receiver for each link and one forwarder for all of them, each in a thread of
//! its own.

ghost use Rattle.std.specs.Prelude.{◌≡◌, ◌≤◌, length, map, vec_len, vec_capacity, Some};
ghost use Rattle.std.specs.List.{AllZip};
ghost use Rattle.std.specs.Thread.{IsSend, IsSync};
ghost use Rattle.click_links.specs.Fates.{Receives};
ghost use Rattle.click_links.specs.Turns.{SameSeat, names_of};
ghost use Rattle.click_links.specs.Forwarding.{Forwards};

use crate::counts::Counts;
use crate::device::Device;
use crate::dropped::Dropped;
use crate::forwarder::{Forwarder, RunStart};
use crate::forwarder_thread::run_forwarder;
use crate::link::{Inbound, Outbound};
use crate::receiver::{Ended, ReceiverReport, receive_with};
use crate::recorded_feed::RecordedFeed;
use crate::sharing::{InlineForwarder, Shared, Sweeper};
use click_base::sequence::Sequence;
use click_desk::{Desk, DeskFault, Seat};
use click_router::Handlers;
use std::alloc::Global;
use std::marker::Brand;
use std::sync::Wait;
use std::sync::atomic::AtomicBool;
use std::thread;
use std::thread::Threads;

/// A receiver. It has its device, the device's feed, the receiving end of the link, and its outcome
/// if it has run.
#[derive(Drop)]
pub struct Receiver<L> {
    pub device: Sequence<u8>,
    pub intake: RecordedFeed,
    pub link: L,
    pub received: ReceiverReport,
}

impl<L> Receiver<L> {
    /// Returns a receiver that has not run.
    pub fn new(device: Sequence<u8>, intake: RecordedFeed, link: L) -> Receiver<L>
        ensures { (result.device ≡ device) × (result.intake ≡ intake) × (result.link ≡ link) }
    {
        let received = ReceiverReport {
            dropped: Dropped::none(),
            ended: Ended::Stopped,
        };
        Receiver {
            device,
            intake,
            link,
            received,
        }
    }
}

/// The links of a run. They are its devices, their receivers in the same order, and the end that
/// sends the packets of all of them.
#[derive(Drop)]
pub struct LinkSet<'a, L, S> {
    pub devices: &'a [Device],
    pub receivers: Vec<Receiver<L>>,
    pub sender: S,
}

/// The outcome of a run of links.
#[derive(Drop)]
pub struct LinksOutcome<T, L, S> {
    /// The receivers, in the order in which they were given.
    pub links: Vec<Receiver<L>>,
    pub seat: Seat<T>,
    pub sender: S,
    /// The fault for which the forwarder ended before all was sent, if it did.
    pub fault: Option<DeskFault>,
}

/// Runs a receiver until a stop is requested or the link fails.
fn run_receiver<T: Handlers, L: Inbound, S: Outbound, R: Wait, B: RunStart>(
    sweeper: &Sweeper<'_, '_, T, S, R, B>,
    receiver: Receiver<L>,
    stop: &AtomicBool,
    counts: &Counts,
) -> Receiver<L>
    ensures { (result.device ≡ receiver.device) × Receives (L.received receiver.link) (L.received result.link) receiver.intake result.intake result.received.dropped }
{
    let Receiver {
        device,
        mut intake,
        mut link,
        received: _,
    } = receiver;
    let mut helper = InlineForwarder::new(sweeper);
    let received = receive_with(
        sweeper.alloc,
        &mut intake,
        &mut link,
        stop,
        counts,
        |put, link: &L| helper.after_datagram(put, link),
    );
    Receiver {
        device,
        intake,
        link,
        received,
    }
}

/// Runs the receiver of each link. All run in parallel, each in a thread of its own if the system
/// can create one.
fn run_receivers<
    T: Handlers + Send + Drop,
    L: Inbound + Send + Drop,
    S: Outbound + Send + Drop,
    R: Threads + Wait + Sync,
    B: RunStart + Send + Sync,
>(
    sweeper: &Sweeper<'_, '_, T, S, R, B>,
    mut links: Vec<Receiver<L>>,
    stop: &AtomicBool,
) -> Vec<Receiver<L>>
    requires { vec_len links ≤ length sweeper.now.devices.now }
    ensures receives { AllZip (λ old new. (new.device ≡ old.device) × Receives (L.received old.link) (L.received new.link) old.intake new.intake new.received.dropped) links.items result.items }
    ensures room { vec_capacity links ≤ vec_capacity result }
{
    let Some(last) = links.pop() else {
        return links;
    };
    let counts = &sweeper.devices[links.len()].counts;
    let (heard, mut all) = thread::join(
        sweeper.rt,
        move || -> Receiver<L>
            ensures { (result.device ≡ last.device) × Receives (L.received last.link) (L.received result.link) last.intake result.intake result.received.dropped }
        { run_receiver(sweeper, last, stop, counts) },
        move || -> Vec<Receiver<L>>
            requires { IsSync R.row × IsSend T.row × IsSend L.row × IsSend S.row × IsSend B.row × (vec_len links ≤ length sweeper.now.devices.now) }
            ensures { AllZip (λ old new. (new.device ≡ old.device) × Receives (L.received old.link) (L.received new.link) old.intake new.intake new.received.dropped) links.items result.items
                × (vec_capacity links ≤ vec_capacity result) }
        { run_receivers(sweeper, links, stop) },
    );
    all.push_reserved(heard);
    all
}

/// Runs the receivers in parallel with the forwarder. Returns the fault for which the forwarder
/// ended before all was sent, if it did.
fn run_beside<
    T: Handlers + Send + Drop,
    L: Inbound + Send + Drop,
    S: Outbound + Send + Drop,
    R: Threads + Wait + Sync,
    B: RunStart + Send + Sync,
>(
    sweeper: &Sweeper<'_, '_, T, S, R, B>,
    links: Vec<Receiver<L>>,
    stop: &AtomicBool,
) -> (Vec<Receiver<L>>, Option<DeskFault>)
    requires { vec_len links ≤ length sweeper.now.devices.now }
    ensures { AllZip (λ old new. (new.device ≡ old.device) × Receives (L.received old.link) (L.received new.link) old.intake new.intake new.received.dropped) links.items result.0.items }
{
    thread::join(
        sweeper.rt,
        move || -> Vec<Receiver<L>>
            requires { IsSync R.row × IsSend T.row × IsSend L.row × IsSend S.row × IsSend B.row × (vec_len links ≤ length sweeper.now.devices.now) }
            ensures { AllZip (λ old new. (new.device ≡ old.device) × Receives (L.received old.link) (L.received new.link) old.intake new.intake new.received.dropped) links.items result.items }
        {
            let links = run_receivers(sweeper, links, stop);
            sweeper.shared.end();
            links
        },
        move || -> Option<DeskFault> { run_forwarder(sweeper, stop) },
    )
}

/// Runs links as `run_links` does. The type `B` stands for what the run began with.
///
/// proof: as a type it is a constant, which the invariant of `Forwarder` can mention while threads
/// share it.
fn run_as<
    T: Handlers + Send + Drop,
    L: Inbound + Send + Drop,
    S: Outbound + Send + Drop,
    R: Threads + Wait + Sync,
    B: RunStart + Send + Sync,
>(
    rt: &R,
    alloc: Global,
    desk: &Desk<T, &R>,
    seat: Seat<T>,
    link_set: LinkSet<L, S>,
    stop: &AtomicBool,
) -> LinksOutcome<T, L, S>
    requires devices { vec_len link_set.receivers ≤ length link_set.devices.now }
    requires at { (Some desk.now ≡ B.desk) × (names_of link_set.devices.now ≡ B.names) }
    requires same { (Some seat.desk ≡ B.desk) × (seat.number ≡ B.number) × (seat.feeds ≡ B.feeds) }
    requires new { (seat.calls ≡ B.calls) × (S.attempts link_set.sender ≡ B.attempts) }
    ensures receives { AllZip (λ old new. (new.device ≡ old.device) × Receives (L.received old.link) (L.received new.link) old.intake new.intake new.received.dropped) link_set.entry.receivers.items result.links.items }
    ensures same { (result.seat.desk ≡ desk.now) × (result.seat.number ≡ B.number) × (result.seat.feeds ≡ B.feeds) }
    ensures forwards { Forwards B.names B.calls result.seat.calls B.attempts (S.attempts result.sender) }
{
    let LinkSet {
        devices,
        receivers,
        sender,
    } = link_set;
    let shared: Shared<T, S, B> = Shared::new(Forwarder::new(seat, sender));
    let sweeper = Sweeper {
        rt,
        alloc,
        desk,
        devices,
        shared: &shared,
    };
    let (links, fault) = run_beside(&sweeper, receivers, stop);
    let (seat, sender) = shared.into_forwarder().into_parts();
    LinksOutcome {
        links,
        seat,
        sender,
        fault,
    }
}

/// Runs links at a desk: a receiver for each link, and one forwarder for all devices, over one
/// seat. A receiver puts what comes over its link into its feed.
///
/// Each runs in a thread of its own if the system can create one. The receiver at an index uses the
/// counts of the device at that index. A receiver ends when `stop` is set or its link fails.
///
/// The forwarder ends when `stop` is set, all receivers have ended, and a sweep found no work or
/// failed with out of memory. After 256 more sweeps it ends anyway. If the history is full it ends
/// and sets `stop`. Out of memory ends neither before. The contract holds for any feeds of the desk
/// and of the seat.
pub fn run_links<
    T: Handlers + Send + Drop,
    L: Inbound + Send + Drop,
    S: Outbound + Send + Drop,
    R: Threads + Wait + Sync,
>(
    rt: &R,
    alloc: Global,
    desk: &Desk<T, &R>,
    seat: Seat<T>,
    link_set: LinkSet<L, S>,
    stop: &AtomicBool,
) -> LinksOutcome<T, L, S>
    requires desk { seat.desk ≡ desk.now }
    requires devices { vec_len link_set.receivers ≤ length link_set.devices.now }
    ensures receives { AllZip (λ old new. (new.device ≡ old.device) × Receives (L.received old.link) (L.received new.link) old.intake new.intake new.received.dropped) link_set.entry.receivers.items result.links.items }
    ensures same { SameSeat seat result.seat }
    ensures forwards { Forwards (names_of link_set.entry.devices.now) seat.calls result.seat.calls (S.attempts link_set.entry.sender) (S.attempts result.sender) }
{
    run_as::<_, _, _, _, Brand>(rt, alloc, desk, seat, link_set, stop)
}
