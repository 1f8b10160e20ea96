//! A live router with links.

ghost use Rattle.std.specs.Prelude.{◌≡◌, ◌<◌, ◌≤◌, ◌+◌, ◌++◌, ◌∷◌, List, ℕ, [], true, None, IfOk, IfErr, length, map, option_map, vec_len, vec_capacity};
ghost use Rattle.std.specs.List.{All, AllZip};
ghost use Rattle.std.specs.Thread.{IsSend, IsSync};
ghost use Rattle.click_rings.specs.Feeds.{RingName, have_distinct_devices, name_of};
ghost use Rattle.click_links.specs.Fates.{Receives};
ghost use Rattle.click_links.specs.Forwarding.{Forwards, sent_by, gifts_by};
ghost use Rattle.click_links.specs.Turns.{names_of};
ghost use Rattle.click_workers.specs.Beside.{BesideWork};
ghost use Rattle.click_workers.specs.Linked.{calls_in, AreQuietFrom, ForwardsBeside, HasRing, IsSettled, LinkedHeadline, LinkedWork, LinkRan, IsTrueOpening};
ghost use Rattle.click_workers.specs.Runs.{HeadlineWith, IsOpenedFor};
ghost use Rattle.click_workers.specs.Seats.{IsOf, SameSeat};
ghost use Rattle.click_workers.specs.Work.{AttendedInTurn, DroveFor, Ready, SideBySide, StayOf, Worked, numbers_below};

use crate::clients::Clients;
use crate::companion::{Companion, NoCompanion};
use crate::door::Door;
use crate::gate::Gate;
use crate::opening::Opening;
use crate::run_seats::{OpenedRun, RunSeats, begin, finish, serve_with_companion};
use crate::runs::AllRan;
use crate::seat_group::SeatGroup;
use crate::service::Service;
use crate::session::SessionEnd;
use click_base::sequence::Sequence;
use click_desk::{Book, Desk, OpenFault, Seat};
use click_links::{
    Device, Inbound, LinkSet, Links, LinksOutcome, Outbound, Receiver, ReceiverReport, run_links,
};
use click_packet::StoredPacket;
use click_rings::Feed;
use click_router::Handlers;
use std::alloc::Global;
use std::sync::Wait;
use std::sync::atomic::{AtomicBool, Ordering};
use std::thread;
use std::thread::Threads;

/// The outcome of a link.
#[derive(Drop)]
pub struct LinkEnd<L> {
    pub device: Sequence<u8>,
    /// The receiving end of the link.
    pub link: L,
    pub received: ReceiverReport,
    /// The packets that came over the link and did not enter the router. `None` if there was no
    /// memory to list them.
    pub left: Option<Vec<StoredPacket>>,
}

/// The outcome of each session slot, each driver and each link, the sending end, and the book.
#[derive(Drop)]
pub struct LinkedRan<T, L, S> {
    pub ended: Vec<SessionEnd>,
    pub drivers: Vec<bool>,
    pub links: Vec<LinkEnd<L>>,
    pub sender: S,
    pub book: Book<T>,
}

/// The links of a run. They are its devices, their receiving ends in the same order, and the end
/// that sends the packets of all of them.
#[derive(Drop)]
pub struct LinkSetup<'a, L, S> {
    pub devices: &'a [Device],
    pub links: Links<L>,
    pub sender: S,
}

/// Runs the links in parallel with the session slots, the drivers and the additional work. Requests
/// the links to stop when all the others have ended.
///
/// The first seat of `run_seats.beside` is the forwarder's.
fn serve_linked<
    T: Handlers + Send + Drop,
    D: Door,
    G: Gate,
    L: Inbound + Send + Drop,
    S: Outbound + Send + Drop,
    B: Companion<T>,
    R: Threads + Wait + Sync,
>(
    rt: &R,
    alloc: Global,
    desk: &Desk<T, &R>,
    clients: Clients<D, G>,
    link_set: LinkSet<L, S>,
    beside: B,
    run_seats: RunSeats<T, (Seat<T>, B::Seats)>,
) -> (LinksOutcome<T, L, S>, (RunSeats<T, B::Seats>, B::Done))
    requires ready { Ready desk.now clients.places (vec_len run_seats.work.seats) run_seats.work.seats.items run_seats.work.ended.items run_seats.work.drivers.items (vec_capacity run_seats.work.ended) (vec_capacity run_seats.work.drivers) }
    requires turns { 0 < clients.turns }
    requires forwarder { run_seats.beside.0.desk ≡ desk.now }
    requires of { All (λ s. s.desk ≡ desk.now) (B.Seats.sittings run_seats.beside.1) }
    requires devices { vec_len link_set.receivers ≤ length link_set.devices.now }
    ensures desk { StayOf desk.now run_seats.work.seats.items result.1.0.work.seats.items }
    ensures worked { Worked (AttendedInTurn D.lets_in D.Reader.input D.Writer.output G.gives G.told clients.entry.door.now clients.entry.gate.now clients.entry.readonly clients.entry.turns)
        (DroveFor G.gives G.told clients.entry.gate.now None) clients.entry.places (vec_len run_seats.work.seats) result.1.0.work.seats.items result.1.0.work.ended.items result.1.0.work.drivers.items }
    ensures room { vec_capacity run_seats.work.seats ≤ vec_capacity result.1.0.work.seats }
    ensures beside { AllZip SameSeat (B.Seats.sittings run_seats.beside.1) (B.Seats.sittings result.1.0.beside) }
    ensures does { B.does beside run_seats.beside.1 result.1.0.beside result.1.1 }
    ensures receives { AllZip (λ old new. (new.device ≡ old.device) × Receives (L.received old.link) (L.received new.link) old.intake new.intake new.received.dropped) link_set.entry.receivers.items result.0.links.items }
    ensures same { SameSeat run_seats.beside.0 result.0.seat }
    ensures forwards { Forwards (names_of link_set.entry.devices.now) run_seats.beside.0.calls result.0.seat.calls (S.attempts link_set.entry.sender) (S.attempts result.0.sender) }
{
    let stop = &AtomicBool::new(false);
    let service = &Service::of(alloc, &clients, None);
    let Clients { door, gate, .. } = clients;
    let LinkSet {
        devices,
        receivers,
        sender,
    } = link_set;
    let RunSeats {
        work,
        beside: (forwarder, seats),
    } = run_seats;
    let run_seats = RunSeats {
        work,
        beside: seats,
    };
    thread::join(
        rt,
        move || -> LinksOutcome<T, L, S>
            requires { IsSync R.row × IsSend L.row × IsSend S.row × IsSend T.row × (forwarder.desk ≡ desk.now) × (vec_len receivers ≤ length devices.now) }
            ensures { AllZip (λ old new. (new.device ≡ old.device) × Receives (L.received old.link) (L.received new.link) old.intake new.intake new.received.dropped) receivers.items result.links.items
                × SameSeat forwarder result.seat
                × Forwards (names_of devices.entry.now) forwarder.calls result.seat.calls (S.attempts sender) (S.attempts result.sender) }
        {
            let link_set = LinkSet {
                devices,
                receivers,
                sender,
            };
            run_links(rt, alloc, desk, forwarder, link_set, stop)
        },
        move || -> (RunSeats<T, B::Seats>, B::Done)
            requires { IsSync R.row × IsSync D.row × IsSync G.row × IsSend T.row × IsSend B.row × Ready desk.now service.now.sessions (vec_len run_seats.work.seats) run_seats.work.seats.items run_seats.work.ended.items run_seats.work.drivers.items
                (vec_capacity run_seats.work.ended) (vec_capacity run_seats.work.drivers) × (0 < service.now.turns) × All (λ s. s.desk ≡ desk.now) (B.Seats.sittings run_seats.beside) }
            ensures { StayOf desk.entry.now run_seats.work.seats.items result.0.work.seats.items
                × Worked (AttendedInTurn D.lets_in D.Reader.input D.Writer.output G.gives G.told door.entry.now gate.entry.now service.entry.now.readonly service.entry.now.turns)
                (DroveFor G.gives G.told gate.entry.now service.entry.now.rounds) service.entry.now.sessions (vec_len run_seats.work.seats) result.0.work.seats.items result.0.work.ended.items result.0.work.drivers.items
                × (vec_capacity run_seats.work.seats ≤ vec_capacity result.0.work.seats)
                × AllZip SameSeat (B.Seats.sittings run_seats.beside) (B.Seats.sittings result.0.beside) × B.does beside run_seats.beside result.0.beside result.1 }
        {
            let served = serve_with_companion(rt, desk, door, gate, service, beside, run_seats);
            stop.store(true, Ordering::SeqCst);
            served
        },
    )
}

/// Settles the feed of a device. Returns the packets that did not enter the router, or `None` if
/// there is no memory to list them.
fn left_of<T>(
    alloc: Global,
    book: &mut Book<T>,
    device: &[u8],
    feed: Feed,
) -> Option<Vec<StoredPacket>>
    requires { HasRing book.old.consumers device.now feed.ring }
    ensures book { book.new ≡ record book.old { consumers = book.new.consumers } }
    ensures others { (other : List ℕ) (ring : RingName) → (other ≡ device.now → ⊥) → HasRing book.old.consumers other ring → HasRing book.new.consumers other ring }
    ensures none { book.old.consumers ≡ [] → book.new.consumers ≡ [] }
    ensures left { IsSettled book.old.entries device.now feed.put (option_map (λ l. l.items) result) }
{
    let Some(end) = feed.finish() else {
        unreachable!()
    };
    match book.settle(alloc, device, end) {
        Ok(left) => Some(left),
        Err(_) => None,
    }
}

/// Settles the feed of a link.
fn settle_one<T, L>(alloc: Global, book: &mut Book<T>, receiver: Receiver<L>) -> LinkEnd<L>
    requires { HasRing book.old.consumers receiver.device receiver.intake.feed.ring }
    ensures book { book.new ≡ record book.old { consumers = book.new.consumers } }
    ensures others { (other : List ℕ) (ring : RingName) → (other ≡ receiver.device → ⊥) → HasRing book.old.consumers other ring → HasRing book.new.consumers other ring }
    ensures none { book.old.consumers ≡ [] → book.new.consumers ≡ [] }
    ensures same { (result.device ≡ receiver.device) × (result.link ≡ receiver.link) × (result.received ≡ receiver.received) }
    ensures left { IsSettled book.old.entries receiver.device receiver.intake.feed.put (option_map (λ l. l.items) result.left) }
{
    let Receiver {
        device,
        intake,
        link,
        received,
    } = receiver;
    let left = left_of(alloc, book, device.as_slice(), intake.into_feed());
    LinkEnd {
        device,
        link,
        received,
        left,
    }
}

/// Settles the feed of each link.
fn settle_all<T, L: Drop>(
    alloc: Global,
    book: &mut Book<T>,
    receivers: Vec<Receiver<L>>,
    ends: &mut Vec<LinkEnd<L>>,
)
    requires feeds { All (λ r. HasRing book.old.consumers r.device r.intake.feed.ring) receivers.items }
    requires apart { have_distinct_devices (map (λ r. record { device = r.device; ring = r.intake.feed.ring }) receivers.items) ≡ true }
    requires room { (ends.old.items ≡ []) × (length receivers.items ≤ vec_capacity ends.old) }
    ensures book { book.new ≡ record book.old { consumers = book.new.consumers } }
    ensures none { book.old.consumers ≡ [] → book.new.consumers ≡ [] }
    ensures ends { SideBySide (λ r e. (e.device ≡ r.device) × (e.link ≡ r.link) × (e.received ≡ r.received) × IsSettled book.old.entries r.device r.intake.feed.put (option_map (λ l. l.items) e.left)) receivers.items ends.new.items }
{
    for receiver in receivers {
        ends.push_reserved(settle_one(alloc, book, receiver));
    }
}

/// Settles the feeds of the links in the book of a run.
fn settle<T: Drop, L: Drop, S>(
    alloc: Global,
    all: AllRan<T>,
    receivers: Vec<Receiver<L>>,
    sender: S,
    mut links: Vec<LinkEnd<L>>,
) -> LinkedRan<T, L, S>
    requires feeds { map name_of all.book.consumers ≡ map (λ r. record { device = r.device; ring = r.intake.feed.ring }) receivers.items }
    requires apart { have_distinct_devices (map (λ r. record { device = r.device; ring = r.intake.feed.ring }) receivers.items) ≡ true }
    requires ends { (links.items ≡ []) × (length receivers.items ≤ vec_capacity links) }
    ensures book { result.book ≡ record all.book { consumers = result.book.consumers } }
    ensures none { all.book.consumers ≡ [] → result.book.consumers ≡ [] }
    ensures links { SideBySide (λ r e. (e.device ≡ r.device) × (e.link ≡ r.link) × (e.received ≡ r.received) × IsSettled all.book.entries r.device r.intake.feed.put (option_map (λ l. l.items) e.left)) receivers.items result.links.items }
    ensures rest { (result.ended.items ≡ all.ended.items) × (result.drivers.items ≡ all.drivers.items) × (result.sender ≡ sender) }
{
    let AllRan {
        ended,
        drivers,
        mut book,
        checked: _,
    } = all;
    settle_all(alloc, &mut book, receivers, &mut links);
    LinkedRan {
        ended,
        drivers,
        links,
        sender,
        book,
    }
}

/// Closes the desk with all its seats, and settles the feeds of the links.
fn close_and_settle<T: Send + Drop, L: Drop, S, H: SeatGroup<T>, R: Wait>(
    rt: &R,
    alloc: Global,
    desk: Desk<T, &R>,
    run_seats: RunSeats<T, H>,
    linked: LinksOutcome<T, L, S>,
    links: Vec<LinkEnd<L>>,
) -> LinkedRan<T, L, S>
    requires of { All (IsOf desk (map (λ r. record { device = r.device; ring = r.intake.feed.ring }) linked.links.items)) (run_seats.work.seats.items ++ linked.seat ∷ H.sittings run_seats.beside) }
    requires numbers { map (λ s. s.number) (run_seats.work.seats.items ++ linked.seat ∷ H.sittings run_seats.beside) ≡ numbers_below desk.options.seats }
    requires apart { have_distinct_devices (map (λ r. record { device = r.device; ring = r.intake.feed.ring }) linked.links.items) ≡ true }
    requires some { 0 < vec_len run_seats.work.seats }
    requires room { vec_len run_seats.work.seats + length (H.sittings run_seats.beside) < vec_capacity run_seats.work.seats }
    requires ends { (links.items ≡ []) × (length linked.links.items ≤ vec_capacity links) }
    ensures headline { (text : List ℕ) (n : ℕ) → IsOpenedFor None text n desk.entry → HeadlineWith (map (λ r. record { device = r.device; ring = r.intake.feed.ring }) linked.links.items) None text n result.book }
    ensures seats { result.book.seats ≡ run_seats.work.seats.items ++ linked.seat ∷ H.sittings run_seats.beside }
    ensures links { SideBySide (λ r e. (e.device ≡ r.device) × (e.link ≡ r.link) × (e.received ≡ r.received) × IsSettled result.book.entries r.device r.intake.feed.put (option_map (λ l. l.items) e.left)) linked.links.items result.links.items }
    ensures rest { (result.ended.items ≡ run_seats.work.ended.items) × (result.drivers.items ≡ run_seats.work.drivers.items) × (result.sender ≡ linked.sender) }
{
    let RunSeats { work, beside } = run_seats;
    let LinksOutcome {
        links: receivers,
        seat,
        sender,
        fault: _,
    } = linked;
    let run_seats = RunSeats {
        work,
        beside: (seat, beside),
    };
    let all = finish(rt, desk, run_seats, None);
    settle(alloc, all, receivers, sender, links)
}

/// Runs a live router with links and additional work. The contract is that of `run_linked`, for
/// more seats.
///
/// The forwarder has the seat that follows those of the slots and drivers. The additional work has
/// the seats after it. The links are requested to stop once every slot has served its sessions and
/// the additional work has ended.
///
/// Over the link of a device, exactly the packets in the replies to its Transmits in the history
/// are sent, if the additional work makes no Transmit.
///
/// If no thread can be created, the links begin when they are already requested to stop.
pub fn run_linked_with_companion<
    T: Handlers + Send + Drop,
    D: Door,
    G: Gate,
    L: Inbound + Send + Drop,
    S: Outbound + Send + Drop,
    B: Companion<T>,
    R: Threads + Wait + Sync,
>(
    rt: &R,
    alloc: Global,
    table: T,
    text: &[u8],
    clients: Clients<D, G>,
    linking: LinkSetup<L, S>,
    beside: B,
) -> Result<(LinkedRan<T, L, S>, B::Done), OpenFault>
    requires many { (0 < clients.places + clients.workers) × (clients.places + clients.workers + (1 + B.Seats.many) ≤ 256) }
    requires turns { 0 < clients.turns }
    requires devices { names_of linking.devices.now ≡ map (λ r. r.device) linking.links.receivers.items }
    ensures headline { IfOk result (λ ran. LinkedHeadline (names_of linking.entry.devices.now) text.now (clients.entry.places + clients.entry.workers + (1 + B.Seats.many)) ran.0.book) }
    ensures work { IfOk result (λ ran. BesideWork (λ s. s.0 ∷ B.Seats.sittings s.1) (1 + B.Seats.many)
        (ForwardsBeside (names_of linking.entry.devices.now) (S.attempts linking.entry.sender) (S.attempts ran.0.sender) (B.does beside))
        (AttendedInTurn D.lets_in D.Reader.input D.Writer.output G.gives G.told clients.entry.door.now clients.entry.gate.now clients.entry.readonly clients.entry.turns)
        (DroveFor G.gives G.told clients.entry.gate.now None) clients.entry.places clients.entry.workers ran.0.book.seats ran.0.ended.items ran.0.drivers.items ran.1) }
    ensures sent { IfOk result (λ ran. AreQuietFrom (clients.entry.places + clients.entry.workers + 1) ran.0.book.seats → (device : List ℕ)
        → sent_by device (S.attempts ran.0.sender) ≡ sent_by device (S.attempts linking.entry.sender) ++ gifts_by device (calls_in ran.0.book.entries)) }
    ensures links { IfOk result (λ ran. SideBySide (λ r e. (e.device ≡ r.device) × LinkRan ran.0.book.entries r.device (L.received r.link) (L.received e.link) e.received.dropped (option_map (λ l. l.items) e.left))
        linking.entry.links.receivers.items ran.0.links.items) }
    ensures config { IfErr result (IsTrueOpening (clients.entry.places + clients.entry.workers + (1 + B.Seats.many)) (names_of linking.entry.devices.now) text.now) }
{
    let LinkSetup {
        devices,
        links,
        sender,
    } = linking;
    let Links { receivers, inlets } = links;
    let Ok(ends) = Vec::with_capacity(alloc, receivers.len()) else {
        return Err(OpenFault::NoMemory);
    };
    let opening = Opening {
        text,
        room: None,
        check: None,
    };
    let OpenedRun {
        desk,
        run_seats,
        asked: _,
    } = match begin(
        rt,
        alloc,
        table,
        opening,
        clients.places,
        clients.workers,
        inlets,
    ) {
        Ok(begun) => begun,
        Err(fault) => return Err(fault),
    };
    let link_set = LinkSet {
        devices,
        receivers,
        sender,
    };
    let (linked, (run_seats, done)) = serve_linked(
        rt, alloc, &desk, clients, link_set, beside, run_seats,
    );
    let ran = close_and_settle(rt, alloc, desk, run_seats, linked, ends);
    Ok((ran, done))
}

/// Runs a live router, as `run_live` does, with links. A datagram that arrives over a link becomes
/// a packet of its device, and a packet that the device transmits leaves over the link.
///
/// One forwarder, which has the last seat, moves the packets of all links and makes Rounds while
/// they find work. Once every slot has served its sessions, the links end, the desk is closed, and
/// the feeds of the links are settled.
///
/// The headline is that of `run_live`. The packets that came over a link and were not dropped are
/// those that the history polled of the device, followed by the rest. This holds also if there is
/// no memory to list the rest. Over the link of a device, exactly the packets in the replies to its
/// Transmits in the history were sent, in order. Only the forwarder makes Transmits.
pub fn run_linked<
    T: Handlers + Send + Drop,
    D: Door,
    G: Gate,
    L: Inbound + Send + Drop,
    S: Outbound + Send + Drop,
    R: Threads + Wait + Sync,
>(
    rt: &R,
    alloc: Global,
    table: T,
    text: &[u8],
    clients: Clients<D, G>,
    linking: LinkSetup<L, S>,
) -> Result<LinkedRan<T, L, S>, OpenFault>
    requires many { (0 < clients.places + clients.workers) × (clients.places + clients.workers < 256) }
    requires turns { 0 < clients.turns }
    requires devices { names_of linking.devices.now ≡ map (λ r. r.device) linking.links.receivers.items }
    ensures headline { IfOk result (λ ran. LinkedHeadline (names_of linking.entry.devices.now) text.now (clients.entry.places + clients.entry.workers + 1) ran.book) }
    ensures worked { IfOk result (λ ran. LinkedWork (AttendedInTurn D.lets_in D.Reader.input D.Writer.output G.gives G.told clients.entry.door.now clients.entry.gate.now clients.entry.readonly clients.entry.turns)
        (DroveFor G.gives G.told clients.entry.gate.now None) clients.entry.places clients.entry.workers (names_of linking.entry.devices.now) (S.attempts linking.entry.sender) (S.attempts ran.sender) ran.book.seats ran.ended.items ran.drivers.items) }
    ensures sent { IfOk result (λ ran. (device : List ℕ) → sent_by device (S.attempts ran.sender) ≡ sent_by device (S.attempts linking.entry.sender) ++ gifts_by device (calls_in ran.book.entries)) }
    ensures links { IfOk result (λ ran. SideBySide (λ r e. (e.device ≡ r.device) × LinkRan ran.book.entries r.device (L.received r.link) (L.received e.link) e.received.dropped (option_map (λ l. l.items) e.left))
        linking.entry.links.receivers.items ran.links.items) }
    ensures config { IfErr result (IsTrueOpening (clients.entry.places + clients.entry.workers + 1) (names_of linking.entry.devices.now) text.now) }
{
    match run_linked_with_companion(rt, alloc, table, text, clients, linking, NoCompanion) {
        Ok((ran, ())) => Ok(ran),
        Err(fault) => Err(fault),
    }
}
