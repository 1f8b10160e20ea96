//! The logged router: the router with its history and its feeds, as one value.

ghost use Rattle.std.specs.Prelude.{◌≡◌, ◌++◌, ◌∷◌, ◌↔◌, [], length, map, false, IfOk, IfErr, OnErr, OnOk, Ok, Err, IsTrue, MatchResult, true, is_some};
ghost use Rattle.std.specs.List.{All};
ghost use Rattle.click_rings.specs.Feeds.{name_of, have_distinct_devices};
ghost use Rattle.click_router.specs.One.{is_transmit, sends_packet, holds_memory};
ghost use Rattle.click_router.specs.Polls.{is_poll};
ghost use Rattle.click_router.specs.Opened.{IsOpened};
ghost use Rattle.click_desk.specs.Bounds.{IsWithin, IsFull};
ghost use Rattle.click_desk.specs.DeskSetups.{setup_of};
ghost use Rattle.click_router.specs.One.{Answers};
ghost use Rattle.click_router.specs.Swap.{Swaps};
ghost use Rattle.click_router.specs.declared.call.Reply.{Reply};
ghost use Rattle.click_desk.specs.History.{entry, Legal, asked, installed, installs, text_if_done};
ghost use Rattle.click_desk.specs.Polls.{IsPolled};

use crate::entry::Entry;
use crate::options::DeskOptions;
use crate::trail::Trail;
use crate::watch::Notice;
use click_packet::PacketRoom;
use click_rings::FeedConsumer;
use click_router::{
    Call, CompactReply, Handlers, Install, Router, StepFault, StoredReply, prepare_swap,
};
use click_views::{ClosedPublisher, Publisher};
use std::alloc::{AllocError, Global};
use std::marker::Model;
use std::sync::Wait;
use thiserror::Error;

/// The fault of a call that failed. The call changed nothing, and is in no list.
#[derive(Clone, Copy, Debug, PartialEq, Eq, Error)]
pub enum DeskFault {
    #[error("out of memory")]
    NoMemory,
    /// The history has as many entries as the desk has room for.
    #[error("history full")]
    HistoryFull,
}

/// What a desk was opened with, its history and its feeds, and the end that publishes
/// configurations. The history is stored if it has a bound.
#[derive(Drop)]
pub(crate) struct RouterLog {
    pub(crate) options: DeskOptions,
    pub(crate) entries: Trail<Entry>,
    pub(crate) consumers: Vec<FeedConsumer>,
    pub(crate) published: Publisher<Install>,
}

/// A router with its history, which leads from the opening text to it. What was drawn from its
/// feeds is what the history polled.
///
/// perf: it is small, because each call moves it out of the queue and back.
#[derive(Drop)]
pub struct LoggedRouter<T> {
    pub(crate) router_log: Box<RouterLog>,
    pub(crate) router: Router<T>,
}

impl<T> Model for LoggedRouter<T> {
    ghost use Rattle.std.specs.Prelude.{◌≡◌, map, true, is_some};
    ghost use Rattle.click_rings.specs.Feeds.{name_of, have_distinct_devices};
    ghost use Rattle.click_desk.specs.LoggedRouterState.{LoggedRouterState};
    ghost use Rattle.click_desk.specs.DeskSetups.{setup_of};
    ghost use Rattle.click_desk.specs.History.{Legal, installs};
    ghost use Rattle.click_desk.specs.Polls.{IsPolled};

    ghost Value = { LoggedRouterState };

    ghost view = { λ b. record { options = setup_of b.router_log.value.options (map name_of b.router_log.value.consumers.items); entries = b.router_log.value.entries.items; state = b.router; consumers = b.router_log.value.consumers.items } };

    ghost invariant = { λ b. Legal b.router_log.value.options.opening b.router_log.value.entries.items b.router × IsPolled b.router_log.value.entries.items b.router_log.value.consumers.items
        × (have_distinct_devices (map name_of b.router_log.value.consumers.items) ≡ true)
        × (b.router_log.value.published ≡ record { board = b.router_log.value.options.origin; list = installs b.router_log.value.options.opening b.router_log.value.entries.items })
        × (b.router_log.value.entries.keeps ≡ is_some b.router_log.value.options.room) };
}

impl<T> LoggedRouter<T> {
    /// Returns a router of the log's text, with an empty history. Nothing was drawn from its feeds.
    pub fn new(router_log: Box<RouterLog>, router: Router<T>) -> LoggedRouter<T>
        requires opened { IsOpened router_log.value.options.opening router }
        requires empty { router_log.value.entries.items ≡ [] }
        requires keeps { router_log.value.entries.keeps ≡ is_some router_log.value.options.room }
        requires apart { have_distinct_devices (map name_of router_log.value.consumers.items) ≡ true }
        requires fresh { All (λ t. t.drawn ≡ []) router_log.value.consumers.items }
        requires published { router_log.value.published ≡ record { board = router_log.value.options.origin; list = router_log.value.options.opening ∷ [] } }
        ensures { (result.options ≡ setup_of router_log.value.options (map name_of router_log.value.consumers.items)) × (result.entries ≡ []) × (result.state ≡ router) }
    {
        LoggedRouter { router_log, router }
    }

    /// Returns the parts of the logged router, with the publisher closed.
    pub fn into_parts(
        self,
    ) -> (
        DeskOptions,
        Trail<Entry>,
        Router<T>,
        Vec<FeedConsumer>,
        ClosedPublisher<Install>,
    )
        ensures options { self.options ≡ setup_of result.0 (map name_of result.3.items) }
        ensures parts { (result.1.items ≡ self.entries) × (result.2 ≡ self.state) × (result.3.items ≡ self.consumers) }
        ensures kept { result.1.keeps ≡ is_some self.options.room }
        ensures legal { Legal self.options.opening self.entries self.state }
        ensures polled { IsPolled self.entries self.consumers }
        ensures apart { have_distinct_devices (map name_of self.consumers) ≡ true }
        ensures published { result.4 ≡ record { board = self.options.origin; list = installs self.options.opening self.entries } }
    {
        let LoggedRouter { router_log, router } = self;
        let RouterLog {
            options,
            entries,
            consumers,
            published,
        } = Box::into_inner(router_log);
        (options, entries, router, consumers, published.close())
    }

    /// Returns a notice of the configurations that were published so far.
    pub fn notice(&self) -> Notice
        ensures { result ≡ record { board = self.now.options.origin; list = installs self.now.options.opening self.now.entries } }
    {
        self.router_log.published.notice()
    }

    /// Returns whether the history has as many entries as the desk has room for. Always false for a
    /// live desk.
    pub(crate) fn is_full(&self) -> bool
        ensures { IsTrue result ↔ IsFull self.now.options.room (length self.now.entries) }
    {
        match self.router_log.options.room {
            Some(room) => self.router_log.entries.as_slice().len() >= room,
            None => false,
        }
    }
}

/// Room for three copies of a packet: in the reply, in the history and in a seat's list.
#[derive(Drop)]
pub(crate) struct PacketRooms {
    reply: Option<PacketRoom>,
    history: Option<PacketRoom>,
    seat: Option<PacketRoom>,
}

/// Room for the packet that the call may send.
fn room_for(alloc: Global, call: &Call) -> Result<Option<PacketRoom>, AllocError>
    ensures { IfOk result (λ room. is_transmit call.now ≡ true → is_some room ≡ true) }
{
    match call {
        Call::Transmit { .. } => Ok(Some(PacketRoom::new(alloc)?)),
        _ => Ok(None),
    }
}

impl PacketRooms {
    /// Reserves room for a packet. Fails with out of memory.
    #[cold]
    #[inline(never)]
    fn new(alloc: Global) -> Result<PacketRooms, AllocError>
        ensures { IfOk result (λ rooms. (is_some rooms.reply ≡ true) × (is_some rooms.history ≡ true) × (is_some rooms.seat ≡ true)) }
    {
        Ok(PacketRooms {
            reply: Some(PacketRoom::new(alloc)?),
            history: Some(PacketRoom::new(alloc)?),
            seat: Some(PacketRoom::new(alloc)?),
        })
    }

    /// Returns no room, for a call that sends no packet.
    #[inline(always)]
    fn none() -> PacketRooms {
        PacketRooms {
            reply: None,
            history: None,
            seat: None,
        }
    }
}

/// Returns two copies of a reply: for the history and for a seat's list. Fails with out of memory
/// only if the reply holds memory.
#[inline(always)]
pub(crate) fn copy_twice(
    alloc: Global,
    reply: &StoredReply,
    entered: Option<PacketRoom>,
    listed: Option<PacketRoom>,
) -> Result<(StoredReply, StoredReply), AllocError>
    requires { sends_packet reply.now ≡ true → (is_some entered ≡ true) × (is_some listed ≡ true) }
    ensures kept { IfOk result (λ both. (both.0 ≡ reply.now) × (both.1 ≡ reply.now)) }
    ensures light { IfErr result (λ _. holds_memory reply.now ≡ true) }
{
    Ok((reply.copy(alloc, entered)?, reply.copy(alloc, listed)?))
}

/// Prepares the configuration of a text, publishes it and installs it, or refuses it.
///
/// All memory is reserved before it is published, and publishing is the last step that may fail. If
/// this fails with out of memory, nothing has changed.
#[inline(never)]
fn swap<T, R: Wait>(
    rt: &R,
    alloc: Global,
    router: &mut Router<T>,
    published: &mut Publisher<Install>,
    text: &[u8],
) -> Result<StoredReply, StepFault>
    ensures board { published.new.board ≡ published.old.board }
    ensures swaps { MatchResult result (λ reply. Swaps router.old text.now router.new reply) (λ _. router.new ≡ router.old) }
    ensures list { MatchResult result (λ reply. published.new.list ≡ published.old.list ++ asked (text_if_done text.now reply)) (λ _. published.new.list ≡ published.old.list) }
    ensures light { IfOk result (λ reply. holds_memory reply ≡ true → router.new ≡ router.old) }
    ensures quiet { IfOk result (λ reply. sends_packet reply ≡ false) }
{
    match prepare_swap(alloc, text) {
        Ok(prepared) => {
            let Ok(install) = Install::of_prepared(alloc, text, &prepared) else {
                return Err(StepFault::NoMemory);
            };
            if published.publish(rt, install).is_err() {
                return Err(StepFault::NoMemory);
            }
            router.install(prepared);
            Ok(StoredReply::of(CompactReply::Done))
        }
        Err(outcome) => outcome,
    }
}

/// Answers one call, and publishes the configuration if the call installs one. If this fails with
/// out of memory, nothing has changed.
#[inline(always)]
fn answer<T: Handlers, R: Wait>(
    rt: &R,
    alloc: Global,
    router: &mut Router<T>,
    published: &mut Publisher<Install>,
    call: &Call,
    room: Option<PacketRoom>,
) -> Result<StoredReply, StepFault>
    requires { is_transmit call.now ≡ true → is_some room ≡ true }
    ensures board { published.new.board ≡ published.old.board }
    ensures answer { MatchResult result (λ reply. Answers router.old call.now router.new reply) (λ _. router.new ≡ router.old) }
    ensures list { MatchResult result (λ reply. published.new.list ≡ published.old.list ++ installed call.now reply) (λ _. published.new.list ≡ published.old.list) }
    ensures light { IfOk result (λ reply. holds_memory reply ≡ true → (router.new ≡ router.old) × (installed call.now reply ≡ [])) }
    ensures sends { IfOk result (λ reply. sends_packet reply ≡ true → is_transmit call.now ≡ true) }
{
    match call.swap_text() {
        Some(text) => swap(rt, alloc, router, published, text),
        None => router.step_stored(alloc, call, room),
    }
}

/// Answers one call, and copies the reply for the history and for a seat's list. If this fails with
/// out of memory, nothing has changed.
#[inline(always)]
fn answer_with_copies<T: Handlers, R: Wait>(
    rt: &R,
    alloc: Global,
    router: &mut Router<T>,
    published: &mut Publisher<Install>,
    call: &Call,
    rooms: PacketRooms,
) -> Result<(StoredReply, StoredReply, StoredReply), StepFault>
    requires { is_transmit call.now ≡ true → (is_some rooms.reply ≡ true) × (is_some rooms.history ≡ true) × (is_some rooms.seat ≡ true) }
    ensures board { published.new.board ≡ published.old.board }
    ensures answer { MatchResult result (λ replies. Answers router.old call.now router.new replies.0) (λ _. router.new ≡ router.old) }
    ensures list { MatchResult result (λ replies. published.new.list ≡ published.old.list ++ installed call.now replies.0) (λ _. published.new.list ≡ published.old.list) }
    ensures copies { IfOk result (λ replies. (replies.1 ≡ replies.0) × (replies.2 ≡ replies.0)) }
{
    let PacketRooms {
        reply: told,
        history: entered,
        seat: listed,
    } = rooms;
    let reply = answer(rt, alloc, router, published, call, told)?;
    // Only the reply of a call that changed nothing holds memory, so this failure leaves nothing
    // changed.
    let Ok((entered, listed)) = copy_twice(alloc, &reply, entered, listed) else {
        return Err(StepFault::NoMemory);
    };
    Ok((reply, entered, listed))
}

/// Makes room for one more entry in the history and in a seat's list.
#[inline(always)]
fn reserve_both(
    entries: &mut Trail<Entry>,
    calls: &mut Trail<(Call, StoredReply)>,
) -> Result<(), AllocError>
    requires { (entries.old.keeps ≡ true) × (calls.old.keeps ≡ true) }
    ensures entries { (entries.new.keeps ≡ entries.old.keeps) × (entries.new.items ≡ entries.old.items) }
    ensures calls { (calls.new.keeps ≡ calls.old.keeps) × (calls.new.items ≡ calls.old.items) }
    ensures ready { OnOk result ((entries.new.ready ≡ true) × (calls.new.ready ≡ true)) }
{
    entries.reserve()?;
    calls.reserve()
}

/// Enters a call with its reply in a history and a list that are ghost state. Never allocates.
#[inline(always)]
pub(crate) fn note(
    entries: &mut Trail<Entry>,
    calls: &mut Trail<(Call, StoredReply)>,
    number: usize,
    call: Call,
    reply: StoredReply,
) -> StoredReply
    requires { (entries.old.keeps ≡ false) × (calls.old.keeps ≡ false) }
    ensures keeps { (entries.new.keeps ≡ entries.old.keeps) × (calls.new.keeps ≡ calls.old.keeps) }
    ensures entries { entries.new.items ≡ entries.old.items ++ entry number call reply ∷ [] }
    ensures calls { calls.new.items ≡ calls.old.items ++ (call, reply) ∷ [] }
    ensures reply { result ≡ reply }
{
    let made = Entry {
        seat: number,
        call,
        reply,
    };
    entries.note(&made);
    let Entry { call, reply, .. } = made;
    let pair = (call, reply);
    calls.note(&pair);
    let (_, reply) = pair;
    reply
}

impl<T: Handlers> LoggedRouter<T> {
    /// Makes one call, which is not a Poll, and enters it in the history and in the seat's list.
    /// `number` is that of the seat.
    ///
    /// All memory is reserved before the router changes. Fails with out of memory, or with
    /// `HistoryFull`.
    #[inline(always)]
    pub fn enter<R: Wait>(
        &mut self,
        rt: &R,
        alloc: Global,
        number: usize,
        calls: &mut Trail<(Call, StoredReply)>,
        call: Call,
    ) -> Result<StoredReply, DeskFault>
        requires call { is_poll call ≡ false }
        requires keeps { calls.old.keeps ≡ is_some self.old.options.room }
        ensures options { self.new.options ≡ self.old.options }
        ensures legal { Legal self.new.options.opening self.new.entries self.new.state }
        ensures polled { IsPolled self.new.entries self.new.consumers }
        ensures ok { IfOk result (λ reply. (self.new.entries ≡ self.old.entries ++ entry number call reply ∷ []) × (calls.new.items ≡ calls.old.items ++ (call, reply) ∷ []) × IsWithin self.new.options.room (length self.new.entries)) }
        ensures err { OnErr result ((self.new ≡ self.old) × (calls.new.items ≡ calls.old.items)) }
        ensures keeps { calls.new.keeps ≡ calls.old.keeps }
        ensures full { (result ≡ Err DeskFault.HistoryFull) ↔ IsFull self.old.options.room (length self.old.entries) }
    {
        // proof: naming a field brings the type's invariant into scope.
        let _ = &self.router_log;
        if self.is_full() {
            return Err(DeskFault::HistoryFull);
        }
        self.enter_call(rt, alloc, number, calls, call)
    }

    /// Makes a Round, as `enter` does. Returns the number of packets that the tasks emitted or
    /// pulled.
    ///
    /// Allocates only for its entries in both lists, if they are stored.
    pub fn enter_round(
        &mut self,
        number: usize,
        calls: &mut Trail<(Call, StoredReply)>,
    ) -> Result<u64, DeskFault>
        requires { calls.old.keeps ≡ is_some self.old.options.room }
        ensures options { self.new.options ≡ self.old.options }
        ensures legal { Legal self.new.options.opening self.new.entries self.new.state }
        ensures polled { IsPolled self.new.entries self.new.consumers }
        ensures ok { IfOk result (λ count. (self.new.entries ≡ self.old.entries ++ entry number Call.Round (Reply.Worked count) ∷ []) × (calls.new.items ≡ calls.old.items ++ (Call.Round, Reply.Worked count) ∷ []) × IsWithin self.new.options.room (length self.new.entries)) }
        ensures err { OnErr result ((self.new ≡ self.old) × (calls.new.items ≡ calls.old.items)) }
        ensures keeps { calls.new.keeps ≡ calls.old.keeps }
        ensures full { (result ≡ Err DeskFault.HistoryFull) ↔ IsFull self.old.options.room (length self.old.entries) }
    {
        // proof: naming a field brings the type's invariant into scope.
        let _ = &self.router_log;
        if self.is_full() {
            return Err(DeskFault::HistoryFull);
        }
        let router_log = &mut *self.router_log;
        if !router_log.entries.keeps() {
            let worked = self.router.round();
            let reply = StoredReply::round_done(worked);
            let _ = note(&mut router_log.entries, calls, number, Call::Round, reply);
            return Ok(worked);
        }
        if reserve_both(&mut router_log.entries, calls).is_err() {
            return Err(DeskFault::NoMemory);
        }
        let worked = self.router.round();
        router_log.entries.add(Entry {
            seat: number,
            call: Call::Round,
            reply: StoredReply::round_done(worked),
        });
        calls.add((Call::Round, StoredReply::round_done(worked)));
        Ok(worked)
    }

    /// Makes a call, as `enter` does, that may send a packet and may allocate.
    #[inline(always)]
    fn enter_call<R: Wait>(
        &mut self,
        rt: &R,
        alloc: Global,
        number: usize,
        calls: &mut Trail<(Call, StoredReply)>,
        call: Call,
    ) -> Result<StoredReply, DeskFault>
        requires call { is_poll call ≡ false }
        requires keeps { calls.old.keeps ≡ is_some self.old.options.room }
        ensures options { self.new.options ≡ self.old.options }
        ensures legal { Legal self.new.options.opening self.new.entries self.new.state }
        ensures polled { IsPolled self.new.entries self.new.consumers }
        ensures ok { IfOk result (λ reply. (self.new.entries ≡ self.old.entries ++ entry number call reply ∷ []) × (calls.new.items ≡ calls.old.items ++ (call, reply) ∷ [])) }
        ensures err { OnErr result ((self.new ≡ self.old) × (calls.new.items ≡ calls.old.items)) }
        ensures keeps { calls.new.keeps ≡ calls.old.keeps }
        ensures fault { IfErr result (λ fault. fault ≡ DeskFault.NoMemory) }
    {
        if self.router_log.options.room.is_none() {
            return self.enter_unkept(rt, alloc, number, calls, call);
        }
        if let Call::Transmit { .. } = &call {
            let Ok(rooms) = PacketRooms::new(alloc) else {
                return Err(DeskFault::NoMemory);
            };
            return self.enter_kept(rt, alloc, number, calls, call, rooms);
        }
        self.enter_kept(rt, alloc, number, calls, call, PacketRooms::none())
    }

    /// Makes a call, and stores copies of it and of its reply in both lists. `rooms` is for a
    /// packet that it sends.
    #[inline(always)]
    fn enter_kept<R: Wait>(
        &mut self,
        rt: &R,
        alloc: Global,
        number: usize,
        calls: &mut Trail<(Call, StoredReply)>,
        call: Call,
        rooms: PacketRooms,
    ) -> Result<StoredReply, DeskFault>
        requires call { is_poll call ≡ false }
        requires rooms { is_transmit call ≡ true → (is_some rooms.reply ≡ true) × (is_some rooms.history ≡ true) × (is_some rooms.seat ≡ true) }
        requires keeps { (is_some self.old.options.room ≡ true) × (calls.old.keeps ≡ true) }
        ensures options { self.new.options ≡ self.old.options }
        ensures legal { Legal self.new.options.opening self.new.entries self.new.state }
        ensures polled { IsPolled self.new.entries self.new.consumers }
        ensures ok { IfOk result (λ reply. (self.new.entries ≡ self.old.entries ++ entry number call reply ∷ []) × (calls.new.items ≡ calls.old.items ++ (call, reply) ∷ [])) }
        ensures err { OnErr result ((self.new ≡ self.old) × (calls.new.items ≡ calls.old.items)) }
        ensures keeps { calls.new.keeps ≡ calls.old.keeps }
        ensures fault { IfErr result (λ fault. fault ≡ DeskFault.NoMemory) }
    {
        // proof: borrowed first, so that the invariant of the log is known at each return.
        let router_log = &mut *self.router_log;
        let Ok(listed) = call.copy(alloc) else {
            return Err(DeskFault::NoMemory);
        };
        if reserve_both(&mut router_log.entries, calls).is_err() {
            return Err(DeskFault::NoMemory);
        }
        let Ok((reply, entered, told)) = answer_with_copies(
            rt,
            alloc,
            &mut self.router,
            &mut router_log.published,
            &call,
            rooms,
        ) else {
            return Err(DeskFault::NoMemory);
        };
        router_log.entries.add(Entry {
            seat: number,
            call,
            reply: entered,
        });
        calls.add((listed, told));
        Ok(reply)
    }

    /// Makes a call without storing it. Allocates only what its step needs and what its reply
    /// holds.
    #[inline(always)]
    fn enter_unkept<R: Wait>(
        &mut self,
        rt: &R,
        alloc: Global,
        number: usize,
        calls: &mut Trail<(Call, StoredReply)>,
        call: Call,
    ) -> Result<StoredReply, DeskFault>
        requires call { is_poll call ≡ false }
        requires notes { (is_some self.old.options.room ≡ false) × (calls.old.keeps ≡ false) }
        ensures options { self.new.options ≡ self.old.options }
        ensures legal { Legal self.new.options.opening self.new.entries self.new.state }
        ensures polled { IsPolled self.new.entries self.new.consumers }
        ensures ok { IfOk result (λ reply. (self.new.entries ≡ self.old.entries ++ entry number call reply ∷ []) × (calls.new.items ≡ calls.old.items ++ (call, reply) ∷ [])) }
        ensures err { OnErr result ((self.new ≡ self.old) × (calls.new.items ≡ calls.old.items)) }
        ensures keeps { calls.new.keeps ≡ calls.old.keeps }
        ensures fault { IfErr result (λ fault. fault ≡ DeskFault.NoMemory) }
    {
        // proof: borrowed first, so that the invariant of the log is known at each return.
        let router_log = &mut *self.router_log;
        let Ok(room) = room_for(alloc, &call) else {
            return Err(DeskFault::NoMemory);
        };
        let published = &mut router_log.published;
        let Ok(reply) = answer(rt, alloc, &mut self.router, published, &call, room) else {
            return Err(DeskFault::NoMemory);
        };
        Ok(note(&mut router_log.entries, calls, number, call, reply))
    }
}
