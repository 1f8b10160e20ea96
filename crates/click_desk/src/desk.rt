//! The desk: one router that many threads share.

ghost use Rattle.std.specs.Prelude.{◌≡◌, ◌⊎◌, ◌≤◌, [], true, false, IfOk, IfErr};
ghost use Rattle.click_router.specs.Polls.{is_poll};
ghost use Rattle.crossbeam_queue.specs.Passes.{view, IsPassOf, ruled_capacity};
ghost use Rattle.click_desk.specs.Views.{first, Takes, Gives, MayGive, IsFirstGive};
ghost use Rattle.click_desk.specs.Polls.{Polls};
ghost use Rattle.click_desk.specs.SeatStates.{Calls, IsRefused};

use crate::logged_router::{DeskFault, LoggedRouter};
use crate::options::DeskOptions;
use crate::rule::{DeskPass, Give, Queue, Take};
use crate::seat::Seat;
use crate::watch::Notice;
use click_router::{Call, Handlers, Reply, StoredReply};
use click_views::InstallSignal;
use std::alloc::Global;
use std::marker::Model;
use std::sync::Wait;
use std::sync::atomic::{AtomicU32, Ordering};
use std::thread;

/// A router and its history, shared by the seats of many threads.
///
/// While no call is in progress, `queue`, which has a single slot, holds the logged router: the
/// router with its history and its feeds. A call takes it out, makes one step and gives it back, so
/// calls happen one at a time. If the desk has views, a swap announces its configuration to them by
/// `install_signal`, which keeps the runtime `R` that it blocks with.
#[derive(Drop)]
pub struct Desk<T, R: Wait + Drop> {
    pub(crate) alloc: Global,
    pub(crate) queue: Queue<T>,
    /// The number of threads that found the queue empty and are trying again.
    pub(crate) waiting: AtomicU32,
    pub(crate) options: DeskOptions,
    pub(crate) install_signal: Option<InstallSignal<R>>,
}

impl<T, R: Wait + Drop> Model for Desk<T, R> {
    ghost use Rattle.click_desk.specs.SeatStates.{DeskName};

    ghost Value = { DeskName };

    ghost use Rattle.std.specs.Prelude.{◌≡◌, ◌<◌};
    ghost use Rattle.crossbeam_queue.specs.Passes.{ruled_capacity};

    ghost view = { λ d. record { table = d.queue.table.shared.table_id; options = d.options } };

    ghost invariant = { λ d. (ruled_capacity d.queue ≡ 1) × (0 < d.options.seats) };
}

/// The maximum number of yields between two attempts to take the logged router.
const MAX_YIELDS: u32 = 4;

/// Yields the core `times` times.
fn yield_times(times: u32) {
    for _ in 0..times {
        thread::yield_now();
    }
}

/// Takes the logged router that another thread holds. Tries again until it succeeds.
///
/// perf: backs off (1, 2, then 4 yields between attempts), because polling slows down the holder.
#[cold]
#[inline(never)]
fn wait_for<T, R: Wait>(rt: &R, queue: &Queue<T>, pass: &mut DeskPass<T>) -> LoggedRouter<T>
    requires queue { IsPassOf queue.now pass.old }
    requires opened { (view pass.old).opened ≡ true }
    ensures queue { IsPassOf queue.now pass.new }
    ensures taken { Takes (view pass.old) result (view pass.new) }
{
    let mut yields: u32 = 1;
    for _ in rt.forever() {
        yield_times(yields);
        match queue.try_pop_as::<Take>(pass) {
            Some(logged_router) => return logged_router,
            None => yields = yields.saturating_mul(2).min(MAX_YIELDS),
        }
    }
    unreachable!()
}

/// Takes the logged router. Blocks until no other thread holds it.
///
/// If other threads are waiting, yields once first, so that a thread that calls in a loop cannot
/// starve them.
#[inline(always)]
pub(crate) fn take<T, R: Wait>(
    rt: &R,
    queue: &Queue<T>,
    waiting: &AtomicU32,
    pass: &mut DeskPass<T>,
) -> LoggedRouter<T>
    requires queue { IsPassOf queue.now pass.old }
    requires opened { (view pass.old).opened ≡ true }
    ensures queue { IsPassOf queue.now pass.new }
    ensures taken { Takes (view pass.old) result (view pass.new) }
{
    if waiting.load(Ordering::Relaxed) > 0 {
        thread::yield_now();
    }
    if let Some(logged_router) = queue.try_pop_as::<Take>(pass) {
        return logged_router;
    }
    waiting.fetch_add(1, Ordering::Relaxed);
    let logged_router = wait_for(rt, queue, pass);
    waiting.fetch_sub(1, Ordering::Relaxed);
    logged_router
}

/// Gives the logged router back.
///
/// Never fails: by the queue's rule it is empty while this pass holds the router.
pub(crate) fn give<T, R: Wait>(
    rt: &R,
    queue: &Queue<T>,
    pass: &mut DeskPass<T>,
    logged_router: LoggedRouter<T>,
)
    requires queue { IsPassOf queue.now pass.old × (ruled_capacity queue.now ≡ 1) }
    requires rule { MayGive (view pass.old) logged_router ⊎ IsFirstGive (view pass.old) logged_router }
    ensures queue { IsPassOf queue.now pass.new }
    ensures given { Gives (view pass.old) logged_router (view pass.new) }
{
    match queue.push_as::<Give, R>(rt, pass, logged_router) {
        Ok(()) => {}
        Err(_) => unreachable!(),
    }
}

/// Converts the stored reply of an entry into a `Reply`.
///
/// perf: done last, because a `Reply` has room for a packet and is expensive to move.
#[inline(always)]
fn entered_reply(entered: Result<StoredReply, DeskFault>) -> Result<Reply, DeskFault>
    ensures { result ≡ entered }
{
    match entered {
        Ok(reply) => Ok(reply.into_reply()),
        Err(fault) => Err(fault),
    }
}

impl<T, R: Wait + Drop> Desk<T, R> {
    /// Announces the newest configuration to the views, if there are any.
    fn signal<S: Wait>(&self, rt: &S, notice: &Notice) {
        if let Some(install_signal) = &self.install_signal {
            install_signal.signal(rt, notice);
        }
    }
}

impl<T: Handlers, R: Wait + Drop> Desk<T, R> {
    /// Makes one call through a seat of this desk and returns its reply. For a Poll use `poll`.
    ///
    /// Blocks while another call is in progress. Fails with `NoMemory`, or with `HistoryFull` if
    /// the history has as many entries as the desk has room for. A call that fails changes nothing
    /// and is not in the history.
    #[inline(always)]
    pub fn call<S: Wait>(&self, rt: &S, seat: &mut Seat<T>, call: Call) -> Result<Reply, DeskFault>
        requires seat { seat.old.desk ≡ self.now }
        requires call { is_poll call ≡ false }
        ensures seat { (seat.new.desk ≡ seat.old.desk) × (seat.new.feeds ≡ seat.old.feeds) × (seat.new.number ≡ seat.old.number) }
        ensures ok { IfOk result (λ reply. Calls seat.old seat.new call reply) }
        ensures err { IfErr result (λ fault. IsRefused seat.old seat.new fault) }
    {
        entered_reply(self.call_stored(rt, seat, call))
    }

    /// Makes one call, as `call` does, and returns the reply in the form that the history stores.
    ///
    /// perf: a `StoredReply` is small; a `Reply` has room for a packet.
    #[inline(always)]
    pub fn call_stored<S: Wait>(
        &self,
        rt: &S,
        seat: &mut Seat<T>,
        call: Call,
    ) -> Result<StoredReply, DeskFault>
        requires seat { seat.old.desk ≡ self.now }
        requires call { is_poll call ≡ false }
        ensures seat { (seat.new.desk ≡ seat.old.desk) × (seat.new.feeds ≡ seat.old.feeds) × (seat.new.number ≡ seat.old.number) }
        ensures ok { IfOk result (λ reply. Calls seat.old seat.new call reply) }
        ensures err { IfErr result (λ fault. IsRefused seat.old seat.new fault) }
    {
        let must_signal = self.install_signal.is_some() && call.swap_text().is_some();
        let mut logged_router = take(rt, &self.queue, &self.waiting, &mut seat.pass);
        let result = logged_router.enter(rt, self.alloc, seat.number, &mut seat.calls, call);
        seat.notice = logged_router.notice();
        if must_signal {
            self.signal(rt, &seat.notice);
        }
        give(rt, &self.queue, &mut seat.pass, logged_router);
        result
    }

    /// Makes a Round, as `record` does. Returns the number of packets that the tasks emitted or
    /// pulled.
    ///
    /// perf: drivers make nothing but Rounds, so this path moves neither a call nor a reply.
    pub fn round<S: Wait>(&self, rt: &S, seat: &mut Seat<T>) -> Result<u64, DeskFault>
        requires { seat.old.desk ≡ self.now }
        ensures seat { (seat.new.desk ≡ seat.old.desk) × (seat.new.feeds ≡ seat.old.feeds) × (seat.new.number ≡ seat.old.number) }
        ensures ok { IfOk result (λ count. Calls seat.old seat.new Call.Round (Reply.Worked count)) }
        ensures err { IfErr result (λ fault. IsRefused seat.old seat.new fault) }
    {
        let mut logged_router = take(rt, &self.queue, &self.waiting, &mut seat.pass);
        let result = logged_router.enter_round(seat.number, &mut seat.calls);
        let notice = logged_router.notice();
        give(rt, &self.queue, &mut seat.pass, logged_router);
        seat.notice = notice;
        result
    }

    /// Draws up to `most` packets (1 to 32) from a device's feed and enters them in one call.
    /// Returns `Entered` with their number.
    ///
    /// Draws nothing if the running configuration has no source of the device, which is answered
    /// with `NoDevice`, or if the desk has no feed of it. Blocks and fails as `call` does; packets
    /// of a failed poll stay in the feed.
    #[inline(always)]
    pub fn poll<S: Wait>(
        &self,
        rt: &S,
        seat: &mut Seat<T>,
        device: &[u8],
        most: usize,
    ) -> Result<Reply, DeskFault>
        requires seat { seat.old.desk ≡ self.now }
        requires most { (1 ≤ most) × (most ≤ 32) }
        ensures seat { (seat.new.desk ≡ seat.old.desk) × (seat.new.feeds ≡ seat.old.feeds) × (seat.new.number ≡ seat.old.number) }
        ensures ok { IfOk result (λ reply. Polls seat.old seat.new device.now most reply) }
        ensures err { IfErr result (λ fault. IsRefused seat.old seat.new fault) }
    {
        let mut logged_router = take(rt, &self.queue, &self.waiting, &mut seat.pass);
        let result = logged_router.enter_poll(
            self.alloc,
            seat.number,
            &mut seat.calls,
            device,
            most,
        );
        let notice = logged_router.notice();
        give(rt, &self.queue, &mut seat.pass, logged_router);
        seat.notice = notice;
        entered_reply(result)
    }
}
