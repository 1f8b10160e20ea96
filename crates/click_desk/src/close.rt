//! The close of a desk.

ghost use Rattle.std.specs.Prelude.{◌≡◌, ◌==◌, ◌↔◌, ◌<◌, ◌≤◌, ℕ, [], IsTrue, IfOk, IfErr, count_by, MatchResult, slice_index_or, length};
ghost use Rattle.std.specs.List.{All};
ghost use Rattle.crossbeam_queue.specs.Passes.{view, IsPassOf};
ghost use Rattle.click_desk.specs.Views.{agent as agent_of, holding};
ghost use Rattle.click_desk.specs.Bounds.{IsWithin};
ghost use Rattle.click_desk.specs.History.{entries};
ghost use Rattle.click_desk.specs.DeskSetups.{setup_of, terms_of};
ghost use Rattle.click_desk.specs.SeatStates.{SeatState};
ghost use Rattle.click_desk.specs.Closing.{IsEachOnce, IsEntered, Closes};

use crate::book::Book;
use crate::desk::{Desk, take};
use crate::logged_router::LoggedRouter;
use crate::options::DeskOptions;
use crate::rule::{Audit, Closer, DeskPass, Queue};
use crate::seat::Seat;
use std::sync::Wait;
use std::sync::atomic::AtomicU32;
use thiserror::Error;

/// The fault for which a desk was not closed.
#[derive(Clone, Copy, Debug, PartialEq, Eq, Error)]
pub enum CloseFault {
    /// Some seat number was not handed in exactly once.
    #[error("not each seat was given back once")]
    SeatsMissing,
    /// The calls of a seat differ from its entries. Never returned: the rule of the queue excludes
    /// it.
    #[error("a seat's calls are not its entries")]
    Mismatch,
}

/// A desk that was not closed: the desk, the seats that were handed in, and the fault.
#[derive(Drop)]
pub struct CloseRefused<T, R: Wait + Drop> {
    pub desk: Desk<T, R>,
    pub seats: Vec<Seat<T>>,
    pub fault: CloseFault,
}

/// Returns how many of the seats have this number.
fn count_of<T>(seats: &[Seat<T>], number: usize) -> usize
    ensures { result ≡ count_by (λ s. s.number == number) seats.now }
{
    seats.iter().filter(|s| s.number() == number).count()
}

/// Returns whether each number below `count` is that of exactly one seat.
fn is_each_once<T>(seats: &[Seat<T>], count: usize) -> bool
    ensures { IsTrue result ↔ IsEachOnce count seats.now }
{
    for number in 0..count {
        if count_of(seats, number) != 1 {
            return false;
        }
    }
    true
}

/// Creates an agent: a pass without a seat, which takes the logged router for the close.
fn agent<T>(queue: &Queue<T>, seat: &mut Seat<T>) -> DeskPass<T>
    requires { seat.old.desk.table ≡ queue.now.table.shared.table_id }
    ensures same { seat.new ≡ seat.old }
    ensures agent { IsPassOf queue.now result × (view result ≡ agent_of (setup_of seat.old.desk.options seat.old.feeds)) }
{
    queue.another::<Closer>(&mut seat.pass)
}

/// Compares the whole history, which the agent holds, with what the seat knows. Returns the agent.
///
/// proof: the seat is unchanged. The passes are joined, the queue's rule is applied, and they are
/// split again.
fn audit<T>(queue: &Queue<T>, seat: &mut Seat<T>, agent: DeskPass<T>) -> DeskPass<T>
    requires seat { seat.old.desk.table ≡ queue.now.table.shared.table_id }
    requires agent { IsPassOf queue.now agent × (view agent ≡ holding (view agent).options (view agent).seen) }
    ensures same { seat.new ≡ seat.old }
    ensures agent { IsPassOf queue.now result × (view result ≡ holding (setup_of seat.old.desk.options seat.old.feeds) (view agent).seen) }
    ensures entered { IsEntered (view agent).seen seat.old }
{
    queue.absorb::<Audit>(&mut seat.pass, agent);
    queue.learn_as::<Audit>(&mut seat.pass);
    queue.another::<Audit>(&mut seat.pass)
}

/// Compares the whole history, which the agent holds, with what each seat knows.
fn audit_all<T>(queue: &Queue<T>, seats: &mut [Seat<T>], mut agent: DeskPass<T>) -> DeskPass<T>
    requires seats { All (λ s. s.desk.table ≡ queue.now.table.shared.table_id) seats.old }
    requires agent { IsPassOf queue.now agent × (view agent ≡ holding (view agent).options (view agent).seen) }
    ensures same { seats.new ≡ seats.old }
    ensures entered { All (IsEntered (view agent).seen) seats.old }
{
    for i in 0..seats.len() {
        agent = audit(queue, &mut seats[i], agent);
    }
    agent
}

/// Takes the logged router for good, and compares its history with what each seat knows.
fn take_last<T, R: Wait>(
    rt: &R,
    queue: &Queue<T>,
    waiting: &AtomicU32,
    seats: &mut [Seat<T>],
) -> LoggedRouter<T>
    requires some { 0 < length seats.old }
    requires seats { All (λ s. s.desk.table ≡ queue.now.table.shared.table_id) seats.old }
    ensures same { seats.new ≡ seats.old }
    ensures options { (s : SeatState) → (slice_index_or seats.old 0 s).desk.options ≡ terms_of result.options }
    ensures feeds { (s : SeatState) → (slice_index_or seats.old 0 s).feeds ≡ result.options.feeds }
    ensures entered { All (IsEntered result.entries) seats.old }
    ensures numbered { (n : ℕ) → result.options.seats ≤ n → entries result.entries n ≡ [] }
    ensures within { IsWithin result.options.room (length result.entries) }
{
    let mut agent = agent(queue, &mut seats[0]);
    let logged_router = take(rt, queue, waiting, &mut agent);
    audit_all(queue, seats, agent);
    logged_router
}

impl<T: Drop, R: Wait + Drop> Desk<T, R> {
    /// Closes the desk, if each of its seats is handed in exactly once, and returns the book.
    /// Blocks until no call is in progress.
    ///
    /// Fails with `SeatsMissing`, and returns the desk and the seats, otherwise.
    pub fn close<S: Wait>(
        self,
        rt: &S,
        mut seats: Vec<Seat<T>>,
    ) -> Result<Book<T>, CloseRefused<T, R>>
        requires { All (λ s. s.desk ≡ self) seats.items }
        ensures ok { IfOk result (λ book. IsEachOnce self.options.seats seats.items × Closes self seats.items book) }
        ensures refused { IfErr result (λ r. (¬ IsEachOnce self.options.seats seats.items) × (r.desk ≡ self) × (r.seats.items ≡ seats.items) × (r.fault ≡ CloseFault.SeatsMissing)) }
    {
        if !is_each_once(seats.as_slice(), self.options.seats) {
            return Err(CloseRefused {
                desk: self,
                seats,
                fault: CloseFault::SeatsMissing,
            });
        }
        let logged_router = take_last(rt, &self.queue, &self.waiting, seats.as_mut_slice());
        let (options, entries, router, consumers, published) = logged_router.into_parts();
        let DeskOptions { opening, .. } = options;
        Ok(Book {
            opening,
            entries,
            router,
            seats,
            consumers,
            published,
        })
    }
}
