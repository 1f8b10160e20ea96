//! A view in a thread of its own, in parallel with a seat that swaps.

ghost use Rattle.std.specs.Prelude.{◌≡◌, IfSome};
ghost use Rattle.std.specs.List.{All};
ghost use Rattle.std.specs.Thread.{IsSync};

use crate::cases::{Case, assert_case};
use crate::desks::{Asked, Opened, call, last_seat, open};
use click_desk::{Desk, Seat, View};
use click_router::{Check, Handlers, Reply};
use std::alloc::{AllocError, Global};
use std::sync::Wait;
use std::sync::atomic::{AtomicBool, Ordering};
use std::test::Fail;
use std::thread::{self, Threads};

/// The number of swaps.
const SWAPS: usize = 1_000;

/// Returns the configuration of this number, which its element has in its name. The element is a
/// Counter, or a Switch if the number is odd.
fn text_of(alloc: Global, number: usize) -> Result<String, AllocError> {
    let class = if number % 2 == 0 {
        "Counter"
    } else {
        "Switch(0)"
    };
    format!(in alloc; "Idle -> c{number} :: {class} -> Discard;")
}

/// Returns the number of the configuration that has these names.
fn number_of(names: &[Vec<u8>]) -> Option<usize> {
    let name = str::from_utf8(names.get(1)?.as_slice()).ok()?;
    name.strip_prefix('c')?.parse::<usize>().ok()
}

/// Returns the number of the configuration that the view shows, if it is at least `least` and the
/// view checks exactly the handlers of it. The view may learn of a later configuration between two
/// of its answers.
fn number_seen(alloc: Global, view: &mut View, least: usize) -> Option<usize>
    ensures { view.new.board ≡ view.old.board }
{
    let names = view.names(alloc).ok()?;
    let number = number_of(names.as_slice())?;
    let name = format!(in alloc; "c{number}.count").ok()?;
    let check = view.check_read(name.as_bytes());
    let names = view.names(alloc).ok()?;
    let later = number_of(names.as_slice())?;
    let wanted = if number % 2 == 0 {
        Check::Yes
    } else {
        Check::NoHandler
    };
    let gone = (later > number) & (check == Check::NoElement);
    if (least <= number) & (number <= later) & ((check == wanted) | gone) {
        Some(later)
    } else {
        None
    }
}

/// Looks at the view until all swaps are done, and once more. Returns the view, and whether it
/// never showed an older configuration and ended with the last one.
fn look<R: Wait>(rt: &R, alloc: Global, mut view: View, done: &AtomicBool) -> (View, bool)
    ensures { result.0.board ≡ view.board }
{
    let mut latest = 0;
    for _ in rt.forever() {
        let last = done.load(Ordering::SeqCst);
        let Some(seen) = number_seen(alloc, &mut view, latest) else {
            return (view, false);
        };
        latest = seen;
        if last {
            return (view, latest == SWAPS);
        }
    }
    unreachable!()
}

/// Swaps to the configuration of this number. Returns whether the view that learns of it shows it.
fn swap_one<T: Handlers, R: Wait>(
    rt: &R,
    alloc: Global,
    desk: &Desk<T, &R>,
    seat: &mut Seat<T>,
    view: &mut View,
    number: usize,
) -> bool
    requires desk { seat.old.desk ≡ desk.now }
    requires board { view.old.board ≡ desk.now.options.origin }
    ensures desk { seat.new.desk ≡ desk.now }
    ensures board { view.new.board ≡ desk.now.options.origin }
{
    let reply = match text_of(alloc, number) {
        Ok(text) => call(rt, alloc, desk, seat, Asked::Swap(text.as_bytes())),
        Err(_) => None,
    };
    view.learn(seat.notice());
    matches!(reply, Some(Reply::Done)) & (number_seen(alloc, view, number) == Some(number))
}

/// Makes all swaps, and sets `done`. Returns the seat, the view, and whether each swap was seen.
fn swap_all<T: Handlers, R: Wait>(
    rt: &R,
    alloc: Global,
    desk: &Desk<T, &R>,
    mut seat: Seat<T>,
    mut view: View,
    done: &AtomicBool,
) -> (Seat<T>, View, bool)
    requires { (seat.desk ≡ desk.now) × (view.board ≡ desk.now.options.origin) }
    ensures { (result.0.desk ≡ desk.now) × (result.1.board ≡ desk.now.options.origin) }
{
    let mut good = true;
    for number in 1..=SWAPS {
        good = good & swap_one(rt, alloc, desk, &mut seat, &mut view, number);
    }
    done.store(true, Ordering::SeqCst);
    (seat, view, good)
}

/// Swaps in one thread, and looks in another. Returns the seat, the view that looked, and whether
/// both views showed what they had to.
fn swap_and_look<T: Handlers + Send + Drop, R: Threads + Wait + Sync>(
    rt: &R,
    alloc: Global,
    desk: &Desk<T, &R>,
    seat: Seat<T>,
    learns: View,
    looks: View,
) -> (Seat<T>, View, bool)
    requires seat { seat.desk ≡ desk.now }
    requires views { (learns.board ≡ desk.now.options.origin) × (looks.board ≡ desk.now.options.origin) }
    ensures { (result.0.desk ≡ desk.now) × (result.1.board ≡ desk.now.options.origin) }
{
    let all = AtomicBool::new(false);
    let done = &all;
    let ((seat, _learnt, swapped), (view, seen)) = thread::join(
        rt,
        move || -> (Seat<T>, View, bool)
            requires { IsSync R.row × (seat.desk ≡ desk.now) × (learns.board ≡ desk.now.options.origin) }
            ensures { (result.0.desk ≡ desk.entry.now) × (result.1.board ≡ desk.entry.now.options.origin) }
        { swap_all(rt, alloc, desk, seat, learns, done) },
        move || -> (View, bool)
            requires { IsSync R.row }
            ensures { result.0.board ≡ looks.board }
        { look(rt, alloc, looks, done) },
    );
    (seat, view, swapped & seen)
}

/// Takes the last two of these views.
fn last_views<T: Drop, B: Wait + Drop>(
    desk: &Desk<T, B>,
    mut views: Vec<View>,
) -> Option<(View, View)>
    requires { All (λ v. v.board ≡ desk.now.options.origin) views.items }
    ensures { IfSome result (λ r. (r.0.board ≡ desk.now.options.origin) × (r.1.board ≡ desk.now.options.origin)) }
{
    let last = views.pop()?;
    let next = views.pop()?;
    Some((last, next))
}

/// Closes a desk with its only seat, and holds the view against its book. Returns the number of the
/// book's entries.
fn meet<T: Drop, R: Wait>(
    rt: &R,
    alloc: Global,
    desk: Desk<T, &R>,
    seat: Seat<T>,
    view: &View,
) -> Option<usize>
    requires seat { seat.desk ≡ desk }
    requires board { view.now.board ≡ desk.options.origin }
{
    let mut seats = Vec::with_capacity(alloc, 1).ok()?;
    seats.push_reserved(seat);
    match desk.close(rt, seats) {
        Ok(book) => {
            book.meet(view);
            Some(book.entries.as_slice().len())
        }
        Err(_refused) => None,
    }
}

/// Opens a desk with a seat and two views, which look while it swaps, and meets its book.
pub(crate) fn two_views<T: Handlers + Send + Drop, R: Threads + Wait + Sync>(
    rt: &R,
    alloc: Global,
    table: T,
) -> Option<bool> {
    let text = text_of(alloc, 0).ok()?;
    let Opened {
        desk,
        seats,
        views,
        drivers,
    } = open(rt, alloc, table, text.as_bytes(), 1, 2, b"")?;
    let (seat, _none) = last_seat(&desk, &drivers, seats)?;
    let (learns, looks) = last_views(&desk, views)?;
    let (seat, view, good) = swap_and_look(rt, alloc, &desk, seat, learns, looks);
    let entries = meet(rt, alloc, desk, seat, &view)?;
    Some(good & (entries == SWAPS))
}

/// During 1,000 swaps a view in a thread never shows an older configuration again and ends with the
/// last; one that learns of each swap shows it.
#[test]
fn views_follow_swaps_in_a_thread_of_their_own(rt: HostRuntime) -> Result<(), Fail> {
    assert_case(&rt, rt.alloc(), None, Case::TwoViews)
}
