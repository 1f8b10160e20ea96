//! Desks that tests open: their calls, their seats, and their close.

ghost use Rattle.std.specs.Prelude.{◌≡◌, ◌<◌, true, false, map, IfOk, IfSome, vec_len};
ghost use Rattle.std.specs.List.{All};
ghost use Rattle.click_rings.specs.Feeds.{name_of, have_distinct_devices};
ghost use Rattle.click_router.specs.Polls.{is_poll};

use crate::drivers::{Driver, drivers_of};
use click_base::sequence::Sequence;
use click_desk::{Book, Desk, Seat, View};
use click_router::{Call, Handlers, Reply};
use std::alloc::{AllocError, Global};
use std::sync::Wait;

/// The number of entries for which the history of a desk has room.
const ROOM: usize = 1_000_000;

/// A desk, its seats, its views, and the device drivers of its feeds.
#[derive(Drop)]
pub(crate) struct Opened<'a, T: Drop, R: Wait> {
    pub(crate) desk: Desk<T, &'a R>,
    pub(crate) seats: Vec<Seat<T>>,
    pub(crate) views: Vec<View>,
    pub(crate) drivers: Vec<Driver>,
}

/// Opens a desk with seats, views, and a feed for the device of each letter.
pub(crate) fn open<'a, T: Drop, R: Wait>(
    rt: &'a R,
    alloc: Global,
    table: T,
    text: &[u8],
    seats: usize,
    views: usize,
    letters: &[u8],
) -> Option<Opened<'a, T, R>>
    ensures seats { IfSome result (λ o. All (λ s. s.desk ≡ o.desk) o.seats.items) }
    ensures fed { IfSome result (λ o. All (λ s. s.feeds ≡ o.drivers.items) o.seats.items) }
    ensures views { IfSome result (λ o. All (λ v. v.board ≡ o.desk.options.origin) o.views.items) }
    ensures apart { IfSome result (λ o. have_distinct_devices o.drivers.items ≡ true) }
{
    let (drivers, inlets) = drivers_of(alloc, letters)?;
    let (desk, seats, views) = Desk::open_with_views(
        rt, alloc, table, text, ROOM, seats, inlets, views,
    ).ok()?;
    Some(Opened {
        desk,
        seats,
        views,
        drivers,
    })
}

/// Takes the last of these seats out of their list.
pub(crate) fn last_seat<T: Drop, B: Wait + Drop>(
    desk: &Desk<T, B>,
    drivers: &Vec<Driver>,
    mut seats: Vec<Seat<T>>,
) -> Option<(Seat<T>, Vec<Seat<T>>)>
    requires desk { All (λ s. s.desk ≡ desk.now) seats.items }
    requires feeds { All (λ s. s.feeds ≡ drivers.now.items) seats.items }
    ensures seat { IfSome result (λ r. (r.0.desk ≡ desk.now) × (r.0.feeds ≡ drivers.now.items)) }
    ensures desk { IfSome result (λ r. All (λ s. s.desk ≡ desk.now) r.1.items) }
    ensures feeds { IfSome result (λ r. All (λ s. s.feeds ≡ drivers.now.items) r.1.items) }
{
    let seat = seats.pop()?;
    Some((seat, seats))
}

/// A request for a call, by borrowed bytes.
#[derive(Clone, Copy)]
pub(crate) enum Asked<'a> {
    /// A handler is read.
    Read(&'a [u8]),
    /// A handler is written, with a text.
    Write(&'a [u8], &'a [u8]),
    /// The configuration of a text is installed.
    Swap(&'a [u8]),
}

/// Returns the call for a request.
pub(crate) fn call_of(alloc: Global, asked: Asked<'_>) -> Result<Call, AllocError>
    ensures { IfOk result (λ call. is_poll call ≡ false) }
{
    match asked {
        Asked::Read(name) => Ok(Call::Read {
            name: Sequence::copy_of(alloc, name)?,
            text: Sequence::of(Vec::new(alloc)),
        }),
        Asked::Write(name, text) => Ok(Call::Write {
            name: Sequence::copy_of(alloc, name)?,
            text: Sequence::copy_of(alloc, text)?,
        }),
        Asked::Swap(text) => Ok(Call::Swap {
            text: Sequence::copy_of(alloc, text)?,
        }),
    }
}

/// Makes a call through a seat and returns the reply, or nothing if the call was refused.
pub(crate) fn call<T: Handlers, R: Wait>(
    rt: &R,
    alloc: Global,
    desk: &Desk<T, &R>,
    seat: &mut Seat<T>,
    asked: Asked<'_>,
) -> Option<Reply>
    requires { seat.old.desk ≡ desk.now }
    ensures { seat.new.desk ≡ desk.now }
{
    match call_of(alloc, asked) {
        Ok(call) => desk.call(rt, seat, call).ok(),
        Err(_) => None,
    }
}

/// Closes a desk with all of its seats.
fn close_with<T: Drop, R: Wait>(
    rt: &R,
    desk: Desk<T, &R>,
    drivers: &Vec<Driver>,
    seats: Vec<Seat<T>>,
) -> Option<Book<T>>
    requires seats { All (λ s. (s.desk ≡ desk) × (s.feeds ≡ drivers.now.items)) seats.items }
    requires some { 0 < vec_len seats }
    ensures board { IfSome result (λ b. b.board ≡ desk.entry.options.origin) }
    ensures feeds { IfSome result (λ b. map name_of b.consumers ≡ drivers.now.items) }
{
    match desk.close(rt, seats) {
        Ok(book) => Some(book),
        Err(_refused) => None,
    }
}

/// Closes a desk with its only seat.
pub(crate) fn close<T: Drop, R: Wait>(
    rt: &R,
    alloc: Global,
    desk: Desk<T, &R>,
    drivers: &Vec<Driver>,
    seat: Seat<T>,
) -> Option<Book<T>>
    requires { (seat.desk ≡ desk) × (seat.feeds ≡ drivers.now.items) }
    ensures board { IfSome result (λ b. b.board ≡ desk.entry.options.origin) }
    ensures feeds { IfSome result (λ b. map name_of b.consumers ≡ drivers.now.items) }
{
    let mut seats = Vec::with_capacity(alloc, 1).ok()?;
    seats.push_reserved(seat);
    close_with(rt, desk, drivers, seats)
}
