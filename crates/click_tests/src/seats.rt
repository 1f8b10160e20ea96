//! Two seats of one desk, each in a thread of its own, and the book of their calls.

ghost use Rattle.std.specs.Prelude.{◌≡◌};
ghost use Rattle.std.specs.Thread.{IsSync};

use crate::cases::{Case, assert_case};
use crate::desks::{Asked, Opened, call, last_seat, open};
use click_desk::{Book, Desk, Entry, Seat};
use click_router::{Call, CompactReply, Handlers, Reply};
use std::alloc::Global;
use std::sync::Wait;
use std::test::Fail;
use std::thread::{self, Threads};

const SWITCH: &[u8] = b"Idle -> s :: Switch(0) -> Discard; s [1] -> Discard;";

/// The number of times that each thread writes and reads.
const TIMES: usize = 100;

/// Returns what a seat writes in its turn of that number.
fn text_of(turn: usize) -> &'static [u8] {
    if turn % 2 == 0 { b"1" } else { b"0" }
}

/// Writes and reads in turn. Returns the seat, and whether each call was answered.
fn write_and_read<T: Handlers, R: Wait>(
    rt: &R,
    alloc: Global,
    desk: &Desk<T, &R>,
    mut seat: Seat<T>,
) -> (Seat<T>, bool)
    requires { seat.desk ≡ desk.now }
    ensures { result.0.desk ≡ desk.now }
{
    let mut good = true;
    for turn in 0..TIMES {
        let write = Asked::Write(b"s.switch", text_of(turn));
        let written = call(rt, alloc, desk, &mut seat, write);
        let read = call(rt, alloc, desk, &mut seat, Asked::Read(b"s.switch"));
        let answered = matches!(written, Some(Reply::Done)) & matches!(read, Some(Reply::Value(_)));
        good = good & answered;
    }
    (seat, good)
}

/// Writes and reads through both seats at once.
fn both<T: Handlers + Send + Drop, R: Threads + Wait + Sync>(
    rt: &R,
    alloc: Global,
    desk: &Desk<T, &R>,
    one: Seat<T>,
    other: Seat<T>,
) -> ((Seat<T>, bool), (Seat<T>, bool))
    requires { (one.desk ≡ desk.now) × (other.desk ≡ desk.now) }
    ensures { (result.0.0.desk ≡ desk.now) × (result.1.0.desk ≡ desk.now) }
{
    thread::join(
        rt,
        move || -> (Seat<T>, bool)
            requires { IsSync R.row × (one.desk ≡ desk.now) }
            ensures { result.0.desk ≡ desk.entry.now }
        { write_and_read(rt, alloc, desk, one) },
        move || -> (Seat<T>, bool)
            requires { IsSync R.row × (other.desk ≡ desk.now) }
            ensures { result.0.desk ≡ desk.entry.now }
        { write_and_read(rt, alloc, desk, other) },
    )
}

/// Returns whether an entry is the nth of a seat that writes and reads in turn.
fn is_turn(entry: &Entry, nth: usize) -> bool {
    match &entry.call {
        Call::Write { name, text } => {
            nth % 2 == 0
                && name.as_slice() == b"s.switch".as_slice()
                && text.as_slice() == text_of(nth / 2)
        }
        Call::Read { name, .. } => nth % 2 == 1 && name.as_slice() == b"s.switch".as_slice(),
        _ => false,
    }
}

/// Returns whether the entries of a seat are all its calls, in their order.
fn has_turns(entries: &[Entry], seat: usize) -> bool {
    let mut next: usize = 0;
    for entry in entries {
        if entry.seat == seat {
            if !is_turn(entry, next) {
                return false;
            }
            next = next.saturating_add(1);
        }
    }
    next == 2 * TIMES
}

/// Returns whether each read has what the last write before it wrote.
fn are_of_one_thread(entries: &[Entry]) -> bool {
    let mut switch: &[u8] = b"0";
    for entry in entries {
        match (&entry.call, entry.reply.compact()) {
            (Call::Write { text, .. }, CompactReply::Done) => switch = text.as_slice(),
            (Call::Read { .. }, CompactReply::Value(value)) if value.as_slice() == switch => {}
            _ => return false,
        }
    }
    true
}

/// Returns whether the book has all calls of both seats, and each seat has its own.
fn has_all<T>(book: &Book<T>) -> bool {
    let entries = book.entries.as_slice();
    (entries.len() == 400)
        & has_turns(entries, 0)
        & has_turns(entries, 1)
        & are_of_one_thread(entries)
        & book.seats.iter().all(|s| s.calls().len() == 200)
}

/// Closes a desk with both of its seats.
fn close_both<T: Drop, R: Wait>(
    rt: &R,
    alloc: Global,
    desk: Desk<T, &R>,
    one: Seat<T>,
    other: Seat<T>,
) -> Option<Book<T>>
    requires { (one.desk ≡ desk) × (other.desk ≡ desk) }
{
    let mut seats = Vec::with_capacity(alloc, 2).ok()?;
    seats.push_reserved(one);
    seats.push_reserved(other);
    desk.close(rt, seats).ok()
}

/// Opens a desk with two seats, which work at once, and looks at its book.
pub(crate) fn two_seats<T: Handlers + Send + Drop, R: Threads + Wait + Sync>(
    rt: &R,
    alloc: Global,
    table: T,
) -> Option<bool> {
    let Opened {
        desk,
        seats,
        views: _,
        drivers,
    } = open(rt, alloc, table, SWITCH, 2, 0, b"")?;
    let (other, seats) = last_seat(&desk, &drivers, seats)?;
    let (one, _none) = last_seat(&desk, &drivers, seats)?;
    let numbered = (one.number() == 0) & (other.number() == 1);
    let ((one, good), (other, fine)) = both(rt, alloc, &desk, one, other);
    let book = close_both(rt, alloc, desk, one, other)?;
    Some(numbered & good & fine & has_all(&book))
}

/// Two seats in two threads make 200 calls each; the book has the calls of each seat in order, and
/// each read returns what was last written before it.
#[test]
fn two_threads_share_a_router(rt: HostRuntime) -> Result<(), Fail> {
    assert_case(&rt, rt.alloc(), None, Case::TwoSeats)
}
