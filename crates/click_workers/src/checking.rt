//! The close of a run's desk, and the check of a handler that is made then.

ghost use Rattle.std.specs.Prelude.{◌≡◌, ◌<◌, List, ℕ, length, option_map, IfSome};
ghost use Rattle.std.specs.List.{All};
ghost use Rattle.click_desk.specs.Closing.{Closes, IsEachOnce};
ghost use Rattle.click_desk.specs.History.{installs};
ghost use Rattle.click_desk.specs.SeatStates.{IsSeat};
ghost use Rattle.click_views.specs.Showing.{BeginsWith};
ghost use Rattle.click_workers.specs.Runs.{Answers, IsChecked};

use click_desk::{Book, Desk, Seat, View};
use click_router::Check;
use std::sync::Wait;

/// The name of a handler, and the view that checks whether it can be read.
#[derive(Drop)]
pub(crate) struct Asked<'a> {
    pub(crate) view: View,
    pub(crate) name: &'a [u8],
}

/// Lets the view learn the notice of each seat.
fn learn_all<T>(view: &mut View, seats: &[Seat<T>])
    requires { All (λ s. s.desk.options.origin ≡ view.old.board) seats.now }
    ensures board { view.new.board ≡ view.old.board }
    ensures told { All (λ s. IsSeat s × BeginsWith view.new.list (installs s.desk.options.opening s.seen)) seats.now }
{
    for at in 0..seats.len() {
        view.learn(seats[at].notice());
    }
}

/// Closes a desk with all its seats.
pub(crate) fn close_all<T: Drop, R: Wait>(rt: &R, desk: Desk<T, &R>, seats: Vec<Seat<T>>) -> Book<T>
    requires seats { All (λ s. s.desk ≡ desk) seats.items }
    requires once { IsEachOnce desk.options.seats seats.items }
    ensures { Closes desk.entry seats.items result }
{
    match desk.close(rt, seats) {
        Ok(book) => book,
        Err(_) => unreachable!(),
    }
}

/// Closes a desk with all its seats, and checks whether the handler can be read. The check is for
/// the last configuration that was installed.
fn close_and_answer<T: Drop, R: Wait>(
    rt: &R,
    desk: Desk<T, &R>,
    seats: Vec<Seat<T>>,
    asked: Asked,
) -> (Book<T>, Check)
    requires seats { All (λ s. s.desk ≡ desk) seats.items }
    requires once { IsEachOnce desk.options.seats seats.items }
    requires some { 0 < length seats.items }
    requires view { asked.view.board ≡ desk.options.origin }
    ensures closes { Closes desk.entry seats.items result.0 }
    ensures checked { Answers asked.entry.name.now result.0 result.1 }
{
    let Asked { mut view, name } = asked;
    learn_all(&mut view, seats.as_slice());
    let book = close_all(rt, desk, seats);
    let check = view.check_read(name);
    book.meet(&view);
    (book, check)
}

/// Closes a desk with all its seats, and makes the check if one is asked for.
pub(crate) fn close_and_check<T: Drop, R: Wait>(
    rt: &R,
    desk: Desk<T, &R>,
    seats: Vec<Seat<T>>,
    asked: Option<Asked>,
) -> (Book<T>, Option<Check>)
    requires seats { All (λ s. s.desk ≡ desk) seats.items }
    requires once { IsEachOnce desk.options.seats seats.items }
    requires some { 0 < length seats.items }
    requires view { IfSome asked (λ a. a.view.board ≡ desk.options.origin) }
    ensures closes { Closes desk.entry seats.items result.0 }
    ensures checked { IsChecked (option_map (λ a. a.name.now) asked.entry) result.0 result.1 }
{
    match asked {
        Some(asked) => {
            let (book, check) = close_and_answer(rt, desk, seats, asked);
            (book, Some(check))
        }
        None => (close_all(rt, desk, seats), None),
    }
}
