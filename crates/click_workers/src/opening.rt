//! The opening of a run's desk.

ghost use Rattle.std.specs.Prelude.{◌≡◌, ◌∷◌, [], IfOk, IfErr, IfSome, length, option_map, true};
ghost use Rattle.boxcar.specs.Table.{Shelves};
ghost use Rattle.std.specs.List.{All};
ghost use Rattle.click_desk.specs.Openings.{IsViewFault};
ghost use Rattle.click_desk.specs.SeatStates.{seats_below};
ghost use Rattle.click_rings.specs.Feeds.{have_distinct_devices};
ghost use Rattle.click_workers.specs.Runs.{IsOpenedFor, views_for};

use crate::checking::Asked;
use click_desk::{Desk, OpenFault, OpenRefused, Seat, View};
use click_rings::Inlet;
use std::alloc::Global;
use std::sync::Wait;

/// How a run's desk is opened, and the handler that is checked at the end.
#[derive(Clone, Copy)]
pub struct Opening<'a> {
    /// The configuration.
    pub text: &'a [u8],
    /// The maximum number of entries of the history. `None`: a live desk, whose history has no
    /// bound and is not stored.
    pub room: Option<usize>,
    /// The name of the handler that is checked at the end: a view answers whether it can be read.
    pub check: Option<&'a [u8]>,
}

/// A desk with new seats, and the check to make at the end.
pub(crate) struct Opened<'a, 'b, T, R: Wait> {
    pub(crate) desk: Desk<T, &'a R>,
    pub(crate) seats: Vec<Seat<T>>,
    pub(crate) asked: Option<Asked<'b>>,
}

/// Pairs the name that is to be checked with its view. There is a view if and only if there is a
/// name.
fn asked_of<'a>(check: Option<&'a [u8]>, mut views: Vec<View>) -> Option<Asked<'a>>
    requires { length views.items ≡ views_for (option_map (λ n. n.now) check) }
    ensures name { option_map (λ a. a.name.now) result ≡ option_map (λ n. n.now) check.entry }
    ensures view { (board : Shelves) → All (λ v. v.board ≡ board) views.items → IfSome result (λ a. a.view.board ≡ board) }
{
    match check {
        None => None,
        Some(name) => match views.pop() {
            Some(view) => Some(Asked { view, name }),
            None => unreachable!(),
        },
    }
}

/// Returns the number of views that the check needs: 1 if there is a name, otherwise 0.
fn views_asked(check: Option<&[u8]>) -> usize
    ensures { result ≡ views_for (option_map (λ n. n.now) check.entry) }
{
    match check {
        None => 0,
        Some(_) => 1,
    }
}

/// Opens a desk with the given numbers of seats and views. If `opening` has a room, the desk has a
/// book of at most that many entries; otherwise it is live.
fn open_for<'a, T: Drop, R: Wait>(
    rt: &'a R,
    alloc: Global,
    table: T,
    opening: Opening,
    seats: usize,
    inlets: Vec<Inlet>,
    views: usize,
) -> Result<(Desk<T, &'a R>, Vec<Seat<T>>, Vec<View>), OpenRefused<T>>
    ensures desk { IfOk result (λ r. IsOpenedFor opening.entry.room opening.entry.text.now seats r.0) }
    ensures seats { IfOk result (λ r. (r.1.items ≡ seats_below r.0 inlets.items seats) × All (λ s. s.desk ≡ r.0) r.1.items) }
    ensures apart { IfOk result (λ r. have_distinct_devices inlets.items ≡ true) }
    ensures views { IfOk result (λ r. (length r.2.items ≡ views) × All (λ v. v ≡ record { board = r.0.options.origin; list = opening.entry.text.now ∷ [] }) r.2.items) }
    ensures fault { IfErr result (λ r. IsViewFault seats inlets.items views opening.entry.text.now r.fault) }
{
    let Opening {
        text,
        room,
        check: _,
    } = opening;
    match room {
        Some(room) => { Desk::open_with_views(rt, alloc, table, text, room, seats, inlets, views) }
        None => Desk::open_live(rt, alloc, table, text, seats, inlets, views),
    }
}

/// Opens a desk with new seats, and with a view if a handler is to be checked.
pub(crate) fn open_with<'a, 'b, T: Drop, R: Wait>(
    rt: &'a R,
    alloc: Global,
    table: T,
    opening: Opening<'b>,
    seats: usize,
    inlets: Vec<Inlet>,
) -> Result<Opened<'a, 'b, T, R>, OpenFault>
    ensures desk { IfOk result (λ o. IsOpenedFor opening.entry.room opening.entry.text.now seats o.desk) }
    ensures seats { IfOk result (λ o. (o.seats.items ≡ seats_below o.desk inlets.items seats) × All (λ s. s.desk ≡ o.desk) o.seats.items) }
    ensures apart { IfOk result (λ o. have_distinct_devices inlets.items ≡ true) }
    ensures name { IfOk result (λ o. option_map (λ a. a.name.now) o.asked ≡ option_map (λ n. n.now) opening.entry.check) }
    ensures view { IfOk result (λ o. IfSome o.asked (λ a. a.view.board ≡ o.desk.options.origin)) }
    ensures fault { IfErr result (IsViewFault seats inlets.items (views_for (option_map (λ n. n.now) opening.entry.check)) opening.entry.text.now) }
{
    let views = views_asked(opening.check);
    match open_for(rt, alloc, table, opening, seats, inlets, views) {
        Ok((desk, seats, views)) => Ok(Opened {
            desk,
            seats,
            asked: asked_of(opening.check, views),
        }),
        Err(refused) => Err(refused.fault),
    }
}
