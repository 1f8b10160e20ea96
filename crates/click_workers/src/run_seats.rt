//! The seats of a run with additional work, from the opening of the desk to its close.

ghost use Rattle.std.specs.Prelude.{◌≡◌, ◌⊎◌, ◌<◌, ◌≤◌, ◌+◌, ◌++◌, ℕ, List, Option, IfOk, IfErr, IfSome, length, map, option_map, true, vec_len, vec_capacity};
ghost use Rattle.std.specs.List.{All, AllZip};
ghost use Rattle.std.specs.Thread.{IsSend, IsSync};
ghost use Rattle.click_rings.specs.Feeds.{FeedName, name_of, have_distinct_devices};
ghost use Rattle.click_desk.specs.Openings.{IsViewFault};
ghost use Rattle.click_workers.specs.Beside.{seats_from};
ghost use Rattle.click_workers.specs.Runs.{HeadlineWith, IsChecked, IsOpenedFor, views_for};
ghost use Rattle.click_workers.specs.Seats.{IsOf, SameSeat};
ghost use Rattle.click_workers.specs.Work.{AttendedInTurn, DroveFor, Ready, StayOf, Worked, numbers_below};

use crate::checking::{Asked, close_and_check};
use crate::companion::Companion;
use crate::door::Door;
use crate::gate::Gate;
use crate::opening::{Opened, Opening, open_with};
use crate::runs::AllRan;
use crate::seat_group::SeatGroup;
use crate::service::Service;
use crate::work::{Work, work_all};
use click_desk::{Desk, OpenFault};
use click_rings::Inlet;
use click_router::Handlers;
use std::alloc::Global;
use std::sync::Wait;
use std::sync::atomic::{AtomicBool, Ordering};
use std::thread;
use std::thread::Threads;

/// The seats of a run. They are those of its session slots and drivers, with their outcomes, and
/// those of the additional work.
#[derive(Drop)]
pub(crate) struct RunSeats<T, H> {
    pub(crate) work: Work<T>,
    pub(crate) beside: H,
}

/// A desk with new seats, and the check to make at the end.
pub(crate) struct OpenedRun<'a, 'b, T, H, R: Wait> {
    pub(crate) desk: Desk<T, &'a R>,
    pub(crate) run_seats: RunSeats<T, H>,
    pub(crate) asked: Option<Asked<'b>>,
}

/// Opens a desk with new seats, and reserves room for every outcome.
///
/// After this, nothing can make the run fail.
pub(crate) fn begin<'a, 'b, T: Drop, H: SeatGroup<T>, R: Wait>(
    rt: &'a R,
    alloc: Global,
    table: T,
    opening: Opening<'b>,
    sessions: usize,
    workers: usize,
    inlets: Vec<Inlet>,
) -> Result<OpenedRun<'a, 'b, T, H, R>, OpenFault>
    requires { sessions + workers + H.many ≤ 256 }
    ensures desk { IfOk result (λ b. IsOpenedFor opening.entry.room opening.entry.text.now (sessions + workers + H.many) b.desk) }
    ensures count { IfOk result (λ b. vec_len b.run_seats.work.seats ≡ sessions + workers) }
    ensures of { IfOk result (λ b. All (IsOf b.desk inlets.items) b.run_seats.work.seats.items) }
    ensures ready { IfOk result (λ b. Ready b.desk sessions (vec_len b.run_seats.work.seats) b.run_seats.work.seats.items b.run_seats.work.ended.items b.run_seats.work.drivers.items (vec_capacity b.run_seats.work.ended) (vec_capacity b.run_seats.work.drivers)) }
    ensures room { IfOk result (λ b. vec_len b.run_seats.work.seats + H.many ≤ vec_capacity b.run_seats.work.seats) }
    ensures beside { IfOk result (λ b. H.sittings b.run_seats.beside ≡ seats_from b.desk inlets.items (sessions + workers) H.many) }
    ensures apart { IfOk result (λ b. have_distinct_devices inlets.items ≡ true) }
    ensures name { IfOk result (λ b. option_map (λ a. a.name.now) b.asked ≡ option_map (λ n. n.now) opening.entry.check) }
    ensures view { IfOk result (λ b. IfSome b.asked (λ a. a.view.board ≡ b.desk.options.origin)) }
    ensures fault { IfErr result (λ f. (f ≡ OpenFault.NoMemory) ⊎ IsViewFault (sessions + workers + H.many) inlets.items (views_for (option_map (λ n. n.now) opening.entry.check)) opening.entry.text.now f) }
{
    let Ok(ended) = Vec::with_capacity(alloc, sessions) else {
        return Err(OpenFault::NoMemory);
    };
    let Ok(drivers) = Vec::with_capacity(alloc, workers) else {
        return Err(OpenFault::NoMemory);
    };
    let many = H::with_others(sessions + workers);
    let Opened {
        desk,
        mut seats,
        asked,
    } = match open_with(rt, alloc, table, opening, many, inlets) {
        Ok(opened) => opened,
        Err(fault) => return Err(fault),
    };
    let beside = H::take(&mut seats);
    let work = Work {
        seats,
        ended,
        drivers,
    };
    let run_seats = RunSeats { work, beside };
    Ok(OpenedRun {
        desk,
        run_seats,
        asked,
    })
}

/// Serves the sessions and runs the drivers, with the additional work in parallel. Requests the
/// additional work to stop once every slot has served its sessions and every driver has ended.
pub(crate) fn serve_with_companion<
    T: Handlers + Send + Drop,
    D: Door,
    G: Gate,
    B: Companion<T>,
    R: Threads + Wait + Sync,
>(
    rt: &R,
    desk: &Desk<T, &R>,
    door: &D,
    gate: &G,
    service: &Service,
    beside: B,
    run_seats: RunSeats<T, B::Seats>,
) -> (RunSeats<T, B::Seats>, B::Done)
    requires ready { Ready desk.now service.now.sessions (vec_len run_seats.work.seats) run_seats.work.seats.items run_seats.work.ended.items run_seats.work.drivers.items (vec_capacity run_seats.work.ended) (vec_capacity run_seats.work.drivers) }
    requires turns { 0 < service.now.turns }
    requires of { All (λ s. s.desk ≡ desk.now) (B.Seats.sittings run_seats.beside) }
    ensures desk { StayOf desk.now run_seats.work.seats.items result.0.work.seats.items }
    ensures worked { Worked (AttendedInTurn D.lets_in D.Reader.input D.Writer.output G.gives G.told door.now gate.now service.now.readonly service.now.turns)
        (DroveFor G.gives G.told gate.now service.now.rounds) service.now.sessions (vec_len run_seats.work.seats) result.0.work.seats.items result.0.work.ended.items result.0.work.drivers.items }
    ensures room { vec_capacity run_seats.work.seats ≤ vec_capacity result.0.work.seats }
    ensures same { AllZip SameSeat (B.Seats.sittings run_seats.beside) (B.Seats.sittings result.0.beside) }
    ensures does { B.does beside run_seats.beside result.0.beside result.1 }
{
    let stop = &AtomicBool::new(false);
    let RunSeats {
        work,
        beside: seats,
    } = run_seats;
    let ((done, seats), work) = thread::join(
        rt,
        move || -> (B::Done, B::Seats)
            requires { IsSync R.row × IsSend T.row × IsSend B.row × All (λ s. s.desk ≡ desk.now) (B.Seats.sittings seats) }
            ensures { AllZip SameSeat (B.Seats.sittings seats) (B.Seats.sittings result.1) × B.does beside seats result.1 result.0 }
        { beside.work(rt, service.alloc, desk, seats, stop) },
        move || -> Work<T>
            requires { IsSync R.row × IsSync D.row × IsSync G.row × IsSend T.row × Ready desk.now service.now.sessions (vec_len work.seats) work.seats.items work.ended.items work.drivers.items (vec_capacity work.ended) (vec_capacity work.drivers) × (0 < service.now.turns) }
            ensures { StayOf desk.entry.now work.seats.items result.seats.items
                × Worked (AttendedInTurn D.lets_in D.Reader.input D.Writer.output G.gives G.told door.entry.now gate.entry.now service.entry.now.readonly service.entry.now.turns)
                (DroveFor G.gives G.told gate.entry.now service.entry.now.rounds) service.entry.now.sessions (vec_len work.seats) result.seats.items result.ended.items result.drivers.items
                × (vec_capacity work.seats ≤ vec_capacity result.seats) }
        {
            let done = work_all(rt, desk, door, gate, service, work);
            stop.store(true, Ordering::SeqCst);
            done
        },
    );
    let run_seats = RunSeats {
        work,
        beside: seats,
    };
    (run_seats, done)
}

/// Closes the desk with all its seats, and makes the check if one is asked for.
pub(crate) fn finish<T: Drop, H: SeatGroup<T>, R: Wait>(
    rt: &R,
    desk: Desk<T, &R>,
    run_seats: RunSeats<T, H>,
    asked: Option<Asked>,
) -> AllRan<T>
    requires seats { All (λ s. s.desk ≡ desk) (run_seats.work.seats.items ++ H.sittings run_seats.beside) }
    requires numbers { map (λ s. s.number) (run_seats.work.seats.items ++ H.sittings run_seats.beside) ≡ numbers_below desk.options.seats }
    requires some { 0 < vec_len run_seats.work.seats }
    requires room { vec_len run_seats.work.seats + length (H.sittings run_seats.beside) ≤ vec_capacity run_seats.work.seats }
    requires view { IfSome asked (λ a. a.view.board ≡ desk.options.origin) }
    ensures headline { (feeds : List FeedName) (room : Option ℕ) (text : List ℕ) (n : ℕ) → All (IsOf desk.entry feeds) (run_seats.work.seats.items ++ H.sittings run_seats.beside)
        → IsOpenedFor room text n desk.entry → HeadlineWith feeds room text n result.book × (map name_of result.book.consumers ≡ feeds) }
    ensures seats { result.book.seats ≡ run_seats.work.seats.items ++ H.sittings run_seats.beside }
    ensures rest { (result.ended.items ≡ run_seats.work.ended.items) × (result.drivers.items ≡ run_seats.work.drivers.items) }
    ensures checked { IsChecked (option_map (λ a. a.name.now) asked.entry) result.book result.checked }
{
    let RunSeats { work, beside } = run_seats;
    let Work {
        mut seats,
        ended,
        drivers,
    } = work;
    beside.give(&mut seats);
    let (book, checked) = close_and_check(rt, desk, seats, asked);
    AllRan {
        ended,
        drivers,
        book,
        checked,
    }
}
