//! Additional work at a desk, alongside its sessions and drivers.

use crate::seat_group::SeatGroup;
use click_desk::Desk;
use click_router::Handlers;
use std::alloc::Global;
use std::sync::Wait;
use std::sync::atomic::AtomicBool;
use std::thread::Threads;

/// Additional work: one thread at a desk, alongside its sessions and drivers, with seats of its
/// own.
pub trait Companion<T: Handlers + Send + Drop>: Send + Drop {
    ghost use Rattle.std.specs.Prelude.{◌≡◌};
    ghost use Rattle.std.specs.List.{All, AllZip};
    ghost use Rattle.std.specs.Thread.{IsSync};
    ghost use Rattle.click_workers.specs.Seats.{SameSeat};

    /// The seats that it uses.
    type Seats: SeatGroup<T>;

    /// Its result.
    type Done: Send + Drop;

    /// What it does: its seats before and after, and its result.
    ghost does: { Self → Self.Seats → Self.Seats → Self.Done → Type 0 };

    /// Works until `stop` is set, or ends earlier. Returns the result and the seats.
    fn work<R: Threads + Wait + Sync>(
        self,
        rt: &R,
        alloc: Global,
        desk: &Desk<T, &R>,
        seats: Self::Seats,
        stop: &AtomicBool,
    ) -> (Self::Done, Self::Seats)
        requires shared { IsSync R.row }
        requires of { All (λ s. s.desk ≡ desk.now) (Self.Seats.sittings seats) }
        ensures same { AllZip SameSeat (Self.Seats.sittings seats) (Self.Seats.sittings result.1) }
        ensures does { does self seats result.1 result.0 };
}

/// Additional work that does nothing and has no seat.
#[derive(Drop)]
pub struct NoCompanion;

impl<T: Handlers + Send + Drop> Companion<T> for NoCompanion {
    type Seats = ();

    type Done = ();

    ghost does = { λ _ _ _ _. Unit {0} };

    fn work<R: Threads + Wait + Sync>(
        self,
        _rt: &R,
        _alloc: Global,
        _desk: &Desk<T, &R>,
        _seats: (),
        _stop: &AtomicBool,
    ) -> ((), ()) {
        ((), ())
    }
}
