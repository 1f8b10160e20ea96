//! The forwarder thread of a run of links.

ghost use Rattle.std.specs.Prelude.{◌≡◌};
ghost use Rattle.click_links.specs.Endings.{fault_in};

use crate::cycles::{AfterSweep, MAX_FINAL_CYCLES, finding_of, left_after};
use crate::forwarder::RunStart;
use crate::link::Outbound;
use crate::pause::Pause;
use crate::sharing::{SharedSweep, Sweeper};
use click_desk::DeskFault;
use click_router::Handlers;
use std::sync::Wait;
use std::sync::atomic::{AtomicBool, Ordering};

/// The maximum duration of the forwarder's first sleep, in microseconds.
const MIN_SLEEP_US: u64 = 200;

/// The maximum duration of a sleep of the forwarder, in microseconds. A receiver wakes it earlier;
/// other threads that give a device packets do not.
const MAX_SLEEP_US: u64 = 20_000;

/// Returns the fault with which a sweep failed, if one was made and failed.
fn fault_of(made: Option<SharedSweep>) -> Option<DeskFault>
    ensures { result ≡ fault_in made }
{
    made?.swept.err()
}

/// Sweeps until the run is over and no work is left. Returns the fault for which it ended, if any.
/// After the run is over it makes at most 256 sweeps.
///
/// If the history is full it ends at once, and stops the receivers. It sleeps after a sweep that
/// found no work or failed with out of memory, and while a receiver sweeps. A sweep that fails with
/// out of memory ends it if the run is over.
pub(crate) fn run_forwarder<T: Handlers, S: Outbound, R: Wait, B: RunStart>(
    sweeper: &Sweeper<'_, '_, T, S, R, B>,
    stop: &AtomicBool,
) -> Option<DeskFault> {
    let mut pause = Pause::between(MIN_SLEEP_US, MAX_SLEEP_US);
    let mut left = MAX_FINAL_CYCLES;
    for _ in sweeper.rt.forever() {
        // This is read before the sweep, so that the packets that came last still go out.
        let over = sweeper.shared.are_over(stop);
        let made = sweeper.sweep();
        left = left_after(left, over);
        match AfterSweep::after(finding_of(&made), over, left == 0) {
            AfterSweep::Sweep => pause.begin_anew(),
            AfterSweep::Sleep => sweeper.sleep(&mut pause),
            AfterSweep::End => {
                stop.store(true, Ordering::SeqCst);
                return fault_of(made);
            }
        }
    }
    unreachable!()
}
