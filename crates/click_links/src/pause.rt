//! Sleep for a thread that found nothing to do, longer each time.

use std::sync::Wait;
use std::thread::Parker;
use std::time::Duration;

/// A sequence of sleeps, the maximum duration of each being twice that of the one before it, up to
/// a limit.
#[derive(Drop)]
pub struct Pause {
    next: u64,
    shortest: u64,
    longest: u64,
}

impl Pause {
    /// Returns a pause whose first sleep has at most `shortest` microseconds, and none more than
    /// `longest`.
    pub fn between(shortest: u64, longest: u64) -> Pause {
        Pause {
            next: shortest,
            shortest,
            longest,
        }
    }

    /// Sleeps until `wake` is signaled, or for the maximum duration.
    pub fn sleep<R: Wait>(&mut self, rt: &R, wake: &Parker) {
        wake.park_timeout(rt, Duration::from_micros(self.next));
        self.next = self.next.saturating_mul(2).min(self.longest);
    }

    /// Sleeps if `done` is 0. Otherwise makes the next sleep as short as the first.
    pub fn rest_after<R: Wait>(&mut self, rt: &R, wake: &Parker, done: u64) {
        if done == 0 {
            self.sleep(rt, wake);
        } else {
            self.begin_anew();
        }
    }

    /// Makes the next sleep as short as the first.
    pub fn begin_anew(&mut self) {
        self.next = self.shortest;
    }
}
