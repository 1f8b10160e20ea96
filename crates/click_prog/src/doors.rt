//! Doors for sessions that do not come over TCP.

use click_streams::{Reading, Writing};
use click_workers::{Door, Observer};
use std::io::{Stdin, Stdout};

/// A door that lets in only the first session, with standard input and output, whose failures are
/// recorded from then on.
#[derive(Drop)]
pub struct Standard {
    input: Stdin,
    output: Stdout,
}

impl Standard {
    pub fn new(input: Stdin, output: Stdout) -> Standard {
        Standard { input, output }
    }
}

impl Observer for Standard {}

impl Door for Standard {
    ghost use Rattle.std.specs.Prelude.{◌≡◌, Some, None, false};

    ghost lets_in = { λ door who got. (who ≡ 1 → got ≡ Some (record { device = door.input; failed = false; reads = 0 }, record { device = door.output; failed = false }))
        × ((who ≡ 1 → ⊥) → got ≡ None) };

    type Reader = Reading<Stdin>;

    type Writer = Writing<Stdout>;

    fn enter(&self, who: usize) -> Option<(Reading<Stdin>, Writing<Stdout>)> {
        if who != 1 {
            return None;
        }
        Some((Reading::new(self.input), Writing::new(self.output)))
    }
}
