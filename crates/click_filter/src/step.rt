//! A step of a program.

ghost use Rattle.std.specs.Prelude.{◌≡◌};

use crate::test::Test;

/// A test, and the targets for both outcomes.
///
/// Targets 0 to 255 are outputs, and target 256 drops the packet. Target `257 + n` is the step with
/// index n, which is older than this one.
#[derive(Clone, Copy, Debug, PartialEq, Eq)]
pub struct Step {
    pub test: Test,
    pub yes: u16,
    pub no: u16,
}

impl Step {
    ghost use Rattle.click_filter.specs.kept.Steps.{next};

    /// Returns the target to which the step leads a packet.
    #[inline(always)]
    pub fn next(&self, packet: &[u8]) -> u16
        ensures { result ≡ next self.now packet.now }
    {
        if self.test.holds(packet) {
            self.yes
        } else {
            self.no
        }
    }
}
