//! The device of a link.

ghost use Rattle.std.specs.Prelude.{◌≡◌};

use crate::counts::Counts;
use click_base::sequence::Sequence;

/// A device of the configuration that has a link: its name, and the link's counts.
#[derive(Drop)]
pub struct Device {
    pub name: Sequence<u8>,
    pub counts: Counts,
}

impl Device {
    /// Returns the device of this name, with counts of zero.
    pub fn new(name: Sequence<u8>) -> Device
        ensures { result.name ≡ name }
    {
        Device {
            name,
            counts: Counts::new(),
        }
    }
}
