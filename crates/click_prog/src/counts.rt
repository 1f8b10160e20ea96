//! Printing the counts of links.

use click_links::{CountSnapshot, Device};
use itoa::Buffer;
use std::io::{self, Write};
use std::sync::Wait;
use std::sync::atomic::{AtomicBool, Ordering};
use std::thread::Parker;
use std::time::Duration;

/// Whether a run has ended, and the parker at which the printing thread sleeps until then.
#[derive(Drop)]
pub struct Ending {
    ended: AtomicBool,
    wake: Parker,
}

impl Ending {
    /// Returns the state of a run that has not ended.
    pub fn new() -> Ending {
        Ending {
            ended: AtomicBool::new(false),
            wake: Parker::new(),
        }
    }

    /// Records that the run has ended, and wakes the printing thread.
    pub fn set(&self) {
        self.ended.store(true, Ordering::SeqCst);
        self.wake.unpark();
    }
}

/// Prints the counts of each link every `seconds` seconds until the run has ended. Prints nothing
/// if `seconds` is 0.
pub fn tell_on<W: Write, R: Wait>(
    rt: &R,
    to: &mut W,
    devices: &[Device],
    seconds: u64,
    ending: &Ending,
) {
    if seconds == 0 {
        return;
    }
    for _ in rt.forever() {
        ending.wake.park_timeout(rt, Duration::from_secs(seconds));
        if ending.ended.load(Ordering::SeqCst) {
            return;
        }
        tell_counts(to, devices);
    }
}

/// Prints the counts of each link.
pub fn tell_counts<W: Write>(to: &mut W, devices: &[Device]) {
    for device in devices {
        // A failed write does not affect the run.
        let _ = write_counts(to, device.name.as_slice(), device.counts.read());
    }
}

/// Writes the counts of a link as a line.
fn write_counts<W: Write>(to: &mut W, name: &[u8], counted: CountSnapshot) -> io::Result<()> {
    to.write_all(b"link ")?;
    to.write_all(name)?;
    let counts: [(&[u8], u64); 8] = [
        (b": received ", counted.received),
        (b", from elsewhere ", counted.strangers),
        (b", too long ", counted.too_long),
        (b", no room ", counted.no_room),
        (b", no memory ", counted.no_memory),
        (b", entered ", counted.entered),
        (b", sent ", counted.sent),
        (b", failed ", counted.failed),
    ];
    for (what, count) in counts {
        to.write_all(what)?;
        to.write_all(Buffer::new().format(count).as_bytes())?;
    }
    to.write_all(b"\n")
}
