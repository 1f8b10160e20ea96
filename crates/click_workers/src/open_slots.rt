//! The session slots of a run that are still serving.

use std::sync::atomic::{AtomicUsize, Ordering};

/// The number of session slots that have not served all their sessions yet. No contract mentions
/// it: drivers may stop at any time.
#[derive(Drop)]
pub(crate) struct OpenSlots {
    serving: AtomicUsize,
}

impl OpenSlots {
    pub(crate) fn new(serving: usize) -> OpenSlots {
        OpenSlots {
            serving: AtomicUsize::new(serving),
        }
    }

    /// Records that a slot has served all its sessions.
    pub(crate) fn leave(&self) {
        self.serving.fetch_sub(1, Ordering::SeqCst);
    }

    /// Returns whether every slot has served all its sessions.
    pub(crate) fn have_ended(&self) -> bool {
        self.serving.load(Ordering::SeqCst) == 0
    }
}
