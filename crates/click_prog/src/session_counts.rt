//! The counts of sessions.

use std::sync::atomic::{AtomicU64, Ordering};

/// The numbers of sessions over TCP that have begun and that have ended.
///
/// Any thread may change and read them. No contract mentions their values.
#[derive(Drop)]
pub struct SessionCounts {
    begun: AtomicU64,
    ended: AtomicU64,
}

impl SessionCounts {
    /// Returns counts of zero.
    pub fn new() -> SessionCounts {
        SessionCounts {
            begun: AtomicU64::new(0),
            ended: AtomicU64::new(0),
        }
    }

    /// Counts a session that begins, and returns its number, from 1.
    pub fn begins(&self) -> u64 {
        self.begun.fetch_add(1, Ordering::SeqCst).saturating_add(1)
    }

    /// Counts the end of a session that has begun.
    pub fn ends(&self) {
        self.ended.fetch_add(1, Ordering::SeqCst);
    }

    /// Returns the number of sessions that have begun.
    pub fn begun(&self) -> u64 {
        self.begun.load(Ordering::SeqCst)
    }

    /// Returns the number of sessions that have begun and not ended.
    pub fn open(&self) -> u64 {
        // This is read first, so that it is never the greater number.
        let ended = self.ended.load(Ordering::SeqCst);
        self.begun().saturating_sub(ended)
    }
}
