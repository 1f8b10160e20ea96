//! Observers of sessions and pages: what is reported when a session begins, makes a call, and ends,
//! and when a page makes a call.

use arrayvec::ArrayVec;
use click_control::{AskFault, Ended, ServeFault};
use click_router::{Call, StoredReply};

/// The maximum number of bytes of a handler's name in a summary.
pub const MAX_NAME_BYTES: usize = 64;

/// What is notified of sessions, or of a page. No contract mentions it.
///
/// The thread of each session or page calls it, and waits until it returns. Without an
/// implementation nothing is observed.
pub trait Observer: Sync {
    /// Called when a session begins in the session slot `slot`, from 1. Returns the record in which
    /// the calls of the session are counted. If it returns `None`, no call of the session is
    /// reported or counted.
    fn session_begins(&self, _slot: usize) -> Option<SessionRecord> {
        None
    }

    /// Called when a call of a session or page is answered, before the reply is written. The record
    /// counts this call too.
    fn call_answered(
        &self,
        _record: &SessionRecord,
        _summary: &CallSummary,
        _answered: &Result<StoredReply, AskFault>,
    ) {}

    /// Called when a session has ended, with its record if it has one.
    fn session_ends(&self, _ended: &Result<Ended, ServeFault>, _record: Option<&SessionRecord>) {}
}

/// An observer that does nothing.
#[derive(Drop)]
pub struct NoObserver;

impl Observer for NoObserver {}

/// The kind of a call that a session or page makes.
#[derive(Clone, Copy, Debug, PartialEq, Eq)]
pub enum CallKind {
    Read,
    /// A check of whether a handler can be read or written.
    Check,
    /// A write that replaces the configuration.
    Swap,
    /// Any other write.
    Write,
    /// A call that no session and no page makes.
    Other,
}

impl CallKind {
    /// Returns whether the call is a swap or another write.
    pub fn is_write(self) -> bool {
        matches!(self, CallKind::Swap | CallKind::Write)
    }
}

/// What is reported of a call. It is made before the call, and without an allocation.
#[derive(Drop)]
pub struct CallSummary {
    pub kind: CallKind,
    /// The first bytes of the handler's name, for a write that is not a swap.
    pub name: ArrayVec<u8, MAX_NAME_BYTES>,
    /// Whether the handler's name has more bytes than `name`.
    pub is_cut: bool,
    /// The number of bytes of the text that is written.
    pub bytes: usize,
}

impl CallSummary {
    /// Returns the summary of a call.
    pub fn of(call: &Call) -> CallSummary {
        if let Some(text) = call.swap_text() {
            return CallSummary::new(CallKind::Swap, b"", text.len());
        }
        match call {
            Call::Read { .. } => CallSummary::new(CallKind::Read, b"", 0),
            Call::CheckRead { .. } | Call::CheckWrite { .. } => {
                CallSummary::new(CallKind::Check, b"", 0)
            }
            Call::Write { name, text } => {
                CallSummary::new(CallKind::Write, name.as_slice(), text.len())
            }
            _ => CallSummary::new(CallKind::Other, b"", 0),
        }
    }

    /// Returns a summary with the first bytes of this name.
    fn new(kind: CallKind, name: &[u8], bytes: usize) -> CallSummary {
        let len = name.len().min(MAX_NAME_BYTES);
        let mut first = ArrayVec::new();
        // They fit.
        let _ = first.try_extend_from_slice(&name[..len]);
        CallSummary {
            kind,
            name: first,
            is_cut: len < name.len(),
            bytes,
        }
    }
}

/// The number under which a session is reported, and the numbers of its calls.
#[derive(Clone, Copy, Debug, Drop, PartialEq, Eq)]
pub struct SessionRecord {
    pub number: u64,
    pub reads: u64,
    /// The number of writes, with swaps.
    pub writes: u64,
    pub checks: u64,
    /// The number of calls among these that failed: out of memory, or history full.
    pub failed: u64,
}

impl SessionRecord {
    /// Returns the record of a session that has made no call.
    pub fn new(number: u64) -> SessionRecord {
        SessionRecord {
            number,
            reads: 0,
            writes: 0,
            checks: 0,
            failed: 0,
        }
    }

    /// Counts a call.
    pub(crate) fn count(&mut self, kind: CallKind, has_failed: bool) {
        match kind {
            CallKind::Read => self.reads = self.reads.saturating_add(1),
            CallKind::Check => self.checks = self.checks.saturating_add(1),
            CallKind::Swap | CallKind::Write => self.writes = self.writes.saturating_add(1),
            CallKind::Other => {}
        }
        if has_failed {
            self.failed = self.failed.saturating_add(1);
        }
    }
}
