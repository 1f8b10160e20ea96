//! A door for sessions over TCP.

ghost use Rattle.std.specs.Prelude.{◌≡◌, true, false};
ghost use Rattle.click_workers.specs.Doors.{has_device_failed};

use crate::connection::Connection;
use crate::door::Door;
use crate::observer::{CallSummary, Observer, SessionRecord};
use click_control::{AskFault, Ended, ServeFault};
use click_router::StoredReply;
use click_streams::{Reading, Writing};
use std::io;
use std::net::{Shutdown, TcpListener};
use std::time::{Clock, Duration, Instant};

/// The maximum time for which the input of an ended session is discarded, in milliseconds.
const MAX_DISCARD_MS: u64 = 2_000;

/// The number of bytes after which the input of an ended session is not discarded any more.
const MAX_DISCARD_BYTES: usize = 2_097_152;

/// The maximum number of bytes of one read that discards input.
const DISCARD_CHUNK_BYTES: usize = 16_384;

/// A door that accepts one TCP connection for each session, and reports the sessions to an observer.
/// Nothing is promised about the peer.
///
/// With an idle limit a read of a session fails if no byte comes for this time. A write fails if
/// the peer takes no byte for this time. A signal does not end them; then the time begins again.
#[derive(Drop)]
pub struct Listening<'a, C, O> {
    listener: TcpListener,
    idle_limit: Option<Duration>,
    clock: &'a C,
    observer: &'a O,
}

impl<'a, C, O> Listening<'a, C, O> {
    /// Returns a door at this listener. The idle limit is not 0.
    pub fn new(
        listener: TcpListener,
        idle_limit: Option<Duration>,
        clock: &'a C,
        observer: &'a O,
    ) -> Listening<'a, C, O> {
        Listening {
            listener,
            idle_limit,
            clock,
            observer,
        }
    }

    /// Accepts a connection, and returns two handles of it.
    fn accept(&self) -> io::Result<(Connection, Connection)> {
        let (stream, _) = self.listener.accept()?;
        stream.set_read_timeout(self.idle_limit)?;
        stream.set_write_timeout(self.idle_limit)?;
        let other = stream.try_clone()?;
        Ok((Connection::new(stream), Connection::new(other)))
    }
}

impl<'a, C: Clock + Sync, O: Observer> Observer for Listening<'a, C, O> {
    fn session_begins(&self, slot: usize) -> Option<SessionRecord> {
        self.observer.session_begins(slot)
    }

    fn call_answered(
        &self,
        record: &SessionRecord,
        summary: &CallSummary,
        answered: &Result<StoredReply, AskFault>,
    ) {
        self.observer.call_answered(record, summary, answered);
    }

    fn session_ends(&self, ended: &Result<Ended, ServeFault>, record: Option<&SessionRecord>) {
        self.observer.session_ends(ended, record);
    }
}

impl<'a, C: Clock + Sync, O: Observer> Door for Listening<'a, C, O> {
    ghost lets_in = { λ _ _ _. Unit {0} };

    type Reader = Reading<Connection>;

    type Writer = Writing<Connection>;

    fn enter(&self, _who: usize) -> Option<(Reading<Connection>, Writing<Connection>)> {
        match self.accept() {
            Ok((stream, other)) => Some((Reading::new(stream), Writing::new(other))),
            Err(_) => None,
        }
    }

    fn leave(
        &self,
        _who: usize,
        ended: &Result<Ended, ServeFault>,
        reader: Reading<Connection>,
        _writer: Writing<Connection>,
    ) {
        // A peer that is gone, or that kept the session waiting, gets no more time.
        if has_device_failed(ended) {
            return;
        }
        // The connection is closed in any case.
        let _ = discard_rest(self.clock, reader.into_inner());
    }
}

/// Returns whether a session ended because its source or its sink failed.
fn has_device_failed(ended: &Result<Ended, ServeFault>) -> bool
    ensures { result ≡ has_device_failed ended.now }
{
    matches!(ended, Err(ServeFault::ReadFailed | ServeFault::WriteFailed))
}

/// Shuts down the writing side of a connection, and discards what arrives until the peer does the
/// same. Ends early after `MAX_DISCARD_MS`, or once `MAX_DISCARD_BYTES` were discarded.
///
/// If bytes are unread when a connection is closed, the system resets it (RFC 1122, section
/// 4.2.2.13). Replies that the peer does not have yet are then lost.
fn discard_rest<C: Clock>(clock: &C, mut connection: Connection) -> io::Result<()> {
    connection.stream.shutdown(Shutdown::Write)?;
    let start = Instant::now(clock)?;
    let limit = Duration::from_millis(MAX_DISCARD_MS);
    let mut piece = [0; DISCARD_CHUNK_BYTES];
    let mut bytes_left = MAX_DISCARD_BYTES;
    while bytes_left > 0 {
        let time_left = limit.saturating_sub(start.elapsed(clock)?);
        if time_left.is_zero() {
            return Ok(());
        }
        connection.stream.set_read_timeout(Some(time_left))?;
        match connection.receive(&mut piece)? {
            0 => return Ok(()),
            n => bytes_left = bytes_left.saturating_sub(n),
        }
    }
    Ok(())
}
