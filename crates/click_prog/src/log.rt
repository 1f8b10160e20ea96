//! The log of sessions over TCP, and of the page, on standard error.

use crate::log_line::LogLine;
use crate::session_counts::SessionCounts;
use click_control::{AskFault, Ended, ServeFault};
use click_router::{CompactReply, StoredReply};
use click_workers::{CallKind, CallSummary, Observer, SessionRecord};
use jiff::Timestamp;
use std::io::Write;

/// Counts the sessions of a run, and logs what they do if that is asked for.
///
/// A session waits for the write of each of its lines.
#[derive(Drop)]
pub struct SessionLog<'a> {
    host: &'a HostRuntime,
    counts: &'a SessionCounts,
    /// Whether lines are written.
    is_on: bool,
}

impl<'a> SessionLog<'a> {
    pub fn new(host: &'a HostRuntime, counts: &'a SessionCounts, is_on: bool) -> SessionLog<'a> {
        SessionLog {
            host,
            counts,
            is_on,
        }
    }

    /// Returns a line of this session.
    fn line(&self, session: u64) -> LogLine {
        let mut line = line_of_now(self.host);
        line.push_number(" session=", session);
        line
    }
}

impl<'a> Observer for SessionLog<'a> {
    fn session_begins(&self, slot: usize) -> Option<SessionRecord> {
        let number = self.counts.begins();
        if !self.is_on {
            return None;
        }
        let mut line = self.line(number);
        line.push_number(" begins slot=", slot as u64);
        write_line(self.host, line);
        Some(SessionRecord::new(number))
    }

    fn call_answered(
        &self,
        record: &SessionRecord,
        summary: &CallSummary,
        answered: &Result<StoredReply, AskFault>,
    ) {
        if !summary.kind.is_write() {
            return;
        }
        let mut line = self.line(record.number);
        push_write(&mut line, summary, answered);
        write_line(self.host, line);
    }

    fn session_ends(&self, ended: &Result<Ended, ServeFault>, record: Option<&SessionRecord>) {
        self.counts.ends();
        let Some(record) = record else {
            return;
        };
        let mut line = self.line(record.number);
        line.push(" ends cause=");
        line.push(cause_of(ended));
        line.push_number(" reads=", record.reads);
        line.push_number(" writes=", record.writes);
        line.push_number(" checks=", record.checks);
        line.push_number(" failed=", record.failed);
        write_line(self.host, line);
    }
}

/// Logs the swaps and other writes of the page, if that is asked for.
///
/// The page waits for the write of each line.
#[derive(Drop)]
pub struct PageLog<'a> {
    host: &'a HostRuntime,
    /// Whether lines are written.
    is_on: bool,
}

impl<'a> PageLog<'a> {
    /// Returns the log of a page, which writes lines only if it is on.
    pub fn new(host: &'a HostRuntime, is_on: bool) -> PageLog<'a> {
        PageLog { host, is_on }
    }
}

impl<'a> Observer for PageLog<'a> {
    fn call_answered(
        &self,
        _record: &SessionRecord,
        summary: &CallSummary,
        answered: &Result<StoredReply, AskFault>,
    ) {
        if !self.is_on || !summary.kind.is_write() {
            return;
        }
        let mut line = line_of_now(self.host);
        line.push(" page");
        push_write(&mut line, summary, answered);
        write_line(self.host, line);
    }
}

/// Returns a line with the time. If the clock cannot be read, the line has no time.
fn line_of_now(host: &HostRuntime) -> LogLine {
    LogLine::begin(Timestamp::now(host).ok())
}

/// Writes a line with one write, so that lines of several threads do not mix. A failed write does
/// not affect the run.
fn write_line(host: &HostRuntime, mut line: LogLine) {
    let _ = host.stderr().write_all(line.ended());
}

/// Appends what was written, and the outcome: the name of the handler, unless it is a swap, and the
/// number of bytes.
fn push_write(line: &mut LogLine, summary: &CallSummary, answered: &Result<StoredReply, AskFault>) {
    if summary.kind == CallKind::Swap {
        line.push(" swap");
    } else {
        line.push(" write=");
        line.push_name(summary.name.as_slice());
        if summary.is_cut {
            line.push("...");
        }
    }
    line.push_number(" bytes=", summary.bytes as u64);
    push_outcome(line, summary.kind, answered);
}

/// Appends the outcome of a write or a swap.
fn push_outcome(line: &mut LogLine, kind: CallKind, answered: &Result<StoredReply, AskFault>) {
    line.push(" outcome=");
    match answered {
        Err(AskFault::NoMemory) => line.push("failed cause=no-memory"),
        Err(AskFault::HistoryFull) => line.push("failed cause=history-full"),
        Ok(reply) => match reply.compact() {
            CompactReply::Done if kind == CallKind::Swap => line.push("installed"),
            CompactReply::Done => line.push("done"),
            CompactReply::NoElement => line.push("no-element"),
            CompactReply::NoHandler => line.push("no-handler"),
            CompactReply::WrongWay => line.push("wrong-way"),
            CompactReply::Handler(fault) => {
                line.push("fault");
                line.push_fault(*fault);
            }
            CompactReply::Config(fault) => {
                line.push("fault");
                line.push_fault(&**fault);
            }
            _ => line.push("other"),
        },
    }
}

/// Returns the word for the way in which a session ended.
fn cause_of(ended: &Result<Ended, ServeFault>) -> &'static str {
    match ended {
        Ok(Ended::Quit) => "quit",
        Ok(Ended::EndOfInput) => "end-of-input",
        Ok(Ended::TooLong) => "too-long",
        Ok(Ended::GateClosed) => "gate-closed",
        Err(ServeFault::ReadFailed) => "read-failed",
        Err(ServeFault::WriteFailed) => "write-failed",
        Err(ServeFault::NoMemory) => "no-memory",
    }
}
