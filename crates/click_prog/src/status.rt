//! The exit statuses of runs.

ghost use Rattle.std.specs.Prelude.{◌≡◌};
ghost use Rattle.std.specs.List.{list_any};
ghost use Rattle.click_prog.specs.Statuses as spec;

use click_cli::Status;
use click_control::{Ended, ServeFault};
use click_workers::SessionEnd;

/// The prefix of the program's lines on standard error.
pub const MESSAGE_PREFIX: &[u8] = b"click_prog: ";

/// Returns the status of a session.
pub fn end_status(ended: &Result<Ended, ServeFault>) -> Status
    ensures { result ≡ spec.end_status ended.now }
{
    match ended {
        Ok(Ended::Quit | Ended::EndOfInput | Ended::TooLong) => Status::Good,
        Ok(Ended::GateClosed) => Status::Refused,
        Err(ServeFault::NoMemory) => Status::NoMemory,
        Err(ServeFault::ReadFailed | ServeFault::WriteFailed) => Status::DeviceFailed,
    }
}

/// Returns the status of one of several sessions. A session that could not come in has failed.
fn session_status(end: &SessionEnd) -> Status
    ensures { result ≡ spec.session_status end.now }
{
    match end {
        SessionEnd::NoEntry => Status::DeviceFailed,
        SessionEnd::Served(ended) => end_status(ended),
    }
}

fn is_memory(status: Status) -> bool
    ensures { result ≡ spec.is_memory status }
{
    matches!(status, Status::NoMemory)
}

fn is_refused(status: Status) -> bool
    ensures { result ≡ spec.is_refused status }
{
    matches!(status, Status::Refused)
}

fn is_device(status: Status) -> bool
    ensures { result ≡ spec.is_device status }
{
    matches!(status, Status::DeviceFailed)
}

fn any_memory(ends: &[SessionEnd]) -> bool
    ensures { result ≡ list_any (λ e. spec.is_memory (spec.session_status e)) ends.now }
{
    ends.iter().any(|end| is_memory(session_status(end)))
}

fn any_refused(ends: &[SessionEnd]) -> bool
    ensures { result ≡ list_any (λ e. spec.is_refused (spec.session_status e)) ends.now }
{
    ends.iter().any(|end| is_refused(session_status(end)))
}

fn any_device(ends: &[SessionEnd]) -> bool
    ensures { result ≡ list_any (λ e. spec.is_device (spec.session_status e)) ends.now }
{
    ends.iter().any(|end| is_device(session_status(end)))
}

/// Returns the status of several sessions: the first of `NoMemory`, `Refused` and `DeviceFailed`
/// that a session has, else `Good`.
pub fn sessions_status(ends: &[SessionEnd]) -> Status
    ensures { result ≡ spec.sessions_status ends.now }
{
    if any_memory(ends) {
        Status::NoMemory
    } else if any_refused(ends) {
        Status::Refused
    } else if any_device(ends) {
        Status::DeviceFailed
    } else {
        Status::Good
    }
}
