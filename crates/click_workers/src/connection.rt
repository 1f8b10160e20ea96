//! The connection of a control session.

ghost use Rattle.std.specs.Prelude.{◌≡◌, ◌≤◌, length, IfOk};
ghost use Rattle.click_workers.specs.Doors.{begins_http_request};

use std::io::{self, ErrorKind, Read, Write};
use std::net::TcpStream;

/// The maximum number of tries of a read or a write.
const MAX_TRIES: usize = 1_048_576;

/// What the first bytes of a connection are.
#[derive(Clone, Copy)]
enum FirstBytes {
    /// No read has returned bytes yet.
    Unread,
    /// They do not begin a request of HTTP.
    Commands,
    /// They begin a request of HTTP.
    HttpRequest,
}

/// A TCP connection whose input ends at once if it begins with a request of HTTP.
///
/// A browser sends such a request to this machine for any foreign page, without asking its user. The
/// lines of its body would be commands. So every read returns 0, the end of the input, if the first
/// bytes begin such a request. A page cannot choose how its first bytes are divided among TCP
/// segments. So the first read has the method and the slash.
///
/// A read or a write is tried again if a signal interrupted it. On Linux a read or a write with a
/// time limit fails with `Interrupted` once the process is stopped and continued (signal(7)). This
/// says nothing about the peer. The call is made again, and its time limit begins again.
#[derive(Drop)]
pub struct Connection {
    pub(crate) stream: TcpStream,
    first: FirstBytes,
}

impl Connection {
    /// Returns the connection of a stream from which nothing was read.
    pub(crate) fn new(stream: TcpStream) -> Connection {
        Connection {
            stream,
            first: FirstBytes::Unread,
        }
    }

    /// Reads bytes of the stream, also those after the beginning of a request of HTTP.
    pub(crate) fn receive(&mut self, piece: &mut [u8]) -> io::Result<usize>
        ensures { IfOk result (λ n. n ≤ length piece.new) }
    {
        for _ in 0..MAX_TRIES {
            match self.stream.read(piece) {
                Err(fault) if fault.kind() == ErrorKind::Interrupted => {}
                result => return result,
            }
        }
        Err(io::Error::from(ErrorKind::Interrupted))
    }
}

impl Read for Connection {
    fn read(&mut self, piece: &mut [u8]) -> io::Result<usize> {
        if matches!(self.first, FirstBytes::HttpRequest) {
            return Ok(0);
        }
        let count = self.receive(piece)?;
        if count > 0 && matches!(self.first, FirstBytes::Unread) {
            if begins_http_request(&piece[..count]) {
                self.first = FirstBytes::HttpRequest;
                return Ok(0);
            }
            self.first = FirstBytes::Commands;
        }
        Ok(count)
    }
}

impl Write for Connection {
    fn write(&mut self, bytes: &[u8]) -> io::Result<usize> {
        for _ in 0..MAX_TRIES {
            match self.stream.write(bytes) {
                Err(fault) if fault.kind() == ErrorKind::Interrupted => {}
                result => return result,
            }
        }
        Err(io::Error::from(ErrorKind::Interrupted))
    }

    fn flush(&mut self) -> io::Result<()> {
        self.stream.flush()
    }
}

/// Returns whether these bytes begin with a method of HTTP, a space and a slash (RFC 9110, section
/// 9; RFC 9112, section 3; PATCH is from RFC 5789). Methods are in upper case.
fn begins_http_request(bytes: &[u8]) -> bool
    ensures { result ≡ begins_http_request bytes.now }
{
    bytes.starts_with(b"GET /")
        || bytes.starts_with(b"HEAD /")
        || bytes.starts_with(b"POST /")
        || bytes.starts_with(b"PUT /")
        || bytes.starts_with(b"DELETE /")
        || bytes.starts_with(b"OPTIONS /")
        || bytes.starts_with(b"PATCH /")
        || bytes.starts_with(b"TRACE /")
}
