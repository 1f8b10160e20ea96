//! One connection, with its socket.

ghost use Rattle.std.specs.Prelude.{◌≡◌, ◌≢◌, true, false, IsTrue, IsFalse};
ghost use Rattle.http_server.specs.Connection.{config_of, history};
ghost use Rattle.http_server.specs.History.{WantsRead};
ghost use Rattle.click_http.specs.Leading.{page_config, Leads};
ghost use Rattle.click_http.specs.Phases.{begins, IsInTime, HasOutput, HasNoOutput, HasAnswer, Suits};

use crate::phase::Phase;
use crate::settings::page_limits;
use crate::step::Step;
use crate::timer::{Timer, Verdict};
use crate::watched_stream::WatchedStream;
use http_server::{Connection, Service};
use mio::net::TcpStream;
use std::alloc::Global;
use std::hash::RandomState;
use std::io::{Read, Write};
use std::net::Shutdown;
use std::time::Instant;

/// The maximum number of steps of one connection before the next one has its turn.
const MAX_STEPS: u32 = 6;

/// The number of bytes that are read and dropped at once.
const SCRATCH_BYTES: usize = 4096;

/// The interim response that asks a peer to send the rest of its request.
const CONTINUE: &[u8] = b"HTTP/1.1 100 Continue\r\n\r\n";

/// The response to a peer whose request took too long.
const OVERDUE: &[u8] =
    b"HTTP/1.1 408 Request Timeout\r\ncontent-length: 0\r\nconnection: close\r\n\r\n";

/// The response to a peer whose chunk announces too many bytes. It is that of the server to a body
/// that is too long.
const TOO_LARGE: &[u8] =
    b"HTTP/1.1 413 Payload Too Large\r\nconnection: close\r\ncontent-length: 0\r\n\r\n";

/// The response to a peer that found no free slot.
const FULL: &[u8] =
    b"HTTP/1.1 503 Service Unavailable\r\ncontent-length: 0\r\nconnection: close\r\n\r\n";

/// Returns whether a response is pending. The interim response does not count.
fn has_answer(connection: &Connection) -> bool
    ensures some { HasAnswer connection.now → IsTrue result }
    ensures none { IsTrue result → HasOutput connection.now }
{
    connection.wants_write() && connection.output() != CONTINUE
}

/// Records that the service was called, if there was a request to answer.
fn note_called(timer: &mut Timer, connection: &Connection, now: Instant)
    requires { timer.old.phase ≢ Phase.HalfClosed }
    ensures suits { Suits timer.new.phase connection.now }
    ensures answer { HasAnswer connection.now → timer.new ≡ begins Phase.Sending now }
    ensures sent { HasNoOutput connection.now → timer.old.phase ≡ Phase.Sending → timer.new ≡ begins Phase.Idle now }
    ensures other { HasNoOutput connection.now → timer.old.phase ≢ Phase.Sending → timer.new ≡ timer.old }
{
    timer.note_called(has_answer(connection), now);
}

/// An accepted connection.
///
/// Pending output is written before more is read. So what is read while nothing is pending belongs
/// to a request that has no response yet.
#[derive(Drop)]
pub(crate) struct Peer {
    stream: WatchedStream,
    connection: Connection,
    timer: Timer,
    /// Whether a read may succeed. The system reports changes only, so this stays true until a read
    /// would block.
    readable: bool,
    /// Whether a write may succeed; it stays true until a write would block.
    writable: bool,
    /// Whether the peer has ended its output.
    ended: bool,
    ghost limits: { config_of connection ≡ page_config },
    ghost suits: { Suits timer.phase connection },
    ghost input: { ended ≡ (history connection).ended },
}

impl Peer {
    ghost use Rattle.click_http.specs.Readiness.{IsReadiness, IsNew, IsTimed, IsGoingOn, IsHalfClosed, IsAfterTurn, IsVerdict, IsLimited, woken};
    ghost use Rattle.click_http.specs.Waiting.{waited};

    pub(crate) fn new(alloc: Global, keys: RandomState, stream: TcpStream, now: Instant) -> Peer
        ensures { IsNew result now }
    {
        Peer {
            stream: WatchedStream::new(stream),
            connection: Connection::new(alloc, keys, page_limits()),
            timer: Timer::begin(Phase::Idle, now),
            readable: true,
            writable: true,
            ended: false,
        }
    }

    /// Records that the system reported the socket.
    pub(crate) fn wake(&mut self, readable: bool, writable: bool)
        ensures { self.new ≡ woken self.old readable writable }
    {
        self.readable = self.readable || readable;
        self.writable = self.writable || writable;
    }

    /// Returns whether a step would do something without waiting.
    pub(crate) fn is_ready(&self) -> bool
        ensures { IsReadiness self.now result }
    {
        if self.timer.phase == Phase::HalfClosed {
            self.readable
        } else if self.connection.wants_write() {
            self.writable
        } else {
            self.readable || !self.connection.wants_read()
        }
    }

    /// Returns how long the connection has only waited for a request, in nanoseconds: 0 if it does
    /// something else, or if its socket may have something to read.
    pub(crate) fn waited(&self, now: Instant) -> u128
        ensures { result ≡ waited self.now now }
    {
        if self.timer.phase.is_idle() && !self.readable {
            self.timer.age(now)
        } else {
            0
        }
    }

    /// Writes pending output once.
    fn write<S: Service>(&mut self, service: &mut S, now: Instant) -> Step
        requires phase { self.old.timer.phase ≢ Phase.HalfClosed }
        requires output { HasOutput self.old.connection }
        requires ready { IsTrue self.old.writable }
        ensures leads { Leads S.answers service.old service.new }
        ensures wait { result ≡ Step.Wait → IsReadiness self.new false }
        ensures over { result ≡ Step.Over → IsReadiness self.new true }
        ensures timed { result ≡ Step.More → IsTimed self.old self.new now }
        ensures more { result ≡ Step.More → IsGoingOn self.old self.new }
        ensures other { self.new.readable ≡ self.old.readable }
    {
        match self.connection.write_to(&mut self.stream.socket) {
            Ok(0) => Step::Over,
            Ok(_) => {
                self.connection.advance(service);
                note_called(&mut self.timer, &self.connection, now);
                Step::More
            }
            Err(fault) => {
                let step = Step::after(&fault);
                self.writable = step != Step::Wait;
                step
            }
        }
    }

    /// Reads once, and has the service answer the requests that were read.
    fn read<S: Service>(&mut self, service: &mut S, now: Instant) -> Step
        requires phase { self.old.timer.phase ≢ Phase.HalfClosed }
        requires output { HasNoOutput self.old.connection }
        requires input { WantsRead page_config (history self.old.connection) }
        requires ready { IsTrue self.old.readable }
        ensures leads { Leads S.answers service.old service.new }
        ensures wait { result ≡ Step.Wait → IsReadiness self.new false }
        ensures over { result ≡ Step.Over → IsReadiness self.new true }
        ensures timed { result ≡ Step.More → IsTimed self.old self.new now }
        ensures more { result ≡ Step.More → IsGoingOn self.old self.new }
        ensures other { self.new.writable ≡ self.old.writable }
    {
        match self.connection.read_from(&mut self.stream) {
            Ok(count) => {
                if count == 0 {
                    self.ended = true;
                } else {
                    self.timer.note_bytes(now);
                }
                self.connection.advance(service);
                note_called(&mut self.timer, &self.connection, now);
                Step::More
            }
            Err(fault) => {
                let step = Step::after(&fault);
                self.readable = step != Step::Wait;
                step
            }
        }
    }

    /// Ends the output. The peer may still send, so that it can read the whole response before the
    /// connection is closed.
    fn shut_output(&mut self, now: Instant) -> Step
        requires phase { self.old.timer.phase ≢ Phase.HalfClosed }
        requires output { HasNoOutput self.old.connection }
        ensures wait { result ≢ Step.Wait }
        ensures ended { IsTrue self.old.ended → result ≡ Step.Over }
        ensures over { result ≡ Step.Over → self.new ≡ self.old }
        ensures more { result ≡ Step.More → IsHalfClosed self.old self.new now }
    {
        if self.ended || self.stream.socket.shutdown(Shutdown::Write).is_err() {
            Step::Over
        } else {
            self.timer = Timer::begin(Phase::HalfClosed, now);
            Step::More
        }
    }

    /// Sends status 413 and ends the output.
    fn refuse_body(&mut self, now: Instant) -> Step
        requires phase { self.old.timer.phase ≢ Phase.HalfClosed }
        requires output { HasNoOutput self.old.connection }
        ensures wait { result ≢ Step.Wait }
        ensures over { result ≡ Step.Over → self.new ≡ self.old }
        ensures more { result ≡ Step.More → IsHalfClosed self.old self.new now }
    {
        if self.stream.socket.write(TOO_LARGE).is_ok() {
            self.shut_output(now)
        } else {
            Step::Over
        }
    }

    /// Reads once, and drops what was read.
    fn drain(&mut self) -> Step
        requires phase { self.old.timer.phase ≡ Phase.HalfClosed }
        requires ready { IsTrue self.old.readable }
        ensures wait { result ≡ Step.Wait → IsReadiness self.new false }
        ensures over { result ≡ Step.Over → IsReadiness self.new true }
        ensures more { result ≡ Step.More → self.new ≡ self.old }
        ensures timer { self.new.timer ≡ self.old.timer }
    {
        let mut scratch = [0u8; SCRATCH_BYTES];
        match self.stream.socket.read(&mut scratch) {
            Ok(0) => Step::Over,
            Ok(_) => Step::More,
            Err(fault) => {
                let step = Step::after(&fault);
                self.readable = step != Step::Wait;
                step
            }
        }
    }

    /// Does what the phase and the connection ask for, if the socket permits it.
    fn step<S: Service>(&mut self, service: &mut S, now: Instant) -> Step
        ensures leads { Leads S.answers service.old service.new }
        ensures wait { result ≡ Step.Wait → IsReadiness self.new false }
        ensures over { result ≡ Step.Over → IsReadiness self.new true }
    {
        if !self.is_ready() {
            Step::Wait
        } else if self.timer.phase == Phase::HalfClosed {
            self.drain()
        } else if self.connection.wants_write() {
            self.write(service, now)
        } else if self.connection.wants_read() && self.stream.has_long_chunk() {
            self.refuse_body(now)
        } else if self.connection.wants_read() {
            self.read(service, now)
        } else {
            self.shut_output(now)
        }
    }

    /// Reads, answers and writes until the socket would block, or up to the maximum number of
    /// steps. Returns whether the connection continues.
    pub(crate) fn turn<S: Service>(&mut self, service: &mut S, now: Instant) -> bool
        ensures leads { Leads S.answers service.old service.new }
        ensures over { IsFalse result → IsReadiness self.new true }
    {
        for _ in 0..MAX_STEPS {
            match self.step(service, now) {
                Step::More => {}
                Step::Wait => return true,
                Step::Over => return false,
            }
        }
        true
    }

    /// Records that a turn ended, which began at `begun`.
    pub(crate) fn note_turn(&mut self, begun: Instant, ended: Instant)
        ensures { IsAfterTurn self.old self.new begun ended }
    {
        self.timer.note_turn(begun, ended);
    }

    /// Returns what the time limit of the phase asks for.
    fn verdict(&self, now: Instant) -> Verdict
        ensures { IsVerdict self.now result now }
    {
        if self.timer.is_in_time(now) {
            Verdict::Keep
        } else if self.timer.phase == Phase::Begun && !self.connection.wants_write() {
            Verdict::Refuse
        } else {
            Verdict::Close
        }
    }

    /// Sends status 408 and ends the output. Returns whether the connection continues.
    fn refuse_request(&mut self, now: Instant) -> bool
        requires phase { self.old.timer.phase ≡ Phase.Begun }
        requires output { HasNoOutput self.old.connection }
        ensures ended { IsTrue result → IsHalfClosed self.old self.new now }
        ensures failed { IsFalse result → self.new ≡ self.old }
    {
        let told = self.stream.socket.write(OVERDUE);
        told.is_ok() && self.shut_output(now) != Step::Over
    }

    /// Checks the time limit of the phase. Returns whether the connection continues.
    ///
    /// If the limit is exceeded while a request is incomplete and no output is pending, sends
    /// status 408 and ends the output.
    pub(crate) fn is_in_time(&mut self, now: Instant) -> bool
        ensures in_time { IsTrue result → IsInTime self.new.timer now }
        ensures limited { IsLimited self.old self.new result now }
    {
        match self.verdict(now) {
            Verdict::Keep => true,
            Verdict::Close => false,
            Verdict::Refuse => self.refuse_request(now),
        }
    }

    /// Writes pending output once, and closes the connection.
    pub(crate) fn write_last(self) {
        let Peer {
            stream,
            connection,
            ..
        } = self;
        let mut socket = stream.socket;
        let mut connection = connection;
        if connection.wants_write() {
            let _ = connection.write_to(&mut socket);
        }
    }
}

/// Responds to a peer that all slots are taken.
///
/// Reads what the peer has sent so far: closing a socket with unread input could lose the response.
pub(crate) fn refuse(stream: TcpStream) {
    let mut stream = stream;
    let mut scratch = [0u8; SCRATCH_BYTES];
    let _ = stream.write(FULL);
    let _ = stream.shutdown(Shutdown::Write);
    let _ = stream.read(&mut scratch);
}
