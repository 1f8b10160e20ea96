//! Links over UDP.

ghost use Rattle.std.specs.Prelude.{◌≡◌, ◌≤◌, ◌↔◌, vec_len, ◌++◌, ◌∷◌, [], map, option_map, take, true, false, None, IsSome, IsTrue, IfOk, OnOk};
ghost use Rattle.click_links.specs.Ends.{attempt, line_of as line_for};
ghost use Rattle.click_links.specs.SocketFaults.{IsTemporary, IsTemporaryKind, IsTemporaryNumber};

use crate::link::{Inbound, LinkFailed, Outbound};
use crate::send_attempts::SendAttempts;
use click_base::sequence::Sequence;
use click_desk::GhostList;
use click_packet::StoredPacket;
use libc::net::{POLLIN, POLLOUT, poll};
use libc::types::pollfd;
use std::alloc::Global;
use std::io;
use std::io::ErrorKind;
use std::marker::Model;
use std::net::{Net, SocketAddr, UdpSocket};
use std::os::fd::AsRawFd;
use std::sync::atomic::{AtomicBool, Ordering};
use std::time::Duration;

/// The size of the buffer for a datagram, in bytes. No datagram has as many, so none is cut.
const RECEIVE_BUFFER_BYTES: usize = 65536;

/// A socket, and the time limits of its reads and of its sends in milliseconds, if they were set.
#[derive(Drop)]
struct TimedSocket {
    socket: UdpSocket,
    read_limit: Option<u64>,
    send_limit: Option<u64>,
}

impl TimedSocket {
    /// Returns the socket, without time limits.
    fn new(socket: UdpSocket) -> TimedSocket
        ensures { (result.read_limit ≡ None) × (result.send_limit ≡ None) }
    {
        TimedSocket {
            socket,
            read_limit: None,
            send_limit: None,
        }
    }

    /// Sets the time limit of reads.
    fn limit_reads(&mut self, millis: u64) -> io::Result<()>
        ensures reads { OnOk result (self.new.read_limit ≡ Some millis) }
        ensures sends { self.new.send_limit ≡ self.old.send_limit }
    {
        self.socket
            .set_read_timeout(Some(Duration::from_millis(millis)))?;
        self.read_limit = Some(millis);
        Ok(())
    }

    /// Sets the time limit of sends.
    fn limit_sends(&mut self, millis: u64) -> io::Result<()>
        ensures sends { OnOk result (self.new.send_limit ≡ Some millis) }
        ensures reads { self.new.read_limit ≡ self.old.read_limit }
    {
        self.socket
            .set_write_timeout(Some(Duration::from_millis(millis)))?;
        self.send_limit = Some(millis);
        Ok(())
    }

    /// Returns another handle of the same socket, which has the same time limits.
    fn try_clone(&self) -> io::Result<TimedSocket>
        ensures { IfOk result (λ s. (s.read_limit ≡ self.now.read_limit) × (s.send_limit ≡ self.now.send_limit)) }
    {
        Ok(TimedSocket {
            socket: self.socket.try_clone()?,
            read_limit: self.read_limit,
            send_limit: self.send_limit,
        })
    }
}

/// Opens a socket at the address. Neither a read nor a send blocks for longer than `millis`
/// milliseconds.
fn open_socket<R: Net>(net: &R, address: SocketAddr, millis: u64) -> io::Result<TimedSocket>
    ensures { IfOk result (λ s. (s.read_limit ≡ Some millis) × (s.send_limit ≡ Some millis)) }
{
    let mut socket = TimedSocket::new(UdpSocket::bind(net, address)?);
    socket.limit_reads(millis)?;
    socket.limit_sends(millis)?;
    Ok(socket)
}

/// A socket, the address that it was asked for, its peer, and the datagram that was read last. Its
/// reads have a time limit.
#[derive(Drop)]
struct DatagramSocket {
    socket: TimedSocket,
    here: SocketAddr,
    peer: SocketAddr,
    buffer: Vec<u8>,
    len: usize,
    from: SocketAddr,
    known: bool,
    ghost fits: { len ≤ vec_len buffer },
    ghost named: { (known ≡ true) ↔ (from ≡ peer) },
    ghost limited: { IsSome socket.read_limit },
}

/// Blocks until a datagram comes or the socket's timeout is over.
fn receive_datagram(datagram_socket: &mut DatagramSocket) -> io::Result<()>
    ensures { (datagram_socket.new.here ≡ datagram_socket.old.here) × (datagram_socket.new.peer ≡ datagram_socket.old.peer) }
{
    let (len, from) = datagram_socket
        .socket
        .socket
        .recv_from(datagram_socket.buffer.as_mut_slice())?;
    datagram_socket.len = len;
    datagram_socket.from = from;
    datagram_socket.known = from == datagram_socket.peer;
    Ok(())
}

/// Returns whether one of these events, or an error, waits at the socket. Never blocks.
fn is_ready(socket: &UdpSocket, events: i16) -> bool {
    let mut asked = [pollfd {
        fd: socket.as_raw_fd(),
        events,
        revents: 0,
    }];
    poll(&mut asked, 0) != 0
}

fn payload(datagram_socket: &DatagramSocket) -> &[u8]
    ensures { result.now ≡ take datagram_socket.now.len datagram_socket.now.buffer.items }
{
    &datagram_socket.buffer.as_slice()[..datagram_socket.len]
}

/// The receiving end of a link over UDP.
#[derive(Drop)]
pub struct UdpIn {
    datagram_socket: DatagramSocket,
    came: GhostList<DatagramSocket, ()>,
}

impl Model for UdpIn {
    ghost use Rattle.std.specs.Prelude.{map, take};
    ghost use Rattle.click_links.specs.Ends.{Hearing};

    ghost Value = { Hearing };

    ghost view = { λ u. record { here = u.datagram_socket.here; there = u.datagram_socket.peer; came = map (λ p. record { bytes = take p.0.len p.0.buffer.items; known = p.0.known }) u.came.items; current = record { bytes = take u.datagram_socket.len u.datagram_socket.buffer.items; known = u.datagram_socket.known } } };
}

impl Inbound for UdpIn {
    ghost use Rattle.click_links.specs.Ends.{received_over};

    ghost received = { λ u. received_over u };

    ghost current = { λ u. u.current };

    fn receive(&mut self) -> Result<bool, LinkFailed> {
        match receive_datagram(&mut self.datagram_socket) {
            Ok(()) => {
                self.came = self.came.and(&self.datagram_socket, &());
                Ok(true)
            }
            Err(fault) => {
                if is_passing(&fault) {
                    Ok(false)
                } else {
                    Err(LinkFailed)
                }
            }
        }
    }

    fn bytes(&self) -> &[u8] {
        payload(&self.datagram_socket)
    }

    fn is_known(&self) -> bool {
        self.datagram_socket.known
    }

    fn has_more(&self) -> bool {
        is_ready(&self.datagram_socket.socket.socket, POLLIN)
    }
}

/// The sending side of one link over UDP. It has its device, its socket, the address that the
/// socket was asked for, and its peer. By its invariant, sends have a time limit.
#[derive(Drop)]
pub struct UdpLine {
    device: Sequence<u8>,
    socket: TimedSocket,
    here: SocketAddr,
    peer: SocketAddr,
    /// Whether the last send ended with the timeout, because the send buffer was full.
    is_blocked: AtomicBool,
}

impl Model for UdpLine {
    ghost use Rattle.std.specs.Prelude.{IsSome};
    ghost use Rattle.click_links.specs.Ends.{Line};

    ghost Value = { Line };

    ghost view = { λ l. record { device = l.device; here = l.here; there = l.peer } };

    ghost invariant = { λ l. IsSome l.socket.send_limit };
}

impl UdpLine {
    /// Sends the bytes to the peer as one datagram. Returns whether all of them were sent.
    ///
    /// Blocks while the send buffer is full, up to the socket's timeout. After a timeout, sends fail
    /// at once until the buffer has room, because the packets of all other links wait meanwhile.
    fn send(&self, bytes: &[u8]) -> bool {
        if self.is_blocked.load(Ordering::Relaxed) && !is_ready(&self.socket.socket, POLLOUT) {
            return false;
        }
        match self.socket.socket.send_to(bytes, self.peer) {
            Ok(len) => {
                self.is_blocked.store(false, Ordering::Relaxed);
                len == bytes.len()
            }
            Err(fault) => {
                let is_full = matches!(fault.kind(), ErrorKind::WouldBlock | ErrorKind::TimedOut);
                self.is_blocked.store(is_full, Ordering::Relaxed);
                false
            }
        }
    }
}

/// Returns the line of the device: the first one that has it.
fn line_of<'a>(lines: &'a [UdpLine], device: &[u8]) -> Option<&'a UdpLine>
    ensures { option_map (λ l. l.now) result ≡ line_for device.now lines.now }
{
    match lines {
        [] => None,
        [first, rest @ ..] => {
            if first.device.as_slice() == device {
                Some(first)
            } else {
                line_of(rest, device)
            }
        }
    }
}

/// The sending end of all links over UDP. Each packet is sent from the socket of its device's link
/// to that link's peer.
#[derive(Drop)]
pub struct UdpOut {
    lines: Vec<UdpLine>,
    tried: SendAttempts,
}

impl Model for UdpOut {
    ghost use Rattle.click_links.specs.Ends.{Sending};

    ghost Value = { Sending };

    ghost view = { λ u. record { lines = u.lines.items; tried = u.tried } };
}

impl UdpOut {
    /// Returns the sending end for these lines, with nothing sent yet. If several lines have one
    /// device, the first of them is used.
    pub fn of(lines: Vec<UdpLine>) -> UdpOut
        ensures { result ≡ record { lines = lines.items; tried = [] } }
    {
        UdpOut {
            lines,
            tried: SendAttempts::new(),
        }
    }
}

impl Outbound for UdpOut {
    ghost attempts = { λ u. u.tried };

    fn send(&mut self, device: &Sequence<u8>, packet: &StoredPacket) -> bool
        ensures tried { self.new.tried ≡ self.old.tried ++ attempt device.now packet.now result ∷ [] }
        ensures lines { self.new.lines ≡ self.old.lines }
        ensures none { line_for device.now self.old.lines ≡ None → result ≡ false }
    {
        let sent = match line_of(self.lines.as_slice(), device.as_slice()) {
            Some(line) => line.send(packet.bytes()),
            None => false,
        };
        self.tried.add(device, packet, sent);
        sent
    }
}

/// Returns whether faults of this kind are temporary.
///
/// They are: the time limit is over, a signal interrupted the call, the peer does not listen, or
/// the network does not reach it.
fn is_temporary_kind(kind: ErrorKind) -> bool
    ensures { IsTrue result ↔ IsTemporaryKind kind }
{
    matches!(
        kind,
        ErrorKind::WouldBlock
            | ErrorKind::TimedOut
            | ErrorKind::Interrupted
            | ErrorKind::ConnectionRefused
            | ErrorKind::ConnectionReset
            | ErrorKind::HostUnreachable
            | ErrorKind::NetworkUnreachable
            | ErrorKind::NetworkDown
    )
}

/// Returns whether this is the system's error number of a temporary fault that has no name in
/// `ErrorKind`.
///
/// Those of the system are out of memory (12) and no buffer space (105). Those of the network are a
/// protocol error (71), a message that is too long (90), a protocol that is not available (92), and
/// a host that is down (112).
fn is_temporary_number(number: i32) -> bool
    ensures { IsTrue result ↔ IsTemporaryNumber number }
{
    matches!(number, 12 | 71 | 90 | 92 | 105 | 112)
}

/// Returns whether a fault of a socket is temporary, so that the link has not failed. Such a fault
/// is reported once, or after a wait.
fn is_passing(fault: &io::Error) -> bool
    ensures { IsTrue result ↔ IsTemporary fault.now }
{
    is_temporary_kind(fault.kind())
        || match fault.raw_os_error() {
            Some(number) => is_temporary_number(number),
            None => false,
        }
}

/// Opens a link of the device over UDP. Returns its receiving end, and the line over which its
/// packets are sent.
///
/// Neither blocks for longer than `millis` milliseconds, which must be at least 1. The contract
/// says which address the socket was asked for. No contract of the system's sockets says which one
/// it has.
pub fn open_udp<R: Net>(
    net: &R,
    alloc: Global,
    device: Sequence<u8>,
    address: SocketAddr,
    peer: SocketAddr,
    millis: u64,
) -> io::Result<(UdpIn, UdpLine)>
    ensures came { IfOk result (λ ends. ends.0.came ≡ []) }
    ensures end { IfOk result (λ ends. (ends.0.here ≡ address) × (ends.0.there ≡ peer)) }
    ensures line { IfOk result (λ ends. ends.1 ≡ record { device = device; here = address; there = peer }) }
{
    let socket = open_socket(net, address, millis)?;
    let line = UdpLine {
        device,
        socket: socket.try_clone()?,
        here: address,
        peer,
        is_blocked: AtomicBool::new(false),
    };
    let datagram_socket = DatagramSocket {
        socket,
        here: address,
        peer,
        buffer: vec![in alloc; 0u8; RECEIVE_BUFFER_BYTES]?,
        len: 0,
        from: peer,
        known: true,
    };
    let came = GhostList::new();
    Ok((
        UdpIn {
            datagram_socket,
            came,
        },
        line,
    ))
}
