//! The sockets of links.

ghost use Rattle.std.specs.Prelude.{◌≡◌, [], map, IfOk};
ghost use Rattle.click_prog.specs.Links.{line_of};

use crate::link::Link;
use click_base::sequence::Sequence;
use click_links::{Links, UdpIn, UdpLine, UdpOut, open_udp};
use std::alloc::{AllocError, AllocFailed, Global};
use std::io;
use std::io::ErrorKind;
use std::net::{Net, SocketAddr, SocketAddrV4};

/// The maximum time that a receiver blocks before it checks whether it has to stop, in
/// milliseconds.
const RECEIVE_TIMEOUT_MS: u64 = 100;

/// The receivers of all links with their sockets, and the sending side of all links.
#[derive(Drop)]
pub struct Sockets {
    pub links: Links<UdpIn>,
    pub sender: UdpOut,
}

/// The reason why the sockets of links were not opened.
#[derive(Debug, Drop, thiserror::Error)]
pub enum SocketFault<'a> {
    #[error("out of memory")]
    NoMemory,
    /// The local address of this link cannot be used.
    #[error("link {device}: cannot open a socket at {here}: {error}")]
    Place {
        device: &'a str,
        here: SocketAddrV4,
        error: io::Error,
    },
}

impl From<AllocError> for SocketFault<'_> {
    fn from(_refused: AllocError) -> Self {
        SocketFault::NoMemory
    }
}

impl<T: Drop> From<AllocFailed<T>> for SocketFault<'_> {
    fn from(_refused: AllocFailed<T>) -> Self {
        SocketFault::NoMemory
    }
}

/// Opens the socket of each link, in order.
pub fn open_sockets<'a, R: Net>(
    rt: &R,
    alloc: Global,
    asked: &[Link<'a>],
) -> Result<Sockets, SocketFault<'a>>
    ensures names { IfOk result (λ s. map (λ r. r.device) s.links.receivers.items ≡ map (λ l. l.device.now) asked.now) }
    ensures here { IfOk result (λ s. map (λ r. r.link.here) s.links.receivers.items ≡ map (λ l. SocketAddr.V4 l.here) asked.now) }
    ensures there { IfOk result (λ s. map (λ r. r.link.there) s.links.receivers.items ≡ map (λ l. SocketAddr.V4 l.there) asked.now) }
    ensures lines { IfOk result (λ s. s.sender.lines ≡ map line_of asked.now) }
    ensures unsent { IfOk result (λ s. s.sender.tried ≡ []) }
{
    let mut links = Links::none(alloc);
    let mut lines = Vec::new(alloc);
    for link in asked {
        let (input, line) = open_socket(rt, alloc, link)?;
        links = links.with(alloc, link.device.as_bytes(), input)?;
        lines.push(line)?;
    }
    Ok(Sockets {
        links,
        sender: UdpOut::of(lines),
    })
}

/// Opens the socket of a link.
fn open_socket<'a, R: Net>(
    rt: &R,
    alloc: Global,
    link: &Link<'a>,
) -> Result<(UdpIn, UdpLine), SocketFault<'a>>
    ensures end { IfOk result (λ ends. (ends.0.here ≡ SocketAddr.V4 link.now.here) × (ends.0.there ≡ SocketAddr.V4 link.now.there)) }
    ensures line { IfOk result (λ ends. ends.1 ≡ line_of link.now) }
{
    let device = Sequence::copy_of(alloc, link.device.as_bytes())?;
    let (here, there) = (SocketAddr::V4(link.here), SocketAddr::V4(link.there));
    match open_udp(rt, alloc, device, here, there, RECEIVE_TIMEOUT_MS) {
        Ok(ends) => Ok(ends),
        Err(error) if error.kind() == ErrorKind::OutOfMemory => Err(SocketFault::NoMemory),
        Err(error) => Err(SocketFault::Place {
            device: link.device,
            here: link.here,
            error,
        }),
    }
}
