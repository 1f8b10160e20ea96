//! Faults of captures.

use thiserror::Error;

/// A fault of a capture's header: the first one from the left.
///
/// Its text names the byte of the capture at which it is, counted from 0.
#[derive(Clone, Copy, Debug, PartialEq, Eq, Error)]
pub enum HeaderFault {
    /// The first four bytes are those of a pcapng file, the newer format.
    #[error("byte 0: this is a pcapng capture; `editcap -F pcap` of Wireshark converts it to a pcap capture")]
    Pcapng,
    /// The first four bytes are neither a magic number of the classic format nor those of pcapng.
    #[error("byte 0: not a magic number of a pcap capture (a1b2c3d4 or a1b23c4d, in either byte order)")]
    Magic,
    #[error("byte 4: the format version is {major}.{minor}, not 2.4")]
    Version { major: u16, minor: u16 },
    /// The packets begin neither with an Ethernet header nor with an IP header.
    #[error("byte 20: the link type is {number}, not 1 (Ethernet), 101 (raw IP) or 228 (IPv4)")]
    Link { number: u32 },
}

/// The fault of a record with more bytes than the capture allows.
#[derive(Clone, Copy, Debug, PartialEq, Eq, Error)]
#[error("the record has {claimed} bytes; the capture allows at most {most}")]
pub struct TooLong {
    /// The number of bytes that the record states.
    pub claimed: u32,
    /// The number of bytes that it may have.
    pub most: u32,
}
