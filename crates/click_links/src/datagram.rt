//! Datagrams, and their fates.

use click_base::sequence::Sequence;

/// A datagram that came.
#[derive(Drop)]
pub struct Datagram {
    pub bytes: Sequence<u8>,
    /// Whether it is from the link's peer.
    pub known: bool,
}

/// The fate of a datagram that came: put into the feed, or dropped for one of four causes.
#[derive(Clone, Copy, Debug, PartialEq, Eq)]
pub enum DatagramOutcome {
    /// It became a packet of the feed.
    Enqueued,
    /// It is not from the peer.
    ForeignSender,
    /// It has more bytes than a packet may have.
    TooLong,
    /// The feed was full.
    FeedFull,
    /// There was no memory for its packet.
    NoMemory,
}
