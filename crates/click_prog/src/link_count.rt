//! The counts of links as metrics.

use click_links::CountSnapshot;

/// A count of a link, with its metric.
#[derive(Clone, Copy, Debug, PartialEq, Eq)]
pub enum LinkCount {
    Received,
    Strangers,
    TooLong,
    NoRoom,
    NoMemory,
    Entered,
    Sent,
    Failed,
}

/// All counts of a link.
pub const LINK_COUNTS: [LinkCount; 8] = [
    LinkCount::Received,
    LinkCount::Strangers,
    LinkCount::TooLong,
    LinkCount::NoRoom,
    LinkCount::NoMemory,
    LinkCount::Entered,
    LinkCount::Sent,
    LinkCount::Failed,
];

impl LinkCount {
    /// Returns the name of the metric.
    pub fn metric(self) -> &'static [u8] {
        match self {
            LinkCount::Received => b"click_link_received_total",
            LinkCount::Strangers => b"click_link_strangers_total",
            LinkCount::TooLong => b"click_link_too_long_total",
            LinkCount::NoRoom => b"click_link_no_room_total",
            LinkCount::NoMemory => b"click_link_no_memory_total",
            LinkCount::Entered => b"click_link_entered_total",
            LinkCount::Sent => b"click_link_sent_total",
            LinkCount::Failed => b"click_link_failed_total",
        }
    }

    /// Returns the line that describes the metric.
    pub fn help(self) -> &'static [u8] {
        match self {
            LinkCount::Received => b"Number of datagrams that came.",
            LinkCount::Strangers => b"Number of datagrams that were not from the peer.",
            LinkCount::TooLong => b"Number of datagrams of more than 1,600 bytes.",
            LinkCount::NoRoom =>
                b"Number of datagrams that were dropped because the feed was full.",
            LinkCount::NoMemory => b"Number of datagrams that were dropped for lack of memory.",
            LinkCount::Entered => b"Number of packets that entered the router.",
            LinkCount::Sent => b"Number of packets that were sent.",
            LinkCount::Failed => b"Number of packets that could not be sent.",
        }
    }

    /// Returns the value of this count.
    pub fn value(self, counted: &CountSnapshot) -> u64 {
        match self {
            LinkCount::Received => counted.received,
            LinkCount::Strangers => counted.strangers,
            LinkCount::TooLong => counted.too_long,
            LinkCount::NoRoom => counted.no_room,
            LinkCount::NoMemory => counted.no_memory,
            LinkCount::Entered => counted.entered,
            LinkCount::Sent => counted.sent,
            LinkCount::Failed => counted.failed,
        }
    }
}
