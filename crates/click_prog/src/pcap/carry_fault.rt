//! The faults at which a run stops early.

use click_capture::{HeaderFault, TooLong};
use thiserror::Error;

/// The fault at which a run stops early.
///
/// Packets are counted from 1, and bytes of the capture from 0. `at` is the byte at which a record
/// begins.
#[derive(Clone, Copy, Debug, PartialEq, Eq, Error)]
pub enum CarryFault {
    #[error("byte {at}: the capture ends inside its header of 24 bytes")]
    ShortHeader {
        at: u64,
    },
    #[error("{0}")]
    Header(HeaderFault),
    #[error("packet {number}, byte {at}: the capture ends inside this record")]
    Cut {
        number: u64,
        at: u64,
    },
    #[error("packet {number}, byte {at}: {fault}")]
    TooLong {
        number: u64,
        at: u64,
        fault: TooLong,
    },
    /// The sink returned a packet each time that it was asked.
    #[error("packet {number}, byte {at}: the sink returned 1048576 packets after this packet; fewer are allowed")]
    GivesOn {
        number: u64,
        at: u64,
    },
    /// 2^64 - 1 records were read. No run gets there.
    #[error("18446744073709551615 packets were read, which is the maximum")]
    Uncounted,
    #[error("out of memory")]
    NoMemory,
    #[error("a read failed")]
    ReadFailed,
    #[error("a write failed")]
    WriteFailed,
}

/// The reason why the packets that the sink returned after one packet were not all written.
#[derive(Clone, Copy, Debug, PartialEq, Eq)]
pub enum SendFault {
    /// The sink returned a packet each time that it was asked.
    GivesOn,
    WriteFailed,
}
