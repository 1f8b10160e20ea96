//! The counts of a run.

use std::alloc::{AllocError, Global};

/// The numbers of packets of a run. A count stops at 2^64 - 1.
#[derive(Clone, Copy, Debug, Default, PartialEq, Eq)]
pub struct Tally {
    /// The number of records that were read whole.
    pub read: u64,
    /// The number of these that have more bytes than a packet can have.
    pub left_out: u64,
    /// The number of packets that entered the router.
    pub entered: u64,
    /// The number of packets that were written.
    pub written: u64,
}

impl Tally {
    /// Returns the line that reports the counts, with its end.
    pub fn line(&self, alloc: Global) -> Result<String, AllocError> {
        let Tally {
            read,
            left_out,
            entered,
            written,
        } = *self;
        format!(in alloc;
            "read {read}, left out {left_out}, entered {entered}, written {written}\n"
        )
    }
}
