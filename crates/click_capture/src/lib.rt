//! Captures of packets in the classic format of pcap-savefile(5), as bytes and as values.
#![tactic(auto)]

mod fault;
mod header;
pub mod laws;
mod order;
mod record;

pub use fault::{HeaderFault, TooLong};
pub use header::{HEADER_LEN, Header, Link, Resolution, header_bytes, header_of};
pub use order::Order;
pub use record::{
    MAX_RECORD_BYTES, RECORD_HEADER_LEN, RecordHeader, Time, longest, record_head_bytes,
    record_header_of,
};
