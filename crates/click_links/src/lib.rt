//! Links: devices of a configuration that are connected to peers outside the router.
//!
//! A datagram that arrives over a link becomes a packet of its device, and a packet that the device
//! transmits leaves as a datagram.
#![tactic(auto)]

mod counts;
mod cycles;
mod datagram;
mod device;
mod dropped;
mod forwarder;
mod forwarder_thread;
pub mod laws;
mod link;
mod links;
mod memory;
mod pause;
mod receiver;
mod recorded_feed;
mod run;
mod send_attempts;
mod sharing;
mod sweeping;
mod turns;
mod udp;

pub use counts::{CountSnapshot, Counts};
pub use datagram::{Datagram, DatagramOutcome};
pub use device::Device;
pub use dropped::Dropped;
pub use link::{Inbound, LinkFailed, Outbound};
pub use links::Links;
pub use memory::{MemoryIn, MemoryOut};
pub use pause::Pause;
pub use receiver::{Ended, ReceiverReport, receive};
pub use recorded_feed::RecordedFeed;
pub use run::{LinkSet, LinksOutcome, Receiver, run_links};
pub use sweeping::{SweepResult, sweep};
pub use turns::{Tally, Turn, forward};
pub use udp::{UdpIn, UdpLine, UdpOut, open_udp};
