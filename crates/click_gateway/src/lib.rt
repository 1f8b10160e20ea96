//! ARP packets in Ethernet frames (RFC 826) and ICMP messages in IP datagrams (RFC 792), which
//! replace the packet that they answer.
//!
//! Also mirrored frames and datagrams, and UDP datagrams (RFC 768). No function allocates memory.
#![tactic(auto)]

mod addresses;
mod arp;
mod datagrams;
mod icmp;
pub mod laws;
mod mirrors;
mod udp;

pub use addresses::{ethernet_of_group, is_host};
pub use arp::{
    ArpSender, arp_sender, ask_for, reply_to_request, requested_address, with_ether_header,
};
pub use icmp::{ErrorKind, answer_echo, report};
pub use mirrors::{
    is_for, is_for_group, mirror_datagram, mirror_frame, set_checksum, strip_header,
};
pub use udp::{Tunnel, encapsulate_in_udp};
