//! The errors that an ICMPError reports.

/// An error report: the address of its sender, its type and code, and the MTU of the next hop.
#[derive(Clone, Copy, Debug, PartialEq, Eq)]
pub struct Report {
    pub own: [u8; 4],
    pub kind: u8,
    pub code: u8,
    pub mtu: u16,
}
