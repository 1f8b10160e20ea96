//! The header of a capture: its first 24 bytes.

ghost use Rattle.std.specs.Prelude.{◌≡◌, ◌≢◌, ◌++◌, ℕ, length, take, IfOk, IfErr, IfNone, IfSome, Ok};
ghost use Rattle.click_capture.specs.Numbers.{word};
ghost use Rattle.click_capture.specs.Captures.{magic, link_number, header_bytes, FitsHeader, IsHeaderFault};
ghost use Rattle.click_capture.specs.declared.order.Order.{Order};
ghost use Rattle.click_capture.specs.declared.header.Header.{Header};
ghost use Rattle.click_capture.specs.declared.header.Resolution.{Resolution};

use crate::fault::HeaderFault;
use crate::order::Order;
use std::alloc::{AllocError, Global};

/// The length of a header, in bytes.
pub const HEADER_LEN: usize = 24;

/// The version of the format that is read and written, 2.4.
const MAJOR: u16 = 2;

const MINOR: u16 = 4;

/// The magic numbers of captures with times in microseconds and in nanoseconds, in either byte
/// order.
const MICRO: u32 = 0xa1b2_c3d4;

const NANO: u32 = 0xa1b2_3c4d;

const MICRO_SWAPPED: u32 = 0xd4c3_b2a1;

const NANO_SWAPPED: u32 = 0x4d3c_b2a1;

/// The first four bytes of a pcapng file, in either byte order: the type of its section header
/// block.
const SECTION_HEADER: [u8; 4] = [0x0a, 0x0d, 0x0d, 0x0a];

/// The unit of the second number of a time.
#[derive(Clone, Copy, Debug, PartialEq, Eq)]
pub enum Resolution {
    Micro,
    Nano,
}

/// The link type: the header that the packets of a capture begin with.
#[derive(Clone, Copy, Debug, PartialEq, Eq)]
pub enum Link {
    /// An Ethernet header (LINKTYPE_ETHERNET).
    Ethernet,
    /// An IPv4 or IPv6 header (LINKTYPE_RAW).
    Raw,
    /// An IPv4 header (LINKTYPE_IPV4).
    Ipv4,
}

/// The fields of a header, version 2.4.
#[derive(Clone, Copy, Debug, PartialEq, Eq)]
pub struct Header {
    pub order: Order,
    pub resolution: Resolution,
    /// The time zone of the times, in seconds; 0 in practice.
    pub zone: u32,
    /// The accuracy of the times; 0 in practice.
    pub accuracy: u32,
    /// The maximum number of bytes that are kept of a packet; see `longest`.
    pub snap: u32,
    pub link: Link,
}

impl Resolution {
    fn magic(self) -> u32
        ensures { result ≡ magic self }
    {
        match self {
            Resolution::Micro => MICRO,
            Resolution::Nano => NANO,
        }
    }
}

impl Link {
    fn number(self) -> u32
        ensures { result ≡ link_number self }
    {
        match self {
            Link::Ethernet => 1,
            Link::Raw => 101,
            Link::Ipv4 => 228,
        }
    }

    fn of(number: u32) -> Option<Link>
        ensures some { IfSome result (λ link. number ≡ link_number link) }
        ensures none { IfNone result ((number ≢ 1) × (number ≢ 101) × (number ≢ 228)) }
    {
        if number == 1 {
            return Some(Link::Ethernet);
        }
        if number == 101 {
            return Some(Link::Raw);
        }
        if number == 228 {
            return Some(Link::Ipv4);
        }
        None
    }
}

/// Returns the byte order and resolution that the magic number states, and the bytes after it.
///
/// Returns `None` if the first four bytes are no magic number.
fn kind_at(bytes: &[u8]) -> Option<((Order, Resolution), &[u8])>
    requires { length bytes.now ≡ 24 }
    ensures some { IfSome result (λ r. (bytes.now ≡ word r.0.0 (magic r.0.1) ++ r.1.now) × (length r.1.now ≡ 20)) }
    ensures none { IfNone result ((o : Order) (r : Resolution) → take 4 bytes.now ≢ word o (magic r)) }
{
    let (number, rest) = Order::Little.split_u32(bytes);
    if number == MICRO {
        return Some(((Order::Little, Resolution::Micro), rest));
    }
    if number == NANO {
        return Some(((Order::Little, Resolution::Nano), rest));
    }
    if number == MICRO_SWAPPED {
        return Some(((Order::Big, Resolution::Micro), rest));
    }
    if number == NANO_SWAPPED {
        return Some(((Order::Big, Resolution::Nano), rest));
    }
    None
}

/// Returns the fault of bytes that do not begin with a magic number.
fn kind_fault(bytes: &[u8]) -> HeaderFault
    requires len { length bytes.now ≡ 24 }
    requires none { (o : Order) (r : Resolution) → take 4 bytes.now ≢ word o (magic r) }
    ensures { IsHeaderFault bytes.now result }
{
    if bytes.starts_with(&SECTION_HEADER) {
        HeaderFault::Pcapng
    } else {
        HeaderFault::Magic
    }
}

/// Returns the header with these 24 bytes, or their first fault.
///
/// If these are the bytes of a header, that header is returned.
pub fn header_of(bytes: &[u8]) -> Result<Header, HeaderFault>
    requires { length bytes.now ≡ 24 }
    ensures ok { IfOk result (λ header. bytes.now ≡ header_bytes header) }
    ensures only { (h : Header) → FitsHeader h → bytes.now ≡ header_bytes h → result ≡ Ok h }
    ensures fault { IfErr result (IsHeaderFault bytes.now) }
{
    fields_of(bytes)
}

/// Returns the header with these 24 bytes, or their first fault.
fn fields_of(bytes: &[u8]) -> Result<Header, HeaderFault>
    requires { length bytes.now ≡ 24 }
    ensures ok { IfOk result (λ header. (bytes.now ≡ header_bytes header) × FitsHeader header) }
    ensures fault { IfErr result (IsHeaderFault bytes.now) }
{
    let Some(((order, resolution), rest)) = kind_at(bytes) else {
        return Err(kind_fault(bytes));
    };
    let (major, rest) = order.split_u16(rest);
    let (minor, rest) = order.split_u16(rest);
    if major != MAJOR || minor != MINOR {
        return Err(HeaderFault::Version { major, minor });
    }
    let (zone, rest) = order.split_u32(rest);
    let (accuracy, rest) = order.split_u32(rest);
    let (snap, rest) = order.split_u32(rest);
    let (number, _none) = order.split_u32(rest);
    let Some(link) = Link::of(number) else {
        return Err(HeaderFault::Link { number });
    };
    Ok(Header {
        order,
        resolution,
        zone,
        accuracy,
        snap,
        link,
    })
}

/// Returns the 24 bytes of a header, or fails with out of memory.
pub fn header_bytes(alloc: Global, header: &Header) -> Result<Vec<u8>, AllocError>
    ensures { IfOk result (λ bytes. bytes.items ≡ header_bytes header.now) }
{
    let order = header.order;
    let mut bytes = Vec::with_capacity(alloc, HEADER_LEN)?;
    bytes.extend_from_slice(&order.u32_bytes(header.resolution.magic()))?;
    bytes.extend_from_slice(&order.u16_bytes(MAJOR))?;
    bytes.extend_from_slice(&order.u16_bytes(MINOR))?;
    bytes.extend_from_slice(&order.u32_bytes(header.zone))?;
    bytes.extend_from_slice(&order.u32_bytes(header.accuracy))?;
    bytes.extend_from_slice(&order.u32_bytes(header.snap))?;
    bytes.extend_from_slice(&order.u32_bytes(header.link.number()))?;
    Ok(bytes)
}
