//! The records of a capture: a head of 16 bytes, and then the bytes of a packet.

ghost use Rattle.std.specs.Prelude.{◌≡◌, ◌≤◌, ◌<◌, length, IfOk, IfErr};
ghost use Rattle.click_capture.specs.Captures.{longest, head_bytes};

use crate::fault::TooLong;
use crate::header::Header;
use crate::order::Order;

/// The length of a record's head, in bytes.
pub const RECORD_HEADER_LEN: usize = 16;

/// The maximum number of bytes of a packet in any capture (MAXIMUM_SNAPLEN of libpcap).
pub const MAX_RECORD_BYTES: u32 = 262_144;

/// The time at which a packet was captured.
#[derive(Clone, Copy, Debug, PartialEq, Eq)]
pub struct Time {
    /// The seconds since the beginning of 1970, UTC.
    pub seconds: u32,
    /// The microseconds or nanoseconds after them, in the capture's resolution. May be any number.
    pub fraction: u32,
}

/// The head of a record, which comes before the bytes of the packet.
#[derive(Clone, Copy, Debug, PartialEq, Eq)]
pub struct RecordHeader {
    pub time: Time,
    /// The number of bytes of the packet that follow.
    pub kept: u32,
    /// The number of bytes that the packet had on the wire.
    pub wire: u32,
}

/// Returns the maximum number of bytes of a packet in a capture with this snap length.
///
/// It is the snap length, or 262,144 if that is 0 or larger.
pub fn longest(snap: u32) -> u32
    ensures value { result ≡ longest snap }
    ensures most { result ≤ 262144 }
{
    if snap == 0 || snap > MAX_RECORD_BYTES {
        MAX_RECORD_BYTES
    } else {
        snap
    }
}

/// Returns the head with these 16 bytes, or the fault of a record that is too long.
///
/// `header` is the header of the capture.
pub fn record_header_of(header: &Header, bytes: &[u8]) -> Result<RecordHeader, TooLong>
    requires { length bytes.now ≡ 16 }
    ensures ok { IfOk result (λ head. (bytes.now ≡ head_bytes header.now.order head) × (head.kept ≤ longest header.now.snap)) }
    ensures fault { IfErr result (λ fault. (head : RecordHeader) × (bytes.now ≡ head_bytes header.now.order head) × (head.kept ≡ fault.claimed) × (fault.most ≡ longest header.now.snap) × (fault.most < fault.claimed)) }
{
    let order = header.order;
    let (seconds, rest) = order.split_u32(bytes);
    let (fraction, rest) = order.split_u32(rest);
    let (kept, rest) = order.split_u32(rest);
    let (wire, _none) = order.split_u32(rest);
    let most = longest(header.snap);
    if kept > most {
        let claimed = kept;
        return Err(TooLong { claimed, most });
    }
    let time = Time { seconds, fraction };
    Ok(RecordHeader { time, kept, wire })
}

/// Returns the bytes of the head of a packet that is kept whole, of `len` bytes.
pub fn record_head_bytes(order: Order, time: Time, len: u32) -> [u8; RECORD_HEADER_LEN]
    ensures { result ≡ head_bytes order (record { time = time; kept = len; wire = len }) }
{
    let length = order.u32_bytes(len);
    let mut bytes = [0; RECORD_HEADER_LEN];
    bytes[..4].copy_from_slice(&order.u32_bytes(time.seconds));
    bytes[4..8].copy_from_slice(&order.u32_bytes(time.fraction));
    bytes[8..12].copy_from_slice(&length);
    bytes[12..].copy_from_slice(&length);
    bytes
}
