//! Packets and bytes as hex digits.

ghost use Rattle.std.specs.Prelude.{◌≡◌, IfOk, MatchResult};
ghost use Rattle.click_lines.specs.Digits.{IsHex, IsPacketOf, IsNoPacket, hex_text};

use click_packet::Packet;
use hex::FromHexError;
use std::alloc::{AllocError, Global};
use thiserror::Error;

/// The reason why a text is not a packet.
#[derive(Clone, Copy, Debug, PartialEq, Eq, Error)]
pub enum HexFault {
    #[error("out of memory")]
    NoMemory,
    #[error("a packet has no digits; write an empty packet as -")]
    NoDigits,
    #[error("a packet has an odd number of hex digits; write two for each byte")]
    OddDigits,
    #[error("a packet has a character that is not a hex digit (0 to 9, a to f, A to F)")]
    NoDigit,
    #[error("a packet has more than 1600 bytes")]
    TooLong,
}

/// Returns the hex digits of the bytes, two for each byte, in lower case. Returns `-` for no bytes.
pub fn hex_text(alloc: Global, bytes: &[u8]) -> Result<Vec<u8>, AllocError>
    ensures text { IfOk result (λ text. text.items ≡ hex_text bytes.now) }
    // The digits read back as these bytes.
    ensures back { IfOk result (λ text. IsHex text.items bytes.now) }
{
    if bytes.is_empty() {
        return Vec::from_slice(alloc, b"-");
    }
    let digits = hex::encode(alloc, bytes)?;
    Ok(digits.into_bytes())
}

/// Returns the packet with these hex digits, in either case, with paint 0 and destination 0.0.0.0.
/// The text `-` is an empty packet.
pub fn packet_of(alloc: Global, digits: &[u8]) -> Result<Packet, HexFault>
    ensures { MatchResult result (IsPacketOf digits.now) (IsNoPacket digits.now) }
{
    if digits == b"-".as_slice() {
        return Ok(Packet::empty());
    }
    if digits.is_empty() {
        return Err(HexFault::NoDigits);
    }
    match hex::decode(alloc, digits) {
        Ok(bytes) => match Packet::of(bytes.as_slice()) {
            Ok(packet) => Ok(packet),
            Err(_) => Err(HexFault::TooLong),
        },
        Err(FromHexError::OutOfMemory) => Err(HexFault::NoMemory),
        Err(FromHexError::OddLength) => Err(HexFault::OddDigits),
        Err(_) => Err(HexFault::NoDigit),
    }
}
