//! IPv4 headers of packets.

use super::stop::Stop;
use super::words::{read_address, read_byte, read_packet};
use crate::script::cut;
use click_lines::hex_text;
use std::alloc::Global;

/// Returns whether a packet's header is valid, its length and its time to live, as `good 20 64`.
///
/// The words are the packet and the source addresses that are refused.
pub fn show_header(alloc: Global, words: &[u8]) -> Result<Vec<u8>, Stop> {
    let (digits, sources) = cut(words, b' ');
    let packet = read_packet(alloc, digits)?;
    let refused = addresses(alloc, sources)?;
    let word = if packet.header_good(refused.as_slice()) {
        "good"
    } else {
        "bad"
    };
    let text = match (packet.header_len(), packet.ttl()) {
        (Some(length), Some(ttl)) => format!(in alloc; "{word} {length} {ttl}")?,
        (Some(length), None) => format!(in alloc; "{word} {length} none")?,
        (None, Some(ttl)) => format!(in alloc; "{word} none {ttl}")?,
        (None, None) => format!(in alloc; "{word} none none")?,
    };
    Ok(text.into_bytes())
}

/// Returns the addresses of the words.
fn addresses(alloc: Global, words: &[u8]) -> Result<Vec<[u8; 4]>, Stop> {
    let mut found = Vec::new(alloc);
    if words.is_empty() {
        return Ok(found);
    }
    for word in words.split(|byte| *byte == b' ') {
        found.push(read_address(word)?)?;
    }
    Ok(found)
}

/// Returns a packet with another time to live, or `no header`.
///
/// The words are the packet and the time to live.
pub fn set_ttl(alloc: Global, words: &[u8]) -> Result<Vec<u8>, Stop> {
    let (digits, ttl) = cut(words, b' ');
    let mut packet = read_packet(alloc, digits)?;
    if packet.set_ttl(read_byte(ttl)?) {
        Ok(hex_text(alloc, packet.bytes())?)
    } else {
        Ok(Vec::from_slice(alloc, b"no header")?)
    }
}
