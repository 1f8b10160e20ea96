//! Words of a step that are numbers, addresses or packets.

use super::stop::Stop;
use crate::script::{cut, number_of};
use click_classes::address;
use click_lines::{HexFault, packet_of};
use click_packet::Packet;
use std::alloc::Global;

/// Returns the number in the first word, and the words after it.
pub fn read_number(words: &[u8]) -> Result<(usize, &[u8]), Stop> {
    let (word, rest) = cut(words, b' ');
    Ok((number_of(word)?, rest))
}

/// Returns the number, 0 to 255, in a word.
pub fn read_byte(word: &[u8]) -> Result<u8, Stop> {
    u8::try_from(number_of(word)?).ok().ok_or(Stop::Malformed)
}

/// Returns the address in a word.
pub fn read_address(word: &[u8]) -> Result<[u8; 4], Stop> {
    address(word).ok().ok_or(Stop::Malformed)
}

/// Returns the packet of these hex digits, with paint 0 and destination 0.0.0.0.
pub fn read_packet(alloc: Global, digits: &[u8]) -> Result<Packet, Stop> {
    match packet_of(alloc, digits) {
        Ok(packet) => Ok(packet),
        Err(HexFault::NoMemory) => Err(Stop::NoMemory),
        Err(_) => Err(Stop::Malformed),
    }
}
