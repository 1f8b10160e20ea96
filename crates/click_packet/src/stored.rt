//! Packets in memory of their own length.

ghost use Rattle.std.specs.Prelude.{◌≡◌, ◌≤◌, [], length, IfOk, vec_capacity};
ghost use Rattle.click_packet.specs.Packet.{longest_packet};

use crate::packet::{Annotations, MAX_PACKET_BYTES, Packet};
use std::alloc::{AllocError, Global};
use std::marker::Model;

/// A packet that is stored: its bytes and its annotations.
///
/// It takes as much memory as it has bytes, while a `Packet` always has room for 1,600.
#[derive(Drop)]
pub struct StoredPacket {
    bytes: Vec<u8>,
    annotations: Annotations,
}

impl Model for StoredPacket {
    ghost use Rattle.std.specs.Prelude.{◌≤◌, length};
    ghost use Rattle.click_packet.specs.Packet.{Packet as Seen, longest_packet};

    ghost Value = { Seen };

    ghost invariant = { λ p. length p.bytes.items ≤ longest_packet };

    ghost view = { λ p. record { bytes = p.bytes.items; paint = p.annotations.paint; destination = p.annotations.destination } };
}

impl StoredPacket {
    /// Returns a stored packet that equals `packet`, or fails with out of memory.
    pub fn of(alloc: Global, packet: &Packet) -> Result<StoredPacket, AllocError>
        ensures { IfOk result (λ stored. stored ≡ packet.now) }
    {
        Ok(StoredPacket {
            bytes: Vec::from_slice(alloc, packet.bytes())?,
            annotations: packet.annotations(),
        })
    }

    /// Returns an equal stored packet, or fails with out of memory.
    pub fn copy(&self, alloc: Global) -> Result<StoredPacket, AllocError>
        ensures { IfOk result (λ copy. copy ≡ self.now) }
    {
        Ok(StoredPacket {
            bytes: Vec::from_slice(alloc, self.bytes.as_slice())?,
            annotations: self.annotations,
        })
    }

    /// Returns the bytes, at most 1,600.
    pub fn bytes(&self) -> &[u8]
        ensures value { result.now ≡ self.now.bytes }
        ensures fits { length result.now ≤ longest_packet }
    {
        self.bytes.as_slice()
    }

    /// Returns the paint.
    pub fn paint(&self) -> u8
        ensures { result ≡ self.now.paint }
    {
        self.annotations.paint
    }

    /// Returns the destination.
    pub fn destination(&self) -> [u8; 4]
        ensures { result ≡ self.now.destination }
    {
        self.annotations.destination
    }

    /// Makes `packet` equal to this one. Does not allocate.
    pub fn write_to(&self, packet: &mut Packet)
        ensures { packet.new ≡ self.now }
    {
        match packet.fill(self.bytes.as_slice()) {
            Ok(()) => packet.set_annotations(self.annotations),
            Err(_) => unreachable!(),
        }
    }
}

/// Memory for a packet of any length that is to be stored later.
#[derive(Drop)]
pub struct PacketRoom {
    bytes: Vec<u8>,
    ghost empty: { bytes.items ≡ [] },
    ghost enough: { longest_packet ≤ vec_capacity bytes },
}

impl PacketRoom {
    /// Allocates room for 1,600 bytes, or fails with out of memory.
    pub fn new(alloc: Global) -> Result<PacketRoom, AllocError> {
        Ok(PacketRoom {
            bytes: Vec::with_capacity(alloc, MAX_PACKET_BYTES)?,
        })
    }

    /// Fills the room with these bytes, and frees the memory that they do not need.
    fn filled(self, given: &[u8]) -> Vec<u8>
        requires { length given.now ≤ longest_packet }
        ensures { result.items ≡ given.now }
    {
        let PacketRoom { mut bytes } = self;
        match bytes.extend_from_slice(given) {
            Ok(()) => {}
            Err(_) => unreachable!(),
        }
        bytes.shrink_to_fit();
        bytes
    }

    /// Stores `packet` in this room, and frees the memory that it does not need.
    ///
    /// Never fails.
    pub fn keep(self, packet: &Packet) -> StoredPacket
        ensures { result ≡ packet.now }
    {
        StoredPacket {
            bytes: self.filled(packet.bytes()),
            annotations: packet.annotations(),
        }
    }

    /// Stores a copy of `packet` in this room, and frees the memory that it does not need.
    ///
    /// Never fails.
    pub fn copy_of(self, packet: &StoredPacket) -> StoredPacket
        ensures { result ≡ packet.now }
    {
        StoredPacket {
            bytes: self.filled(packet.bytes()),
            annotations: packet.annotations,
        }
    }
}
