//! Links in memory.

ghost use Rattle.std.specs.Prelude.{◌≡◌, ◌++◌, ◌∷◌, [], take, ◌-◌, slice_index_or, false, IfOk, OnErr, if◌then◌else◌};
ghost use Rattle.click_links.specs.Ends.{nothing};

use crate::datagram::Datagram;
use crate::link::{Inbound, LinkFailed, Outbound};
use crate::send_attempts::SendAttempts;
use click_base::sequence::Sequence;
use click_packet::StoredPacket;
use std::alloc::{AllocError, Global};
use std::marker::Model;

/// A receiving end at which these datagrams come, in order. After the last one the link fails.
#[derive(Drop)]
pub struct MemoryIn {
    all: Vec<Datagram>,
    next: usize,
}

impl Model for MemoryIn {
    ghost use Rattle.std.specs.Prelude.{◌≤◌, vec_len};
    ghost use Rattle.click_links.specs.Ends.{Reading};

    ghost Value = { Reading };

    ghost view = { λ l. record { all = l.all.items; next = l.next } };

    ghost invariant = { λ l. l.next ≤ vec_len l.all };
}

impl MemoryIn {
    /// Returns a receiving end at which no datagram has come yet.
    pub fn new(all: Vec<Datagram>) -> MemoryIn
        ensures { result ≡ record { all = all.items; next = 0 } }
    {
        MemoryIn { all, next: 0 }
    }
}

impl Inbound for MemoryIn {
    ghost use Rattle.click_links.specs.Ends.{received_in_memory};

    ghost received = { λ l. received_in_memory l };

    ghost current = { λ l. slice_index_or l.all (l.next - 1) nothing };

    fn receive(&mut self) -> Result<bool, LinkFailed> {
        if self.next >= self.all.len() {
            return Err(LinkFailed);
        }
        self.next += 1;
        Ok(true)
    }

    fn bytes(&self) -> &[u8] {
        match self.all.get(self.next.saturating_sub(1)) {
            Some(datagram) => datagram.bytes.as_slice(),
            None => &[],
        }
    }

    fn is_known(&self) -> bool {
        match self.all.get(self.next.saturating_sub(1)) {
            Some(datagram) => datagram.known,
            None => false,
        }
    }

    fn has_more(&self) -> bool {
        self.next < self.all.len()
    }
}

/// A sending end that stores up to `most` packets that are sent over the links of these devices. A
/// packet of another device, one more packet, or one for which there is no memory, is lost.
#[derive(Drop)]
pub struct MemoryOut {
    alloc: Global,
    devices: Vec<Sequence<u8>>,
    most: usize,
    all: Vec<(Sequence<u8>, StoredPacket)>,
    tried: SendAttempts,
}

impl Model for MemoryOut {
    ghost use Rattle.std.specs.Prelude.{◌≡◌, List};
    ghost use Rattle.click_links.specs.Ends.{Attempt, gone};

    ghost Value = { List Attempt };

    ghost view = { λ k. k.tried };

    ghost invariant = { λ k. k.all.items ≡ gone k.tried };
}

impl MemoryOut {
    ghost use Rattle.click_links.specs.Ends.{gone};

    /// Returns a sending end for up to `most` packets of these devices, with nothing sent yet.
    pub fn new(alloc: Global, devices: Vec<Sequence<u8>>, most: usize) -> MemoryOut
        ensures { result ≡ [] }
    {
        MemoryOut {
            alloc,
            devices,
            most,
            all: Vec::new(alloc),
            tried: SendAttempts::new(),
        }
    }

    /// Returns the packets that were sent, oldest first, each with its device.
    pub fn packets(&self) -> &[(Sequence<u8>, StoredPacket)]
        ensures { result.now ≡ gone self.now }
    {
        self.all.as_slice()
    }
}

impl Outbound for MemoryOut {
    ghost attempts = { λ k. k };

    fn send(&mut self, device: &Sequence<u8>, packet: &StoredPacket) -> bool {
        let open = has_device(self.devices.as_slice(), device) & (self.all.len() < self.most);
        let sent = keep(self.alloc, open, &mut self.all, device, packet);
        self.tried.add(device, packet, sent);
        sent
    }
}

fn has_device(devices: &[Sequence<u8>], device: &Sequence<u8>) -> bool {
    devices
        .iter()
        .any(|name| name.as_slice() == device.as_slice())
}

/// Stores a copy of the packet, with its device, if `open` allows it and there is memory. Returns
/// whether it did.
fn keep(
    alloc: Global,
    open: bool,
    all: &mut Vec<(Sequence<u8>, StoredPacket)>,
    device: &Sequence<u8>,
    packet: &StoredPacket,
) -> bool
    ensures { all.new.items ≡ all.old.items ++ (if result then (device.now, packet.now) ∷ [] else []) }
{
    if !open {
        return false;
    }
    match copies(alloc, device, packet) {
        Ok(copies) => all.push(copies).is_ok(),
        Err(_) => false,
    }
}

fn copies(
    alloc: Global,
    device: &Sequence<u8>,
    packet: &StoredPacket,
) -> Result<(Sequence<u8>, StoredPacket), AllocError>
    ensures { IfOk result (λ r. (r.0 ≡ device.now) × (r.1 ≡ packet.now)) }
{
    let device = Sequence::copy_of(alloc, device.as_slice())?;
    Ok((device, packet.copy(alloc)?))
}
