//! The router of a run: packets enter at the source of one device and leave at the sink of another.

ghost use Rattle.std.specs.Prelude.{◌≡◌, ◌<◌, ◌≤◌, length, true, false, None, Some, IfOk, IfErr, OnOk, OnErr};
ghost use Rattle.click_router.specs.Opened.{IsOpened};
ghost use Rattle.click_prog.specs.Passages.{went, packet_of, Enters, Asked};
ghost use Rattle.click_prog.specs.PassageFaults.{IsConfigFault, IsNoPassage};

use click_base::sequence::Sequence;
use click_packet::{Packet, TooLong};
use click_router::{ConfigFault, FaultKind, Router, prepare};
use std::alloc::{AllocError, Global};
use std::marker::Model;

/// The reason why a run cannot begin.
#[derive(Debug, Drop)]
pub enum PassageFault {
    /// The configuration has a fault.
    Config(ConfigFault),
    /// The router has no source of the device at which packets enter.
    NoSource,
    /// The router has no sink of the device at which packets leave.
    NoSink,
    NoMemory,
}

/// A router with the devices at whose source packets enter and at whose sink they leave.
///
/// By the type's invariant it has both. No handler is called, so the router has no table of
/// handlers.
#[derive(Drop)]
pub struct CaptureRouter {
    router: Router<()>,
    source: Sequence<u8>,
    sink: Sequence<u8>,
    /// The buffer for the packet that enters.
    slot: Packet,
}

impl Model for CaptureRouter {
    ghost use Rattle.click_prog.specs.Passages.{PassageState, HasEnds};

    ghost Value = { PassageState };

    ghost view = { λ p. record { router = p.router; source = p.source; sink = p.sink } };

    ghost invariant = { λ p. HasEnds (record { router = p.router; source = p.source; sink = p.sink }) };
}

/// Opens a router of the text.
fn router_of(alloc: Global, text: &[u8]) -> Result<Router<()>, PassageFault>
    ensures ok { IfOk result (IsOpened text.now) }
    ensures err { IfErr result (IsConfigFault text.now) }
{
    match prepare(alloc, text) {
        Ok(prepared) => Ok(Router::open((), prepared)),
        Err(fault) if fault.kind == FaultKind::NoMemory => Err(PassageFault::NoMemory),
        Err(fault) => Err(PassageFault::Config(fault)),
    }
}

impl CaptureRouter {
    /// Opens a router of the text. It must have a source of the one device and a sink of the other.
    pub fn open(
        alloc: Global,
        text: &[u8],
        source: &[u8],
        sink: &[u8],
    ) -> Result<CaptureRouter, PassageFault>
        ensures ok { IfOk result (λ passage. IsOpened text.now passage.router × (passage.source ≡ source.now) × (passage.sink ≡ sink.now)) }
        ensures err { IfErr result (IsNoPassage text.now source.now sink.now) }
    {
        let router = match router_of(alloc, text) {
            Ok(router) => router,
            Err(why) => return Err(why),
        };
        if !router.has_source(source) {
            return Err(PassageFault::NoSource);
        }
        if !router.has_sink(sink) {
            return Err(PassageFault::NoSink);
        }
        let Ok(source) = Sequence::copy_of(alloc, source) else {
            return Err(PassageFault::NoMemory);
        };
        let Ok(sink) = Sequence::copy_of(alloc, sink) else {
            return Err(PassageFault::NoMemory);
        };
        Ok(CaptureRouter {
            router,
            source,
            sink,
            slot: Packet::empty(),
        })
    }

    /// Enters a packet of these bytes and runs each task once.
    ///
    /// Fails with `TooLong`, and changes nothing, if there are more than 1,600 bytes.
    pub fn enter(&mut self, bytes: &[u8]) -> Result<(), TooLong>
        ensures entered { OnOk result ((length bytes.now ≤ 1600) × Enters self.old.source (packet_of bytes.now) self.old.router self.new.router) }
        ensures long { OnErr result ((1600 < length bytes.now) × (self.new ≡ self.old)) }
        ensures ends { self.new ≡ went self.old self.new.router }
    {
        if let Err(why) = self.slot.fill(bytes) {
            return Err(why);
        }
        // The router has the source.
        let _entered = self.router.enter(self.source.as_slice(), &self.slot);
        let _worked = self.router.round();
        Ok(())
    }

    /// Asks the sink for a packet, and copies it into `packet`. Returns false, and leaves `packet`
    /// unchanged, if there is none.
    pub fn send_into(&mut self, packet: &mut Packet) -> bool
        ensures some { result ≡ true → Asked self.old.sink self.old.router (Some packet.new) self.new.router }
        ensures none { result ≡ false → Asked self.old.sink self.old.router None self.new.router × (packet.new ≡ packet.old) }
        ensures ends { self.new ≡ went self.old self.new.router }
    {
        // The router has the sink.
        self.router.transmit_into(self.sink.as_slice(), packet)
    }
}
