//! The running configuration: its handlers, its packets, and how it is replaced.

ghost use Rattle.std.specs.Prelude.{◌≡◌, IfErr, IfOk};
ghost use Rattle.click_router.specs.One.{arrivals};
ghost use Rattle.click_router.specs.Opened.{IsOpened};
ghost use Rattle.click_router.specs.Swap.{IsRefused};

use crate::call::{Reply, StepFault, refusal_of};
use crate::check::{Access, Check, check_element, check_own};
use crate::fault::FaultKind;
use crate::globals::{GlobalHandler, classes_text, is_hotconfig, list_text, named, number_text};
use crate::opening::{Prepared, prepare};
use crate::stored_reply::{CompactReply, StoredReply};
use click_base::sequence::Sequence;
use click_base::{Class, split};
use click_engine::{Element, Plant};
use click_expand::{Flat, flat_text};
use click_packet::{Packet, PacketRoom, StoredPacket};
use std::alloc::{AllocError, Global};
use std::marker::Model;

/// A lawful configuration with its plant.
#[derive(Drop)]
pub struct RunningConfig {
    pub(crate) text: Sequence<u8>,
    pub(crate) flat: Flat,
    pub(crate) plant: Plant,
}

impl Model for RunningConfig {
    ghost use Rattle.std.specs.Prelude.{◌≡◌};
    ghost use Rattle.click_ports.specs.Net.{names_of};
    ghost use Rattle.click_router.specs.State.{RouterState};

    ghost Value = { RouterState };

    ghost view = { λ r. record { text = r.text; flat = r.flat; plant = r.plant } };

    ghost invariant = { λ r. r.plant.net.names ≡ names_of r.flat.elements };
}

/// Enters packets of a device, one after another.
fn enter_all(plant: &mut Plant, device: &[u8], taken: &[StoredPacket])
    ensures { plant.new ≡ arrivals plant.old device.now taken.now }
{
    let mut whole = Packet::empty();
    for packet in taken {
        packet.write_to(&mut whole);
        let _entered = plant.enter(device, &whole);
    }
}

impl RunningConfig {
    ghost use Rattle.std.specs.Prelude.{◌≡◌, ◌↔◌, ◌⊎◌, ◌∷◌, [], true, false, None, Some, slice_get, IsTrue, IsSome, IfOk, IfSome, MatchOption, MatchResult};
    ghost use Rattle.click_engine.specs.Rounds.{source_of, sink_of};
    ghost use Rattle.click_router.specs.Globals.{global_value};
    ghost use Rattle.click_router.specs.One as spec;
    ghost use Rattle.click_router.specs.One.{entered, worked, sent, read_global, holds_memory};
    ghost use Rattle.click_router.specs.Swap.{taken, Swaps};
    ghost use Rattle.click_router.specs.kept.GlobalNames.{name_of};

    /// Returns the flat form.
    pub(crate) fn flat(&self) -> &Flat
        ensures { result.now ≡ self.now.flat }
    {
        &self.flat
    }

    /// Returns whether a FromDevice names the device.
    pub(crate) fn has_source(&self, device: &[u8]) -> bool
        ensures { IsTrue result ↔ IsSome (source_of self.now.plant device.now) }
    {
        self.plant.has_source(device)
    }

    /// Returns whether a ToDevice names the device.
    pub(crate) fn has_sink(&self, device: &[u8]) -> bool
        ensures { IsTrue result ↔ IsSome (sink_of self.now.plant device.now) }
    {
        self.plant.has_sink(device)
    }

    /// Returns the element with that flat name, and its index.
    pub(crate) fn find(&self, name: &[u8]) -> Option<(usize, &Element)>
        ensures found { MatchOption result (spec.found self.now name.now ≡ None) (λ found. spec.found self.now name.now ≡ Some (found.0, found.1.now)) }
        ensures there { IfSome result (λ found. slice_get self.now.plant.elements found.0 ≡ Some found.1.now) }
    {
        let at = self.plant.place(name)?;
        if at < self.plant.len() {
            Some((at, self.plant.element(at)))
        } else {
            None
        }
    }

    /// Returns the class of the element with that flat name.
    #[tactic(auto, using(crate::proofs::OfCalls::Listings::class_found))]
    fn class_named(&self, name: &[u8]) -> Option<Class>
        ensures { result ≡ spec.class_named (spec.listing_of self.now) name.now }
    {
        match self.find(name) {
            Some((_, element)) => Some(element.state.class()),
            None => None,
        }
    }

    /// Checks whether a handler can be read or written.
    pub(crate) fn check(&self, way: Access, name: &[u8]) -> Check
        ensures { result ≡ spec.check (spec.listing_of self.now) way name.now }
    {
        match split(name) {
            Some((element, handler)) => check_element(self.class_named(element), way, handler),
            None => check_own(way, name),
        }
    }

    /// Returns the value of a global handler.
    #[tactic(auto, unfolding(crate::specs::Globals::global_value))]
    fn global_value(&self, alloc: Global, handler: GlobalHandler) -> Result<Vec<u8>, AllocError>
        ensures { IfOk result (λ value. global_value self.now (name_of handler) ≡ Some value.items) }
    {
        match handler {
            GlobalHandler::Version => Vec::from_slice(alloc, b"1"),
            GlobalHandler::List => list_text(alloc, self.flat.elements.as_slice()),
            GlobalHandler::Config => Vec::from_slice(alloc, self.text.as_slice()),
            GlobalHandler::FlatConfig => flat_text(alloc, &self.flat),
            GlobalHandler::Classes => classes_text(alloc, self.flat.elements.as_slice()),
            GlobalHandler::Overruns => number_text(alloc, self.plant.overruns()),
        }
    }

    /// Reads a global handler.
    pub(crate) fn read_global(&self, alloc: Global, name: &[u8]) -> Result<StoredReply, StepFault>
        ensures { IfOk result (λ reply. reply ≡ read_global name.now (global_value self.now name.now)) }
    {
        let Some(handler) = named(name) else {
            return Ok(StoredReply::refusal(refusal_of(is_hotconfig(name))));
        };
        match self.global_value(alloc, handler) {
            Ok(value) => Ok(StoredReply::of(CompactReply::Value(Sequence::of(value)))),
            Err(_) => Err(StepFault::NoMemory),
        }
    }

    /// Enters a packet of a device.
    pub(crate) fn enter(&mut self, device: &[u8], packet: &Packet) -> Reply
        ensures { entered self.old device.now (packet.now ∷ []) ≡ (self.new, result) }
    {
        if self.plant.enter(device, packet) {
            Reply::Entered(1)
        } else {
            Reply::NoDevice
        }
    }

    /// Enters a stored packet of a device.
    pub(crate) fn arrive(&mut self, device: &[u8], packet: &StoredPacket) -> StoredReply
        ensures { entered self.old device.now (packet.now ∷ []) ≡ (self.new, result) }
    {
        let mut whole = Packet::empty();
        packet.write_to(&mut whole);
        if self.plant.enter(device, &whole) {
            StoredReply::of(CompactReply::Entered(1))
        } else {
            StoredReply::of(CompactReply::NoDevice)
        }
    }

    /// Enters packets of a device, one after another.
    pub(crate) fn poll(&mut self, device: &[u8], taken: &[StoredPacket]) -> StoredReply
        ensures { entered self.old device.now taken.now ≡ (self.new, result) }
    {
        if !self.plant.has_source(device) {
            return StoredReply::of(CompactReply::NoDevice);
        }
        enter_all(&mut self.plant, device, taken);
        StoredReply::of(CompactReply::Entered(taken.len() as u64))
    }

    /// Runs each task once. Returns the number of packets that the tasks emitted or pulled.
    pub(crate) fn round(&mut self) -> u64
        ensures { worked self.old ≡ (self.new, Reply.Worked result) }
    {
        self.plant.round()
    }

    /// Takes a packet for a device. The reply holds the whole packet.
    ///
    /// perf: out of line the packet would be copied at each return.
    #[inline(always)]
    pub(crate) fn transmit(&mut self, device: &[u8]) -> Reply
        ensures { sent self.old device.now ≡ (self.new, result) }
    {
        if !self.plant.has_sink(device) {
            return Reply::NoDevice;
        }
        Reply::Sent(self.plant.pull(device))
    }

    /// Takes a packet for a device, and copies it into `packet`. Returns false, and leaves `packet`
    /// unchanged, if the device has no ToDevice or gets no packet.
    #[inline(always)]
    pub(crate) fn transmit_into(&mut self, device: &[u8], packet: &mut Packet) -> bool
        ensures sent { result ≡ true → sent self.old device.now ≡ (self.new, Reply.Sent (Some packet.new)) }
        ensures none { result ≡ false → (sent self.old device.now ≡ (self.new, Reply.Sent None)) ⊎ (sent self.old device.now ≡ (self.new, Reply.NoDevice)) }
        ensures same { result ≡ false → packet.new ≡ packet.old }
    {
        self.plant.pull_into(device, packet)
    }

    /// Takes a packet for a device, and stores it in the given room.
    pub(crate) fn transmit_compact(&mut self, device: &[u8], room: PacketRoom) -> StoredReply
        ensures { sent self.old device.now ≡ (self.new, result) }
    {
        if !self.plant.has_sink(device) {
            return StoredReply::of(CompactReply::NoDevice);
        }
        match self.plant.pull_with(device, |packet| room.keep(packet)) {
            Some(kept) => StoredReply::of(CompactReply::Sent(kept)),
            None => StoredReply::of(CompactReply::SentNone),
        }
    }

    /// Installs a prepared configuration. Allocates nothing.
    pub(crate) fn install(&mut self, prepared: Prepared)
        ensures { self.new ≡ taken prepared self.old }
    {
        let Prepared { running } = prepared;
        let mut next = Box::into_inner(running);
        next.plant.take_over(&mut self.plant);
        *self = next;
    }

    /// Installs the configuration of a text, or refuses it.
    ///
    /// Allocates everything before it touches the running plant, so a swap that fails with out of
    /// memory changes nothing.
    pub(crate) fn swap(&mut self, alloc: Global, text: &[u8]) -> Result<StoredReply, StepFault>
        ensures swaps { MatchResult result (λ reply. Swaps self.old text.now self.new reply) (λ _. self.new ≡ self.old) }
        ensures light { IfOk result (λ reply. holds_memory reply ≡ true → self.new ≡ self.old) }
    {
        match prepare_swap(alloc, text) {
            Ok(prepared) => {
                self.install(prepared);
                Ok(StoredReply::of(CompactReply::Done))
            }
            Err(outcome) => outcome,
        }
    }
}

/// Prepares the configuration of a text for a swap, or returns what the swap returns instead: the
/// reply that refuses the text, or out of memory.
///
/// What may fail is done here. So a caller can still publish the configuration before it installs
/// it.
pub fn prepare_swap(alloc: Global, text: &[u8]) -> Result<Prepared, Result<StoredReply, StepFault>>
    ensures opened { IfOk result (λ prepared. IsOpened text.now prepared) }
    ensures refused { IfErr result (λ outcome. IfOk outcome (λ reply. IsRefused text.now reply)) }
{
    match prepare(alloc, text) {
        Ok(prepared) => Ok(prepared),
        Err(fault) => match fault.kind {
            FaultKind::NoMemory => Err(Err(StepFault::NoMemory)),
            _ => match StoredReply::config_refused(alloc, fault) {
                Ok(reply) => Err(Ok(reply)),
                Err(_) => Err(Err(StepFault::NoMemory)),
            },
        },
    }
}
