//! The router of one thread, which answers calls.

use crate::call::{Call, Reply, StepFault};
use crate::handling::Handlers;
use crate::opening::Prepared;
use crate::running::RunningConfig;
use crate::stored_reply::StoredReply;
use click_packet::{Packet, PacketRoom};
use std::alloc::Global;
use std::marker::Model;

/// A running router of one thread, with the handler table `T`.
///
/// To a contract it is its text, its flat form and its plant.
#[derive(Drop)]
pub struct Router<T> {
    running: Box<RunningConfig>,
    table: T,
}

impl<T> Model for Router<T> {
    ghost use Rattle.click_router.specs.State.{RouterState};

    ghost Value = { RouterState };

    ghost view = { λ r. r.running.value };
}

impl<T> Router<T> {
    ghost use Rattle.std.specs.Prelude.{◌≡◌, ◌↔◌, ◌⊎◌, IsTrue, IsSome, List, None, Some, true, false};
    ghost use Rattle.click_packet.specs.Packet.{Packet as APacket};
    ghost use Rattle.click_engine.specs.Rounds.{source_of, sink_of};
    ghost use Rattle.click_router.specs.State.{RouterState};
    ghost use Rattle.click_router.specs.One.{Answers};
    ghost use Rattle.click_router.specs.Polls.{poll, arrival, transmit};
    ghost use Rattle.click_router.specs.Swap.{taken};

    /// Opens a prepared router, which answers handlers through the table. Allocates nothing.
    pub fn open(table: T, prepared: Prepared) -> Router<T>
        ensures { result ≡ prepared }
    {
        Router {
            running: prepared.running,
            table,
        }
    }

    /// Returns whether a FromDevice names the device. If none does, a Poll of the device is
    /// answered with `NoDevice`.
    pub fn has_source(&self, device: &[u8]) -> bool
        ensures source { IsTrue result ↔ IsSome (source_of self.now.plant device.now) }
        ensures polled { (packets : List APacket) (next : RouterState) (reply : Reply) → Answers self.now (poll device.now packets) next reply → (result ≡ false) ↔ (reply ≡ Reply.NoDevice) }
    {
        self.running.has_source(device)
    }

    /// Returns whether a ToDevice names the device. If none does, a Transmit of the device is
    /// answered with `NoDevice`.
    pub fn has_sink(&self, device: &[u8]) -> bool
        ensures sink { IsTrue result ↔ IsSome (sink_of self.now.plant device.now) }
        ensures asked { (next : RouterState) (reply : Reply) → Answers self.now (transmit device.now) next reply → (result ≡ false) ↔ (reply ≡ Reply.NoDevice) }
    {
        self.running.has_sink(device)
    }

    /// Installs a prepared configuration, as a swap to its text does. Allocates nothing.
    ///
    /// Elements take over from the old elements with their flat name and class. Queues take the
    /// packets that they have room for, and Counters the counts. Switches take the position if it
    /// is -1 or one of their outputs. The number of overruns is taken over too.
    pub fn install(&mut self, prepared: Prepared)
        ensures { self.new ≡ taken prepared self.old }
    {
        self.running.install(prepared);
    }

    /// Enters a packet of a device, as the call Arrive does. Allocates nothing.
    pub fn enter(&mut self, device: &[u8], packet: &Packet) -> Reply
        ensures { Answers self.old (arrival device.now packet.now) self.new result }
    {
        self.running.enter(device, packet)
    }

    /// Takes a packet for a device, as the call Transmit does. Allocates nothing.
    ///
    /// perf: out of line the packet would be copied at each return.
    #[inline(always)]
    pub fn transmit(&mut self, device: &[u8]) -> Reply
        ensures { Answers self.old (transmit device.now) self.new result }
    {
        self.running.transmit(device)
    }

    /// Takes a packet for a device, as the call Transmit does, and copies it into `packet`. Returns
    /// false, and leaves `packet` unchanged, if the reply is `NoDevice` or has no packet. Allocates
    /// nothing.
    ///
    /// perf: a `Reply` has room for a packet, which this saves.
    #[inline(always)]
    pub fn transmit_into(&mut self, device: &[u8], packet: &mut Packet) -> bool
        ensures sent { result ≡ true → Answers self.old (transmit device.now) self.new (Reply.Sent (Some packet.new)) }
        ensures none { result ≡ false → Answers self.old (transmit device.now) self.new (Reply.Sent None) ⊎ Answers self.old (transmit device.now) self.new Reply.NoDevice }
        ensures same { result ≡ false → packet.new ≡ packet.old }
    {
        self.running.transmit_into(device, packet)
    }

    /// Runs each task once, as the call Round does. Returns the number of packets that the tasks
    /// emitted or pulled.
    pub fn round(&mut self) -> u64
        ensures { Answers self.old Call.Round self.new (Reply.Worked result) }
    {
        self.running.round()
    }
}

impl<T: Handlers> Router<T> {
    ghost use Rattle.std.specs.Prelude.{◌≡◌, true, is_some, IfOk, IfErr, MatchResult};
    ghost use Rattle.click_router.specs.One.{Answers, takes_memory, holds_memory, is_transmit, sends_packet};

    /// Answers one call.
    ///
    /// Fails with out of memory only for a read, a write of a queue's capacity or a swap, and
    /// changes nothing then. Only a call that changed nothing has a reply that holds memory, and
    /// only a Transmit one that holds a packet.
    #[inline(always)]
    pub fn step(&mut self, alloc: Global, call: &Call) -> Result<Reply, StepFault>
        ensures answer { MatchResult result (λ reply. Answers self.old call.now self.new reply) (λ _. self.new ≡ self.old) }
        ensures refused { IfErr result (λ _. takes_memory call.now ≡ true) }
        ensures light { IfOk result (λ reply. holds_memory reply ≡ true → self.new ≡ self.old) }
        ensures sends { IfOk result (λ reply. sends_packet reply ≡ true → is_transmit call.now ≡ true) }
    {
        if let Call::Transmit { device } = call {
            return Ok(self.running.transmit(device.as_slice()));
        }
        match self.step_stored(alloc, call, None) {
            Ok(reply) => Ok(reply.into_small_reply()),
            Err(fault) => Err(fault),
        }
    }

    /// Answers one call, as `step` does, with the reply in the form that a history stores.
    ///
    /// A Transmit needs `room` for its packet.
    ///
    /// perf: a `StoredReply` is small; a `Reply` has room for a packet.
    #[inline(always)]
    pub fn step_stored(
        &mut self,
        alloc: Global,
        call: &Call,
        room: Option<PacketRoom>,
    ) -> Result<StoredReply, StepFault>
        requires { is_transmit call.now ≡ true → is_some room ≡ true }
        ensures answer { MatchResult result (λ reply. Answers self.old call.now self.new reply) (λ _. self.new ≡ self.old) }
        ensures refused { IfErr result (λ _. takes_memory call.now ≡ true) }
        ensures light { IfOk result (λ reply. holds_memory reply ≡ true → self.new ≡ self.old) }
        ensures sends { IfOk result (λ reply. sends_packet reply ≡ true → is_transmit call.now ≡ true) }
    {
        self.table
            .step_stored(&mut *self.running, alloc, call, room)
    }
}
