//! A router that a session has to itself, as the session's port.

ghost use Rattle.std.specs.Prelude.{◌≡◌, true, is_some, IfOk, MatchResult};
ghost use Rattle.click_router.specs.One.{is_transmit};

use crate::port::{AskFault, Port};
use click_packet::PacketRoom;
use click_router::{Call, Handlers, Reply, Router, StepFault, StoredReply};
use std::alloc::{AllocError, Global};

/// Allocates the room for the packet that the call may send.
fn room_for(alloc: Global, call: &Call) -> Result<Option<PacketRoom>, AllocError>
    ensures { IfOk result (λ room. is_transmit call.now ≡ true → is_some room ≡ true) }
{
    match call {
        Call::Transmit { .. } => Ok(Some(PacketRoom::new(alloc)?)),
        _ => Ok(None),
    }
}

/// Converts the fault of a step.
fn fault_of(fault: StepFault) -> AskFault
    ensures { result ≡ AskFault.NoMemory }
{
    match fault {
        StepFault::NoMemory => AskFault::NoMemory,
    }
}

impl<T: Handlers> Port for Router<T> {
    ghost use Rattle.click_control.specs.RouterPort.{Steps};

    ghost asks = { Steps };

    fn ask_stored(&mut self, alloc: Global, call: Call) -> Result<StoredReply, AskFault> {
        let Ok(room) = room_for(alloc, &call) else {
            return Err(AskFault::NoMemory);
        };
        match self.step_stored(alloc, &call, room) {
            Ok(reply) => Ok(reply),
            Err(fault) => Err(fault_of(fault)),
        }
    }

    // Unlike `record`, `step` allocates nothing for a packet that is sent.
    fn ask(&mut self, alloc: Global, call: Call) -> Result<Reply, AskFault> {
        match self.step(alloc, &call) {
            Ok(reply) => Ok(reply),
            Err(fault) => Err(fault_of(fault)),
        }
    }
}
