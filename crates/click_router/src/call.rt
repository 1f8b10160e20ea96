//! The calls that a router takes, and the replies that it gives.

ghost use Rattle.std.specs.Prelude.{◌≡◌, false, IfOk};
ghost use Rattle.click_router.specs.One.{refusal_of, refusal_holds};

use crate::device_name::DeviceName;
use crate::fault::ConfigFault;
use crate::globals::is_hotconfig;
use click_base::sequence::Sequence;
use click_handlers::HandlerFault;
use click_packet::{Packet, StoredPacket};
use std::alloc::{AllocError, Global};
use thiserror::Error;

/// A call of a router: one request to it.
#[derive(Drop)]
pub enum Call {
    /// Reads a handler, named `element.handler`. A name without a dot is a global handler. The text
    /// is passed to the handler.
    Read {
        name: Sequence<u8>,
        text: Sequence<u8>,
    },
    /// Writes the text to a handler, named `element.handler`. A write to `hotconfig` is a swap.
    Write {
        name: Sequence<u8>,
        text: Sequence<u8>,
    },
    /// Checks whether a handler can be read.
    CheckRead {
        name: Sequence<u8>,
    },
    /// Checks whether a handler can be written.
    CheckWrite {
        name: Sequence<u8>,
    },
    /// Replaces the running configuration by the one that the text spells. A refused swap changes
    /// nothing.
    Swap {
        text: Sequence<u8>,
    },
    /// Lets a packet enter at the FromDevice of the device.
    Arrive {
        device: DeviceName,
        packet: StoredPacket,
    },
    /// Lets packets enter at the FromDevice of the device, one after another. At a desk, `taken`
    /// has the packets that were drawn from the device's feed.
    Poll {
        device: DeviceName,
        taken: Sequence<StoredPacket>,
    },
    /// Runs each task once, in flat order.
    Round,
    /// Pulls one packet at the ToDevice of the device.
    Transmit {
        device: DeviceName,
    },
}

fn packets_of(
    alloc: Global,
    packets: &Sequence<StoredPacket>,
) -> Result<Sequence<StoredPacket>, AllocError>
    ensures { IfOk result (λ copy. copy ≡ packets.now) }
{
    let mut copies = Vec::with_capacity(alloc, packets.len())?;
    for packet in packets.as_slice() {
        copies.push(packet.copy(alloc)?)?;
    }
    Ok(Sequence::of(copies))
}

impl Call {
    ghost use Rattle.std.specs.Prelude.{◌≡◌, Some, None, IfOk, MatchOption};
    ghost use Rattle.click_router.specs.One.{swap_text};

    /// Returns the configuration text of a Swap or of a write to `hotconfig`, and `None` for other
    /// calls.
    pub fn swap_text(&self) -> Option<&[u8]>
        ensures { MatchOption result (swap_text self.now ≡ None) (λ text. swap_text self.now ≡ Some text.now) }
    {
        match self {
            Call::Swap { text } => Some(text.as_slice()),
            Call::Write { name, text } => {
                if is_hotconfig(name.as_slice()) {
                    Some(text.as_slice())
                } else {
                    None
                }
            }
            _ => None,
        }
    }

    /// Returns an equal call, or fails with out of memory.
    pub fn copy(&self, alloc: Global) -> Result<Call, AllocError>
        ensures { IfOk result (λ copy. copy ≡ self.now) }
    {
        Ok(match self {
            Call::Read { name, text } => Call::Read {
                name: name.copy(alloc)?,
                text: text.copy(alloc)?,
            },
            Call::Write { name, text } => Call::Write {
                name: name.copy(alloc)?,
                text: text.copy(alloc)?,
            },
            Call::CheckRead { name } => Call::CheckRead {
                name: name.copy(alloc)?,
            },
            Call::CheckWrite { name } => Call::CheckWrite {
                name: name.copy(alloc)?,
            },
            Call::Swap { text } => Call::Swap {
                text: text.copy(alloc)?,
            },
            Call::Arrive { device, packet } => Call::Arrive {
                device: device.copy(alloc)?,
                packet: packet.copy(alloc)?,
            },
            Call::Poll { device, taken } => Call::Poll {
                device: device.copy(alloc)?,
                taken: packets_of(alloc, taken)?,
            },
            Call::Round => Call::Round,
            Call::Transmit { device } => Call::Transmit {
                device: device.copy(alloc)?,
            },
        })
    }
}

/// The reason why a call is refused.
#[derive(Debug, Drop, Error)]
pub enum Refusal {
    #[error("no element has that name")]
    NoElement,
    #[error("there is no handler of that name")]
    NoHandler,
    /// The handler exists only in the opposite direction. Reads, writes and both checks are refused
    /// for this reason.
    #[error("the handler is for the other way alone")]
    WrongWay,
    /// The fault that the handler reports.
    #[error(transparent)]
    Handler(HandlerFault),
    /// The first fault of the configuration.
    #[error(transparent)]
    Config(ConfigFault),
}

/// The reply to a call.
#[derive(Drop)]
pub enum Reply {
    /// The value that was read.
    Value(Sequence<u8>),
    /// The handler was written, the check succeeded, or the configuration was installed.
    Done,
    Refused(Refusal),
    /// The number of packets that entered.
    Entered(u64),
    /// The number of packets that the tasks emitted or pulled, at most 2^64 - 1.
    Worked(u64),
    /// The packet that the device took, if it got one.
    Sent(Option<Packet>),
    /// Arrive and Poll: no FromDevice names the device. Transmit: no ToDevice names it.
    NoDevice,
}

/// The reason why a call failed. A call that fails changes nothing.
#[derive(Clone, Copy, Debug, PartialEq, Eq, Error)]
pub enum StepFault {
    #[error("out of memory")]
    NoMemory,
}

/// Returns the refusal of a read or a write of a handler that does not exist in this direction.
///
/// `has_other`: the handler exists in the opposite direction.
pub(crate) fn refusal_of(has_other: bool) -> Refusal
    ensures is { result ≡ refusal_of has_other }
    ensures light { refusal_holds result ≡ false }
{
    if has_other {
        Refusal::WrongWay
    } else {
        Refusal::NoHandler
    }
}
