//! Replies in the form that a history stores.

ghost use Rattle.std.specs.Prelude.{◌≡◌, true, false, IfOk, IfErr, is_some};
ghost use Rattle.click_router.specs.One.{refusal_holds, holds_memory, sends_packet};
ghost use Rattle.click_router.specs.StoredReply.{reply_of};

use crate::call::{Refusal, Reply};
use crate::fault::ConfigFault;
use click_base::sequence::Sequence;
use click_handlers::HandlerFault;
use click_packet::{Packet, PacketRoom, StoredPacket};
use std::alloc::{AllocError, Global};
use std::marker::Model;

/// The content of a stored reply. Of a packet that was sent it has only the bytes and annotations,
/// without the room that a packet in flight has.
#[derive(Drop)]
pub enum CompactReply {
    Value(Sequence<u8>),
    Done,
    NoElement,
    NoHandler,
    WrongWay,
    Handler(HandlerFault),
    // perf: boxed, because it is large and rare.
    Config(Box<ConfigFault>),
    Entered(u64),
    Worked(u64),
    Sent(StoredPacket),
    SentNone,
    NoDevice,
}

/// A reply in a history. To a contract it is a `Reply`.
///
/// perf: it is small, and a `Reply` has room for a packet.
#[derive(Drop)]
pub struct StoredReply {
    compact: CompactReply,
}

impl Model for StoredReply {
    ghost use Rattle.click_router.specs.declared.call.Reply.{Reply};
    ghost use Rattle.click_router.specs.StoredReply.{reply_of};

    ghost Value = { Reply };

    ghost view = { λ r. reply_of r.compact };
}

/// Returns the stored packet as a packet in flight.
///
/// perf: out of line. Room for a packet is cleared wherever it is declared, and other replies need
/// none.
#[cold]
#[inline(never)]
fn packet_of(stored: &StoredPacket) -> Packet
    ensures { result ≡ stored.now }
{
    let mut packet = Packet::empty();
    stored.write_to(&mut packet);
    packet
}

/// Returns the reply of a stored one that holds no packet.
#[inline(always)]
fn small_reply(compact: CompactReply) -> Reply
    requires { sends_packet (reply_of compact) ≡ false }
    ensures { result ≡ reply_of compact }
{
    match compact {
        CompactReply::Value(value) => Reply::Value(value),
        CompactReply::Done => Reply::Done,
        CompactReply::NoElement => Reply::Refused(Refusal::NoElement),
        CompactReply::NoHandler => Reply::Refused(Refusal::NoHandler),
        CompactReply::WrongWay => Reply::Refused(Refusal::WrongWay),
        CompactReply::Handler(fault) => Reply::Refused(Refusal::Handler(fault)),
        CompactReply::Config(fault) => Reply::Refused(Refusal::Config(Box::into_inner(fault))),
        CompactReply::Entered(count) => Reply::Entered(count),
        CompactReply::Worked(count) => Reply::Worked(count),
        CompactReply::SentNone => Reply::Sent(None),
        CompactReply::Sent(_) => unreachable!(),
        CompactReply::NoDevice => Reply::NoDevice,
    }
}

impl StoredReply {
    /// Wraps the content of a stored reply.
    pub fn of(compact: CompactReply) -> StoredReply
        ensures { result ≡ reply_of compact }
    {
        StoredReply { compact }
    }

    /// Returns the reply to a Round in which the tasks emitted or pulled this many packets.
    pub fn round_done(count: u64) -> StoredReply
        ensures { result ≡ Reply.Worked count }
    {
        StoredReply {
            compact: CompactReply::Worked(count),
        }
    }

    /// Returns the reply to a refused call, except a swap that was refused for its configuration.
    pub(crate) fn refusal(why: Refusal) -> StoredReply
        requires { refusal_holds why ≡ false }
        ensures { result ≡ Reply.Refused why }
    {
        let compact = match why {
            Refusal::NoElement => CompactReply::NoElement,
            Refusal::NoHandler => CompactReply::NoHandler,
            Refusal::WrongWay => CompactReply::WrongWay,
            Refusal::Handler(fault) => CompactReply::Handler(fault),
            Refusal::Config(_) => unreachable!(),
        };
        StoredReply { compact }
    }

    /// Returns the reply to a swap that was refused for a fault of its configuration.
    pub fn config_refused(alloc: Global, fault: ConfigFault) -> Result<StoredReply, AllocError>
        ensures { IfOk result (λ r. r ≡ Reply.Refused (Refusal.Config fault)) }
    {
        Ok(StoredReply {
            compact: CompactReply::Config(Box::new(alloc, fault)?),
        })
    }

    /// Returns an equal reply. Only a value or a fault of a configuration allocates. A packet that
    /// was sent needs `room`.
    pub fn copy(&self, alloc: Global, room: Option<PacketRoom>) -> Result<StoredReply, AllocError>
        requires { sends_packet self.now ≡ true → is_some room ≡ true }
        ensures copy { IfOk result (λ copy. copy ≡ self.now) }
        ensures light { IfErr result (λ _. holds_memory self.now ≡ true) }
    {
        let compact = match &self.compact {
            CompactReply::Value(value) => {
                CompactReply::Value(Sequence::copy_of(alloc, value.as_slice())?)
            }
            CompactReply::Done => CompactReply::Done,
            CompactReply::NoElement => CompactReply::NoElement,
            CompactReply::NoHandler => CompactReply::NoHandler,
            CompactReply::WrongWay => CompactReply::WrongWay,
            CompactReply::Handler(fault) => CompactReply::Handler(*fault),
            CompactReply::Config(fault) => CompactReply::Config(Box::new(
                alloc,
                fault.copy(alloc)?,
            )?),
            CompactReply::Entered(count) => CompactReply::Entered(*count),
            CompactReply::Worked(count) => CompactReply::Worked(*count),
            CompactReply::Sent(packet) => match room {
                Some(room) => CompactReply::Sent(room.copy_of(packet)),
                None => unreachable!(),
            },
            CompactReply::SentNone => CompactReply::SentNone,
            CompactReply::NoDevice => CompactReply::NoDevice,
        };
        Ok(StoredReply { compact })
    }

    /// Converts into a `Reply`.
    #[inline(always)]
    pub fn into_reply(self) -> Reply
        ensures { result ≡ self }
    {
        let StoredReply { compact } = self;
        match compact {
            CompactReply::Sent(stored) => Reply::Sent(Some(packet_of(&stored))),
            compact => small_reply(compact),
        }
    }

    /// Converts into a `Reply`, if it holds no packet.
    #[inline(always)]
    pub(crate) fn into_small_reply(self) -> Reply
        requires { sends_packet self ≡ false }
        ensures { result ≡ self }
    {
        let StoredReply { compact } = self;
        small_reply(compact)
    }

    /// Returns the content of the stored reply.
    pub fn compact(&self) -> &CompactReply
        ensures { reply_of result.now ≡ self.now }
    {
        &self.compact
    }
}
