//! Device turns: a poll of a device's feed, and then the packets that the device transmits.

ghost use Rattle.std.specs.Prelude.{◌≡◌, ◌↔◌, ◌<◌, ◌+◌, ◌^◌, ◌++◌, ◌∷◌, [], List, IsTrue, IfOk, IfErr, OnErr, MatchOption};
ghost use Rattle.click_packet.specs.Packet.{Packet as APacket};
ghost use Rattle.click_router.specs.declared.call.Reply.{Reply};
ghost use Rattle.click_router.specs.Polls.{poll, transmit as transmits};
ghost use Rattle.click_desk.specs.Polls.{MayTake};
ghost use Rattle.click_links.specs.Ends.{attempt};
ghost use Rattle.click_links.specs.Turns.{SameSeat, GivesNone, Sends, Breaks, SendsUntil, IsTurn, IsBroken, IsIdleTurn, IsFullIfReported, tallied, count_entered};
ghost use Rattle.click_links.specs.Forwarding.{Forwards};

use crate::device::Device;
use crate::link::Outbound;
use click_base::sequence::Sequence;
use click_desk::{Desk, DeskFault, Seat};
use click_router::{Call, CompactReply, DeviceName, Handlers, Reply, StoredReply};
use std::alloc::Global;
use std::sync::Wait;

/// The maximum number of packets that a device turn takes from the feed.
const MAX_POLLED: usize = 32;

/// The maximum number of packets that a device turn sends.
const MAX_SENT: u64 = 256;

/// The numbers of packets whose sending was attempted.
#[derive(Clone, Copy, Debug, PartialEq, Eq)]
pub struct Tally {
    /// Packets that were sent.
    pub sent: u64,
    /// Packets that were lost.
    pub lost: u64,
}

impl Tally {
    fn add(&mut self, sent: bool)
        requires { (self.old.sent + 1 < 2 ^ 64) × (self.old.lost + 1 < 2 ^ 64) }
        ensures { self.new ≡ tallied self.old sent }
    {
        if sent {
            self.sent += 1;
        } else {
            self.lost += 1;
        }
    }
}

/// The outcome of a device turn.
#[derive(Clone, Copy, Debug, PartialEq, Eq)]
pub struct Turn {
    /// The number of packets of the feed that entered the router.
    pub entered: u64,
    pub tally: Tally,
    /// Whether it sent the maximum number of packets, so that the device may have more.
    pub more: bool,
}

impl Turn {
    /// Returns whether no packet entered and no packet was sent or lost.
    pub fn is_idle(&self) -> bool
        ensures { IsTrue result ↔ IsIdleTurn self.now }
    {
        self.entered == 0 && self.tally.sent == 0 && self.tally.lost == 0
    }
}

fn entered_of(reply: &Reply) -> u64
    ensures { result ≡ count_entered reply.now }
{
    match reply {
        Reply::Entered(count) => *count,
        _ => 0,
    }
}

/// Polls the feed of the device. Returns the number of packets that entered.
fn poll_feed<T: Handlers, R: Wait>(
    rt: &R,
    desk: &Desk<T, &R>,
    seat: &mut Seat<T>,
    device: &Device,
) -> Result<u64, DeskFault>
    requires { seat.old.desk ≡ desk.now }
    ensures same { SameSeat seat.old seat.new }
    ensures ok { IfOk result (λ entered. (taken : List APacket) × (polled : Reply) × MayTake seat.new.feeds device.now.name 32 taken polled
        × (seat.new.calls ≡ seat.old.calls ++ (poll device.now.name taken, polled) ∷ []) × (entered ≡ count_entered polled)) }
    ensures err { OnErr result (seat.new.calls ≡ seat.old.calls) }
    ensures full { IfErr result (IsFullIfReported seat.new) }
{
    let reply = desk.poll(rt, seat, device.name.as_slice(), MAX_POLLED)?;
    let entered = entered_of(&reply);
    device.counts.enter(entered);
    Ok(entered)
}

/// Makes a Transmit of the device.
fn transmit<T: Handlers, R: Wait>(
    rt: &R,
    alloc: Global,
    desk: &Desk<T, &R>,
    seat: &mut Seat<T>,
    device: &Sequence<u8>,
) -> Result<StoredReply, DeskFault>
    requires { seat.old.desk ≡ desk.now }
    ensures same { SameSeat seat.old seat.new }
    ensures ok { IfOk result (λ reply. seat.new.calls ≡ seat.old.calls ++ (transmits device.now, reply) ∷ []) }
    ensures err { OnErr result (seat.new.calls ≡ seat.old.calls) }
    ensures full { IfErr result (IsFullIfReported seat.new) }
{
    let Ok(device) = DeviceName::copy_of(alloc, device.as_slice()) else {
        return Err(DeskFault::NoMemory);
    };
    desk.call_stored(rt, seat, Call::Transmit { device })
}

/// Sends the next packet that the device transmits. Returns whether it was sent, or `None` if the
/// device has none.
fn send_one<T: Handlers, S: Outbound, R: Wait>(
    rt: &R,
    alloc: Global,
    desk: &Desk<T, &R>,
    seat: &mut Seat<T>,
    device: &Device,
    sender: &mut S,
) -> Result<Option<bool>, DeskFault>
    requires { seat.old.desk ≡ desk.now }
    ensures same { SameSeat seat.old seat.new }
    ensures ok { IfOk result (λ one. MatchOption one
        ((reply : Reply) × GivesNone reply × (seat.new.calls ≡ seat.old.calls ++ (transmits device.now.name, reply) ∷ []) × (S.attempts sender.new ≡ S.attempts sender.old))
        (λ sent. (packet : APacket) × Sends device.now.name seat.old.calls seat.new.calls (S.attempts sender.old) (S.attempts sender.new) (attempt device.now.name packet sent ∷ []))) }
    ensures err { OnErr result ((seat.new.calls ≡ seat.old.calls) × (S.attempts sender.new ≡ S.attempts sender.old)) }
    ensures full { IfErr result (IsFullIfReported seat.new) }
{
    let reply = transmit(rt, alloc, desk, seat, &device.name)?;
    match reply.compact() {
        CompactReply::Sent(packet) => {
            let sent = sender.send(&device.name, packet);
            device.counts.tried(sent);
            Ok(Some(sent))
        }
        _ => Ok(None),
    }
}

/// Sends packets until the device has none, or the maximum number of a device turn. Returns their
/// number, and whether there may be more.
fn send_all<T: Handlers, S: Outbound, R: Wait>(
    rt: &R,
    alloc: Global,
    desk: &Desk<T, &R>,
    seat: &mut Seat<T>,
    device: &Device,
    sender: &mut S,
) -> Result<(Tally, bool), DeskFault>
    requires { seat.old.desk ≡ desk.now }
    ensures same { SameSeat seat.old seat.new }
    ensures ok { IfOk result (λ r. SendsUntil device.now.name seat.old.calls seat.new.calls (S.attempts sender.old) (S.attempts sender.new) r.0 r.1) }
    ensures err { OnErr result (Breaks device.now.name seat.old.calls seat.new.calls (S.attempts sender.old) (S.attempts sender.new)) }
    ensures full { IfErr result (IsFullIfReported seat.new) }
{
    let mut tally = Tally { sent: 0, lost: 0 };
    for _ in 0..MAX_SENT {
        match send_one(rt, alloc, desk, seat, device, sender) {
            Ok(Some(sent)) => tally.add(sent),
            Ok(None) => return Ok((tally, false)),
            Err(fault) => return Err(fault),
        }
    }
    Ok((tally, true))
}

/// Makes one device turn: one poll, by which up to 32 packets enter, and then Transmits.
///
/// The Transmits end when the device has no packet, or after 256 packets. A send that fails loses
/// its packet only. If a call fails, the turn stops early, and no packet is lost by that.
pub fn forward<T: Handlers, S: Outbound, R: Wait>(
    rt: &R,
    alloc: Global,
    desk: &Desk<T, &R>,
    seat: &mut Seat<T>,
    device: &Device,
    sender: &mut S,
) -> Result<Turn, DeskFault>
    requires { seat.old.desk ≡ desk.now }
    ensures same { SameSeat seat.old seat.new }
    ensures ok { IfOk result (λ turn. IsTurn device.now.name seat.old.feeds seat.old.calls seat.new.calls (S.attempts sender.old) (S.attempts sender.new) turn) }
    ensures err { OnErr result (IsBroken device.now.name seat.old.feeds seat.old.calls seat.new.calls (S.attempts sender.old) (S.attempts sender.new)) }
    ensures forwards { Forwards (device.now.name ∷ []) seat.old.calls seat.new.calls (S.attempts sender.old) (S.attempts sender.new) }
    ensures full { IfErr result (IsFullIfReported seat.new) }
{
    let entered = poll_feed(rt, desk, seat, device)?;
    let (tally, more) = send_all(rt, alloc, desk, seat, device, sender)?;
    Ok(Turn {
        entered,
        tally,
        more,
    })
}
