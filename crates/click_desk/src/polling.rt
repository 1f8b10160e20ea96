//! Polls: packets that are drawn from a feed and enter the router.

ghost use Rattle.std.specs.Prelude.{◌≡◌, ◌≤◌, ◌++◌, ◌∷◌, ◌↔◌, [], length, map, true, false, is_some, IfOk, IfErr, OnErr, Err, List, vec_len, vec_capacity};
ghost use Rattle.click_packet.specs.Packet.{Packet};
ghost use Rattle.click_rings.specs.Feeds.{name_of, has_feed, have_distinct_devices, drew};
ghost use Rattle.click_desk.specs.Bounds.{IsWithin, IsFull};
ghost use Rattle.click_desk.specs.History.{entry, Legal};
ghost use Rattle.click_router.specs.One.{Answers};
ghost use Rattle.click_router.specs.Polls.{poll};
ghost use Rattle.click_router.specs.State.{RouterState};
ghost use Rattle.click_desk.specs.Polls.{IsPolled, MayTake};

use crate::entry::Entry;
use crate::logged_router::{DeskFault, LoggedRouter, copy_twice, note};
use crate::trail::Trail;
use click_base::sequence::Sequence;
use click_packet::{PacketRoom, StoredPacket};
use click_rings::{FeedConsumer, available_in, draw_from};
use click_router::{Call, DeviceName, Handlers, Reply, Router, StoredReply};
use std::alloc::{AllocError, Global};

/// Reserves room for `count` packets. Fails with out of memory.
fn packet_rooms(alloc: Global, count: usize) -> Result<Vec<PacketRoom>, AllocError>
    ensures { IfOk result (λ rooms. vec_len rooms ≡ count) }
{
    let mut rooms = Vec::with_capacity(alloc, count)?;
    for _ in 0..count {
        rooms.push_reserved(PacketRoom::new(alloc)?);
    }
    Ok(rooms)
}

/// The memory for one copy of a poll: for the device's name and for the packets.
#[derive(Drop)]
struct PollRoom {
    name: DeviceName,
    drawn: Vec<StoredPacket>,
}

impl PollRoom {
    fn new(alloc: Global, device: &[u8], most: usize) -> Result<PollRoom, AllocError>
        ensures { IfOk result (λ r. (r.name ≡ device.now) × (r.drawn.items ≡ []) × (most ≤ vec_capacity r.drawn)) }
    {
        Ok(PollRoom {
            name: DeviceName::copy_of(alloc, device)?,
            drawn: Vec::with_capacity(alloc, most)?,
        })
    }
}

/// The memory for two copies of a poll: one for the history, and one for the seat's list.
struct PollRooms {
    entered: PollRoom,
    listed: PollRoom,
    rooms: Vec<PacketRoom>,
}

impl PollRooms {
    fn new(alloc: Global, device: &[u8], most: usize) -> Result<PollRooms, AllocError>
        ensures names { IfOk result (λ r. (r.entered.name ≡ device.now) × (r.listed.name ≡ device.now)) }
        ensures drawn { IfOk result (λ r. (r.entered.drawn.items ≡ []) × (most ≤ vec_capacity r.entered.drawn)) }
        ensures listed { IfOk result (λ r. (r.listed.drawn.items ≡ []) × (most ≤ vec_capacity r.listed.drawn) × (vec_len r.rooms ≡ most)) }
    {
        Ok(PollRooms {
            entered: PollRoom::new(alloc, device, most)?,
            listed: PollRoom::new(alloc, device, most)?,
            rooms: packet_rooms(alloc, most)?,
        })
    }
}

/// Copies packets into the room that is reserved for them. Never allocates.
fn copy_all(
    packets: &[StoredPacket],
    mut rooms: Vec<PacketRoom>,
    mut copies: Vec<StoredPacket>,
) -> Vec<StoredPacket>
    requires { (copies.items ≡ []) × (length packets.now ≤ vec_capacity copies) × (length packets.now ≤ vec_len rooms) }
    ensures { result.items ≡ packets.now }
{
    for packet in packets {
        match rooms.pop() {
            Some(room) => copies.push_reserved(room.copy_of(packet)),
            None => unreachable!(),
        }
    }
    copies
}

/// Returns how many packets a poll draws. These are the packets seen in the feed, up to `most`, or
/// none if the configuration has no source of the device.
fn poll_size<T>(
    router: &Router<T>,
    consumers: &mut Vec<FeedConsumer>,
    device: &[u8],
    most: usize,
) -> usize
    ensures consumers { consumers.new.items ≡ consumers.old.items }
    ensures most { result ≤ most }
    ensures nothing { (packets : List Packet) (next : RouterState) (reply : Reply) → Answers router.now (poll device.now packets) next reply → reply ≡ Reply.NoDevice → result ≡ 0 }
{
    if router.has_source(device) {
        available_in(consumers.as_mut_slice(), device, most)
    } else {
        0
    }
}

impl PollRoom {
    /// Draws up to `most` packets of the device, and returns the Poll with them. Never allocates.
    fn draw(self, consumers: &mut [FeedConsumer], device: &[u8], most: usize) -> Call
        requires apart { have_distinct_devices (map name_of consumers.old) ≡ true }
        requires room { (self.name ≡ device.now) × (self.drawn.items ≡ []) × (most ≤ vec_capacity self.drawn) }
        ensures { (taken : List Packet) × (result ≡ poll device.now taken) × (consumers.new ≡ drew device.now taken consumers.old)
            × (length taken ≤ most) × (has_feed device.now (map name_of consumers.old) ≡ false → taken ≡ []) }
    {
        let PollRoom {
            name,
            drawn: mut taken,
        } = self;
        draw_from(consumers, device, most, &mut taken);
        Call::Poll {
            device: name,
            taken: Sequence::of(taken),
        }
    }
}

impl PollRooms {
    /// Draws up to `most` packets of the device, and returns two copies of the Poll with them.
    /// Never allocates.
    fn draw(self, consumers: &mut [FeedConsumer], device: &[u8], most: usize) -> (Call, Call)
        requires apart { have_distinct_devices (map name_of consumers.old) ≡ true }
        requires names { (self.entered.name ≡ device.now) × (self.listed.name ≡ device.now) }
        requires drawn { (self.entered.drawn.items ≡ []) × (most ≤ vec_capacity self.entered.drawn) }
        requires listed { (self.listed.drawn.items ≡ []) × (most ≤ vec_capacity self.listed.drawn) × (vec_len self.rooms ≡ most) }
        ensures { (taken : List Packet) × (result.0 ≡ poll device.now taken) × (result.1 ≡ poll device.now taken) × (consumers.new ≡ drew device.now taken consumers.old)
            × (length taken ≤ most) × (has_feed device.now (map name_of consumers.old) ≡ false → taken ≡ []) }
    {
        let PollRooms {
            entered,
            listed,
            rooms,
        } = self;
        let PollRoom { name, mut drawn } = entered;
        let PollRoom {
            name: again,
            drawn: copies,
        } = listed;
        draw_from(consumers, device, most, &mut drawn);
        let copies = copy_all(drawn.as_slice(), rooms, copies);
        let call = Call::Poll {
            device: name,
            taken: Sequence::of(drawn),
        };
        let copy = Call::Poll {
            device: again,
            taken: Sequence::of(copies),
        };
        (call, copy)
    }
}

impl<T: Handlers> LoggedRouter<T> {
    /// Makes one poll of a device, and enters it in the history and in the seat's list. `number` is
    /// that of the seat.
    ///
    /// All memory is reserved before a packet is drawn. Fails as `enter` does.
    pub fn enter_poll(
        &mut self,
        alloc: Global,
        number: usize,
        calls: &mut Trail<(Call, StoredReply)>,
        device: &[u8],
        most: usize,
    ) -> Result<StoredReply, DeskFault>
        requires keeps { calls.old.keeps ≡ is_some self.old.options.room }
        ensures options { self.new.options ≡ self.old.options }
        ensures legal { Legal self.new.options.opening self.new.entries self.new.state }
        ensures polled { IsPolled self.new.entries self.new.consumers }
        ensures ok { IfOk result (λ reply. (taken : List Packet) × MayTake self.new.options.feeds device.now most taken reply × (self.new.entries ≡ self.old.entries ++ entry number (poll device.now taken) reply ∷ []) × (calls.new.items ≡ calls.old.items ++ (poll device.now taken, reply) ∷ []) × IsWithin self.new.options.room (length self.new.entries)) }
        ensures err { OnErr result ((self.new ≡ self.old) × (calls.new.items ≡ calls.old.items)) }
        ensures keeps { calls.new.keeps ≡ calls.old.keeps }
        ensures full { (result ≡ Err DeskFault.HistoryFull) ↔ IsFull self.old.options.room (length self.old.entries) }
    {
        if self.is_full() {
            return Err(DeskFault::HistoryFull);
        }
        if self.router_log.options.room.is_some() {
            self.enter_kept_poll(alloc, number, calls, device, most)
        } else {
            self.enter_unkept_poll(alloc, number, calls, device, most)
        }
    }

    /// Makes a poll, and stores copies of it and of its reply in both lists.
    fn enter_kept_poll(
        &mut self,
        alloc: Global,
        number: usize,
        calls: &mut Trail<(Call, StoredReply)>,
        device: &[u8],
        most: usize,
    ) -> Result<StoredReply, DeskFault>
        requires { (is_some self.old.options.room ≡ true) × (calls.old.keeps ≡ true) }
        ensures options { self.new.options ≡ self.old.options }
        ensures legal { Legal self.new.options.opening self.new.entries self.new.state }
        ensures polled { IsPolled self.new.entries self.new.consumers }
        ensures ok { IfOk result (λ reply. (taken : List Packet) × MayTake self.new.options.feeds device.now most taken reply × (self.new.entries ≡ self.old.entries ++ entry number (poll device.now taken) reply ∷ []) × (calls.new.items ≡ calls.old.items ++ (poll device.now taken, reply) ∷ [])) }
        ensures err { OnErr result ((self.new ≡ self.old) × (calls.new.items ≡ calls.old.items)) }
        ensures keeps { calls.new.keeps ≡ calls.old.keeps }
        ensures fault { IfErr result (λ fault. fault ≡ DeskFault.NoMemory) }
    {
        let router_log = &mut *self.router_log;
        if router_log.entries.reserve().is_err() || calls.reserve().is_err() {
            return Err(DeskFault::NoMemory);
        }
        let count = poll_size(&self.router, &mut router_log.consumers, device, most);
        let Ok(rooms) = PollRooms::new(alloc, device, count) else {
            return Err(DeskFault::NoMemory);
        };
        let (call, listed) = rooms.draw(router_log.consumers.as_mut_slice(), device, count);
        // Nothing fails from here on: a poll and its reply allocate nothing.
        let Ok(reply) = self.router.step_stored(alloc, &call, None) else {
            unreachable!()
        };
        let Ok((entered, told)) = copy_twice(alloc, &reply, None, None) else {
            unreachable!()
        };
        router_log.entries.add(Entry {
            seat: number,
            call,
            reply: entered,
        });
        calls.add((listed, told));
        Ok(reply)
    }

    /// Makes a poll without storing it. The packets that it drew are freed once they have entered.
    fn enter_unkept_poll(
        &mut self,
        alloc: Global,
        number: usize,
        calls: &mut Trail<(Call, StoredReply)>,
        device: &[u8],
        most: usize,
    ) -> Result<StoredReply, DeskFault>
        requires notes { (is_some self.old.options.room ≡ false) × (calls.old.keeps ≡ false) }
        ensures options { self.new.options ≡ self.old.options }
        ensures legal { Legal self.new.options.opening self.new.entries self.new.state }
        ensures polled { IsPolled self.new.entries self.new.consumers }
        ensures ok { IfOk result (λ reply. (taken : List Packet) × MayTake self.new.options.feeds device.now most taken reply × (self.new.entries ≡ self.old.entries ++ entry number (poll device.now taken) reply ∷ []) × (calls.new.items ≡ calls.old.items ++ (poll device.now taken, reply) ∷ [])) }
        ensures err { OnErr result ((self.new ≡ self.old) × (calls.new.items ≡ calls.old.items)) }
        ensures keeps { calls.new.keeps ≡ calls.old.keeps }
        ensures fault { IfErr result (λ fault. fault ≡ DeskFault.NoMemory) }
    {
        let router_log = &mut *self.router_log;
        let seen = poll_size(&self.router, &mut router_log.consumers, device, most);
        let Ok(room) = PollRoom::new(alloc, device, seen) else {
            return Err(DeskFault::NoMemory);
        };
        let call = room.draw(router_log.consumers.as_mut_slice(), device, seen);
        // Nothing fails from here on.
        let Ok(reply) = self.router.step_stored(alloc, &call, None) else {
            unreachable!()
        };
        Ok(note(&mut router_log.entries, calls, number, call, reply))
    }
}
