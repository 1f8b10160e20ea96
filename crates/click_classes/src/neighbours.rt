//! The table of an ARPQuerier.
//!
//! All memory is reserved when the table is created. A place is written at its first use, and never
//! moves.
ghost use Rattle.std.specs.Prelude.{◌≡◌, ◌≤◌, ◌<◌, ◌+◌, ◌&&◌, not, filter, [], ◌∷◌, ◌++◌, length, position, slice_get, slice_set, Some, None, true, false, is_some, nat_lt, option_map, IfOk, IfSome, MatchOption, vec_len, vec_capacity};
ghost use Rattle.std.specs.List.{count_by};
ghost use Rattle.std.specs.Str.{bytes_eq};
ghost use Rattle.click_classes.specs.Neighbours.{Neighbour, waiting_in};
ghost use Rattle.click_classes.specs.NeighbourWrites.{can_be_known};
ghost use Rattle.click_classes.specs.kept.KeepTests.{passes};
ghost use Rattle.click_gateway.specs.Arp.{is_station};

use click_gateway::is_host;
use click_packet::Packet;
use std::alloc::{AllocError, Global};
use std::marker::Model;
use std::mem;

/// The maximum number of addresses of a table.
const MOST: usize = 256;

/// An address, its Ethernet address if that is known, and room for a packet that waits for it.
///
/// `packet` is valid only if `waits` is true.
#[derive(Drop)]
struct Place {
    address: [u8; 4],
    ether: Option<[u8; 6]>,
    waits: bool,
    packet: Packet,
    used: u64,
}

impl Model for Place {
    ghost use Rattle.std.specs.Prelude.{Some, None, if◌then◌else◌};
    ghost use Rattle.click_classes.specs.Neighbours.{Neighbour};

    ghost Value = { Neighbour };

    ghost view = { λ p. record { address = p.address; ether = p.ether; waiting = if p.waits then Some p.packet else None; used = p.used } };
}

/// A table of at most 256 addresses.
#[derive(Drop)]
pub struct Neighbours {
    places: Vec<Place>,
}

impl Model for Neighbours {
    ghost use Rattle.std.specs.Prelude.{◌≤◌, List, length, vec_capacity};
    ghost use Rattle.click_classes.specs.Neighbours.{Neighbour};

    ghost Value = { List Neighbour };

    ghost view = { λ t. t.places.items };

    ghost invariant = { λ t. (length t.places.items ≤ 256) × (256 ≤ vec_capacity t.places) };
}

/// A neighbour without its packet: its address, and its Ethernet address if that is known.
#[derive(Clone, Copy, Debug, PartialEq, Eq)]
pub struct NeighbourEntry {
    pub address: [u8; 4],
    pub ether: Option<[u8; 6]>,
}

/// A test of the neighbours that stay in a table.
#[derive(Clone, Copy, Debug, PartialEq, Eq)]
enum KeepTest {
    /// No neighbour stays.
    Nothing,
    /// All neighbours stay except the one with this address.
    Without { address: [u8; 4] },
    /// A neighbour stays if fewer than `most` packets arrived after its last use. `now` is the
    /// number of packets.
    Recent { now: u64, most: u64 },
}

impl KeepTest {
    /// Returns whether the place passes the test.
    fn passes(self, place: &Place) -> bool
        ensures { result ≡ passes self place.now }
    {
        match self {
            KeepTest::Nothing => false,
            KeepTest::Without { address } => place.address != address,
            KeepTest::Recent { now, most } => now.saturating_sub(place.used) < most,
        }
    }
}

impl Place {
    /// Returns a place without an address. It is overwritten in the table, where it does not move.
    fn empty() -> Place {
        Place {
            address: [0, 0, 0, 0],
            ether: None,
            waits: false,
            packet: Packet::empty(),
            used: 0,
        }
    }

    /// Overwrites the place with an address for which a packet waits.
    fn wait_for(&mut self, address: [u8; 4], packet: &Packet, now: u64)
        ensures { self.new ≡ record { address = address; ether = None; waiting = Some packet.now; used = now } }
    {
        self.address = address;
        self.ether = None;
        self.waits = true;
        self.packet.copy_from(packet);
        self.used = now;
    }

    /// Overwrites the place with an address whose Ethernet address is known.
    fn set_known(&mut self, address: [u8; 4], ether: [u8; 6], now: u64)
        ensures { self.new ≡ record { address = address; ether = Some ether; waiting = None; used = now } }
    {
        self.address = address;
        self.ether = Some(ether);
        self.waits = false;
        self.used = now;
    }

    /// Overwrites the place with a copy of another.
    fn copy_from(&mut self, place: &Place)
        ensures { self.new ≡ place.now }
    {
        self.address = place.address;
        self.ether = place.ether;
        self.waits = place.waits;
        self.used = place.used;
        if place.waits {
            self.packet.copy_from(&place.packet);
        }
    }

    /// Stores a packet that waits. It replaces the one that waited.
    fn hold(&mut self, packet: &Packet, now: u64)
        ensures { self.new ≡ record self.old { waiting = Some packet.now; used = now } }
    {
        self.waits = true;
        self.packet.copy_from(packet);
        self.used = now;
    }

    /// Stores the Ethernet address, and removes the packet that waits.
    ///
    /// Returns whether a packet waited.
    fn overwrite(&mut self, ether: [u8; 6], now: u64) -> bool
        ensures place { self.new ≡ record self.old { ether = Some ether; waiting = None; used = now } }
        ensures waited { result ≡ is_some self.old.waiting }
    {
        let waited = self.waits;
        self.ether = Some(ether);
        self.waits = false;
        self.used = now;
        waited
    }

    /// Returns whether a packet waits.
    fn waits(&self) -> bool
        ensures { result ≡ is_some self.now.waiting }
    {
        self.waits
    }

    /// Stores the Ethernet address, and moves the packet that waits into `packet`.
    ///
    /// Returns whether a packet waited.
    fn learn(&mut self, ether: [u8; 6], packet: &mut Packet, now: u64) -> bool
        ensures place { self.new ≡ record self.old { ether = Some ether; waiting = None; used = now } }
        ensures packet { MatchOption self.old.waiting ((result ≡ false) × (packet.new ≡ packet.old)) (λ waited. (result ≡ true) × (packet.new ≡ waited)) }
    {
        let waited = self.waits;
        self.ether = Some(ether);
        self.waits = false;
        self.used = now;
        if waited {
            packet.copy_from(&self.packet);
        }
        waited
    }
}

impl Neighbours {
    /// Returns an empty table with room for 256 addresses, or fails with out of memory.
    pub fn new(alloc: Global) -> Result<Neighbours, AllocError>
        ensures { IfOk result (λ table. table ≡ []) }
    {
        Ok(Neighbours {
            places: Vec::with_capacity(alloc, MOST)?,
        })
    }

    /// Returns the number of neighbours.
    pub fn len(&self) -> usize
        ensures { result ≡ length self.now }
    {
        self.places.len()
    }

    /// Returns the addresses of the neighbour with this index.
    pub fn entry(&self, place: usize) -> NeighbourEntry
        requires { place < length self.now }
        ensures { (n : Neighbour) → slice_get self.now place ≡ Some n → (result.address ≡ n.address) × (result.ether ≡ n.ether) }
    {
        let place = &self.places[place];
        NeighbourEntry {
            address: place.address,
            ether: place.ether,
        }
    }

    /// Returns whether there is room for one more address.
    pub fn has_room(&self) -> bool
        ensures { result ≡ nat_lt (length self.now) 256 }
    {
        self.places.len() < MOST
    }

    /// Returns the index of the neighbour with this address.
    pub fn find(&self, address: [u8; 4]) -> Option<usize>
        ensures place { result ≡ position (λ n. bytes_eq n.address address) self.now }
        ensures there { IfSome result (λ place. place < length self.now) }
    {
        self.places
            .iter()
            .position(|place| place.address == address)
    }

    /// Returns the Ethernet address of the neighbour with this index, if it is known.
    pub fn ether(&self, place: usize) -> Option<[u8; 6]>
        requires { place < length self.now }
        ensures { option_map (λ n. n.ether) (slice_get self.now place) ≡ Some result }
    {
        self.places[place].ether
    }

    /// Marks the neighbour with this index as used.
    pub fn mark_used(&mut self, place: usize, now: u64)
        requires { place < length self.old }
        ensures { (n : Neighbour) → slice_get self.old place ≡ Some n → self.new ≡ slice_set self.old place (record n { used = now }) }
    {
        self.places[place].used = now;
    }

    /// Stores a packet that waits for the neighbour with this index.
    ///
    /// Returns whether a packet waited before, which is replaced.
    pub fn hold(&mut self, place: usize, packet: &Packet, now: u64) -> bool
        requires { place < length self.old }
        ensures { (n : Neighbour) → slice_get self.old place ≡ Some n
            → (self.new ≡ slice_set self.old place (record n { waiting = Some packet.now; used = now })) × (result ≡ is_some n.waiting) }
    {
        let waited = self.places[place].waits;
        self.places[place].hold(packet, now);
        waited
    }

    /// Appends an address for which a packet waits.
    #[cold]
    #[inline(never)]
    pub fn add(&mut self, address: [u8; 4], packet: &Packet, now: u64)
        requires { length self.old < 256 }
        ensures { self.new ≡ self.old ++ record { address = address; ether = None; waiting = Some packet.now; used = now } ∷ [] }
    {
        add_waiting(&mut self.places, address, packet, now);
    }

    /// Stores the Ethernet address of the neighbour with this index, and moves the packet that
    /// waits for it into `packet`.
    ///
    /// Returns whether a packet waited.
    pub fn learn(&mut self, place: usize, ether: [u8; 6], packet: &mut Packet, now: u64) -> bool
        requires { place < length self.old }
        ensures { (n : Neighbour) → slice_get self.old place ≡ Some n
            → (self.new ≡ slice_set self.old place (record n { ether = Some ether; waiting = None; used = now }))
            × MatchOption n.waiting ((result ≡ false) × (packet.new ≡ packet.old)) (λ waited. (result ≡ true) × (packet.new ≡ waited)) }
    {
        self.places[place].learn(ether, packet, now)
    }

    /// Appends an address whose Ethernet address is known.
    fn add_known(&mut self, address: [u8; 4], ether: [u8; 6], now: u64)
        requires { length self.old < 256 }
        ensures { self.new ≡ self.old ++ record { address = address; ether = Some ether; waiting = None; used = now } ∷ [] }
    {
        add_known(&mut self.places, address, ether, now);
    }

    /// Stores the Ethernet address of the neighbour with this index, and removes the packet that
    /// waits for it.
    ///
    /// Returns whether a packet waited.
    fn overwrite(&mut self, place: usize, ether: [u8; 6], now: u64) -> bool
        requires { place < length self.old }
        ensures { (n : Neighbour) → slice_get self.old place ≡ Some n
            → (self.new ≡ slice_set self.old place (record n { ether = Some ether; waiting = None; used = now })) × (result ≡ is_some n.waiting) }
    {
        self.places[place].overwrite(ether, now)
    }

    /// Keeps only the neighbours that pass the test.
    ///
    /// Returns the number of packets that waited for the others.
    fn keep(&mut self, test: KeepTest) -> usize
        ensures table { self.new ≡ filter (passes test) self.old }
        ensures gone { result ≡ waiting_in (filter (λ n. not (passes test n)) self.old) }
    {
        keep_places(&mut self.places, test)
    }

    /// Replaces the table by a copy of another.
    fn fill(&mut self, old: &Neighbours)
        ensures { self.new ≡ old.now }
    {
        self.places.clear();
        add_copies(&mut self.places, old.places.as_slice());
    }

    /// Replaces the table by another.
    ///
    /// If `keeps` is true, the other is copied and left unchanged. Otherwise the two are exchanged,
    /// and no packet is copied.
    pub fn take_from(&mut self, old: &mut Neighbours, keeps: bool)
        ensures taken { self.new ≡ old.old }
        ensures kept { keeps ≡ true → old.new ≡ old.old }
    {
        if keeps {
            self.fill(old);
        } else {
            mem::swap(self, old);
        }
    }
}

/// Appends an address for which a packet waits.
fn add_waiting(places: &mut Vec<Place>, address: [u8; 4], packet: &Packet, now: u64)
    requires { vec_len places.old < vec_capacity places.old }
    ensures items { places.new.items ≡ places.old.items ++ record { address = address; ether = None; waiting = Some packet.now; used = now } ∷ [] }
    ensures capacity { vec_capacity places.old ≤ vec_capacity places.new }
{
    let made = places.len();
    places.push_reserved(Place::empty());
    places[made].wait_for(address, packet, now);
}

/// Appends an address whose Ethernet address is known.
fn add_known(places: &mut Vec<Place>, address: [u8; 4], ether: [u8; 6], now: u64)
    requires { vec_len places.old < vec_capacity places.old }
    ensures items { places.new.items ≡ places.old.items ++ record { address = address; ether = Some ether; waiting = None; used = now } ∷ [] }
    ensures capacity { vec_capacity places.old ≤ vec_capacity places.new }
{
    let made = places.len();
    places.push_reserved(Place::empty());
    places[made].set_known(address, ether, now);
}

/// Returns the number of packets that wait for the places that do not pass the test.
fn waiting_without(places: &[Place], test: KeepTest) -> usize
    ensures { result ≡ count_by (λ n. is_some n.waiting && not (passes test n)) places.now }
{
    places
        .iter()
        .filter(|place| place.waits() && !test.passes(place))
        .count()
}

/// Keeps only the places that pass the test, in their order.
///
/// Returns the number of packets that waited for the others.
fn keep_places(places: &mut Vec<Place>, test: KeepTest) -> usize
    ensures items { places.new.items ≡ filter (passes test) places.old.items }
    ensures bound { vec_len places.new ≤ vec_len places.old }
    ensures capacity { vec_capacity places.new ≡ vec_capacity places.old }
    ensures gone { result ≡ waiting_in (filter (λ n. not (passes test n)) places.old.items) }
{
    let gone = waiting_without(places.as_slice(), test);
    places.retain(|place| test.passes(place));
    gone
}

/// Appends a copy of a place.
fn add_copy(places: &mut Vec<Place>, place: &Place)
    requires { vec_len places.old < vec_capacity places.old }
    ensures items { places.new.items ≡ places.old.items ++ place.now ∷ [] }
    ensures capacity { vec_capacity places.old ≤ vec_capacity places.new }
{
    let made = places.len();
    places.push_reserved(Place::empty());
    places[made].copy_from(place);
}

/// Appends copies of places.
fn add_copies(places: &mut Vec<Place>, others: &[Place])
    requires none { places.old.items ≡ [] }
    requires few { length others.now ≤ 256 }
    requires room { 256 ≤ vec_capacity places.old }
    ensures items { places.new.items ≡ others.now }
    ensures capacity { 256 ≤ vec_capacity places.new }
{
    for other in others {
        add_copy(places, other);
    }
}

/// Returns whether an operator may write these addresses: an IP address that can be one host's, and
/// the Ethernet address of one station.
fn can_be_known(address: [u8; 4], ether: [u8; 6]) -> bool
    ensures { result ≡ can_be_known address ether }
{
    is_host(address) && is_station(ether) && ether != [0, 0, 0, 0, 0, 0]
}

/// Returns whether the Ethernet address is that of one station: the low bit of its first byte is
/// not set (IEEE 802.3).
fn is_station(ether: [u8; 6]) -> bool
    ensures { result ≡ is_station ether }
{
    ether[0] % 2 == 0
}

/// The state of an ARPQuerier: the addresses of its station, the table, the number of packets at
/// input 0, and the number of dropped packets.
#[derive(Drop)]
pub struct Querier {
    pub ip: [u8; 4],
    pub ether: [u8; 6],
    pub table: Neighbours,
    pub packets: u64,
    pub drops: u64,
}

impl Querier {
    ghost use Rattle.std.specs.Prelude.{◌≡◌, ◌<◌, true, false, length, Some, None, MatchOption};
    ghost use Rattle.click_classes.specs.NeighbourWrites.{keeping, cleared, without, recent, inserted_at, inserted};
    ghost use Rattle.click_classes.specs.kept.KeepTests.{passes};

    /// Keeps only the neighbours that pass the test. The packets that wait for the others count as
    /// drops.
    fn keep(&mut self, test: KeepTest)
        ensures { self.new ≡ keeping (passes test) self.old }
    {
        let gone = self.table.keep(test);
        self.drops = self.drops.saturating_add(gone as u64);
    }

    /// Removes all neighbours. The packets that wait for them count as drops.
    pub fn clear(&mut self)
        ensures { self.new ≡ cleared self.old }
    {
        self.keep(KeepTest::Nothing);
    }

    /// Removes the neighbour with this address, if there is one. A packet that waits for it counts
    /// as a drop.
    pub fn delete(&mut self, address: [u8; 4])
        ensures { self.new ≡ without address self.old }
    {
        self.keep(KeepTest::Without { address });
    }

    /// Removes the neighbours after whose last use at least `packets` packets arrived at input 0.
    ///
    /// The packets that wait for them count as drops.
    pub fn expire(&mut self, packets: u64)
        ensures { self.new ≡ recent packets self.old }
    {
        self.keep(KeepTest::Recent {
            now: self.packets,
            most: packets,
        });
    }

    /// Stores the Ethernet address of the neighbour with this index. A packet that waits for it
    /// counts as a drop.
    fn insert_at(&mut self, place: usize, address: [u8; 4], ether: [u8; 6])
        requires { place < length self.old.table }
        ensures { inserted_at self.old address ether (Some place) ≡ Some self.new }
    {
        if self.table.overwrite(place, ether, self.packets) {
            self.drops = self.drops.saturating_add(1);
        }
    }

    /// Stores the Ethernet address of an address, from then on. A packet that waits for it counts
    /// as a drop.
    ///
    /// A new address is appended. Returns false, and changes nothing, if the table has no room for
    /// it, or if these cannot be the addresses of one host.
    pub fn insert(&mut self, address: [u8; 4], ether: [u8; 6]) -> bool
        ensures { MatchOption (inserted address ether self.old) ((result ≡ false) × (self.new ≡ self.old)) (λ q. (result ≡ true) × (self.new ≡ q)) }
    {
        if !can_be_known(address, ether) {
            return false;
        }
        match self.table.find(address) {
            Some(place) => {
                self.insert_at(place, address, ether);
                true
            }
            None => self.insert_new(address, ether),
        }
    }

    /// Appends an address with its Ethernet address.
    ///
    /// Returns false, and changes nothing, if the table has no room for it.
    fn insert_new(&mut self, address: [u8; 4], ether: [u8; 6]) -> bool
        ensures { MatchOption (inserted_at self.old address ether None) ((result ≡ false) × (self.new ≡ self.old)) (λ q. (result ≡ true) × (self.new ≡ q)) }
    {
        if !self.table.has_room() {
            return false;
        }
        self.table.add_known(address, ether, self.packets);
        true
    }
}
