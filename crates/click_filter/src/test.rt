//! Tests of IP packets, and whether they hold.

ghost use Rattle.std.specs.Prelude.{◌≡◌, true};
ghost use Rattle.click_filter.specs.Tests.{relates, compares, ends, joined, bit, has_bit, is_in, field, holds};

use crate::parts::{
    address_at, byte_at, fragment_word, icmp_type, is_fragment, port, tcp_flags, word_at,
};

/// How a number is compared with the number of a test.
#[derive(Clone, Copy, Debug, PartialEq, Eq)]
pub enum Relation {
    Equal,
    NotEqual,
    Less,
    LessOrEqual,
    Greater,
    GreaterOrEqual,
}

/// The ends of a packet that a test is about.
#[derive(Clone, Copy, Debug, PartialEq, Eq)]
pub enum Direction {
    Source,
    Destination,
    Either,
    Both,
}

/// The protocols whose ports a test reads.
#[derive(Clone, Copy, Debug, PartialEq, Eq)]
pub enum Transport {
    Tcp,
    Udp,
    TcpOrUdp,
}

/// A flag of TCP.
#[derive(Clone, Copy, Debug, PartialEq, Eq)]
pub enum Flag {
    Fin,
    Syn,
    Rst,
    Psh,
    Ack,
    Urg,
}

/// A number in the fixed part of the IP header.
#[derive(Clone, Copy, Debug, PartialEq, Eq)]
pub enum Field {
    Version,
    HeaderLength,
    Tos,
    Dscp,
    Ecn,
    Length,
    Id,
    Ttl,
}

/// A test of a packet.
#[derive(Clone, Copy, Debug, PartialEq, Eq)]
pub enum Test {
    Constant(bool),
    /// The address, in the bits of the mask, is this one.
    Net {
        direction: Direction,
        address: u32,
        mask: u32,
    },
    Protocol(u8),
    Port {
        transport: Transport,
        direction: Direction,
        relation: Relation,
        number: u16,
    },
    IcmpType {
        relation: Relation,
        number: u8,
    },
    TcpFlag(Flag),
    Field {
        field: Field,
        relation: Relation,
        number: u16,
    },
    Fragment,
    Unfragmented,
}

impl Direction {
    /// Returns true only if the other direction is the same.
    fn is_same(self, other: Direction) -> bool
        ensures { result ≡ true → self ≡ other }
    {
        match (self, other) {
            (Direction::Source, Direction::Source) => true,
            (Direction::Destination, Direction::Destination) => true,
            (Direction::Either, Direction::Either) => true,
            (Direction::Both, Direction::Both) => true,
            _ => false,
        }
    }
}

impl Relation {
    /// Returns whether the number of a packet is in this relation to the number of a test.
    #[inline(always)]
    fn relates(self, found: u16, number: u16) -> bool
        ensures { result ≡ relates self found number }
    {
        match self {
            Relation::Equal => found == number,
            Relation::NotEqual => !(found == number),
            Relation::Less => found < number,
            Relation::LessOrEqual => found <= number,
            Relation::Greater => number < found,
            Relation::GreaterOrEqual => number <= found,
        }
    }

    /// Returns whether a number is there and is in this relation to the number of a test.
    #[inline(always)]
    fn compares(self, found: Option<u16>, number: u16) -> bool
        ensures { result ≡ compares self found number }
    {
        match found {
            Some(found) => self.relates(found, number),
            None => false,
        }
    }
}

impl Direction {
    /// Returns whether a test with these outcomes for the source and the destination holds.
    #[inline(always)]
    fn ends(self, source: bool, destination: bool) -> bool
        ensures { result ≡ ends self source destination }
    {
        match self {
            Direction::Source => source,
            Direction::Destination => destination,
            Direction::Either => source || destination,
            Direction::Both => source && destination,
        }
    }

    /// Returns how a comparison joins both ends: with `!=` it is the contrary of `=`.
    #[inline(always)]
    fn joined(self, relation: Relation) -> Direction
        ensures { result ≡ joined self relation }
    {
        match (self, relation) {
            (Direction::Either, Relation::NotEqual) => Direction::Both,
            (Direction::Both, Relation::NotEqual) => Direction::Either,
            _ => self,
        }
    }
}

impl Flag {
    /// Returns the bit of the flag (RFC 793, section 3.1).
    #[inline(always)]
    fn bit(self) -> u8
        ensures { result ≡ bit self }
    {
        match self {
            Flag::Fin => 1,
            Flag::Syn => 2,
            Flag::Rst => 4,
            Flag::Psh => 8,
            Flag::Ack => 16,
            Flag::Urg => 32,
        }
    }
}

impl Field {
    /// Returns the number of the field, if the packet has all of its bytes.
    #[inline(always)]
    fn of(self, packet: &[u8]) -> Option<u16>
        ensures { result ≡ field self packet.now }
    {
        match self {
            Field::Version => byte_at(packet, 0).map(|byte| u16::from(byte / 16)),
            Field::HeaderLength => byte_at(packet, 0).map(|byte| u16::from(byte % 16)),
            Field::Tos => byte_at(packet, 1).map(|byte| u16::from(byte)),
            Field::Dscp => byte_at(packet, 1).map(|byte| u16::from(byte / 4)),
            Field::Ecn => byte_at(packet, 1).map(|byte| u16::from(byte % 4)),
            Field::Length => word_at(packet, 2),
            Field::Id => word_at(packet, 4),
            Field::Ttl => byte_at(packet, 8).map(|byte| u16::from(byte)),
        }
    }
}

/// Returns whether flags are there and have this bit.
#[inline(always)]
fn has_bit(flags: Option<u8>, bit: u8) -> bool
    ensures { result ≡ has_bit flags bit }
{
    match flags {
        Some(flags) => !(flags & bit == 0),
        None => false,
    }
}

/// Returns whether an address is there and is the given one in the bits of the mask.
#[inline(always)]
fn is_in(found: Option<u32>, address: u32, mask: u32) -> bool
    ensures { result ≡ is_in found address mask }
{
    match found {
        Some(found) => found & mask == address,
        None => false,
    }
}

impl Test {
    /// Returns whether the other test is the same, for tests of addresses, protocols and fragments.
    /// For all others it returns false.
    pub(crate) fn is_same(self, other: Test) -> bool
        ensures { result ≡ true → self ≡ other }
    {
        match (self, other) {
            (
                Test::Net {
                    direction: own,
                    address,
                    mask,
                },
                Test::Net {
                    direction,
                    address: other_address,
                    mask: other_mask,
                },
            ) => own.is_same(direction) && address == other_address && mask == other_mask,
            (Test::Protocol(own), Test::Protocol(number)) => own == number,
            (Test::Fragment, Test::Fragment) => true,
            (Test::Unfragmented, Test::Unfragmented) => true,
            _ => false,
        }
    }

    /// Returns whether the test holds for a packet, whose first byte is the first of its IP header.
    #[inline(always)]
    pub(crate) fn holds(&self, packet: &[u8]) -> bool
        ensures { result ≡ holds self.now packet.now }
    {
        match *self {
            Test::Constant(value) => value,
            Test::Net {
                direction,
                address,
                mask,
            } => direction.ends(
                is_in(address_at(packet, 12), address, mask),
                is_in(address_at(packet, 16), address, mask),
            ),
            Test::Protocol(number) => Relation::Equal.compares(
                byte_at(packet, 9).map(|byte| u16::from(byte)),
                u16::from(number),
            ),
            Test::Port {
                transport,
                direction,
                relation,
                number,
            } => direction.joined(relation).ends(
                relation.compares(port(packet, transport, 0), number),
                relation.compares(port(packet, transport, 2), number),
            ),
            Test::IcmpType { relation, number } => relation.compares(
                icmp_type(packet).map(|byte| u16::from(byte)),
                u16::from(number),
            ),
            Test::TcpFlag(flag) => has_bit(tcp_flags(packet), flag.bit()),
            Test::Field {
                field,
                relation,
                number,
            } => relation.compares(field.of(packet), number),
            Test::Fragment => is_fragment(fragment_word(packet)),
            Test::Unfragmented => !is_fragment(fragment_word(packet)),
        }
    }
}
