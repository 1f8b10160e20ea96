//! The words of one test.

ghost use Rattle.std.specs.Prelude.{◌≡◌, ◌≤◌, drop, slice_get, IfSome};
ghost use Rattle.click_patterns.specs.Tests.{alone, within, direction_of, relation_of, number_of, port_of, icmp_type_of, protocol_of, port_test, icmp_type_test, greatest, field_test, masked_by, net_test, host_test, ends_test, ports_test, flag_test, tcp_test, udp_test, icmp_test, ip_test, test_of};

use crate::token::{Join, Token};
use click_filter::{Direction, Field, Relation, Test, Transport};

/// The mask of one address.
const WHOLE: u32 = 4_294_967_295;

/// Returns the first word, if there is one, and the words behind it.
pub fn split(words: &[Token]) -> (Option<Token>, &[Token])
    ensures first { result.0 ≡ slice_get words.now 0 }
    ensures rest { result.1.now ≡ drop 1 words.now }
{
    match words {
        [] => (None, words),
        [first, rest @ ..] => (Some(*first), rest),
    }
}

/// Returns the test if no word follows.
fn alone(test: Test, rest: &[Token]) -> Option<Test>
    ensures { result ≡ alone test rest.now }
{
    if rest.is_empty() { Some(test) } else { None }
}

/// Returns the number if it is at most `high`.
fn within(number: Option<u16>, high: u16) -> Option<u16>
    ensures value { result ≡ within number high }
    ensures small { IfSome result (λ n. n ≤ high) }
{
    match number {
        Some(number) if number <= high => Some(number),
        _ => None,
    }
}

/// Returns the direction with which the words begin, and the words behind it. Without a direction
/// it is either end.
#[tactic(auto, unfolding(crate::specs::Tests::direction_of, crate::specs::Tests::direction_from, crate::specs::Tests::both_ends))]
fn direction_of(words: &[Token]) -> (Direction, &[Token])
    ensures { (result.0, result.1.now) ≡ direction_of words.now }
{
    let (first, rest) = split(words);
    match first {
        Some(Token::Dst) => (Direction::Destination, rest),
        Some(Token::Src) => {
            let (join, behind) = split(rest);
            let (last, behind) = split(behind);
            match (join, last) {
                (Some(Token::Join(Join::Or)), Some(Token::Dst)) => (Direction::Either, behind),
                (Some(Token::Join(Join::And)), Some(Token::Dst)) => (Direction::Both, behind),
                _ => (Direction::Source, rest),
            }
        }
        _ => (Direction::Either, words),
    }
}

/// Returns the relation with which the words begin, and the words behind it. Without a relation it
/// is `=`.
#[tactic(auto, unfolding(crate::specs::Tests::relation_of, crate::specs::Tests::compared_from))]
fn relation_of(words: &[Token]) -> (Relation, &[Token])
    ensures { (result.0, result.1.now) ≡ relation_of words.now }
{
    let (first, rest) = split(words);
    match first {
        Some(Token::Relation(relation)) => (relation, rest),
        _ => (Relation::Equal, words),
    }
}

/// Returns the number that a word stands for.
#[tactic(auto, unfolding(crate::specs::Tests::number_of))]
fn number_of(word: Option<Token>) -> Option<u16>
    ensures { result ≡ number_of word }
{
    match word {
        Some(Token::Value(value)) => value.number,
        _ => None,
    }
}

/// Returns the port that a word stands for.
#[tactic(auto, unfolding(crate::specs::Tests::port_of))]
fn port_of(word: Option<Token>) -> Option<u16>
    ensures { result ≡ port_of word }
{
    match word {
        Some(Token::Value(value)) => value.port,
        _ => None,
    }
}

/// Returns the type of an ICMP message that a word stands for.
#[tactic(auto, unfolding(crate::specs::Tests::icmp_type_of))]
fn icmp_type_of(word: Option<Token>) -> Option<u8>
    ensures { result ≡ icmp_type_of word }
{
    match word {
        Some(Token::Value(value)) => value.icmp_type,
        _ => None,
    }
}

/// Returns the protocol that a word stands for.
#[tactic(auto, unfolding(crate::specs::Tests::protocol_of))]
fn protocol_of(word: Option<Token>) -> Option<u8>
    ensures { result ≡ protocol_of word }
{
    match word {
        Some(Token::Tcp) => Some(6),
        Some(Token::Udp) => Some(17),
        Some(Token::Icmp) => Some(1),
        Some(Token::Value(value)) => value.protocol,
        _ => None,
    }
}

/// Returns the test of words behind `port`: an optional relation, and a port.
#[tactic(auto, unfolding(crate::specs::Tests::port_test, crate::specs::Tests::with_number))]
fn port_test(transport: Transport, direction: Direction, words: &[Token]) -> Option<Test>
    ensures { result ≡ port_test transport direction words.now }
{
    let (relation, words) = relation_of(words);
    let (word, rest) = split(words);
    let number = port_of(word)?;
    alone(
        Test::Port {
            transport,
            direction,
            relation,
            number,
        },
        rest,
    )
}

/// Returns the test of words behind `icmp type`: an optional relation, and a type.
#[tactic(auto, unfolding(crate::specs::Tests::icmp_type_test, crate::specs::Tests::with_number))]
fn icmp_type_test(words: &[Token]) -> Option<Test>
    ensures { result ≡ icmp_type_test words.now }
{
    let (relation, words) = relation_of(words);
    let (word, rest) = split(words);
    let number = icmp_type_of(word)?;
    alone(Test::IcmpType { relation, number }, rest)
}

/// Returns the greatest value of a field.
#[tactic(auto, unfolding(crate::specs::Tests::greatest))]
fn greatest(field: Field) -> u16
    ensures { result ≡ greatest field }
{
    match field {
        Field::Version | Field::HeaderLength => 15,
        Field::Tos | Field::Ttl => 255,
        Field::Dscp => 63,
        Field::Ecn => 3,
        Field::Length | Field::Id => 65535,
    }
}

/// Returns the test of words behind `ip` and a field: an optional relation, and a number.
#[tactic(auto, unfolding(crate::specs::Tests::field_test, crate::specs::Tests::with_number))]
fn field_test(field: Field, words: &[Token]) -> Option<Test>
    ensures { result ≡ field_test field words.now }
{
    let (relation, words) = relation_of(words);
    let (word, rest) = split(words);
    let number = within(number_of(word), greatest(field))?;
    alone(
        Test::Field {
            field,
            relation,
            number,
        },
        rest,
    )
}

/// Returns the test of words behind `net`: a prefix, or an address, `mask` and an address.
#[tactic(auto, unfolding(crate::specs::Tests::net_test, crate::specs::Tests::masked_by))]
fn net_test(direction: Direction, words: &[Token]) -> Option<Test>
    ensures { result ≡ net_test direction (slice_get words.now 0) (drop 1 words.now) }
{
    let (first, rest) = split(words);
    match first? {
        Token::Prefix { address, mask } => alone(
            Test::Net {
                direction,
                address,
                mask,
            },
            rest,
        ),
        Token::Address(address) => {
            let (word, rest) = split(rest);
            let (last, rest) = split(rest);
            match (word?, last?) {
                (Token::Mask, Token::Address(mask)) => alone(
                    Test::Net {
                        direction,
                        address: address & mask,
                        mask,
                    },
                    rest,
                ),
                _ => None,
            }
        }
        _ => None,
    }
}

/// Returns the test of words that begin with an address.
#[tactic(auto, unfolding(crate::specs::Tests::host_test))]
fn host_test(direction: Direction, words: &[Token]) -> Option<Test>
    ensures { result ≡ host_test direction (slice_get words.now 0) (drop 1 words.now) }
{
    let (first, rest) = split(words);
    match first? {
        Token::Address(address) => alone(
            Test::Net {
                direction,
                address,
                mask: WHOLE,
            },
            rest,
        ),
        _ => None,
    }
}

/// Returns the test of words behind a direction: `port`, `host`, `net`, an address or a prefix.
#[tactic(auto, unfolding(crate::specs::Tests::ends_test))]
fn ends_test(direction: Direction, words: &[Token]) -> Option<Test>
    ensures { result ≡ ends_test direction (slice_get words.now 0) (drop 1 words.now) }
{
    let (first, rest) = split(words);
    match first? {
        Token::Port => port_test(Transport::TcpOrUdp, direction, rest),
        Token::Host => host_test(direction, rest),
        Token::Net => net_test(direction, rest),
        Token::Address(address) => alone(
            Test::Net {
                direction,
                address,
                mask: WHOLE,
            },
            rest,
        ),
        Token::Prefix { address, mask } => alone(
            Test::Net {
                direction,
                address,
                mask,
            },
            rest,
        ),
        _ => None,
    }
}

/// Returns the test of words behind `tcp` or `udp`: an optional direction, and `port`.
#[tactic(auto, unfolding(crate::specs::Tests::ports_test, crate::specs::Tests::ports_from))]
fn ports_test(transport: Transport, words: &[Token]) -> Option<Test>
    ensures { result ≡ ports_test transport words.now }
{
    let (direction, words) = direction_of(words);
    let (first, rest) = split(words);
    match first? {
        Token::Port => port_test(transport, direction, rest),
        _ => None,
    }
}

/// Returns the test of words behind `tcp opt`: a flag.
#[tactic(auto, unfolding(crate::specs::Tests::flag_test))]
fn flag_test(words: &[Token]) -> Option<Test>
    ensures { result ≡ flag_test (slice_get words.now 0) (drop 1 words.now) }
{
    let (first, rest) = split(words);
    match first? {
        Token::Flag(flag) => alone(Test::TcpFlag(flag), rest),
        _ => None,
    }
}

/// Returns the test of words behind `tcp`.
#[tactic(auto, unfolding(crate::specs::Tests::tcp_test))]
fn tcp_test(words: &[Token]) -> Option<Test>
    ensures { result ≡ tcp_test (slice_get words.now 0) words.now (drop 1 words.now) }
{
    let (first, rest) = split(words);
    match first {
        None => Some(Test::Protocol(6)),
        Some(Token::Opt) => flag_test(rest),
        Some(_) => ports_test(Transport::Tcp, words),
    }
}

/// Returns the test of words behind `udp`.
#[tactic(auto, unfolding(crate::specs::Tests::udp_test))]
fn udp_test(words: &[Token]) -> Option<Test>
    ensures { result ≡ udp_test (slice_get words.now 0) words.now }
{
    if words.is_empty() {
        return Some(Test::Protocol(17));
    }
    ports_test(Transport::Udp, words)
}

/// Returns the test of words behind `icmp`.
#[tactic(auto, unfolding(crate::specs::Tests::icmp_test))]
fn icmp_test(words: &[Token]) -> Option<Test>
    ensures { result ≡ icmp_test (slice_get words.now 0) (drop 1 words.now) }
{
    let (first, rest) = split(words);
    match first {
        None => Some(Test::Protocol(1)),
        Some(Token::Type) => icmp_type_test(rest),
        Some(_) => None,
    }
}

/// Returns the test of words behind `ip`.
#[tactic(auto, unfolding(crate::specs::Tests::ip_test, crate::specs::Tests::with_number))]
fn ip_test(words: &[Token]) -> Option<Test>
    ensures { result ≡ ip_test (slice_get words.now 0) (drop 1 words.now) }
{
    let (first, rest) = split(words);
    match first? {
        Token::Proto => {
            let (word, rest) = split(rest);
            alone(Test::Protocol(protocol_of(word)?), rest)
        }
        Token::Field(field) => field_test(field, rest),
        Token::Frag => alone(Test::Fragment, rest),
        Token::Unfrag => alone(Test::Unfragmented, rest),
        _ => None,
    }
}

/// Returns the test that these words are.
#[tactic(auto, unfolding(crate::specs::Tests::test_of, crate::specs::Tests::test_from))]
pub fn test_of(words: &[Token]) -> Option<Test>
    ensures { result ≡ test_of words.now }
{
    let (first, rest) = split(words);
    match first? {
        Token::Constant(value) => alone(Test::Constant(value), rest),
        Token::Tcp => tcp_test(rest),
        Token::Udp => udp_test(rest),
        Token::Icmp => icmp_test(rest),
        Token::Ip => ip_test(rest),
        _ => {
            let (direction, words) = direction_of(words);
            ends_test(direction, words)
        }
    }
}
