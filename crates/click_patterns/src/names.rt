//! Names of ports, protocols and types of ICMP messages.

ghost use Rattle.std.specs.Prelude.{◌≡◌};
ghost use Rattle.click_patterns.specs.Names.{ports, protocols, icmp_types, named, rows, keywords, keyword, keyword_rows};

use crate::token::{Join, Token};
use click_filter::{Field, Flag};

/// Ports by name.
const PORTS: [(&[u8], u16); 34] = [
    (b"echo", 7),
    (b"discard", 9),
    (b"daytime", 13),
    (b"chargen", 19),
    (b"ftp-data", 20),
    (b"ftp", 21),
    (b"ssh", 22),
    (b"telnet", 23),
    (b"smtp", 25),
    (b"dns", 53),
    (b"domain", 53),
    (b"bootps", 67),
    (b"bootpc", 68),
    (b"tftp", 69),
    (b"finger", 79),
    (b"http", 80),
    (b"www", 80),
    (b"pop3", 110),
    (b"sunrpc", 111),
    (b"auth", 113),
    (b"nntp", 119),
    (b"ntp", 123),
    (b"netbios-ns", 137),
    (b"netbios-dgm", 138),
    (b"netbios-ssn", 139),
    (b"snmp", 161),
    (b"snmp-trap", 162),
    (b"irc", 194),
    (b"imap3", 220),
    (b"https", 443),
    (b"rip", 520),
    (b"route", 520),
    (b"imaps", 993),
    (b"pop3s", 995),
];

/// Protocols by name.
const PROTOCOLS: [(&[u8], u8); 20] = [
    (b"icmp", 1),
    (b"igmp", 2),
    (b"ipip", 4),
    (b"tcp", 6),
    (b"egp", 8),
    (b"igp", 9),
    (b"udp", 17),
    (b"dccp", 33),
    (b"ipv6", 41),
    (b"rsvp", 46),
    (b"gre", 47),
    (b"esp", 50),
    (b"ah", 51),
    (b"eigrp", 88),
    (b"ospf", 89),
    (b"pim", 103),
    (b"vrrp", 112),
    (b"l2tp", 115),
    (b"sctp", 132),
    (b"udplite", 136),
];

/// Types of ICMP messages by name.
const ICMP_TYPES: [(&[u8], u8); 15] = [
    (b"echo-reply", 0),
    (b"unreachable", 3),
    (b"sourcequench", 4),
    (b"redirect", 5),
    (b"echo", 8),
    (b"routeradvert", 9),
    (b"routersolicit", 10),
    (b"timex", 11),
    (b"paramprob", 12),
    (b"timestamp", 13),
    (b"timestamp-reply", 14),
    (b"inforeq", 15),
    (b"inforeply", 16),
    (b"maskreq", 17),
    (b"maskreply", 18),
];

/// The keywords.
const KEYWORDS: [(&[u8], Token); 38] = [
    (b"and", Token::Join(Join::And)),
    (b"or", Token::Join(Join::Or)),
    (b"not", Token::Not),
    (b"all", Token::Constant(true)),
    (b"any", Token::Constant(true)),
    (b"true", Token::Constant(true)),
    (b"-", Token::Constant(true)),
    (b"none", Token::Constant(false)),
    (b"false", Token::Constant(false)),
    (b"src", Token::Src),
    (b"dst", Token::Dst),
    (b"host", Token::Host),
    (b"net", Token::Net),
    (b"mask", Token::Mask),
    (b"tcp", Token::Tcp),
    (b"udp", Token::Udp),
    (b"icmp", Token::Icmp),
    (b"ip", Token::Ip),
    (b"proto", Token::Proto),
    (b"port", Token::Port),
    (b"type", Token::Type),
    (b"opt", Token::Opt),
    (b"frag", Token::Frag),
    (b"unfrag", Token::Unfrag),
    (b"fin", Token::Flag(Flag::Fin)),
    (b"syn", Token::Flag(Flag::Syn)),
    (b"rst", Token::Flag(Flag::Rst)),
    (b"psh", Token::Flag(Flag::Psh)),
    (b"ack", Token::Flag(Flag::Ack)),
    (b"urg", Token::Flag(Flag::Urg)),
    (b"vers", Token::Field(Field::Version)),
    (b"hl", Token::Field(Field::HeaderLength)),
    (b"tos", Token::Field(Field::Tos)),
    (b"dscp", Token::Field(Field::Dscp)),
    (b"ecn", Token::Field(Field::Ecn)),
    (b"len", Token::Field(Field::Length)),
    (b"id", Token::Field(Field::Id)),
    (b"ttl", Token::Field(Field::Ttl)),
];

/// Returns the number that a table has under this name.
fn port_in(table: &[(&[u8], u16)], word: &[u8]) -> Option<u16>
    ensures { result ≡ named (rows table.now) word.now }
{
    for (name, number) in table {
        if *name == word {
            return Some(*number);
        }
    }
    None
}

/// Returns the number that a table has under this name.
fn number_in(table: &[(&[u8], u8)], word: &[u8]) -> Option<u8>
    ensures { result ≡ named (rows table.now) word.now }
{
    for (name, number) in table {
        if *name == word {
            return Some(*number);
        }
    }
    None
}

/// Returns the port with this name.
pub fn port_named(word: &[u8]) -> Option<u16>
    ensures { result ≡ named ports word.now }
{
    port_in(&PORTS, word)
}

/// Returns the protocol with this name.
pub fn protocol_named(word: &[u8]) -> Option<u8>
    ensures { result ≡ named protocols word.now }
{
    number_in(&PROTOCOLS, word)
}

/// Returns the type of ICMP messages with this name.
pub fn icmp_type_named(word: &[u8]) -> Option<u8>
    ensures { result ≡ named icmp_types word.now }
{
    number_in(&ICMP_TYPES, word)
}

/// Returns the token of a keyword.
pub fn keyword(word: &[u8]) -> Option<Token>
    ensures { result ≡ keyword keywords word.now }
{
    keyword_in(&KEYWORDS, word)
}

/// Returns the token that a table has under this name.
fn keyword_in(table: &[(&[u8], Token)], word: &[u8]) -> Option<Token>
    ensures { result ≡ keyword (keyword_rows table.now) word.now }
{
    for (name, token) in table {
        if *name == word {
            return Some(*token);
        }
    }
    None
}
