//! Tokens of patterns.

use click_filter::{Field, Flag, Relation};

/// How the parts of a chain are joined.
#[derive(Clone, Copy, Debug, PartialEq, Eq)]
pub enum Join {
    And,
    Or,
}

/// What a word that is no keyword can stand for: each reading, if the word has it.
#[derive(Clone, Copy, Debug, PartialEq, Eq)]
pub struct Value {
    pub number: Option<u16>,
    pub port: Option<u16>,
    pub protocol: Option<u8>,
    pub icmp_type: Option<u8>,
}

/// A token of a pattern.
#[derive(Clone, Copy, Debug, PartialEq, Eq)]
pub enum Token {
    Open,
    Close,
    Not,
    Join(Join),
    Relation(Relation),
    Constant(bool),
    Src,
    Dst,
    Host,
    Net,
    Mask,
    Tcp,
    Udp,
    Icmp,
    Ip,
    Proto,
    Port,
    Type,
    Opt,
    Frag,
    Unfrag,
    Flag(Flag),
    Field(Field),
    Address(u32),
    Prefix { address: u32, mask: u32 },
    Value(Value),
}
