//! The flat form: a configuration without scopes.

use click_base::Class;
use click_base::sequence::Sequence;

/// An element under its flat name.
#[derive(Drop)]
pub struct FlatElement {
    pub name: Sequence<u8>,
    pub class: Class,
    /// Its configuration string, without the parentheses.
    pub text: Sequence<u8>,
}

/// A connection from an output to an input. Elements are given by their indices, from 0.
#[derive(Clone, Copy, Debug, PartialEq, Eq, PartialOrd, Ord, Hash)]
pub struct Connection {
    pub from: usize,
    pub out_port: u8,
    pub to: usize,
    pub in_port: u8,
}

/// A flat form: elements in flat order, and connections in their own order, without repetition.
#[derive(Drop)]
pub struct Flat {
    pub elements: Sequence<FlatElement>,
    pub connections: Sequence<Connection>,
}
