//! A drawing of a net: figures for elements, lines for connections, and frames for compounds.

use click_base::Class;
use click_base::sequence::Sequence;

/// A point of the picture, in pixels from the left and from the top.
#[derive(Clone, Copy, Debug, PartialEq, Eq)]
pub struct Point {
    pub x: u64,
    pub y: u64,
}

/// A rectangle whose sides are parallel to those of the picture, in pixels.
#[derive(Clone, Copy, Debug, PartialEq, Eq)]
pub struct Rectangle {
    pub left: u64,
    pub top: u64,
    pub width: u64,
    pub height: u64,
}

/// The mark of a port: its kind, and its distance from the left side of its box.
///
/// A port is pull or else push. It is agnostic if its class leaves it so.
#[derive(Clone, Copy, Debug, PartialEq, Eq)]
pub struct Mark {
    pub pull: bool,
    pub agnostic: bool,
    pub at: u64,
}

/// The look of an element, whatever its place: index, flat name, class and the marks of its ports.
#[derive(Drop)]
pub struct Look {
    pub number: usize,
    pub name: Sequence<u8>,
    pub class: Class,
    pub inputs: Sequence<Mark>,
    pub outputs: Sequence<Mark>,
}

/// An element in its box.
#[derive(Drop)]
pub struct Figure {
    pub look: Look,
    pub frame: Rectangle,
}

/// The line of a connection, from its output over its bends to its input. `number` is the index of
/// the connection.
#[derive(Drop)]
pub struct Line {
    pub number: usize,
    pub from: Point,
    pub bends: Sequence<Point>,
    pub to: Point,
}

/// The frame of a compound, with its flat name.
#[derive(Drop)]
pub struct Frame {
    pub name: Sequence<u8>,
    pub around: Rectangle,
}

/// A drawing, with its size in pixels.
///
/// Elements are in flat order, connections in their order, and each compound before those within
/// it.
#[derive(Drop)]
pub struct Drawing {
    pub width: u64,
    pub height: u64,
    pub figures: Sequence<Figure>,
    pub lines: Sequence<Line>,
    pub frames: Sequence<Frame>,
}
