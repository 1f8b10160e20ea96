//! The codes of ports, and ranges for their numbers.

/// The code of a class's port: how it moves packets.
#[derive(Clone, Copy, Debug, PartialEq, Eq)]
pub enum Code {
    Push,
    Pull,
    /// Push or pull, according to what the port is connected to.
    Agnostic,
}

/// A side of an element.
#[derive(Clone, Copy, Debug, PartialEq, Eq)]
pub enum Side {
    Input,
    Output,
}

/// The codes of a class: of its inputs, of output 0, and of the further outputs.
#[derive(Clone, Copy, Debug, PartialEq, Eq)]
pub struct Codes {
    pub inputs: Code,
    pub output: Code,
    pub further: Code,
}

/// The ranges for the numbers of inputs and outputs, and whether these must be equal.
///
/// A range is its least and its greatest number.
#[derive(Clone, Copy, Debug, PartialEq, Eq)]
pub struct Counts {
    pub inputs: (u16, u16),
    pub outputs: (u16, u16),
    pub equal: bool,
}
