//! The first fault of a configuration, and its line of text.

ghost use Rattle.std.specs.Prelude.{◌≡◌, ◌++◌, IfOk, OnOk, decimal};
ghost use Rattle.click_router.specs.FaultText.{kind_text, place_text, ports_text, port_text, fault_text};

use click_base::sequence::Sequence;
use click_classes::ArgFault;
pub use click_classes::Side;
use click_expand::FaultKind as ExpandKind;
use click_ports::FaultKind as PortKind;
use click_text::syntax::FaultKind as TextKind;
use itoa::Buffer;
use std::alloc::{AllocError, Global};
use std::fmt;
use thiserror::Error;

/// The kind of a fault: out of memory, or the fault of a layer. It prints as its number and name.
#[derive(Clone, Copy, Debug, PartialEq, Eq)]
pub enum FaultKind {
    /// Some layer ran out of memory.
    NoMemory,
    /// The text is not a configuration.
    Text(TextKind),
    /// The configuration has no flat form.
    Expansion(ExpandKind),
    /// An element refuses its arguments.
    Argument(ArgFault),
    /// A port rule is broken.
    Port(PortKind),
}

/// The position of a fault.
#[derive(Debug, Drop)]
pub enum FaultPlace {
    Nowhere,
    /// A position in the text. Lines and columns are counted from 1, columns in bytes.
    At {
        line: usize,
        column: usize,
    },
    /// The element with this name.
    Element {
        name: Sequence<u8>,
    },
    /// A side of an element, with the number of ports that are used there.
    Used {
        name: Sequence<u8>,
        side: Side,
        used: u16,
    },
    /// A port of an element.
    Port {
        name: Sequence<u8>,
        side: Side,
        port: u16,
    },
}

/// The first fault of a configuration: its kind and its position.
#[derive(Debug, Drop, Error)]
#[error("{kind}{place}")]
pub struct ConfigFault {
    pub kind: FaultKind,
    pub place: FaultPlace,
}

impl FaultKind {
    /// Returns the number and the name of the kind.
    pub fn text(self) -> &'static str
        ensures { result.now ≡ kind_text self }
    {
        match self {
            FaultKind::NoMemory => TextKind::NoMemory.text(),
            FaultKind::Text(kind) => kind.text(),
            FaultKind::Expansion(kind) => kind.text(),
            FaultKind::Argument(fault) => fault.text(),
            FaultKind::Port(kind) => kind.text(),
        }
    }
}

impl fmt::Display for FaultKind {
    fn fmt<W: fmt::Write>(&self, f: &mut fmt::Formatter<W>) -> fmt::Result {
        f.write_str(self.text())
    }
}

/// Returns the word for the ports of a side, between blanks.
fn ports_of(side: Side) -> &'static str
    ensures { result.now ≡ ports_text side }
{
    match side {
        Side::Input => " inputs ",
        Side::Output => " outputs ",
    }
}

/// Returns the word for one port of a side, between blanks.
fn port_of(side: Side) -> &'static str
    ensures { result.now ≡ port_text side }
{
    match side {
        Side::Input => " input ",
        Side::Output => " output ",
    }
}

/// Appends a number in decimal digits.
fn push_number(line: &mut Vec<u8>, number: usize) -> Result<(), AllocError>
    ensures { OnOk result (line.new.items ≡ line.old.items ++ decimal number) }
{
    let mut buffer = Buffer::new();
    line.extend_from_slice(buffer.format(number).as_bytes())?;
    Ok(())
}

impl FaultPlace {
    /// Appends the words for the position.
    fn push_to(&self, line: &mut Vec<u8>) -> Result<(), AllocError>
        ensures { OnOk result (line.new.items ≡ line.old.items ++ place_text self.now) }
    {
        match self {
            FaultPlace::Nowhere => {}
            FaultPlace::At { line: row, column } => {
                line.extend_from_slice(b" at ")?;
                push_number(line, *row)?;
                line.extend_from_slice(b":")?;
                push_number(line, *column)?;
            }
            FaultPlace::Element { name } => {
                line.extend_from_slice(b" in ")?;
                line.extend_from_slice(name.as_slice())?;
            }
            FaultPlace::Used { name, side, used } => {
                line.extend_from_slice(b" at ")?;
                line.extend_from_slice(name.as_slice())?;
                line.extend_from_slice(ports_of(*side).as_bytes())?;
                push_number(line, usize::from(*used))?;
            }
            FaultPlace::Port { name, side, port } => {
                line.extend_from_slice(b" at ")?;
                line.extend_from_slice(name.as_slice())?;
                line.extend_from_slice(port_of(*side).as_bytes())?;
                push_number(line, usize::from(*port))?;
            }
        }
        Ok(())
    }

    /// Returns an equal position.
    fn copy(&self, alloc: Global) -> Result<FaultPlace, AllocError>
        ensures { IfOk result (λ copy. copy ≡ self.now) }
    {
        Ok(match self {
            FaultPlace::Nowhere => FaultPlace::Nowhere,
            FaultPlace::At { line, column } => FaultPlace::At {
                line: *line,
                column: *column,
            },
            FaultPlace::Element { name } => FaultPlace::Element {
                name: name.copy(alloc)?,
            },
            FaultPlace::Used { name, side, used } => FaultPlace::Used {
                name: name.copy(alloc)?,
                side: *side,
                used: *used,
            },
            FaultPlace::Port { name, side, port } => FaultPlace::Port {
                name: name.copy(alloc)?,
                side: *side,
                port: *port,
            },
        })
    }
}

/// Returns a name as text. Names are ASCII; one that is not UTF-8 would be `?`.
fn name_text(name: &Sequence<u8>) -> &str {
    std::str::from_utf8(name.as_slice()).unwrap_or("?")
}

impl fmt::Display for FaultPlace {
    fn fmt<W: fmt::Write>(&self, f: &mut fmt::Formatter<W>) -> fmt::Result {
        match self {
            FaultPlace::Nowhere => Ok(()),
            FaultPlace::At { line, column } => write!(f, " at {line}:{column}"),
            FaultPlace::Element { name } => write!(f, " in {}", name_text(name)),
            FaultPlace::Used { name, side, used } => {
                write!(f, " at {}{}{used}", name_text(name), ports_of(*side))
            }
            FaultPlace::Port { name, side, port } => {
                write!(f, " at {}{}{port}", name_text(name), port_of(*side))
            }
        }
    }
}

impl ConfigFault {
    /// Returns the fault as a line without its end, such as `31 Count at Counter@1 inputs 0`.
    ///
    /// The line has the number, the name and the position of the fault.
    pub fn text(&self, alloc: Global) -> Result<Vec<u8>, AllocError>
        ensures { IfOk result (λ text. text.items ≡ fault_text self.now) }
    {
        let mut line = Vec::from_slice(alloc, self.kind.text().as_bytes())?;
        self.place.push_to(&mut line)?;
        Ok(line)
    }

    /// Returns an equal fault.
    pub fn copy(&self, alloc: Global) -> Result<ConfigFault, AllocError>
        ensures { IfOk result (λ copy. copy ≡ self.now) }
    {
        Ok(ConfigFault {
            kind: self.kind,
            place: self.place.copy(alloc)?,
        })
    }
}
