//! The faults of the ports of a configuration.

ghost use Rattle.std.specs.Prelude.{◌≡◌};
ghost use Rattle.click_ports.specs.FaultText.{kind_text};

use click_classes::Side;
use std::alloc::AllocError;
use std::fmt;
use thiserror::Error;

/// The kind of a fault. It is printed as its number and its name.
#[derive(Clone, Copy, Debug, PartialEq, Eq, Error)]
#[error("{}", self.text())]
pub enum FaultKind {
    /// Out of memory.
    NoMemory,
    /// The element has more or fewer ports than its state allows.
    Count,
    /// The port is not connected, but a higher one is.
    Unused,
    /// A push output or a pull input has more than one connection.
    Twice,
    /// The port reaches a push port and a pull port.
    Mixed,
}

/// The first breach of the rules of ports, and its position; or out of memory, at element 0.
///
/// It is printed as its kind, with its position: `31 Count at element 3, inputs 0` or
/// `32 Unused at element 3, input 1`. Out of memory is printed without a position.
#[derive(Clone, Copy, Debug, PartialEq, Eq, Error)]
#[error("{kind}{place}", place = self.place())]
pub struct PortFault {
    pub kind: FaultKind,
    /// The index of the element in flat order, from 0.
    pub element: usize,
    pub side: Side,
    /// The number of the port, from 0; for a count, the number of used ports.
    pub number: u16,
}

impl FaultKind {
    /// Returns the number and the name of the kind, as operators see them.
    pub fn text(self) -> &'static str
        ensures { result.now ≡ kind_text self }
    {
        match self {
            FaultKind::NoMemory => "7 NoMemory",
            FaultKind::Count => "31 Count",
            FaultKind::Unused => "32 Unused",
            FaultKind::Twice => "33 Twice",
            FaultKind::Mixed => "34 Mixed",
        }
    }
}

impl PortFault {
    /// Returns the position of the fault, for printing.
    fn place(&self) -> Place {
        Place(*self)
    }
}

/// The printed position of a fault; nothing for out of memory.
#[derive(Clone, Copy)]
struct Place(PortFault);

impl fmt::Display for Place {
    fn fmt<W: fmt::Write>(&self, f: &mut fmt::Formatter<W>) -> fmt::Result {
        let PortFault {
            kind,
            element,
            side,
            number,
        } = self.0;
        let what = match (kind, side) {
            (FaultKind::NoMemory, _) => return Ok(()),
            (FaultKind::Count, Side::Input) => "inputs",
            (FaultKind::Count, Side::Output) => "outputs",
            (_, Side::Input) => "input",
            (_, Side::Output) => "output",
        };
        write!(f, " at element {element}, {what} {number}")
    }
}

impl From<AllocError> for PortFault {
    ghost use Rattle.std.specs.Prelude.{◌≡◌};
    ghost use Rattle.click_ports.specs.Breaches.{no_memory};

    ghost from_gives = { λ _ f. f ≡ no_memory };

    fn from(_error: AllocError) -> PortFault {
        PortFault {
            kind: FaultKind::NoMemory,
            element: 0,
            side: Side::Input,
            number: 0,
        }
    }
}
