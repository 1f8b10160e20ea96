//! The faults of handlers and of handler tables.

ghost use Rattle.std.specs.Prelude.{◌≡◌};
ghost use Rattle.click_handlers.specs.Answers.{fault_text};

use thiserror::Error;

/// The reason why a handler refuses or fails. The element is unchanged.
#[derive(Clone, Copy, Debug, PartialEq, Eq, Error)]
pub enum HandlerFault {
    #[error("not a number")]
    BadNumber,
    #[error("out of range")]
    OutOfRange,
    #[error("not a truth value")]
    BadFlag,
    #[error("not an address")]
    BadAddress,
    #[error("out of memory")]
    NoMemory,
}

impl HandlerFault {
    /// Returns the text of the fault, as a reply has it.
    pub fn text(self) -> &'static [u8]
        ensures { result.now ≡ fault_text self }
    {
        match self {
            HandlerFault::BadNumber => b"not a number",
            HandlerFault::OutOfRange => b"out of range",
            HandlerFault::BadFlag => b"not a truth value",
            HandlerFault::BadAddress => b"not an address",
            HandlerFault::NoMemory => b"out of memory",
        }
    }
}

/// The reason why rows are not a table.
#[derive(Clone, Copy, Debug, PartialEq, Eq, Error)]
pub enum TableFault {
    /// The rows are not the handlers of the classes, in order and exactly once.
    #[error("the rows are not the handlers of the classes in their order")]
    WrongRows,
}
