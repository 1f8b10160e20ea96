//! The faults of an element's arguments.

ghost use Rattle.std.specs.Prelude.{◌≡◌};
ghost use Rattle.click_classes.specs.FaultText.{kind_text};

use click_text::syntax::TextFault;
use std::alloc::AllocError;
use thiserror::Error;

/// A fault of an element's arguments. It is printed as its number and its name.
#[derive(Clone, Copy, Debug, PartialEq, Eq, Error)]
#[error("{}", self.text())]
pub enum ArgFault {
    /// Out of memory.
    NoMemory,
    /// The class does not take this number of arguments.
    ArgumentCount,
    /// The bytes spell no number, or no truth value.
    BadNumber,
    /// The name of a device has a wrong byte or a wrong length; or a quote is faulty.
    BadText,
    /// A number is outside the range that the class allows, or a list is too long.
    OutOfRange,
    /// The bytes spell no address, no prefix or no Ethernet address.
    BadAddress,
    /// The bytes spell no pattern, no rule or no entry of a table; or two entries have the same
    /// prefix; or rules have too many tests.
    BadEntry,
}

impl ArgFault {
    /// Returns the number and the name of the fault, as operators see them.
    pub fn text(self) -> &'static str
        ensures { result.now ≡ kind_text self }
    {
        match self {
            ArgFault::NoMemory => "7 NoMemory",
            ArgFault::ArgumentCount => "21 ArgumentCount",
            ArgFault::BadNumber => "22 BadNumber",
            ArgFault::BadText => "23 BadText",
            ArgFault::OutOfRange => "24 OutOfRange",
            ArgFault::BadAddress => "25 BadAddress",
            ArgFault::BadEntry => "26 BadEntry",
        }
    }
}

impl From<AllocError> for ArgFault {
    ghost use Rattle.std.specs.Prelude.{◌≡◌};
    ghost use Rattle.click_classes.specs.declared.fault.ArgFault.TheVariants.{NoMemory};

    ghost from_gives = { λ _ f. f ≡ NoMemory };

    fn from(_error: AllocError) -> ArgFault {
        ArgFault::NoMemory
    }
}

// The functions of click_text that this crate calls have one error only: out of memory.
impl From<TextFault> for ArgFault {
    ghost use Rattle.std.specs.Prelude.{◌≡◌};
    ghost use Rattle.click_classes.specs.declared.fault.ArgFault.TheVariants.{NoMemory};

    ghost from_gives = { λ _ f. f ≡ NoMemory };

    fn from(_fault: TextFault) -> ArgFault {
        ArgFault::NoMemory
    }
}
