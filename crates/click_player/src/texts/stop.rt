//! The reasons why a pure step has no result.

use crate::script::Trouble;
use click_classes::ArgFault;
use click_expand::{ExpandFault, FaultKind as ExpandKind};
use click_ports::{FaultKind as PortKind, PortFault};
use click_router::{ConfigFault, FaultKind as ConfigKind};
use click_text::syntax::{FaultKind as TextKind, TextFault};
use std::alloc::{AllocError, AllocFailed};
use thiserror::Error;

/// The reason that stops a pure step. Its text is the step's reply, unless the script itself is
/// wrong.
#[derive(Debug, Drop, Error)]
pub enum Stop {
    /// The call, or the player itself, ran out of memory.
    #[error("out of memory")]
    NoMemory,
    /// The words do not fit the step.
    #[error("malformed")]
    Malformed,
    /// The text is not a configuration.
    #[error(transparent)]
    Text(TextFault),
    /// The configuration has no flat form.
    #[error(transparent)]
    Expansion(ExpandFault),
    /// The arguments are refused.
    #[error(transparent)]
    Argument(ArgFault),
    /// A port rule is not satisfied.
    #[error(transparent)]
    Port(PortFault),
    /// The configuration cannot be prepared.
    #[error(transparent)]
    Config(ConfigFault),
}

impl From<AllocError> for Stop {
    fn from(_error: AllocError) -> Stop {
        Stop::NoMemory
    }
}

impl<T: Drop> From<AllocFailed<T>> for Stop {
    fn from(_failed: AllocFailed<T>) -> Stop {
        Stop::NoMemory
    }
}

impl From<Trouble> for Stop {
    fn from(trouble: Trouble) -> Stop {
        match trouble {
            Trouble::NoMemory => Stop::NoMemory,
            Trouble::Malformed => Stop::Malformed,
        }
    }
}

impl From<TextFault> for Stop {
    fn from(fault: TextFault) -> Stop {
        match fault.kind {
            TextKind::NoMemory => Stop::NoMemory,
            _ => Stop::Text(fault),
        }
    }
}

impl From<ExpandFault> for Stop {
    fn from(fault: ExpandFault) -> Stop {
        match fault.kind {
            ExpandKind::NoMemory => Stop::NoMemory,
            _ => Stop::Expansion(fault),
        }
    }
}

impl From<ArgFault> for Stop {
    fn from(fault: ArgFault) -> Stop {
        match fault {
            ArgFault::NoMemory => Stop::NoMemory,
            _ => Stop::Argument(fault),
        }
    }
}

impl From<PortFault> for Stop {
    fn from(fault: PortFault) -> Stop {
        match fault.kind {
            PortKind::NoMemory => Stop::NoMemory,
            _ => Stop::Port(fault),
        }
    }
}

impl From<ConfigFault> for Stop {
    fn from(fault: ConfigFault) -> Stop {
        match fault.kind {
            ConfigKind::NoMemory => Stop::NoMemory,
            _ => Stop::Config(fault),
        }
    }
}
