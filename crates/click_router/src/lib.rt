//! The router: a configuration is prepared and opened, and then answers one call after another.
#![tactic(auto)]

mod call;
mod check;
mod device_name;
mod fault;
mod globals;
mod handling;
mod install;
pub mod laws;
mod opening;
mod router;
mod running;
mod stored_reply;

pub use call::{Call, Refusal, Reply, StepFault};
pub use check::{Access, Check};
pub use device_name::DeviceName;
pub use fault::{ConfigFault, FaultKind, FaultPlace, Side};
pub use handling::Handlers;
pub use install::Install;
pub use opening::{Prepared, prepare};
pub use router::Router;
pub use running::{RunningConfig, prepare_swap};
pub use stored_reply::{CompactReply, StoredReply};
