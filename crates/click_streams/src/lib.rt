//! Sources and sinks of bytes. Unlike readers and writers of std, they record for contracts whether
//! a call has failed.
#![tactic(auto)]

mod device;
mod peer;
mod writes;

pub use device::{InputDevice, OutputDevice, Reading, Writing};
pub use peer::{Failed, Sink, Source};
pub use writes::write_all;
