//! The push and pull engine, which moves packets from element to element (TOCS 2000, "Packet
//! transfer"). It works over a stack whose memory is reserved beforehand.
#![tactic(auto)]

mod adjacency;
mod circuit;
mod copies;
mod device_names;
mod devices;
mod element_names;
mod input_scan;
pub mod laws;
mod plant;
mod run_memory;
mod run_state;
mod runs;
mod slots;
mod tasks;
mod transfer_stack;
mod transfers;

pub use circuit::Circuit;
pub use plant::Plant;
pub use run_state::{ConnectionEnd, Element};
pub use transfer_stack::TransferStack;
