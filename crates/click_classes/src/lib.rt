//! The element classes: their arguments, first states, ports and effects (Click element reference).
#![tactic(auto)]

mod arguments;
mod classes;
mod fault;
mod hot_swap;
pub mod laws;
mod neighbours;
mod packet_effects;
mod packet_list;
mod patterns;
mod port_rules;
mod ports;
mod routes;
mod state;
pub mod value_laws;
mod values;

pub use classes::make;
pub use fault::ArgFault;
pub use neighbours::{NeighbourEntry, Neighbours, Querier};
pub use packet_effects::{PortRange, PullOutcome, Verdict, after};
pub use packet_list::PacketList;
pub use patterns::Patterns;
pub use port_rules::{code, counts, passes};
pub use ports::{Code, Counts, Side};
pub use routes::Routes;
pub use state::State;
pub use values::address::address;
pub use values::entry::Entry;
pub use values::ethernet::ethernet;
pub use values::pattern::{Clause, Pattern};
pub use values::prefix::Prefix;
pub use values::report::Report;
pub use values::station::Station;
pub use values::truth::truth;
