//! The rules of ports: which nets are lawful, which ports are push and which are pull, and the
//! first breach (Click manual, "Ports"; TOCS 2000).
#![tactic(auto)]

mod breaches;
mod counted;
mod ends;
mod fault;
mod internal_links;
mod kinds;
pub mod laws;
mod layout;
mod name_table;
mod net;
mod numbering;
mod port;
mod resolution;
mod row;
mod search;
mod shape;
mod sizes;

pub use fault::{FaultKind, PortFault};
pub use net::Net;
pub use port::Port;
pub use resolution::resolve;
pub use shape::Shape;
