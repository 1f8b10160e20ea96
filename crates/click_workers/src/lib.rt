//! Sessions, drivers, links and additional work as threads that share one desk.
#![tactic(auto)]

mod checking;
mod clients;
mod companion;
mod connection;
mod door;
mod driver;
mod gate;
pub mod laws;
mod linked;
mod listening;
mod observed_port;
mod observer;
mod open_slots;
mod opening;
mod run_seats;
mod runs;
mod seat_group;
mod seat_port;
mod service;
mod session;
mod work;

pub use clients::Clients;
pub use companion::{Companion, NoCompanion};
pub use connection::Connection;
pub use door::Door;
pub use gate::{Gate, OpenGate};
pub use linked::{LinkEnd, LinkSetup, LinkedRan, run_linked, run_linked_with_companion};
pub use listening::Listening;
pub use observed_port::ObservedPort;
pub use observer::{CallKind, CallSummary, MAX_NAME_BYTES, NoObserver, Observer, SessionRecord};
pub use opening::Opening;
pub use runs::{
    AllRan, CompanionRan, MAX_ENTRIES, Ran, RunFault, run, run_live, run_with_companion,
    run_workers,
};
pub use seat_group::SeatGroup;
pub use seat_port::SeatPort;
pub use session::{SessionEnd, serve_seat};
