//! A desk: one router that many threads share, with one history.
#![tactic(auto)]

mod book;
mod boxed_table;
mod close;
mod desk;
mod desk_setup;
mod entry;
pub mod laws;
mod logged_router;
mod open;
mod options;
mod pass_knowledge;
mod polling;
mod rule;
mod seat;
mod trail;
mod watch;

pub use book::{Book, SettleFault, SettleRefused};
pub use boxed_table::BoxedTable;
pub use close::{CloseFault, CloseRefused};
pub use desk::Desk;
pub use entry::Entry;
pub use logged_router::DeskFault;
pub use open::{OpenFault, OpenRefused};
pub use seat::Seat;
pub use trail::{GhostList, Trail};
pub use watch::{Notice, View};
