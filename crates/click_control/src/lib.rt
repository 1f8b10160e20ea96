//! Control sessions (Click::ControlSocket/1.3): bytes become commands, commands become calls, and
//! replies become bytes.
#![tactic(auto)]

mod command;
pub mod laws;
mod line;
pub mod line_laws;
mod parsed;
mod port;
mod reply;
mod reply_ref;
mod router_port;
mod serving;
mod session;
mod start;
mod turns;

pub use click_streams::{Reading, Sink, Source, Writing};
pub use command::{Answer, Command};
pub use port::{AskFault, Port};
pub use reply::reply_text;
pub use serving::{Ended, MAX_READS, ServeFault, serve, serve_turns};
pub use session::Session;
pub use turns::{Open, Turns};
