//! An HTTP server for a page: many connections on one thread.
#![tactic(auto)]

mod accept_state;
mod chunk_watch;
mod http_listener;
mod peer;
mod phase;
mod serving;
mod settings;
mod sockets;
mod step;
mod timer;
mod watched_stream;

pub use http_listener::{HttpListener, open_http_listener};
pub use serving::{Ended, serve_until};
pub use settings::MAX_CONNECTIONS;
