//! Installs of a desk: one end publishes them, and views show them without blocking.
//!
//! A [`Publisher`] adds installs to a log, and each [`View`] shows the last install that it knows
//! of. A [`Notice`] proves how many installs were published before it was made. A view that learns
//! it shows the last of them or a later one. An [`InstallSignal`] announces the newest install to
//! the views that listen to it, and carries no guarantee. When the desk is closed,
//! [`ClosedPublisher`] has the whole list, and what each view showed is a prefix of it.
#![tactic(auto)]

mod board;
mod closed;
mod install_signal;
pub mod laws;
mod log;
mod mark;
mod notice;
mod origin;
mod publisher;
mod view;

pub use closed::ClosedPublisher;
pub use install_signal::{InstallSignal, Latest};
pub use notice::Notice;
pub use origin::Origin;
pub use publisher::Publisher;
pub use view::View;
