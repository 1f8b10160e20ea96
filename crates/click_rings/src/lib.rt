//! Feeds: bounded rings through which device drivers hand packets to a desk, without blocking.
#![tactic(auto)]

mod ends;
mod feed_consumers;
pub mod opening;

pub use ends::{Feed, FeedEnd, Inlet};
pub use feed_consumers::{FeedConsumer, available_in, draw_from, have_distinct_devices, place_of};
pub use opening::FeedFault;
