//! The connections between flat elements.

pub mod connection_index;
pub mod order;
pub mod passthrough;
pub mod wiring;
