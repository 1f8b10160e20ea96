//! The instances of scopes, their sizes, and the flat names of their elements.

pub mod flat_names;
pub mod sizes;
pub mod tree;
