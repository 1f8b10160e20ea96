//! The kinds of values that arguments spell.

pub mod address;
pub mod device;
pub mod entry;
pub mod ethernet;
pub mod groups;
pub mod number;
pub mod pattern;
pub mod prefix;
pub mod report;
pub mod station;
pub mod truth;
