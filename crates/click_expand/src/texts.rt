//! Texts with their parameters replaced, and the elements that have them.

pub mod elements;
pub mod flat_elements;
pub mod parameter_values;
pub mod parameters;
pub mod text_buffer;
pub mod writing;
