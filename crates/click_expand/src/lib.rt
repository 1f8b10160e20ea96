//! The flat form of a configuration: its compounds, parameters and synonyms expanded.
#![tactic(auto)]

mod connections;
mod fault;
mod final_checks;
mod flat;
mod flat_writing;
mod flattening;
mod instances;
pub mod laws;
mod texts;

pub use fault::{ExpandFault, FaultKind};
pub use flat::{Connection, Flat, FlatElement};
pub use flat_writing::{flat_text, uses_gateway};
pub use flattening::flatten;
