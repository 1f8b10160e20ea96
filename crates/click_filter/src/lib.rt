//! Tests of IP packets, the trees that `and`, `or` and `not` make of them, and lists of rules. A
//! list becomes a program that a packet walks without recursion and without allocation.
#![tactic(auto)]

mod building;
pub mod laws;
mod list;
mod parts;
mod pattern;
mod program;
mod rule;
mod step;
mod test;

pub use building::{MAX_TESTS, ProgramError};
pub use list::program_of;
pub use pattern::{Node, Pattern};
pub use program::Program;
pub use rule::{Action, Rule};
pub use test::{Direction, Field, Flag, Relation, Test, Transport};
