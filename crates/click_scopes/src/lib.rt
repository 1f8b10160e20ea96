//! The scopes of a configuration: what each declares and connects, or the first misuse of a name,
//! class, parameter or port.
#![tactic(auto)]

mod analysis;
mod borrowed_names;
mod classes;
mod compound_arguments;
mod compound_faults;
mod fault;
mod first_fault;
mod name_faults;
mod ports;
mod scope_elements;
mod scopes;
mod written_connections;
mod written_scopes;

pub use analysis::{ScopeFault, analyze};
pub use classes::ResolvedClass;
pub use fault::WrongUse;
pub use first_fault::{TokenFault, first_token};
pub use scope_elements::ScopeElement;
pub use scopes::{Scope, Scopes};
pub use written_connections::{End, Owner, WrittenConnection};
