//! The options and words of a command line, and the statuses that a program ends with.
#![tactic(auto)]

mod options;
mod refusal;
mod status;
mod words;

pub use options::{CommandOption, OptionName, TEXT, Takes, parse};
pub use refusal::{refuse_arguments, refuse_configuration};
pub use status::Status;
pub use words::words_of;
