//! The rule language of IPFilter and IPClassifier: text becomes patterns.
#![tactic(auto)]

pub mod laws;
mod lexer;
mod names;
mod parser;
mod rules;
mod test_words;
mod token;
mod values;

pub use lexer::PatternError;
pub use parser::{MAX_OPEN, parse, parse_rule};
pub use rules::{FlatRule, RuleForm, Rules};
pub use token::{Join, Token, Value};
