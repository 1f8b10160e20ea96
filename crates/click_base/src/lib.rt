//! What all other crates build on: the element classes by name, lists, blanks, dotted names, and
//! numbers in digits.
#![tactic(auto)]

mod blanks;
mod class;
mod dotted;
pub mod laws;
mod names;
mod numbers;
pub mod sequence;

pub use blanks::{is_blank, trimmed, without_front};
pub use class::{CLASSES, Class, GATEWAY_CLASSES, class_of, gateway_class_of};
pub use dotted::split;
pub use names::Names;
pub use numbers::{
    NumberFault, all_digits, all_hex_digits, are_decimal, are_hexadecimal, decimal_in,
    decimal_number, digit_value, hex_digit_value, hexadecimal_in, is_digit, is_hex_digit, spelled,
};
