//! Groups of digits with a separator between two of them.

ghost use Rattle.std.specs.Prelude.{◌≡◌, ◌==◌, ◌<◌, length, position, Some, None, IfSome, MatchBool};
ghost use Rattle.click_classes.specs.Values.{group, separated};

use click_base::{decimal_in, hexadecimal_in};

/// The kind of a group.
#[derive(Clone, Copy)]
pub enum Group {
    /// One to three decimal digits that spell at most 255.
    Octet,
    /// One or two hexadecimal digits.
    Pair,
}

impl Group {
    /// Returns the byte that the digits spell, if they are a group of this kind.
    #[tactic(auto, unfolding(crate::specs::Values::group))]
    pub fn read(self, bytes: &[u8]) -> Option<u8>
        ensures { result ≡ group self bytes.now }
    {
        let number = match self {
            Group::Octet if bytes.len() <= 3 => decimal_in(bytes, 255)?,
            Group::Pair if bytes.len() <= 2 => hexadecimal_in(bytes, 255)?,
            _ => return None,
        };
        Some(number as u8)
    }
}

/// Returns the index of the first byte that equals `byte`.
pub fn place(bytes: &[u8], byte: u8) -> Option<usize>
    ensures value { result ≡ position (λ b. b == byte) bytes.now }
    ensures within { IfSome result (λ at. (at < length bytes.now) × (at < usize.MAX)) }
{
    bytes.iter().position(|b| *b == byte)
}

/// Reads as many groups as `values` has items, with a separator between two of them.
///
/// Returns false if the bytes are not such groups.
pub fn read_separated(bytes: &[u8], separator: u8, kind: Group, values: &mut [u8]) -> bool
    requires { 0 < length values.old }
    ensures { MatchBool result
        (separated kind separator (length values.old) bytes.now ≡ Some values.new)
        (separated kind separator (length values.old) bytes.now ≡ None) }
{
    let mut rest = bytes;
    let last = values.len() - 1;
    for i in 0..last {
        let Some(at) = place(rest, separator) else {
            return false;
        };
        let Some(value) = kind.read(&rest[..at]) else {
            return false;
        };
        values[i] = value;
        rest = &rest[at + 1..];
    }
    let Some(value) = kind.read(rest) else {
        return false;
    };
    values[last] = value;
    true
}
