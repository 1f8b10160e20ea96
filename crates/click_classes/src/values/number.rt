//! Numbers: decimal digits, or `0x` and hexadecimal digits (Click element reference, "unsigned
//! integer").

ghost use Rattle.std.specs.Prelude.{◌≡◌, ◌≤◌, IfOk, IfSome};
ghost use Rattle.click_classes.specs.Values.{number_in, number_or_minus_one};

use crate::fault::ArgFault;
use click_base::{are_decimal, are_hexadecimal, spelled};

/// Returns the number that the bytes spell, if it is from `low` to `high`.
///
/// Fails with `BadNumber` if they spell no number, or with `OutOfRange`.
#[tactic(auto, unfolding(crate::specs::Values::number_in))]
pub fn number_in(bytes: &[u8], low: u64, high: u64) -> Result<u64, ArgFault>
    ensures value { result ≡ number_in low high bytes.now }
    ensures bound { IfOk result (λ n. n ≤ high) }
{
    let number = if are_decimal(bytes) {
        spelled(bytes, 10, high)
    } else if bytes.len() > 2
        && bytes[0] == b'0'
        && bytes[1] == b'x'
        && are_hexadecimal(&bytes[2..])
    {
        spelled(&bytes[2..], 16, high)
    } else {
        return Err(ArgFault::BadNumber);
    };
    match number {
        Some(number) if low <= number => Ok(number),
        _ => Err(ArgFault::OutOfRange),
    }
}

/// Returns the number that the bytes spell, from 0 to `high`, or `None` for `-1`.
#[tactic(auto, unfolding(crate::specs::Values::number_or_minus_one))]
pub fn number_or_minus_one(bytes: &[u8], high: u64) -> Result<Option<u64>, ArgFault>
    ensures value { result ≡ number_or_minus_one high bytes.now }
    ensures bound { IfOk result (λ number. IfSome number (λ n. n ≤ high)) }
{
    if bytes == b"-1".as_slice() {
        return Ok(None);
    }
    Ok(Some(number_in(bytes, 0, high)?))
}
