//! Numbers in digits.

ghost use Rattle.std.specs.Prelude.{◌≡◌, ◌<◌, ◌≤◌, ◌+◌, ◌*◌, IfOk, IfSome};
ghost use Rattle.std.specs.List.{list_all};
ghost use Rattle.click_base.specs.Numbers.{digit, hex_digit, hex_digit_value, digit_value, is_run, spelled, at_most, decimal_in, hexadecimal_in, decimal_number};

/// A fault of a number in digits.
#[derive(Clone, Copy, Debug, PartialEq, Eq)]
pub enum NumberFault {
    /// The bytes spell no number.
    BadNumber,
    /// The number is outside the allowed range.
    OutOfRange,
}

/// Returns whether the byte is a decimal digit.
pub fn is_digit(byte: u8) -> bool
    ensures { result ≡ digit byte }
{
    byte.is_ascii_digit()
}

/// Returns whether the byte is a hexadecimal digit.
pub fn is_hex_digit(byte: u8) -> bool
    ensures { result ≡ hex_digit byte }
{
    byte.is_ascii_hexdigit()
}

/// Returns the value of a hexadecimal digit, or `None` for another byte.
pub fn hex_digit_value(byte: u8) -> Option<u8>
    ensures value { result ≡ hex_digit_value byte }
    ensures small { IfSome result (λ value. value < 16) }
{
    match byte {
        b'0'..=b'9' => Some(byte - b'0'),
        b'A'..=b'F' => Some(byte - b'A' + 10),
        b'a'..=b'f' => Some(byte - b'a' + 10),
        _ => None,
    }
}

/// Returns the value of a hexadecimal digit, or 0 for another byte.
pub fn digit_value(byte: u8) -> u8
    ensures value { result ≡ digit_value byte }
    ensures small { result < 16 }
{
    hex_digit_value(byte).unwrap_or(0)
}

/// Returns whether all bytes are decimal digits.
pub fn all_digits(bytes: &[u8]) -> bool
    ensures { result ≡ list_all digit bytes.now }
{
    bytes.iter().all(|byte| is_digit(*byte))
}

/// Returns whether all bytes are hexadecimal digits.
pub fn all_hex_digits(bytes: &[u8]) -> bool
    ensures { result ≡ list_all hex_digit bytes.now }
{
    bytes.iter().all(|byte| is_hex_digit(*byte))
}

/// Returns whether the bytes are one or more decimal digits.
pub fn are_decimal(bytes: &[u8]) -> bool
    ensures { result ≡ is_run digit bytes.now }
{
    !bytes.is_empty() && all_digits(bytes)
}

/// Returns whether the bytes are one or more hexadecimal digits.
pub fn are_hexadecimal(bytes: &[u8]) -> bool
    ensures { result ≡ is_run hex_digit bytes.now }
{
    !bytes.is_empty() && all_hex_digits(bytes)
}

/// Returns the number with one more digit, if that is at most `high`.
fn with_digit(number: u64, base: u64, digit: u64, high: u64) -> Option<u64>
    ensures { result ≡ at_most high (base * number + digit) }
{
    let more = base.checked_mul(number)?.checked_add(digit)?;
    (more <= high).then_some(more)
}

/// Returns the number that any number of digits spell, if it is at most `high`.
pub fn spelled(digits: &[u8], base: u64, high: u64) -> Option<u64>
    requires { 0 < base }
    ensures { result ≡ at_most high (spelled base 0 digits.now) }
{
    let mut number: u64 = 0;
    for digit in digits {
        // More digits cannot make the number smaller.
        let Some(more) = with_digit(number, base, u64::from(digit_value(*digit)), high) else {
            return None;
        };
        number = more;
    }
    Some(number)
}

/// Returns the number that decimal digits spell, if it is at most `high`.
#[tactic(auto, unfolding(crate::specs::Numbers::decimal_in))]
pub fn decimal_in(bytes: &[u8], high: u64) -> Option<u64>
    ensures value { result ≡ decimal_in high bytes.now }
    ensures bound { IfSome result (λ n. n ≤ high) }
{
    if are_decimal(bytes) {
        spelled(bytes, 10, high)
    } else {
        None
    }
}

/// Returns the number that hexadecimal digits spell, if it is at most `high`.
#[tactic(auto, unfolding(crate::specs::Numbers::hexadecimal_in))]
pub fn hexadecimal_in(bytes: &[u8], high: u64) -> Option<u64>
    ensures value { result ≡ hexadecimal_in high bytes.now }
    ensures bound { IfSome result (λ n. n ≤ high) }
{
    if are_hexadecimal(bytes) {
        spelled(bytes, 16, high)
    } else {
        None
    }
}

/// Returns the number that decimal digits spell, if it is from `low` to `high`.
///
/// Fails with `BadNumber` if the bytes are not decimal digits, or with `OutOfRange`.
#[tactic(auto, unfolding(crate::specs::Numbers::decimal_number))]
pub fn decimal_number(bytes: &[u8], low: u64, high: u64) -> Result<u64, NumberFault>
    ensures value { result ≡ decimal_number low high bytes.now }
    ensures bound { IfOk result (λ n. n ≤ high) }
{
    if !are_decimal(bytes) {
        return Err(NumberFault::BadNumber);
    }
    match spelled(bytes, 10, high) {
        Some(number) if low <= number => Ok(number),
        _ => Err(NumberFault::OutOfRange),
    }
}
