//! Numbers in decimal digits, as values of options.

ghost use Rattle.std.specs.Prelude.{◌≡◌, MatchOption};
ghost use Rattle.std.specs.Char.{is_ascii_digit};
ghost use Rattle.std.specs.List.{list_all};
ghost use Rattle.click_prog.specs.Numbers.{IsNoNumber, IsNumber};

/// Parses a number from `least` to `most` in decimal digits only.
pub fn number_in(text: &str, least: u64, most: u64) -> Option<u64>
    ensures { MatchOption result (IsNoNumber least most text.now) (IsNumber least most text.now) }
{
    if !are_digits(text.as_bytes()) {
        return None;
    }
    match text.parse::<u64>() {
        Ok(number) if least <= number && number <= most => Some(number),
        _ => None,
    }
}

/// Returns whether the bytes are all decimal digits.
fn are_digits(bytes: &[u8]) -> bool
    ensures { result ≡ list_all is_ascii_digit bytes.now }
{
    bytes.iter().all(|byte| byte.is_ascii_digit())
}
