//! Cuts texts at a byte.

ghost use Rattle.std.specs.Prelude.{◌≡◌};
ghost use Rattle.click_lines.specs.Reading.{before, after};

use memchr::memchr;

/// Returns the text before the first such byte, and the text after it. If there is none, returns
/// the whole text and an empty one.
pub fn cut(text: &[u8], byte: u8) -> (&[u8], &[u8])
    ensures { (result.0.now ≡ before byte text.now) × (result.1.now ≡ after byte text.now) }
{
    match memchr(byte, text) {
        None => (text, &[]),
        Some(place) => (&text[..place], &text[place + 1..]),
    }
}
