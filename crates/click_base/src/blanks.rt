//! Blanks at the ends of a text: spaces and tabs.

ghost use Rattle.std.specs.Prelude.{◌≡◌};
ghost use Rattle.click_base.specs.Blanks.{is_blank, without_front, trimmed};

/// Returns whether the byte is a blank: a space or a tab.
pub fn is_blank(byte: u8) -> bool
    ensures { result ≡ is_blank byte }
{
    byte == b' ' || byte == b'\t'
}

/// Returns the bytes without the blanks at their front.
pub fn without_front(bytes: &[u8]) -> &[u8]
    ensures { result.now ≡ without_front bytes.now }
{
    for (i, byte) in bytes.iter().enumerate() {
        if !is_blank(*byte) {
            return &bytes[i..];
        }
    }
    &bytes[bytes.len()..]
}

/// Returns the bytes without the blanks at their front and back.
pub fn trimmed(bytes: &[u8]) -> &[u8]
    ensures { result.now ≡ trimmed bytes.now }
{
    let front = without_front(bytes);
    let mut len = front.len();
    while len > 0 && is_blank(front[len - 1]) {
        len -= 1;
    }
    &front[..len]
}
