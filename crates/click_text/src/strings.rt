//! Configuration strings: their quotes and comments, and where one ends.

ghost use Rattle.std.specs.Prelude.{◌≡◌, ◌<◌, ◌≤◌, ◌+◌, ◌^◌, ℕ, length, take, IfSome, IfNone, true, false};
ghost use Rattle.click_text.specs.Strings.{mode_after, plain_after, is_outside, closes_outermost, depth_after, closes};

/// The part of a configuration string that the next byte belongs to.
#[derive(Clone, Copy, Debug, PartialEq, Eq)]
pub enum Mode {
    /// Neither a quote nor a comment.
    Plain,
    /// After a `/` that may begin a comment.
    Slash,
    /// After a `\` that may begin `\<..>`.
    Backslash,
    /// In a quote `".."`.
    Double,
    /// In a quote `".."`, after a `\`.
    Escape,
    /// In a quote `'..'`.
    Single,
    /// In a quote `\<..>`.
    Angle,
    /// In a comment that ends with the next LF.
    Line,
    /// In a comment that ends with the next `*/`.
    Block,
    /// In a comment that ends with the next `*/`, after a `*`.
    Star,
}

impl Mode {
    /// Returns the mode after a byte that is outside quotes and comments.
    fn after_plain(byte: u8) -> Mode
        ensures { result ≡ plain_after byte }
    {
        match byte {
            b'"' => Mode::Double,
            b'\'' => Mode::Single,
            b'/' => Mode::Slash,
            b'\\' => Mode::Backslash,
            _ => Mode::Plain,
        }
    }

    /// Returns the mode after a byte.
    pub fn after(self, byte: u8) -> Mode
        ensures { result ≡ mode_after self byte }
    {
        match self {
            Mode::Plain => Mode::after_plain(byte),
            Mode::Slash if byte == b'/' => Mode::Line,
            Mode::Slash if byte == b'*' => Mode::Block,
            Mode::Slash => Mode::after_plain(byte),
            Mode::Backslash if byte == b'<' => Mode::Angle,
            Mode::Backslash => Mode::after_plain(byte),
            Mode::Double if byte == b'"' => Mode::Plain,
            Mode::Double if byte == b'\\' => Mode::Escape,
            Mode::Double => Mode::Double,
            Mode::Escape => Mode::Double,
            Mode::Single if byte == b'\'' => Mode::Plain,
            Mode::Single => Mode::Single,
            Mode::Angle if byte == b'>' => Mode::Plain,
            Mode::Angle => Mode::Angle,
            Mode::Line if byte == b'\n' => Mode::Plain,
            Mode::Line => Mode::Line,
            Mode::Block if byte == b'*' => Mode::Star,
            Mode::Block => Mode::Block,
            Mode::Star if byte == b'/' => Mode::Plain,
            Mode::Star if byte == b'*' => Mode::Star,
            Mode::Star => Mode::Block,
        }
    }

    /// Returns whether the next byte is outside quotes and comments, unless it begins one.
    pub fn is_outside(self) -> bool
        ensures { result ≡ is_outside self }
    {
        match self {
            Mode::Plain | Mode::Slash | Mode::Backslash => true,
            _ => false,
        }
    }

    /// Returns whether the byte closes the only open parenthesis.
    fn closes_outermost(self, depth: usize, byte: u8) -> bool
        ensures { result ≡ closes_outermost self depth byte }
    {
        self.is_outside() && byte == b')' && depth == 1
    }

    /// Returns the number of open parentheses after a byte.
    fn depth_after(self, depth: usize, byte: u8) -> usize
        requires { depth + 1 < 2 ^ 64 }
        ensures { result ≡ depth_after self depth byte }
    {
        if !self.is_outside() {
            return depth;
        }
        match byte {
            b'(' => depth + 1,
            b')' => depth.saturating_sub(1),
            _ => depth,
        }
    }
}

/// Returns the number of bytes, after an opening parenthesis, up to and including the parenthesis
/// that closes it. Returns `None` if it is not closed.
pub fn string_len(text: &[u8]) -> Option<usize>
    ensures within { IfSome result (λ len. len ≤ length text.now) }
    ensures closed { IfSome result (λ len. closes Mode.Plain 1 (take len text.now) ≡ true) }
    ensures unclosed { IfNone result ((n : ℕ) → n ≤ length text.now → closes Mode.Plain 1 (take n text.now) ≡ false) }
{
    let mut mode = Mode::Plain;
    let mut depth = 1;
    for (i, byte) in text.iter().enumerate() {
        if mode.closes_outermost(depth, *byte) {
            return Some(i + 1);
        }
        depth = mode.depth_after(depth, *byte);
        mode = mode.after(*byte);
    }
    None
}
