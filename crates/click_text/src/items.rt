//! The items of a configuration string: white space, comments, quotes and other bytes.

ghost use Rattle.std.specs.Prelude.{◌≡◌, ◌<◌, ◌≤◌, ◌+◌, ◌^◌, ℕ, length, take, IfSome, IfNone, true, false};
ghost use Rattle.click_text.specs.Items.{is_plain, ends_quote, LongestItem, blank_kind, parentheses_after};
ghost use Rattle.click_text.specs.kept.LongItems.{NoLongItem};

use crate::lexer::{comment, is_white};
use crate::strings::Mode;

/// The kind of an item.
#[derive(Clone, Copy, Debug, PartialEq, Eq)]
pub enum ItemKind {
    /// A byte of white space.
    White,
    /// A comment, up to the next LF or up to the next `*/`.
    Comment,
    /// A quote `".."`.
    Double,
    /// A quote `'..'`.
    Single,
    /// A quote `\<..>`.
    Hexadecimal,
    /// Any other byte.
    Byte(u8),
}

impl ItemKind {
    /// Returns whether the item is white space or a comment.
    pub fn is_blank(self) -> bool
        ensures { result ≡ blank_kind self }
    {
        match self {
            ItemKind::White | ItemKind::Comment => true,
            _ => false,
        }
    }

    /// Returns the number of open parentheses after the item.
    ///
    /// `depth` is the number before it. A closing parenthesis without an open one is ignored.
    pub fn depth_after(self, depth: usize) -> usize
        requires { depth + 1 < 2 ^ 64 }
        ensures { result ≡ parentheses_after self depth }
    {
        match self {
            ItemKind::Byte(b'(') => depth + 1,
            ItemKind::Byte(b')') => depth.saturating_sub(1),
            _ => depth,
        }
    }
}

/// Returns whether neither a quote nor a comment is open.
fn is_plain(mode: Mode) -> bool
    ensures { result ≡ is_plain mode }
{
    match mode {
        Mode::Plain => true,
        _ => false,
    }
}

/// Returns the number of bytes up to and including the first that ends the quote, if one does.
fn quote_len(quote: Mode, text: &[u8]) -> Option<usize>
    ensures within { IfSome result (λ len. len ≤ length text.now) }
    ensures ends { IfSome result (λ len. ends_quote quote (take len text.now) ≡ true) }
    ensures never { IfNone result ((n : ℕ) → n ≤ length text.now → ends_quote quote (take n text.now) ≡ false) }
{
    let mut mode = quote;
    for (i, byte) in text.iter().enumerate() {
        mode = mode.after(*byte);
        if is_plain(mode) {
            return Some(i + 1);
        }
    }
    None
}

/// Returns the kind and the length of the comment or quote that begins a text, if one does.
fn long_item(text: &[u8]) -> Option<(ItemKind, usize)>
    requires { 0 < length text.now }
    ensures some { IfSome result (λ found. LongestItem text.now found.0 found.1) }
    ensures none { IfNone result (NoLongItem text.now) }
    ensures progress { IfSome result (λ found. 0 < found.1) }
{
    match text[0] {
        b'/' => {
            let (_, len) = comment(text)?;
            Some((ItemKind::Comment, len))
        }
        b'"' => {
            let len = quote_len(Mode::Double, &text[1..])?;
            Some((ItemKind::Double, 1 + len))
        }
        b'\'' => {
            let len = quote_len(Mode::Single, &text[1..])?;
            Some((ItemKind::Single, 1 + len))
        }
        b'\\' if text.len() > 1 && text[1] == b'<' => {
            let len = quote_len(Mode::Angle, &text[2..])?;
            Some((ItemKind::Hexadecimal, 2 + len))
        }
        _ => None,
    }
}

/// Returns the kind and the length of the longest item that begins a text.
pub fn first_item(text: &[u8]) -> (ItemKind, usize)
    requires { 0 < length text.now }
    ensures longest { LongestItem text.now result.0 result.1 }
    ensures progress { 0 < result.1 }
{
    if is_white(text[0]) {
        return (ItemKind::White, 1);
    }
    match long_item(text) {
        Some(found) => found,
        None => (ItemKind::Byte(text[0]), 1),
    }
}
