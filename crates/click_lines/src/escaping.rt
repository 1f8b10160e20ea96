//! Bytes as words of a line, escaped where necessary.

ghost use Rattle.std.specs.Prelude.{◌≡◌, ◌++◌, ◌∷◌, ◌<◌, ℕ, List, ◌≤◌, length, IfOk, IfSome, OnOk, MatchOption};
ghost use Rattle.click_lines.specs.Spelling.{is_plain, escaped_byte, escaped, words};
ghost use Rattle.click_lines.specs.Reading.{ReadsBytes};

use click_base::sequence::Sequence;
use std::alloc::{AllocError, Global};

/// The least byte that is not escaped: `MIN_WORD_BYTE` in a word, `MIN_TEXT_BYTE` in words with blanks.
pub const MIN_WORD_BYTE: u8 = b'!';

const MIN_TEXT_BYTE: u8 = b' ';

/// Returns whether the byte is not escaped.
fn is_plain(least: u8, byte: u8) -> bool
    ensures { result ≡ is_plain least byte }
{
    least <= byte && byte <= b'~' && byte != b'\\'
}

/// Appends a byte, escaped if necessary.
fn push_byte(line: &mut Vec<u8>, least: u8, byte: u8) -> Result<(), AllocError>
    ensures { OnOk result (line.new.items ≡ line.old.items ++ escaped_byte least byte) }
{
    if is_plain(least, byte) {
        line.push(byte)?;
        return Ok(());
    }
    let mut digits = [0; 2];
    match hex::encode_to_slice([byte].as_slice(), &mut digits) {
        Ok(()) => {
            line.push(b'\\')?;
            line.extend_from_slice(&digits)
        }
        Err(_) => unreachable!(),
    }
}

/// Appends bytes, escaped where necessary.
pub fn push_escaped(line: &mut Vec<u8>, least: u8, bytes: &[u8]) -> Result<(), AllocError>
    ensures { OnOk result (line.new.items ≡ line.old.items ++ escaped least bytes.now) }
{
    for byte in bytes {
        push_byte(line, least, *byte)?;
    }
    Ok(())
}

/// Appends bytes as words, in which blanks are not escaped.
pub fn push_words(line: &mut Vec<u8>, bytes: &[u8]) -> Result<(), AllocError>
    ensures { OnOk result (line.new.items ≡ line.old.items ++ words bytes.now) }
{
    push_escaped(line, MIN_TEXT_BYTE, bytes)
}

/// Returns the bytes of an escaped text. Returns `None` if a backslash is not followed by two hex
/// digits.
pub fn unescaped(alloc: Global, text: &[u8]) -> Result<Option<Sequence<u8>>, AllocError>
    ensures { IfOk result (ReadsBytes text.now) }
{
    let mut bytes = Vec::new(alloc);
    let mut rest = text;
    while let Some((first, behind)) = rest.split_first() {
        let Some((byte, further)) = first_byte(*first, behind) else {
            return Ok(None);
        };
        bytes.push(byte)?;
        rest = further;
    }
    Ok(Some(Sequence::of(bytes)))
}

/// Returns the first byte of an escaped text, and the rest of the text. `first` and `behind` are
/// the text's first byte and the others.
fn first_byte(first: u8, behind: &[u8]) -> Option<(u8, &[u8])>
    ensures byte { (least b : ℕ) (bytes : List ℕ) → b < 256 → escaped least (b ∷ bytes) ≡ first ∷ behind.now
        → MatchOption result ⊥ (λ r. (r.0 ≡ b) × (r.1.now ≡ escaped least bytes)) }
    ensures shorter { IfSome result (λ r. length r.1.now ≤ length behind.now) }
{
    if first != b'\\' {
        return Some((first, behind));
    }
    let mut byte = [0; 1];
    if behind.len() < 2 || hex::decode_to_slice(&behind[..2], &mut byte).is_err() {
        return None;
    }
    Some((byte[0], &behind[2..]))
}
