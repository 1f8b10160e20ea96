//! A call as a line.

ghost use Rattle.std.specs.Prelude.{◌≡◌, ◌++◌, ◌∷◌, [], IfOk};
ghost use Rattle.click_lines.specs.Spelling.{word, joined};
ghost use Rattle.click_lines.specs.Lines.{call_line};

use crate::escaping::{MIN_WORD_BYTE, push_escaped};
use crate::packet::{packet_word, packets_word};
use click_router::Call;
use std::alloc::{AllocError, Global};

/// Returns the words of a call with blanks between them.
pub fn call_line(alloc: Global, call: &Call) -> Result<Vec<u8>, AllocError>
    ensures { IfOk result (λ line. line.items ≡ call_line call.now) }
{
    match call {
        Call::Read { name, text } => two_words(alloc, b"read", name.as_slice(), text.as_slice()),
        Call::Write { name, text } => two_words(alloc, b"write", name.as_slice(), text.as_slice()),
        Call::CheckRead { name } => one_word(alloc, b"checkread", name.as_slice()),
        Call::CheckWrite { name } => one_word(alloc, b"checkwrite", name.as_slice()),
        Call::Swap { text } => one_word(alloc, b"swap", text.as_slice()),
        Call::Arrive { device, packet } => {
            let mut line = one_word(alloc, b"arrive", device.as_slice())?;
            line.push(b' ')?;
            line.extend_from_slice(&packet_word(alloc, packet)?)?;
            Ok(line)
        }
        Call::Poll { device, taken } => {
            let mut line = one_word(alloc, b"poll", device.as_slice())?;
            line.push(b' ')?;
            line.extend_from_slice(&packets_word(alloc, taken.as_slice())?)?;
            Ok(line)
        }
        Call::Round => Vec::from_slice(alloc, b"round"),
        Call::Transmit { device } => one_word(alloc, b"transmit", device.as_slice()),
    }
}

/// Returns a call with one escaped word.
fn one_word(alloc: Global, call: &[u8], bytes: &[u8]) -> Result<Vec<u8>, AllocError>
    ensures { IfOk result (λ line. line.items ≡ joined 32 (call.now ∷ word bytes.now ∷ [])) }
{
    let mut line = Vec::from_slice(alloc, call)?;
    line.push(b' ')?;
    push_escaped(&mut line, MIN_WORD_BYTE, bytes)?;
    Ok(line)
}

/// Returns a call with two escaped words.
fn two_words(alloc: Global, call: &[u8], name: &[u8], text: &[u8]) -> Result<Vec<u8>, AllocError>
    ensures { IfOk result (λ line. line.items ≡ joined 32 (call.now ∷ word name.now ∷ word text.now ∷ [])) }
{
    let mut line = one_word(alloc, call, name)?;
    line.push(b' ')?;
    push_escaped(&mut line, MIN_WORD_BYTE, text)?;
    Ok(line)
}
