//! The line of a call that a seat made, with its reply.

ghost use Rattle.std.specs.Prelude.{◌≡◌, IfOk};
ghost use Rattle.click_lines.specs.Lines.{entry_line, line_text};

use crate::call::call_line;
use crate::escaping::push_words;
use crate::reply::{push_number, reply_text};
use click_base::sequence::Sequence;
use click_router::{Call, Reply};
use std::alloc::{AllocError, Global};

/// The content of a line: a seat number, the call that the seat made, and the text of the reply.
#[derive(Drop)]
pub struct Line {
    pub seat: usize,
    pub call: Call,
    pub reply: Sequence<u8>,
}

/// Returns the line of a seat's call and a reply's text, without a line end.
fn text_of(alloc: Global, seat: usize, call: &Call, reply: &[u8]) -> Result<Vec<u8>, AllocError>
    ensures { IfOk result (λ text. text.items ≡ line_text (record { seat = seat; call = call.now; reply = reply.now })) }
{
    let mut text = Vec::new(alloc);
    push_number(&mut text, seat as u64)?;
    text.push(b'\t')?;
    text.extend_from_slice(&call_line(alloc, call)?)?;
    text.push(b'\t')?;
    push_words(&mut text, reply)?;
    Ok(text)
}

impl Line {
    /// Returns the line, without a line end. Except for two tabs and blanks it has visible ASCII
    /// only.
    pub fn text(&self, alloc: Global) -> Result<Vec<u8>, AllocError>
        ensures { IfOk result (λ text. text.items ≡ line_text self.now) }
    {
        text_of(alloc, self.seat, &self.call, self.reply.as_slice())
    }
}

/// Returns the line of a call that a seat made and of its reply, without a line end.
pub fn entry_line(
    alloc: Global,
    seat: usize,
    call: &Call,
    reply: &Reply,
) -> Result<Vec<u8>, AllocError>
    ensures { IfOk result (λ text. text.items ≡ entry_line seat call.now reply.now) }
{
    text_of(alloc, seat, call, &reply_text(alloc, reply)?)
}
