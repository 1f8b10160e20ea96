//! Writing the reply to a command as text.

ghost use Rattle.std.specs.Prelude.{◌≡◌, ◌++◌, ℕ, List, IfOk, OnOk, codes};
ghost use Rattle.std.specs.List.{before_last};
ghost use Rattle.click_base.specs.Dotted.{is_dot};
ghost use Rattle.click_control.specs.ReplyText.{text_of, read_text, done_text, good_text, refused_text, failed_text, denied_text, quoting, data_text, error_text};
ghost use Rattle.click_control.specs.kept.ReplyRef.{shown_reply, refusal_of};
ghost use Rattle.click_control.specs.kept.Topics.{topic_text};

use crate::command::{Answer, Command};
use crate::port::AskFault;
use crate::reply_ref::{RefusalRef, ReplyRef, borrow_reply, borrow_stored_reply};
use click_base::split;
use click_router::{Access, StoredReply};
use itoa::Buffer;
use std::alloc::{AllocError, Global};

/// The initial capacity for a reply's lines, in bytes. Most replies fit.
const SHORT_REPLY_BYTES: usize = 128;

/// The maximum number of bytes of a successful read's lines, without the handler's name and the
/// value.
const VALUE_REPLY_BYTES: usize = 51;

/// What a reply needs to know of its command, except the handler's name.
#[derive(Drop)]
pub(crate) enum ReplyContext {
    /// A read.
    Read,
    /// A write, or a check of whether a handler can be read or written.
    Done(Access),
    /// A command that makes no call.
    Uncalled(Command),
}

/// Returns the lines that a session writes for a command and its answer. They are empty if the
/// command cannot have this answer.
pub fn reply_text(alloc: Global, command: &Command, answer: &Answer) -> Result<Vec<u8>, AllocError>
    ensures { IfOk result (λ text. text.items ≡ text_of command.now answer.now) }
{
    let mut text = Vec::with_capacity(alloc, SHORT_REPLY_BYTES)?;
    match answer {
        Answer::Replied(reply) => push_shown(&mut text, alloc, command, borrow_reply(reply))?,
        Answer::Failed(fault) => push_unreplied(&mut text, command, *fault)?,
        Answer::NoCall => push_uncalled(&mut text, command)?,
    }
    Ok(text)
}

/// Appends the lines for a command whose call got this reply.
#[inline(always)]
pub(crate) fn push_replied(
    text: &mut Vec<u8>,
    alloc: Global,
    topic: &ReplyContext,
    handler: &[u8],
    reply: &StoredReply,
) -> Result<(), AllocError>
    ensures { OnOk result (text.new.items ≡ text.old.items ++ topic_text topic.now handler.now (Answer.Replied reply.now)) }
{
    let reply_ref = borrow_stored_reply(reply);
    match topic {
        ReplyContext::Read => push_read(text, alloc, handler, reply_ref),
        ReplyContext::Done(direction) => push_done(text, alloc, *direction, handler, reply_ref),
        ReplyContext::Uncalled(command) => push_shown(text, alloc, command, reply_ref),
    }
}

/// Appends the lines for a command whose call failed.
pub(crate) fn push_failed_topic(
    text: &mut Vec<u8>,
    topic: &ReplyContext,
    fault: AskFault,
) -> Result<(), AllocError>
    ensures { (handler : List ℕ) → OnOk result (text.new.items ≡ text.old.items ++ topic_text topic.now handler (Answer.Failed fault)) }
{
    match topic {
        ReplyContext::Read | ReplyContext::Done(_) => push_failed(text, fault),
        ReplyContext::Uncalled(command) => push_unreplied(text, command, fault),
    }
}

/// Appends the lines for a command that made no call.
pub(crate) fn push_uncalled_topic(
    text: &mut Vec<u8>,
    topic: &ReplyContext,
    handler: &[u8],
) -> Result<(), AllocError>
    ensures { OnOk result (text.new.items ≡ text.old.items ++ topic_text topic.now handler.now Answer.NoCall) }
{
    match topic {
        ReplyContext::Read => Ok(()),
        ReplyContext::Done(direction) => push_denied(text, *direction, handler),
        ReplyContext::Uncalled(command) => push_uncalled(text, command),
    }
}

/// Appends the lines for a command whose reply shows `reply_ref`.
fn push_shown(
    text: &mut Vec<u8>,
    alloc: Global,
    command: &Command,
    reply_ref: ReplyRef,
) -> Result<(), AllocError>
    ensures { OnOk result (text.new.items ≡ text.old.items ++ text_of command.now (Answer.Replied (shown_reply reply_ref.entry))) }
{
    match command {
        Command::Read { handler, .. } => push_read(text, alloc, handler.as_slice(), reply_ref),
        Command::CheckRead { handler } => {
            push_done(text, alloc, Access::Read, handler.as_slice(), reply_ref)
        }
        Command::Write { handler, .. } | Command::CheckWrite { handler } => {
            push_done(text, alloc, Access::Write, handler.as_slice(), reply_ref)
        }
        Command::Quit
        | Command::Syntax
        | Command::LineTooLong
        | Command::DataTooLong
        | Command::Unknown { .. } => Ok(()),
    }
}

/// Appends the lines for a command whose call failed.
fn push_unreplied(text: &mut Vec<u8>, command: &Command, fault: AskFault) -> Result<(), AllocError>
    ensures { OnOk result (text.new.items ≡ text.old.items ++ text_of command.now (Answer.Failed fault)) }
{
    match command {
        Command::Read { .. }
        | Command::Write { .. }
        | Command::CheckRead { .. }
        | Command::CheckWrite { .. } => push_failed(text, fault),
        Command::Quit
        | Command::Syntax
        | Command::LineTooLong
        | Command::DataTooLong
        | Command::Unknown { .. } => Ok(()),
    }
}

/// Appends the lines for a command that made no call.
fn push_uncalled(text: &mut Vec<u8>, command: &Command) -> Result<(), AllocError>
    ensures { OnOk result (text.new.items ≡ text.old.items ++ text_of command.now Answer.NoCall) }
{
    match command {
        Command::Read { .. } | Command::CheckRead { .. } => Ok(()),
        Command::Write { handler, .. } | Command::CheckWrite { handler } => {
            push_denied(text, Access::Write, handler.as_slice())
        }
        Command::Quit => text.extend_from_slice(b"200 Goodbye!\r\n"),
        Command::Syntax => text.extend_from_slice(b"500 Syntax error\r\n"),
        Command::LineTooLong => text.extend_from_slice(b"500 Line too long\r\n"),
        Command::DataTooLong => text.extend_from_slice(b"500 Data too long\r\n"),
        Command::Unknown { word } => {
            push_quoting(text, b"501 Unimplemented command ", word.as_slice(), b"")
        }
    }
}

/// Appends the reply to a read of a handler.
fn push_read(
    text: &mut Vec<u8>,
    alloc: Global,
    handler: &[u8],
    reply_ref: ReplyRef,
) -> Result<(), AllocError>
    ensures { OnOk result (text.new.items ≡ text.old.items ++ read_text handler.now (Answer.Replied (shown_reply reply_ref.entry))) }
{
    match reply_ref {
        ReplyRef::Value(bytes) => push_value(text, handler, bytes),
        ReplyRef::Refused(why) => push_refused(text, alloc, Access::Read, handler, why),
        ReplyRef::Done | ReplyRef::Nothing => Ok(()),
    }
}

/// Appends the reply to a write, or to a check of whether a handler can be read or written.
fn push_done(
    text: &mut Vec<u8>,
    alloc: Global,
    direction: Access,
    handler: &[u8],
    reply_ref: ReplyRef,
) -> Result<(), AllocError>
    ensures { OnOk result (text.new.items ≡ text.old.items ++ done_text direction handler.now (Answer.Replied (shown_reply reply_ref.entry))) }
{
    match reply_ref {
        ReplyRef::Done => push_good(text, direction, handler),
        ReplyRef::Refused(why) => push_refused(text, alloc, direction, handler, why),
        ReplyRef::Value(_) | ReplyRef::Nothing => Ok(()),
    }
}

/// Appends the first line of a successful read, or the line of a successful write or check.
fn push_good(text: &mut Vec<u8>, direction: Access, handler: &[u8]) -> Result<(), AllocError>
    ensures { OnOk result (text.new.items ≡ text.old.items ++ good_text direction handler.now) }
{
    match direction {
        Access::Read => push_around(text, b"200 Read handler '", handler, b"' OK\r\n"),
        Access::Write => push_around(text, b"200 Write handler '", handler, b"' OK\r\n"),
    }
}

/// Appends the lines of a read that returned a value, and the value.
fn push_value(text: &mut Vec<u8>, handler: &[u8], bytes: &[u8]) -> Result<(), AllocError>
    ensures { OnOk result (text.new.items ≡ text.old.items ++ (quoting (codes "200 Read handler ") handler.now (codes " OK") ++ data_text bytes.now)) }
{
    let mut digits = Buffer::new();
    let digits = digits.format(bytes.len()).as_bytes();
    push_counted(text, handler, digits, bytes)
}

/// Appends the lines of a read and its value, whose length is given in decimal digits.
fn push_counted(
    text: &mut Vec<u8>,
    handler: &[u8],
    digits: &[u8],
    bytes: &[u8],
) -> Result<(), AllocError>
    ensures { OnOk result (text.new.items ≡ text.old.items ++ (codes "200 Read handler '" ++ (handler.now ++ (codes "' OK\r\nDATA " ++ (digits.now ++ (codes "\r\n" ++ bytes.now)))))) }
{
    let room = handler.len().saturating_add(bytes.len());
    text.reserve(room.saturating_add(VALUE_REPLY_BYTES))?;
    push_around(text, b"200 Read handler '", handler, b"' OK\r\nDATA ")?;
    push_around(text, digits, b"\r\n", bytes)
}

/// Appends the reason why a read or a write was refused.
fn push_refused(
    text: &mut Vec<u8>,
    alloc: Global,
    direction: Access,
    handler: &[u8],
    why: RefusalRef,
) -> Result<(), AllocError>
    ensures { OnOk result (text.new.items ≡ text.old.items ++ refused_text direction handler.now (refusal_of why.entry)) }
{
    match why {
        RefusalRef::NoElement => {
            push_quoting(text, b"510 No element named ", element_of(handler), b"")
        }
        RefusalRef::NoHandler => push_quoting(text, b"511 No handler named ", handler, b""),
        RefusalRef::WrongWay => push_wrong_way(text, direction, handler),
        RefusalRef::Handler(fault) => push_error(text, direction, handler, fault.text()),
        RefusalRef::Config(fault) => {
            let said = fault.text(alloc)?;
            push_error(text, direction, handler, &said)
        }
    }
}

/// Appends that a handler can be used in the opposite direction only.
fn push_wrong_way(text: &mut Vec<u8>, direction: Access, handler: &[u8]) -> Result<(), AllocError>
    ensures { OnOk result (text.new.items ≡ text.old.items ++ refused_text direction handler.now (refusal_of RefusalRef.WrongWay)) }
{
    match direction {
        Access::Read => push_quoting(text, b"530 Handler ", handler, b" write-only"),
        Access::Write => push_quoting(text, b"530 Handler ", handler, b" read-only"),
    }
}

/// Appends the reason why a call failed.
fn push_failed(text: &mut Vec<u8>, fault: AskFault) -> Result<(), AllocError>
    ensures { OnOk result (text.new.items ≡ text.old.items ++ failed_text fault) }
{
    match fault {
        AskFault::NoMemory => text.extend_from_slice(b"520 Out of memory\r\n"),
        AskFault::HistoryFull => text.extend_from_slice(b"520 History full\r\n"),
    }
}

/// Appends the denial of a command that a read-only session may not make. A read is never denied.
fn push_denied(text: &mut Vec<u8>, direction: Access, handler: &[u8]) -> Result<(), AllocError>
    ensures { OnOk result (text.new.items ≡ text.old.items ++ denied_text direction handler.now) }
{
    match direction {
        Access::Read => Ok(()),
        Access::Write => push_quoting(text, b"530 Permission denied for ", handler, b""),
    }
}

/// Appends the two lines of a fault that a handler or a configuration has.
fn push_error(
    text: &mut Vec<u8>,
    direction: Access,
    handler: &[u8],
    fault: &[u8],
) -> Result<(), AllocError>
    ensures { OnOk result (text.new.items ≡ text.old.items ++ error_text direction handler.now fault.now) }
{
    match direction {
        Access::Read => push_quoting(text, b"520-Read handler ", handler, b" error:")?,
        Access::Write => push_quoting(text, b"520-Write handler ", handler, b" error:")?,
    }
    text.extend_from_slice(b"520 ")?;
    text.extend_from_slice(fault)?;
    text.extend_from_slice(b"\r\n")
}

/// Appends a name, with text in front of it and after it.
fn push_around(text: &mut Vec<u8>, front: &[u8], name: &[u8], back: &[u8]) -> Result<(), AllocError>
    ensures { OnOk result (text.new.items ≡ text.old.items ++ (front.now ++ (name.now ++ back.now))) }
{
    text.extend_from_slice(front)?;
    text.extend_from_slice(name)?;
    text.extend_from_slice(back)
}

/// Appends a line with a name in quotes.
fn push_quoting(
    text: &mut Vec<u8>,
    front: &[u8],
    name: &[u8],
    back: &[u8],
) -> Result<(), AllocError>
    ensures { OnOk result (text.new.items ≡ text.old.items ++ quoting front.now name.now back.now) }
{
    text.extend_from_slice(front)?;
    text.push(b'\'')?;
    text.extend_from_slice(name)?;
    text.push(b'\'')?;
    text.extend_from_slice(back)?;
    text.extend_from_slice(b"\r\n")
}

/// Returns the element of a handler's name: the part before its last dot.
fn element_of(handler: &[u8]) -> &[u8]
    ensures { result.now ≡ before_last is_dot handler.now }
{
    match split(handler) {
        Some((element, _)) => element,
        None => &handler[..0],
    }
}
