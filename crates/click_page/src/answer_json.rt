//! The answers to commands, as JSON.

ghost use Rattle.std.specs.Prelude.{◌≡◌, [], length, map, IfOk};
ghost use Rattle.serde_json.specs.View.{view};
ghost use Rattle.click_control.specs.ReplyText.{text_of};
ghost use Rattle.click_page.specs.Asking.{reading};
ghost use Rattle.click_page.specs.Form.{list_data};
ghost use Rattle.click_page.specs.Saying.{done_data, entries_of, entry_of, fault_data, fault_number, value_data};

use crate::values::{push, text_value};
use click_base::sequence::Sequence;
use click_control::{Answer, Command, reply_text};
use click_router::{Refusal, Reply};
use serde_json::{Value, json};
use std::alloc::{AllocError, Global};

/// Returns the JSON of a value that was read.
fn value_entry(alloc: Global, bytes: &[u8]) -> Result<Value, AllocError>
    ensures { IfOk result (λ value. view value ≡ value_data bytes.now) }
{
    json!(in alloc; {"value": text_value(alloc, bytes)?})
}

/// Returns the JSON that reports a successful write.
fn done_entry(alloc: Global) -> Result<Value, AllocError>
    ensures { IfOk result (λ value. view value ≡ done_data) }
{
    json!(in alloc; {"done": true})
}

/// Returns the JSON of a fault: its number and its text.
pub(crate) fn fault_entry(alloc: Global, number: u16, text: &[u8]) -> Result<Value, AllocError>
    ensures { IfOk result (λ value. view value ≡ fault_data number text.now) }
{
    json!(in alloc; {"fault": number, "text": text_value(alloc, text)?})
}

/// Returns the status number in a session's reply to a call that failed or was refused.
fn fault_number(answer: &Answer) -> u16
    ensures { result ≡ fault_number answer.now }
{
    match answer {
        Answer::Replied(Reply::Refused(Refusal::NoElement)) => 510,
        Answer::Replied(Reply::Refused(Refusal::NoHandler)) => 511,
        Answer::Replied(Reply::Refused(Refusal::WrongWay)) | Answer::NoCall => 530,
        _ => 520,
    }
}

/// Returns the JSON of a command that failed or was refused, with the lines of a session's reply.
fn refused_entry(alloc: Global, command: &Command, answer: &Answer) -> Result<Value, AllocError>
    ensures { IfOk result (λ value. view value ≡ fault_data (fault_number answer.now) (text_of command.now answer.now)) }
{
    let text = reply_text(alloc, command, answer)?;
    fault_entry(alloc, fault_number(answer), text.as_slice())
}

/// Returns the command that reads a handler.
fn read_command(alloc: Global, handler: &[u8]) -> Result<Command, AllocError>
    ensures { IfOk result (λ command. command ≡ reading handler.now) }
{
    Ok(Command::Read {
        handler: Sequence::copy_of(alloc, handler)?,
        text: Sequence::new(alloc),
    })
}

/// Returns a command that writes a handler. Its text is empty, because the reply does not depend on
/// it.
fn write_command(alloc: Global, handler: &[u8]) -> Result<Command, AllocError>
    ensures { IfOk result (λ command. command ≡ Command.Write handler.now []) }
{
    Ok(Command::Write {
        handler: Sequence::copy_of(alloc, handler)?,
        text: Sequence::new(alloc),
    })
}

/// Returns the JSON of the answer to a read of a handler.
pub(crate) fn read_entry(
    alloc: Global,
    handler: &[u8],
    answer: &Answer,
) -> Result<Value, AllocError>
    ensures { IfOk result (λ value. view value ≡ entry_of (reading handler.now) answer.now) }
{
    match answer {
        Answer::Replied(Reply::Value(bytes)) => value_entry(alloc, bytes.as_slice()),
        Answer::Replied(Reply::Done) => done_entry(alloc),
        _ => refused_entry(alloc, &read_command(alloc, handler)?, answer),
    }
}

/// Returns the JSON of the answer to a write of a handler.
pub(crate) fn write_entry(
    alloc: Global,
    handler: &[u8],
    answer: &Answer,
) -> Result<Value, AllocError>
    ensures { IfOk result (λ value. view value ≡ entry_of (Command.Write handler.now []) answer.now) }
{
    match answer {
        Answer::Replied(Reply::Value(bytes)) => value_entry(alloc, bytes.as_slice()),
        Answer::Replied(Reply::Done) => done_entry(alloc),
        _ => refused_entry(alloc, &write_command(alloc, handler)?, answer),
    }
}

/// Returns the JSON of the answers to reads of the handlers, in their order.
pub(crate) fn read_entries(
    alloc: Global,
    handlers: &[Sequence<u8>],
    answers: &[Answer],
) -> Result<Value, AllocError>
    requires all { length answers.now ≡ length handlers.now }
    ensures { IfOk result (λ value. view value ≡ list_data (entries_of (map reading handlers.now) answers.now)) }
{
    let mut values = Vec::new(alloc);
    for (at, handler) in handlers.iter().enumerate() {
        push(
            &mut values,
            read_entry(alloc, handler.as_slice(), &answers[at])?,
        )?;
    }
    Ok(Value::from(values))
}
