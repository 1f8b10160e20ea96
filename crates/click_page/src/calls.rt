//! Making the calls of a request.

ghost use Rattle.std.specs.Prelude.{◌≡◌, ◌≤◌, ℕ, List, [], Bool, Some, length, map, vec_capacity, IfOk, IfSome, false};
ghost use Rattle.click_router.specs.Polls.{is_poll};
ghost use Rattle.click_control.specs.Serving.{Answered, Asked, call_of};
ghost use Rattle.click_control.specs.declared.command.Command.{Command};
ghost use Rattle.click_page.specs.Asking.{commands_of, reading};
ghost use Rattle.click_page.specs.kept.Calls.{AreNoPolls, read_call, write_call};

use crate::page_request::PageRequest;
use click_base::sequence::Sequence;
use click_control::{Answer, Port};
use click_router::Call;
use std::alloc::{AllocError, Global};

/// Returns the calls of a request's commands, in order. A read-only page has no call that would
/// write.
///
/// Allocates all the memory that these calls need.
pub(crate) fn calls_of(
    alloc: Global,
    page_request: &PageRequest,
    readonly: bool,
) -> Result<Vec<Option<Call>>, AllocError>
    ensures calls { IfOk result (λ calls. calls.items ≡ map (call_of readonly) (commands_of page_request.now)) }
    ensures no_polls { IfOk result (λ calls. AreNoPolls calls.items) }
{
    match page_request {
        PageRequest::Page | PageRequest::Refused(_) => Ok(Vec::new(alloc)),
        PageRequest::Picture | PageRequest::Flat => {
            Ok(Vec::from_array(alloc, [read_call(alloc, b"config")?])?)
        }
        PageRequest::Metrics => {
            let calls = [read_call(alloc, b"config")?, read_call(alloc, b"overruns")?];
            Ok(Vec::from_array(alloc, calls)?)
        }
        PageRequest::Read { handlers } => read_calls(alloc, handlers.as_slice()),
        PageRequest::Write { handler, text } => {
            let call = write_call(alloc, handler.as_slice(), text.as_slice(), readonly)?;
            Ok(Vec::from_array(alloc, [call])?)
        }
    }
}

/// Returns the calls that read these handlers.
pub(crate) fn read_calls(
    alloc: Global,
    handlers: &[Sequence<u8>],
) -> Result<Vec<Option<Call>>, AllocError>
    ensures { IfOk result (λ calls. calls.items ≡ map read_call handlers.now) }
{
    let mut calls = Vec::with_capacity(alloc, handlers.len())?;
    for handler in handlers {
        calls.push_reserved(read_call(alloc, handler.as_slice())?);
    }
    Ok(calls)
}

/// Returns the call that reads a handler, with an empty text.
fn read_call(alloc: Global, handler: &[u8]) -> Result<Option<Call>, AllocError>
    ensures { IfOk result (λ call. call ≡ read_call handler.now) }
{
    let name = Sequence::copy_of(alloc, handler)?;
    let text = Sequence::new(alloc);
    Ok(Some(Call::Read { name, text }))
}

/// Returns the call that writes a handler, or `None` on a read-only page.
fn write_call(
    alloc: Global,
    handler: &[u8],
    text: &[u8],
    readonly: bool,
) -> Result<Option<Call>, AllocError>
    ensures { IfOk result (λ call. call ≡ write_call readonly handler.now text.now) }
{
    if readonly {
        return Ok(None);
    }
    let name = Sequence::copy_of(alloc, handler)?;
    let text = Sequence::copy_of(alloc, text)?;
    Ok(Some(Call::Write { name, text }))
}

/// Makes each call once, in order, and returns the answers.
///
/// The list of answers has room for all of them, so that it needs no more memory.
pub(crate) fn ask_all<P: Port>(
    alloc: Global,
    port: &mut P,
    calls: Vec<Option<Call>>,
    mut answers: Vec<Answer>,
) -> Vec<Answer>
    requires no_polls { AreNoPolls calls.items }
    requires none_yet { answers.items ≡ [] }
    requires room { length calls.items ≤ vec_capacity answers }
    ensures { (readonly : Bool) (commands : List Command) → calls.items ≡ map (call_of readonly) commands
        → Asked P.asks readonly port.old commands result.items port.new }
{
    for call in calls {
        answers.push_reserved(ask_one(alloc, port, call));
    }
    answers
}

/// Makes the call, if there is one, and returns the answer.
fn ask_one<P: Port>(alloc: Global, port: &mut P, call: Option<Call>) -> Answer
    requires { IfSome call (λ c. is_poll c ≡ false) }
    ensures { Answered P.asks port.old call result port.new }
{
    match call {
        None => Answer::NoCall,
        Some(call) => match port.ask(alloc, call) {
            Ok(reply) => Answer::Replied(reply),
            Err(fault) => Answer::Failed(fault),
        },
    }
}
