//! Serving a whole session.

ghost use Rattle.std.specs.Prelude.{◌≡◌, ◌++◌, ◌+◌, ◌-◌, ◌≤◌, ◌<◌, ◌^◌, ℕ, List, [], false, length, IfNone, IfSome, IfOk, OnOk};
ghost use Rattle.click_router.specs.Polls.{is_poll};
ghost use Rattle.click_control.specs.Serving.{Serves, ServesTurns, Answered, call_of};
ghost use Rattle.click_control.specs.Taking.{Pending, GivesOne, to_come};
ghost use Rattle.click_streams.specs.Peers.{Input, Output};
ghost use Rattle.click_control.specs.kept.Going.{SoFar, Goes, Written, TakesIn, ending_of};
ghost use Rattle.click_control.specs.kept.Topics.{topic_text};
ghost use Rattle.click_control.specs.ReplyText.{text_of, greeting};
ghost use Rattle.click_control.specs.declared.command.Answer.{Answer};

use crate::command::Command;
use crate::port::Port;
use crate::reply::{ReplyContext, push_failed_topic, push_replied, push_uncalled_topic};
use crate::session::Session;
use crate::turns::{Open, Turns};
use click_router::{Access, Call};
use click_streams::{Failed, Sink, Source, write_all};
use std::alloc::{AllocError, Global};
use thiserror::Error;

/// The memory that a session reuses from command to command.
#[derive(Drop)]
struct ReplyBuffers {
    alloc: Global,
    /// The handler of the last command that has one.
    handler: Vec<u8>,
    /// The lines of the last reply.
    lines: Vec<u8>,
}

/// The way in which a session ended.
#[derive(Clone, Copy, Debug, PartialEq, Eq)]
pub enum Ended {
    /// By `QUIT`.
    Quit,
    /// At the end of its input.
    EndOfInput,
    /// By a line or a payload that is too long.
    TooLong,
    /// At a closed gate: the turn of a command was refused.
    GateClosed,
}

/// The fault with which a session stops early.
#[derive(Clone, Copy, Debug, PartialEq, Eq, Error)]
pub enum ServeFault {
    /// A read failed, or the session made its maximum number of reads.
    #[error("a read failed")]
    ReadFailed,
    #[error("a write failed")]
    WriteFailed,
    #[error("out of memory")]
    NoMemory,
}

/// The maximum number of reads of a session, if its caller sets no other.
pub const MAX_READS: u32 = 4_294_967_295;

/// The maximum number of bytes of one read.
const READ_CHUNK_BYTES: usize = 4096;

/// The maximum capacity, in bytes, that is kept from one reply's lines to the next.
const MAX_KEPT_BYTES: usize = 65_536;

/// Serves a session: writes the greeting, then the reply to each command.
///
/// Each command is answered as soon as its bytes are complete, before the next read. The bytes may
/// come in pieces of any size. A read-only session makes no call for `WRITE`, `WRITEDATA` and
/// `CHECKWRITE`, and denies them. The session never ends at a closed gate.
pub fn serve<R: Source, W: Sink, P: Port>(
    alloc: Global,
    reader: &mut R,
    writer: &mut W,
    port: &mut P,
    readonly: bool,
) -> Result<Ended, ServeFault>
    ensures { Serves P.asks readonly port.old port.new (R.input reader.old) (R.input reader.new) (W.output writer.old) (W.output writer.new) result }
{
    serve_turns(alloc, reader, writer, port, readonly, &mut Open, MAX_READS)
}

/// Does what `serve` does, with turns, and with at most `reads` reads.
///
/// Before each command its turn is asked for, and once its reply is written this is reported to the
/// turns. If a turn is refused, the session ends, and the command makes no call.
pub fn serve_turns<R: Source, W: Sink, P: Port, T: Turns>(
    alloc: Global,
    reader: &mut R,
    writer: &mut W,
    port: &mut P,
    readonly: bool,
    turns: &mut T,
    reads: u32,
) -> Result<Ended, ServeFault>
    ensures { ServesTurns P.asks T.turn T.done readonly reads port.old port.new turns.old turns.new (R.input reader.old) (R.input reader.new)
        (W.output writer.old) (W.output writer.new) result }
{
    greet(writer)?;
    let mut session = Session::new(alloc);
    let mut buffers = ReplyBuffers {
        alloc,
        handler: Vec::new(alloc),
        lines: Vec::new(alloc),
    };
    let mut piece = [0; READ_CHUNK_BYTES];
    let mut taken = 0;
    for _reads in 0..reads {
        if !feed_piece(reader, &mut piece, &mut session)? {
            return Ok(Ended::EndOfInput);
        }
        if let Some(ended) = answer_commands(
            &mut buffers,
            writer,
            port,
            readonly,
            turns,
            &mut taken,
            &mut session,
        )? {
            return Ok(ended);
        }
    }
    Err(ServeFault::ReadFailed)
}

/// Writes the greeting.
fn greet<W: Sink>(writer: &mut W) -> Result<(), ServeFault>
    ensures { Written result (W.output writer.old) (W.output writer.new) greeting }
{
    match write_all(writer, b"Click::ControlSocket/1.3\r\n") {
        Ok(()) => Ok(()),
        Err(Failed) => Err(ServeFault::WriteFailed),
    }
}

/// Feeds the next bytes of the input to the session. Returns `false` at the end of the input.
fn feed_piece<R: Source>(
    reader: &mut R,
    piece: &mut [u8],
    session: &mut Session,
) -> Result<bool, ServeFault>
    requires { 0 < length piece.old }
    ensures takes { TakesIn (R.input reader.old) (R.input reader.new) session.old session.new result }
    ensures room { length piece.new ≡ length piece.old }
    ensures bound { length session.new.bytes ≤ length session.old.bytes + length piece.old }
{
    match reader.read(piece) {
        Err(Failed) => Err(ServeFault::ReadFailed),
        Ok(0) => Ok(false),
        Ok(n) => match session.feed(&piece[..n]) {
            Ok(()) => Ok(true),
            Err(_) => Err(ServeFault::NoMemory),
        },
    }
}

/// Answers each command that is whole. Returns how the session ends if one of them ends it.
///
/// `taken` is the number of commands taken up before. It grows by one with each command after which
/// the session goes on.
#[inline(always)]
fn answer_commands<W: Sink, P: Port, T: Turns>(
    buffers: &mut ReplyBuffers,
    writer: &mut W,
    port: &mut P,
    readonly: bool,
    turns: &mut T,
    taken: &mut u64,
    session: &mut Session,
) -> Result<Option<Ended>, ServeFault>
    requires { taken.old + length session.old.bytes < 2 ^ 64 }
    ensures goes { (most : ℕ) (first : P) (was : T) (had left : Input) (held : Output) (reads : ℕ)
        → SoFar P.asks T.turn T.done readonly most first port.old was turns.old had left held (W.output writer.old) session.old taken.old reads
        → Goes P.asks T.turn T.done readonly most first port.new was turns.new had left held (W.output writer.new) session.new taken.new reads result }
    ensures all_taken { IfOk result (λ ended. IfNone ended (to_come session.new [] ≡ [])) }
    // Each command has at least one byte.
    ensures bound { taken.new + length session.new.bytes ≤ taken.old + length session.old.bytes }
{
    loop {
        match session.next(buffers.alloc) {
            Err(_) => return Err(ServeFault::NoMemory),
            Ok(None) => return Ok(None),
            Ok(Some(command)) => {
                match take_up(buffers, writer, port, readonly, turns, *taken, command) {
                    Ok(None) => *taken += 1,
                    Ok(Some(ended)) => return Ok(Some(ended)),
                    Err(fault) => return Err(fault),
                }
            }
        }
    }
}

/// Answers one command if its turn is given. `taken` commands were taken up before it.
///
/// Returns how the session ends, if the command ends it or its turn is refused.
#[inline(always)]
fn take_up<W: Sink, P: Port, T: Turns>(
    buffers: &mut ReplyBuffers,
    writer: &mut W,
    port: &mut P,
    readonly: bool,
    turns: &mut T,
    taken: u64,
    command: Command,
) -> Result<Option<Ended>, ServeFault>
    requires { taken < 2 ^ 64 - 1 }
    ensures { (most : ℕ) (first : P) (was : T) (had left : Input) (held : Output) (old new : Pending) (reads : ℕ)
        → SoFar P.asks T.turn T.done readonly most first port.old was turns.old had left held (W.output writer.old) old taken reads
        → GivesOne old new command
        → Goes P.asks T.turn T.done readonly most first port.new was turns.new had left held (W.output writer.new) new (taken + 1) reads result }
{
    let nth = taken + 1;
    let ending = ending_of(&command);
    // The memory for the call is allocated before its turn is asked for, so that no turn is given
    // if the allocation fails.
    let Ok((call, topic)) = call_of(&mut buffers.handler, readonly, command) else {
        return Err(ServeFault::NoMemory);
    };
    if !turns.before(nth) {
        return Ok(Some(Ended::GateClosed));
    }
    ask_and_reply(buffers, writer, port, &topic, call)?;
    turns.after(nth);
    Ok(ending)
}

/// Returns the call of a command, if it makes one, and what its reply needs to know of it.
///
/// The command's handler and text move into the call. A copy of the handler's name is stored in
/// `kept`.
#[inline(always)]
fn call_of(
    kept: &mut Vec<u8>,
    readonly: bool,
    command: Command,
) -> Result<(Option<Call>, ReplyContext), AllocError>
    ensures call { IfOk result (λ parts. parts.0 ≡ call_of readonly command) }
    ensures no_poll { IfOk result (λ parts. IfSome parts.0 (λ c. is_poll c ≡ false)) }
    ensures replies { IfOk result (λ parts. (answer : Answer) → topic_text parts.1 kept.new.items answer ≡ text_of command answer) }
{
    match command {
        Command::Write { .. } | Command::CheckWrite { .. } if readonly => {
            Ok((None, ReplyContext::Uncalled(command)))
        }
        Command::Read { handler, text } => {
            keep(kept, handler.as_slice())?;
            let name = handler;
            Ok((Some(Call::Read { name, text }), ReplyContext::Read))
        }
        Command::Write { handler, text } => {
            keep(kept, handler.as_slice())?;
            let name = handler;
            Ok((
                Some(Call::Write { name, text }),
                ReplyContext::Done(Access::Write),
            ))
        }
        Command::CheckRead { handler } => {
            keep(kept, handler.as_slice())?;
            let name = handler;
            Ok((
                Some(Call::CheckRead { name }),
                ReplyContext::Done(Access::Read),
            ))
        }
        Command::CheckWrite { handler } => {
            keep(kept, handler.as_slice())?;
            let name = handler;
            Ok((
                Some(Call::CheckWrite { name }),
                ReplyContext::Done(Access::Write),
            ))
        }
        Command::Quit
        | Command::Syntax
        | Command::LineTooLong
        | Command::DataTooLong
        | Command::Unknown { .. } => Ok((None, ReplyContext::Uncalled(command))),
    }
}

/// Replaces the stored bytes by these.
fn keep(kept: &mut Vec<u8>, bytes: &[u8]) -> Result<(), AllocError>
    ensures { OnOk result (kept.new.items ≡ bytes.now) }
{
    kept.clear();
    kept.extend_from_slice(bytes)
}

/// Makes the call, if there is one, and writes the command's reply in full.
#[inline(always)]
fn ask_and_reply<W: Sink, P: Port>(
    buffers: &mut ReplyBuffers,
    writer: &mut W,
    port: &mut P,
    topic: &ReplyContext,
    call: Option<Call>,
) -> Result<(), ServeFault>
    requires { IfSome call (λ c. is_poll c ≡ false) }
    ensures { (answer : Answer) × Answered P.asks port.old call answer port.new
        × Written result (W.output writer.old) (W.output writer.new) (topic_text topic.now buffers.old.handler.items answer) }
{
    let lines = &mut buffers.lines;
    let handler = buffers.handler.as_slice();
    lines.clear();
    match call {
        None => {
            let added = push_uncalled_topic(lines, topic, handler);
            reply(writer, lines, added)
        }
        Some(call) => {
            let recorded = port.ask_stored(buffers.alloc, call);
            match &recorded {
                Ok(answer) => {
                    let added = push_replied(lines, buffers.alloc, topic, handler, answer);
                    reply(writer, lines, added)
                }
                Err(fault) => {
                    let added = push_failed_topic(lines, topic, *fault);
                    reply(writer, lines, added)
                }
            }
        }
    }
}

/// Writes the lines of a reply in full, if there was memory to make them. Frees the buffer if it
/// has become large.
fn reply<W: Sink>(
    writer: &mut W,
    lines: &mut Vec<u8>,
    added: Result<(), AllocError>,
) -> Result<(), ServeFault>
    ensures { (text : List ℕ) → OnOk added (lines.old.items ≡ text) → Written result (W.output writer.old) (W.output writer.new) text }
{
    let Ok(()) = added else {
        return Err(ServeFault::NoMemory);
    };
    let written = write_all(writer, lines);
    if lines.capacity() > MAX_KEPT_BYTES {
        lines.clear();
        lines.shrink_to_fit();
    }
    match written {
        Ok(()) => Ok(()),
        Err(Failed) => Err(ServeFault::WriteFailed),
    }
}

/// Returns how a command ends a session, or `None` if it does not.
fn ending_of(command: &Command) -> Option<Ended>
    ensures { result ≡ ending_of command.now }
{
    match command {
        Command::Quit => Some(Ended::Quit),
        Command::LineTooLong | Command::DataTooLong => Some(Ended::TooLong),
        Command::Read { .. }
        | Command::Write { .. }
        | Command::CheckRead { .. }
        | Command::CheckWrite { .. }
        | Command::Syntax
        | Command::Unknown { .. } => None,
    }
}
