//! Replaying the lines of a book: making its calls again and comparing the replies.

ghost use Rattle.std.specs.Prelude.{◌≡◌, IfOk};
ghost use Rattle.std.specs.Io.KnownBytes.{Appends};
ghost use Rattle.click_prog.specs.Replays.{IsLineOutcome, IsReplayed, replayed_line};

use crate::calls::answering::CallsFault;
use click_base::sequence::Sequence;
use click_lines::{push_number, push_words, read_line, reply_text};
use click_router::{Handlers, Router, StepFault};
use std::alloc::{AllocError, Global};
use std::io::Write;

/// The outcome of replaying one line.
#[derive(Drop)]
pub enum LineOutcome {
    /// The reply is the one in the line.
    Same,
    /// Another reply than the one in the line. `written` is the text in the line, `came` that of
    /// the reply.
    Differs {
        written: Sequence<u8>,
        came: Sequence<u8>,
    },
    /// The line is not a call with its reply.
    NoLine,
}

/// The outcome of replaying lines. Lines are counted from 1.
#[derive(Drop)]
pub enum ReplayOutcome {
    /// All calls, `count` of them, got the replies in the lines.
    Same {
        count: usize,
    },
    /// The first call that got another reply. `written` is the text in the line, `came` that of the
    /// reply.
    Differs {
        number: usize,
        written: Sequence<u8>,
        came: Sequence<u8>,
    },
    /// The first line that is not a call with its reply.
    NoLine {
        number: usize,
    },
}

/// Makes the call of a line, and compares its reply.
fn replay_call<T: Handlers>(
    alloc: Global,
    router: &mut Router<T>,
    line: &[u8],
) -> Result<LineOutcome, AllocError>
    ensures { IfOk result (IsLineOutcome router.old line.now router.new) }
{
    let Some(said) = read_line(alloc, line)? else {
        return Ok(LineOutcome::NoLine);
    };
    let reply = match router.step(alloc, &said.call) {
        Ok(reply) => reply,
        Err(StepFault::NoMemory) => return Err(AllocError),
    };
    let came = reply_text(alloc, &reply)?;
    if came.as_slice() == said.reply.as_slice() {
        Ok(LineOutcome::Same)
    } else {
        Ok(LineOutcome::Differs {
            written: said.reply,
            came: Sequence::of(came),
        })
    }
}

/// Replays lines, and writes the outcome as a line.
pub fn write_outcome<W: Write, T: Handlers>(
    alloc: Global,
    output: &mut W,
    router: &mut Router<T>,
    lines: &[Sequence<u8>],
) -> Result<ReplayOutcome, CallsFault>
    ensures again { IfOk result (IsReplayed router.old lines.now router.new) }
    ensures told { IfOk result (λ replayed. Appends (W.contents output.old) (W.contents output.new) (replayed_line replayed)) }
{
    let replayed = replay_lines(alloc, router, lines)?;
    let line = replayed_line(alloc, &replayed)?;
    output.write_all(&line)?;
    output.flush()?;
    Ok(replayed)
}

/// Replays lines, one after another, up to the first one that differs or is not a call with its
/// reply.
fn replay_lines<T: Handlers>(
    alloc: Global,
    router: &mut Router<T>,
    lines: &[Sequence<u8>],
) -> Result<ReplayOutcome, AllocError>
    ensures { IfOk result (IsReplayed router.old lines.now router.new) }
{
    let mut count = 0;
    for line in lines {
        match replay_call(alloc, router, line.as_slice())? {
            LineOutcome::Same => {}
            LineOutcome::Differs { written, came } => {
                return Ok(ReplayOutcome::Differs {
                    number: count + 1,
                    written,
                    came,
                });
            }
            LineOutcome::NoLine => return Ok(ReplayOutcome::NoLine { number: count + 1 }),
        }
        count += 1;
    }
    Ok(ReplayOutcome::Same { count })
}

/// Returns the line that reports the outcome, with its end.
fn replayed_line(alloc: Global, replayed: &ReplayOutcome) -> Result<Vec<u8>, AllocError>
    ensures { IfOk result (λ line. line.items ≡ replayed_line replayed.now) }
{
    match replayed {
        ReplayOutcome::Same { count } => {
            let mut line = Vec::from_slice(alloc, b"replayed ")?;
            push_number(&mut line, *count as u64)?;
            line.extend_from_slice(b" calls, all replies the same\n")?;
            Ok(line)
        }
        ReplayOutcome::Differs {
            number,
            written,
            came,
        } => {
            let mut line = Vec::from_slice(alloc, b"line ")?;
            push_number(&mut line, *number as u64)?;
            line.extend_from_slice(b": the reply is ")?;
            push_words(&mut line, came.as_slice())?;
            line.extend_from_slice(b", and ")?;
            push_words(&mut line, written.as_slice())?;
            line.extend_from_slice(b" was written\n")?;
            Ok(line)
        }
        ReplayOutcome::NoLine { number } => {
            let mut line = Vec::from_slice(alloc, b"line ")?;
            push_number(&mut line, *number as u64)?;
            line.extend_from_slice(b" is no call with its reply\n")?;
            Ok(line)
        }
    }
}
