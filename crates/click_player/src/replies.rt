//! How a session ends, as the reply of its step.

use crate::devices::{Reader, Writer};
use crate::options::Attempt;
use crate::script::{Step, Trouble};
use click_control::{Ended, ServeFault};
use std::alloc::{AllocError, Global};

/// The reply of a session or a run, and the output after the greeting.
#[derive(Drop)]
pub struct Said {
    pub reply: Vec<u8>,
    pub output: Vec<u8>,
}

impl Said {
    /// Returns the reply and the output that a step expects.
    pub fn wanted(alloc: Global, step: &Step<'_>) -> Result<Said, Trouble> {
        Ok(Said {
            reply: Vec::from_slice(alloc, step.wanted)?,
            output: Vec::from_slice(alloc, step.output)?,
        })
    }

    /// Returns whether this has exactly this reply and this output.
    pub fn is(&self, reply: &[u8], output: &[u8]) -> bool {
        self.reply.as_slice() == reply && self.output.as_slice() == output
    }

    /// Adds the number of the session before the reply, unless the reply is `out of memory`.
    pub fn at(self, alloc: Global, what: &str, number: usize) -> Result<Said, Trouble> {
        let Said { reply, output } = self;
        if reply.as_slice() == b"out of memory".as_slice() {
            return Ok(Said { reply, output });
        }
        let mut text = format!(in alloc; "{what} {number}: ")?.into_bytes();
        text.extend_from_slice(reply.as_slice())?;
        Ok(Said {
            reply: text,
            output,
        })
    }
}

/// The line that a session begins with.
pub const GREETING: &[u8] = b"Click::ControlSocket/1.3\r\n";

/// The reply to a call that failed with out of memory, in a session that goes on.
const OUT_OF_MEMORY: &[u8] = b"520 Out of memory\r\n";

/// Returns the word for the end of a session.
pub fn end_text(ended: Result<Ended, ServeFault>) -> &'static str {
    match ended {
        Ok(Ended::Quit) => "quit",
        Ok(Ended::EndOfInput) => "end of input",
        Ok(Ended::TooLong) => "too long",
        Ok(Ended::GateClosed) => "gate closed",
        Err(ServeFault::ReadFailed) => "read failed",
        Err(ServeFault::WriteFailed) => "write failed",
        Err(ServeFault::NoMemory) => "out of memory",
    }
}

/// Returns the word for the end of a session, with the number of its calls.
pub fn end_and_calls(
    alloc: Global,
    ended: Result<Ended, ServeFault>,
    calls: usize,
) -> Result<Vec<u8>, AllocError> {
    let end = end_text(ended);
    Ok(format!(in alloc; "{end}, {calls} calls")?.into_bytes())
}

/// Returns the outcome of a session whose reply begins with these bytes.
///
/// The reply is only `out of memory` if the session, or one of its calls, failed with that.
pub fn say(
    alloc: Global,
    reply: Vec<u8>,
    attempt: &Attempt<'_>,
    reader: &Reader<'_>,
    writer: &Writer<'_>,
) -> Result<Said, Trouble> {
    if writer.no_memory {
        return Err(Trouble::NoMemory);
    }
    let written = writer.taken.as_slice();
    let (output, greeted) = match written.strip_prefix(GREETING) {
        Some(output) => (output, true),
        None => (written, false),
    };
    let reply = if reply.starts_with(b"out of memory") || has_refusal(written) {
        Vec::from_slice(alloc, b"out of memory")?
    } else {
        completed(alloc, reply, attempt, reader, greeted)?
    };
    Ok(Said {
        reply,
        output: Vec::from_slice(alloc, output)?,
    })
}

/// Adds the number of reads to a reply, if the step asks for it, and a note if the greeting is
/// missing.
fn completed(
    alloc: Global,
    reply: Vec<u8>,
    attempt: &Attempt<'_>,
    reader: &Reader<'_>,
    greeted: bool,
) -> Result<Vec<u8>, AllocError> {
    let mut reply = reply;
    if attempt.options.reads.is_some() {
        let reads = format!(in alloc; ", {} reads", reader.calls)?;
        reply.extend_from_slice(reads.as_bytes())?;
    }
    if !greeted {
        reply.extend_from_slice(b", no greeting")?;
    }
    Ok(reply)
}

/// Returns whether a call of a session failed with out of memory.
fn has_refusal(written: &[u8]) -> bool {
    written
        .windows(OUT_OF_MEMORY.len())
        .any(|part| part == OUT_OF_MEMORY)
}
