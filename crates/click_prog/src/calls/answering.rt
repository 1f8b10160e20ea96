//! Answering the calls of an input, one after another.

ghost use Rattle.std.specs.Prelude.{◌≡◌, IfOk, IfSome};
ghost use Rattle.std.specs.Io.BufRead.{strip_last};
ghost use Rattle.click_prog.specs.InputLines.{lines_of};

use crate::calls::line::{LineFault, call_of};
use click_base::sequence::Sequence;
use click_lines::reply_line;
use click_router::{Handlers, Router, StepFault};
use std::alloc::{AllocError, Global};
use std::io::{self, BufRead, Read, Write};
use thiserror::Error;

/// The maximum number of bytes of a line: enough for a Poll of 32 packets of 1,600 bytes.
const MAX_LINE_BYTES: usize = 131_072;

/// The fault at which the answering of calls stops. The calls before it were answered.
#[derive(Clone, Copy, Debug, PartialEq, Eq, Error)]
pub enum CallsFault {
    #[error("error {number}: {fault}")]
    Line { number: u64, fault: LineFault },
    #[error("out of memory")]
    NoMemory,
    #[error("error: a read or a write failed")]
    DeviceFailed,
}

impl From<AllocError> for CallsFault {
    fn from(_error: AllocError) -> CallsFault {
        CallsFault::NoMemory
    }
}

impl From<StepFault> for CallsFault {
    fn from(fault: StepFault) -> CallsFault {
        match fault {
            StepFault::NoMemory => CallsFault::NoMemory,
        }
    }
}

impl From<io::Error> for CallsFault {
    fn from(error: io::Error) -> CallsFault {
        match error.kind() {
            io::ErrorKind::OutOfMemory => CallsFault::NoMemory,
            _ => CallsFault::DeviceFailed,
        }
    }
}

/// The outcome of reading a line.
#[derive(Clone, Copy, Debug, PartialEq, Eq)]
enum LineRead {
    Line,
    TooLong,
    End,
}

/// Answers the calls of the input until it ends. Writes each reply before it reads the next line.
pub fn answer_all<R: BufRead, W: Write, T: Handlers>(
    alloc: Global,
    input: &mut R,
    output: &mut W,
    router: &mut Router<T>,
) -> Result<(), CallsFault> {
    let mut line = Vec::new(alloc);
    for before in 0..u64::MAX {
        let number = before + 1;
        match next_line(input, &mut line)? {
            LineRead::End => return Ok(()),
            LineRead::TooLong => {
                let fault = LineFault::TooLong;
                return Err(CallsFault::Line { number, fault });
            }
            LineRead::Line => answer(alloc, number, &line, output, router)?,
        }
    }
    // No input has 2^64 - 1 lines.
    Err(CallsFault::DeviceFailed)
}

/// Reads a line, without its end.
fn next_line<R: BufRead>(input: &mut R, line: &mut Vec<u8>) -> io::Result<LineRead> {
    line.clear();
    let most = MAX_LINE_BYTES as u64 + 1;
    if input.by_ref().take(most).read_until(b'\n', line)? == 0 {
        return Ok(LineRead::End);
    }
    if line.as_slice().ends_with(b"\n") {
        let _end = line.pop();
        return Ok(LineRead::Line);
    }
    if line.len() > MAX_LINE_BYTES {
        return Ok(LineRead::TooLong);
    }
    Ok(LineRead::Line)
}

/// Makes the call of a line, and writes its reply.
fn answer<W: Write, T: Handlers>(
    alloc: Global,
    number: u64,
    line: &[u8],
    output: &mut W,
    router: &mut Router<T>,
) -> Result<(), CallsFault> {
    let call = match call_of(alloc, line) {
        Ok(call) => call,
        Err(LineFault::NoMemory) => return Err(CallsFault::NoMemory),
        Err(fault) => return Err(CallsFault::Line { number, fault }),
    };
    let reply = router.step(alloc, &call)?;
    output.write_all(&reply_line(alloc, &reply)?)?;
    Ok(output.flush()?)
}

/// Returns the lines of the input, without their ends.
pub fn lines_of<R: BufRead>(
    alloc: Global,
    input: &mut R,
) -> Result<Sequence<Sequence<u8>>, CallsFault>
    // This holds if the bytes of the input are known to contracts.
    ensures { IfOk result (λ lines. IfSome (R.remaining input.old) (λ bytes. lines ≡ lines_of bytes)) }
{
    let mut lines = Sequence::new(alloc);
    for _ in 0..u64::MAX {
        let mut line = Vec::new(alloc);
        if input.read_until(b'\n', &mut line)? == 0 {
            return Ok(lines);
        }
        lines.push(Sequence::of(without_end(line)))?;
    }
    // No input has 2^64 - 1 lines.
    Err(CallsFault::DeviceFailed)
}

/// Returns a line without its end. The last line may have none.
fn without_end(line: Vec<u8>) -> Vec<u8>
    ensures { result.items ≡ strip_last 10 line.items }
{
    let mut line = line;
    if line.as_slice().ends_with(b"\n") {
        let _end = line.pop();
    }
    line
}
