//! The mode `--calls`: reads a call from each line of standard input and writes its reply as a line
//! to standard output. With `--replay` it makes the calls of a book again and compares the replies.

ghost use Rattle.std.specs.Prelude.{◌≡◌, IfOk, IfSome};
ghost use Rattle.std.specs.Io.KnownBytes.{Appends};
ghost use Rattle.click_prog.specs.InputLines.{lines_of};
ghost use Rattle.click_prog.specs.Replays.{IsReplayed, replayed_line};
ghost use Rattle.click_prog.specs.CallsStatuses.{fault_status, replayed_status};

pub mod answering;
pub mod arguments;
pub mod line;
pub mod replay;

use crate::calls::answering::{CallsFault, answer_all, lines_of};
use crate::calls::arguments::options_of;
use crate::calls::replay::{ReplayOutcome, write_outcome};
use click_cli::{Status, refuse_arguments, refuse_configuration};
use click_handlers::{Table, TakesTable, with_table};
use click_router::{Handlers, Router, prepare};
use std::alloc::Global;
use std::io::{BufRead, BufReader, Write};
use std::sync::Wait;
use std::thread::Threads;

/// Runs the mode with the words of its command line, of which the first is `--calls`.
pub fn run_calls<R: Threads + Wait + Sync>(
    threads: &R,
    rt: &HostRuntime,
    words: &[String],
) -> Status {
    let alloc = rt.alloc();
    match options_of(alloc, words) {
        Ok(options) => {
            let answers = Answers {
                rt,
                text: options.text.unwrap().as_bytes(),
                replay: options.replay,
            };
            match with_table(threads, alloc, answers) {
                Ok(status) => status,
                Err(_) => Status::NoMemory,
            }
        }
        Err(error) => refuse_arguments(rt, &error),
    }
}

/// The arguments of the mode: the configuration, and whether the lines are replayed.
#[derive(Drop)]
struct Answers<'a> {
    rt: &'a HostRuntime,
    text: &'a [u8],
    replay: bool,
}

impl<'a> TakesTable for Answers<'a> {
    type Out = Status;

    fn take<R: Threads + Wait + Sync>(self, _rt: &R, table: Table) -> Status {
        calls(self.rt, table, self.text, self.replay)
    }
}

/// Opens a router of the text, and answers or replays the lines of standard input.
fn calls<T: Handlers + Drop>(rt: &HostRuntime, table: T, text: &[u8], replay: bool) -> Status {
    let alloc = rt.alloc();
    let mut router = match prepare(alloc, text) {
        Ok(prepared) => Router::open(table, prepared),
        Err(fault) => return refuse_configuration(alloc, &mut rt.stderr(), b"", &fault),
    };
    let Ok(mut input) = BufReader::new(alloc, rt.stdin()) else {
        return Status::NoMemory;
    };
    if replay {
        return match replay_all(alloc, &mut input, &mut rt.stdout(), &mut router) {
            Ok(replayed) => replayed_status(&replayed),
            Err(calls_fault) => tell_fault(rt, calls_fault),
        };
    }
    match answer_all(alloc, &mut input, &mut rt.stdout(), &mut router) {
        Ok(()) => Status::Good,
        Err(calls_fault) => tell_fault(rt, calls_fault),
    }
}

/// Replays the lines of the input, and writes the outcome.
fn replay_all<R: BufRead, W: Write, T: Handlers>(
    alloc: Global,
    input: &mut R,
    output: &mut W,
    router: &mut Router<T>,
) -> Result<ReplayOutcome, CallsFault>
    // This holds if the bytes of the input and of the output are known to contracts.
    ensures again { IfOk result (λ replayed. IfSome (R.remaining input.old) (λ bytes. IsReplayed router.old (lines_of bytes) router.new replayed)) }
    ensures told { IfOk result (λ replayed. Appends (W.contents output.old) (W.contents output.new) (replayed_line replayed)) }
{
    let lines = lines_of(alloc, input)?;
    write_outcome(alloc, output, router, lines.as_slice())
}

/// Returns the status for the outcome of a replay.
fn replayed_status(replayed: &ReplayOutcome) -> Status
    ensures { result ≡ replayed_status replayed.now }
{
    match replayed {
        ReplayOutcome::Same { .. } => Status::Good,
        ReplayOutcome::Differs { .. } => Status::Faulty,
        ReplayOutcome::NoLine { .. } => Status::Wrong,
    }
}

/// Prints the fault, but nothing for out of memory: a line that is not a call, or a device that
/// failed.
fn tell_fault(rt: &HostRuntime, calls_fault: CallsFault) -> Status
    ensures { result ≡ fault_status calls_fault }
{
    let status = match calls_fault {
        CallsFault::Line { .. } => Status::Wrong,
        CallsFault::NoMemory => return Status::NoMemory,
        CallsFault::DeviceFailed => Status::DeviceFailed,
    };
    // A failed write does not change the status.
    let _ = rt.eprintln(&calls_fault);
    status
}
