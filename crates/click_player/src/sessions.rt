//! Sessions over a reader and a writer in memory: at a seat of a desk, in a whole run, or over a
//! stand-in port.

ghost use Rattle.std.specs.Prelude.{◌≡◌};

use crate::devices::Reader;
use crate::failures::{each_read, each_write};
use crate::options::{Attempt, Fails, Options, options_of, piece_size};
pub use crate::replies::Said;
use crate::replies::{end_and_calls, end_text, say};
use crate::script::{Step, Trouble, cut};
use crate::stand_in::serve_port;
use click_control::Open;
use click_desk::{Desk, Seat};
use click_handlers::{Table, TakesTable, with_table};
use click_router::{Check, Handlers};
use click_streams::{Reading, Writing};
use click_workers::{Ran, RunFault, SeatPort, run, serve_seat};
use std::alloc::{AllocError, Global};
use std::cell::Cell;
use std::sync::Wait;
use std::thread::Threads;

/// Serves a session over a seat of a desk, and returns the seat.
fn serve_attempt<T: Handlers + Drop, R: Wait>(
    rt: &R,
    alloc: Global,
    desk: &Desk<T, &R>,
    seat: Seat<T>,
    attempt: &Attempt<'_>,
) -> (Result<Said, Trouble>, Seat<T>)
    requires { seat.desk ≡ desk.now }
    ensures { (result.1.desk ≡ seat.desk) × (result.1.feeds ≡ seat.feeds) }
{
    let written = Cell::new(0);
    let mut reader = Reading::new(Reader::new(attempt.input, &written));
    let mut writer = Writing::new(attempt.writer(alloc, &written));
    let (ended, seat) = serve_seat(
        alloc,
        SeatPort::new(rt, desk, seat),
        &mut reader,
        &mut writer,
        attempt.options.readonly,
        &mut Open,
        attempt.reads(),
    );
    let came = match Vec::from_slice(alloc, end_text(ended).as_bytes()) {
        Ok(reply) => say(
            alloc,
            reply,
            attempt,
            &reader.into_inner(),
            &writer.into_inner(),
        ),
        Err(_) => Err(Trouble::NoMemory),
    };
    (came, seat)
}

/// Returns the session of a step at a seat. Its words are the seat's number and options.
fn attempt_of<'a>(step: &Step<'a>, pieces: usize) -> Result<Attempt<'a>, Trouble> {
    let (_seat, words) = cut(step.words, b' ');
    let (options, rest) = options_of(words)?;
    let one_each = options.read_fails == Fails::Each || options.write_fails == Fails::Each;
    let of_other = options.check.is_some() || options.turns.is_some();
    if one_each || of_other || !rest.is_empty() {
        return Err(Trouble::Malformed);
    }
    Ok(Attempt::new(step, options, size_of(&options, pieces)?))
}

/// Returns the only size of the pieces.
fn size_of(options: &Options<'_>, pieces: usize) -> Result<usize, Trouble> {
    match options.pieces {
        Some(size) => piece_size(size),
        None => Ok(pieces),
    }
}

/// Serves the session of a step at a seat of a desk, and returns the seat.
///
/// The words of the step begin with the seat's number. If they have no `pieces=`, the pieces have
/// `pieces` bytes.
pub fn serve<T: Handlers + Drop, R: Wait>(
    rt: &R,
    alloc: Global,
    desk: &Desk<T, &R>,
    seat: Seat<T>,
    step: &Step<'_>,
    pieces: usize,
) -> (Result<Said, Trouble>, Seat<T>)
    requires { seat.desk ≡ desk.now }
    ensures { (result.1.desk ≡ seat.desk) × (result.1.feeds ≡ seat.feeds) }
{
    match attempt_of(step, pieces) {
        Ok(attempt) => serve_attempt(rt, alloc, desk, seat, &attempt),
        Err(trouble) => (Err(trouble), seat),
    }
}

/// Returns the text of a check.
fn check_text(check: Check) -> &'static str {
    match check {
        Check::Yes => "yes",
        Check::NoElement => "NoElement",
        Check::NoHandler => "NoHandler",
        Check::WrongWay => "WrongWay",
    }
}

/// Returns the reply of a run: the end of its session, the number of calls, and the check, if any.
fn ran_text<T>(alloc: Global, ran: &Ran<T>) -> Result<Vec<u8>, AllocError> {
    let mut text = end_and_calls(alloc, ran.ended, ran.book.entries.as_slice().len())?;
    if let Some(check) = ran.checked {
        text.extend_from_slice(b", ")?;
        text.extend_from_slice(check_text(check).as_bytes())?;
    }
    Ok(text)
}

/// Returns the reason why a run did not begin.
fn fault_text(alloc: Global, fault: &RunFault) -> Result<Vec<u8>, AllocError> {
    match fault {
        RunFault::Config(fault) => fault.text(alloc),
        _ => Ok(format!(in alloc; "{fault}")?.into_bytes()),
    }
}

/// A run of one session with a configuration.
#[derive(Drop)]
struct Running<'a, 'b, 'c> {
    alloc: Global,
    text: &'a [u8],
    attempt: &'b Attempt<'c>,
}

impl<'a, 'b, 'c> TakesTable for Running<'a, 'b, 'c> {
    type Out = Result<Said, Trouble>;

    fn take<R: Threads + Wait + Sync>(self, rt: &R, table: Table) -> Result<Said, Trouble> {
        let Running {
            alloc,
            text,
            attempt,
        } = self;
        let written = Cell::new(0);
        let mut reader = Reading::new(Reader::new(attempt.input, &written));
        let mut writer = Writing::new(attempt.writer(alloc, &written));
        let ran = run(
            rt,
            alloc,
            table,
            &mut reader,
            &mut writer,
            text,
            attempt.options.readonly,
            attempt.options.check,
        );
        match ran {
            Ok(ran) => {
                let reply = ran_text(alloc, &ran)?;
                say(
                    alloc,
                    reply,
                    attempt,
                    &reader.into_inner(),
                    &writer.into_inner(),
                )
            }
            Err(fault) => Ok(Said {
                reply: fault_text(alloc, &fault)?,
                output: writer.into_inner().taken,
            }),
        }
    }
}

/// The peer of a session outside a desk.
#[derive(Clone, Copy)]
pub enum Kind<'a> {
    /// The router of a configuration, in a run.
    Run(&'a [u8]),
    /// A stand-in port.
    Port,
}

/// Plays one session outside a desk.
pub fn play<R: Threads + Wait + Sync>(
    rt: &R,
    alloc: Global,
    kind: Kind<'_>,
    attempt: &Attempt<'_>,
) -> Result<Said, Trouble> {
    match kind {
        Kind::Run(text) => with_table(
            rt,
            alloc,
            Running {
                alloc,
                text,
                attempt,
            },
        )?,
        Kind::Port => serve_port(alloc, attempt),
    }
}

/// Plays a step that is a whole run, with its own table, or a session over a stand-in port.
///
/// If its words have no `pieces=`, the pieces have `pieces` bytes.
pub fn run_once<R: Threads + Wait + Sync>(
    rt: &R,
    alloc: Global,
    step: &Step<'_>,
    pieces: usize,
) -> Result<Said, Trouble> {
    let (options, text) = options_of(step.words)?;
    let kind = kind_of(step, &options, text)?;
    match (options.read_fails, options.write_fails) {
        (Fails::At(_), Fails::At(_)) => in_sizes(rt, alloc, step, kind, options, pieces),
        (Fails::Each, Fails::Each) => Err(Trouble::Malformed),
        (reads, _) => {
            let attempt = Attempt::new(step, options, size_of(&options, pieces)?);
            if reads == Fails::Each {
                each_read(rt, alloc, step, kind, &attempt)
            } else {
                each_write(rt, alloc, step, kind, &attempt)
            }
        }
    }
}

/// Returns the peer of a step's session.
fn kind_of<'a>(
    step: &Step<'_>,
    options: &Options<'_>,
    text: &'a [u8],
) -> Result<Kind<'a>, Trouble> {
    if step.who == b"port".as_slice() {
        if text.is_empty() && options.check.is_none() {
            Ok(Kind::Port)
        } else {
            Err(Trouble::Malformed)
        }
    } else if options.turns.is_some() || options.reads.is_some() {
        Err(Trouble::Malformed)
    } else {
        Ok(Kind::Run(text))
    }
}

/// Plays a step with pieces of each size that it names, or of `pieces` bytes if it names none.
///
/// Returns the outcome for the first size at which it differs from the step's, or the step's if
/// none does.
fn in_sizes<'a, R: Threads + Wait + Sync>(
    rt: &R,
    alloc: Global,
    step: &Step<'a>,
    kind: Kind<'_>,
    options: Options<'a>,
    pieces: usize,
) -> Result<Said, Trouble> {
    let Some(sizes) = options.pieces else {
        return play(rt, alloc, kind, &Attempt::new(step, options, pieces));
    };
    for word in sizes.split(|byte| *byte == b',') {
        let size = piece_size(word)?;
        let said = play(rt, alloc, kind, &Attempt::new(step, options, size))?;
        if !said.is(step.wanted, step.output) {
            return said.at(alloc, "pieces of", size);
        }
    }
    Said::wanted(alloc, step)
}
