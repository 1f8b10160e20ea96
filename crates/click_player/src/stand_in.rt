//! A port that replaces a router in tests, and a session over it.

use crate::devices::Reader;
use crate::options::Attempt;
use crate::replies::{Said, end_and_calls, say};
use crate::script::Trouble;
use click_base::sequence::Sequence;
use click_control::{AskFault, Port, Turns, serve_turns};
use click_handlers::HandlerFault;
use click_router::{Call, CompactReply, StoredReply};
use click_streams::{Reading, Writing};
use std::alloc::{AllocError, Global};
use std::cell::Cell;

/// The number of bytes of `c.large`.
const LARGE: usize = 70_000;

/// The progress of a session.
#[derive(Drop)]
struct Done {
    calls: Cell<usize>,
    written: Cell<usize>,
}

/// A port with one element, `c`. It counts its calls.
///
/// `c.count` and `c.large` can be read, `c.echo` returns its text, and a read of `c.late` finds the
/// history full. `c.reset_counts` can be written, and `c.two` with a text of two bytes.
#[derive(Drop)]
struct OneCounter<'a> {
    done: &'a Done,
}

/// Returns a value of some bytes as a reply.
fn value(bytes: Result<Vec<u8>, AllocError>) -> Result<StoredReply, AskFault> {
    match bytes {
        Ok(bytes) => Ok(StoredReply::of(CompactReply::Value(Sequence::of(bytes)))),
        Err(_) => Err(AskFault::NoMemory),
    }
}

fn read_of(alloc: Global, name: &[u8], text: &[u8]) -> Result<StoredReply, AskFault> {
    if name == b"c.count".as_slice() {
        value(Vec::from_slice(alloc, b"0"))
    } else if name == b"c.echo".as_slice() {
        value(Vec::from_slice(alloc, text))
    } else if name == b"c.large".as_slice() {
        value(vec![in alloc; b'x'; LARGE])
    } else if name == b"c.late".as_slice() {
        Err(AskFault::HistoryFull)
    } else if name == b"c.reset_counts".as_slice() {
        Ok(StoredReply::of(CompactReply::WrongWay))
    } else if name == b"c.none".as_slice() {
        Ok(StoredReply::of(CompactReply::NoHandler))
    } else {
        Ok(StoredReply::of(CompactReply::NoElement))
    }
}

fn write_of(name: &[u8], text: &[u8]) -> StoredReply {
    if name == b"c.count".as_slice() {
        StoredReply::of(CompactReply::WrongWay)
    } else if name == b"c.two".as_slice() && text.len() != 2 {
        StoredReply::of(CompactReply::Handler(HandlerFault::OutOfRange))
    } else {
        StoredReply::of(CompactReply::Done)
    }
}

impl Port for OneCounter<'_> {
    ghost asks = { λ _ _ _ _. Unit {0} };

    fn ask_stored(&mut self, alloc: Global, call: Call) -> Result<StoredReply, AskFault> {
        self.done.calls.set(self.done.calls.get().saturating_add(1));
        match call {
            Call::Read { name, text } => read_of(alloc, name.as_slice(), text.as_slice()),
            Call::CheckRead { name } => {
                let reply = read_of(alloc, name.as_slice(), b"")?;
                Ok(match reply.compact() {
                    CompactReply::Value(_) => StoredReply::of(CompactReply::Done),
                    _ => reply,
                })
            }
            Call::Write { name, text } => Ok(write_of(name.as_slice(), text.as_slice())),
            Call::CheckWrite { name } => Ok(write_of(name.as_slice(), b"ab")),
            Call::Swap { .. }
            | Call::Arrive { .. }
            | Call::Poll { .. }
            | Call::Round
            | Call::Transmit { .. } => Ok(StoredReply::of(CompactReply::NoDevice)),
        }
    }
}

/// The turns of a session, of which one may be refused, with a note of each.
#[derive(Drop)]
struct Noted<'a> {
    alloc: Global,
    refused: u64,
    done: &'a Done,
    notes: Vec<u8>,
    no_memory: bool,
}

impl Noted<'_> {
    /// Notes a turn: a word, its number, and the numbers of calls made and bytes written so far.
    fn note(&mut self, word: &str, nth: u64) {
        let calls = self.done.calls.get();
        let written = self.done.written.get();
        let noted = match format!(in self.alloc; ", {word} {nth} {calls} {written}") {
            Ok(note) => self.notes.extend_from_slice(note.as_bytes()).is_ok(),
            Err(_) => false,
        };
        self.no_memory |= !noted;
    }
}

impl Turns for Noted<'_> {
    ghost turn = { λ _ _ _ _. Unit {0} };

    ghost done = { λ _ _ _. Unit {0} };

    fn before(&mut self, nth: u64) -> bool {
        self.note("before", nth);
        nth != self.refused
    }

    fn after(&mut self, nth: u64) {
        self.note("after", nth);
    }
}

/// Serves a session over a new port, and returns how it ended and what it wrote.
pub fn serve_port(alloc: Global, attempt: &Attempt<'_>) -> Result<Said, Trouble> {
    let done = Done {
        calls: Cell::new(0),
        written: Cell::new(0),
    };
    let mut turns = Noted {
        alloc,
        refused: attempt.refused(),
        done: &done,
        notes: Vec::new(alloc),
        no_memory: false,
    };
    let mut reader = Reading::new(Reader::new(attempt.input, &done.written));
    let mut writer = Writing::new(attempt.writer(alloc, &done.written));
    let ended = serve_turns(
        alloc,
        &mut reader,
        &mut writer,
        &mut OneCounter { done: &done },
        attempt.options.readonly,
        &mut turns,
        attempt.reads(),
    );
    let Noted {
        notes,
        no_memory,
        ..
    } = turns;
    if no_memory {
        return Err(Trouble::NoMemory);
    }
    let mut reply = end_and_calls(alloc, ended, done.calls.get())?;
    if attempt.options.turns.is_some() {
        reply.extend_from_slice(notes.as_slice())?;
    }
    say(
        alloc,
        reply,
        attempt,
        &reader.into_inner(),
        &writer.into_inner(),
    )
}
