//! The options of a step whose session is served in memory.

use crate::devices::{Input, Writer};
use crate::script::{Step, Trouble, cut, number_of};
use click_control::MAX_READS;
use std::alloc::Global;
use std::cell::Cell;

/// The reads, or writes, of a session that fail.
#[derive(Clone, Copy, PartialEq, Eq)]
pub enum Fails {
    /// The call of this number, from 1; 0 if none fails.
    At(usize),
    /// Each call in turn, in its own session.
    Each,
}

/// The options of a step's session, which stand before its configuration.
#[derive(Clone, Copy)]
pub struct Options<'a> {
    /// Whether the session is read-only.
    pub readonly: bool,
    /// Whether each read returns one blank, forever.
    pub blanks: bool,
    /// Whether a read waits for the replies to the groups before it.
    pub waits: bool,
    /// The maximum number of reads; if it is given, the reply has the number of those made.
    pub reads: Option<u32>,
    /// The sizes of the pieces of input and output, separated by commas.
    pub pieces: Option<&'a [u8]>,
    /// The maximum number of bytes of a write, if it differs from that of a read.
    pub takes: Option<usize>,
    pub read_fails: Fails,
    pub write_fails: Fails,
    /// The handler that is checked at the end of a run.
    pub check: Option<&'a [u8]>,
    /// The number of the turn that is refused, or 0; if it is given, the reply has the turns.
    pub turns: Option<usize>,
}

/// No options.
const NONE: Options<'static> = Options {
    readonly: false,
    blanks: false,
    waits: false,
    reads: None,
    pieces: None,
    takes: None,
    read_fails: Fails::At(0),
    write_fails: Fails::At(0),
    check: None,
    turns: None,
};

/// Reads the options at the beginning of some words, and returns them with the rest of the words.
///
/// The rest begins at the first word that is not an option. Fails if an option has a wrong value.
pub fn options_of(words: &[u8]) -> Result<(Options<'_>, &[u8]), Trouble> {
    let mut options = NONE;
    let mut rest = words;
    for _ in words {
        let (word, after) = cut(rest, b' ');
        match with_option(options, word)? {
            Some(more) => options = more,
            None => return Ok((options, rest)),
        }
        rest = after;
    }
    Ok((options, rest))
}

/// Returns the options with one more, or None if the word is not an option.
fn with_option<'a>(options: Options<'a>, word: &'a [u8]) -> Result<Option<Options<'a>>, Trouble> {
    let (name, value) = cut(word, b'=');
    if name == b"fails".as_slice() {
        Ok(Some(with_failure(options, value)?))
    } else if name.len() < word.len() {
        with_value(options, name, value)
    } else {
        Ok(with_flag(options, word))
    }
}

/// Returns the options with one more that has no value.
fn with_flag<'a>(options: Options<'a>, word: &[u8]) -> Option<Options<'a>> {
    let mut more = options;
    match word {
        b"readonly" => more.readonly = true,
        b"blanks" => more.blanks = true,
        b"waits" => more.waits = true,
        _ => return None,
    }
    Some(more)
}

/// Returns the options with one more that has a value.
fn with_value<'a>(
    options: Options<'a>,
    name: &[u8],
    value: &'a [u8],
) -> Result<Option<Options<'a>>, Trouble> {
    let mut more = options;
    match name {
        b"pieces" => more.pieces = Some(value),
        b"check" => more.check = Some(value),
        b"takes" => more.takes = Some(number_of(value)?),
        b"turns" => more.turns = Some(number_of(value)?),
        b"reads" => more.reads = Some(number_of_reads(value)?),
        _ => return Ok(None),
    }
    Ok(Some(more))
}

/// Returns the options with a read or write that fails: `read:K`, `write:K`, `each-read` or
/// `each-write`.
fn with_failure<'a>(options: Options<'a>, value: &[u8]) -> Result<Options<'a>, Trouble> {
    let mut more = options;
    let (side, nth) = cut(value, b':');
    match side {
        b"each-read" => more.read_fails = Fails::Each,
        b"each-write" => more.write_fails = Fails::Each,
        b"read" => more.read_fails = Fails::At(number_of(nth)?),
        b"write" => more.write_fails = Fails::At(number_of(nth)?),
        _ => return Err(Trouble::Malformed),
    }
    Ok(more)
}

/// Returns a maximum number of reads.
fn number_of_reads(digits: &[u8]) -> Result<u32, Trouble> {
    match u32::try_from(number_of(digits)?) {
        Ok(reads) => Ok(reads),
        Err(_) => Err(Trouble::Malformed),
    }
}

/// Returns the size of a piece, which is not 0.
pub fn piece_size(digits: &[u8]) -> Result<usize, Trouble> {
    match number_of(digits)? {
        0 => Err(Trouble::Malformed),
        size => Ok(size),
    }
}

/// One session, with the behavior of its reader and its writer.
#[derive(Clone, Copy)]
pub struct Attempt<'a> {
    pub options: Options<'a>,
    pub input: Input<'a>,
    /// The maximum number of bytes in a write.
    pub takes: usize,
    /// The number of the write that fails, from 1; 0 if none does.
    pub write_fails_at: usize,
}

impl<'a> Attempt<'a> {
    /// Returns the session of a step, with its bytes in pieces of one size.
    pub fn new(step: &Step<'a>, options: Options<'a>, size: usize) -> Attempt<'a> {
        Attempt {
            options,
            input: Input {
                bytes: step.input,
                groups: step.groups,
                size,
                fails_at: first_failure(options.read_fails),
                blanks: options.blanks,
                waits: options.waits,
            },
            takes: options.takes.unwrap_or(size),
            write_fails_at: first_failure(options.write_fails),
        }
    }

    /// Returns a writer for the session, which counts its bytes in `written`.
    pub fn writer<'b>(&self, alloc: Global, written: &'b Cell<usize>) -> Writer<'b> {
        Writer::new(alloc, self.takes, self.write_fails_at, written)
    }

    /// Returns the maximum number of reads.
    pub fn reads(&self) -> u32 {
        self.options.reads.unwrap_or(MAX_READS)
    }

    /// Returns the number of the turn that is refused, or 0.
    pub fn refused(&self) -> u64 {
        self.options.turns.unwrap_or(0) as u64
    }

    /// Returns the session with reads of one byte, of which the one with this number fails.
    pub fn with_failed_read(&self, nth: usize) -> Attempt<'a> {
        let mut attempt = *self;
        attempt.input.size = 1;
        attempt.input.fails_at = nth;
        attempt
    }

    /// Returns the session with writes of one byte, of which the one with this number fails.
    pub fn with_failed_write(&self, nth: usize) -> Attempt<'a> {
        let mut attempt = *self;
        attempt.takes = 1;
        attempt.write_fails_at = nth;
        attempt
    }
}

/// Returns the number of the call that fails, or 0.
fn first_failure(fails: Fails) -> usize {
    match fails {
        Fails::At(nth) => nth,
        Fails::Each => 0,
    }
}
