//! Peers of control sessions in memory: bytes in pieces, with failures at chosen calls.

ghost use Rattle.std.specs.Prelude.{◌≤◌, length};

use crate::script::Group;
use std::alloc::Global;
use std::cell::Cell;
use std::io::{self, ErrorKind, Read, Write};

/// The number of bytes of the greeting that begins each session's output.
pub const GREETING_BYTES: usize = 26;

/// The bytes that a session reads, and how its peer sends them.
#[derive(Clone, Copy)]
pub struct Input<'a> {
    pub bytes: &'a [u8],
    pub groups: &'a [Group],
    /// The maximum number of bytes in a read.
    pub size: usize,
    /// The number of the read that fails, from 1; 0 if none does.
    pub fails_at: usize,
    /// Whether each read returns one blank, forever, instead of the bytes.
    pub blanks: bool,
    /// Whether a read fails unless all output of the groups before it is written.
    pub waits: bool,
}

/// A reader over an input.
#[derive(Drop)]
pub struct Reader<'a> {
    input: Input<'a>,
    /// The offset of the next byte.
    at: usize,
    /// The number of reads, including failed ones.
    pub calls: usize,
    /// The number of bytes that the session has written.
    written: &'a Cell<usize>,
}

impl<'a> Reader<'a> {
    /// Returns a reader at the first byte of an input.
    pub fn new(input: Input<'a>, written: &'a Cell<usize>) -> Reader<'a> {
        Reader {
            input,
            at: 0,
            calls: 0,
            written,
        }
    }

    /// Returns the bytes for a read, or None if the peer still waits for output.
    fn next_bytes(&self) -> Option<&'a [u8]> {
        let Input {
            bytes,
            groups,
            waits,
            ..
        } = self.input;
        if !waits {
            return bytes.get(self.at..);
        }
        let (end, output) = group_at(groups, self.at);
        if self.written.get() == output.saturating_add(GREETING_BYTES) {
            bytes.get(self.at..end)
        } else {
            None
        }
    }
}

/// Returns the end of the group with the byte at an offset, and the length of the output of earlier
/// groups.
fn group_at(groups: &[Group], at: usize) -> (usize, usize) {
    let mut output: usize = 0;
    for group in groups {
        if at < group.input {
            return (group.input, output);
        }
        output = group.output;
    }
    (at, output)
}

/// Puts one blank into a piece, and returns the number of bytes put.
fn give_blank(piece: &mut [u8]) -> usize
    ensures { result ≤ length piece.new }
{
    if piece.is_empty() {
        return 0;
    }
    piece[0] = b' ';
    1
}

impl Read for Reader<'_> {
    fn read(&mut self, piece: &mut [u8]) -> io::Result<usize> {
        self.calls = self.calls.saturating_add(1);
        if self.calls == self.input.fails_at {
            return Err(io::Error::from(ErrorKind::Interrupted));
        }
        if self.input.blanks {
            return Ok(give_blank(piece));
        }
        let Some(rest) = self.next_bytes() else {
            return Err(io::Error::from(ErrorKind::Other));
        };
        let count = self.input.size.min(rest.len()).min(piece.len());
        piece[..count].copy_from_slice(&rest[..count]);
        self.at = self.at.saturating_add(count);
        Ok(count)
    }
}

/// A writer that stores the bytes that it takes.
#[derive(Drop)]
pub struct Writer<'a> {
    pub taken: Vec<u8>,
    /// The maximum number of bytes in a write.
    size: usize,
    /// The number of the write that fails, from 1; 0 if none does.
    fails_at: usize,
    calls: usize,
    /// Whether a write failed with out of memory for its bytes.
    pub no_memory: bool,
    /// The number of bytes taken.
    written: &'a Cell<usize>,
}

impl<'a> Writer<'a> {
    /// Returns a writer that has taken nothing.
    pub fn new(
        alloc: Global,
        size: usize,
        fails_at: usize,
        written: &'a Cell<usize>,
    ) -> Writer<'a> {
        Writer {
            taken: Vec::new(alloc),
            size,
            fails_at,
            calls: 0,
            no_memory: false,
            written,
        }
    }
}

impl Write for Writer<'_> {
    fn write(&mut self, bytes: &[u8]) -> io::Result<usize> {
        self.calls = self.calls.saturating_add(1);
        if self.calls == self.fails_at {
            return Err(io::Error::from(ErrorKind::Interrupted));
        }
        let count = self.size.min(bytes.len());
        if self.taken.extend_from_slice(&bytes[..count]).is_err() {
            self.no_memory = true;
            return Err(io::Error::from(ErrorKind::OutOfMemory));
        }
        self.written.set(self.written.get().saturating_add(count));
        Ok(count)
    }

    fn flush(&mut self) -> io::Result<()> {
        Ok(())
    }
}
