//! A session's stream of bytes, which becomes commands.

ghost use Rattle.std.specs.Prelude.{◌≡◌, ◌≤◌, ◌+◌, length, drop, IfOk, OnOk, OnErr};
ghost use Rattle.click_control.specs.Taking.{fresh, fed, GivesNext, GivesNone};
ghost use Rattle.click_control.specs.kept.Lines.{TakesLine};

use crate::command::Command;
use crate::line::{FirstLine, first_line};
use crate::start::{Start, line_start};
use std::alloc::{AllocError, Global};
use std::marker::Model;

/// The outcome of taking up a session's next line.
#[derive(Drop)]
enum Line {
    /// The line, or the payload that it announces, is incomplete.
    Partial,
    /// The line is blank.
    Blank,
    /// The line, with its payload, is this command.
    Whole(Command),
}

/// The parser of a session's stream (Click manual, "ControlSocket").
///
/// Bytes are fed in pieces of any size, and commands are taken out one after another. By the type's
/// invariant its buffer has at most twice as many bytes as are still to be taken up.
#[derive(Drop)]
pub struct Session {
    buffer: Vec<u8>,
    /// The offset of the first byte that is not taken up yet.
    at: usize,
    /// The number of bytes from there on that are known to hold no line end.
    searched: usize,
    /// A lower bound for the number of bytes, from there on, that complete the next command.
    wanted: usize,
    start: Start,
}

impl Model for Session {
    ghost use Rattle.click_control.specs.Taking.{Pending};

    ghost Value = { Pending };

    ghost use Rattle.std.specs.Prelude.{drop};
    ghost use Rattle.click_control.specs.kept.Lines.{IsPlaced, reading_of};

    ghost view = { λ s. record { from = reading_of s.start; bytes = drop s.at s.buffer.items } };

    ghost invariant = { λ s. IsPlaced s.at s.searched s.wanted (reading_of s.start) s.buffer.items };
}

impl Session {
    /// Returns a session at the beginning of its stream. Allocates nothing.
    pub fn new(alloc: Global) -> Self
        ensures { result ≡ fresh }
    {
        Session {
            buffer: Vec::new(alloc),
            at: 0,
            searched: 0,
            wanted: 0,
            start: Start::Line,
        }
    }

    /// Appends the next bytes of the stream. After `QUIT`, and after a line or a payload that is
    /// too long, it ignores them.
    ///
    /// If it fails with out of memory, the session is unchanged.
    pub fn feed(&mut self, piece: &[u8]) -> Result<(), AllocError>
        ensures ok { OnOk result (self.new ≡ fed self.old piece.now) }
        ensures err { OnErr result (self.new ≡ self.old) }
    {
        if self.start == Start::Over {
            return Ok(());
        }
        self.buffer.extend_from_slice(piece)
    }

    /// Takes out the next command. Returns `None` if the bytes fed so far hold no whole command.
    ///
    /// If it fails with out of memory, the command is still to come.
    pub fn next(&mut self, alloc: Global) -> Result<Option<Command>, AllocError>
        ensures ok { IfOk result (λ command. GivesNext self.old self.new command) }
        ensures err { OnErr result (GivesNone self.old self.new) }
    {
        loop {
            match self.line(alloc) {
                Err(error) => return Err(error),
                Ok(Line::Partial) => return Ok(None),
                Ok(Line::Blank) => {}
                Ok(Line::Whole(command)) => return Ok(Some(command)),
            }
        }
    }

    /// Takes up the next line, if it is complete with its payload or is too long.
    fn line(&mut self, alloc: Global) -> Result<Line, AllocError>
        ensures ok { IfOk result (λ line. TakesLine self.old self.new line) }
        ensures err { OnErr result (self.new ≡ self.old) }
    {
        if self.buffer.len() - self.at < self.wanted {
            return Ok(Line::Partial);
        }
        let Some(skipped) = line_start(self.start, &self.buffer[self.at..]) else {
            return Ok(Line::Partial);
        };
        let begin = self.at + skipped;
        let searched = if skipped == 0 { self.searched } else { 0 };
        match first_line(alloc, &self.buffer[begin..], searched)? {
            FirstLine::Partial { searched, wanted } => {
                self.at = compact_buffer(&mut self.buffer, begin);
                self.searched = searched;
                self.wanted = wanted;
                self.start = Start::Line;
                Ok(Line::Partial)
            }
            FirstLine::Taken {
                command,
                length,
                start,
            } => {
                self.at = compact_buffer(&mut self.buffer, begin + length);
                self.searched = 0;
                self.wanted = 0;
                self.start = start;
                Ok(match command {
                    None => Line::Blank,
                    Some(command) => Line::Whole(command),
                })
            }
        }
    }
}

/// Drops the bytes that were taken up if they are more than the rest. Returns the offset of the
/// rest.
///
/// perf: moves fewer bytes than it drops.
fn compact_buffer(buffer: &mut Vec<u8>, at: usize) -> usize
    requires { at ≤ length buffer.old.items }
    ensures rest { drop result buffer.new.items ≡ drop at buffer.old.items }
    ensures kept { result + result ≤ length buffer.new.items }
{
    let rest = buffer.len() - at;
    if at <= rest {
        return at;
    }
    drop_front(buffer, at);
    0
}

/// Drops the first `count` bytes of a buffer.
fn drop_front(buffer: &mut Vec<u8>, count: usize)
    requires { count ≤ length buffer.old.items }
    ensures { buffer.new.items ≡ drop count buffer.old.items }
{
    if count > 0 {
        let rest = buffer.len() - count;
        buffer.copy_within(count.., 0);
        buffer.truncate(rest);
    }
}
