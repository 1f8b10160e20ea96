//! Finding the first line of some bytes, with the payload that it announces.

ghost use Rattle.std.specs.Prelude.{◌≡◌, ◌<◌, ◌≤◌, ℕ, List, length, take, true, slice_index, IfOk, MatchOption, Some};
ghost use Rattle.click_control.specs.Commands.{is_end, parse_line, announces, HasNoEnd};
ghost use Rattle.click_control.specs.kept.Lines.{IsEnded, IsFirstLine, end_length};
ghost use Rattle.click_control.specs.declared.command.Command.TheVariants as command;
ghost use Rattle.click_control.specs.declared.start.Start.TheVariants as start;
ghost use Rattle.click_control.specs.declared.line.FirstLine.TheVariants as found;

use crate::command::Command;
use crate::parsed::{ParsedLine, parse_line, text_command};
use crate::start::{Start, after_end, start_after};
use click_base::sequence::Sequence;
use click_router::Access;
use memchr::memchr2;
use std::alloc::{AllocError, Global};

/// The maximum number of bytes of a line before its end.
const MAX_LINE_BYTES: usize = 65_536;

/// The content of bytes that start at the beginning of a line.
#[derive(Drop)]
pub enum FirstLine {
    /// There is no whole command yet.
    ///
    /// The first `searched` bytes hold no line end. No command is whole before `wanted` bytes have
    /// come.
    Partial {
        searched: usize,
        wanted: usize,
    },
    /// The first `length` bytes are a line with the payload that it announces.
    ///
    /// `command` is `None` if the line is blank. The bytes after it begin at `start`.
    Taken {
        command: Option<Command>,
        length: usize,
        start: Start,
    },
}

/// Finds the first line and the payload that it announces.
///
/// The caller knows that the first `searched` bytes hold no line end.
pub fn first_line(alloc: Global, bytes: &[u8], searched: usize) -> Result<FirstLine, AllocError>
    requires within { searched ≤ length bytes.now }
    requires no_end { HasNoEnd (take searched bytes.now) }
    ensures { IfOk result (λ found. IsFirstLine bytes.now found) }
{
    match line_len(bytes, searched) {
        None if bytes.len() > MAX_LINE_BYTES => Ok(too_long(bytes)),
        None => Ok(FirstLine::Partial {
            searched: bytes.len(),
            wanted: 0,
        }),
        Some(len) if len > MAX_LINE_BYTES => Ok(too_long(bytes)),
        Some(len) => ended_line(alloc, bytes, len),
    }
}

/// Returns the outcome of `first_line` if the first line is too long.
fn too_long(bytes: &[u8]) -> FirstLine
    ensures { result ≡ found.Taken (Some command.LineTooLong) (length bytes.now) start.Over }
{
    FirstLine::Taken {
        command: Some(Command::LineTooLong),
        length: bytes.len(),
        start: Start::Over,
    }
}

/// Returns the outcome of `first_line` if the first line has `len` bytes before its end.
fn ended_line(alloc: Global, bytes: &[u8], len: usize) -> Result<FirstLine, AllocError>
    requires { IsEnded bytes.now len }
    ensures { IfOk result (λ found. IsFirstLine bytes.now found) }
{
    let last = bytes[len];
    match parse_line(alloc, &bytes[..len])? {
        ParsedLine::Blank => Ok(FirstLine::Taken {
            command: None,
            length: len + 1,
            start: after_end(last),
        }),
        ParsedLine::Whole(command) => {
            let start = start_after(&command, last);
            Ok(FirstLine::Taken {
                command: Some(command),
                length: len + 1,
                start,
            })
        }
        ParsedLine::Announces {
            direction,
            handler,
            count,
        } => payload(alloc, bytes, len, direction, handler, count),
    }
}

/// Returns the outcome of `first_line` if the first line has `len` bytes and announces a payload of
/// `count` bytes.
fn payload(
    alloc: Global,
    bytes: &[u8],
    len: usize,
    direction: Access,
    handler: Sequence<u8>,
    count: usize,
) -> Result<FirstLine, AllocError>
    requires ended { IsEnded bytes.now len }
    requires says { announces direction handler count ≡ parse_line (take len bytes.now) }
    requires some { 0 < count }
    requires small { count ≤ 1048576 }
    ensures { IfOk result (λ found. IsFirstLine bytes.now found) }
{
    let begin = len + end_len(&bytes[len..]);
    let wanted = begin + count;
    if bytes.len() < wanted {
        return Ok(FirstLine::Partial {
            searched: len,
            wanted,
        });
    }
    let text = Sequence::copy_of(alloc, &bytes[begin..wanted])?;
    Ok(FirstLine::Taken {
        command: Some(text_command(direction, handler, text)),
        length: wanted,
        start: Start::Line,
    })
}

/// Returns the length of the line end with which these bytes begin: 2 for CR LF, else 1.
fn end_len(bytes: &[u8]) -> usize
    ensures { result ≡ end_length bytes.now }
{
    if bytes.len() > 1 && bytes[0] == b'\r' && bytes[1] == b'\n' {
        2
    } else {
        1
    }
}

/// Returns the number of bytes before the first line end. The first `searched` bytes hold none.
fn line_len(bytes: &[u8], searched: usize) -> Option<usize>
    requires within { searched ≤ length bytes.now }
    requires no_end { HasNoEnd (take searched bytes.now) }
    ensures { MatchOption result (HasNoEnd bytes.now)
        (λ n. (n < length bytes.now) × HasNoEnd (take n bytes.now) × (is_end (slice_index bytes.now n) ≡ true)) }
{
    match memchr2(b'\n', b'\r', &bytes[searched..]) {
        None => None,
        Some(more) => Some(searched + more),
    }
}
