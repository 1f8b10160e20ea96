//! Reads lines back.

ghost use Rattle.std.specs.Prelude.{◌≡◌, Some, IfOk, IfSome};
ghost use Rattle.click_lines.specs.Lines.{line_text};
ghost use Rattle.click_lines.specs.Reading.{IsLaidOut, ReadsCall, ReadsLine, ReadsNumber};
ghost use Rattle.click_router.specs.declared.call.Call.{Call};

use crate::escaping::unescaped;
use crate::kind::{Kind, kind_of};
use crate::line::Line;
use crate::packet::{packet_in, packets_in};
use crate::parts::cut;
use click_base::decimal_number;
use click_base::sequence::Sequence;
use click_router::{Call, DeviceName};
use std::alloc::{AllocError, Global};

/// Parses a line, which has no line end. Returns `None` if no seat, call and reply have this line.
pub fn read_line(alloc: Global, line: &[u8]) -> Result<Option<Line>, AllocError>
    // The content that is read has this line.
    ensures is { IfOk result (λ read. IfSome read (λ l. line_text l ≡ line.now)) }
    // If some content has this line, that content is read.
    ensures back { IfOk result (ReadsLine line.now) }
{
    let Some(read) = parsed(alloc, line)? else {
        return Ok(None);
    };
    if read.text(alloc)?.as_slice() == line {
        Ok(Some(read))
    } else {
        Ok(None)
    }
}

/// Parses the columns of a line, without a test that the content has this very line.
fn parsed(alloc: Global, line: &[u8]) -> Result<Option<Line>, AllocError>
    ensures { IfOk result (ReadsLine line.now) }
{
    let (seat, rest) = cut(line, b'\t');
    let (call, reply) = cut(rest, b'\t');
    let Some(seat) = number_in(seat) else {
        return Ok(None);
    };
    let Some(call) = call_in(alloc, call)? else {
        return Ok(None);
    };
    let Some(reply) = unescaped(alloc, reply)? else {
        return Ok(None);
    };
    Ok(Some(Line { seat, call, reply }))
}

/// Parses decimal digits.
fn number_in(digits: &[u8]) -> Option<usize>
    ensures { ReadsNumber digits.now result }
{
    match decimal_number(digits, 0, u64::MAX) {
        Ok(number) => Some(number as usize),
        Err(_) => None,
    }
}

/// Parses the words of a call.
fn call_in(alloc: Global, words: &[u8]) -> Result<Option<Call>, AllocError>
    ensures { IfOk result (ReadsCall words.now) }
{
    let (word, rest) = cut(words, b' ');
    let (first, last) = cut(rest, b' ');
    let Some(kind) = kind_of(word) else {
        return Ok(None);
    };
    let Some(first) = unescaped(alloc, first)? else {
        return Ok(None);
    };
    call_of(alloc, kind, first, last)
}

/// Parses a call of this kind, from its first word, unescaped, and the rest of its words.
fn call_of(
    alloc: Global,
    kind: Kind,
    first: Sequence<u8>,
    last: &[u8],
) -> Result<Option<Call>, AllocError>
    ensures { IfOk result (λ read. (c : Call) → IsLaidOut kind first last.now c → read ≡ Some c) }
{
    match kind {
        Kind::Read => match unescaped(alloc, last)? {
            Some(text) => Ok(Some(Call::Read { name: first, text })),
            None => Ok(None),
        },
        Kind::Write => match unescaped(alloc, last)? {
            Some(text) => Ok(Some(Call::Write { name: first, text })),
            None => Ok(None),
        },
        Kind::CheckRead => Ok(Some(Call::CheckRead { name: first })),
        Kind::CheckWrite => Ok(Some(Call::CheckWrite { name: first })),
        Kind::Swap => Ok(Some(Call::Swap { text: first })),
        Kind::Arrive => match packet_in(alloc, last)? {
            Some(packet) => Ok(Some(Call::Arrive {
                device: DeviceName::copy_of(alloc, first.as_slice())?,
                packet,
            })),
            None => Ok(None),
        },
        Kind::Poll => match packets_in(alloc, last)? {
            Some(taken) => Ok(Some(Call::Poll {
                device: DeviceName::copy_of(alloc, first.as_slice())?,
                taken,
            })),
            None => Ok(None),
        },
        Kind::Round => Ok(Some(Call::Round)),
        Kind::Transmit => Ok(Some(Call::Transmit {
            device: DeviceName::copy_of(alloc, first.as_slice())?,
        })),
    }
}
