//! Parsing a command line.

ghost use Rattle.std.specs.Prelude.{◌≡◌, ◌≤◌, length, not, IfOk, Some};
ghost use Rattle.std.specs.List.{prefix_len};
ghost use Rattle.std.specs.Str.{str_eq_ignore_ascii_case};
ghost use Rattle.click_base.specs.Blanks.{is_blank, trimmed};
ghost use Rattle.click_control.specs.Commands.{first_word, after_word, second_word, third_word, parse_line, parse_text, parse_check, parse_data, payload_line, text_command, check_command};
ghost use Rattle.click_control.specs.kept.Lines.{says, bad_count};

use crate::command::Command;
use click_base::sequence::Sequence;
use click_base::{NumberFault, decimal_number, is_blank, trimmed, without_front};
use click_router::Access;
use std::alloc::{AllocError, Global};

/// The maximum number of bytes of a payload.
const MAX_PAYLOAD_BYTES: u64 = 1_048_576;

/// The meaning of a line.
#[derive(Drop)]
pub enum ParsedLine {
    /// The line has no word.
    Blank,
    /// A command that needs no more than the line.
    Whole(Command),
    /// The line announces a payload of `count` bytes, at least one, for a handler.
    Announces {
        direction: Access,
        handler: Sequence<u8>,
        count: usize,
    },
}

/// Parses a line. The first word decides; its case does not matter.
pub fn parse_line(alloc: Global, line: &[u8]) -> Result<ParsedLine, AllocError>
    ensures { IfOk result (λ parsed. says parsed ≡ parse_line line.now) }
{
    let (word, rest) = cut(line);
    if word.is_empty() {
        Ok(ParsedLine::Blank)
    } else if is_word(word, b"READ") {
        parse_text(alloc, Access::Read, rest)
    } else if is_word(word, b"WRITE") {
        parse_text(alloc, Access::Write, rest)
    } else if is_word(word, b"READDATA") {
        parse_data(alloc, Access::Read, rest)
    } else if is_word(word, b"WRITEDATA") {
        parse_data(alloc, Access::Write, rest)
    } else if is_word(word, b"CHECKREAD") {
        parse_check(alloc, Access::Read, rest)
    } else if is_word(word, b"CHECKWRITE") {
        parse_check(alloc, Access::Write, rest)
    } else if is_word(word, b"QUIT") {
        Ok(ParsedLine::Whole(Command::Quit))
    } else {
        Ok(ParsedLine::Whole(Command::Unknown {
            word: Sequence::copy_of(alloc, word)?,
        }))
    }
}

/// Parses the rest of a line after `READ` or `WRITE`.
fn parse_text(alloc: Global, direction: Access, rest: &[u8]) -> Result<ParsedLine, AllocError>
    ensures { IfOk result (λ parsed. says parsed ≡ parse_text direction (first_word rest.now) (trimmed (after_word rest.now))) }
{
    let (handler, text) = cut(rest);
    if handler.is_empty() {
        return Ok(ParsedLine::Whole(Command::Syntax));
    }
    let handler = Sequence::copy_of(alloc, handler)?;
    let text = Sequence::copy_of(alloc, trimmed(text))?;
    Ok(ParsedLine::Whole(text_command(direction, handler, text)))
}

/// Parses the rest of a line after `CHECKREAD` or `CHECKWRITE`.
fn parse_check(alloc: Global, direction: Access, rest: &[u8]) -> Result<ParsedLine, AllocError>
    ensures { IfOk result (λ parsed. says parsed ≡ parse_check direction (first_word rest.now) (second_word rest.now)) }
{
    let (handler, rest) = cut(rest);
    let (second, _) = cut(rest);
    if handler.is_empty() || !second.is_empty() {
        return Ok(ParsedLine::Whole(Command::Syntax));
    }
    let handler = Sequence::copy_of(alloc, handler)?;
    Ok(ParsedLine::Whole(check_command(direction, handler)))
}

/// Parses the rest of a line after `READDATA` or `WRITEDATA`.
fn parse_data(alloc: Global, direction: Access, rest: &[u8]) -> Result<ParsedLine, AllocError>
    ensures { IfOk result (λ parsed. says parsed ≡ parse_data direction (first_word rest.now) (second_word rest.now) (third_word rest.now)) }
{
    let (handler, rest) = cut(rest);
    let (count, rest) = cut(rest);
    let (third, _) = cut(rest);
    if !third.is_empty() {
        return Ok(ParsedLine::Whole(Command::Syntax));
    }
    match decimal_number(count, 0, MAX_PAYLOAD_BYTES) {
        Ok(count) => payload_line(alloc, direction, handler, count as usize),
        Err(fault) => Ok(ParsedLine::Whole(bad_count(fault))),
    }
}

/// Returns the command of a line whose payload length is too great or is not a number.
fn bad_count(fault: NumberFault) -> Command
    ensures { result ≡ bad_count fault }
{
    match fault {
        NumberFault::BadNumber => Command::Syntax,
        NumberFault::OutOfRange => Command::DataTooLong,
    }
}

/// Returns the meaning of a line with a payload of `count` bytes: a whole command if `count` is 0.
fn payload_line(
    alloc: Global,
    direction: Access,
    handler: &[u8],
    count: usize,
) -> Result<ParsedLine, AllocError>
    requires { count ≤ 1048576 }
    ensures { IfOk result (λ parsed. says parsed ≡ payload_line direction handler.now (Some count)) }
{
    let handler = Sequence::copy_of(alloc, handler)?;
    if count == 0 {
        let command = text_command(direction, handler, Sequence::new(alloc));
        return Ok(ParsedLine::Whole(command));
    }
    Ok(ParsedLine::Announces {
        direction,
        handler,
        count,
    })
}

/// Returns the command that reads or writes a handler with a text.
pub fn text_command(direction: Access, handler: Sequence<u8>, text: Sequence<u8>) -> Command
    ensures { result ≡ text_command direction handler text }
{
    match direction {
        Access::Read => Command::Read { handler, text },
        Access::Write => Command::Write { handler, text },
    }
}

/// Returns the command that asks whether a handler can be read or written.
fn check_command(direction: Access, handler: Sequence<u8>) -> Command
    ensures { result ≡ check_command direction handler }
{
    match direction {
        Access::Read => Command::CheckRead { handler },
        Access::Write => Command::CheckWrite { handler },
    }
}

/// Splits a line into its first word, without the blanks before it, and the rest.
fn cut(line: &[u8]) -> (&[u8], &[u8])
    ensures word { result.0.now ≡ first_word line.now }
    ensures rest { result.1.now ≡ after_word line.now }
{
    let words = without_front(line);
    words.split_at(word_len(words))
}

/// Returns whether a word is the known one. Case does not matter.
fn is_word(word: &[u8], known: &[u8]) -> bool
    ensures { result ≡ str_eq_ignore_ascii_case word.now known.now }
{
    word.eq_ignore_ascii_case(known)
}

/// Returns the number of bytes before the first blank.
fn word_len(bytes: &[u8]) -> usize
    ensures len { result ≡ prefix_len (λ b. not (is_blank b)) bytes.now }
    ensures within { result ≤ length bytes.now }
{
    for (i, byte) in bytes.iter().enumerate() {
        if is_blank(*byte) {
            return i;
        }
    }
    bytes.len()
}
