//! A reply as text, and as a line.

ghost use Rattle.std.specs.Prelude.{◌≡◌, ◌++◌, IfOk, OnOk, decimal};
ghost use Rattle.click_lines.specs.ReplyLine.{reply_line, reply_text, sent_text};

use crate::digits::hex_text;
use click_handlers::push_dotted;
use click_packet::Packet;
use click_router::{Refusal, Reply};
use itoa::Buffer;
use std::alloc::{AllocError, Global};

/// Returns the text of a reply, without a line end.
pub fn reply_text(alloc: Global, reply: &Reply) -> Result<Vec<u8>, AllocError>
    ensures { IfOk result (λ line. line.items ≡ reply_text reply.now) }
{
    match reply {
        Reply::Value(bytes) => {
            let mut line = Vec::from_slice(alloc, b"value ")?;
            line.extend_from_slice(&hex_text(alloc, bytes.as_slice())?)?;
            Ok(line)
        }
        Reply::Refused(Refusal::NoElement) => Vec::from_slice(alloc, b"refused NoElement"),
        Reply::Refused(Refusal::NoHandler) => Vec::from_slice(alloc, b"refused NoHandler"),
        Reply::Refused(Refusal::WrongWay) => Vec::from_slice(alloc, b"refused WrongWay"),
        Reply::Refused(Refusal::Handler(fault)) => {
            complaint(alloc, b"refused Handler ", fault.text())
        }
        Reply::Refused(Refusal::Config(fault)) => {
            complaint(alloc, b"refused Config ", &fault.text(alloc)?)
        }
        Reply::Done => Vec::from_slice(alloc, b"done"),
        Reply::Entered(count) => counted_text(alloc, b"entered ", *count),
        Reply::Worked(count) => counted_text(alloc, b"worked ", *count),
        Reply::Sent(Some(packet)) => sent_text(alloc, packet),
        Reply::Sent(None) => Vec::from_slice(alloc, b"sent none"),
        Reply::NoDevice => Vec::from_slice(alloc, b"nodevice"),
    }
}

/// Returns the line of a reply, with its line end.
pub fn reply_line(alloc: Global, reply: &Reply) -> Result<Vec<u8>, AllocError>
    ensures { IfOk result (λ line. line.items ≡ reply_line reply.now) }
{
    let mut line = reply_text(alloc, reply)?;
    line.push(b'\n')?;
    Ok(line)
}

/// Returns a word and the text of a fault.
fn complaint(alloc: Global, word: &[u8], fault: &[u8]) -> Result<Vec<u8>, AllocError>
    ensures { IfOk result (λ line. line.items ≡ word.now ++ fault.now) }
{
    let mut line = Vec::from_slice(alloc, word)?;
    line.extend_from_slice(fault)?;
    Ok(line)
}

/// Returns a word and a number.
fn counted_text(alloc: Global, word: &[u8], count: u64) -> Result<Vec<u8>, AllocError>
    ensures { IfOk result (λ line. line.items ≡ word.now ++ decimal count) }
{
    let mut line = Vec::from_slice(alloc, word)?;
    push_number(&mut line, count)?;
    Ok(line)
}

/// Returns the text for a packet that was sent: its bytes, its paint and its destination.
fn sent_text(alloc: Global, packet: &Packet) -> Result<Vec<u8>, AllocError>
    ensures { IfOk result (λ line. line.items ≡ sent_text packet.now) }
{
    let mut line = Vec::from_slice(alloc, b"sent ")?;
    line.extend_from_slice(&hex_text(alloc, packet.bytes())?)?;
    line.extend_from_slice(b" ")?;
    push_number(&mut line, u64::from(packet.paint()))?;
    line.extend_from_slice(b" ")?;
    push_dotted(&mut line, packet.destination())?;
    Ok(line)
}

/// Appends a number in decimal digits.
pub fn push_number(line: &mut Vec<u8>, number: u64) -> Result<(), AllocError>
    ensures { OnOk result (line.new.items ≡ line.old.items ++ decimal number) }
{
    let mut digits = Buffer::new();
    line.extend_from_slice(digits.format(number).as_bytes())?;
    Ok(())
}
