//! Calls as steps have them, and their replies.

ghost use Rattle.std.specs.Prelude.{◌≡◌, false, IfOk};
ghost use Rattle.click_router.specs.Polls.{is_poll};

use crate::script::{Trouble, cut};
use click_base::sequence::Sequence;
use click_desk::DeskFault;
use click_lines::{HexFault, packet_of, push_words, reply_text};
use click_packet::StoredPacket;
use click_router::{Call, DeviceName, Reply};
use std::alloc::{AllocError, Global};

/// Returns the call of these words, never a Poll.
pub fn call_of(alloc: Global, words: &[u8]) -> Result<Call, Trouble>
    ensures { IfOk result (λ call. is_poll call ≡ false) }
{
    let (word, rest) = cut(words, b' ');
    match word {
        b"read" => {
            let (name, text) = named_text(alloc, rest)?;
            Ok(Call::Read { name, text })
        }
        b"write" => {
            let (name, text) = named_text(alloc, rest)?;
            Ok(Call::Write { name, text })
        }
        b"checkread" => Ok(Call::CheckRead {
            name: Sequence::copy_of(alloc, rest)?,
        }),
        b"checkwrite" => Ok(Call::CheckWrite {
            name: Sequence::copy_of(alloc, rest)?,
        }),
        b"swap" => Ok(Call::Swap {
            text: Sequence::copy_of(alloc, rest)?,
        }),
        b"arrive" => {
            let (device, digits) = cut(rest, b' ');
            Ok(Call::Arrive {
                device: DeviceName::copy_of(alloc, device)?,
                packet: stored_packet(alloc, digits)?,
            })
        }
        b"round" if rest.is_empty() => Ok(Call::Round),
        b"transmit" => Ok(Call::Transmit {
            device: DeviceName::copy_of(alloc, rest)?,
        }),
        _ => Err(Trouble::Malformed),
    }
}

/// Returns a handler's name and the text after it.
fn named_text(alloc: Global, words: &[u8]) -> Result<(Sequence<u8>, Sequence<u8>), AllocError> {
    let (name, text) = cut(words, b' ');
    Ok((
        Sequence::copy_of(alloc, name)?,
        Sequence::copy_of(alloc, text)?,
    ))
}

/// Returns the packet of these hex digits.
pub fn stored_packet(alloc: Global, digits: &[u8]) -> Result<StoredPacket, Trouble> {
    match packet_of(alloc, digits) {
        Ok(packet) => Ok(StoredPacket::of(alloc, &packet)?),
        Err(HexFault::NoMemory) => Err(Trouble::NoMemory),
        Err(_) => Err(Trouble::Malformed),
    }
}

/// Returns the text of a reply.
///
/// If the expected reply begins with `text `, a value is shown as its escaped bytes.
pub fn reply_shown(
    alloc: Global,
    reply: &Result<Reply, DeskFault>,
    wanted: &[u8],
) -> Result<Vec<u8>, AllocError> {
    match reply {
        Ok(Reply::Value(bytes)) if cut(wanted, b' ').0 == b"text".as_slice() => {
            let mut shown = Vec::from_slice(alloc, b"text ")?;
            push_words(&mut shown, bytes.as_slice())?;
            Ok(shown)
        }
        Ok(reply) => reply_text(alloc, reply),
        Err(DeskFault::HistoryFull) => Vec::from_slice(alloc, b"history full"),
        Err(DeskFault::NoMemory) => Vec::from_slice(alloc, b"out of memory"),
    }
}
