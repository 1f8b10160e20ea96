//! Parsing a line as a call.

use click_base::sequence::Sequence;
use click_lines::{HexFault, packet_of};
use click_packet::StoredPacket;
use click_router::{Call, DeviceName};
use memchr::memchr;
use std::alloc::{AllocError, Global};
use thiserror::Error;

/// The reason why a line is not a call.
#[derive(Clone, Copy, Debug, PartialEq, Eq, Error)]
pub enum LineFault {
    #[error("out of memory")]
    NoMemory,
    #[error("the line has more than 131072 bytes")]
    TooLong,
    #[error("the first word is not a call")]
    UnknownCall,
    #[error("a field is missing")]
    MissingField,
    #[error("a field is empty; separate fields by single spaces")]
    EmptyField,
    #[error("the line has more fields than its call takes")]
    TooManyFields,
    #[error("{0}")]
    Packet(HexFault),
}

impl From<AllocError> for LineFault {
    fn from(_error: AllocError) -> LineFault {
        LineFault::NoMemory
    }
}

impl From<HexFault> for LineFault {
    fn from(fault: HexFault) -> LineFault {
        match fault {
            HexFault::NoMemory => LineFault::NoMemory,
            _ => LineFault::Packet(fault),
        }
    }
}

/// Parses the call of a line, which has no line end.
pub fn call_of(alloc: Global, line: &[u8]) -> Result<Call, LineFault> {
    let (word, rest) = cut(line);
    match word {
        b"arrive" => arrive_of(alloc, rest),
        b"poll" => poll_of(alloc, rest),
        b"round" => {
            ended(rest)?;
            Ok(Call::Round)
        }
        b"transmit" => {
            let (device, rest) = field(rest)?;
            ended(rest)?;
            Ok(Call::Transmit {
                device: DeviceName::copy_of(alloc, device)?,
            })
        }
        b"read" => {
            let (name, text) = named_text(alloc, rest)?;
            Ok(Call::Read { name, text })
        }
        b"write" => {
            let (name, text) = named_text(alloc, rest)?;
            Ok(Call::Write { name, text })
        }
        b"checkread" => Ok(Call::CheckRead {
            name: only_name(alloc, rest)?,
        }),
        b"checkwrite" => Ok(Call::CheckWrite {
            name: only_name(alloc, rest)?,
        }),
        b"swap" => Ok(Call::Swap {
            text: Sequence::copy_of(alloc, rest.unwrap_or(b""))?,
        }),
        _ => Err(LineFault::UnknownCall),
    }
}

/// Splits a line at its first space into what is before it and what is after it, if it has a space.
fn cut(line: &[u8]) -> (&[u8], Option<&[u8]>) {
    match memchr(b' ', line) {
        None => (line, None),
        Some(space) => (&line[..space], Some(&line[space + 1..])),
    }
}

/// Splits off the next field. There must be one, and it must not be empty.
fn field(rest: Option<&[u8]>) -> Result<(&[u8], Option<&[u8]>), LineFault> {
    let Some(rest) = rest else {
        return Err(LineFault::MissingField);
    };
    let (field, rest) = cut(rest);
    if field.is_empty() {
        return Err(LineFault::EmptyField);
    }
    Ok((field, rest))
}

/// Fails unless no field is left.
fn ended(rest: Option<&[u8]>) -> Result<(), LineFault> {
    match rest {
        None => Ok(()),
        Some(_) => Err(LineFault::TooManyFields),
    }
}

/// Parses the fields of `arrive`: a device and a packet.
fn arrive_of(alloc: Global, rest: Option<&[u8]>) -> Result<Call, LineFault> {
    let (device, rest) = field(rest)?;
    let (digits, rest) = field(rest)?;
    ended(rest)?;
    Ok(Call::Arrive {
        device: DeviceName::copy_of(alloc, device)?,
        packet: StoredPacket::of(alloc, &packet_of(alloc, digits)?)?,
    })
}

/// Parses the fields of `poll`: a device and its packets, possibly none.
fn poll_of(alloc: Global, rest: Option<&[u8]>) -> Result<Call, LineFault> {
    let (device, rest) = field(rest)?;
    let taken = match rest {
        None | Some([]) => Sequence::new(alloc),
        Some(_) => {
            let (list, rest) = field(rest)?;
            ended(rest)?;
            packets_of(alloc, list)?
        }
    };
    Ok(Call::Poll {
        device: DeviceName::copy_of(alloc, device)?,
        taken,
    })
}

/// Parses packets with commas between them.
fn packets_of(alloc: Global, list: &[u8]) -> Result<Sequence<StoredPacket>, LineFault> {
    let mut packets = Sequence::new(alloc);
    for digits in list.split(|byte| *byte == b',') {
        packets.push(StoredPacket::of(alloc, &packet_of(alloc, digits)?)?)?;
    }
    Ok(packets)
}

/// Parses a handler and a text; the text is the rest of the line.
fn named_text(
    alloc: Global,
    rest: Option<&[u8]>,
) -> Result<(Sequence<u8>, Sequence<u8>), LineFault> {
    let (name, text) = field(rest)?;
    Ok((
        Sequence::copy_of(alloc, name)?,
        Sequence::copy_of(alloc, text.unwrap_or(b""))?,
    ))
}

/// Parses a handler alone.
fn only_name(alloc: Global, rest: Option<&[u8]>) -> Result<Sequence<u8>, LineFault> {
    let (name, rest) = field(rest)?;
    ended(rest)?;
    Ok(Sequence::copy_of(alloc, name)?)
}
