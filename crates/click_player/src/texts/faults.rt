//! The texts of faults. The words name a fault of one layer, whether or not a configuration can
//! have it.

use super::stop::Stop;
use super::words::read_number;
use crate::script::{cut, number_of};
use click_classes::{ArgFault, Side};
use click_packet::TooLong;
use click_ports::{FaultKind as PortKind, PortFault};
use click_text::syntax::{FaultKind as TextKind, Span, TextFault};
use std::alloc::Global;

/// Returns the text of a fault.
///
/// The words are `text KIND START END`, `argument KIND`, `port KIND ELEMENT SIDE NUMBER` or
/// `packet TooLong`.
pub fn show_fault(alloc: Global, words: &[u8]) -> Result<Vec<u8>, Stop> {
    let (layer, rest) = cut(words, b' ');
    let text = match layer {
        b"text" => format!(in alloc; "{}", text_fault(rest)?)?,
        b"argument" => format!(in alloc; "{}", argument_fault(rest)?)?,
        b"port" => format!(in alloc; "{}", port_fault(rest)?)?,
        b"packet" => format!(in alloc; "{}", packet_fault(rest)?)?,
        _ => return Err(Stop::Malformed),
    };
    Ok(text.into_bytes())
}

fn text_fault(words: &[u8]) -> Result<TextFault, Stop> {
    let (kind, rest) = cut(words, b' ');
    let (start, rest) = read_number(rest)?;
    let end = number_of(rest)?;
    Ok(TextFault {
        kind: text_kind(kind)?,
        span: Span { start, end },
    })
}

fn text_kind(name: &[u8]) -> Result<TextKind, Stop> {
    match name {
        b"BadByte" => Ok(TextKind::BadByte),
        b"UnclosedComment" => Ok(TextKind::UnclosedComment),
        b"UnclosedString" => Ok(TextKind::UnclosedString),
        b"Unexpected" => Ok(TextKind::Unexpected),
        b"TooDeep" => Ok(TextKind::TooDeep),
        b"TooLarge" => Ok(TextKind::TooLarge),
        b"NoMemory" => Ok(TextKind::NoMemory),
        _ => Err(Stop::Malformed),
    }
}

fn argument_fault(name: &[u8]) -> Result<ArgFault, Stop> {
    match name {
        b"NoMemory" => Ok(ArgFault::NoMemory),
        b"ArgumentCount" => Ok(ArgFault::ArgumentCount),
        b"BadNumber" => Ok(ArgFault::BadNumber),
        b"BadText" => Ok(ArgFault::BadText),
        b"OutOfRange" => Ok(ArgFault::OutOfRange),
        b"BadAddress" => Ok(ArgFault::BadAddress),
        b"BadEntry" => Ok(ArgFault::BadEntry),
        _ => Err(Stop::Malformed),
    }
}

fn port_fault(words: &[u8]) -> Result<PortFault, Stop> {
    let (kind, rest) = cut(words, b' ');
    let (element, rest) = read_number(rest)?;
    let (side, rest) = cut(rest, b' ');
    let number = number_of(rest)?;
    Ok(PortFault {
        kind: port_kind(kind)?,
        element,
        side: side_of(side)?,
        number: u16::try_from(number).ok().ok_or(Stop::Malformed)?,
    })
}

fn port_kind(name: &[u8]) -> Result<PortKind, Stop> {
    match name {
        b"NoMemory" => Ok(PortKind::NoMemory),
        b"Count" => Ok(PortKind::Count),
        b"Unused" => Ok(PortKind::Unused),
        b"Twice" => Ok(PortKind::Twice),
        b"Mixed" => Ok(PortKind::Mixed),
        _ => Err(Stop::Malformed),
    }
}

fn side_of(name: &[u8]) -> Result<Side, Stop> {
    match name {
        b"input" => Ok(Side::Input),
        b"output" => Ok(Side::Output),
        _ => Err(Stop::Malformed),
    }
}

fn packet_fault(name: &[u8]) -> Result<TooLong, Stop> {
    if name == b"TooLong".as_slice() {
        Ok(TooLong)
    } else {
        Err(Stop::Malformed)
    }
}
