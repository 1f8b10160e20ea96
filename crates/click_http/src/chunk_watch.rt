//! Chunks that announce more bytes than a body may have.

use crate::settings::MAX_BODY_BYTES;

/// The maximum number of bytes of a line that are kept. The lines that matter are shorter.
const LINE_BYTES: usize = 64;

/// The place of the next byte in the input of a connection.
#[derive(Clone, Copy, Debug, PartialEq, Eq)]
enum Place {
    /// In the request line.
    RequestLine,
    /// In a field line of the head.
    FieldLine,
    /// In a body whose head says its length. This number of bytes is still to come.
    Body(u64),
    /// In the line with the size of a chunk.
    SizeLine,
    /// In the data of a chunk. This number of bytes is still to come, with the end of line.
    Chunk(u64),
    /// In a field line behind the last chunk.
    TrailerLine,
    /// Behind the size of a chunk that is too long.
    TooLong,
    /// Behind something that is not understood.
    Elsewhere,
}

/// What the head of a request says about its body.
#[derive(Clone, Copy, Debug, PartialEq, Eq)]
enum Framing {
    /// Nothing: then there is no body.
    Absent,
    /// The number of its bytes.
    Length(u64),
    /// That it comes in chunks, and in no other coding.
    Chunked,
    /// Something that is not understood.
    Unclear,
}

/// Follows the requests of a connection, to see when a chunk announces too many bytes.
///
/// The server counts the bytes of a body as they come, and shows no size of a chunk. So this reads
/// heads and size lines once more (RFC 9112, sections 6 and 7.1). After input that it does not
/// understand it follows no more: then the server refuses a body once too many bytes have come.
#[derive(Drop)]
pub(crate) struct ChunkWatch {
    place: Place,
    framing: Framing,
    /// The first bytes of the line, in small letters.
    line: [u8; LINE_BYTES],
    /// The number of bytes of the line that are kept.
    len: usize,
    /// Whether the line has more bytes.
    is_cut: bool,
}

impl ChunkWatch {
    /// Returns a watch at the beginning of the first request.
    pub(crate) fn new() -> ChunkWatch {
        ChunkWatch {
            place: Place::RequestLine,
            framing: Framing::Absent,
            line: [0; LINE_BYTES],
            len: 0,
            is_cut: false,
        }
    }

    /// Returns whether a chunk has announced more bytes than a body may have.
    pub(crate) fn is_too_long(&self) -> bool {
        self.place == Place::TooLong
    }

    /// Records the next bytes of the input.
    pub(crate) fn note(&mut self, bytes: &[u8]) {
        for byte in bytes {
            self.take(*byte);
        }
    }

    /// Records the next byte.
    fn take(&mut self, byte: u8) {
        match self.place {
            Place::TooLong | Place::Elsewhere => {}
            Place::Body(left) => self.place = place_in_body(left.saturating_sub(1)),
            Place::Chunk(left) => self.place = place_in_chunk(left.saturating_sub(1)),
            _ if byte == b'\n' => self.end_line(),
            _ => self.push(byte),
        }
    }

    /// Appends a byte to the line, if there is room.
    fn push(&mut self, byte: u8) {
        if self.len < LINE_BYTES {
            self.line[self.len] = byte.to_ascii_lowercase();
            self.len += 1;
        } else {
            self.is_cut = true;
        }
    }

    /// Ends the line.
    fn end_line(&mut self) {
        let kept = self.line;
        let line = kept[..self.len.min(LINE_BYTES)].trim_ascii_end();
        let is_empty = line.is_empty() && !self.is_cut;
        self.place = match self.place {
            // An empty line before a request line is skipped (RFC 9112, section 2.2).
            Place::RequestLine if is_empty => Place::RequestLine,
            Place::RequestLine => Place::FieldLine,
            Place::FieldLine if is_empty => place_after_head(self.framing),
            Place::FieldLine => Place::FieldLine,
            Place::SizeLine => place_after_size(line),
            Place::TrailerLine if !is_empty => Place::TrailerLine,
            _ => Place::RequestLine,
        };
        self.framing = match self.place {
            Place::FieldLine => framing_after(self.framing, line, self.is_cut),
            _ => Framing::Absent,
        };
        self.len = 0;
        self.is_cut = false;
    }
}

/// Returns what is known of the body after a line of the head, which has small letters only.
fn framing_after(framing: Framing, line: &[u8], is_cut: bool) -> Framing {
    let said = if let Some(coding) = line.strip_prefix(b"transfer-encoding:") {
        if coding.trim_ascii() == b"chunked".as_slice() {
            Framing::Chunked
        } else {
            Framing::Unclear
        }
    } else if let Some(length) = line.strip_prefix(b"content-length:") {
        length_of(length.trim_ascii())
    } else {
        return framing;
    };
    if framing == Framing::Absent && !is_cut {
        said
    } else {
        Framing::Unclear
    }
}

/// Returns the length of a body that is written in decimal digits.
fn length_of(digits: &[u8]) -> Framing {
    match std::str::from_utf8(digits).map(str::parse) {
        Ok(Ok(length)) => Framing::Length(length),
        _ => Framing::Unclear,
    }
}

/// Returns the place behind the head of a request.
fn place_after_head(framing: Framing) -> Place {
    match framing {
        Framing::Absent => Place::RequestLine,
        Framing::Length(length) => place_in_body(length),
        Framing::Chunked => Place::SizeLine,
        Framing::Unclear => Place::Elsewhere,
    }
}

/// Returns the place in a body of which this number of bytes is still to come.
fn place_in_body(left: u64) -> Place {
    if left > 0 {
        Place::Body(left)
    } else {
        Place::RequestLine
    }
}

/// Returns the place in a chunk of which this number of bytes is still to come.
fn place_in_chunk(left: u64) -> Place {
    if left > 0 {
        Place::Chunk(left)
    } else {
        Place::SizeLine
    }
}

/// Returns the place behind the line with the size of a chunk, in hexadecimal digits.
fn place_after_size(line: &[u8]) -> Place {
    let (mut size, mut has_digit) = (0u64, false);
    for byte in line {
        let Some(digit) = char::from(*byte).to_digit(16) else {
            break;
        };
        has_digit = true;
        size = size.saturating_mul(16).saturating_add(u64::from(digit));
    }
    if size > MAX_BODY_BYTES {
        Place::TooLong
    } else if size > 0 {
        Place::Chunk(size + 2)
    } else if has_digit {
        Place::TrailerLine
    } else {
        Place::Elsewhere
    }
}
