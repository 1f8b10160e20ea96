//! A line of the log.

use arrayvec::ArrayVec;
use itoa::Buffer;
use jiff::Timestamp;
use std::fmt::{self, Write as _};
use std::io::Write;

/// The maximum number of bytes of a line, with its end. Each line has fewer: see the numbers of
/// bytes of a name and of a fault.
const MAX_LINE_BYTES: usize = 1_024;

/// The maximum number of bytes of a fault. The rest is left out.
const MAX_FAULT_BYTES: usize = 160;

/// A line of the log: the time, whose event it is, and what happened, as `key=value` words.
#[derive(Drop)]
pub struct LogLine {
    bytes: ArrayVec<u8, MAX_LINE_BYTES>,
}

impl LogLine {
    /// Returns a line that begins with this time, or with `-` without a time.
    pub fn begin(time: Option<Timestamp>) -> LogLine {
        let mut line = LogLine {
            bytes: ArrayVec::new(),
        };
        match time {
            // A line has room for it.
            Some(time) => drop(write!(line.bytes, "{time:.3}")),
            None => line.push("-"),
        }
        line
    }

    /// Appends a text.
    pub fn push(&mut self, text: &str) {
        // A line has room for it.
        let _ = self.bytes.write_all(text.as_bytes());
    }

    /// Appends a word, and a number in decimal digits.
    pub fn push_number(&mut self, word: &str, number: u64) {
        self.push(word);
        self.push(Buffer::new().format(number));
    }

    /// Appends the name of a handler. A byte that is not a printable character, or that would end
    /// the word or look like another one, is written as `\x` and two hexadecimal digits.
    pub fn push_name(&mut self, name: &[u8]) {
        for byte in name {
            let is_plain = byte.is_ascii_graphic() && !matches!(*byte, b'"' | b'\\' | b'=');
            self.push_escaped(*byte, is_plain);
        }
    }

    /// Appends a fault between quotes. Its end is left out if it is too long.
    pub fn push_fault<D: fmt::Display + Drop>(&mut self, fault: D) {
        self.push(" fault=\"");
        let mut quoted = Quoted {
            line: self,
            bytes_left: MAX_FAULT_BYTES,
        };
        let is_cut = write!(quoted, "{fault}").is_err();
        if is_cut {
            self.push("...");
        }
        self.push("\"");
    }

    /// Appends a byte, escaped if it is not plain.
    fn push_escaped(&mut self, byte: u8, is_plain: bool) {
        let piece = [byte];
        // A line has room for it.
        let _ = if is_plain {
            self.bytes.write_all(&piece)
        } else {
            write!(self.bytes, "\\x{byte:02x}")
        };
    }

    /// Returns the bytes of the line, with its end.
    pub fn ended(&mut self) -> &[u8] {
        self.push("\n");
        self.bytes.as_slice()
    }
}

/// The inside of a pair of quotes in a line, with the number of bytes that it may still take.
#[derive(Drop)]
struct Quoted<'a> {
    line: &'a mut LogLine,
    bytes_left: usize,
}

impl fmt::Write for Quoted<'_> {
    /// Fails if the text is cut.
    fn write_str(&mut self, text: &str) -> fmt::Result {
        for byte in text.as_bytes() {
            if self.bytes_left == 0 {
                return Err(fmt::Error);
            }
            self.bytes_left -= 1;
            let is_plain = matches!(*byte, b' '..=b'~') && !matches!(*byte, b'"' | b'\\');
            self.line.push_escaped(*byte, is_plain);
        }
        Ok(())
    }
}
