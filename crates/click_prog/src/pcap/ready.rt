//! Whether the next record of a capture can be read without blocking.

ghost use Rattle.std.specs.Prelude.{◌≡◌, true};
ghost use Rattle.std.specs.Io.Buffered.{reader_buffer};
ghost use Rattle.click_prog.specs.Reading.{IsAtHand};

use click_capture::{Header, RECORD_HEADER_LEN, record_header_of};
use click_streams::Reading;
use std::io::{BufReader, Read};

/// A source that may have bytes in memory, which can be read without blocking.
///
/// These bytes decide when packets are written, and never which packets.
pub trait Ready {
    ghost use Rattle.std.specs.Prelude.{ℕ, List};

    /// The bytes that can be read without blocking.
    ghost at_hand: { Self → List ℕ };

    /// Borrows the bytes that can be read without blocking.
    fn ready(&self) -> &[u8]
        ensures { result.now ≡ at_hand self.now };
}

impl<R: Read> Ready for Reading<BufReader<R>> {
    ghost at_hand = { λ reading. reader_buffer reading.device };

    fn ready(&self) -> &[u8] {
        self.device().buffer()
    }
}

/// Returns whether the next record can be read from these bytes alone.
pub fn is_complete(header: &Header, ready: &[u8]) -> bool
    ensures { result ≡ true → IsAtHand header.now ready.now }
{
    if ready.len() < RECORD_HEADER_LEN {
        return false;
    }
    match record_header_of(header, &ready[..RECORD_HEADER_LEN]) {
        Ok(head) => head.kept as usize <= ready.len() - RECORD_HEADER_LEN,
        Err(_too_long) => true,
    }
}
