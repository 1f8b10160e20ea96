//! The door, through which sessions come in.

use crate::observer::Observer;
use click_control::{Ended, ServeFault};
use click_streams::{Sink, Source};

/// A source of sessions, and their observer. The thread of each session enters by itself, and may
/// block there.
pub trait Door: Observer + Sync {
    ghost use Rattle.std.specs.Prelude.{ℕ, Option};

    /// The reader of a session.
    ///
    /// It is created and dropped in the session's own thread. The bound is `Drop + Send`, because
    /// `Drop` alone would hold for one thread only.
    type Reader: Source + Drop + Send;

    /// The writer of a session.
    type Writer: Sink + Drop + Send;

    /// What the session of a number, from 1, may get: a reader and a writer, or nothing.
    ghost lets_in: { Self → ℕ → Option (Self.Reader × Self.Writer) → Type 0 };

    /// Lets in the session with the number `who`. Returns its reader and its writer, or `None` if
    /// it cannot come in.
    fn enter(&self, who: usize) -> Option<(Self::Reader, Self::Writer)>
        ensures { lets_in self.now who result };

    /// Takes back the reader and the writer of session `who`, which has ended in this way. May
    /// block for a bounded time.
    ///
    /// Without an implementation it drops the reader and the writer.
    fn leave(
        &self,
        _who: usize,
        _ended: &Result<Ended, ServeFault>,
        _reader: Self::Reader,
        _writer: Self::Writer,
    ) {}
}
