//! The two ends of a session: the source of its bytes and the sink of its replies. Unlike readers
//! and writers of std, they record for contracts whether a call has failed.

ghost use Rattle.std.specs.Prelude.{◌≡◌, ◌+◌, ◌≤◌, ◌<◌, ◌||◌, length, is_err, IfOk, OnOk, OnErr, true};
ghost use Rattle.std.specs.Io.KnownBytes.{ReadConsumes, WriteAppends};

use thiserror::Error;

/// The error of a read or a write.
#[derive(Clone, Copy, Debug, PartialEq, Eq, Error)]
#[error("a read or a write failed")]
pub struct Failed;

/// A source of bytes.
pub trait Source {
    ghost use Rattle.click_streams.specs.Peers.{Input};

    /// The bytes still to come, whether a read has failed, and how many reads have not.
    ghost input: { Self → Input };

    /// Puts the next bytes into `piece` and returns how many: 0 at the end of the input only.
    ///
    /// The piece has room for at least one byte. Any error is a failure, after which every read
    /// fails.
    fn read(&mut self, piece: &mut [u8]) -> Result<usize, Failed>
        requires { 0 < length piece.old }
        ensures bound { IfOk result (λ n. n ≤ length piece.new) }
        ensures bytes { ReadConsumes (input self.old).remaining (input self.new).remaining result piece.new }
        ensures counted { OnOk result ((input self.new).reads ≡ (input self.old).reads + 1) }
        ensures bad_count { OnErr result ((input self.new).reads ≡ (input self.old).reads) }
        ensures stays { (input self.old).failed ≡ true → is_err result ≡ true }
        ensures failed { (input self.new).failed ≡ ((input self.old).failed || is_err result) };
}

/// A sink of bytes.
pub trait Sink {
    ghost use Rattle.click_streams.specs.Peers.{Output};

    /// The bytes that were taken, and whether a write has failed.
    ghost output: { Self → Output };

    /// Takes at least one of the bytes and returns how many it took.
    ///
    /// There is at least one byte. Any error is a failure, and so is a write that takes no byte.
    /// After a failure every write fails.
    fn write(&mut self, bytes: &[u8]) -> Result<usize, Failed>
        requires { 0 < length bytes.now }
        ensures bound { IfOk result (λ n. n ≤ length bytes.now) }
        ensures some { IfOk result (λ n. 0 < n) }
        ensures bytes { WriteAppends (output self.old).contents (output self.new).contents result bytes.now }
        ensures stays { (output self.old).failed ≡ true → is_err result ≡ true }
        ensures failed { (output self.new).failed ≡ ((output self.old).failed || is_err result) };
}
