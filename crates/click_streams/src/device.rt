//! Readers and writers of std as a session's source and sink, which record failures.

ghost use Rattle.std.specs.Prelude.{◌≡◌, ◌+◌, ◌≤◌, ◌<◌, ◌||◌, length, is_err, IfOk, OnOk, OnErr, true, false};
ghost use Rattle.std.specs.Io.KnownBytes.{ReadConsumes, WriteAppends};
ghost use Rattle.click_streams.specs.Devices.{ReadsOnce, WritesOnce};

use crate::peer::{Failed, Sink, Source};
use std::io::{self, Read, Write};
use std::marker::Model;

/// The device that a source reads from.
///
/// A read is described by a relation of its own (`reads`), so that a contract can say that exactly
/// one read was made.
pub trait InputDevice {
    ghost use Rattle.std.specs.Prelude.{ℕ, List, Option, Result};
    ghost use Rattle.std.specs.declared.io.Error.{Error};

    /// The bytes still to come, if they are known.
    ghost remaining: { Self → Option (List ℕ) };

    /// The effect of one read: the device before it, its result, the content of the piece after it,
    /// and the device after it.
    ghost reads: { Self → Result ℕ Error → List ℕ → Self → Type 0 };

    /// Makes one read, and returns the number of bytes that it put into `piece`.
    fn read_once(&mut self, piece: &mut [u8]) -> io::Result<usize>
        ensures bound { IfOk result (λ n. n ≤ length piece.new) }
        ensures bytes { ReadConsumes (remaining self.old) (remaining self.new) result piece.new }
        ensures once { reads self.old result piece.new self.new };
}

/// The device that a sink writes to.
///
/// A write is described by a relation of its own (`writes`), so that a contract can say that
/// exactly one write was made.
pub trait OutputDevice {
    ghost use Rattle.std.specs.Prelude.{ℕ, List, Option, Result};
    ghost use Rattle.std.specs.declared.io.Error.{Error};

    /// The bytes that were taken, if they are known.
    ghost contents: { Self → Option (List ℕ) };

    /// The effect of one write: the device before it, its result, the bytes that it was given, and
    /// the device after it.
    ghost writes: { Self → Result ℕ Error → List ℕ → Self → Type 0 };

    /// Makes one write, and returns the number of bytes that were taken.
    fn write_once(&mut self, bytes: &[u8]) -> io::Result<usize>
        ensures bound { IfOk result (λ n. n ≤ length bytes.now) }
        ensures bytes { WriteAppends (contents self.old) (contents self.new) result bytes.now }
        ensures once { writes self.old result bytes.now self.new };
}

impl<R: Read> InputDevice for R {
    ghost remaining = { λ reader. R.remaining reader };

    ghost reads = { λ old answer piece new. ReadConsumes (R.remaining old) (R.remaining new) answer piece };

    fn read_once(&mut self, piece: &mut [u8]) -> io::Result<usize> {
        self.read(piece)
    }
}

impl<W: Write> OutputDevice for W {
    ghost contents = { λ writer. W.contents writer };

    ghost writes = { λ old answer bytes new. WriteAppends (W.contents old) (W.contents new) answer bytes };

    fn write_once(&mut self, bytes: &[u8]) -> io::Result<usize> {
        self.write(bytes)
    }
}

/// A source that reads from a device.
///
/// After 2^64 - 1 reads every read fails, so that the count of reads never wraps.
#[derive(Drop)]
pub struct Reading<D> {
    device: D,
    failed: bool,
    /// The number of reads that did not fail.
    reads: u64,
}

impl<D> Model for Reading<D> {
    ghost use Rattle.click_streams.specs.Devices.{WatchedReader};

    ghost Value = { WatchedReader D };

    ghost view = { λ r. record { device = r.device; failed = r.failed; reads = r.reads } };
}

/// A sink that writes to a device.
#[derive(Drop)]
pub struct Writing<D> {
    device: D,
    failed: bool,
}

impl<D> Model for Writing<D> {
    ghost use Rattle.click_streams.specs.Devices.{WatchedWriter};

    ghost Value = { WatchedWriter D };

    ghost view = { λ w. record { device = w.device; failed = w.failed } };
}

impl<D> Reading<D> {
    /// Returns a source that has neither read nor failed.
    pub fn new(device: D) -> Self
        ensures { result ≡ record { device = device; failed = false; reads = 0 } }
    {
        Reading {
            device,
            failed: false,
            reads: 0,
        }
    }

    /// Borrows the device.
    pub fn device(&self) -> &D
        ensures { result.now ≡ self.now.device }
    {
        &self.device
    }

    /// Returns the device.
    pub fn into_inner(self) -> D
        ensures { result ≡ self.device }
    {
        let Reading { device, .. } = self;
        device
    }
}

impl<D: InputDevice> Source for Reading<D> {
    ghost input = { λ reading. record { remaining = D.remaining reading.device; failed = reading.failed; reads = reading.reads } };

    fn read(&mut self, piece: &mut [u8]) -> Result<usize, Failed>
        requires { 0 < length piece.old }
        ensures bound { IfOk result (λ n. n ≤ length piece.new) }
        ensures bytes { ReadConsumes (D.remaining self.old.device) (D.remaining self.new.device) result piece.new }
        ensures counted { OnOk result (self.new.reads ≡ self.old.reads + 1) }
        ensures bad_count { OnErr result (self.new.reads ≡ self.old.reads) }
        ensures stays { self.old.failed ≡ true → is_err result ≡ true }
        ensures failed { self.new.failed ≡ (self.old.failed || is_err result) }
        // Makes exactly one read of the device, and fails only if that read fails. After a failure,
        // or after 2^64 - 1 reads, it fails without a read.
        ensures once { ReadsOnce D.reads self.old self.new result piece.new }
    {
        if self.failed || self.reads == u64::MAX {
            self.failed = true;
            return Err(Failed);
        }
        match self.device.read_once(piece) {
            Ok(n) => {
                self.reads += 1;
                Ok(n)
            }
            Err(_) => {
                self.failed = true;
                Err(Failed)
            }
        }
    }
}

impl<D> Writing<D> {
    /// Returns a sink that has not failed.
    pub fn new(device: D) -> Self
        ensures { result ≡ record { device = device; failed = false } }
    {
        Writing {
            device,
            failed: false,
        }
    }

    /// Returns the device.
    pub fn into_inner(self) -> D
        ensures { result ≡ self.device }
    {
        let Writing { device, failed: _ } = self;
        device
    }
}

impl<D: OutputDevice> Sink for Writing<D> {
    ghost output = { λ writing. record { contents = D.contents writing.device; failed = writing.failed } };

    fn write(&mut self, bytes: &[u8]) -> Result<usize, Failed>
        requires { 0 < length bytes.now }
        ensures bound { IfOk result (λ n. n ≤ length bytes.now) }
        ensures some { IfOk result (λ n. 0 < n) }
        ensures bytes { WriteAppends (D.contents self.old.device) (D.contents self.new.device) result bytes.now }
        ensures stays { self.old.failed ≡ true → is_err result ≡ true }
        ensures failed { self.new.failed ≡ (self.old.failed || is_err result) }
        // Makes exactly one write of the device, and fails only if that write fails or takes no
        // byte. After a failure it fails without a write.
        ensures once { WritesOnce D.writes self.old self.new result bytes.now }
    {
        if self.failed {
            return Err(Failed);
        }
        match self.device.write_once(bytes) {
            Ok(n) if n > 0 => Ok(n),
            Ok(_) | Err(_) => {
                self.failed = true;
                Err(Failed)
            }
        }
    }
}
