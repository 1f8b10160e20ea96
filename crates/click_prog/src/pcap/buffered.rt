//! A buffer in front of a sink.
//!
//! perf: one write of the sink takes many bytes.

ghost use Rattle.std.specs.Prelude.{◌≡◌, ◌+◌, ◌<◌, ◌≤◌, [], ◌++◌, length, drop, is_err, OnOk, OnErr, true, false, vec_len, vec_capacity};
ghost use Rattle.click_streams.specs.Peers.{HasWritten};
ghost use Rattle.click_prog.specs.Buffers.{taken, Grew};

use click_streams::{Failed, Sink};
use std::marker::{Brand, Model, PhantomData};

/// The maximum number of bytes in a buffer.
pub const BUFFER_BYTES: usize = 65_536;

/// What a sink held when its buffer was made, as ghost state of a type.
pub trait SinkStart {
    ghost use Rattle.std.specs.Prelude.{ℕ, List, Option};

    ghost held: { Option (List ℕ) };
}

impl SinkStart for Brand {
    ghost use Rattle.std.specs.Prelude.{None};

    ghost held = { None };
}

/// A sink with a buffer of bytes that are not written yet. They are written when the buffer is
/// full, and by `flush`. By its invariant the sink still begins with what it held when the buffer
/// was made.
#[derive(Drop)]
pub struct Buffered<O: Sink, B: SinkStart> {
    sink: O,
    held: Vec<u8>,
    /// Whether a write of the sink has failed.
    failed: bool,
    of: PhantomData<B>,
}

impl<O: Sink, B: SinkStart> Model for Buffered<O, B> {
    ghost use Rattle.std.specs.Prelude.{◌≡◌, ◌≤◌, vec_capacity};
    ghost use Rattle.click_prog.specs.Buffers.{BufferState, Grew};

    ghost Value = { BufferState O };

    ghost view = { λ b. record { sink = b.sink; held = b.held.items } };

    ghost invariant = { λ b. (b.failed ≡ (O.output b.sink).failed) × (65536 ≤ vec_capacity b.held) × Grew B.held (O.output b.sink).contents };
}

impl<O: Sink, B: SinkStart> Buffered<O, B> {
    /// Returns a buffer that uses the memory of an empty vector, all that it ever needs.
    pub fn new(held: Vec<u8>, sink: O) -> Self
        requires empty { held.items ≡ [] }
        requires room { 65536 ≤ vec_capacity held }
        requires good { (O.output sink).failed ≡ false }
        requires start { B.held ≡ (O.output sink).contents }
        ensures { (result.sink ≡ sink) × (result.held ≡ []) }
    {
        Buffered {
            sink,
            held,
            failed: false,
            of: PhantomData,
        }
    }

    /// Returns the sink. Bytes that are still in the buffer are lost.
    pub fn into_sink(self) -> O
        ensures same { result ≡ self.sink }
        ensures grew { Grew B.held (O.output result).contents }
    {
        let Buffered {
            sink,
            held: _,
            failed: _,
            of: _,
        } = self;
        sink
    }

    /// Writes the whole buffer, in as many writes as necessary.
    ///
    /// After a failure the rest is still in the buffer, and every further flush fails.
    pub fn flush(&mut self) -> Result<(), Failed>
        ensures ok { OnOk result (HasWritten (taken O.output self.old) (taken O.output self.new) [] false) }
        ensures empty { OnOk result (self.new.held ≡ []) }
        ensures err { OnErr result (HasWritten (taken O.output self.old) (taken O.output self.new) [] true) }
        ensures stays { (O.output self.old.sink).failed ≡ true → is_err result ≡ true }
    {
        if self.failed {
            return Err(Failed);
        }
        while !self.held.is_empty() {
            match self.sink.write(&self.held) {
                Ok(n) => remove_front(&mut self.held, n),
                Err(Failed) => {
                    self.failed = true;
                    return Err(Failed);
                }
            }
        }
        Ok(())
    }

    /// Writes the buffer if it has no room for another byte.
    fn make_room(&mut self) -> Result<(), Failed>
        ensures ok { OnOk result (HasWritten (taken O.output self.old) (taken O.output self.new) [] false) }
        ensures room { OnOk result (length self.new.held < 65536) }
        ensures err { OnErr result (HasWritten (taken O.output self.old) (taken O.output self.new) [] true) }
        ensures stays { (O.output self.old.sink).failed ≡ true → is_err result ≡ true }
    {
        if self.failed {
            return Err(Failed);
        }
        if self.held.len() < BUFFER_BYTES {
            return Ok(());
        }
        self.flush()
    }
}

impl<O: Sink, B: SinkStart> Sink for Buffered<O, B> {
    ghost output = { λ b. taken O.output b };

    fn write(&mut self, bytes: &[u8]) -> Result<usize, Failed> {
        if let Err(Failed) = self.make_room() {
            return Err(Failed);
        }
        let count = bytes.len().min(BUFFER_BYTES - self.held.len());
        append(&mut self.held, &bytes[..count]);
        Ok(count)
    }
}

/// Removes the first `count` bytes.
fn remove_front(held: &mut Vec<u8>, count: usize)
    requires { count ≤ vec_len held.old }
    ensures items { held.new.items ≡ drop count held.old.items }
    ensures capacity { vec_capacity held.new ≡ vec_capacity held.old }
{
    let len = held.len();
    held.as_mut_slice().copy_within(count..len, 0);
    held.truncate(len - count);
}

/// Appends bytes for which there is room.
fn append(held: &mut Vec<u8>, bytes: &[u8])
    requires { vec_len held.old + length bytes.now ≤ vec_capacity held.old }
    ensures items { held.new.items ≡ held.old.items ++ bytes.now }
    ensures capacity { vec_capacity held.old ≤ vec_capacity held.new }
{
    let Ok(()) = held.extend_from_slice(bytes) else {
        unreachable!()
    };
}
