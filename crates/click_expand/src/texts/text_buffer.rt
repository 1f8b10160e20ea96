//! The buffer in which the texts of elements are written, and the arguments in it.

ghost use Rattle.std.specs.Prelude.{◌≡◌, ◌<◌, ◌≤◌, ◌+◌, ◌++◌, [], length, drop, true, false, Some, IfOk, OnOk, OnErr, if◌then◌else◌};
ghost use Rattle.std.specs.Map.{lookup};
ghost use Rattle.click_text.specs.Spans.{bytes_at};
ghost use Rattle.click_expand.specs.declared.texts.parameter_values.Argument.{Argument};
ghost use Rattle.click_expand.specs.kept.Buffered.{same_argument};

use crate::texts::parameter_values::Argument;
use click_text::syntax::Span;
use indexmap::IndexMap;
use std::alloc::{AllocError, Global};

/// The maximum number of bytes of the texts of all flat elements.
pub const MAX_FLAT_TEXT_BYTES: usize = 1_048_576;

/// The texts of elements, one after another, and the number of bytes that may still be added.
///
/// perf: `values` has the span of each argument that was written, so that it is not read again.
#[derive(Drop)]
pub struct TextBuffer {
    pub text: Vec<u8>,
    pub values: IndexMap<Argument, Span>,
    pub room: usize,
}

impl TextBuffer {
    /// Returns an empty buffer.
    pub fn new(alloc: Global) -> TextBuffer
        ensures text { result.text.items ≡ [] }
        ensures values { result.values.entries ≡ [] }
        ensures room { result.room ≡ 1048576 }
    {
        TextBuffer {
            text: Vec::new(alloc),
            values: IndexMap::new(alloc),
            room: MAX_FLAT_TEXT_BYTES,
        }
    }

    /// Returns the bytes from offset `start` on.
    pub fn behind(&self, start: usize) -> &[u8]
        ensures { result.now ≡ drop start self.now.text.items }
    {
        self.text.as_slice().get(start..).unwrap_or(&[])
    }

    /// Returns the span at which the argument was written, if it was.
    pub fn place_of(&self, argument: Argument) -> Option<Span>
        ensures { result ≡ lookup (same_argument argument) self.now.values.entries }
    {
        self.values.get(&argument).copied()
    }

    /// Appends bytes. Returns false, and appends nothing, if there is no room for them.
    ///
    /// If it fails with out of memory, the buffer is unchanged.
    pub fn add(&mut self, bytes: &[u8]) -> Result<bool, AllocError>
        ensures fits { IfOk result (λ fits. fits ≡ true → self.new.text.items ≡ self.old.text.items ++ bytes.now) }
        ensures full { IfOk result (λ fits. fits ≡ false → (self.new.text ≡ self.old.text) × (self.old.room < length bytes.now)) }
        ensures room { IfOk result (λ _. self.new.room + length self.new.text.items ≡ self.old.room + length self.old.text.items) }
        ensures same { self.new.values ≡ self.old.values }
        ensures err { OnErr result (self.new.text.items ≡ self.old.text.items) }
        ensures err_room { OnErr result (self.new.room ≡ self.old.room) }
    {
        if bytes.len() > self.room {
            return Ok(false);
        }
        self.text.extend_from_slice(bytes)?;
        self.room -= bytes.len();
        Ok(true)
    }

    /// Appends bytes that are already in the text.
    ///
    /// Returns false, and appends nothing, if there is no room for them. If it fails with out of
    /// memory, the buffer is unchanged.
    pub fn repeat(&mut self, span: Span) -> Result<bool, AllocError>
        requires ordered { span.start ≤ span.end }
        requires within { span.end ≤ length self.old.text.items }
        ensures fits { IfOk result (λ fits. fits ≡ true → self.new.text.items ≡ self.old.text.items ++ bytes_at self.old.text.items span) }
        ensures full { IfOk result (λ fits. fits ≡ false → (self.new.text ≡ self.old.text) × (self.old.room < length (bytes_at self.old.text.items span))) }
        ensures room { IfOk result (λ _. self.new.room + length self.new.text.items ≡ self.old.room + length self.old.text.items) }
        ensures same { self.new.values ≡ self.old.values }
        ensures err { OnErr result (self.new.text.items ≡ self.old.text.items) }
        ensures err_room { OnErr result (self.new.room ≡ self.old.room) }
    {
        let len = span.end - span.start;
        if len > self.room {
            return Ok(false);
        }
        self.text.extend_from_within(span.start..span.end)?;
        self.room -= len;
        Ok(true)
    }

    /// Records that the argument is in the text from offset `start` to its end.
    ///
    /// If it fails with out of memory, the buffer is unchanged.
    pub fn keep(&mut self, argument: Argument, start: usize) -> Result<(), AllocError>
        ensures kept { OnOk result ((a : Argument) → lookup (same_argument a) self.new.values.entries ≡
            (if same_argument a argument then Some (record { start = start; end = length self.old.text.items }) else lookup (same_argument a) self.old.values.entries)) }
        ensures text { self.new.text ≡ self.old.text }
        ensures room { self.new.room ≡ self.old.room }
        ensures err { OnErr result (self.new.values.entries ≡ self.old.values.entries) }
    {
        let end = self.text.len();
        self.values.insert(argument, Span { start, end })?;
        Ok(())
    }
}
