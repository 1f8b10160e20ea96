//! Writing texts with their parameters replaced.

ghost use Rattle.std.specs.Prelude.{◌≡◌, ℕ, ◌<◌, ◌≤◌, ◌+◌, ◌++◌, ◌∷◌, [], List, length, true, false, IfOk, OnOk};
ghost use Rattle.click_scopes.specs.Analysis.{AreScopes};
ghost use Rattle.click_expand.specs.Instances.{PrimitiveElement as Flattened};
ghost use Rattle.click_expand.specs.kept.KnownInstances.{KnownInstance, AreInstances};
ghost use Rattle.click_expand.specs.kept.ParameterValues.{IsRead};
ghost use Rattle.click_expand.specs.kept.Spread.{Parts, IsShorter};
ghost use Rattle.click_expand.specs.kept.Buffered.{AreKept, AreSteps, BeginWithin, IsRest, weight};
ghost use Rattle.click_expand.specs.declared.texts.parameter_values.UnreadText.{UnreadText as Remaining};
ghost use Rattle.click_expand.specs.declared.texts.writing.TextStep.TheVariants as step;
ghost use Rattle.click_expand.specs.declared.instances.tree.Place.{Place};

use crate::instances::tree::Instance;
use crate::texts::parameter_values::{Argument, ParameterValue, UnreadText, value_at};
use crate::texts::parameters::parameter_at;
use crate::texts::text_buffer::TextBuffer;
use click_scopes::Scopes;
use click_text::first_item;
use click_text::syntax::Config;
use std::alloc::{AllocError, Global};

/// The beginning of a text: bytes that are not replaced, or a parameter with its value.
///
/// The number is that of the bytes of the text.
#[derive(Clone, Copy)]
pub enum TextPart<'a> {
    Bytes(usize),
    Value(usize, ParameterValue<'a>),
}

/// A step of writing a text.
#[derive(Clone, Copy)]
pub enum TextStep<'a> {
    /// Writes what is read from this text.
    Read(UnreadText<'a>),
    /// Records that an argument is in the text, from this offset to the end of the text at that
    /// time.
    Keep(Argument, usize),
}

/// Returns the beginning of a text, which is not empty.
fn part_of<'a>(
    config: &'a Config,
    scopes: &Scopes,
    instances: &[Instance],
    reading: UnreadText<'a>,
) -> TextPart<'a>
    requires scopes { AreScopes config.now scopes.now }
    requires some { 0 < length reading.rest.now }
    ensures parts { (places : List Place) (known : List KnownInstance) (primitive_elements : List Flattened) (whole : List ℕ) → AreInstances config.now instances.now places known primitive_elements → IsRead config.now known reading.entry whole →
        Parts config.now known reading.entry.within reading.entry.rest.now whole result }
    ensures shorter { IsShorter config.now.text reading.entry.within reading.entry.rest.now result }
{
    if let Some(parameter) = parameter_at(reading.rest) {
        let name = parameter.name.of(reading.rest);
        if let Some(value) = value_at(config, scopes, instances, reading.within, name) {
            return TextPart::Value(parameter.size, value);
        }
    }
    let (_, len) = first_item(reading.rest);
    TextPart::Bytes(len)
}

/// Appends a step, which is to be done before the others.
fn push_step<'a>(steps: &mut Vec<TextStep<'a>>, step: TextStep<'a>) -> Result<(), AllocError>
    ensures { OnOk result (steps.new.items ≡ steps.old.items ++ step.entry ∷ []) }
{
    steps.push(step)?;
    Ok(())
}

/// Appends the step that reads a text after its first `size` bytes.
fn push_rest<'a>(
    steps: &mut Vec<TextStep<'a>>,
    reading: UnreadText<'a>,
    size: usize,
) -> Result<(), AllocError>
    requires { size ≤ length reading.rest.now }
    ensures { OnOk result ((rest : Remaining) × IsRest reading.entry size rest × (steps.new.items ≡ steps.old.items ++ step.Read rest ∷ [])) }
{
    let rest = UnreadText {
        within: reading.within,
        rest: &reading.rest[size..],
    };
    push_step(steps, TextStep::Read(rest))
}

/// Writes the beginning of a text, or appends the steps that write it.
///
/// Returns false if there is no room for it.
///
/// perf: a value that was written before is not read again.
fn read_on<'a>(
    config: &'a Config,
    scopes: &Scopes,
    instances: &[Instance],
    buffer: &mut TextBuffer,
    steps: &mut Vec<TextStep<'a>>,
    reading: UnreadText<'a>,
) -> Result<bool, AllocError>
    requires scopes { AreScopes config.now scopes.now }
    requires kept { AreKept config.now instances.now buffer.old }
    ensures kept { IfOk result (λ _. AreKept config.now instances.now buffer.new) }
    ensures room { IfOk result (λ _. buffer.new.room + length buffer.new.text.items ≡ buffer.old.room + length buffer.old.text.items) }
    ensures led { IfOk result (λ fits. fits ≡ true → (places : List Place) (known : List KnownInstance) (primitive_elements : List Flattened) (whole : List ℕ) → AreInstances config.now instances.now places known primitive_elements →
        AreSteps config.now known (steps.old.items ++ step.Read reading.entry ∷ []) buffer.old.text.items whole → AreSteps config.now known steps.new.items buffer.new.text.items whole) }
    ensures full { IfOk result (λ fits. fits ≡ false → (places : List Place) (known : List KnownInstance) (primitive_elements : List Flattened) (whole : List ℕ) → AreInstances config.now instances.now places known primitive_elements →
        AreSteps config.now known (steps.old.items ++ step.Read reading.entry ∷ []) buffer.old.text.items whole → buffer.old.room + length buffer.old.text.items < length whole) }
    ensures begin { IfOk result (λ _. BeginWithin (length buffer.old.text.items) steps.old.items → BeginWithin (length buffer.new.text.items) steps.new.items) }
    ensures less { IfOk result (λ fits. weight config.now.text steps.new.items < weight config.now.text (steps.old.items ++ step.Read reading.entry ∷ [])) }
{
    if reading.rest.is_empty() {
        return Ok(true);
    }
    match part_of(config, scopes, instances, reading) {
        TextPart::Bytes(len) => {
            push_rest(steps, reading, len)?;
            buffer.add(&reading.rest[..len])
        }
        TextPart::Value(size, value) => {
            push_rest(steps, reading, size)?;
            if let Some(span) = buffer.place_of(value.argument) {
                return buffer.repeat(span);
            }
            push_step(steps, TextStep::Keep(value.argument, buffer.text.len()))?;
            push_step(steps, TextStep::Read(value.reading))?;
            Ok(true)
        }
    }
}

/// Writes a text with its parameters replaced. Returns false if there is no room for it.
pub fn write_text<'a>(
    alloc: Global,
    config: &'a Config,
    scopes: &Scopes,
    instances: &[Instance],
    buffer: &mut TextBuffer,
    first: UnreadText<'a>,
) -> Result<bool, AllocError>
    requires scopes { AreScopes config.now scopes.now }
    requires within { first.within < length instances.now }
    requires kept { AreKept config.now instances.now buffer.old }
    ensures kept { IfOk result (λ _. AreKept config.now instances.now buffer.new) }
    ensures room { IfOk result (λ _. buffer.new.room + length buffer.new.text.items ≡ buffer.old.room + length buffer.old.text.items) }
    ensures fits { IfOk result (λ fits. fits ≡ true → (places : List Place) (known : List KnownInstance) (primitive_elements : List Flattened) (whole : List ℕ) → AreInstances config.now instances.now places known primitive_elements →
        IsRead config.now known first.entry whole → buffer.new.text.items ≡ buffer.old.text.items ++ whole) }
    ensures full { IfOk result (λ fits. fits ≡ false → (places : List Place) (known : List KnownInstance) (primitive_elements : List Flattened) (whole : List ℕ) → AreInstances config.now instances.now places known primitive_elements →
        IsRead config.now known first.entry whole → buffer.old.room < length whole) }
{
    if first.rest.is_empty() {
        return Ok(true);
    }
    let mut steps = Vec::new(alloc);
    push_step(&mut steps, TextStep::Read(first))?;
    'steps: while let Some(step) = steps.pop() {
        match step {
            TextStep::Keep(argument, start) => buffer.keep(argument, start)?,
            TextStep::Read(reading) => {
                if !read_on(config, scopes, instances, buffer, &mut steps, reading)? {
                    return Ok(false);
                }
            }
        }
    }
    Ok(true)
}
