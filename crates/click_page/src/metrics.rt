//! The metrics of a router as text.

ghost use Rattle.std.specs.Prelude.{◌≡◌, ◌++◌, ◌≤◌, length, codes, decimal, IfOk, OnOk};
ghost use Rattle.click_page.specs.Lines.{levels, totals};
ghost use Rattle.click_page.specs.Metrics as spec;

use crate::lines::{is_level, is_number, is_total, push_value_line};
use crate::sample::Sample;
use crate::survey::Survey;
use click_control::Answer;
use click_router::Reply;
use itoa::Buffer;
use std::alloc::{AllocError, Global};

/// Appends the line of a sample by the answer to its read, if that is a number.
fn push_sample(
    text: &mut Vec<u8>,
    metric: &[u8],
    sample: &Sample,
    answer: &Answer,
) -> Result<(), AllocError>
    ensures { OnOk result (text.new.items ≡ text.old.items ++ spec.sample_line metric.now sample.now answer.now) }
{
    match answer {
        Answer::Replied(Reply::Value(value)) if is_number(value.as_slice()) => {
            push_value_line(text, metric, sample, value.as_slice())
        }
        _ => Ok(()),
    }
}

/// Appends the line of a sample if its values may fall.
fn push_level(text: &mut Vec<u8>, sample: &Sample, answer: &Answer) -> Result<(), AllocError>
    ensures { OnOk result (text.new.items ≡ text.old.items ++ spec.listed_line (codes "click_handler") levels sample.now answer.now) }
{
    if is_level(sample.handler.as_slice()) {
        push_sample(text, b"click_handler", sample, answer)
    } else {
        Ok(())
    }
}

/// Appends the line of a sample if its values only grow until they are reset.
fn push_total(text: &mut Vec<u8>, sample: &Sample, answer: &Answer) -> Result<(), AllocError>
    ensures { OnOk result (text.new.items ≡ text.old.items ++ spec.listed_line (codes "click_handler_total") totals sample.now answer.now) }
{
    if is_total(sample.handler.as_slice()) {
        push_sample(text, b"click_handler_total", sample, answer)
    } else {
        Ok(())
    }
}

/// Appends the lines of the samples whose values may fall.
fn push_levels(text: &mut Vec<u8>, samples: &[Sample], answers: &[Answer]) -> Result<(), AllocError>
    requires all { length answers.now ≡ length samples.now }
    ensures { OnOk result (text.new.items ≡ text.old.items ++ spec.sample_lines (codes "click_handler") levels samples.now answers.now) }
{
    for (at, sample) in samples.iter().enumerate() {
        push_level(text, sample, &answers[at])?;
    }
    Ok(())
}

/// Appends the lines of the samples whose values only grow until they are reset.
fn push_totals(text: &mut Vec<u8>, samples: &[Sample], answers: &[Answer]) -> Result<(), AllocError>
    requires all { length answers.now ≡ length samples.now }
    ensures { OnOk result (text.new.items ≡ text.old.items ++ spec.sample_lines (codes "click_handler_total") totals samples.now answers.now) }
{
    for (at, sample) in samples.iter().enumerate() {
        push_total(text, sample, &answers[at])?;
    }
    Ok(())
}

/// Appends a number.
fn push_number(text: &mut Vec<u8>, number: usize) -> Result<(), AllocError>
    ensures { OnOk result (text.new.items ≡ text.old.items ++ decimal number) }
{
    let mut digits = Buffer::new();
    text.extend_from_slice(digits.format(number).as_bytes())?;
    Ok(())
}

/// Appends the number of elements.
fn push_elements(text: &mut Vec<u8>, number: usize) -> Result<(), AllocError>
    ensures { OnOk result (text.new.items ≡ text.old.items ++ spec.elements_text number) }
{
    text.extend_from_slice(
        b"# HELP click_elements Number of elements of the running configuration.\n# TYPE click_elements gauge\nclick_elements ",
    )?;
    push_number(text, number)?;
    text.extend_from_slice(b"\n")?;
    Ok(())
}

/// Appends the number of overruns by the answer to its read, if that is a number.
fn push_overruns(text: &mut Vec<u8>, answers: &[Answer]) -> Result<(), AllocError>
    requires two { 2 ≤ length answers.now }
    ensures { OnOk result (text.new.items ≡ text.old.items ++ spec.overruns_text answers.now) }
{
    let Answer::Replied(Reply::Value(value)) = &answers[1] else {
        return Ok(());
    };
    if is_number(value.as_slice()) {
        text.extend_from_slice(
            b"# HELP click_overruns_total Number of pushes and pulls that had no crossing left.\n# TYPE click_overruns_total counter\nclick_overruns_total ",
        )?;
        text.extend_from_slice(value.as_slice())?;
        text.extend_from_slice(b"\n")?;
    }
    Ok(())
}

/// Returns the metrics: the answers to the first reads, then those for the samples.
pub(crate) fn metrics_text(
    alloc: Global,
    survey: &Survey,
    answers: &[Answer],
    values: &[Answer],
) -> Result<Vec<u8>, AllocError>
    requires two { 2 ≤ length answers.now }
    requires all { length values.now ≡ length survey.now.samples }
    ensures { IfOk result (λ text. text.items ≡ spec.metrics_text survey.now answers.now values.now) }
{
    let samples = survey.samples.as_slice();
    let mut text = Vec::new(alloc);
    push_elements(&mut text, survey.elements)?;
    push_overruns(&mut text, answers)?;
    text.extend_from_slice(
        b"# HELP click_handler Value of a read handler that may fall.\n# TYPE click_handler gauge\n",
    )?;
    push_levels(&mut text, samples, values)?;
    text.extend_from_slice(
        b"# HELP click_handler_total Value of a read handler that only grows until it is reset.\n# TYPE click_handler_total counter\n",
    )?;
    push_totals(&mut text, samples, values)?;
    Ok(text)
}
