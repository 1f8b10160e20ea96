//! The reads of a request for metrics.

ghost use Rattle.std.specs.Prelude.{◌≡◌, ◌++◌, ◌≤◌, Bool, length, map, IfOk, OnErr, OnOk};
ghost use Rattle.click_control.specs.Serving.{Asked};
ghost use Rattle.click_page.specs.Asking.{commands_of};
ghost use Rattle.click_page.specs.Metrics as spec;

use crate::calls::{ask_all, read_calls};
use crate::lines::{is_level, is_total};
use crate::page_request::PageRequest;
use crate::sample::Sample;
use crate::survey::Survey;
use click_base::sequence::Sequence;
use click_control::{Answer, Port};
use click_expand::{Flat, FlatElement};
use click_handlers::reads_of;
use click_router::{FaultKind, Reply, prepare};
use std::alloc::{AllocError, Global};

/// What a request for metrics read: the survey of the running configuration, and the answers for
/// its samples. There is no survey if the configuration could not be read.
#[derive(Drop)]
pub(crate) struct Measured {
    pub(crate) survey: Option<Survey>,
    pub(crate) values: Vec<Answer>,
}

/// Returns whether the values of read handlers of this name are metrics.
fn is_metric(handler: &[u8]) -> bool
    ensures { result ≡ spec.is_metric handler.now }
{
    is_level(handler) || is_total(handler)
}

/// Returns the sample of a handler of an element.
fn sample_of(alloc: Global, element: &FlatElement, handler: &[u8]) -> Result<Sample, AllocError>
    ensures { IfOk result (λ sample. sample ≡ spec.sample_of element.now handler.now) }
{
    Ok(Sample {
        element: element.name.copy(alloc)?,
        class: element.class,
        handler: Sequence::copy_of(alloc, handler)?,
    })
}

/// Appends the samples of an element with handlers of these names.
fn push_named(
    alloc: Global,
    samples: &mut Sequence<Sample>,
    element: &FlatElement,
    names: &[&[u8]],
) -> Result<(), AllocError>
    ensures { OnOk result (samples.new ≡ samples.old ++ spec.samples_named element.now (map (λ n. n.now) names.now)) }
{
    for name in names {
        if is_metric(name) {
            samples.push(sample_of(alloc, element, name)?)?;
        }
    }
    Ok(())
}

/// Appends the samples of an element.
fn push_samples(
    alloc: Global,
    samples: &mut Sequence<Sample>,
    element: &FlatElement,
) -> Result<(), AllocError>
    ensures { OnOk result (samples.new ≡ samples.old ++ spec.samples_of element.now) }
{
    push_named(alloc, samples, element, reads_of(element.class))
}

/// Returns the survey of a flat form.
fn survey_of(alloc: Global, flat: &Flat) -> Result<Survey, AllocError>
    ensures { IfOk result (λ survey. survey ≡ spec.survey_of flat.now) }
{
    let mut samples = Sequence::new(alloc);
    let elements = flat.elements.as_slice();
    for element in elements {
        push_samples(alloc, &mut samples, element)?;
    }
    Ok(Survey {
        elements: flat.elements.len(),
        samples,
    })
}

/// Returns the survey of the configuration that was read first, or `None` if it was not read or has
/// a fault.
fn surveyed(alloc: Global, answers: &[Answer]) -> Result<Option<Survey>, AllocError>
    requires some { 1 ≤ length answers.now }
    ensures { IfOk result (λ survey. spec.Surveys answers.now survey) }
{
    let Answer::Replied(Reply::Value(text)) = &answers[0] else {
        return Ok(None);
    };
    match prepare(alloc, text.as_slice()) {
        Ok(prepared) => Ok(Some(survey_of(alloc, prepared.flat())?)),
        Err(fault) if fault.kind == FaultKind::NoMemory => Err(AllocError),
        Err(_) => Ok(None),
    }
}

/// Returns the name of the handler of a sample.
fn full_name(alloc: Global, sample: &Sample) -> Result<Sequence<u8>, AllocError>
    ensures { IfOk result (λ name. name ≡ spec.full_name sample.now) }
{
    let mut name = Vec::from_slice(alloc, sample.element.as_slice())?;
    name.extend_from_slice(b".")?;
    name.extend_from_slice(sample.handler.as_slice())?;
    Ok(Sequence::of(name))
}

/// Returns the names of the handlers of samples.
fn full_names(alloc: Global, samples: &[Sample]) -> Result<Vec<Sequence<u8>>, AllocError>
    ensures { IfOk result (λ names. names.items ≡ map spec.full_name samples.now) }
{
    let mut names = Vec::new(alloc);
    for sample in samples {
        names.push(full_name(alloc, sample)?)?;
    }
    Ok(names)
}

/// Reads the samples of the running configuration, which the first answer has.
///
/// Allocates the memory for the calls before it makes the first one. If that fails, it makes none.
pub(crate) fn measure<P: Port>(
    alloc: Global,
    port: &mut P,
    answers: &[Answer],
) -> Result<Measured, AllocError>
    requires some { 1 ≤ length answers.now }
    ensures survey { IfOk result (λ measured. spec.Surveys answers.now measured.survey) }
    ensures asked { (readonly : Bool) → IfOk result (λ measured. Asked P.asks readonly port.old (spec.later measured.survey) measured.values.items port.new) }
    ensures unasked { OnErr result (port.new ≡ port.old) }
{
    let Some(survey) = surveyed(alloc, answers)? else {
        return Ok(Measured {
            survey: None,
            values: Vec::new(alloc),
        });
    };
    let names = full_names(alloc, survey.samples.as_slice())?;
    let calls = read_calls(alloc, names.as_slice())?;
    let room = Vec::with_capacity(alloc, calls.len())?;
    let values = ask_all(alloc, port, calls, room);
    Ok(Measured {
        survey: Some(survey),
        values,
    })
}

/// Makes the reads that follow the first answers to a request: those of its survey for metrics, and
/// none for others.
pub(crate) fn measure_for<P: Port>(
    alloc: Global,
    port: &mut P,
    page_request: &PageRequest,
    answers: &[Answer],
) -> Result<Measured, AllocError>
    requires each { length answers.now ≡ length (commands_of page_request.now) }
    ensures survey { IfOk result (λ measured. spec.IsSurvey page_request.now answers.now measured.survey) }
    ensures asked { (readonly : Bool) → IfOk result (λ measured. Asked P.asks readonly port.old (spec.later measured.survey) measured.values.items port.new) }
    ensures unasked { OnErr result (port.new ≡ port.old) }
{
    match page_request {
        PageRequest::Metrics => measure(alloc, port, answers),
        _ => Ok(Measured {
            survey: None,
            values: Vec::new(alloc),
        }),
    }
}
