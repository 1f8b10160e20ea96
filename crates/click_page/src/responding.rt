//! The response to a request.

ghost use Rattle.std.specs.Prelude.{◌≡◌, ◌++◌, ◌≤◌, codes, false, length, IfSome, MatchResult, OnOk};
ghost use Rattle.serde_json.specs.View.{view};
ghost use Rattle.serde_json.specs.Written.{compact_text, has_float};
ghost use Rattle.http_server.specs.Response.{IsBlank, IsResponse};
ghost use Rattle.click_router.specs.FaultText.{fault_text};
ghost use Rattle.click_router.specs.Opened.{IsMemory};
ghost use Rattle.click_page.specs.Asking.{commands_of, reading};
ghost use Rattle.click_draw.specs.Drawn.{IsPicture};
ghost use Rattle.click_page.specs.Form.{IsFlatText};
ghost use Rattle.click_page.specs.Saying.{Says, SaysFor, SaysMade, SaysMetrics, allow_of, entry_of, fault_data, fields_for, refusal_line, status_of};

use crate::answer_json::{fault_entry, read_entries, read_entry, write_entry};
use crate::content_kind::ContentKind;
use crate::figures::Figures;
use crate::headers::{add, bytes_response, text_response};
use crate::kept::Kept;
use crate::measuring::Measured;
use crate::metrics::metrics_text;
use crate::page_request::{PageRequest, RequestRefusal};
use crate::page_text::PAGE;
use crate::values::json_text;
use bytes::Bytes;
use click_control::Answer;
use click_router::{ConfigFault, FaultKind, Reply};
use http::StatusCode;
use http_server::Response;
use serde_json::Value;
use std::alloc::{AllocError, Global};

/// Returns the status of a refusal.
fn status_of(why: RequestRefusal) -> StatusCode
    ensures { result ≡ status_of why }
{
    match why {
        RequestRefusal::ForeignHost | RequestRefusal::MissingHeader => StatusCode::FORBIDDEN,
        RequestRefusal::NotFound => StatusCode::NOT_FOUND,
        RequestRefusal::WantsGet | RequestRefusal::WantsPost => StatusCode::METHOD_NOT_ALLOWED,
        RequestRefusal::WrongQuery => StatusCode::BAD_REQUEST,
    }
}

/// Returns the line of a refusal.
fn refusal_line(why: RequestRefusal) -> &'static [u8]
    ensures { result.now ≡ refusal_line why }
{
    match why {
        RequestRefusal::ForeignHost => b"this page is at 127.0.0.1 alone\n",
        RequestRefusal::NotFound => b"there is nothing of that name\n",
        RequestRefusal::WantsGet | RequestRefusal::WantsPost => b"another method is wanted here\n",
        RequestRefusal::MissingHeader => b"a write needs the header x-click-page\n",
        RequestRefusal::WrongQuery => b"the query names no handlers, or too many\n",
    }
}

/// Responds with a refusal. A refusal of a method names the methods of the path.
fn say_refusal(why: RequestRefusal, response: &mut Response) -> Result<(), AllocError>
    requires { IsBlank response.old }
    ensures { OnOk result (IsResponse (status_of why) (fields_for ContentKind.Text ++ allow_of why) (refusal_line why) response.new) }
{
    let line = Bytes::from_static(refusal_line(why));
    bytes_response(status_of(why), ContentKind::Text, line, response)?;
    match why {
        RequestRefusal::WantsGet => add(response, "allow", "GET, HEAD"),
        RequestRefusal::WantsPost => add(response, "allow", "POST"),
        _ => Ok(()),
    }
}

/// Responds with a JSON value.
fn say_value(alloc: Global, value: &Value, response: &mut Response) -> Result<(), AllocError>
    requires blank { IsBlank response.old }
    requires whole { has_float (view value.now) ≡ false }
    ensures { OnOk result (Says 200 ContentKind.Json (compact_text (view value.now)) response.new) }
{
    text_response(ContentKind::Json, json_text(alloc, value)?, response)
}

/// Responds with the fault of a text.
fn say_fault(alloc: Global, fault: &ConfigFault, response: &mut Response) -> Result<(), AllocError>
    requires { IsBlank response.old }
    ensures { OnOk result (Says 200 ContentKind.Json (compact_text (fault_data 520 (fault_text fault.now))) response.new) }
{
    let text = fault.text(alloc)?;
    say_value(alloc, &fault_entry(alloc, 520, text.as_slice())?, response)
}

/// Responds with what was made of a text, or with the fault of the text.
fn say_made(
    alloc: Global,
    kind: ContentKind,
    made: Result<Bytes, ConfigFault>,
    response: &mut Response,
) -> Result<(), AllocError>
    requires { IsBlank response.old }
    ensures { OnOk result (MatchResult made (λ made. Says 200 kind made response.new)
        (λ fault. (IsMemory fault → ⊥) × Says 200 ContentKind.Json (compact_text (fault_data 520 (fault_text fault))) response.new)) }
{
    match made {
        Ok(made) => bytes_response(StatusCode::OK, kind, made, response),
        Err(fault) if fault.kind == FaultKind::NoMemory => Err(AllocError),
        Err(fault) => say_fault(alloc, &fault, response),
    }
}

/// Responds with the reason why the running configuration was not read.
fn say_unread(alloc: Global, answer: &Answer, response: &mut Response) -> Result<(), AllocError>
    requires { IsBlank response.old }
    ensures { OnOk result (Says 200 ContentKind.Json (compact_text (entry_of (reading (codes "config")) answer.now)) response.new) }
{
    say_value(alloc, &read_entry(alloc, b"config", answer)?, response)
}

/// Responds with the picture of the configuration that was read.
fn say_picture(
    alloc: Global,
    kept: &mut Kept,
    answer: &Answer,
    response: &mut Response,
) -> Result<(), AllocError>
    requires { IsBlank response.old }
    ensures { OnOk result (SaysMade ContentKind.Svg IsPicture answer.now response.new) }
{
    match answer {
        Answer::Replied(Reply::Value(text)) => {
            let picture = kept.picture(alloc, text.as_slice());
            say_made(alloc, ContentKind::Svg, picture, response)
        }
        _ => say_unread(alloc, answer, response),
    }
}

/// Responds with the flat form of the configuration that was read.
fn say_flat(
    alloc: Global,
    kept: &mut Kept,
    answer: &Answer,
    response: &mut Response,
) -> Result<(), AllocError>
    requires { IsBlank response.old }
    ensures { OnOk result (SaysMade ContentKind.Json IsFlatText answer.now response.new) }
{
    match answer {
        Answer::Replied(Reply::Value(text)) => {
            let form = kept.flat(alloc, text.as_slice());
            say_made(alloc, ContentKind::Json, form, response)
        }
        _ => say_unread(alloc, answer, response),
    }
}

/// Responds with the metrics and the figures, or with status 503 if the running configuration was
/// not read.
fn say_metrics<F: Figures>(
    alloc: Global,
    figures: &F,
    answers: &[Answer],
    measured: &Measured,
    response: &mut Response,
) -> Result<(), AllocError>
    requires blank { IsBlank response.old }
    requires two { 2 ≤ length answers.now }
    requires all { IfSome measured.now.survey (λ s. length measured.now.values.items ≡ length s.samples) }
    ensures { OnOk result (SaysMetrics (F.gives figures.now) measured.now.survey answers.now measured.now.values.items response.new) }
{
    match &measured.survey {
        Some(survey) => {
            let mut text = metrics_text(alloc, survey, answers, measured.values.as_slice())?;
            figures.push_to(&mut text)?;
            text_response(ContentKind::Metrics, text, response)
        }
        None => bytes_response(
            StatusCode::SERVICE_UNAVAILABLE,
            ContentKind::Text,
            Bytes::from_static(b"the running configuration was not read\n"),
            response,
        ),
    }
}

/// Responds to a request whose commands were answered in this way, and whose survey had these
/// values. After an error, part of the response may have been written.
pub(crate) fn respond<F: Figures>(
    alloc: Global,
    kept: &mut Kept,
    figures: &F,
    page_request: &PageRequest,
    answers: &[Answer],
    measured: &Measured,
    response: &mut Response,
) -> Result<(), AllocError>
    requires blank { IsBlank response.old }
    requires many { length answers.now ≡ length (commands_of page_request.now) }
    requires all { IfSome measured.now.survey (λ s. length measured.now.values.items ≡ length s.samples) }
    ensures { OnOk result (SaysFor (F.gives figures.now) page_request.now answers.now measured.now.survey measured.now.values.items response.new) }
{
    match page_request {
        PageRequest::Page => bytes_response(
            StatusCode::OK,
            ContentKind::Html,
            Bytes::from_static(PAGE),
            response,
        ),
        PageRequest::Picture => say_picture(alloc, kept, &answers[0], response),
        PageRequest::Flat => say_flat(alloc, kept, &answers[0], response),
        PageRequest::Read { handlers } => {
            let told = read_entries(alloc, handlers.as_slice(), answers)?;
            say_value(alloc, &told, response)
        }
        PageRequest::Write { handler, .. } => {
            let told = write_entry(alloc, handler.as_slice(), &answers[0])?;
            say_value(alloc, &told, response)
        }
        PageRequest::Metrics => say_metrics(alloc, figures, answers, measured, response),
        PageRequest::Refused(why) => say_refusal(*why, response),
    }
}
