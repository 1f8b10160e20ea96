//! Filling in a response: its status, header fields and body.

ghost use Rattle.std.specs.Prelude.{◌≡◌, ◌∷◌, [], ◌++◌, IsTrue, OnOk, codes};
ghost use Rattle.http_header.specs.FieldValue.{is_visible_text};
ghost use Rattle.http_header.specs.FieldName.{is_header_name};
ghost use Rattle.http_server.specs.Response.{IsBlank, fields_of};
ghost use Rattle.click_page.specs.Saying.{Says, fields_for, guards, type_name};
ghost use Rattle.click_page.specs.declared.page_text.TheConstants.{POLICY};

use crate::content_kind::ContentKind;
use crate::page_text::POLICY;
use bytes::Bytes;
use http::StatusCode;
use http_header::{HeaderName, HeaderValue};
use http_server::Response;
use std::alloc::AllocError;

/// Returns the content type of a kind of content.
fn type_name(kind: ContentKind) -> HeaderValue
    ensures { result.bytes ≡ type_name kind }
{
    match kind {
        ContentKind::Html => HeaderValue::from_static("text/html; charset=utf-8"),
        ContentKind::Svg => HeaderValue::from_static("image/svg+xml"),
        ContentKind::Json => HeaderValue::from_static("application/json"),
        ContentKind::Text => HeaderValue::from_static("text/plain; charset=utf-8"),
        ContentKind::Metrics => {
            HeaderValue::from_static("text/plain; version=0.0.4; charset=utf-8")
        }
    }
}

/// Adds a header field.
pub(crate) fn add(
    response: &mut Response,
    name: &'static str,
    value: &'static str,
) -> Result<(), AllocError>
    requires name { IsTrue (is_header_name name.now) }
    requires value { IsTrue (is_visible_text value.now) }
    ensures added { OnOk result (fields_of response.new ≡ fields_of response.old ++ (name.now, value.now) ∷ []) }
    ensures status { response.new.status ≡ response.old.status }
    ensures body { response.new.body ≡ response.old.body }
{
    response.add_header(
        HeaderName::from_static(name),
        HeaderValue::from_static(value),
    )
}

/// Adds the content security policy.
///
/// perf: the policy is not copied.
fn add_policy(response: &mut Response) -> Result<(), AllocError>
    ensures added { OnOk result (fields_of response.new ≡ fields_of response.old ++ (codes "content-security-policy", POLICY.now) ∷ []) }
    ensures status { response.new.status ≡ response.old.status }
    ensures body { response.new.body ≡ response.old.body }
{
    let policy = HeaderValue::from_known_valid(Bytes::from_static(POLICY));
    response.add_header(HeaderName::from_static("content-security-policy"), policy)?;
    Ok(())
}

/// Adds the header fields that every response has.
fn add_guards(response: &mut Response) -> Result<(), AllocError>
    ensures added { OnOk result (fields_of response.new ≡ fields_of response.old ++ guards) }
    ensures status { response.new.status ≡ response.old.status }
    ensures body { response.new.body ≡ response.old.body }
{
    add(response, "cache-control", "no-store")?;
    add_policy(response)?;
    add(response, "x-content-type-options", "nosniff")?;
    add(response, "x-frame-options", "DENY")?;
    add(response, "cross-origin-resource-policy", "same-origin")?;
    add(response, "referrer-policy", "no-referrer")?;
    Ok(())
}

/// Gives a response this status, the header fields for this kind of content, and this body.
pub(crate) fn bytes_response(
    status: StatusCode,
    kind: ContentKind,
    body: Bytes,
    response: &mut Response,
) -> Result<(), AllocError>
    requires blank { IsBlank response.old }
    ensures { OnOk result (Says status kind body response.new) }
{
    response.add_header(HeaderName::from_static("content-type"), type_name(kind))?;
    add_guards(response)?;
    response.status = status;
    response.body.push(body)
}

/// Gives a response the status 200, the header fields for this kind of content, and this body.
pub(crate) fn text_response(
    kind: ContentKind,
    text: Vec<u8>,
    response: &mut Response,
) -> Result<(), AllocError>
    requires blank { IsBlank response.old }
    ensures { OnOk result (Says 200 kind text.items response.new) }
{
    bytes_response(
        StatusCode::OK,
        kind,
        Bytes::from_vec(text).map_err(AllocError::from)?,
        response,
    )
}
