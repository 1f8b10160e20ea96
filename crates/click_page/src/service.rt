//! The page as an HTTP service.

ghost use Rattle.std.specs.Prelude.{◌≡◌, ◌⊎◌, Bool, length, IfSome};
ghost use Rattle.http_server.specs.Response.{IsBlank};
ghost use Rattle.click_page.specs.Answering.{Follows};
ghost use Rattle.click_page.specs.Asking.{commands_of};
ghost use Rattle.click_page.specs.Saying.{SaysFor, SaysNoMemory};

use crate::calls::{ask_all, calls_of};
use crate::figures::Figures;
use crate::kept::Kept;
use crate::measuring::{Measured, measure_for};
use crate::page_request::PageRequest;
use crate::requests::parse_request;
use crate::responding::respond;
use bytes::Bytes;
use click_control::{Answer, Port};
use http::{Request, StatusCode};
use http_server::{Response, Service};
use std::alloc::{AllocError, Global};
use std::marker::Model;

/// A page that makes its calls through a port.
///
/// Contracts see this port, whether the page may only read, the TCP port of 127.0.0.1 that it is at,
/// and the figures that its metrics end with. What it keeps for later requests they do not see.
#[derive(Drop)]
pub struct Page<P, F> {
    alloc: Global,
    port: P,
    readonly: bool,
    at: u16,
    figures: F,
    kept: Kept,
}

impl<P, F> Model for Page<P, F> {
    ghost use Rattle.click_page.specs.Answering.{Paged};

    ghost Value = { Paged P F };

    ghost view = { λ p. record { port = p.port; readonly = p.readonly; at = p.at; figures = p.figures } };
}

impl<P, F: Drop> Page<P, F> {
    /// Returns a page at this TCP port of 127.0.0.1, with these figures. If it may only read, it
    /// makes no call that writes.
    pub fn new(alloc: Global, port: P, readonly: bool, at: u16, figures: F) -> Page<P, F>
        ensures { result ≡ record { port = port; readonly = readonly; at = at; figures = figures } }
    {
        Page {
            alloc,
            port,
            readonly,
            at,
            figures,
            kept: Kept::nothing(alloc),
        }
    }

    /// Returns the port through which the page made its calls.
    pub fn into_port(self) -> P
        ensures { result ≡ self.port }
    {
        let Page {
            alloc: _,
            port,
            readonly: _,
            at: _,
            figures: _,
            kept: _,
        } = self;
        port
    }
}

impl<P: Port, F: Figures> Service for Page<P, F> {
    ghost use Rattle.click_page.specs.Answering.{AnswersSo};

    ghost answers = { AnswersSo F.gives P.asks };

    /// Allocates the memory for the calls before it makes the first one, and that for the reads of
    /// a survey before it makes the first of these.
    fn call(
        &mut self,
        request: &Request<Bytes>,
        response: &mut Response,
    ) -> Result<(), AllocError> {
        let page_request = parse_request(self.alloc, self.at, request)?;
        let calls = calls_of(self.alloc, &page_request, self.readonly)?;
        let answers = Vec::with_capacity(self.alloc, calls.len())?;
        let answers = ask_all(self.alloc, &mut self.port, calls, answers);
        finish(
            self.alloc,
            &mut self.port,
            &mut self.kept,
            &self.figures,
            &page_request,
            answers.as_slice(),
            response,
        );
        Ok(())
    }
}

/// Makes the reads that follow the first answers to a request, and responds.
fn finish<P: Port, F: Figures>(
    alloc: Global,
    port: &mut P,
    kept: &mut Kept,
    figures: &F,
    page_request: &PageRequest,
    answers: &[Answer],
    response: &mut Response,
)
    requires blank { IsBlank response.old }
    requires each { length answers.now ≡ length (commands_of page_request.now) }
    ensures { (readonly : Bool) → Follows (F.gives figures.now) P.asks readonly page_request.now answers.now port.old response.new port.new }
{
    match measure_for(alloc, port, page_request, answers) {
        Ok(measured) => tell(
            alloc,
            kept,
            figures,
            page_request,
            answers,
            &measured,
            response,
        ),
        Err(_) => tell_no_memory(response),
    }
}

/// Responds with the answers, or with status 503 if it runs out of memory.
fn tell<F: Figures>(
    alloc: Global,
    kept: &mut Kept,
    figures: &F,
    page_request: &PageRequest,
    answers: &[Answer],
    measured: &Measured,
    response: &mut Response,
)
    requires blank { IsBlank response.old }
    requires each { length answers.now ≡ length (commands_of page_request.now) }
    requires all { IfSome measured.now.survey (λ s. length measured.now.values.items ≡ length s.samples) }
    ensures { SaysFor (F.gives figures.now) page_request.now answers.now measured.now.survey measured.now.values.items response.new ⊎ SaysNoMemory response.new }
{
    if respond(
        alloc,
        kept,
        figures,
        page_request,
        answers,
        measured,
        response,
    )
    .is_err()
    {
        tell_no_memory(response);
    }
}

/// Responds with status 503, without fields or body.
fn tell_no_memory(response: &mut Response)
    ensures { SaysNoMemory response.new }
{
    response.clear();
    response.status = StatusCode::SERVICE_UNAVAILABLE;
}
