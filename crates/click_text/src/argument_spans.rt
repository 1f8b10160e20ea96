//! The arguments of a configuration string.

ghost use Rattle.std.specs.Prelude.{◌≡◌, ℕ, length, IfOk, IfErr};
ghost use Rattle.click_text.specs.Faults.{no_memory};
ghost use Rattle.click_text.specs.Arguments.{is_comma, AreArguments};
ghost use Rattle.click_text.specs.kept.PartialArgument.{found_or, grown_argument, is_nothing};

use crate::items::{ItemKind, first_item};
use crate::syntax::{Span, TextFault};
use std::alloc::{AllocError, Global};

fn is_comma(kind: ItemKind) -> bool
    ensures { result ≡ is_comma kind }
{
    match kind {
        ItemKind::Byte(byte) => byte == b',',
        _ => false,
    }
}

/// Returns the span of an argument that ends at `end`: what was found of it, or an empty span
/// there.
fn argument_found(found: Option<Span>, end: usize) -> Span
    ensures { result ≡ found_or found end }
{
    match found {
        Some(span) => span,
        None => Span { start: end, end },
    }
}

/// Returns what was found of an argument after one more item, which has the span `start` to `end`.
fn grown_argument(found: Option<Span>, kind: ItemKind, start: usize, end: usize) -> Option<Span>
    ensures { result ≡ grown_argument found kind start end }
{
    if kind.is_blank() {
        return found;
    }
    match found {
        Some(span) => Some(Span {
            start: span.start,
            end,
        }),
        None => Some(Span { start, end }),
    }
}

/// Returns whether no argument was completed and nothing of the next one was found.
fn is_nothing(spans: &[Span], found: Option<Span>) -> bool
    ensures { result ≡ is_nothing spans.now found }
{
    match found {
        None => spans.is_empty(),
        Some(_) => false,
    }
}

/// Does what `arguments` does, with `AllocError` as its error.
fn spans_of(alloc: Global, text: &[u8]) -> Result<Vec<Span>, AllocError>
    ensures { IfOk result (λ spans. AreArguments text.now spans.items) }
{
    let mut spans = Vec::new(alloc);
    let mut depth = 0;
    let mut found = None;
    let mut at = 0;
    'items: while at < text.len() {
        let (kind, len) = first_item(&text[at..]);
        let end = at + len;
        if depth == 0 && is_comma(kind) {
            spans.push(argument_found(found, at))?;
            found = None;
        } else {
            found = grown_argument(found, kind, at, end);
            depth = kind.depth_after(depth);
        }
        at = end;
    }
    if is_nothing(spans.as_slice(), found) {
        return Ok(spans);
    }
    spans.push(argument_found(found, at))?;
    Ok(spans)
}

/// Returns the spans of the arguments of a configuration string.
///
/// An argument is what is between two commas that are outside quotes, comments and parentheses,
/// without white space and comments at its ends (Click manual, "Configuration strings"). The span
/// of an empty argument is empty, at the comma after it or at the end of the text. A text of only
/// white space and comments has no arguments.
pub fn arguments(alloc: Global, text: &[u8]) -> Result<Vec<Span>, TextFault>
    ensures ok { IfOk result (λ spans. AreArguments text.now spans.items) }
    // The only error is out of memory.
    ensures err { IfErr result (λ f. f ≡ no_memory) }
{
    Ok(spans_of(alloc, text)?)
}
