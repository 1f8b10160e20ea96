//! The tree of a configuration. Positions in the text are spans of bytes, as `13..14`.

use super::stop::Stop;
use click_text::parse;
use click_text::syntax::{Body, Chain, ClassReference, Declaration, Head, Span, Statement};
use std::alloc::{AllocError, Global};

/// Returns a description of each statement, with a bar after each.
pub fn list_statements(alloc: Global, text: &[u8]) -> Result<Vec<u8>, Stop> {
    let config = parse(alloc, text)?;
    let mut shown = Vec::new(alloc);
    for statement in config.statements.as_slice() {
        push_statement(alloc, &mut shown, statement)?;
        shown.push(b'|')?;
    }
    Ok(shown)
}

/// Returns the spans of each body and its parameters, with a bar after each body.
pub fn list_bodies(alloc: Global, text: &[u8]) -> Result<Vec<u8>, Stop> {
    let config = parse(alloc, text)?;
    let mut shown = Vec::new(alloc);
    for body in config.bodies.as_slice() {
        push_body(alloc, &mut shown, body)?;
        shown.push(b'|')?;
    }
    Ok(shown)
}

fn push_body(alloc: Global, shown: &mut Vec<u8>, body: &Body) -> Result<(), AllocError> {
    push_span(alloc, shown, b"body", body.span)?;
    for formal in body.formals.as_slice() {
        push_span(alloc, shown, b" parameter", *formal)?;
    }
    Ok(())
}

fn push_statement(
    alloc: Global,
    shown: &mut Vec<u8>,
    statement: &Statement,
) -> Result<(), AllocError> {
    match statement {
        Statement::Chain(chain) => push_chain(alloc, shown, chain),
        Statement::Declaration(declaration) => push_declaration(alloc, shown, declaration),
        Statement::Definition { name, body } => {
            push_span(alloc, shown, b"definition", *name)?;
            push_class(alloc, shown, ClassReference::Body(*body))
        }
        Statement::Synonym { name, class } => {
            push_span(alloc, shown, b"synonym", *name)?;
            push_class(alloc, shown, ClassReference::Named(*class))
        }
        Statement::Requirement { text } => {
            shown.extend_from_slice(b"requirement")?;
            push_text(alloc, shown, *text)
        }
    }
}

/// Appends a chain: its first element, and the number of further ones.
fn push_chain(alloc: Global, shown: &mut Vec<u8>, chain: &Chain) -> Result<(), AllocError> {
    match chain.first.head {
        Head::Word(name) => push_span(alloc, shown, b"chain", name)?,
        Head::Declared(name, class) => {
            push_span(alloc, shown, b"chain", name)?;
            push_class(alloc, shown, class)?;
        }
        Head::Compound(body) => {
            shown.extend_from_slice(b"chain")?;
            push_class(alloc, shown, ClassReference::Body(body))?;
        }
    }
    push_text(alloc, shown, chain.first.text)?;
    push_number(alloc, shown, b" links ", chain.links.len())
}

/// Appends a declaration: its first name, its class, its text, and the number of names.
fn push_declaration(
    alloc: Global,
    shown: &mut Vec<u8>,
    declaration: &Declaration,
) -> Result<(), AllocError> {
    shown.extend_from_slice(b"declaration")?;
    if let Some(name) = declaration.names.as_slice().first() {
        push_span(alloc, shown, b"", *name)?;
    }
    push_class(alloc, shown, declaration.class)?;
    push_text(alloc, shown, declaration.text)?;
    push_number(alloc, shown, b" names ", declaration.names.len())
}

fn push_class(alloc: Global, shown: &mut Vec<u8>, class: ClassReference) -> Result<(), AllocError> {
    match class {
        ClassReference::Named(span) => push_span(alloc, shown, b" class", span),
        ClassReference::Body(body) => push_number(alloc, shown, b" body ", body),
    }
}

fn push_text(alloc: Global, shown: &mut Vec<u8>, text: Option<Span>) -> Result<(), AllocError> {
    match text {
        Some(span) => push_span(alloc, shown, b" text", span),
        None => Ok(()),
    }
}

fn push_span(
    alloc: Global,
    shown: &mut Vec<u8>,
    word: &[u8],
    span: Span,
) -> Result<(), AllocError> {
    shown.extend_from_slice(word)?;
    let text = format!(in alloc; " {}..{}", span.start, span.end)?;
    shown.extend_from_slice(text.as_bytes())
}

fn push_number(
    alloc: Global,
    shown: &mut Vec<u8>,
    word: &[u8],
    number: usize,
) -> Result<(), AllocError> {
    shown.extend_from_slice(word)?;
    let text = format!(in alloc; "{number}")?;
    shown.extend_from_slice(text.as_bytes())
}
