//! Misuses of names, classes, parameters and ports: the first one in the text.

ghost use Rattle.std.specs.Prelude.{◌≡◌, length, IfOk};
ghost use Rattle.click_scopes.specs.kept.FirstFault as spec;
ghost use Rattle.click_scopes.specs.kept.FirstFault.{unknown_at, port_at, twice_at, first_in, scope_element_at, AreShort, IsLeast, IsWrongScopeElement, IsWrongFormal};

use crate::borrowed_names::BorrowedNames;
use crate::classes::ResolvedClass;
use crate::fault::WrongUse;
use crate::scope_elements::{ScopeElement, is_port_name};
use click_text::syntax::{Body, ClassReference, Head, Span};
use std::alloc::{AllocError, Global};

/// A misuse: its kind, and the span of the token.
#[derive(Clone, Copy, Debug, PartialEq, Eq)]
pub struct TokenFault {
    pub kind: WrongUse,
    pub span: Span,
}

/// Returns whether `a` comes before `b`: by its offset, then by its number.
fn comes_before(a: TokenFault, b: TokenFault) -> bool
    ensures { result ≡ spec.comes_before a b }
{
    if a.span.start == b.span.start {
        a.kind.number() < b.kind.number()
    } else {
        a.span.start < b.span.start
    }
}

/// Returns the first of two misuses, if there is one.
pub fn first_of(a: Option<TokenFault>, b: Option<TokenFault>) -> Option<TokenFault>
    ensures { result ≡ spec.first_of a b }
{
    match (a, b) {
        (None, _) => b,
        (Some(_), None) => a,
        (Some(x), Some(y)) => { if comes_before(y, x) { b } else { a } }
    }
}

/// Returns this misuse if `test` is true.
pub(crate) fn wrong_if(test: bool, kind: WrongUse, span: Span) -> Option<TokenFault>
    ensures { result ≡ spec.token_fault_if test kind span }
{
    if test {
        Some(TokenFault { kind, span })
    } else {
        None
    }
}

/// Returns the misuse of an element's word that names no class.
fn unknown(head: Head, text: Option<Span>, class: Option<ResolvedClass>) -> Option<TokenFault>
    ensures { result ≡ unknown_at head text class }
{
    match (class, head, text) {
        (Some(_), _, _) => None,
        (None, Head::Word(word), None) => wrong_if(true, WrongUse::UnknownName, word),
        (None, Head::Word(word), Some(_)) => wrong_if(true, WrongUse::UnknownClass, word),
        (None, Head::Declared(_, ClassReference::Named(word)), _) => {
            wrong_if(true, WrongUse::UnknownClass, word)
        }
        (None, Head::Declared(_, ClassReference::Body(_)), _) => None,
        (None, Head::Compound(_), _) => None,
    }
}

/// Returns the misuse of an element that declares `input` or `output` in a body.
fn port_declared(text: &[u8], in_body: bool, head: Head) -> Option<TokenFault>
    ensures { result ≡ port_at text.now in_body head }
{
    match head {
        Head::Declared(name, _) => wrong_if(
            in_body && is_port_name(name.of(text)),
            WrongUse::DeclaredTwice,
            name,
        ),
        _ => None,
    }
}

/// Returns the misuse of an element whose name is taken by an earlier one.
///
/// The name of an element that is written as an unknown class does not count.
fn named_twice(
    taken: bool,
    head: Head,
    class: Option<ResolvedClass>,
    first: Span,
) -> Option<TokenFault>
    ensures { result ≡ twice_at taken head class first }
{
    match (head, class) {
        (Head::Declared(_, _), _) => wrong_if(taken, WrongUse::DeclaredTwice, first),
        (_, Some(_)) => wrong_if(taken, WrongUse::DeclaredTwice, first),
        (_, None) => None,
    }
}

/// Returns the first token of an element.
pub fn first_token(bodies: &[Body], head: Head) -> Span
    requires { AreShort bodies.now }
    ensures { result ≡ first_in bodies.now head }
{
    match head {
        Head::Word(word) => word,
        Head::Declared(name, _) => name,
        Head::Compound(place) => match bodies.get(place) {
            Some(body) => Span {
                start: body.span.start,
                end: body.span.start + 1,
            },
            None => Span { start: 0, end: 0 },
        },
    }
}

/// Returns the misuse of an element: of its name, its class or its declaration.
///
/// `taken` states whether an earlier element has its name.
fn in_scope_element(
    text: &[u8],
    bodies: &[Body],
    in_body: bool,
    taken: bool,
    scope_element: &ScopeElement,
) -> Option<TokenFault>
    requires { AreShort bodies.now }
    ensures { result ≡ scope_element_at text.now bodies.now in_body taken scope_element.now }
{
    let first = first_token(bodies, scope_element.head);
    let unknown = unknown(scope_element.head, scope_element.text, scope_element.class);
    let twice = named_twice(taken, scope_element.head, scope_element.class, first);
    let port = port_declared(text, in_body, scope_element.head);
    first_of(first_of(unknown, twice), port)
}

/// Returns the first misuse of a name, class or declaration among a scope's elements.
pub fn in_scope_elements(
    alloc: Global,
    text: &[u8],
    bodies: &[Body],
    in_body: bool,
    scope_elements: &[ScopeElement],
) -> Result<Option<TokenFault>, AllocError>
    requires { AreShort bodies.now }
    ensures { IfOk result (IsLeast (IsWrongScopeElement text.now bodies.now in_body scope_elements.now (length scope_elements.now))) }
{
    let mut first = None;
    let mut names = BorrowedNames::with_room(alloc, scope_elements.len())?;
    for scope_element in scope_elements {
        let taken = names.add(scope_element.name.as_slice())?;
        first = first_of(
            first,
            in_scope_element(text, bodies, in_body, taken, scope_element),
        );
    }
    Ok(first)
}

/// Returns the first parameter of a body that has the name of an earlier one.
pub fn in_formals(
    alloc: Global,
    text: &[u8],
    formals: &[Span],
) -> Result<Option<TokenFault>, AllocError>
    ensures { IfOk result (IsLeast (IsWrongFormal text.now formals.now (length formals.now))) }
{
    let mut first = None;
    let mut names = BorrowedNames::with_room(alloc, formals.len())?;
    for formal in formals {
        let taken = names.add(formal.of(text))?;
        first = first_of(first, wrong_if(taken, WrongUse::DeclaredTwice, *formal));
    }
    Ok(first)
}
