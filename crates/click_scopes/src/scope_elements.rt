//! The elements of a scope and their names.

ghost use Rattle.std.specs.Prelude.{◌≡◌, ◌<◌, ℕ, List, [], ◌∷◌, ◌++◌, map, All, IfOk, OnOk};
ghost use Rattle.click_scopes.specs.Elements as spec;
ghost use Rattle.click_scopes.specs.Elements.{Placed, scope_elements_from};
ghost use Rattle.click_base.specs.NameLists.{has_name};
ghost use Rattle.click_scopes.specs.kept.CompoundArguments.{HasArguments};
ghost use Rattle.click_scopes.specs.kept.Lookups.{class_body};
ghost use Rattle.click_scopes.specs.kept.ScopeElements.{AreScopeElementsOf, AreStringsOf, strings_of, strings_made};
ghost use Rattle.click_scopes.specs.kept.Tables.{IsWrittenElement, AreWritten, elements_of, names_declared, numbers_from, role_kept, scope_element_of};

use crate::borrowed_names::BorrowedNames;
use crate::classes::{ClassEntry, ResolvedClass, class_at};
use crate::compound_arguments::arguments_of;
use crate::written_scopes::WrittenElement;
use click_base::sequence::Sequence;
use click_text::syntax::{ClassReference, Element, Head, Span};
use itoa::Buffer;
use std::alloc::{AllocError, Global};

/// The role of a written element.
#[derive(Clone, Copy, Debug, PartialEq, Eq)]
pub enum Role {
    /// One of the body's own ports.
    Pseudo,
    /// An element that is declared in the scope.
    Refers,
    /// A new element.
    Makes,
}

/// An element of a scope.
#[derive(Drop)]
pub struct ScopeElement {
    pub name: Vec<u8>,
    pub class: Option<ResolvedClass>,
    pub text: Option<Span>,
    /// The spans of a compound's arguments in its configuration string. Other elements have none.
    pub arguments: Sequence<Span>,
    pub head: Head,
}

impl ScopeElement {
    /// Returns the body of the element, if it is a compound.
    pub fn body(&self) -> Option<usize>
        ensures { result ≡ class_body self.now.class }
    {
        match self.class {
            Some(ResolvedClass::Compound(body)) => Some(body),
            _ => None,
        }
    }
}

/// Returns whether the word is `input` or `output`, the names of a body's own ports.
pub fn is_port_name(word: &[u8]) -> bool
    ensures { result ≡ spec.is_port_name word.now }
{
    word == b"input".as_slice() || word == b"output".as_slice()
}

/// Returns the role of a bare word.
fn word_role(in_body: bool, declared: &BorrowedNames, word: &[u8]) -> Role
    ensures { role_kept result ≡ spec.word_role in_body declared.now word.now }
{
    if in_body && is_port_name(word) {
        return Role::Pseudo;
    }
    if declared.has(word) {
        Role::Refers
    } else {
        Role::Makes
    }
}

/// Returns the role of a written element.
pub(crate) fn role_of(
    text: &[u8],
    in_body: bool,
    declared: &BorrowedNames,
    element: Element,
) -> Role
    ensures { role_kept result ≡ spec.role text.now in_body declared.now element }
{
    match (element.head, element.text) {
        (Head::Word(word), None) => word_role(in_body, declared, word.of(text)),
        _ => Role::Makes,
    }
}

/// Returns the class, `@`, and the number of an element that follows `before` others.
fn numbered(alloc: Global, class: &[u8], before: usize) -> Result<Vec<u8>, AllocError>
    requires { before < usize.MAX }
    ensures { IfOk result (λ v. v.items ≡ spec.name_with_number class.now before) }
{
    let mut buffer = Buffer::new();
    let digits = buffer.format(before + 1).as_bytes();
    let size = class.len().saturating_add(digits.len()).saturating_add(1);
    let mut name = Vec::with_capacity(alloc, size)?;
    name.extend_from_slice(class)?;
    name.push(b'@')?;
    name.extend_from_slice(digits)?;
    Ok(name)
}

/// Returns the name of a new element that follows `before` others.
fn made_name(alloc: Global, text: &[u8], before: usize, head: Head) -> Result<Vec<u8>, AllocError>
    requires { before < usize.MAX }
    ensures { IfOk result (λ v. v.items ≡ spec.made_name text.now before head) }
{
    match head {
        Head::Word(word) => numbered(alloc, word.of(text), before),
        Head::Declared(name, _) => Vec::from_slice(alloc, name.of(text)),
        Head::Compound(_) => numbered(alloc, b"Compound".as_slice(), before),
    }
}

/// Returns the class of a new element.
fn head_class(head: Head) -> ClassReference
    ensures { result ≡ spec.head_class head }
{
    match head {
        Head::Word(word) => ClassReference::Named(word),
        Head::Declared(_, class) => class,
        Head::Compound(body) => ClassReference::Body(body),
    }
}

/// Returns the element that a written element makes, after `before` others.
fn made(
    alloc: Global,
    text: &[u8],
    class_table: &[ClassEntry],
    before: usize,
    one: WrittenElement,
) -> Result<ScopeElement, AllocError>
    requires { before < usize.MAX }
    ensures scope_element { IfOk result (λ l. (p : Placed) → IsWrittenElement text.now class_table.now one p → scope_element_of text.now l ≡ spec.scope_element text.now before p) }
    ensures string { IfOk result (λ l. l.text ≡ one.element.text) }
    ensures arguments { IfOk result (HasArguments text.now) }
{
    let class = class_at(
        text,
        class_table,
        one.visible_class,
        head_class(one.element.head),
    );
    Ok(ScopeElement {
        name: made_name(alloc, text, before, one.element.head)?,
        class,
        text: one.element.text,
        arguments: arguments_of(alloc, text, class, one.element.text)?,
        head: one.element.head,
    })
}

/// Appends an element.
fn push(
    scope_elements: &mut Vec<ScopeElement>,
    scope_element: ScopeElement,
) -> Result<(), AllocError>
    ensures { OnOk result (scope_elements.new.items ≡ scope_elements.old.items ++ scope_element ∷ []) }
{
    scope_elements.push(scope_element)?;
    Ok(())
}

/// Returns the elements of a scope that declares these names.
pub(crate) fn scope_elements_of(
    alloc: Global,
    text: &[u8],
    class_table: &[ClassEntry],
    in_body: bool,
    declared: &BorrowedNames,
    written: &[WrittenElement],
) -> Result<Vec<ScopeElement>, AllocError>
    ensures scope_elements { IfOk result (λ ls. (ps : List Placed) → AreWritten text.now class_table.now written.now ps → map (scope_element_of text.now) ls.items ≡ scope_elements_from text.now in_body declared.now 0 ps) }
    ensures strings { IfOk result (λ ls. strings_of ls.items ≡ strings_made text.now in_body declared.now (elements_of written.now)) }
    ensures arguments { IfOk result (λ ls. All (HasArguments text.now) ls.items) }
{
    let mut scope_elements = Vec::with_capacity(alloc, written.len())?;
    for one in written {
        if let Role::Makes = role_of(text, in_body, declared, one.element) {
            let scope_element = made(alloc, text, class_table, scope_elements.len(), *one)?;
            push(&mut scope_elements, scope_element)?;
        }
    }
    Ok(scope_elements)
}

/// Returns for each written element the number of elements before it.
pub(crate) fn numbers_of(
    alloc: Global,
    text: &[u8],
    in_body: bool,
    declared: &BorrowedNames,
    written: &[WrittenElement],
) -> Result<Vec<usize>, AllocError>
    ensures { IfOk result (λ ns. ns.items ≡ numbers_from text.now in_body declared.now 0 (elements_of written.now)) }
{
    let mut numbers = Vec::with_capacity(alloc, written.len())?;
    let mut number = 0;
    for one in written {
        numbers.push(number)?;
        if let Role::Makes = role_of(text, in_body, declared, one.element) {
            number += 1;
        }
    }
    Ok(numbers)
}
