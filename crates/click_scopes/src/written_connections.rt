//! The written connections of each scope.

ghost use Rattle.std.specs.Prelude.{◌≡◌, ℕ, List, [], ◌∷◌, ◌++◌, map, length, position, IfOk, OnOk, OnErr, if◌then◌else◌};
ghost use Rattle.std.specs.Str.{bytes_eq};
ghost use Rattle.click_text.specs.declared.syntax.Statement.{Statement};
ghost use Rattle.click_text.specs.declared.syntax.Config.{Config};
ghost use Rattle.click_scopes.specs.Elements as spec;
ghost use Rattle.click_scopes.specs.Elements.{Placed, ScopeElement, placed};
ghost use Rattle.click_base.specs.NameLists.{has_name};
ghost use Rattle.click_scopes.specs.Faults.{ScopeNames as NamesSaid, written_end, written_connections_from};
ghost use Rattle.click_scopes.specs.kept.Scoped.{ports_in};
ghost use Rattle.click_scopes.specs.kept.WrittenConnections.{IsOwner, IsEndKept, AreWrittenConnections};
ghost use Rattle.click_scopes.specs.kept.ConnectionEnds.{at, names_among, scope_elements_in, placed_elements, AreDeclared, AreNamesKnown, IsHere, AreEndsKept, AreWrittenConnectionsOf, written_connection_by};
ghost use Rattle.click_scopes.specs.kept.Tables.{elements_of, names_declared};
ghost use Rattle.click_scopes.specs.kept.FirstFault.{AreShort};

use crate::borrowed_names::BorrowedNames;
use crate::first_fault::first_token;
use crate::scope_elements::{Role, numbers_of, role_of};
use crate::written_scopes::WrittenElement;
use click_base::sequence::Sequence;
use click_text::syntax::{Config, Element, Head, Span};
use std::alloc::{AllocError, Global};

/// The owner of the port at an end of a connection.
#[derive(Clone, Copy, Debug, PartialEq, Eq, Hash)]
pub enum Owner {
    /// The body's own inputs, as a source.
    Input,
    /// The body's own outputs, as a target.
    Output,
    /// The element with this index among the scope's elements.
    Element(usize),
}

/// An end of a connection: the owner of its port, and its first token.
#[derive(Clone, Copy)]
pub struct End {
    pub owner: Owner,
    pub first: Span,
}

/// A connection as written in the text.
#[derive(Clone, Copy)]
pub struct WrittenConnection {
    pub from: End,
    pub out_port: u8,
    pub to: End,
    pub in_port: u8,
}

/// The names that a scope declares, and the index of the first written element for each name.
#[derive(Drop)]
pub(crate) struct Declared<'a> {
    pub names: BorrowedNames<'a>,
    pub firsts: Vec<usize>,
}

impl<'a> Declared<'a> {
    /// Adds the name of the written element at an index, if it is new.
    ///
    /// If it fails with out of memory, the names are unchanged.
    fn add(&mut self, name: &'a [u8], place: usize) -> Result<(), AllocError>
        ensures names { OnOk result (self.new.names ≡ (if has_name name.now self.old.names then self.old.names else self.old.names ++ name.now ∷ [])) }
        ensures firsts { OnOk result (self.new.firsts.items ≡ (if has_name name.now self.old.names then self.old.firsts.items else self.old.firsts.items ++ place ∷ [])) }
        ensures err { OnErr result (self.new.names ≡ self.old.names) }
        ensures err_firsts { OnErr result (self.new.firsts.items ≡ self.old.firsts.items) }
    {
        if !self.names.has(name) {
            self.firsts.push(place)?;
            if let Err(error) = self.names.add(name) {
                let _place = self.firsts.pop();
                return Err(error);
            }
        }
        Ok(())
    }

    /// Returns the index of the first written element with this name.
    fn first(&self, name: &[u8]) -> Option<usize>
        ensures { result ≡ at self.now.firsts.items (position (bytes_eq name.now) self.now.names) }
    {
        match self.names.place(name) {
            None => None,
            Some(place) => self.firsts.get(place).copied(),
        }
    }
}

/// Returns the names that a scope declares.
pub(crate) fn declared_in<'a>(
    alloc: Global,
    text: &'a [u8],
    written: &[WrittenElement],
) -> Result<Declared<'a>, AllocError>
    ensures first { IfOk result (λ d. AreDeclared text.now (elements_of written.now) d.names d.firsts.items) }
    ensures has { IfOk result (λ d. (name : List ℕ) → has_name name d.names ≡ has_name name (names_declared text.now (elements_of written.now))) }
{
    let names = BorrowedNames::with_room(alloc, written.len())?;
    let firsts = Vec::with_capacity(alloc, written.len())?;
    let mut declared = Declared { names, firsts };
    for (place, one) in written.iter().enumerate() {
        if let Head::Declared(name, _) = one.element.head {
            declared.add(name.of(text), place)?;
        }
    }
    Ok(declared)
}

/// Returns the index of the element that a scope declares under a name.
fn named(declared: &Declared, numbers: &[usize], name: &[u8]) -> Option<usize>
    ensures { result ≡ at numbers.now (at declared.now.firsts.items (position (bytes_eq name.now) declared.now.names)) }
{
    match declared.first(name) {
        None => None,
        Some(first) => numbers.get(first).copied(),
    }
}

/// Returns the word or the name that an element begins with.
fn word_of(text: &[u8], head: Head) -> &[u8]
    ensures { result.now ≡ spec.word_of text.now head }
{
    match head {
        Head::Word(word) => word.of(text),
        Head::Declared(name, _) => name.of(text),
        Head::Compound(_) => &[],
    }
}

/// Returns the owner of the port of a written element that follows `number` elements.
fn owner_of(
    config: &Config,
    in_body: bool,
    declared: &Declared,
    numbers: &[usize],
    number: usize,
    element: Element,
) -> Owner
    ensures { (ps : List Placed) (p : Placed) → AreNamesKnown config.now.text in_body declared.now.names declared.now.firsts.items numbers.now ps → IsHere numbers.now number element ps p →
        IsOwner (scope_elements_in config.now.text in_body ps) result (written_end config.now (names_among config.now.text in_body ps) number p) }
{
    let text = config.text.as_slice();
    let word = word_of(text, element.head);
    match role_of(text, in_body, &declared.names, element) {
        Role::Pseudo => {
            if word == b"input".as_slice() {
                Owner::Input
            } else {
                Owner::Output
            }
        }
        Role::Refers => match named(declared, numbers, word) {
            Some(place) => Owner::Element(place),
            None => Owner::Element(number),
        },
        Role::Makes => Owner::Element(number),
    }
}

/// Returns the end of a connection at a written element that follows `number` elements.
fn end_at(
    config: &Config,
    in_body: bool,
    declared: &Declared,
    numbers: &[usize],
    number: usize,
    element: Element,
) -> End
    requires { AreShort config.now.bodies }
    ensures { (ps : List Placed) (p : Placed) → AreNamesKnown config.now.text in_body declared.now.names declared.now.firsts.items numbers.now ps → IsHere numbers.now number element ps p →
        IsEndKept (scope_elements_in config.now.text in_body ps) result (written_end config.now (names_among config.now.text in_body ps) number p) }
{
    End {
        owner: owner_of(config, in_body, declared, numbers, number, element),
        first: first_token(config.bodies.as_slice(), element.head),
    }
}

/// Returns the ends at each written element of a scope.
///
/// `numbers` has the number of elements before each.
fn ends_at(
    alloc: Global,
    config: &Config,
    in_body: bool,
    declared: &Declared,
    numbers: &[usize],
    written: &[WrittenElement],
) -> Result<Vec<End>, AllocError>
    requires short { AreShort config.now.bodies }
    requires as_many { length numbers.now ≡ length written.now }
    ensures as_many { IfOk result (λ ends. length ends.items ≡ length written.now) }
    ensures ends { IfOk result (λ ends. (ps : List Placed) → AreNamesKnown config.now.text in_body declared.now.names declared.now.firsts.items numbers.now ps → placed_elements ps ≡ elements_of written.now →
        AreEndsKept (scope_elements_in config.now.text in_body ps) config.now (names_among config.now.text in_body ps) 0 ends.items ps) }
{
    let mut ends = Vec::with_capacity(alloc, written.len())?;
    for (place, one) in written.iter().enumerate() {
        let number = numbers[place];
        ends.push(end_at(config, in_body, declared, numbers, number, one.element))?;
    }
    Ok(ends)
}

/// Returns the ends at each written element of a scope that declares these names.
fn ends_of(
    alloc: Global,
    config: &Config,
    in_body: bool,
    declared: &Declared,
    written: &[WrittenElement],
) -> Result<Vec<End>, AllocError>
    requires { AreShort config.now.bodies }
    ensures as_many { IfOk result (λ ends. length ends.items ≡ length written.now) }
    ensures ends { IfOk result (λ ends. AreDeclared config.now.text (elements_of written.now) declared.now.names declared.now.firsts.items →
        ((name : List ℕ) → has_name name declared.now.names ≡ has_name name (names_declared config.now.text (elements_of written.now))) →
        (ps : List Placed) → placed_elements ps ≡ elements_of written.now →
        AreEndsKept (scope_elements_in config.now.text in_body ps) config.now (names_among config.now.text in_body ps) 0 ends.items ps) }
{
    let text = config.text.as_slice();
    let numbers = numbers_of(alloc, text, in_body, &declared.names, written)?;
    let ends = ends_at(
        alloc,
        config,
        in_body,
        declared,
        numbers.as_slice(),
        written,
    )?;
    Ok(ends)
}

/// Returns the connection from the end before to this one, if ports connect them.
fn written_connection_of(
    from: Option<End>,
    ports: Option<(u8, u8)>,
    to: End,
) -> Option<WrittenConnection>
    ensures { result ≡ written_connection_by from ports to }
{
    match (from, ports) {
        (Some(from), Some((out_port, in_port))) => Some(WrittenConnection {
            from,
            out_port,
            to,
            in_port,
        }),
        _ => None,
    }
}

/// Returns the connections between these ends, by the ports that connect them.
fn written_connections_between(
    alloc: Global,
    ends: &[End],
    written: &[WrittenElement],
) -> Result<Sequence<WrittenConnection>, AllocError>
    requires { length ends.now ≡ length written.now }
    ensures { IfOk result (λ written_connections. (c : Config) (names : NamesSaid) (ls : List ScopeElement) (visible statements : List Statement) → AreEndsKept ls c names 0 ends.now (placed visible statements) →
        map (λ w. w.ports) written.now ≡ ports_in statements → AreWrittenConnections ls written_connections (written_connections_from c names visible 0 statements)) }
{
    let mut written_connections = Sequence::new(alloc);
    let mut before = None;
    for (place, one) in written.iter().enumerate() {
        let end = ends[place];
        if let Some(written_connection) = written_connection_of(before, one.ports, end) {
            written_connections.push(written_connection)?;
        }
        before = Some(end);
    }
    Ok(written_connections)
}

/// Returns the connections of a scope that declares these names.
pub(crate) fn written_connections_in(
    alloc: Global,
    config: &Config,
    in_body: bool,
    declared: &Declared,
    written: &[WrittenElement],
) -> Result<Sequence<WrittenConnection>, AllocError>
    requires { AreShort config.now.bodies }
    ensures { IfOk result (λ written_connections. AreDeclared config.now.text (elements_of written.now) declared.now.names declared.now.firsts.items →
        ((name : List ℕ) → has_name name declared.now.names ≡ has_name name (names_declared config.now.text (elements_of written.now))) →
        AreWrittenConnectionsOf config.now in_body written.now written_connections) }
{
    let ends = ends_of(alloc, config, in_body, declared, written)?;
    let written_connections = written_connections_between(alloc, ends.as_slice(), written)?;
    Ok(written_connections)
}
