//! Wrong numbers of arguments, and ports that a compound does not have: the first one in the text.

ghost use Rattle.std.specs.Prelude.{◌≡◌, length, slice_get, IfOk};
ghost use Rattle.click_scopes.specs.Analysis.{AreScopes};
ghost use Rattle.click_scopes.specs.kept.Nesting.{IsNested};
ghost use Rattle.click_scopes.specs.Scopes.{body_formals};
ghost use Rattle.click_scopes.specs.kept.FirstFault.{AreShort, IsLeast, IsCompoundFault};
ghost use Rattle.click_scopes.specs.kept.Lookups.{scope_element_body};
ghost use Rattle.click_scopes.specs.kept.CompoundFaults as spec;
ghost use Rattle.click_scopes.specs.kept.CompoundFaults.{call_fault_at, lacking, source_by, target_by, Among, IsWrongCall, IsWrongWrittenConnection, IsWrongIn, IsCompoundFaultOfBody};

use crate::fault::WrongUse;
use crate::first_fault::{TokenFault, first_of, first_token, wrong_if};
use crate::ports::{Ports, all_ports, ports_at};
use crate::scope_elements::ScopeElement;
use crate::scopes::Scopes;
use crate::written_connections::{Owner, WrittenConnection};
use click_text::syntax::{Body, Config, Head, Span};
use std::alloc::{AllocError, Global};

/// Returns the body of the element at an index, if the element is a compound.
fn compound_in(scope_elements: &[ScopeElement], place: usize) -> Option<usize>
    ensures { result ≡ scope_element_body (slice_get scope_elements.now place) }
{
    scope_elements.get(place)?.body()
}

/// Returns the number of parameters of a body.
fn formals_count(bodies: &[Body], body: usize) -> usize
    ensures { result ≡ length (body_formals (slice_get bodies.now body)) }
{
    match bodies.get(body) {
        Some(found) => found.formals.len(),
        None => 0,
    }
}

/// Returns the misuse of an element with a wrong number of arguments for its compound.
fn wrong_call(bodies: &[Body], scope_element: &ScopeElement) -> Option<TokenFault>
    requires { AreShort bodies.now }
    ensures { result ≡ call_fault_at bodies.now scope_element.now }
{
    match scope_element.body() {
        Some(body) => wrong_if(
            scope_element.arguments.len() != formals_count(bodies, body),
            WrongUse::WrongParameters,
            first_token(bodies, scope_element.head),
        ),
        None => None,
    }
}

/// Returns the first element of a scope with a wrong number of arguments.
fn in_calls(bodies: &[Body], scope_elements: &[ScopeElement]) -> Option<TokenFault>
    requires { AreShort bodies.now }
    ensures { IsLeast (Among (IsWrongCall bodies.now scope_elements.now) (length scope_elements.now)) result }
{
    let mut first = None;
    for scope_element in scope_elements {
        first = first_of(first, wrong_call(bodies, scope_element));
    }
    first
}

/// Returns the misuse of a port that does not exist. `count` is the number of ports, if it is
/// known.
fn lacking_port(count: Option<usize>, port: u8, first: Span) -> Option<TokenFault>
    ensures { result ≡ lacking count port first }
{
    match count {
        Some(count) => wrong_if(port as usize >= count, WrongUse::CompoundPort, first),
        None => None,
    }
}

/// Returns the misuse of the source of a written connection.
fn wrong_source(
    scope_elements: &[ScopeElement],
    ports: &[Ports],
    written_connection: &WrittenConnection,
) -> Option<TokenFault>
    ensures { result ≡ source_by scope_elements.now ports.now written_connection.now.from.owner written_connection.now.out_port written_connection.now.from.first }
{
    let first = written_connection.from.first;
    match written_connection.from.owner {
        Owner::Input => None,
        Owner::Output => wrong_if(true, WrongUse::CompoundPort, first),
        Owner::Element(place) => match compound_in(scope_elements, place) {
            Some(body) => lacking_port(
                Some(ports_at(ports, body).outputs),
                written_connection.out_port,
                first,
            ),
            None => None,
        },
    }
}

/// Returns the misuse of the target of a written connection.
fn wrong_target(
    scope_elements: &[ScopeElement],
    ports: &[Ports],
    written_connection: &WrittenConnection,
) -> Option<TokenFault>
    ensures { result ≡ target_by scope_elements.now ports.now written_connection.now.to.owner written_connection.now.in_port written_connection.now.to.first }
{
    let first = written_connection.to.first;
    match written_connection.to.owner {
        Owner::Input => wrong_if(true, WrongUse::CompoundPort, first),
        Owner::Output => None,
        Owner::Element(place) => match compound_in(scope_elements, place) {
            Some(body) => lacking_port(
                Some(ports_at(ports, body).inputs),
                written_connection.in_port,
                first,
            ),
            None => None,
        },
    }
}

/// Returns the first misuse of an end of a scope's connections.
fn in_written_connections(
    scope_elements: &[ScopeElement],
    ports: &[Ports],
    written_connections: &[WrittenConnection],
) -> Option<TokenFault>
    ensures { IsLeast (Among (IsWrongWrittenConnection scope_elements.now ports.now written_connections.now) (length written_connections.now)) result }
{
    let mut first = None;
    for written_connection in written_connections {
        let source = wrong_source(scope_elements, ports, written_connection);
        let target = wrong_target(scope_elements, ports, written_connection);
        first = first_of(first, first_of(source, target));
    }
    first
}

/// Returns the first misuse in the scope at an index.
fn in_scope(bodies: &[Body], scopes: &Scopes, ports: &[Ports], place: usize) -> Option<TokenFault>
    requires { AreShort bodies.now }
    ensures { IsLeast (IsWrongIn bodies.now scopes.now.scopes.items ports.now place) result }
{
    let elements = scopes.elements_at(place);
    let call = in_calls(bodies, elements);
    let written_connection = in_written_connections(elements, ports, scopes.connections_at(place));
    first_of(call, written_connection)
}

/// Returns the misuse of a body with an unused port below its highest one.
fn wrong_ports(bodies: &[Body], ports: &[Ports], place: usize) -> Option<TokenFault>
    requires { AreShort bodies.now }
    ensures { result ≡ spec.gap_at bodies.now ports.now place }
{
    wrong_if(
        ports_at(ports, place).gap,
        WrongUse::CompoundPort,
        first_token(bodies, Head::Compound(place)),
    )
}

/// Returns the first misuse in any body.
fn in_bodies(bodies: &[Body], scopes: &Scopes, ports: &[Ports]) -> Option<TokenFault>
    requires { AreShort bodies.now }
    ensures { IsLeast (Among (IsCompoundFaultOfBody bodies.now scopes.now.scopes.items ports.now) (length bodies.now)) result }
{
    let mut first = None;
    for place in 0..bodies.len() {
        let inside = in_scope(bodies, scopes, ports, place);
        let gap = wrong_ports(bodies, ports, place);
        first = first_of(first, first_of(inside, gap));
    }
    first
}

/// Returns the first misuse of a compound, in any scope.
///
/// It is an element with a wrong number of arguments, or a port that its compound does not have.
pub fn first_compound_fault(
    alloc: Global,
    config: &Config,
    scopes: &Scopes,
) -> Result<Option<TokenFault>, AllocError>
    requires nested { IsNested config.now }
    requires scopes { AreScopes config.now scopes.now }
    ensures { IfOk result (IsLeast (IsCompoundFault config.now)) }
{
    let bodies = config.bodies.as_slice();
    let ports = all_ports(alloc, config, scopes)?;
    let inside = in_bodies(bodies, scopes, ports.as_slice());
    let enclosing = in_scope(bodies, scopes, ports.as_slice(), bodies.len());
    Ok(first_of(inside, enclosing))
}
