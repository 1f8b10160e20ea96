//! The scopes of a configuration: what each declares and connects.

ghost use Rattle.std.specs.Prelude.{◌≡◌, ◌∷◌, ◌++◌, [], slice_get, IfOk, OnOk};
ghost use Rattle.click_scopes.specs.kept.Nesting.{IsNested};
ghost use Rattle.click_scopes.specs.kept.Scoped.{AreWrittenScopes};
ghost use Rattle.click_scopes.specs.kept.FirstFault.{AreShort};
ghost use Rattle.click_scopes.specs.kept.AllScopes.{IsScopeOf, AreAllScopes};
ghost use Rattle.click_scopes.specs.kept.Lookups as spec;

use crate::classes::{ClassEntry, ResolvedClass};
use crate::compound_arguments::string_inside;
use crate::scope_elements::{ScopeElement, scope_elements_of};
use crate::written_connections::{WrittenConnection, declared_in, written_connections_in};
use crate::written_scopes::{WrittenScope, WrittenScopes};
use click_base::Class;
use click_base::sequence::Sequence;
use click_text::syntax::{Config, Head, Span};
use std::alloc::{AllocError, Global};

/// A scope: its elements, its written connections, and the index of the scope around it.
///
/// The whole text has its own index there.
#[derive(Drop)]
pub struct Scope {
    pub elements: Vec<ScopeElement>,
    pub connections: Sequence<WrittenConnection>,
    pub parent: usize,
}

/// The scopes of a configuration: each body at its index, and after them the whole text.
#[derive(Drop)]
pub struct Scopes {
    pub scopes: Vec<Scope>,
}

impl Scopes {
    /// Returns the elements of the scope at an index.
    pub fn elements_at(&self, scope: usize) -> &[ScopeElement]
        ensures { result.now ≡ spec.elements_by (slice_get self.now.scopes.items scope) }
    {
        match self.scopes.get(scope) {
            Some(one) => one.elements.as_slice(),
            None => &[],
        }
    }

    /// Returns the connections of the scope at an index.
    pub fn connections_at(&self, scope: usize) -> &[WrittenConnection]
        ensures { result.now ≡ spec.connections_by (slice_get self.now.scopes.items scope) }
    {
        match self.scopes.get(scope) {
            Some(one) => one.connections.as_slice(),
            None => &[],
        }
    }

    /// Returns the index of the scope around a scope.
    pub fn parent_of(&self, scope: usize) -> usize
        ensures { result ≡ spec.parent_by (slice_get self.now.scopes.items scope) }
    {
        match self.scopes.get(scope) {
            Some(one) => one.parent,
            None => 0,
        }
    }

    /// Returns the body of an element of a scope, if the element is a compound.
    pub fn body_at(&self, scope: usize, element: usize) -> Option<usize>
        ensures { result ≡ spec.body_at self.now.scopes.items scope element }
    {
        self.scopes.get(scope)?.elements.get(element)?.body()
    }

    /// Returns the class of an element of a scope, if it is one of the router's.
    pub fn class_at(&self, scope: usize, element: usize) -> Option<Class>
        ensures { result ≡ spec.class_found (slice_get self.now.scopes.items scope) element }
    {
        match self.scopes.get(scope)?.elements.get(element)?.class {
            Some(ResolvedClass::Primitive(class)) => Some(class),
            _ => None,
        }
    }

    /// Returns the name of an element in its scope.
    pub fn name_at(&self, scope: usize, element: usize) -> &[u8]
        ensures { result.now ≡ spec.scope_name element (slice_get self.now.scopes.items scope) }
    {
        let Some(one) = self.scopes.get(scope) else {
            return &[];
        };
        match one.elements.get(element) {
            Some(scope_element) => scope_element.name.as_slice(),
            None => &[],
        }
    }

    /// Returns the head of an element of a scope, if there is such an element.
    pub fn head_at(&self, scope: usize, element: usize) -> Option<Head>
        ensures { result ≡ spec.scope_head element (slice_get self.now.scopes.items scope) }
    {
        let scope_element = self.scopes.get(scope)?.elements.get(element)?;
        Some(scope_element.head)
    }

    /// Returns the text in the configuration string of an element.
    pub fn string_at<'a>(&self, text: &'a [u8], scope: usize, element: usize) -> &'a [u8]
        ensures { result.now ≡ spec.string_found text.now (slice_get self.now.scopes.items scope) element }
    {
        let Some(one) = self.scopes.get(scope) else {
            return &[];
        };
        match one.elements.get(element) {
            Some(scope_element) => string_inside(text, scope_element.text),
            None => &[],
        }
    }

    /// Returns the spans of an element's arguments in its configuration string.
    pub fn arguments_at(&self, scope: usize, element: usize) -> &[Span]
        ensures { result.now ≡ spec.spans_found (slice_get self.now.scopes.items scope) element }
    {
        let Some(one) = self.scopes.get(scope) else {
            return &[];
        };
        match one.elements.get(element) {
            Some(scope_element) => scope_element.arguments.as_slice(),
            None => &[],
        }
    }
}

/// Returns the scope with these written elements.
fn scope_of(
    alloc: Global,
    config: &Config,
    class_table: &[ClassEntry],
    in_body: bool,
    written: &WrittenScope,
) -> Result<Scope, AllocError>
    requires { AreShort config.now.bodies }
    ensures { IfOk result (λ scope. IsScopeOf config.now class_table.now in_body written.now scope) }
{
    let text = config.text.as_slice();
    let all = written.written.as_slice();
    let declared = declared_in(alloc, text, all)?;
    let elements = scope_elements_of(alloc, text, class_table, in_body, &declared.names, all)?;
    let connections = written_connections_in(alloc, config, in_body, &declared, all)?;
    Ok(Scope {
        elements,
        connections,
        parent: written.parent,
    })
}

/// Appends a scope.
fn push_scope(scopes: &mut Vec<Scope>, scope: Scope) -> Result<(), AllocError>
    ensures { OnOk result (scopes.new.items ≡ scopes.old.items ++ scope ∷ []) }
{
    scopes.push(scope)?;
    Ok(())
}

/// Returns the scopes of a configuration, from its written scopes.
pub(crate) fn all_scopes(
    alloc: Global,
    config: &Config,
    written: &WrittenScopes,
) -> Result<Scopes, AllocError>
    requires nested { IsNested config.now }
    requires short { AreShort config.now.bodies }
    requires scoped { AreWrittenScopes config.now written.now.class_table.items written.now.scopes.items }
    ensures { IfOk result (λ all. AreAllScopes config.now all.scopes.items) }
{
    let count = config.bodies.len();
    let class_table = written.class_table.as_slice();
    let mut scopes = Vec::new(alloc);
    for (place, one) in written.scopes.as_slice().iter().enumerate() {
        let scope = scope_of(alloc, config, class_table, place < count, one)?;
        push_scope(&mut scopes, scope)?;
    }
    Ok(Scopes { scopes })
}
