//! The written scopes of a configuration: each body at its index, and after them the whole text.

ghost use Rattle.std.specs.Prelude.{◌≡◌, List, [], ◌∷◌, ◌++◌, map, slice_get, IfOk, OnOk};
ghost use Rattle.click_text.specs.declared.syntax.Statement.{Statement};
ghost use Rattle.click_scopes.specs.Scopes.{bodies_in, class_bodies, head_bodies, link_bodies, body_statements};
ghost use Rattle.click_scopes.specs.Elements.{placed};
ghost use Rattle.click_scopes.specs.Faults as faults;
ghost use Rattle.click_scopes.specs.kept.Tables.{Shows, AreWritten, IsMore, IsEntry};
ghost use Rattle.click_scopes.specs.kept.Nesting.{IsNested};
ghost use Rattle.click_scopes.specs.kept.Scoped.{AreWrittenScopes, AreSynonyms, ports_in};
ghost use Rattle.click_scopes.specs.kept.Standing.{kept_link, kept_name, kept_elements, nested_body, AreNestedBodies, written_ports, IsDefined, AddsSynonyms};

use crate::classes::{ClassEntry, ResolvedClass, find, requires_gateway};
use click_text::syntax::{
    Body, Chain, ClassReference, Config, Declaration, Element, Head, Link, Span, Statement,
    WrittenPort,
};
use std::alloc::{AllocError, Global};

/// A written element, the last definition that is visible to it, and the ports that connect it.
///
/// The ports are those of the connection from the element before it in its chain.
#[derive(Clone, Copy)]
pub struct WrittenElement {
    pub element: Element,
    pub visible_class: Option<usize>,
    pub ports: Option<(u8, u8)>,
}

/// A body, the index of the scope around it, and the last definition that is visible before it.
#[derive(Clone, Copy)]
pub struct NestedBody {
    pub body: usize,
    pub parent: usize,
    pub visible_class: Option<usize>,
}

/// A written scope: its written elements, and the index of the scope around it.
///
/// The whole text has its own index there.
#[derive(Drop)]
pub struct WrittenScope {
    pub written: Vec<WrittenElement>,
    pub parent: usize,
}

/// The written scopes of a configuration, and the definitions of classes in them.
///
/// Each body is at its index, and the whole text after them.
#[derive(Drop)]
pub struct WrittenScopes {
    pub scopes: Vec<WrittenScope>,
    pub class_table: Vec<ClassEntry>,
}

/// Returns the number of a port, which is 0 if none is written.
fn port_number(port: Option<WrittenPort>) -> u8
    ensures { result ≡ faults.port_number port }
{
    match port {
        None => 0,
        Some(port) => port.number,
    }
}

/// Appends the further elements of a chain.
fn push_links(
    written: &mut Vec<WrittenElement>,
    links: &[Link],
    visible_class: Option<usize>,
) -> Result<(), AllocError>
    ensures { OnOk result (written.new.items ≡ written.old.items ++ map (λ l. kept_link visible_class l) links.now) }
{
    for link in links {
        written.push(WrittenElement {
            element: link.element,
            visible_class,
            ports: Some((port_number(link.from), port_number(link.to))),
        })?;
    }
    Ok(())
}

/// Appends the elements of a declaration of several names.
fn push_names(
    written: &mut Vec<WrittenElement>,
    declaration: &Declaration,
    visible_class: Option<usize>,
) -> Result<(), AllocError>
    ensures { OnOk result (written.new.items ≡ written.old.items ++ map (λ n. kept_name declaration.now visible_class n) declaration.now.names) }
{
    for name in declaration.names.as_slice() {
        written.push(WrittenElement {
            element: Element {
                head: Head::Declared(*name, declaration.class),
                text: declaration.text,
            },
            visible_class,
            ports: None,
        })?;
    }
    Ok(())
}

/// Appends the elements of a chain.
fn push_chain(
    written: &mut Vec<WrittenElement>,
    chain: &Chain,
    visible_class: Option<usize>,
) -> Result<(), AllocError>
    ensures { OnOk result (written.new.items ≡ written.old.items ++ kept_elements visible_class (Statement.Chain chain.now)) }
{
    written.push(WrittenElement {
        element: chain.first,
        visible_class,
        ports: None,
    })?;
    push_links(written, chain.links.as_slice(), visible_class)
}

/// Appends the elements of a statement.
fn push_elements(
    written: &mut Vec<WrittenElement>,
    statement: &Statement,
    visible_class: Option<usize>,
) -> Result<(), AllocError>
    ensures { OnOk result (written.new.items ≡ written.old.items ++ kept_elements visible_class statement.now) }
{
    match statement {
        Statement::Chain(chain) => push_chain(written, chain, visible_class),
        Statement::Declaration(declaration) => push_names(written, declaration, visible_class),
        _ => Ok(()),
    }
}

/// Appends a body in a scope.
fn push_nested_body(
    nested_bodies: &mut Vec<NestedBody>,
    body: usize,
    parent: usize,
    visible_class: Option<usize>,
) -> Result<(), AllocError>
    ensures { OnOk result (nested_bodies.new.items ≡ nested_bodies.old.items ++ map (nested_body parent visible_class) (body ∷ [])) }
{
    nested_bodies.push(NestedBody {
        body,
        parent,
        visible_class,
    })?;
    Ok(())
}

fn push_class_nested_body(
    nested_bodies: &mut Vec<NestedBody>,
    class: ClassReference,
    parent: usize,
    visible_class: Option<usize>,
) -> Result<(), AllocError>
    ensures { OnOk result (nested_bodies.new.items ≡ nested_bodies.old.items ++ map (nested_body parent visible_class) (class_bodies class)) }
{
    match class {
        ClassReference::Named(_) => Ok(()),
        ClassReference::Body(body) => push_nested_body(nested_bodies, body, parent, visible_class),
    }
}

fn push_head_nested_body(
    nested_bodies: &mut Vec<NestedBody>,
    head: Head,
    parent: usize,
    visible_class: Option<usize>,
) -> Result<(), AllocError>
    ensures { OnOk result (nested_bodies.new.items ≡ nested_bodies.old.items ++ map (nested_body parent visible_class) (head_bodies head)) }
{
    match head {
        Head::Word(_) => Ok(()),
        Head::Declared(_, class) => push_class_nested_body(
            nested_bodies,
            class,
            parent,
            visible_class,
        ),
        Head::Compound(body) => push_nested_body(nested_bodies, body, parent, visible_class),
    }
}

fn push_link_nested_bodies(
    nested_bodies: &mut Vec<NestedBody>,
    links: &[Link],
    parent: usize,
    visible_class: Option<usize>,
) -> Result<(), AllocError>
    ensures { OnOk result (nested_bodies.new.items ≡ nested_bodies.old.items ++ map (nested_body parent visible_class) (link_bodies links.now)) }
{
    for link in links {
        push_head_nested_body(nested_bodies, link.element.head, parent, visible_class)?;
    }
    Ok(())
}

fn push_chain_nested_bodies(
    nested_bodies: &mut Vec<NestedBody>,
    chain: &Chain,
    parent: usize,
    visible_class: Option<usize>,
) -> Result<(), AllocError>
    ensures { OnOk result (nested_bodies.new.items ≡ nested_bodies.old.items ++ map (nested_body parent visible_class) (bodies_in (Statement.Chain chain.now))) }
{
    push_head_nested_body(nested_bodies, chain.first.head, parent, visible_class)?;
    push_link_nested_bodies(nested_bodies, chain.links.as_slice(), parent, visible_class)
}

/// Appends the bodies in a statement.
fn push_nested_bodies(
    nested_bodies: &mut Vec<NestedBody>,
    statement: &Statement,
    parent: usize,
    visible_class: Option<usize>,
) -> Result<(), AllocError>
    ensures { OnOk result (nested_bodies.new.items ≡ nested_bodies.old.items ++ map (nested_body parent visible_class) (bodies_in statement.now)) }
{
    match statement {
        Statement::Chain(chain) => push_chain_nested_bodies(
            nested_bodies,
            chain,
            parent,
            visible_class,
        ),
        Statement::Declaration(declaration) => {
            push_class_nested_body(nested_bodies, declaration.class, parent, visible_class)
        }
        Statement::Definition { name: _, body } => push_nested_body(
            nested_bodies,
            *body,
            parent,
            visible_class,
        ),
        _ => Ok(()),
    }
}

/// Returns the definition that a statement makes, if it makes one.
///
/// The last definition that is visible has the index `visible_class`.
fn entry_of(
    text: &[u8],
    class_table: &[ClassEntry],
    statement: &Statement,
    visible_class: Option<usize>,
) -> Option<ClassEntry>
    ensures { (visible : List Statement) → Shows text.now class_table.now visible_class visible → IsEntry text.now visible visible_class statement.now result }
{
    match statement {
        Statement::Definition { name, body } => Some(ClassEntry {
            name: *name,
            class: Some(ResolvedClass::Compound(*body)),
            older: visible_class,
            original: None,
            gateway: false,
        }),
        Statement::Synonym { name, class } => Some(ClassEntry {
            name: *name,
            class: find(text, class_table, visible_class, *class),
            older: visible_class,
            original: Some(*class),
            gateway: false,
        }),
        Statement::Requirement { text: required } if requires_gateway(text, *required) => {
            Some(ClassEntry {
                name: Span { start: 0, end: 0 },
                class: None,
                older: visible_class,
                original: None,
                gateway: true,
            })
        }
        _ => None,
    }
}

/// Appends the definition that a statement makes, if it makes one.
///
/// Returns the index of the last definition that is visible after the statement.
fn define(
    text: &[u8],
    class_table: &mut Vec<ClassEntry>,
    statement: &Statement,
    visible_class: Option<usize>,
) -> Result<Option<usize>, AllocError>
    ensures grows { IsMore class_table.old.items class_table.new.items }
    ensures shows { IfOk result (λ behind. (visible : List Statement) → Shows text.now class_table.old.items visible_class visible → Shows text.now class_table.new.items behind (statement.now ∷ visible)) }
    ensures adds { OnOk result ((visible : List Statement) → Shows text.now class_table.old.items visible_class visible → IsDefined text.now visible visible_class statement.now class_table.old.items class_table.new.items) }
{
    match entry_of(text, class_table.as_slice(), statement, visible_class) {
        None => Ok(visible_class),
        Some(entry) => {
            let place = class_table.len();
            class_table.push(entry)?;
            Ok(Some(place))
        }
    }
}

/// Returns a written scope, and appends its definitions and its bodies.
fn written_scope(
    alloc: Global,
    text: &[u8],
    statements: &[Statement],
    class_table: &mut Vec<ClassEntry>,
    nested_bodies: &mut Vec<NestedBody>,
    nested_body: NestedBody,
) -> Result<WrittenScope, AllocError>
    ensures grows { IsMore class_table.old.items class_table.new.items }
    ensures written { IfOk result (λ s. (visible : List Statement) → Shows text.now class_table.old.items nested_body.visible_class visible → AreWritten text.now class_table.new.items s.written.items (placed visible statements.now)) }
    ensures nested_bodies { OnOk result ((visible : List Statement) → Shows text.now class_table.old.items nested_body.visible_class visible → AreNestedBodies text.now class_table.new.items nested_body.body visible statements.now nested_bodies.old.items nested_bodies.new.items) }
    ensures ports { IfOk result (λ s. written_ports s.written.items ≡ ports_in statements.now) }
    ensures parent { IfOk result (λ s. s.parent ≡ nested_body.parent) }
    ensures synonyms { OnOk result ((visible : List Statement) → Shows text.now class_table.old.items nested_body.visible_class visible → AddsSynonyms text.now visible statements.now class_table.old.items class_table.new.items) }
{
    let mut written = Vec::new(alloc);
    let mut visible_class = nested_body.visible_class;
    for statement in statements {
        push_elements(&mut written, statement, visible_class)?;
        push_nested_bodies(nested_bodies, statement, nested_body.body, visible_class)?;
        visible_class = define(text, class_table, statement, visible_class)?;
    }
    Ok(WrittenScope {
        written,
        parent: nested_body.parent,
    })
}

/// Returns the statements of the body at an index.
fn statements_at(bodies: &[Body], place: usize) -> &[Statement]
    ensures { result.now ≡ body_statements (slice_get bodies.now place) }
{
    match bodies.get(place) {
        Some(body) => body.statements.as_slice(),
        None => &[],
    }
}

/// Appends a scope.
fn push_scope(scopes: &mut Vec<WrittenScope>, scope: WrittenScope) -> Result<(), AllocError>
    ensures { OnOk result (scopes.new.items ≡ scopes.old.items ++ scope ∷ []) }
{
    scopes.push(scope)?;
    Ok(())
}

/// Returns the written scopes of a configuration, and the definitions of classes in them.
pub fn scopes_of(alloc: Global, config: &Config) -> Result<WrittenScopes, AllocError>
    requires { IsNested config.now }
    ensures scopes { IfOk result (λ r. AreWrittenScopes config.now r.class_table.items r.scopes.items) }
    ensures synonyms { IfOk result (λ r. AreSynonyms config.now r.class_table.items) }
{
    let text = config.text.as_slice();
    let bodies = config.bodies.as_slice();
    let statements = config.statements.as_slice();
    let count = bodies.len();
    let mut class_table = Vec::new(alloc);
    let mut nested_bodies = Vec::new(alloc);
    let mut scopes = Vec::new(alloc);
    let whole_text = NestedBody {
        body: count,
        parent: count,
        visible_class: None,
    };
    let scope = written_scope(
        alloc,
        text,
        statements,
        &mut class_table,
        &mut nested_bodies,
        whole_text,
    )?;
    push_scope(&mut scopes, scope)?;
    while let Some(nested_body) = nested_bodies.pop() {
        let inner = statements_at(bodies, nested_body.body);
        let scope = written_scope(
            alloc,
            text,
            inner,
            &mut class_table,
            &mut nested_bodies,
            nested_body,
        )?;
        push_scope(&mut scopes, scope)?;
    }
    scopes.reverse();
    Ok(WrittenScopes {
        scopes,
        class_table,
    })
}
