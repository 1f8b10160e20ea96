//! The search for the connections of a flat configuration.

ghost use Rattle.std.specs.Prelude.{◌≡◌, ◌≤◌, ◌<◌, ◌∷◌, [], ℕ, List, length, Contains, OnOk, IfOk, MatchOption};
ghost use Rattle.click_expand.specs.declared.flat.Connection.{Connection};
ghost use Rattle.click_scopes.specs.kept.Nesting.{IsNested};
ghost use Rattle.click_scopes.specs.Faults.{IsFaultless};
ghost use Rattle.click_scopes.specs.Analysis.{AreScopes};
ghost use Rattle.click_expand.specs.Instances.{PrimitiveElement as Flattened};
ghost use Rattle.click_expand.specs.kept.KnownInstances.{KnownInstance, AreInstances};
ghost use Rattle.click_expand.specs.Flat.{AreConnections, AreOrdered, Joins, most_connections};
ghost use Rattle.click_expand.specs.kept.Wiring as spec;
ghost use Rattle.click_expand.specs.kept.Wiring.{Connects, IsFrom, IsFromPort, IsFromInstance, Gains, HasAll, Takes};

use crate::connections::connection_index::{
    ConnectionIndex, FlatInput, InstancePort, Reached, ScopePort, next_of,
};
use crate::connections::order::in_order;
use crate::connections::passthrough::all_indices;
use crate::flat::Connection;
use crate::instances::tree::{Instance, InstancePart, Instances};
use click_scopes::{Owner, Scopes};
use click_text::syntax::Config;
use indexmap::IndexSet;
use std::alloc::{AllocError, Global};

/// The maximum number of connections.
pub const MAX_CONNECTIONS: usize = 16384;

/// An output of a flat element: the element's index, and the port where a search from it starts.
#[derive(Clone, Copy)]
struct Output {
    primitive_element: usize,
    start: InstancePort,
}

/// Returns the connection from an output to an input.
fn connection(from: Output, to: FlatInput) -> Connection
    ensures { result ≡ spec.connection from.primitive_element from.start.port.number to }
{
    Connection {
        from: from.primitive_element,
        out_port: from.start.port.number,
        to: to.primitive_element,
        in_port: to.number,
    }
}

/// Records what a connection leads to: a port where the search continues, or a found connection.
fn take(
    next: Reached,
    from: Output,
    seen: &mut IndexSet<InstancePort>,
    found: &mut IndexSet<Connection>,
) -> Result<(), AllocError>
    ensures { OnOk result (Takes from.primitive_element from.start.port.number (next ∷ []) seen.old.keys seen.new.keys found.old.keys found.new.keys) }
{
    match next {
        Reached::Nothing => {}
        Reached::Start(start) => {
            seen.insert(start)?;
        }
        Reached::PrimitiveElement(input) => {
            found.insert(connection(from, input))?;
        }
    }
    Ok(())
}

/// Records what connections to each of these ports of an instance lead to.
fn take_all(
    one: &Instance,
    ends: &[ScopePort],
    from: Output,
    seen: &mut IndexSet<InstancePort>,
    found: &mut IndexSet<Connection>,
) -> Result<(), AllocError>
    ensures { OnOk result (Takes from.primitive_element from.start.port.number (spec.all_reached one.now ends.now) seen.old.keys seen.new.keys found.old.keys found.new.keys) }
{
    for end in ends {
        take(next_of(one, *end), from, seen, found)?;
    }
    Ok(())
}

/// Continues the search at `start`, with the ports that the index of its scope has for it.
fn visit(
    instances: &[Instance],
    indices: &[ConnectionIndex],
    start: InstancePort,
    from: Output,
    seen: &mut IndexSet<InstancePort>,
    found: &mut IndexSet<Connection>,
) -> Result<(), AllocError>
    ensures { OnOk result (spec.Visits instances.now indices.now start from.primitive_element from.start.port.number seen.old.keys seen.new.keys found.old.keys found.new.keys) }
{
    let Some(one) = instances.get(start.within) else {
        return Ok(());
    };
    let Some(index) = indices.get(one.scope) else {
        return Ok(());
    };
    take_all(one, index.ends(start.port), from, seen, found)
}

/// Adds the connections from an output: all of them, if there are no more than the limit.
fn search(
    alloc: Global,
    instances: &[Instance],
    indices: &[ConnectionIndex],
    from: Output,
    found: &mut IndexSet<Connection>,
) -> Result<(), AllocError>
    ensures more { OnOk result (Gains (IsFrom instances.now indices.now from.primitive_element from.start) found.old.keys found.new.keys) }
    ensures all { OnOk result (length found.new.keys ≤ most_connections → HasAll (IsFrom instances.now indices.now from.primitive_element from.start) found.new.keys) }
{
    if found.len() > MAX_CONNECTIONS {
        return Ok(());
    }
    let mut seen = IndexSet::new(alloc);
    visit(instances, indices, from.start, from, &mut seen, found)?;
    let mut at = 0;
    while at < seen.len() && found.len() <= MAX_CONNECTIONS {
        let start = seen.as_slice()[at];
        visit(instances, indices, start, from, &mut seen, found)?;
        at += 1;
    }
    Ok(())
}

/// Adds the connections from a port of an instance, if it is an output of a flat element.
fn search_port(
    alloc: Global,
    instances: &[Instance],
    indices: &[ConnectionIndex],
    within: usize,
    port: ScopePort,
    found: &mut IndexSet<Connection>,
) -> Result<(), AllocError>
    ensures more { OnOk result (Gains (IsFromPort instances.now indices.now within port) found.old.keys found.new.keys) }
    ensures all { OnOk result (length found.new.keys ≤ most_connections → HasAll (IsFromPort instances.now indices.now within port) found.new.keys) }
{
    let Some(one) = instances.get(within) else {
        return Ok(());
    };
    let Owner::Element(element) = port.owner else {
        return Ok(());
    };
    let Some(InstancePart::PrimitiveElement(primitive_element)) = one
        .parts
        .as_slice()
        .get(element)
        .copied()
    else {
        return Ok(());
    };
    let start = InstancePort { within, port };
    search(
        alloc,
        instances,
        indices,
        Output {
            primitive_element,
            start,
        },
        found,
    )
}

/// Adds the connections from an instance.
fn search_instance(
    alloc: Global,
    instances: &[Instance],
    indices: &[ConnectionIndex],
    within: usize,
    found: &mut IndexSet<Connection>,
) -> Result<(), AllocError>
    ensures more { OnOk result (Gains (IsFromInstance instances.now indices.now within) found.old.keys found.new.keys) }
    ensures all { OnOk result (length found.new.keys ≤ most_connections → HasAll (IsFromInstance instances.now indices.now within) found.new.keys) }
{
    let Some(one) = instances.get(within) else {
        return Ok(());
    };
    let Some(index) = indices.get(one.scope) else {
        return Ok(());
    };
    for at in 0..index.ends.len() {
        if let Some((port, _)) = index.ends.get_index(at) {
            search_port(alloc, instances, indices, within, *port, found)?;
        }
    }
    Ok(())
}

/// Returns the connections: all of them, if there are no more than the limit.
///
/// Room for `room` connections is allocated at first.
fn search_all(
    alloc: Global,
    room: usize,
    instances: &[Instance],
    indices: &[ConnectionIndex],
) -> Result<IndexSet<Connection>, AllocError>
    ensures sound { IfOk result (λ found. (k : Connection) → Contains found.keys k → Connects instances.now indices.now k) }
    ensures all { IfOk result (λ found. length found.keys ≤ most_connections → HasAll (Connects instances.now indices.now) found.keys) }
{
    let mut found = IndexSet::with_capacity(alloc, room)?;
    for within in 0..instances.len() {
        search_instance(alloc, instances, indices, within, &mut found)?;
    }
    Ok(found)
}

/// Returns the connections in order, without repetition, or `None` if there are more than the
/// limit.
pub fn connections_of(
    alloc: Global,
    config: &Config,
    scopes: &Scopes,
    instances: &Instances,
) -> Result<Option<Vec<Connection>>, AllocError>
    requires nested { IsNested config.now }
    requires sound { IsFaultless config.now }
    requires scopes { AreScopes config.now scopes.now }
    requires used { (primitive_elements : List Flattened) × (known : List KnownInstance) × AreInstances config.now instances.now.instances.items instances.now.primitive_elements.items known primitive_elements }
    ensures { IfOk result (λ r. (primitive_elements : List Flattened) (known : List KnownInstance) → AreInstances config.now instances.now.instances.items instances.now.primitive_elements.items known primitive_elements →
        MatchOption r ((ks : List Connection) × AreOrdered ks × ((k : Connection) → Contains ks k → Joins config.now primitive_elements k) × (most_connections < length ks))
        (λ ks. AreConnections config.now primitive_elements ks.items × (length ks.items ≤ most_connections))) }
{
    let indices = all_indices(alloc, scopes)?;
    // perf: usually one connection leads to each element.
    let room = instances.primitive_elements.len();
    let found = search_all(
        alloc,
        room,
        instances.instances.as_slice(),
        indices.as_slice(),
    )?;
    let all = in_order(Vec::from_slice(alloc, found.as_slice())?);
    if all.len() > MAX_CONNECTIONS {
        Ok(None)
    } else {
        Ok(Some(all))
    }
}
