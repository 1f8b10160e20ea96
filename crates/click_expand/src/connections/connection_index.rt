//! The connections of a scope, indexed by their source ports, and what their target ports lead to.

ghost use Rattle.std.specs.Prelude.{◌≡◌, ◌∷◌, ◌++◌, [], OnOk, OnErr, IfOk, if◌then◌else◌};
ghost use Rattle.click_expand.specs.declared.connections.connection_index.ScopePort.{ScopePort};
ghost use Rattle.click_expand.specs.kept.Wiring as spec;
ghost use Rattle.click_expand.specs.kept.Wiring.{IsIndex, ends_in, ends_of, same_port, reached_by};

use crate::instances::tree::{Instance, InstancePart, Place};
use click_scopes::{Owner, WrittenConnection};
use indexmap::IndexMap;
use std::alloc::{AllocError, Global};
use std::slice::from_ref;

/// A port in a scope: of the body itself, or of one of its elements.
#[derive(Clone, Copy, Debug, PartialEq, Eq, Hash)]
pub struct ScopePort {
    pub owner: Owner,
    pub number: u8,
}

/// A port in an instance of its scope, where connections continue.
#[derive(Clone, Copy, Debug, PartialEq, Eq, Hash)]
pub struct InstancePort {
    pub within: usize,
    pub port: ScopePort,
}

/// An input of a flat element.
#[derive(Clone, Copy, Debug, PartialEq, Eq)]
pub struct FlatInput {
    pub primitive_element: usize,
    pub number: u8,
}

/// What a connection leads to.
#[derive(Clone, Copy, Debug, PartialEq, Eq)]
pub enum Reached {
    /// A port where further connections continue.
    Start(InstancePort),
    /// An input of a flat element.
    PrimitiveElement(FlatInput),
    /// Nothing.
    Nothing,
}

/// The ports that connections lead to from a port.
///
/// perf: usually there is one, which needs no allocation.
#[derive(Drop)]
pub enum PortEnds {
    One(ScopePort),
    Several(Vec<ScopePort>),
}

/// Returns a list of two ports, with room for more.
fn both(alloc: Global, first: ScopePort, second: ScopePort) -> Result<Vec<ScopePort>, AllocError>
    ensures { IfOk result (λ all. all.items ≡ first ∷ second ∷ []) }
{
    let mut all = Vec::with_capacity(alloc, 4)?;
    all.push(first)?;
    all.push(second)?;
    Ok(all)
}

impl PortEnds {
    /// Appends a port. If it fails with out of memory, the ports are unchanged.
    fn push(&mut self, alloc: Global, port: ScopePort) -> Result<(), AllocError>
        ensures ok { OnOk result (ends_of self.new ≡ ends_of self.old ++ port ∷ []) }
        ensures err { OnErr result (ends_of self.new ≡ ends_of self.old) }
    {
        match self {
            PortEnds::One(first) => {
                *self = PortEnds::Several(both(alloc, *first, port)?);
            }
            PortEnds::Several(all) => all.push(port)?,
        }
        Ok(())
    }

    /// Returns the ports, in order.
    fn as_slice(&self) -> &[ScopePort]
        ensures { result.now ≡ ends_of self.now }
    {
        match self {
            PortEnds::One(port) => from_ref(port),
            PortEnds::Several(all) => all.as_slice(),
        }
    }
}

/// The connections of a scope, indexed by their source ports.
///
/// `ends` has the ports that the connections from a port lead to, or, for an input with a shortcut,
/// its outputs. `alike` has, for some pass-through inputs, the number of another one that leads to
/// the same outputs.
#[derive(Drop)]
pub struct ConnectionIndex {
    pub ends: IndexMap<ScopePort, PortEnds>,
    pub alike: IndexMap<u8, u8>,
}

impl ConnectionIndex {
    /// Adds a connection. If it fails with out of memory, the connections are unchanged.
    fn add(&mut self, alloc: Global, from: ScopePort, to: ScopePort) -> Result<(), AllocError>
        ensures added { OnOk result ((q : ScopePort) → ends_in self.new.ends.entries q ≡ (if same_port from q then ends_in self.old.ends.entries from ++ to ∷ [] else ends_in self.old.ends.entries q)) }
        ensures err { OnErr result ((q : ScopePort) → ends_in self.new.ends.entries q ≡ ends_in self.old.ends.entries q) }
        ensures alike { self.new.alike ≡ self.old.alike }
    {
        if let Some(ends) = self.ends.get_mut(&from) {
            ends.push(alloc, to)?;
            return Ok(());
        }
        self.ends.insert(from, PortEnds::One(to))?;
        Ok(())
    }

    /// Returns the ports that connections lead to from a port.
    pub fn ends(&self, from: ScopePort) -> &[ScopePort]
        ensures { result.now ≡ ends_in self.now.ends.entries from }
    {
        match self.ends.get(&from) {
            Some(ends) => ends.as_slice(),
            None => &[],
        }
    }
}

/// Returns the index of the connections of a scope, or fails with out of memory.
pub fn index_of(
    alloc: Global,
    written_connections: &[WrittenConnection],
) -> Result<ConnectionIndex, AllocError>
    ensures { IfOk result (λ x. IsIndex written_connections.now x.ends.entries) }
{
    let mut index = ConnectionIndex {
        ends: IndexMap::with_capacity(alloc, written_connections.len())?,
        alike: IndexMap::new(alloc),
    };
    for written_connection in written_connections {
        let from = ScopePort {
            owner: written_connection.from.owner,
            number: written_connection.out_port,
        };
        let to = ScopePort {
            owner: written_connection.to.owner,
            number: written_connection.in_port,
        };
        index.add(alloc, from, to)?;
    }
    Ok(index)
}

/// Returns the port outside an instance, after its output with this number.
fn outward(enclosing: Option<Place>, number: u8) -> Reached
    ensures { result ≡ spec.outward enclosing number }
{
    match enclosing {
        None => Reached::Nothing,
        Some(place) => Reached::Start(InstancePort {
            within: place.within,
            port: ScopePort {
                owner: Owner::Element(place.element),
                number,
            },
        }),
    }
}

/// Returns what is inside an element, after its input with this number.
fn inward(part: Option<InstancePart>, number: u8) -> Reached
    ensures { result ≡ spec.inward part number }
{
    match part {
        None => Reached::Nothing,
        Some(InstancePart::PrimitiveElement(primitive_element)) => Reached::PrimitiveElement(
            FlatInput {
                primitive_element,
                number,
            },
        ),
        Some(InstancePart::Inner(within)) => Reached::Start(InstancePort {
            within,
            port: ScopePort {
                owner: Owner::Input,
                number,
            },
        }),
    }
}

/// Returns what a connection to this port of an instance leads to.
pub fn next_of(one: &Instance, to: ScopePort) -> Reached
    ensures { result ≡ reached_by one.now to.owner to.number }
{
    match to.owner {
        Owner::Input => Reached::Nothing,
        Owner::Output => outward(one.enclosing, to.number),
        Owner::Element(element) => inward(one.parts.as_slice().get(element).copied(), to.number),
    }
}
