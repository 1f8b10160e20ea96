//! The ports of bodies.

ghost use Rattle.std.specs.Prelude.{◌≡◌, ◌≤◌, ◌↔◌, ℕ, List, [], ◌∷◌, ◌++◌, length, slice_get, IsTrue, IfOk, OnOk};
ghost use Rattle.click_scopes.specs.Analysis.{AreScopes};
ghost use Rattle.click_scopes.specs.kept.Nesting.{IsNested};
ghost use Rattle.click_scopes.specs.kept.CompoundFaults.{inputs_kept, outputs_kept, ports_or, HasGap, IsUsed, IsPorts, ArePorts};

use crate::scopes::Scopes;
use crate::written_connections::{Owner, WrittenConnection};
use click_text::syntax::Config;
use std::alloc::{AllocError, Global};

/// The numbers of ports of a body, and whether a port below the highest one is unused.
#[derive(Clone, Copy)]
pub struct Ports {
    pub inputs: usize,
    pub outputs: usize,
    pub gap: bool,
}

/// The ports in use on one side of a body: their number up to the highest one, and a flag for each.
#[derive(Drop)]
struct PortsInUse {
    count: usize,
    ports: [bool; 256],
    ghost few: { count ≤ 256 },
}

impl PortsInUse {
    /// Returns the value without a port in use.
    fn none() -> PortsInUse
        ensures { IsUsed [] result.count result.ports }
    {
        let ports = [false; 256];
        PortsInUse { count: 0, ports }
    }

    /// Records that a port is in use.
    fn add(&mut self, port: u8)
        ensures { (ports : List ℕ) → IsUsed ports self.old.count self.old.ports → IsUsed (ports ++ port ∷ []) self.new.count self.new.ports }
    {
        let place = port as usize;
        self.ports[place] = true;
        if self.count <= place {
            self.count = place + 1;
        }
    }

    /// Returns whether a port below the highest one is unused.
    fn has_gap(&self) -> bool
        ensures { (ports : List ℕ) → IsUsed ports self.now.count self.now.ports → IsTrue result ↔ HasGap ports }
    {
        for place in 0..self.count {
            if !self.ports[place] {
                return true;
            }
        }
        false
    }
}

/// Returns the input ports of a body that its connections use.
fn inputs_used(written_connections: &[WrittenConnection]) -> PortsInUse
    ensures { IsUsed (inputs_kept written_connections.now) result.count result.ports }
{
    let mut used = PortsInUse::none();
    for written_connection in written_connections {
        if let Owner::Input = written_connection.from.owner {
            used.add(written_connection.out_port);
        }
    }
    used
}

/// Returns the output ports of a body that its connections use.
fn outputs_used(written_connections: &[WrittenConnection]) -> PortsInUse
    ensures { IsUsed (outputs_kept written_connections.now) result.count result.ports }
{
    let mut used = PortsInUse::none();
    for written_connection in written_connections {
        if let Owner::Output = written_connection.to.owner {
            used.add(written_connection.in_port);
        }
    }
    used
}

/// Returns the ports of a body with these connections.
fn ports_by(written_connections: &[WrittenConnection]) -> Ports
    ensures { IsPorts (inputs_kept written_connections.now) (outputs_kept written_connections.now) result }
{
    let inputs = inputs_used(written_connections);
    let outputs = outputs_used(written_connections);
    Ports {
        inputs: inputs.count,
        outputs: outputs.count,
        gap: inputs.has_gap() || outputs.has_gap(),
    }
}

/// Returns the ports of each body, or fails with out of memory.
pub(crate) fn all_ports(
    alloc: Global,
    config: &Config,
    scopes: &Scopes,
) -> Result<Vec<Ports>, AllocError>
    requires nested { IsNested config.now }
    requires scopes { AreScopes config.now scopes.now }
    ensures { IfOk result (λ ports. ArePorts config.now ports.items) }
{
    let mut ports = Vec::new(alloc);
    for place in 0..config.bodies.len() {
        ports.push(ports_by(scopes.connections_at(place)))?;
    }
    Ok(ports)
}

/// Returns the ports of the body at an index.
pub(crate) fn ports_at(ports: &[Ports], body: usize) -> Ports
    ensures { result ≡ ports_or (slice_get ports.now body) }
{
    match ports.get(body) {
        Some(found) => *found,
        None => Ports {
            inputs: 0,
            outputs: 0,
            gap: false,
        },
    }
}
