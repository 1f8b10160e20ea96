//! The connections of a net: for each port, the other end of its first connection.
ghost use Rattle.std.specs.Prelude.{◌≡◌, ◌<◌, ◌≤◌, ◌^◌, ℕ, length, map, replicate, vec_len, slice_index_or, slice_set, IfOk};
ghost use Rattle.std.specs.List.{range_with_len};
ghost use Rattle.click_ports.specs.Ports.{first, port_index, Has};
ghost use Rattle.click_engine.specs.Adjacency.{end_of};
ghost use Rattle.click_engine.specs.kept.Tables.{element_of, end_apart, far_at, first_at, nowhere, port_of, IsTable};

use crate::run_state::ConnectionEnd;
use click_classes::Side;
use click_expand::Connection;
use click_ports::Net;
use std::alloc::{AllocError, Global};
use std::marker::Model;

/// A net with a table of its connections.
///
/// The table gives for each output the input that a push goes to, and for each input the output
/// that a pull asks. An end without a connection leads to the Idle after the elements.
#[derive(Drop)]
pub struct Adjacency {
    net: Net,
    /// For each port, by its number in the net, the other end of its first connection.
    far_ends: Vec<ConnectionEnd>,
    /// For each element, the element that its output 0 is connected to.
    ///
    /// perf: most elements have no other output.
    first_targets: Vec<usize>,
    /// For each element, the input that its output 0 is connected to.
    ///
    /// perf: apart from `first_targets`, so that both are found by the index of the element alone.
    first_target_ports: Vec<u16>,
    /// For each element, the output that its input 0 is connected to.
    first_sources: Vec<ConnectionEnd>,
}

impl Model for Adjacency {
    ghost use Rattle.std.specs.Prelude.{◌≡◌, length};
    ghost use Rattle.click_ports.specs.Net.{Net as Seen};
    ghost use Rattle.click_ports.specs.Ports.{first};
    ghost use Rattle.click_engine.specs.Adjacency.{target_in, source_in};
    ghost use Rattle.click_engine.specs.kept.Tables.{AreFirst, AreFirstTargets, AreWithin, IsTable};

    ghost Value = { Seen };

    ghost view = { λ w. w.net };

    ghost invariant = { λ w. IsTable w.net w.far_ends.items × (length w.far_ends.items ≡ first w.net.connections (length w.net.shapes))
        × AreFirstTargets (length w.net.shapes) w.first_targets.items w.first_target_ports.items (target_in w.net.connections)
        × (length w.first_targets.items ≡ length w.net.shapes) × (length w.first_target_ports.items ≡ length w.net.shapes) × AreFirst (length w.net.shapes) w.first_sources.items (source_in w.net.connections)
        × (length w.first_sources.items ≡ length w.net.shapes) × AreWithin (length w.net.shapes) (target_in w.net.connections) × AreWithin (length w.net.shapes) (source_in w.net.connections) };
}

/// Returns the connection's end at a side: the output that it leaves, or the input that it enters.
fn end_of(side: Side, connection: Connection) -> ConnectionEnd
    ensures { result ≡ end_of side connection }
{
    match side {
        Side::Output => ConnectionEnd {
            element: connection.from,
            port: u16::from(connection.out_port),
        },
        Side::Input => ConnectionEnd {
            element: connection.to,
            port: u16::from(connection.in_port),
        },
    }
}

/// Returns the end that stands for no connection in a net of `count` elements: an input, or an
/// output, of the Idle that follows them.
fn nowhere(count: usize) -> ConnectionEnd
    ensures { result ≡ nowhere count }
{
    ConnectionEnd {
        element: count,
        port: 0,
    }
}

/// Returns a table in which no port is connected.
fn unconnected(alloc: Global, net: &Net) -> Result<Vec<ConnectionEnd>, AllocError>
    ensures { IfOk result (λ ends. ends.items ≡ replicate (first net.now.connections (length net.now.shapes)) (nowhere (length net.now.shapes))) }
{
    Ok(vec![in alloc; nowhere(net.shapes().len()); net.port_count()]?)
}

/// Enters in the table that the port `near` of a side leads to `far`.
fn enter(
    net: &Net,
    far_ends: &mut Vec<ConnectionEnd>,
    side: Side,
    near: ConnectionEnd,
    far: ConnectionEnd,
)
    requires has { Has net.now.connections (record { element = near.element; side = side; number = near.port }) }
    requires there { near.element < length net.now.shapes }
    requires all { vec_len far_ends.old ≡ first net.now.connections (length net.now.shapes) }
    ensures entered { far_ends.new.items ≡ slice_set far_ends.old.items (port_index net.now.connections (record { element = near.element; side = side; number = near.port })) far }
    ensures all { vec_len far_ends.new ≡ vec_len far_ends.old }
{
    far_ends[net.first_port(near.element, side) + usize::from(near.port)] = far;
}

/// Returns for each port, by its number, the other end of its first connection.
fn far_ends_of(alloc: Global, net: &Net) -> Result<Vec<ConnectionEnd>, AllocError>
    ensures table { IfOk result (λ ends. IsTable net.now ends.items) }
    ensures all { IfOk result (λ ends. vec_len ends ≡ first net.now.connections (length net.now.shapes)) }
{
    let mut far_ends = unconnected(alloc, net)?;
    let connections = net.connections();
    // From the last to the first, so that the first of several stays.
    for at in (0..connections.len()).rev() {
        let output = end_of(Side::Output, connections[at]);
        let input = end_of(Side::Input, connections[at]);
        enter(net, &mut far_ends, Side::Output, output, input);
        enter(net, &mut far_ends, Side::Input, input, output);
    }
    Ok(far_ends)
}

/// Returns the other ends of the ports of a side of element `at`. Ports past the end of the slice are
/// not connected.
#[inline(always)]
fn ends_at<'a>(
    net: &Net,
    far_ends: &'a [ConnectionEnd],
    at: usize,
    side: Side,
) -> &'a [ConnectionEnd]
    requires table { IsTable net.now far_ends.now }
    requires all { length far_ends.now ≡ first net.now.connections (length net.now.shapes) }
    ensures { (number : ℕ) → slice_index_or result.now number (nowhere (length net.now.shapes)) ≡ far_at net.now side at number }
{
    if at >= net.shapes().len() {
        return &[];
    }
    let start = net.first_port(at, side);
    &far_ends[start..start + usize::from(net.used(at, side))]
}

/// Returns the other end of a port among those of its side, or `nowhere` if it is not connected.
#[inline(always)]
pub(crate) fn far_in(count: usize, ends: &[ConnectionEnd], port: usize) -> ConnectionEnd
    ensures { result ≡ slice_index_or ends.now port (nowhere count) }
{
    match ends.get(port) {
        Some(far) => *far,
        None => nowhere(count),
    }
}

/// Returns for each element the other end of its port 0 of a side.
fn first_ends(
    alloc: Global,
    net: &Net,
    far_ends: &[ConnectionEnd],
    side: Side,
) -> Result<Vec<ConnectionEnd>, AllocError>
    requires table { IsTable net.now far_ends.now }
    requires all { length far_ends.now ≡ first net.now.connections (length net.now.shapes) }
    ensures { IfOk result (λ ends. ends.items ≡ map (first_at net.now side) (range_with_len 0 (length net.now.shapes))) }
{
    let count = net.shapes().len();
    let mut ends = Vec::with_capacity(alloc, count)?;
    for at in 0..count {
        ends.push(far_in(count, ends_at(net, far_ends, at, side), 0))?;
    }
    Ok(ends)
}

/// Returns the elements of these ends in one list, and their ports in another.
fn apart(alloc: Global, ends: &[ConnectionEnd]) -> Result<(Vec<usize>, Vec<u16>), AllocError>
    ensures places { IfOk result (λ lists. lists.0.items ≡ map element_of ends.now) }
    ensures ports { IfOk result (λ lists. lists.1.items ≡ map port_of ends.now) }
{
    let mut places = Vec::with_capacity(alloc, ends.len())?;
    let mut ports = Vec::with_capacity(alloc, ends.len())?;
    for end in ends {
        places.push(end.element)?;
        ports.push(end.port)?;
    }
    Ok((places, ports))
}

/// Returns the other end of output 0 of element `at`, from a list of elements and one of ports.
#[inline(always)]
fn first_target_in(places: &[usize], ports: &[u16], at: usize) -> ConnectionEnd
    requires place { at < length places.now }
    requires port { at < length ports.now }
    ensures { result ≡ end_apart (length places.now) places.now ports.now at }
{
    ConnectionEnd {
        element: places[at],
        port: ports[at],
    }
}

/// Returns the other end of input 0 of element `at`.
#[inline(always)]
fn first_source_in(ports: &[ConnectionEnd], at: usize) -> ConnectionEnd
    requires { at < length ports.now }
    ensures { result ≡ slice_index_or ports.now at (nowhere (length ports.now)) }
{
    ports[at]
}

impl Adjacency {
    ghost use Rattle.std.specs.Prelude.{◌≡◌, ◌<◌, ◌≤◌, ℕ, IfOk, length, slice_index_or};
    ghost use Rattle.click_engine.specs.Adjacency.{wiring_of};
    ghost use Rattle.click_engine.specs.kept.Tables.{nowhere, AreFirstTargets, AreWithin, IsSource, IsTarget};

    /// Builds the tables of a net.
    pub fn new(alloc: Global, net: Net) -> Result<Adjacency, AllocError>
        ensures { IfOk result (λ w. w ≡ net) }
    {
        let far_ends = far_ends_of(alloc, &net)?;
        let targets = first_ends(alloc, &net, far_ends.as_slice(), Side::Output)?;
        let (first_targets, first_target_ports) = apart(alloc, targets.as_slice())?;
        let first_sources = first_ends(alloc, &net, far_ends.as_slice(), Side::Input)?;
        Ok(Adjacency {
            net,
            far_ends,
            first_targets,
            first_target_ports,
            first_sources,
        })
    }

    /// Returns the net.
    pub(crate) fn net(&self) -> &Net
        ensures { result.now ≡ self.now }
    {
        &self.net
    }

    /// Returns for each element what its output 0 is connected to: the elements, and their inputs.
    #[inline(always)]
    pub(crate) fn first_targets(&self) -> (&[usize], &[u16])
        ensures first { AreFirstTargets (length self.now.shapes) result.0.now result.1.now (wiring_of self.now).target }
        ensures within { AreWithin (length self.now.shapes) (wiring_of self.now).target }
        ensures all { length result.0.now ≡ length self.now.shapes }
        ensures ports { length result.1.now ≡ length self.now.shapes }
    {
        (
            self.first_targets.as_slice(),
            self.first_target_ports.as_slice(),
        )
    }

    /// Returns the inputs that the outputs of element `at` are connected to. Outputs past the end
    /// of the slice are not connected.
    #[inline(always)]
    pub(crate) fn targets(&self, at: usize) -> &[ConnectionEnd]
        ensures row { (output : ℕ) → IsTarget self.now at output (slice_index_or result.now output (nowhere (length self.now.shapes))) }
        ensures within { AreWithin (length self.now.shapes) (wiring_of self.now).target }
    {
        ends_at(&self.net, self.far_ends.as_slice(), at, Side::Output)
    }

    /// Returns the number of elements.
    #[inline(always)]
    pub(crate) fn len(&self) -> usize
        ensures { result ≡ length self.now.shapes }
    {
        self.first_targets.len()
    }

    /// Returns the input that a push at output 0 goes to, or `nowhere`.
    #[inline(always)]
    pub(crate) fn first_target(&self, at: usize) -> ConnectionEnd
        requires { at < length self.now.shapes }
        ensures target { IsTarget self.now at 0 result }
        ensures within { result.element ≤ length self.now.shapes }
    {
        first_target_in(
            self.first_targets.as_slice(),
            self.first_target_ports.as_slice(),
            at,
        )
    }

    /// Returns the input that a push at an output goes to, or `nowhere`.
    #[inline(always)]
    pub(crate) fn target(&self, at: usize, output: usize) -> ConnectionEnd
        ensures target { IsTarget self.now at output result }
        ensures within { result.element ≤ length self.now.shapes }
    {
        if output == 0 && at < self.len() {
            return self.first_target(at);
        }
        far_in(self.len(), self.targets(at), output)
    }

    /// Returns the output that a pull at input 0 asks, or `nowhere`.
    #[inline(always)]
    pub(crate) fn first_source(&self, at: usize) -> ConnectionEnd
        requires { at < length self.now.shapes }
        ensures source { IsSource self.now at 0 result }
        ensures within { result.element ≤ length self.now.shapes }
    {
        first_source_in(self.first_sources.as_slice(), at)
    }

    /// Returns the output that a pull at an input asks, or `nowhere`.
    #[inline(always)]
    pub(crate) fn source(&self, at: usize, input: usize) -> ConnectionEnd
        ensures source { IsSource self.now at input result }
        ensures within { result.element ≤ length self.now.shapes }
    {
        let ends = ends_at(&self.net, self.far_ends.as_slice(), at, Side::Input);
        far_in(self.len(), ends, input)
    }
}
