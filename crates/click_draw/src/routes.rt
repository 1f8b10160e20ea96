//! The nodes of the rows: the elements, and the bends of lines that pass rows.

use crate::compound_paths::CompoundPath;
use crate::measures::port_offset;
use click_classes::Side;
use click_expand::Connection;
use click_ports::Net;
use std::alloc::{AllocError, Global};

/// The width of a bend, with the free distance at both sides of its line, in pixels.
pub const BEND_WIDTH_PX: u64 = 8;

/// The maximum number of bends. A line for which none is left has no bends.
pub const MAX_BENDS: usize = 65536;

/// A part of a line that leads to a node in the row above or below. It has the distance of its end
/// from the node's left side, there and here.
#[derive(Clone, Copy, Debug, PartialEq, Eq)]
pub struct Link {
    pub node: usize,
    pub there: u64,
    pub here: u64,
}

/// A node of a row: an element or a bend. The chain of a bend is the first bend of its line; that
/// of an element is the element itself.
#[derive(Drop)]
pub struct Node {
    pub row: usize,
    pub width: u64,
    pub compound_path: CompoundPath,
    pub chain: usize,
    pub above: Vec<Link>,
    pub below: Vec<Link>,
}

/// The bends of a connection's line, which are consecutive nodes, and whether the line goes up.
#[derive(Clone, Copy, Debug, PartialEq, Eq)]
pub struct Route {
    pub first: usize,
    pub bends: usize,
    pub rises: bool,
}

/// The nodes, the elements first, and the route of each connection.
#[derive(Drop)]
pub struct LayoutGraph {
    pub nodes: Vec<Node>,
    pub routes: Vec<Route>,
}

/// Returns the distance of an element's port from the left side of its box. Returns 0 if there is
/// no such element.
fn offset(net: &Net, widths: &[u64], element: usize, side: Side, port: u8) -> u64 {
    match widths.get(element) {
        Some(width) if element < net.shapes().len() => {
            port_offset(*width, net.used(element, side), u16::from(port))
        }
        _ => 0,
    }
}

impl LayoutGraph {
    /// Adds a bend in the row, without links.
    fn add_bend(
        &mut self,
        alloc: Global,
        row: usize,
        compound_path: CompoundPath,
        chain: usize,
    ) -> Result<(), AllocError> {
        self.nodes.push(Node {
            row,
            width: BEND_WIDTH_PX,
            compound_path,
            chain,
            above: Vec::new(alloc),
            below: Vec::new(alloc),
        })?;
        Ok(())
    }

    /// Links two nodes, of which the first is in the row above the second.
    fn link(&mut self, upper: (usize, u64), lower: (usize, u64)) -> Result<(), AllocError> {
        if let Some(node) = self.nodes.get_mut(upper.0) {
            node.below.push(Link {
                node: lower.0,
                there: lower.1,
                here: upper.1,
            })?;
        }
        if let Some(node) = self.nodes.get_mut(lower.0) {
            node.above.push(Link {
                node: upper.0,
                there: upper.1,
                here: lower.1,
            })?;
        }
        Ok(())
    }

    /// Returns the row and the compound path of a node.
    fn at(&self, node: usize) -> (usize, CompoundPath) {
        self.nodes
            .get(node)
            .map_or((0, CompoundPath::none()), |it| (it.row, it.compound_path))
    }

    /// Makes the route from an output down to an input in a lower row, with a bend in each row
    /// between.
    fn go_down(
        &mut self,
        alloc: Global,
        from: (usize, u64),
        to: (usize, u64),
        room: usize,
    ) -> Result<Route, AllocError> {
        let (top, compound_path) = self.at(from.0);
        let (bottom, other) = self.at(to.0);
        let first = self.nodes.len();
        let mut last = from;
        let mut row = top;
        for _ in 0..bottom.saturating_sub(top).saturating_sub(1).min(room) {
            row = row.saturating_add(1);
            let bend = (self.nodes.len(), BEND_WIDTH_PX / 2);
            self.add_bend(alloc, row, compound_path.shared(other), first)?;
            self.link(last, bend)?;
            last = bend;
        }
        self.link(last, to)?;
        Ok(Route {
            first,
            bends: self.nodes.len().saturating_sub(first),
            rises: false,
        })
    }

    /// Makes the route from an output to an input that is not in a lower row. It has a bend in each
    /// row from the one to the other, with both of them.
    fn go_up(
        &mut self,
        alloc: Global,
        from: usize,
        to: usize,
        room: usize,
    ) -> Result<Route, AllocError> {
        let (bottom, compound_path) = self.at(from);
        let (top, other) = self.at(to);
        let first = self.nodes.len();
        let mut row = bottom;
        for turn in 0..bottom.saturating_sub(top).saturating_add(1).min(room) {
            let bend = self.nodes.len();
            self.add_bend(alloc, row, compound_path.shared(other), first)?;
            if turn > 0 {
                self.link(
                    (bend, BEND_WIDTH_PX / 2),
                    (bend.saturating_sub(1), BEND_WIDTH_PX / 2),
                )?;
            }
            row = row.saturating_sub(1);
        }
        Ok(Route {
            first,
            bends: self.nodes.len().saturating_sub(first),
            rises: true,
        })
    }

    /// Adds the route of a connection. `ends` are the distances of its ports from the left sides of
    /// their boxes.
    fn join(
        &mut self,
        alloc: Global,
        connection: &Connection,
        ends: (u64, u64),
        room: usize,
    ) -> Result<(), AllocError> {
        let from = (connection.from, ends.0);
        let to = (connection.to, ends.1);
        let route = if self.at(from.0).0 < self.at(to.0).0 {
            self.go_down(alloc, from, to, room)?
        } else {
            self.go_up(alloc, from.0, to.0, room)?
        };
        self.routes.push(route)?;
        Ok(())
    }
}

/// Returns the elements as nodes with these rows, widths and compound paths.
fn elements_of(
    alloc: Global,
    rows: &[usize],
    widths: &[u64],
    compound_paths: &[CompoundPath],
) -> Result<Vec<Node>, AllocError> {
    let mut nodes = Vec::new(alloc);
    for (element, width) in widths.iter().enumerate() {
        nodes.push(Node {
            row: rows.get(element).copied().unwrap_or(0),
            width: *width,
            compound_path: compound_paths
                .get(element)
                .copied()
                .unwrap_or(CompoundPath::none()),
            chain: element,
            above: Vec::new(alloc),
            below: Vec::new(alloc),
        })?;
    }
    Ok(nodes)
}

/// Returns the nodes of the net and the routes of its connections.
///
/// The elements have these widths, rows and compound paths.
pub fn layout_graph_of(
    alloc: Global,
    net: &Net,
    widths: &[u64],
    rows: &[usize],
    compound_paths: &[CompoundPath],
) -> Result<LayoutGraph, AllocError> {
    let mut routes = LayoutGraph {
        nodes: elements_of(alloc, rows, widths, compound_paths)?,
        routes: Vec::new(alloc),
    };
    let most = widths.len().saturating_add(MAX_BENDS);
    for connection in net.connections() {
        let room = most.saturating_sub(routes.nodes.len());
        let out = offset(
            net,
            widths,
            connection.from,
            Side::Output,
            connection.out_port,
        );
        let into = offset(net, widths, connection.to, Side::Input, connection.in_port);
        routes.join(alloc, connection, (out, into), room)?;
    }
    Ok(routes)
}
