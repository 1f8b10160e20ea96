//! Moves elements and bends that are in no compound in line with their neighbours, if there is
//! room.

use crate::blocks::{Block, Level, blocks_of};
use crate::measures::BOX_GAP_PX;
use crate::preferred_places::{State, preferred};
use crate::routes::Node;
use std::alloc::{AllocError, Global};

/// The number of passes over the rows, each from the top down and from the bottom up.
const LAYER_SWEEPS: usize = 4;

/// An occupied part of a row, and the node that occupies it if that node may move.
#[derive(Clone, Copy, Debug, PartialEq, Eq, PartialOrd, Ord)]
struct Interval {
    left: u64,
    right: u64,
    node: usize,
}

/// Returns the node that is this whole block, if it is in no compound. Otherwise returns
/// `usize::MAX`, which is no node's number.
fn loose_node(nodes: &[Node], name: usize, block: &Block) -> usize {
    match nodes.get(name) {
        Some(node) if block.first == block.last && node.compound_path.outer == usize::MAX => name,
        _ => usize::MAX,
    }
}

/// Returns the occupied parts of each row, from left to right.
fn stretches_of(
    alloc: Global,
    nodes: &[Node],
    lefts: &[u64],
    rows: usize,
) -> Result<Vec<Vec<Interval>>, AllocError> {
    let mut taken = Vec::new(alloc);
    for _ in 0..rows {
        taken.push(Vec::new(alloc))?;
    }
    let blocks = blocks_of(alloc, nodes, lefts, Level::Outer, Level::All)?;
    for (name, block) in blocks.iter().enumerate() {
        if let Some(block) = block {
            take(&mut taken, block, loose_node(nodes, name, block))?;
        }
    }
    for row in taken.iter_mut() {
        row.sort()?;
    }
    Ok(taken)
}

/// Adds the block to the occupied parts of its rows.
fn take(taken: &mut [Vec<Interval>], block: &Block, node: usize) -> Result<(), AllocError> {
    for row in block.first..=block.last {
        if let Some(row) = taken.get_mut(row) {
            row.push(Interval {
                left: block.left,
                right: block.right,
                node,
            })?;
        }
    }
    Ok(())
}

/// Returns the occupied part after its node was moved to its preferred place.
///
/// The part stays between `from` and `to`.
fn moved(interval: Interval, state: &State, downward: bool, from: u64, to: u64) -> Interval {
    let Some(node) = state.nodes.get(interval.node) else {
        return interval;
    };
    let links = if downward { &node.above } else { &node.below };
    let width = interval.right.saturating_sub(interval.left);
    let left = preferred(node, links.as_slice(), interval.left, state)
        .min(to.saturating_sub(width))
        .max(from);
    Interval {
        left,
        right: left.saturating_add(width),
        node: interval.node,
    }
}

/// Moves the nodes of a row that may move.
fn line_up(row: &mut [Interval], state: &mut State, downward: bool) {
    let mut from = 0u64;
    for at in 0..row.len() {
        let to = match row.get(at.saturating_add(1)) {
            Some(next) => next.left.saturating_sub(BOX_GAP_PX),
            None => u64::MAX,
        };
        if let Some(interval) = row.get_mut(at) {
            *interval = moved(*interval, state, downward, from, to);
            from = interval.right.saturating_add(BOX_GAP_PX);
            if let Some(left) = state.lefts.get_mut(interval.node) {
                *left = interval.left;
            }
        }
    }
}

/// Moves the nodes that may move, in all rows. The order within the rows and the compounds stay the
/// same.
pub fn line_up_all(
    alloc: Global,
    nodes: &[Node],
    lefts: Vec<u64>,
    rows: usize,
) -> Result<Vec<u64>, AllocError> {
    let mut taken = stretches_of(alloc, nodes, lefts.as_slice(), rows)?;
    let mut state = State {
        nodes,
        lefts,
        level: Level::All,
    };
    for _ in 0..LAYER_SWEEPS {
        for row in taken.iter_mut() {
            line_up(row.as_mut_slice(), &mut state, true);
        }
        for row in taken.iter_mut().rev() {
            line_up(row.as_mut_slice(), &mut state, false);
        }
    }
    let State {
        nodes: _,
        lefts,
        level: _,
    } = state;
    Ok(lefts)
}
