//! The preferred distance of each node from the left: in line with the nodes that it is connected
//! to.

use crate::blocks::{Level, align_blocks, midway, separate_blocks};
use crate::loose::line_up_all;
use crate::measures::BOX_GAP_PX;
use crate::routes::{Link, Node};
use std::alloc::{AllocError, Global};

/// The number of passes over the rows, each from the top down and from the bottom up.
const LAYER_SWEEPS: usize = 8;

/// The left side of each node at the start, so far from 0 that moving left never reaches 0.
const START: u64 = 0x1_0000_0000;

/// Returns the place where the node's lines are straight on average. If it has no lines that count,
/// returns its own place. Only lines within its block count.
pub fn preferred(node: &Node, links: &[Link], own: u64, state: &State) -> u64 {
    let mut sum = 0u64;
    let mut count = 0u64;
    for link in links {
        if state.shares(node, link.node) {
            let left = state.lefts.get(link.node).copied().unwrap_or(START);
            sum = sum.saturating_add(left.saturating_add(link.there).saturating_sub(link.here));
            count = count.saturating_add(1);
        }
    }
    sum.checked_div(count).unwrap_or(own)
}

/// The nodes, their left sides, and the level whose blocks are laid out one by one.
#[derive(Drop)]
pub struct State<'a> {
    pub nodes: &'a [Node],
    pub lefts: Vec<u64>,
    pub level: Level,
}

impl State<'_> {
    /// Returns whether the other node is in the same block.
    fn shares(&self, node: &Node, other: usize) -> bool {
        self.nodes
            .get(other)
            .is_some_and(|it| it.name(self.level) == node.name(self.level))
    }
}

/// Returns the preferred places of the nodes in a row.
fn preferred_places_of(
    alloc: Global,
    row: &[usize],
    state: &State,
    downward: bool,
) -> Result<Vec<u64>, AllocError> {
    let mut preferred_places = Vec::new(alloc);
    for number in row {
        let own = state.lefts.get(*number).copied().unwrap_or(START);
        let preferred = state.nodes.get(*number).map_or(own, |node| {
            let links = if downward { &node.above } else { &node.below };
            preferred(node, links.as_slice(), own, state)
        });
        preferred_places.push(preferred)?;
    }
    Ok(preferred_places)
}

/// Moves each node to the right, if its left neighbour in the block needs the room.
fn give_way_right(row: &[usize], state: &State, preferred_places: &mut [u64]) {
    let mut before: Option<(&Node, u64)> = None;
    for (number, preferred) in row.iter().zip(preferred_places.iter_mut()) {
        let Some(node) = state.nodes.get(*number) else {
            continue;
        };
        if let Some((left, at)) = before
            && left.name(state.level) == node.name(state.level)
        {
            let free = at.saturating_add(left.width).saturating_add(BOX_GAP_PX);
            *preferred = free.max(*preferred);
        }
        before = Some((node, *preferred));
    }
}

/// Moves each node to the left, if its right neighbour in the block needs the room.
fn give_way_left(row: &[usize], state: &State, preferred_places: &mut [u64]) {
    let mut after: Option<(&Node, u64)> = None;
    for (number, preferred) in row.iter().zip(preferred_places.iter_mut()).rev() {
        let Some(node) = state.nodes.get(*number) else {
            continue;
        };
        if let Some((right, at)) = after
            && right.name(state.level) == node.name(state.level)
        {
            let free = at.saturating_sub(node.width).saturating_sub(BOX_GAP_PX);
            *preferred = free.min(*preferred);
        }
        after = Some((node, *preferred));
    }
}

/// Moves the nodes of a row to their preferred places, if their neighbours leave room. Two nodes in
/// each other's way move equally far.
fn place_row(
    alloc: Global,
    row: &[usize],
    state: &mut State,
    downward: bool,
) -> Result<(), AllocError> {
    let mut right = preferred_places_of(alloc, row, state, downward)?;
    let mut left = right.clone()?;
    give_way_right(row, state, right.as_mut_slice());
    give_way_left(row, state, left.as_mut_slice());
    for ((number, right), left) in row.iter().zip(right.iter()).zip(left.iter()) {
        if let Some(place) = state.lefts.get_mut(*number) {
            *place = midway(*right, *left);
        }
    }
    Ok(())
}

/// Returns the left sides of the nodes after each block of the level was laid out by itself.
fn lefts_of_level(
    alloc: Global,
    nodes: &[Node],
    rows: &[Vec<usize>],
    level: Level,
) -> Result<Vec<u64>, AllocError> {
    let mut state = State {
        nodes,
        lefts: vec![in alloc; START; nodes.len()]?,
        level,
    };
    for _ in 0..LAYER_SWEEPS {
        for row in rows {
            place_row(alloc, row.as_slice(), &mut state, true)?;
        }
        for row in rows.iter().rev() {
            place_row(alloc, row.as_slice(), &mut state, false)?;
        }
    }
    let State {
        nodes: _,
        lefts,
        level: _,
    } = state;
    Ok(lefts)
}

/// Returns the preferred left sides of the nodes, given the order of the rows. The leftmost is at
/// 0.
pub fn preferred_places_in(
    alloc: Global,
    nodes: &[Node],
    rows: &[Vec<usize>],
) -> Result<Vec<u64>, AllocError> {
    let mut lefts = vec![in alloc; 0u64; nodes.len()]?;
    for (unit, whole) in [
        (Level::Chain, Level::Inner),
        (Level::Inner, Level::Outer),
        (Level::Outer, Level::All),
    ] {
        let mut wide = lefts_of_level(alloc, nodes, rows, whole)?;
        align_blocks(alloc, nodes, lefts.as_slice(), wide.as_mut_slice(), unit)?;
        separate_blocks(alloc, nodes, rows.len(), wide.as_mut_slice(), unit, whole)?;
        lefts = wide;
    }
    let mut lefts = line_up_all(alloc, nodes, lefts, rows.len())?;
    let least = lefts.iter().copied().min().unwrap_or(0);
    for left in lefts.iter_mut() {
        *left = left.saturating_sub(least);
    }
    Ok(lefts)
}
