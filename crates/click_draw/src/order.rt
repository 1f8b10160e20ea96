//! The order of the nodes within each row. Connected nodes come below one another, and the nodes of
//! a compound side by side.

use crate::routes::{Link, Node};
use std::alloc::{AllocError, Global};

/// The number of passes over the rows, each from the top down and from the bottom up.
const LAYER_SWEEPS: usize = 6;

/// The length of each row while it is ordered, in arbitrary units.
const ROW_LEN: u64 = 0x1_0000_0000;

/// The key by which a node is ordered in its row.
#[derive(Clone, Copy, Debug, PartialEq, Eq, PartialOrd, Ord)]
struct Turn {
    outer_preferred: u64,
    outer: usize,
    inner_wish: u64,
    inner: usize,
    preferred: u64,
    node: usize,
}

/// A sum, and the number of its terms.
#[derive(Clone, Copy, Debug, PartialEq, Eq)]
pub struct Mean {
    sum: u64,
    count: u64,
}

impl Mean {
    pub fn none() -> Mean {
        Mean { sum: 0, count: 0 }
    }

    fn with(self, number: u64) -> Mean {
        Mean {
            sum: self.sum.saturating_add(number),
            count: self.count.saturating_add(1),
        }
    }

    fn value(self) -> Option<u64> {
        self.sum.checked_div(self.count)
    }
}

/// Returns the nodes of each row, in the order in which they are given.
pub fn rows_with(alloc: Global, nodes: &[Node]) -> Result<Vec<Vec<usize>>, AllocError> {
    let last = nodes
        .iter()
        .map(|it| it.row)
        .max()
        .unwrap_or(0)
        .min(nodes.len());
    let mut rows = Vec::new(alloc);
    for _ in 0..=last {
        rows.push(Vec::new(alloc))?;
    }
    for (number, node) in nodes.iter().enumerate() {
        if let Some(row) = rows.get_mut(node.row) {
            row.push(number)?;
        }
    }
    Ok(rows)
}

/// Returns the preferred place of a node: the mean of its neighbours' places. If it has no
/// neighbours, returns its own place.
fn preferred(links: &[Link], own: u64, places: &[u64]) -> u64 {
    let mut mean = Mean::none();
    for link in links {
        let place = places.get(link.node).copied().unwrap_or(0);
        mean = mean.with(place.saturating_add(link.there));
    }
    mean.value().unwrap_or(own)
}

/// Adds a number to the mean with that name, if there is one.
pub fn add_to(means: &mut [Mean], name: usize, number: u64) {
    if let Some(mean) = means.get_mut(name) {
        *mean = mean.with(number);
    }
}

/// Returns the mean with that name, if it has terms.
pub fn mean_of(means: &[Mean], name: usize) -> Option<u64> {
    means.get(name).and_then(|mean| mean.value())
}

/// Returns the keys of the row's nodes, by their preferred places.
fn turns_of(
    alloc: Global,
    row: &[usize],
    nodes: &[Node],
    places: &[u64],
    downward: bool,
) -> Result<Vec<Turn>, AllocError> {
    let mut turns = Vec::new(alloc);
    for number in row {
        if let Some(node) = nodes.get(*number) {
            let links = if downward { &node.above } else { &node.below };
            let own = places.get(*number).copied().unwrap_or(0);
            let preferred = preferred(links.as_slice(), own, places);
            turns.push(Turn {
                outer_preferred: preferred,
                outer: node.compound_path.outer.min(node.chain),
                inner_wish: preferred,
                inner: node.compound_path.inner.min(node.chain),
                preferred,
                node: *number,
            })?;
        }
    }
    Ok(turns)
}

/// The means of the outer and of the inner compounds. The name of each is its first element.
#[derive(Drop)]
struct Means {
    outer: Vec<Mean>,
    inner: Vec<Mean>,
}

/// Returns the mean place of each compound over all rows.
fn means_of(alloc: Global, nodes: &[Node], places: &[u64]) -> Result<Means, AllocError> {
    let mut outer = vec![in alloc; Mean::none(); nodes.len()]?;
    let mut inner = vec![in alloc; Mean::none(); nodes.len()]?;
    for (node, place) in nodes.iter().zip(places) {
        add_to(outer.as_mut_slice(), node.compound_path.outer, *place);
        add_to(inner.as_mut_slice(), node.compound_path.inner, *place);
    }
    Ok(Means { outer, inner })
}

/// Gives the nodes of each compound the same preferred place, so that they stay side by side.
fn agree(turns: &mut [Turn], means: &Means) {
    for turn in turns.iter_mut() {
        turn.outer_preferred = mean_of(means.outer.as_slice(), turn.outer).unwrap_or(
            turn.preferred,
        );
        turn.inner_wish = mean_of(means.inner.as_slice(), turn.inner).unwrap_or(turn.preferred);
    }
}

/// Writes the place of each node of the row.
fn put_places(row: &[usize], places: &mut [u64]) {
    let step = ROW_LEN.checked_div(row.len() as u64).unwrap_or(0);
    let mut next = step / 2;
    for node in row {
        if let Some(place) = places.get_mut(*node) {
            *place = next;
        }
        next = next.saturating_add(step);
    }
}

/// Orders a row by the keys of its nodes.
fn arrange(
    alloc: Global,
    row: &mut Vec<usize>,
    nodes: &[Node],
    places: &mut [u64],
    means: &Means,
    downward: bool,
) -> Result<(), AllocError> {
    let mut turns = turns_of(alloc, row.as_slice(), nodes, places, downward)?;
    agree(turns.as_mut_slice(), means);
    turns.sort()?;
    row.clear();
    for turn in &turns {
        row.push(turn.node)?;
    }
    put_places(row.as_slice(), places);
    Ok(())
}

/// Orders the rows from the top down.
fn sweep_down(
    alloc: Global,
    rows: &mut [Vec<usize>],
    nodes: &[Node],
    places: &mut [u64],
) -> Result<(), AllocError> {
    let means = means_of(alloc, nodes, places)?;
    for row in rows.iter_mut() {
        arrange(alloc, row, nodes, places, &means, true)?;
    }
    Ok(())
}

/// Orders the rows from the bottom up.
fn sweep_up(
    alloc: Global,
    rows: &mut [Vec<usize>],
    nodes: &[Node],
    places: &mut [u64],
) -> Result<(), AllocError> {
    let means = means_of(alloc, nodes, places)?;
    for row in rows.iter_mut().rev() {
        arrange(alloc, row, nodes, places, &means, false)?;
    }
    Ok(())
}

/// Returns the nodes of each row, from left to right.
pub fn ordered_rows(alloc: Global, nodes: &[Node]) -> Result<Vec<Vec<usize>>, AllocError> {
    let mut rows = rows_with(alloc, nodes)?;
    let mut places = vec![in alloc; 0u64; nodes.len()]?;
    for row in &rows {
        put_places(row.as_slice(), places.as_mut_slice());
    }
    for _ in 0..LAYER_SWEEPS {
        sweep_down(alloc, rows.as_mut_slice(), nodes, places.as_mut_slice())?;
        sweep_up(alloc, rows.as_mut_slice(), nodes, places.as_mut_slice())?;
    }
    Ok(rows)
}
