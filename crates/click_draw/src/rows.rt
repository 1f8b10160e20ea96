//! The rows of the elements. Each element is below those that lead to it, except over connections
//! that close a ring.

use click_expand::Connection;
use std::alloc::{AllocError, Global};

/// Returns for each element those that its outputs lead to, in the order of the connections.
fn targets_of(
    alloc: Global,
    elements: usize,
    connections: &[Connection],
) -> Result<Vec<Vec<usize>>, AllocError> {
    let mut targets = Vec::new(alloc);
    for _ in 0..elements {
        targets.push(Vec::new(alloc))?;
    }
    for connection in connections {
        if let Some(list) = targets.get_mut(connection.from) {
            list.push(connection.to)?;
        }
    }
    Ok(targets)
}

/// Returns for each element whether a connection leads to it.
fn fed(
    alloc: Global,
    elements: usize,
    connections: &[Connection],
) -> Result<Vec<bool>, AllocError> {
    let mut fed = vec![in alloc; false; elements]?;
    for connection in connections {
        if let Some(is_fed) = fed.get_mut(connection.to) {
            *is_fed = true;
        }
    }
    Ok(fed)
}

/// A walk along the connections: the elements that it has met, and those that it has left.
///
/// The walk never returns to an element that it has left. They are in the order in which it left
/// them.
#[derive(Drop)]
struct Walk {
    met: Vec<bool>,
    left: Vec<usize>,
}

impl Walk {
    /// Returns whether the element is met for the first time, and marks it as met.
    fn meets(&mut self, element: usize) -> bool {
        match self.met.get_mut(element) {
            Some(met) => !std::mem::replace(met, true),
            None => false,
        }
    }

    /// Walks from the element to all that it leads to, unless it was met before.
    fn go(
        &mut self,
        alloc: Global,
        start: usize,
        targets: &[Vec<usize>],
        steps: usize,
    ) -> Result<(), AllocError> {
        if !self.meets(start) {
            return Ok(());
        }
        let mut open = vec![in alloc; (start, 0usize)]?;
        for _ in 0..steps {
            let Some((element, followed)) = open.pop() else {
                break;
            };
            match targets.get(element).and_then(|list| list.get(followed)) {
                None => self.left.push(element)?,
                Some(target) => {
                    open.push((element, followed.saturating_add(1)))?;
                    if self.meets(*target) {
                        open.push((*target, 0))?;
                    }
                }
            }
        }
        Ok(())
    }
}

/// Returns the elements in an order in which each comes before those that it leads to.
///
/// Connections that close a ring do not count.
fn downstream_order(
    alloc: Global,
    elements: usize,
    connections: &[Connection],
    targets: &[Vec<usize>],
) -> Result<Vec<usize>, AllocError> {
    let fed = fed(alloc, elements, connections)?;
    let mut walk = Walk {
        met: vec![in alloc; false; elements]?,
        left: Vec::new(alloc),
    };
    // Each step follows a connection or leaves an element.
    let steps = elements.saturating_add(connections.len());
    for (element, is_fed) in fed.iter().enumerate() {
        if !*is_fed {
            walk.go(alloc, element, targets, steps)?;
        }
    }
    for element in 0..elements {
        walk.go(alloc, element, targets, steps)?;
    }
    let Walk { met: _, mut left } = walk;
    left.reverse();
    Ok(left)
}

/// Returns the position of each element in the order.
fn turns_of(alloc: Global, order: &[usize]) -> Result<Vec<usize>, AllocError> {
    let mut turns = vec![in alloc; 0usize; order.len()]?;
    for (turn, element) in order.iter().enumerate() {
        if let Some(place) = turns.get_mut(*element) {
            *place = turn;
        }
    }
    Ok(turns)
}

/// Moves the targets that come later in the order below the element.
fn push_down(element: usize, turns: &[usize], targets: &[usize], rows: &mut [usize]) {
    let below = rows.get(element).copied().unwrap_or(0).saturating_add(1);
    let turn = turns.get(element);
    for target in targets {
        if turns.get(*target) > turn
            && let Some(row) = rows.get_mut(*target)
        {
            *row = below.max(*row);
        }
    }
}

/// Returns the row directly above the highest of the targets that are below the element.
fn row_above(element: usize, targets: &[usize], rows: &[usize]) -> Option<usize> {
    let own = rows.get(element).copied().unwrap_or(0);
    let mut highest = None;
    for target in targets {
        let row = rows.get(*target).copied().unwrap_or(0);
        if row > own && highest.is_none_or(|it| row < it) {
            highest = Some(row);
        }
    }
    highest.map(|row| row.saturating_sub(1))
}

/// Returns the row of each element, from 0 at the top. An element to which no connection leads is
/// directly above the highest element that it leads to.
pub fn rows_of(
    alloc: Global,
    elements: usize,
    connections: &[Connection],
) -> Result<Vec<usize>, AllocError> {
    let targets = targets_of(alloc, elements, connections)?;
    let order = downstream_order(alloc, elements, connections, targets.as_slice())?;
    let turns = turns_of(alloc, order.as_slice())?;
    let mut rows = vec![in alloc; 0usize; elements]?;
    for element in &order {
        if let Some(list) = targets.get(*element) {
            push_down(
                *element,
                turns.as_slice(),
                list.as_slice(),
                rows.as_mut_slice(),
            );
        }
    }
    let fed = fed(alloc, elements, connections)?;
    for (element, list) in targets.iter().enumerate() {
        if fed.get(element) == Some(&false)
            && let Some(row) = row_above(element, list.as_slice(), rows.as_slice())
            && let Some(place) = rows.get_mut(element)
        {
            *place = row;
        }
    }
    Ok(rows)
}
