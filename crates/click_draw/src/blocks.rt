//! Blocks of nodes that are laid out together: the elements of a compound, or the bends of a line.

use crate::measures::BOX_GAP_PX;
use crate::order::{Mean, add_to, mean_of};
use crate::routes::Node;
use std::alloc::{AllocError, Global};

/// The free width at each side of a compound.
const COMPOUND_MARGIN_PX: u64 = 14;

/// The level of a block: what its nodes have in common.
///
/// They are an element or the bends of a line (`Chain`), a compound within another one (`Inner`),
/// an outermost compound (`Outer`), or everything (`All`).
#[derive(Clone, Copy, Debug, PartialEq, Eq)]
pub enum Level {
    Chain,
    Inner,
    Outer,
    All,
}

impl Node {
    /// Returns the name of the block that the node is in. It is the number of one of its nodes.
    pub fn name(&self, level: Level) -> usize {
        match level {
            Level::Inner if self.compound_path.inner < usize::MAX => self.compound_path.inner,
            Level::Outer if self.compound_path.outer < usize::MAX => self.compound_path.outer,
            Level::All => 0,
            _ => self.chain,
        }
    }
}

/// Returns the middle between two places, rounded down.
pub fn midway(a: u64, b: u64) -> u64 {
    a / 2 + b / 2 + (a % 2).min(b % 2)
}

/// A block: its sides, its first and last row, and its block of a higher level (`whole`).
#[derive(Clone, Copy, Debug, PartialEq, Eq)]
pub struct Block {
    pub left: u64,
    pub right: u64,
    pub first: usize,
    pub last: usize,
    whole: usize,
}

impl Block {
    /// Returns the middle between its sides.
    fn middle(self) -> u64 {
        midway(self.left, self.right)
    }

    /// Returns the mirror image of the block, in which left is right.
    fn mirrored(self) -> Block {
        Block {
            left: u64::MAX - self.right,
            right: u64::MAX - self.left,
            ..self
        }
    }

    /// Returns the block, extended to include the node with its left side at `left`.
    fn with(self, node: &Node, left: u64, aside: u64) -> Block {
        let right = left.saturating_add(node.width).saturating_add(aside);
        Block {
            left: self.left.min(left.saturating_sub(aside)),
            right: self.right.max(right),
            first: self.first.min(node.row),
            last: self.last.max(node.row),
            whole: self.whole,
        }
    }
}

/// Returns the blocks of a level, each at its name.
pub fn blocks_of(
    alloc: Global,
    nodes: &[Node],
    lefts: &[u64],
    unit: Level,
    whole: Level,
) -> Result<Vec<Option<Block>>, AllocError> {
    let mut blocks = vec![in alloc; None; nodes.len()]?;
    for (node, left) in nodes.iter().zip(lefts) {
        if let Some(place) = blocks.get_mut(node.name(unit)) {
            let none = Block {
                left: u64::MAX,
                right: 0,
                first: node.row,
                last: node.row,
                whole: node.name(whole),
            };
            let aside = if node.name(unit) == node.chain {
                0
            } else {
                COMPOUND_MARGIN_PX
            };
            *place = Some(place.unwrap_or(none).with(node, *left, aside));
        }
    }
    Ok(blocks)
}

/// Returns the mean left side of the nodes of each block.
fn means_of(
    alloc: Global,
    nodes: &[Node],
    lefts: &[u64],
    unit: Level,
) -> Result<Vec<Mean>, AllocError> {
    let mut means = vec![in alloc; Mean::none(); nodes.len()]?;
    for (node, left) in nodes.iter().zip(lefts) {
        add_to(means.as_mut_slice(), node.name(unit), *left);
    }
    Ok(means)
}

/// Restores the relative places of the nodes of each block, and keeps the block's mean place.
pub fn align_blocks(
    alloc: Global,
    nodes: &[Node],
    old: &[u64],
    lefts: &mut [u64],
    unit: Level,
) -> Result<(), AllocError> {
    let was = means_of(alloc, nodes, old, unit)?;
    let is = means_of(alloc, nodes, lefts, unit)?;
    for ((node, old), left) in nodes.iter().zip(old).zip(lefts.iter_mut()) {
        let name = node.name(unit);
        if let (Some(was), Some(is)) = (
            mean_of(was.as_slice(), name),
            mean_of(is.as_slice(), name),
        ) {
            *left = is.saturating_add(*old).saturating_sub(was);
        }
    }
    Ok(())
}

/// Returns the names of the blocks, sorted by the blocks that they are in and then by their
/// middles.
fn names_in_order(
    alloc: Global,
    blocks: &[Option<Block>],
) -> Result<Vec<(usize, u64, usize)>, AllocError> {
    let mut names = Vec::new(alloc);
    for (name, block) in blocks.iter().enumerate() {
        if let Some(it) = block {
            names.push((it.whole, it.middle(), name))?;
        }
    }
    names.sort()?;
    Ok(names)
}

/// How far a row is occupied from the left, within the block named `whole`.
#[derive(Clone, Copy, Debug, PartialEq, Eq)]
struct Taken {
    whole: usize,
    to: u64,
}

/// Moves the block to the right of all that is occupied in its rows, and occupies its own place.
fn push_right(block: &mut Block, taken: &mut [Taken]) {
    let mut left = block.left;
    for row in block.first..=block.last {
        if let Some(it) = taken.get(row)
            && it.whole == block.whole
        {
            left = it.to.max(left);
        }
    }
    block.right = left.saturating_add(block.right.saturating_sub(block.left));
    block.left = left;
    for row in block.first..=block.last {
        if let Some(it) = taken.get_mut(row) {
            *it = Taken {
                whole: block.whole,
                to: block.right.saturating_add(BOX_GAP_PX),
            };
        }
    }
}

/// Returns the blocks after each was moved to the right of those before it in this order. Only
/// blocks in the same block of the higher level give way to one another.
fn pushed_right(
    alloc: Global,
    blocks: &[Option<Block>],
    names: &[(usize, u64, usize)],
    rows: usize,
) -> Result<Vec<Option<Block>>, AllocError> {
    let none = Taken {
        whole: usize::MAX,
        to: 0,
    };
    let mut taken = vec![in alloc; none; rows]?;
    let mut pushed = blocks.to_vec(alloc)?;
    for (_, _, name) in names {
        if let Some(Some(block)) = pushed.get_mut(*name) {
            push_right(block, taken.as_mut_slice());
        }
    }
    Ok(pushed)
}

/// Moves the blocks within each block of the higher level apart, so that no two overlap in a row.
/// Two blocks in each other's way move equally far.
pub fn separate_blocks(
    alloc: Global,
    nodes: &[Node],
    rows: usize,
    lefts: &mut [u64],
    unit: Level,
    whole: Level,
) -> Result<(), AllocError> {
    let blocks = blocks_of(alloc, nodes, lefts, unit, whole)?;
    let mut names = names_in_order(alloc, blocks.as_slice())?;
    let right = pushed_right(alloc, blocks.as_slice(), names.as_slice(), rows)?;
    // Moving left is moving right in the mirror image, in the opposite order.
    let mut mirrored = blocks.clone()?;
    for block in mirrored.iter_mut() {
        *block = block.map(Block::mirrored);
    }
    names.reverse();
    let left = pushed_right(alloc, mirrored.as_slice(), names.as_slice(), rows)?;
    for (node, place) in nodes.iter().zip(lefts.iter_mut()) {
        let name = node.name(unit);
        if let (Some(Some(was)), Some(Some(right)), Some(Some(left))) = (
            blocks.get(name),
            right.get(name),
            left.get(name),
        ) {
            let moved = midway(right.left, left.mirrored().left);
            *place = place.saturating_add(moved).saturating_sub(was.left);
        }
    }
    Ok(())
}
