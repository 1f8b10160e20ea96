//! Places the boxes. Each node of a row stands as near to its preferred place as the nodes to its
//! left allow.

ghost use Rattle.std.specs.Prelude.{◌≡◌, ℕ, ◌<◌, ◌≤◌, length, All, IfOk};
ghost use Rattle.click_draw.specs.Picture.{IsInside};
ghost use Rattle.click_draw.specs.kept.Placing.{AreSlots, IsSized, NoneOverlap};

use crate::drawing::Rectangle;
use crate::measures::{BOX_GAP_PX, BOX_HEIGHT};
use std::alloc::{AllocError, Global};

/// The free distance between two rows beyond the room for frames, in pixels.
const ROW_SPACING_PX: u64 = 4;

/// The maximum of a preferred distance from the left, in pixels.
const FURTHEST: u64 = 0x1_0000_0000;

/// A node with its row and its preferred distance from the left. Slots are sorted by rows, and
/// within a row from left to right.
#[derive(Clone, Copy, Debug, PartialEq, Eq, PartialOrd, Ord)]
pub struct Slot {
    pub row: usize,
    pub preferred: u64,
    pub node: usize,
}

/// The place where the next box of a row may begin (`free`).
///
/// It also has the rightmost side of all boxes up to now (`furthest`).
#[derive(Clone, Copy, Debug, PartialEq, Eq)]
pub struct Pen {
    pub row: usize,
    pub top: u64,
    pub free: u64,
    pub furthest: u64,
}

impl Pen {
    ghost use Rattle.std.specs.Prelude.{◌≤◌, ◌+◌, ◌*◌, ◌<◌};
    ghost use Rattle.click_draw.specs.kept.Placing.{Draws, IsNear};

    /// Places the box of a slot, and returns it with the pen after it. `drawn` boxes were placed
    /// before, and frames have `room` pixels above each row.
    fn draw(self, slot: &Slot, width: u64, drawn: usize, room: u64) -> (Rectangle, Pen)
        requires wide { width ≤ 32788 }
        requires room { room ≤ 4000 }
        requires few { drawn ≤ 131072 }
        requires near { IsNear drawn self }
        ensures draws { Draws self width result.0 result.1 }
        ensures near { IsNear (drawn + 1) result.1 }
    {
        let new_row = slot.row != self.row;
        let top = if new_row {
            self.top + BOX_HEIGHT + ROW_SPACING_PX + room
        } else {
            self.top
        };
        let free = if new_row { BOX_GAP_PX } else { self.free };
        let left = free.max(BOX_GAP_PX + slot.preferred.min(FURTHEST));
        let right = left + width;
        let frame = Rectangle {
            left,
            top,
            width,
            height: BOX_HEIGHT,
        };
        let pen = Pen {
            row: slot.row,
            top,
            free: right + BOX_GAP_PX,
            furthest: self.furthest.max(right),
        };
        (frame, pen)
    }
}

/// The boxes of the nodes, and the size of the picture.
#[derive(Drop)]
pub struct Placed {
    pub boxes: Vec<Rectangle>,
    pub width: u64,
    pub height: u64,
}

/// Places the boxes of nodes with these widths, in the order of the slots. Frames have `room`
/// pixels above each row.
pub fn place(alloc: Global, widths: &[u64], slots: &[Slot], room: u64) -> Result<Placed, AllocError>
    requires few { length widths.now ≤ 131072 }
    requires room { room ≤ 4000 }
    requires wide { All (λ w. w ≤ 32788) widths.now }
    requires slots { AreSlots (length widths.now) slots.now }
    ensures all { IfOk result (λ p. length p.boxes.items ≡ length widths.now) }
    ensures sized { IfOk result (λ p. (n : ℕ) → n < length widths.now → IsSized widths.now p.boxes.items n) }
    ensures apart { IfOk result (λ p. NoneOverlap p.boxes.items) }
    ensures inside { IfOk result (λ p. All (IsInside p.width p.height) p.boxes.items) }
    ensures small { IfOk result (λ p. (p.width ≤ 68719476736) × (p.height ≤ 68719476736)) }
{
    let none = Rectangle {
        left: 0,
        top: 0,
        width: 0,
        height: 0,
    };
    let mut boxes = vec![in alloc; none; widths.len()]?;
    let mut pen = Pen {
        row: 0,
        top: room,
        free: BOX_GAP_PX,
        furthest: 0,
    };
    for (drawn, slot) in slots.iter().enumerate() {
        let (frame, next) = pen.draw(slot, widths[slot.node], drawn, room);
        boxes[slot.node] = frame;
        pen = next;
    }
    Ok(Placed {
        boxes,
        width: pen.furthest + BOX_GAP_PX,
        height: pen.top + BOX_HEIGHT + BOX_GAP_PX,
    })
}
