//! The frames of compounds.

ghost use Rattle.std.specs.Prelude.{◌≤◌, ◌↔◌, ◌+◌, ◌<◌, All, IfOk, IsTrue, OnOk};
ghost use Rattle.click_draw.specs.Picture.{IsBelow, IsClear, IsInside, Overlap};

use crate::compound_paths::shared_depth;
use crate::compounds::Compounds;
use crate::drawing::{Figure, Frame, Rectangle};
use crate::lines::Size;
use click_base::sequence::Sequence;
use click_ports::Net;
use std::alloc::{AllocError, Global};

/// The distance between a frame and what is in it, in pixels.
const FRAME_PADDING_PX: u64 = 6;

/// The additional distance at the top of a frame, for its name, in pixels.
const FRAME_TITLE_PX: u64 = 14;

/// The minimum and the maximum of the depth of compounds that rows have room for.
const MIN_DEPTH: usize = 2;

const MAX_DEPTH: usize = 200;

/// The sides of a rectangle.
#[derive(Clone, Copy, Debug, PartialEq, Eq)]
struct Sides {
    left: u64,
    top: u64,
    right: u64,
    bottom: u64,
}

impl Sides {
    ghost use Rattle.click_draw.specs.Picture.{IsInside};

    fn of(it: &Rectangle) -> Sides {
        Sides {
            left: it.left,
            top: it.top,
            right: it.left.saturating_add(it.width),
            bottom: it.top.saturating_add(it.height),
        }
    }

    fn none() -> Sides {
        Sides {
            left: u64::MAX,
            top: u64::MAX,
            right: 0,
            bottom: 0,
        }
    }

    fn with(self, other: Sides) -> Sides {
        Sides {
            left: self.left.min(other.left),
            top: self.top.min(other.top),
            right: self.right.max(other.right),
            bottom: self.bottom.max(other.bottom),
        }
    }

    /// Returns these sides, moved outwards to where the frame is.
    fn widened(self) -> Sides {
        Sides {
            left: self.left.saturating_sub(FRAME_PADDING_PX),
            top: self.top.saturating_sub(FRAME_PADDING_PX + FRAME_TITLE_PX),
            right: self.right.saturating_add(FRAME_PADDING_PX),
            bottom: self.bottom.saturating_add(FRAME_PADDING_PX),
        }
    }

    /// Returns the rectangle between these sides, cut off at the edges of the picture.
    fn rectangle(self, size: Size) -> Rectangle
        ensures { IsInside size.width size.height result }
    {
        let left = self.left.min(size.width);
        let top = self.top.min(size.height);
        Rectangle {
            left,
            top,
            width: self.right.min(size.width).saturating_sub(left),
            height: self.bottom.min(size.height).saturating_sub(top),
        }
    }
}

/// Returns the height above a row that the frames of compounds need, in pixels.
///
/// It is the height for the deepest compound, but at least for a depth of 2 and at most for 200.
pub fn frame_room(net: &Net, compounds: &Compounds) -> u64
    ensures { result ≤ 4000 }
{
    let elements = 0..net.shapes().len();
    let deepest = elements
        .map(|it| compounds.around(net.name(it)).len())
        .max();
    let depth = deepest.unwrap_or(0).clamp(MIN_DEPTH, MAX_DEPTH);
    depth as u64 * (FRAME_PADDING_PX + FRAME_TITLE_PX)
}

/// A compound that is being processed: the length of its name, and the sides around its elements up
/// to now.
#[derive(Clone, Copy, Debug, PartialEq, Eq)]
struct Open {
    len: usize,
    around: Sides,
}

/// Extends the innermost open compound to include these sides.
fn widen(open: &mut [Open], around: Sides) {
    if let Some(last) = open.last_mut() {
        last.around = last.around.with(around);
    }
}

/// Returns the frame of a compound. `name` is the name of one of its elements.
fn frame_of(alloc: Global, open: &Open, name: &[u8], size: Size) -> Result<Frame, AllocError>
    ensures { IfOk result (λ f. IsInside size.width size.height f.around) }
{
    let name = name.get(..open.len).unwrap_or(name);
    Ok(Frame {
        name: Sequence::copy_of(alloc, name)?,
        around: open.around.widened().rectangle(size),
    })
}

/// Returns whether the range from `start` of this length ends after `at`.
fn ends_after(start: u64, length: u64, at: u64) -> bool
    ensures { IsTrue result ↔ at < start + length }
{
    at < start || at - start < length
}

/// Returns whether two rectangles overlap.
fn overlap(a: &Rectangle, b: &Rectangle) -> bool
    ensures { IsTrue result ↔ Overlap a.now b.now }
{
    ends_after(b.left, b.width, a.left)
        && ends_after(a.left, a.width, b.left)
        && ends_after(b.top, b.height, a.top)
        && ends_after(a.top, a.height, b.top)
}

/// Returns whether an element of this flat name can be in the compound.
fn is_below(compound: &[u8], name: &[u8]) -> bool
    ensures { IsTrue result → IsBelow compound.now name.now }
{
    if !name.starts_with(compound) {
        return false;
    }
    let after_compound = &name[compound.len()..];
    after_compound.starts_with(b"/")
}

/// Returns whether the frame lies over no figure of an element that is not in the compound.
fn is_clear(frame: &Frame, figures: &[Figure]) -> bool
    ensures { IsTrue result → IsClear figures.now frame.now }
{
    figures.iter().all(|figure| {
        !overlap(&frame.around, &figure.frame)
            || is_below(frame.name.as_slice(), figure.look.name.as_slice())
    })
}

/// A picture of this size with these figures.
#[derive(Clone, Copy)]
struct Picture<'a> {
    figures: &'a [Figure],
    size: Size,
}

/// Adds a frame, unless it would lie over the box of an element that is not in the compound.
fn push_clear(frames: &mut Vec<Frame>, frame: Frame, picture: Picture) -> Result<(), AllocError>
    requires inside { All (λ f. IsInside picture.size.width picture.size.height f.around) frames.old.items }
    requires clear { All (IsClear picture.figures.now) frames.old.items }
    requires frame { IsInside picture.size.width picture.size.height frame.around }
    ensures inside { OnOk result (All (λ f. IsInside picture.entry.size.width picture.entry.size.height f.around) frames.new.items) }
    ensures clear { OnOk result (All (IsClear picture.entry.figures.now) frames.new.items) }
{
    if is_clear(&frame, picture.figures) {
        frames.push(frame)?;
    }
    Ok(())
}

/// Closes the innermost of the open compounds, until `depth` of them are left. `name` is the name
/// of an element in all of them. Adds their frames, without those that would lie over other boxes.
fn close(
    alloc: Global,
    frames: &mut Vec<Frame>,
    open: &mut Vec<Open>,
    name: &[u8],
    depth: usize,
    picture: Picture,
) -> Result<(), AllocError>
    requires inside { All (λ f. IsInside picture.size.width picture.size.height f.around) frames.old.items }
    requires clear { All (IsClear picture.figures.now) frames.old.items }
    ensures inside { OnOk result (All (λ f. IsInside picture.entry.size.width picture.entry.size.height f.around) frames.new.items) }
    ensures clear { OnOk result (All (IsClear picture.entry.figures.now) frames.new.items) }
{
    for _level in depth..open.len() {
        let Some(last) = open.pop() else {
            break;
        };
        let frame = frame_of(alloc, &last, name, picture.size)?;
        push_clear(frames, frame, picture)?;
        widen(open.as_mut_slice(), last.around.widened());
    }
    Ok(())
}

/// Opens the compounds whose names have these lengths.
fn enter(open: &mut Vec<Open>, name_lens: &[usize]) -> Result<(), AllocError> {
    for len in name_lens {
        open.push(Open {
            len: *len,
            around: Sides::none(),
        })?;
    }
    Ok(())
}

/// Returns the frames of the compounds that the figures are in, cut off at the edges of the
/// picture. A frame that would lie over the box of another element is left out.
pub fn frames_of(
    alloc: Global,
    figures: &[Figure],
    compounds: &Compounds,
    size: Size,
) -> Result<Sequence<Frame>, AllocError>
    ensures inside { IfOk result (All (λ f. IsInside size.width size.height f.around)) }
    ensures clear { IfOk result (All (IsClear figures.now)) }
{
    let picture = Picture { figures, size };
    let mut frames = Vec::new(alloc);
    let mut open = Vec::new(alloc);
    let mut before: (&[u8], &[usize]) = (b"", &[]);
    for figure in figures {
        let name = figure.look.name.as_slice();
        let around = compounds.around(name);
        let depth = shared_depth(before, (name, around));
        close(alloc, &mut frames, &mut open, before.0, depth, picture)?;
        enter(&mut open, around.get(depth..).unwrap_or(&[]))?;
        widen(open.as_mut_slice(), Sides::of(&figure.frame));
        before = (name, around);
    }
    close(alloc, &mut frames, &mut open, before.0, 0, picture)?;
    frames.reverse();
    Ok(Sequence::of(frames))
}
