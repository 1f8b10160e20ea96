//! Lays out the drawing of a net.

ghost use Rattle.std.specs.Prelude.{◌≡◌, ℕ, ◌+◌, ◌<◌, ◌≤◌, length, slice_index, All, IfOk, OnOk};
ghost use Rattle.click_draw.specs.Measures.{element_width};
ghost use Rattle.click_draw.specs.Picture.{AreApart, EachAt, IsClear, IsFigure, IsInside, IsLine, IsLineInside};
ghost use Rattle.click_draw.specs.kept.Boxed.{IsBoxed};
ghost use Rattle.click_draw.specs.kept.Placing.{AreSlots};

use crate::compound_paths::compound_paths_of;
use crate::compounds::Compounds;
use crate::drawing::{Drawing, Figure, Rectangle};
use crate::frames::{frame_room, frames_of};
use crate::lines::{Size, lines_of};
use crate::looks::{element_width, look_of};
use crate::order::ordered_rows;
use crate::placing::{Slot, place};
use crate::preferred_places::preferred_places_in;
use crate::routes::{BEND_WIDTH_PX, MAX_BENDS, Route, layout_graph_of};
use crate::rows::rows_of;
use click_base::sequence::Sequence;
use click_ports::Net;
use std::alloc::{AllocError, Global};

/// Returns the widths of the elements' boxes.
fn widths_of(alloc: Global, net: &Net) -> Result<Vec<u64>, AllocError>
    ensures all { IfOk result (λ widths. length widths.items ≡ length net.now.shapes) }
    ensures each { IfOk result (λ widths. EachAt (λ e w. w ≡ element_width net.now e) widths.items) }
    ensures small { IfOk result (λ widths. All (λ w. w ≤ 32788) widths.items) }
{
    let mut widths = Vec::new(alloc);
    for element in 0..net.shapes().len() {
        widths.push(element_width(net, element))?;
    }
    Ok(widths)
}

/// The preferred place of a node: its row, and its distance from the left.
#[derive(Clone, Copy, Debug, PartialEq, Eq)]
struct PreferredPlace {
    row: usize,
    left: u64,
}

/// The preferred places of the nodes, the elements first, and the bends of each connection.
#[derive(Drop)]
struct Plan {
    preferred_places: Vec<PreferredPlace>,
    routes: Vec<Route>,
}

/// Plans the places of the net's nodes. The boxes of its elements have these widths.
///
/// The plan affects how the drawing looks, and nothing that is proved of it.
fn plan_of(
    alloc: Global,
    net: &Net,
    compounds: &Compounds,
    widths: &[u64],
) -> Result<Plan, AllocError> {
    let rows = rows_of(alloc, widths.len(), net.connections())?;
    let compound_paths = compound_paths_of(alloc, net, compounds)?;
    let routes = layout_graph_of(
        alloc,
        net,
        widths,
        rows.as_slice(),
        compound_paths.as_slice(),
    )?;
    let nodes = routes.nodes.as_slice();
    let lefts = preferred_places_in(alloc, nodes, ordered_rows(alloc, nodes)?.as_slice())?;
    let mut preferred_places = Vec::new(alloc);
    for (node, left) in nodes.iter().zip(lefts.iter()) {
        preferred_places.push(PreferredPlace {
            row: node.row,
            left: *left,
        })?;
    }
    let mut kept = Vec::new(alloc);
    kept.extend_from_slice(routes.routes.as_slice())?;
    Ok(Plan {
        preferred_places,
        routes: kept,
    })
}

/// Appends the widths of `count` bends.
fn with_bends(widths: &mut Vec<u64>, count: usize) -> Result<(), AllocError>
    requires few { count ≤ 65536 }
    requires small { All (λ w. w ≤ 32788) widths.old.items }
    ensures all { OnOk result (length widths.new.items ≡ length widths.old.items + count) }
    ensures kept { OnOk result ((n : ℕ) → n < length widths.old.items → slice_index widths.new.items n ≡ slice_index widths.old.items n) }
    ensures small { OnOk result (All (λ w. w ≤ 32788) widths.new.items) }
{
    for _bend in 0..count {
        widths.push(BEND_WIDTH_PX)?;
    }
    Ok(())
}

/// Returns the number of bends among the nodes, of which the first ones are the elements.
fn bend_count(nodes: usize, elements: usize) -> usize
    ensures { result ≤ 65536 }
{
    nodes.saturating_sub(elements).min(MAX_BENDS)
}

/// Returns the nodes in the order in which they are placed.
fn slots_of(
    alloc: Global,
    count: usize,
    preferred_places: &[PreferredPlace],
) -> Result<Vec<Slot>, AllocError>
    ensures { IfOk result (λ slots. AreSlots count slots.items) }
{
    let none = PreferredPlace { row: 0, left: 0 };
    let mut slots = Vec::new(alloc);
    for node in 0..count {
        let preferred = preferred_places.get(node).copied().unwrap_or(none);
        slots.push(Slot {
            row: preferred.row,
            preferred: preferred.left,
            node,
        })?;
    }
    slots.sort()?;
    Ok(slots)
}

/// Returns the figure of an element in its box.
fn figure_of(
    alloc: Global,
    net: &Net,
    element: usize,
    boxes: &[Rectangle],
) -> Result<Figure, AllocError>
    requires there { element < length net.now.shapes }
    requires boxed { element < length boxes.now }
    ensures { IfOk result (IsBoxed net.now boxes.now element) }
{
    Ok(Figure {
        look: look_of(alloc, net, element)?,
        frame: boxes[element],
    })
}

/// Returns the figures of the elements in their boxes, which are the first of `boxes`.
fn figures_of(alloc: Global, net: &Net, boxes: &[Rectangle]) -> Result<Vec<Figure>, AllocError>
    requires { length net.now.shapes ≤ length boxes.now }
    ensures all { IfOk result (λ figures. length figures.items ≡ length net.now.shapes) }
    ensures each { IfOk result (λ figures. EachAt (IsBoxed net.now boxes.now) figures.items) }
{
    let mut figures = Vec::new(alloc);
    for element in 0..net.shapes().len() {
        figures.push(figure_of(alloc, net, element, boxes)?)?;
    }
    Ok(figures)
}

/// Returns the drawing of a net that has at most as many elements as a flat form can have, with
/// frames around these compounds.
pub fn layout(alloc: Global, net: &Net, compounds: &Compounds) -> Result<Drawing, AllocError>
    requires elements { length net.now.shapes ≤ 4096 }
    // Each element has a figure, in flat order, in a box as large as it needs.
    ensures figures { IfOk result (λ d. length d.figures ≡ length net.now.shapes) }
    ensures each { IfOk result (λ d. EachAt (IsFigure net.now) d.figures) }
    // No two boxes overlap.
    ensures apart { IfOk result (λ d. AreApart d.figures) }
    // Each connection has a line, in order, from its output to its input.
    ensures lines { IfOk result (λ d. length d.lines ≡ length net.now.connections) }
    ensures joined { IfOk result (λ d. EachAt (IsLine d.figures net.now.connections) d.lines) }
    // All boxes, lines and frames lie in the picture.
    ensures inside { IfOk result (λ d. All (λ f. IsInside d.width d.height f.frame) d.figures) }
    ensures lines_inside { IfOk result (λ d. All (IsLineInside d.width d.height) d.lines) }
    ensures frames_inside { IfOk result (λ d. All (λ f. IsInside d.width d.height f.around) d.frames) }
    // No frame lies over the box of an element that is not in the compound.
    ensures clear { IfOk result (λ d. All (IsClear d.figures) d.frames) }
{
    let mut widths = widths_of(alloc, net)?;
    let Plan {
        preferred_places,
        routes,
    } = plan_of(alloc, net, compounds, widths.as_slice())?;
    let bends = bend_count(preferred_places.len(), widths.len());
    with_bends(&mut widths, bends)?;
    let slots = slots_of(alloc, widths.len(), preferred_places.as_slice())?;
    let room = frame_room(net, compounds);
    let placed = place(alloc, widths.as_slice(), slots.as_slice(), room)?;
    let boxes = placed.boxes.as_slice();
    let size = Size {
        width: placed.width,
        height: placed.height,
    };
    let figures = figures_of(alloc, net, boxes)?;
    let lines = lines_of(
        alloc,
        net.connections(),
        routes.as_slice(),
        figures.as_slice(),
        boxes,
        size,
    )?;
    let frames = frames_of(alloc, figures.as_slice(), compounds, size)?;
    Ok(Drawing {
        width: size.width,
        height: size.height,
        figures: Sequence::of(figures),
        lines,
        frames,
    })
}
