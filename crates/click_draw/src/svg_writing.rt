//! Writes a drawing as SVG.

ghost use Rattle.std.specs.Prelude.{◌≡◌, ◌++◌, ◌∷◌, [], flat_map, decimal, codes, IfOk, OnOk};
ghost use Rattle.click_draw.specs.Svg as spec;
ghost use Rattle.click_draw.specs.Svg.{svg_of};

use crate::drawing::{Drawing, Figure, Frame, Line, Look, Mark, Point, Rectangle};
use click_base::Class;
use itoa::Buffer;
use std::alloc::{AllocError, Global};

/// The part that all drawings have in common: colours, light and dark, and the tip of a line.
pub const STYLE: &[u8] =
    b"<style>\nsvg{background:#fff;font:12px ui-monospace,monospace}\ntext{fill:#222;text-anchor:middle}\n.class{font-size:11px;opacity:.7}\n.box{fill:#f4f4f0;stroke:#222}\n.rib{stroke:#222}\n.push{fill:#222;stroke:#222}\n.pull{fill:#fff;stroke:#222}\n.rim{fill:none;stroke:#222}\npolyline{fill:none;stroke:#222;stroke-linejoin:round;marker-end:url(#tip)}\n.tip{fill:#222}\n.frame rect{fill:#4a7;fill-opacity:.08;stroke:#4a7}\n.frame text{fill:#385;text-anchor:start}\n@media(prefers-color-scheme:dark){\nsvg{background:#16181c}\ntext{fill:#ddd}\n.box{fill:#24272d}\n.box,.rib,.push,.pull,.rim,polyline{stroke:#ddd}\n.push,.tip{fill:#ddd}\n.pull{fill:#16181c}\n.frame text{fill:#7ca}\n}\n</style>\n<marker id=\"tip\" viewBox=\"0 0 8 8\" refX=\"8\" refY=\"4\" markerWidth=\"8\" markerHeight=\"8\" orient=\"auto\"><path class=\"tip\" d=\"M0 1L8 4L0 7z\"/></marker>\n";

/// Appends a number.
fn push_number(text: &mut Vec<u8>, number: u64) -> Result<(), AllocError>
    ensures { OnOk result (text.new.items ≡ text.old.items ++ decimal number) }
{
    let mut digits = Buffer::new();
    text.extend_from_slice(digits.format(number).as_bytes())?;
    Ok(())
}

/// Appends a byte of a name, escaped if it has a meaning in XML.
fn push_escaped(text: &mut Vec<u8>, byte: u8) -> Result<(), AllocError>
    ensures { OnOk result (text.new.items ≡ text.old.items ++ spec.escaped_byte byte) }
{
    match byte {
        b'&' => text.extend_from_slice(b"&amp;")?,
        b'<' => text.extend_from_slice(b"&lt;")?,
        b'>' => text.extend_from_slice(b"&gt;")?,
        b'"' => text.extend_from_slice(b"&quot;")?,
        _ => text.push(byte)?,
    }
    Ok(())
}

/// Appends a name, escaped.
fn push_name(text: &mut Vec<u8>, name: &[u8]) -> Result<(), AllocError>
    ensures { OnOk result (text.new.items ≡ text.old.items ++ spec.escaped name.now) }
{
    for byte in name {
        push_escaped(text, *byte)?;
    }
    Ok(())
}

/// Appends two numbers.
fn push_pair(text: &mut Vec<u8>, x: u64, between: &[u8], y: u64) -> Result<(), AllocError>
    ensures { OnOk result (text.new.items ≡ text.old.items ++ spec.pair x between.now y) }
{
    push_number(text, x)?;
    text.extend_from_slice(between)?;
    push_number(text, y)?;
    Ok(())
}

/// Appends a width and a height as attributes.
#[tactic(auto, using(std::proofs::Common::append_assoc), unfolding(crate::specs::Svg::size))]
fn push_size(text: &mut Vec<u8>, width: u64, height: u64) -> Result<(), AllocError>
    ensures { OnOk result (text.new.items ≡ text.old.items ++ spec.size width height) }
{
    text.extend_from_slice(b" width=\"")?;
    push_pair(text, width, b"\" height=\"", height)?;
    text.extend_from_slice(b"\"")?;
    Ok(())
}

/// Appends the attribute that moves a group to the upper left corner of the rectangle.
fn push_move(text: &mut Vec<u8>, to: &Rectangle) -> Result<(), AllocError>
    ensures { OnOk result (text.new.items ≡ text.old.items ++ spec.moved to.now) }
{
    text.extend_from_slice(b" transform=\"translate(")?;
    push_pair(text, to.left, b",", to.top)?;
    text.extend_from_slice(b")\">")?;
    Ok(())
}

/// Appends the frame of a compound.
fn push_frame(text: &mut Vec<u8>, frame: &Frame) -> Result<(), AllocError>
    ensures { OnOk result (text.new.items ≡ text.old.items ++ spec.frame_svg frame.now) }
{
    text.extend_from_slice(b"<g class=\"frame\"")?;
    push_move(text, &frame.around)?;
    text.extend_from_slice(b"<rect rx=\"8\"")?;
    push_size(text, frame.around.width, frame.around.height)?;
    text.extend_from_slice(b"/><text x=\"8\" y=\"14\">")?;
    push_name(text, frame.name.as_slice())?;
    text.extend_from_slice(b"</text></g>\n")?;
    Ok(())
}

/// Appends a point of a line after its first one.
fn push_point(text: &mut Vec<u8>, point: &Point) -> Result<(), AllocError>
    ensures { OnOk result (text.new.items ≡ text.old.items ++ spec.next_point point.now) }
{
    text.extend_from_slice(b" ")?;
    push_pair(text, point.x, b",", point.y)?;
    Ok(())
}

/// Appends several points of a line after its first one.
fn push_points(text: &mut Vec<u8>, points: &[Point]) -> Result<(), AllocError>
    ensures { OnOk result (text.new.items ≡ text.old.items ++ flat_map spec.next_point points.now) }
{
    for point in points {
        push_point(text, point)?;
    }
    Ok(())
}

/// Appends the line of a connection.
fn push_line(text: &mut Vec<u8>, line: &Line) -> Result<(), AllocError>
    ensures { OnOk result (text.new.items ≡ text.old.items ++ spec.line_svg line.now) }
{
    text.extend_from_slice(b"<polyline id=\"c")?;
    push_number(text, line.number as u64)?;
    text.extend_from_slice(b"\" points=\"")?;
    push_pair(text, line.from.x, b",", line.from.y)?;
    push_points(text, line.bends.as_slice())?;
    push_point(text, &line.to)?;
    text.extend_from_slice(b"\"/>\n")?;
    Ok(())
}

/// Returns the name of a port's kind.
fn kind_name(pull: bool) -> &'static [u8]
    ensures { result.now ≡ spec.kind_name pull }
{
    if pull { b"pull" } else { b"push" }
}

/// Appends an outline that begins at a point.
fn push_outline(
    text: &mut Vec<u8>,
    class: &[u8],
    x: u64,
    y: u64,
    outline: &[u8],
) -> Result<(), AllocError>
    ensures { OnOk result (text.new.items ≡ text.old.items ++ spec.outline class.now x y outline.now) }
{
    text.extend_from_slice(b"<path class=\"")?;
    text.extend_from_slice(class)?;
    text.extend_from_slice(b"\" d=\"M")?;
    push_pair(text, x, b" ", y)?;
    text.extend_from_slice(outline)?;
    text.extend_from_slice(b"\"/>")?;
    Ok(())
}

/// Appends the second outline of an agnostic port.
fn push_rim(
    text: &mut Vec<u8>,
    agnostic: bool,
    x: u64,
    y: u64,
    outline: &[u8],
) -> Result<(), AllocError>
    ensures { OnOk result (text.new.items ≡ text.old.items ++ spec.rim agnostic x y outline.now) }
{
    if agnostic {
        push_outline(text, b"rim", x, y, outline)?;
    }
    Ok(())
}

/// Appends the mark of an input: a triangle that points into the box.
#[tactic(auto, using(std::proofs::Common::append_assoc), unfolding(crate::specs::Svg::input_svg))]
fn push_input(text: &mut Vec<u8>, mark: &Mark) -> Result<(), AllocError>
    ensures { OnOk result (text.new.items ≡ text.old.items ++ spec.input_svg mark.now) }
{
    push_outline(
        text,
        kind_name(mark.pull),
        mark.at.saturating_sub(5),
        0,
        b"h10l-5 7z",
    )?;
    push_rim(
        text,
        mark.agnostic,
        mark.at.saturating_sub(9),
        0,
        b"h18l-9 12z",
    )?;
    Ok(())
}

/// Appends the mark of an output: a square at the lower side of a box of this height.
fn push_output(text: &mut Vec<u8>, mark: &Mark, height: u64) -> Result<(), AllocError>
    ensures { OnOk result (text.new.items ≡ text.old.items ++ spec.output_svg height mark.now) }
{
    let inner = height.saturating_sub(7);
    let outer = height.saturating_sub(10);
    push_outline(
        text,
        kind_name(mark.pull),
        mark.at.saturating_sub(4),
        inner,
        b"h8v7h-8z",
    )?;
    push_rim(
        text,
        mark.agnostic,
        mark.at.saturating_sub(7),
        outer,
        b"h14v10h-14z",
    )?;
    Ok(())
}

/// Appends the marks of inputs.
fn push_inputs(text: &mut Vec<u8>, marks: &[Mark]) -> Result<(), AllocError>
    ensures { OnOk result (text.new.items ≡ text.old.items ++ flat_map spec.input_svg marks.now) }
{
    for mark in marks {
        push_input(text, mark)?;
    }
    Ok(())
}

/// Appends the marks of outputs of a box of this height.
fn push_outputs(text: &mut Vec<u8>, marks: &[Mark], height: u64) -> Result<(), AllocError>
    ensures { OnOk result (text.new.items ≡ text.old.items ++ flat_map (spec.output_svg height) marks.now) }
{
    for mark in marks {
        push_output(text, mark, height)?;
    }
    Ok(())
}

/// Appends a rib across a box of this width, `below` pixels under its top.
fn push_rib(text: &mut Vec<u8>, below: u64, width: u64) -> Result<(), AllocError>
    ensures { OnOk result (text.new.items ≡ text.old.items ++ spec.rib width below) }
{
    text.extend_from_slice(b"<path class=\"rib\" d=\"M")?;
    push_pair(text, 0, b" ", below)?;
    text.extend_from_slice(b"h")?;
    push_number(text, width)?;
    text.extend_from_slice(b"\"/>")?;
    Ok(())
}

/// Appends the ribs of a box of this width.
#[tactic(auto, using(std::proofs::Common::append_assoc), unfolding(crate::specs::Svg::all_ribs))]
fn push_all_ribs(text: &mut Vec<u8>, width: u64) -> Result<(), AllocError>
    ensures { OnOk result (text.new.items ≡ text.old.items ++ spec.all_ribs width) }
{
    push_rib(text, 36, width)?;
    push_rib(text, 39, width)?;
    push_rib(text, 42, width)?;
    Ok(())
}

/// Returns whether elements of the class store packets.
fn stores(class: Class) -> bool
    ensures { result ≡ spec.stores class }
{
    matches!(class, Class::Queue | Class::FrontDropQueue)
}

/// Appends the ribs of a box of this width, if its element stores packets.
fn push_ribs(text: &mut Vec<u8>, stores: bool, width: u64) -> Result<(), AllocError>
    ensures { OnOk result (text.new.items ≡ text.old.items ++ spec.ribs stores width) }
{
    if stores {
        push_all_ribs(text, width)?;
    }
    Ok(())
}

/// Appends the texts in a box of this width: the name and the class.
fn push_texts(text: &mut Vec<u8>, look: &Look, width: u64) -> Result<(), AllocError>
    ensures { OnOk result (text.new.items ≡ text.old.items ++ spec.texts look.now width) }
{
    text.extend_from_slice(b"<text y=\"21\" x=\"")?;
    push_number(text, width / 2)?;
    text.extend_from_slice(b"\">")?;
    push_name(text, look.name.as_slice())?;
    text.extend_from_slice(b"</text><text class=\"class\" y=\"33\" x=\"")?;
    push_number(text, width / 2)?;
    text.extend_from_slice(b"\">")?;
    text.extend_from_slice(look.class.name())?;
    text.extend_from_slice(b"</text>")?;
    Ok(())
}

/// Appends the box of an element.
fn push_box(text: &mut Vec<u8>, figure: &Figure) -> Result<(), AllocError>
    ensures { OnOk result (text.new.items ≡ text.old.items ++ spec.box_svg figure.now) }
{
    text.extend_from_slice(b"<rect class=\"box\"")?;
    push_size(text, figure.frame.width, figure.frame.height)?;
    text.extend_from_slice(b"/>")?;
    push_ribs(text, stores(figure.look.class), figure.frame.width)?;
    push_texts(text, &figure.look, figure.frame.width)?;
    Ok(())
}

/// Appends an element.
fn push_figure(text: &mut Vec<u8>, figure: &Figure) -> Result<(), AllocError>
    ensures { OnOk result (text.new.items ≡ text.old.items ++ spec.figure_svg figure.now) }
{
    text.extend_from_slice(b"<g id=\"e")?;
    push_number(text, figure.look.number as u64)?;
    text.extend_from_slice(b"\"")?;
    push_move(text, &figure.frame)?;
    push_box(text, figure)?;
    push_inputs(text, figure.look.inputs.as_slice())?;
    push_outputs(text, figure.look.outputs.as_slice(), figure.frame.height)?;
    text.extend_from_slice(b"</g>\n")?;
    Ok(())
}

/// Appends the first tag of a drawing of this size.
fn push_head(text: &mut Vec<u8>, width: u64, height: u64) -> Result<(), AllocError>
    ensures { OnOk result (text.new.items ≡ text.old.items ++ spec.head width height) }
{
    text.extend_from_slice(b"<svg xmlns=\"http://www.w3.org/2000/svg\"")?;
    push_size(text, width, height)?;
    text.extend_from_slice(b" viewBox=\"0 0 ")?;
    push_pair(text, width, b" ", height)?;
    text.extend_from_slice(b"\">\n")?;
    Ok(())
}

/// Appends frames.
fn push_frames(text: &mut Vec<u8>, frames: &[Frame]) -> Result<(), AllocError>
    ensures { OnOk result (text.new.items ≡ text.old.items ++ flat_map spec.frame_svg frames.now) }
{
    for frame in frames {
        push_frame(text, frame)?;
    }
    Ok(())
}

/// Appends lines.
fn push_lines(text: &mut Vec<u8>, lines: &[Line]) -> Result<(), AllocError>
    ensures { OnOk result (text.new.items ≡ text.old.items ++ flat_map spec.line_svg lines.now) }
{
    for line in lines {
        push_line(text, line)?;
    }
    Ok(())
}

/// Appends figures.
fn push_figures(text: &mut Vec<u8>, figures: &[Figure]) -> Result<(), AllocError>
    ensures { OnOk result (text.new.items ≡ text.old.items ++ flat_map spec.figure_svg figures.now) }
{
    for figure in figures {
        push_figure(text, figure)?;
    }
    Ok(())
}

/// Returns the drawing as SVG.
///
/// The frames come first, over them the lines `c0`, `c1` and so on, and over these the elements
/// `e0`, `e1` and so on.
pub fn svg(alloc: Global, drawing: &Drawing) -> Result<Vec<u8>, AllocError>
    ensures { IfOk result (λ text. text.items ≡ svg_of STYLE.now drawing.now) }
{
    let mut text = Vec::new(alloc);
    push_head(&mut text, drawing.width, drawing.height)?;
    text.extend_from_slice(STYLE)?;
    push_frames(&mut text, drawing.frames.as_slice())?;
    push_lines(&mut text, drawing.lines.as_slice())?;
    push_figures(&mut text, drawing.figures.as_slice())?;
    text.extend_from_slice(b"</svg>\n")?;
    Ok(text)
}
