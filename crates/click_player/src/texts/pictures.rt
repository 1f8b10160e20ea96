//! Drawings of configurations.

use super::nets::net_of;
use super::stop::Stop;
use super::words::read_number;
use click_base::sequence::Sequence;
use click_draw::{Compounds, Drawing, Figure, Frame, Rectangle, layout, svg};
use memchr::memmem;
use std::alloc::{AllocError, Global};

/// Returns the drawing of a configuration.
fn drawing_of(alloc: Global, text: &[u8]) -> Result<Drawing, Stop> {
    let net = net_of(alloc, text)?;
    if net.shapes().len() > 4096 {
        return Err(Stop::Malformed);
    }
    Ok(layout(alloc, &net, &Compounds::of(alloc, text)?)?)
}

/// Returns the picture of a configuration, without the style that all pictures have.
pub fn draw(alloc: Global, text: &[u8]) -> Result<Vec<u8>, Stop> {
    let drawing = drawing_of(alloc, text)?;
    Ok(without_style(alloc, &svg(alloc, &drawing)?)?)
}

/// Returns a picture with `..` instead of its style and its marker, except the end of the marker.
fn without_style(alloc: Global, picture: &[u8]) -> Result<Vec<u8>, AllocError> {
    let style = memmem::find(picture, b"<style>").unwrap_or(0);
    let marker = memmem::find(picture, b"</marker>").unwrap_or(0);
    let mut shown = Vec::new(alloc);
    shown.extend_from_slice(picture.get(..style).unwrap_or(&[]))?;
    shown.extend_from_slice(b"..")?;
    shown.extend_from_slice(picture.get(marker..).unwrap_or(&[]))?;
    Ok(shown)
}

/// Returns the picture of one frame.
///
/// The words are the picture's width and height, the frame's left, top, width and height, and its
/// name.
pub fn draw_frame(alloc: Global, words: &[u8]) -> Result<Vec<u8>, Stop> {
    let (width, rest) = read_number(words)?;
    let (height, rest) = read_number(rest)?;
    let mut frames = Sequence::new(alloc);
    frames.push(frame_of(alloc, rest)?)?;
    let drawing = Drawing {
        width: width as u64,
        height: height as u64,
        figures: Sequence::new(alloc),
        lines: Sequence::new(alloc),
        frames,
    };
    Ok(without_style(alloc, &svg(alloc, &drawing)?)?)
}

fn frame_of(alloc: Global, words: &[u8]) -> Result<Frame, Stop> {
    let (left, rest) = read_number(words)?;
    let (top, rest) = read_number(rest)?;
    let (width, rest) = read_number(rest)?;
    let (height, name) = read_number(rest)?;
    Ok(Frame {
        name: Sequence::copy_of(alloc, name)?,
        around: Rectangle {
            left: left as u64,
            top: top as u64,
            width: width as u64,
            height: height as u64,
        },
    })
}

/// Returns each frame's name with the elements whose boxes lie in the frame, as `t: t/a t/b|`.
pub fn list_frames(alloc: Global, text: &[u8]) -> Result<Vec<u8>, Stop> {
    let drawing = drawing_of(alloc, text)?;
    let mut shown = Vec::new(alloc);
    for frame in drawing.frames.as_slice() {
        shown.extend_from_slice(frame.name.as_slice())?;
        shown.push(b':')?;
        push_inner(&mut shown, drawing.figures.as_slice(), &frame.around)?;
        shown.push(b'|')?;
    }
    Ok(shown)
}

/// Appends the names of the elements whose boxes lie in a rectangle, with a blank before each.
fn push_inner(
    shown: &mut Vec<u8>,
    figures: &[Figure],
    around: &Rectangle,
) -> Result<(), AllocError> {
    for figure in figures {
        if is_within(&figure.frame, around) {
            shown.push(b' ')?;
            shown.extend_from_slice(figure.look.name.as_slice())?;
        }
    }
    Ok(())
}

/// Returns whether a rectangle lies in another.
fn is_within(inner: &Rectangle, outer: &Rectangle) -> bool {
    outer.left <= inner.left
        && outer.top <= inner.top
        && inner.left.saturating_add(inner.width) <= outer.left.saturating_add(outer.width)
        && inner.top.saturating_add(inner.height) <= outer.top.saturating_add(outer.height)
}
