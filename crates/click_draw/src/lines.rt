//! The lines of connections.

ghost use Rattle.std.specs.Prelude.{◌≡◌, ◌≤◌, ◌+◌, length, All, IfOk};
ghost use Rattle.click_draw.specs.Picture.{EachAt, IsInside, IsLine, IsLineInside, IsPointInside, Joins, input_place, output_place};
ghost use Rattle.click_draw.specs.kept.Joined.{AreJoined, IsFigureInside};

use crate::drawing::{Figure, Line, Mark, Point, Rectangle};
use crate::routes::Route;
use click_base::sequence::Sequence;
use click_expand::Connection;
use std::alloc::{AllocError, Global};

/// The distance by which a line that goes up extends beyond its row, in pixels.
const LINE_MARGIN_PX: u64 = 16;

/// Returns the place of the input with that mark.
fn input_place(figure: &Figure, mark: &Mark) -> Point
    requires { figure.now.frame.left + mark.now.at ≤ 68719476736 }
    ensures { result ≡ input_place figure.now mark.now }
{
    Point {
        x: figure.frame.left + mark.at,
        y: figure.frame.top,
    }
}

/// Returns the place of the output with that mark.
fn output_place(figure: &Figure, mark: &Mark) -> Point
    requires left { figure.now.frame.left + mark.now.at ≤ 68719476736 }
    requires top { figure.now.frame.top + figure.now.frame.height ≤ 68719476736 }
    ensures { result ≡ output_place figure.now mark.now }
{
    Point {
        x: figure.frame.left + mark.at,
        y: figure.frame.top + figure.frame.height,
    }
}

/// The size of the picture, in pixels.
#[derive(Clone, Copy, Debug, PartialEq, Eq)]
pub struct Size {
    pub width: u64,
    pub height: u64,
}

/// Returns the points where a line enters the row of a bend, and where it leaves it.
fn passage(bend: &Rectangle, rises: bool, size: Size) -> (Point, Point)
    requires small { size.height ≤ 68719476736 }
    requires inside { IsInside size.width size.height bend.now }
    ensures enters { IsPointInside size.width size.height result.0 }
    ensures leaves { IsPointInside size.width size.height result.1 }
{
    let x = bend.left + bend.width / 2;
    let around = if rises { LINE_MARGIN_PX } else { 0 };
    let upper = Point {
        x,
        y: bend.top.saturating_sub(around),
    };
    let lower = Point {
        x,
        y: (bend.top + bend.height + around).min(size.height),
    };
    if rises {
        (lower, upper)
    } else {
        (upper, lower)
    }
}

/// Returns the points of the bends, in the direction of the line.
fn points_of(
    alloc: Global,
    bends: &[Rectangle],
    rises: bool,
    size: Size,
) -> Result<Sequence<Point>, AllocError>
    requires small { size.height ≤ 68719476736 }
    requires inside { All (IsInside size.width size.height) bends.now }
    ensures { IfOk result (All (IsPointInside size.width size.height)) }
{
    let mut points = Sequence::new(alloc);
    for bend in bends {
        let (enters, leaves) = passage(bend, rises, size);
        points.push(enters)?;
        points.push(leaves)?;
    }
    Ok(points)
}

/// Returns the boxes of a route's bends.
fn bends_of<'a>(route: &Route, boxes: &'a [Rectangle], size: Size) -> &'a [Rectangle]
    requires { All (IsInside size.width size.height) boxes.now }
    ensures { All (IsInside size.width size.height) result.now }
{
    let rest = boxes.get(route.first..).unwrap_or(&[]);
    rest.get(..route.bends).unwrap_or(&[])
}

/// Returns the line of a connection between two of the figures.
fn line_of(
    number: usize,
    connection: &Connection,
    figures: &[Figure],
    bends: Sequence<Point>,
    size: Size,
) -> Line
    requires small { (size.width ≤ 68719476736) × (size.height ≤ 68719476736) }
    requires joined { AreJoined figures.now connection.now }
    requires bends { All (IsPointInside size.width size.height) bends }
    requires inside { All (λ f. IsFigureInside size.width size.height f) figures.now }
    ensures number { result.number ≡ number }
    ensures joins { Joins figures.now connection.now result }
    ensures inside { IsLineInside size.width size.height result }
{
    let from = &figures[connection.from];
    let output = &from.look.outputs.as_slice()[usize::from(connection.out_port)];
    let to = &figures[connection.to];
    let input = &to.look.inputs.as_slice()[usize::from(connection.in_port)];
    Line {
        number,
        from: output_place(from, output),
        bends,
        to: input_place(to, input),
    }
}

/// Returns the lines of the connections.
pub fn lines_of(
    alloc: Global,
    connections: &[Connection],
    routes: &[Route],
    figures: &[Figure],
    boxes: &[Rectangle],
    size: Size,
) -> Result<Sequence<Line>, AllocError>
    requires small { (size.width ≤ 68719476736) × (size.height ≤ 68719476736) }
    requires joined { All (AreJoined figures.now) connections.now }
    requires inside { All (λ f. IsFigureInside size.width size.height f) figures.now }
    requires boxes { All (IsInside size.width size.height) boxes.now }
    ensures all { IfOk result (λ lines. length lines ≡ length connections.now) }
    ensures each { IfOk result (EachAt (IsLine figures.now connections.now)) }
    ensures inside { IfOk result (All (IsLineInside size.width size.height)) }
{
    let mut lines = Sequence::new(alloc);
    let none = Route {
        first: 0,
        bends: 0,
        rises: false,
    };
    for (number, connection) in connections.iter().enumerate() {
        let route = routes.get(number).copied().unwrap_or(none);
        let bends = points_of(alloc, bends_of(&route, boxes, size), route.rises, size)?;
        lines.push(line_of(number, connection, figures, bends, size))?;
    }
    Ok(lines)
}
