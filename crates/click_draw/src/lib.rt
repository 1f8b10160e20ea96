//! Draws a configuration: boxes with ports, lines between them, and frames around compounds.
#![tactic(auto)]

mod blocks;
mod compound_paths;
mod compounds;
mod drawing;
mod frames;
mod laying_out;
mod lines;
mod looks;
mod loose;
mod measures;
mod order;
mod picture;
mod placing;
mod preferred_places;
mod routes;
mod rows;
mod svg_writing;

pub use compounds::Compounds;
pub use drawing::{Drawing, Figure, Frame, Line, Look, Mark, Point, Rectangle};
pub use laying_out::layout;
pub use picture::{picture_of, resolved};
pub use svg_writing::svg;
