//! Pictures as data: the shapes of a picture, and the one way in which they are written as SVG.
#![tactic(auto)]

mod attributes;
mod colour;
pub mod laws;
mod shape;
mod sheet;
mod svg;

pub use attributes::write_decimal;
pub use colour::Colour;
pub use shape::{Anchor, Dashes, Face, Font, Frame, Point, Shape, Stroke};
pub use sheet::Sheet;
pub use svg::{Size, write_part, write_svg};
