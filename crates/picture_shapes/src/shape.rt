//! The shapes of a picture.
ghost use Rattle.std.specs.Prelude.{◌≡◌};
ghost use Rattle.picture_shapes.specs.Places.{frame_at, moved};

use crate::colour::Colour;
use io_text::Text;

/// A place in a part of a picture, in units from its left and upper ends.
#[derive(Clone, Copy)]
pub struct Point {
    pub x: u64,
    pub y: u64,
}

/// The left and upper end of an area, and its sizes.
#[derive(Clone, Copy)]
pub struct Frame {
    pub x: u64,
    pub y: u64,
    pub width: u64,
    pub height: u64,
}

impl Point {
    /// The point this far to the right and down. Coordinates stop at the greatest number.
    pub fn moved(self, right: u64, down: u64) -> Point
        ensures { result ≡ moved self right down }
    {
        Point {
            x: self.x.saturating_add(right),
            y: self.y.saturating_add(down),
        }
    }
}

impl Frame {
    /// The area of these sizes that begins at a point.
    pub fn at(start: Point, width: u64, height: u64) -> Frame
        ensures { result ≡ frame_at start width height }
    {
        Frame {
            x: start.x,
            y: start.y,
            width,
            height,
        }
    }
}

/// Whether a line has gaps.
#[derive(Clone, Copy)]
pub enum Dashes {
    Solid,
    Short,
    Long,
}

/// How a line or an outline is drawn.
#[derive(Clone, Copy)]
pub struct Stroke {
    pub colour: Colour,
    pub dashes: Dashes,
}

impl Stroke {
    ghost use Rattle.picture_shapes.specs.declared.shape.Dashes.TheVariants.{Solid};

    /// Without gaps.
    pub fn solid(colour: Colour) -> Stroke
        ensures colour { result.colour ≡ colour }
        ensures dashes { result.dashes ≡ Solid }
    {
        Stroke {
            colour,
            dashes: Dashes::Solid,
        }
    }
}

/// How letters look.
#[derive(Clone, Copy)]
pub enum Face {
    Plain,
    Bold,
    /// All letters are equally wide, and each space is shown.
    Code,
    /// Letters that are equally wide, struck through.
    Struck,
}

/// Which end of its words a label's place is.
#[derive(Clone, Copy)]
pub enum Anchor {
    Start,
    Middle,
}

/// How a label looks.
#[derive(Clone, Copy)]
pub struct Font {
    /// How high its letters are.
    pub size: u8,
    pub face: Face,
    pub anchor: Anchor,
}

/// A shape of a picture. Later shapes are drawn over earlier ones.
#[derive(Drop)]
pub enum Shape {
    /// A rectangle, with round corners unless `corner` is 0.
    Area {
        frame: Frame,
        corner: u8,
        fill: Colour,
        outline: Colour,
        dashes: Dashes,
    },
    Line {
        from: Point,
        to: Point,
        width: u8,
        colour: Colour,
        dashes: Dashes,
    },
    /// Words; of their bytes those that aren't printable ASCII are shown as spaces.
    Label {
        at: Point,
        font: Font,
        colour: Colour,
        words: Text,
    },
    /// Words that a browser shows while one points at this area.
    Hint {
        frame: Frame,
        words: Text,
    },
}
