//! Shapes that are drawn one over the other.
ghost use Rattle.std.specs.Prelude.{◌≡◌, ◌++◌, ◌∷◌, [], IfOk, OnOk};
ghost use Rattle.picture_shapes.specs.declared.shape.Shape.TheVariants.{Area as AreaOf, Hint as HintOf, Label as LabelOf, Line as LineOf};

use crate::colour::Colour;
use crate::shape::{Font, Frame, Point, Shape, Stroke};
use io_text::Text;
use std::alloc::{AllocError, Global};
use std::marker::Model;

/// The shapes of a part of a picture, in the order in which they are drawn.
#[derive(Drop)]
pub struct Sheet {
    alloc: Global,
    shapes: Vec<Shape>,
}

impl Model for Sheet {
    ghost use Rattle.std.specs.Prelude.{List};
    ghost use Rattle.picture_shapes.specs.declared.shape.Shape.{Shape as ShapeData};

    ghost Value = { List ShapeData };

    ghost view = { λ sheet. sheet.shapes.items };
}

impl Sheet {
    /// No shapes.
    pub fn new(alloc: Global) -> Sheet
        ensures { result ≡ [] }
    {
        Sheet {
            alloc,
            shapes: Vec::new(alloc),
        }
    }

    /// Where its memory comes from.
    pub fn alloc(&self) -> Global {
        self.alloc
    }

    /// All shapes.
    pub fn shapes(&self) -> &[Shape]
        ensures { result.now ≡ self.now }
    {
        &self.shapes
    }

    /// Draws all of another sheet over this one.
    ///
    /// # Errors
    ///
    /// If an allocation fails.
    pub fn append(&mut self, other: Sheet) -> Result<(), AllocError>
        ensures { OnOk result (self.new ≡ self.old ++ other) }
    {
        let mut shapes = other.shapes;
        self.shapes.append(&mut shapes)
    }

    fn add(&mut self, shape: Shape) -> Result<(), AllocError>
        ensures { OnOk result (self.new ≡ self.old ++ shape ∷ []) }
    {
        self.shapes.push(shape)?;
        Ok(())
    }

    /// Draws a rectangle with a thin outline.
    ///
    /// # Errors
    ///
    /// If an allocation fails, as each of these calls.
    pub fn area(
        &mut self,
        frame: Frame,
        corner: u8,
        fill: Colour,
        outline: Stroke,
    ) -> Result<(), AllocError>
        ensures { OnOk result (self.new ≡ self.old ++ AreaOf frame corner fill outline.colour outline.dashes ∷ []) }
    {
        self.add(Shape::Area {
            frame,
            corner,
            fill,
            outline: outline.colour,
            dashes: outline.dashes,
        })
    }

    /// Draws a line.
    pub fn line(
        &mut self,
        from: Point,
        to: Point,
        width: u8,
        stroke: Stroke,
    ) -> Result<(), AllocError>
        ensures { OnOk result (self.new ≡ self.old ++ LineOf from to width stroke.colour stroke.dashes ∷ []) }
    {
        self.add(Shape::Line {
            from,
            to,
            width,
            colour: stroke.colour,
            dashes: stroke.dashes,
        })
    }

    /// Writes words at a place.
    pub fn label(
        &mut self,
        at: Point,
        font: Font,
        colour: Colour,
        words: &[u8],
    ) -> Result<(), AllocError>
        ensures { OnOk result (self.new ≡ self.old ++ LabelOf at font colour words.now ∷ []) }
    {
        let words = text_of(self.alloc, words)?;
        self.add(Shape::Label {
            at,
            font,
            colour,
            words,
        })
    }

    /// Lets an area show words while one points at it.
    pub fn hint(&mut self, frame: Frame, words: &[u8]) -> Result<(), AllocError>
        ensures { OnOk result (self.new ≡ self.old ++ HintOf frame words.now ∷ []) }
    {
        let words = text_of(self.alloc, words)?;
        self.add(Shape::Hint { frame, words })
    }
}

fn text_of(alloc: Global, words: &[u8]) -> Result<Text, AllocError>
    ensures { IfOk result (λ text. text ≡ words.now) }
{
    let mut text = Text::new(alloc);
    text.put(words)?;
    Ok(text)
}
