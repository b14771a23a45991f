//! Laws of pictures.
ghost use Rattle.picture_shapes.specs.Svg.{Picture, svg_of};
ghost use Rattle.picture_shapes.specs.Xml.{IsDocument};

/// What is written of a picture is one element by the grammar of XML in `specs/Xml.antt`, whatever its shapes and words are: each tag is closed in its
/// order, and no mark of a word is left bare.
pub fn pictures_are_well_formed()
    ensures { (picture : Picture) → IsDocument (svg_of picture) }
{}
