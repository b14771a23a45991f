//! The colours of a picture.
ghost use Rattle.std.specs.Prelude.{◌≡◌};
ghost use Rattle.picture_shapes.specs.Attributes.{colour_of, hue_of};

/// A colour of areas, lines and words.
#[derive(Clone, Copy)]
pub enum Colour {
    /// Nothing is drawn.
    Clear,
    White,
    /// The colour of most words.
    Ink,
    /// The colour of words that explain others.
    Faint,
    /// The colour of lines under other shapes.
    Rule,
    /// The colour of what went wrong.
    Alarm,
    /// Slanted lines on an area.
    Hatched,
    /// The same, paler.
    Pale,
    /// One of eight hues, by the rest of a number divided by 8. They differ in darkness, and white letters on them can be read.
    Hue(u8),
}

impl Colour {
    /// What an attribute says for it.
    #[tactic(auto, unfolding(crate::specs::Attributes::colour_of))]
    pub(crate) fn text(self) -> &'static [u8]
        ensures { result.now ≡ colour_of self }
    {
        match self {
            Colour::Clear => b"none",
            Colour::White => b"white",
            Colour::Ink => b"#1f2933",
            Colour::Faint => b"#5b6770",
            Colour::Rule => b"#d0d7de",
            Colour::Alarm => b"#b00020",
            Colour::Hatched => b"url(#hatched)",
            Colour::Pale => b"url(#pale)",
            Colour::Hue(number) => hue(number),
        }
    }
}

#[tactic(auto, unfolding(crate::specs::Attributes::hue_of))]
fn hue(number: u8) -> &'static [u8]
    ensures { result.now ≡ hue_of number }
{
    match number % 8 {
        0 => b"#2f5f9e",
        1 => b"#b85c1a",
        2 => b"#14532d",
        3 => b"#b8407f",
        4 => b"#5c3310",
        5 => b"#1b7f86",
        6 => b"#4a1f7a",
        _ => b"#6b6b14",
    }
}
