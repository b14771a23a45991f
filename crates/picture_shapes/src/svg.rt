//! Shapes as SVG.
ghost use Rattle.std.specs.Prelude.{◌≡◌, ◌++◌, ◌*◌, ◌-◌, ◌^◌, OnOk, min};
ghost use Rattle.picture_shapes.specs.Shapes.{all_shapes, area, hint, hint_start, hint_start_end, label, label_start, line, line_ends, line_width, part_start, part_text, shape_text, stroked, title_text};
ghost use Rattle.picture_shapes.specs.Svg.{ground, paper, pattern, pattern_end, pattern_start, pixels, stripe, svg_open, svg_start, svg_text, tile, view_box, view_start};

use crate::attributes::{
    write_decimal, write_escaped, write_font, write_framed, write_number, write_paint, write_sized,
    write_standing, write_value,
};
use crate::colour::Colour;
use crate::shape::{Font, Frame, Point, Shape, Stroke};
use io_text::Text;
use std::alloc::AllocError;

/// How large a picture is.
#[derive(Clone, Copy)]
pub struct Size {
    /// Its sizes in the units of its shapes,
    pub width: u64,
    pub height: u64,
    /// of which 50 are this many pixels: 100 percent are two pixels a unit.
    pub percent: u32,
}

impl Size {
    /// A number of units in whole pixels.
    fn pixels(self, units: u64) -> u64
        ensures { result ≡ pixels self units }
    {
        units.saturating_mul(u64::from(self.percent)) / 50
    }
}

/// Writes a whole SVG file: its title, and the parts that [`write_part`] wrote. It has no script, style sheet, font or link.
///
/// # Errors
///
/// If an allocation fails.
#[tactic(auto, unfolding(crate::specs::Svg::svg_text))]
pub fn write_svg(
    output: &mut Text,
    size: Size,
    title: &[u8],
    parts: &[u8],
) -> Result<(), AllocError>
    ensures { OnOk result (output.new ≡ output.old ++ svg_text size title.now parts.now) }
{
    start_svg(output, size)?;
    write_title(output, title)?;
    write_ground(output)?;
    output.put(parts)?;
    output.put(b"</svg>\n")
}

/// Writes shapes as a part of a picture, which begins this far from its upper end.
///
/// # Errors
///
/// If an allocation fails.
#[tactic(auto, unfolding(crate::specs::Shapes::part_text))]
pub fn write_part(output: &mut Text, top: u64, shapes: &[Shape]) -> Result<(), AllocError>
    ensures { OnOk result (output.new ≡ output.old ++ part_text top shapes.now) }
{
    start_part(output, top)?;
    write_shapes(output, shapes)?;
    output.put(b"</g>\n")
}

#[tactic(auto, unfolding(crate::specs::Shapes::part_start))]
fn start_part(output: &mut Text, top: u64) -> Result<(), AllocError>
    ensures { OnOk result (output.new ≡ output.old ++ part_start top) }
{
    output.put(b"<g transform=\"translate(0 ")?;
    write_decimal(output, top)?;
    output.put(b")\">\n")
}

#[tactic(auto, unfolding(crate::specs::Shapes::all_shapes))]
fn write_shapes(output: &mut Text, shapes: &[Shape]) -> Result<(), AllocError>
    ensures { OnOk result (output.new ≡ output.old ++ all_shapes shapes.now) }
{
    for shape in shapes {
        write_shape(output, shape)?;
    }
    Ok(())
}

fn write_shape(output: &mut Text, shape: &Shape) -> Result<(), AllocError>
    ensures { OnOk result (output.new ≡ output.old ++ shape_text shape.now) }
{
    match shape {
        Shape::Area {
            frame,
            corner,
            fill,
            outline,
            dashes,
        } => {
            let outline = Stroke {
                colour: *outline,
                dashes: *dashes,
            };
            write_area(output, *frame, *corner, *fill, outline)
        }
        Shape::Line {
            from,
            to,
            width,
            colour,
            dashes,
        } => {
            let stroke = Stroke {
                colour: *colour,
                dashes: *dashes,
            };
            write_line(output, *from, *to, *width, stroke)
        }
        Shape::Label {
            at,
            font,
            colour,
            words,
        } => write_label(output, *at, *font, *colour, words.as_bytes()),
        Shape::Hint { frame, words } => write_hint(output, *frame, words.as_bytes()),
    }
}

#[tactic(auto, unfolding(crate::specs::Shapes::area))]
fn write_area(
    output: &mut Text,
    frame: Frame,
    corner: u8,
    fill: Colour,
    outline: Stroke,
) -> Result<(), AllocError>
    ensures { OnOk result (output.new ≡ output.old ++ area frame corner fill outline.colour outline.dashes) }
{
    output.put(b"<rect")?;
    write_framed(output, frame)?;
    write_number(output, b" rx", u64::from(corner))?;
    write_paint(output, b" fill", fill)?;
    end_stroked(output, outline)
}

#[tactic(auto, unfolding(crate::specs::Shapes::stroked))]
fn end_stroked(output: &mut Text, stroke: Stroke) -> Result<(), AllocError>
    ensures { OnOk result (output.new ≡ output.old ++ stroked stroke.colour stroke.dashes) }
{
    write_paint(output, b" stroke", stroke.colour)?;
    output.put_two(stroke.dashes.text(), b"/>\n")
}

#[tactic(auto, unfolding(crate::specs::Shapes::line))]
fn write_line(
    output: &mut Text,
    from: Point,
    to: Point,
    width: u8,
    stroke: Stroke,
) -> Result<(), AllocError>
    ensures { OnOk result (output.new ≡ output.old ++ line from to width stroke.colour stroke.dashes) }
{
    output.put(b"<line")?;
    write_ends(output, from, to)?;
    write_line_width(output, width)?;
    end_stroked(output, stroke)
}

#[tactic(auto, unfolding(crate::specs::Shapes::line_width))]
fn write_line_width(output: &mut Text, width: u8) -> Result<(), AllocError>
    ensures { OnOk result (output.new ≡ output.old ++ line_width width) }
{
    write_number(output, b" stroke-width", u64::from(width))
}

#[tactic(auto, unfolding(crate::specs::Shapes::line_ends))]
fn write_ends(output: &mut Text, from: Point, to: Point) -> Result<(), AllocError>
    ensures { OnOk result (output.new ≡ output.old ++ line_ends from to) }
{
    write_number(output, b" x1", from.x)?;
    write_number(output, b" y1", from.y)?;
    write_number(output, b" x2", to.x)?;
    write_number(output, b" y2", to.y)
}

#[tactic(auto, unfolding(crate::specs::Shapes::label))]
fn write_label(
    output: &mut Text,
    at: Point,
    font: Font,
    colour: Colour,
    words: &[u8],
) -> Result<(), AllocError>
    ensures { OnOk result (output.new ≡ output.old ++ label at font colour words.now) }
{
    start_label(output, at, font, colour)?;
    write_escaped(output, words)?;
    output.put(b"</text>\n")
}

#[tactic(auto, unfolding(crate::specs::Shapes::label_start))]
fn start_label(output: &mut Text, at: Point, font: Font, colour: Colour) -> Result<(), AllocError>
    ensures { OnOk result (output.new ≡ output.old ++ label_start at font colour) }
{
    output.put(b"<text")?;
    write_standing(output, at)?;
    write_font(output, font)?;
    write_paint(output, b" fill", colour)?;
    output.put(b">")
}

#[tactic(auto, unfolding(crate::specs::Shapes::hint))]
fn write_hint(output: &mut Text, frame: Frame, words: &[u8]) -> Result<(), AllocError>
    ensures { OnOk result (output.new ≡ output.old ++ hint frame words.now) }
{
    start_hint(output, frame)?;
    write_title(output, words)?;
    output.put(b"</rect>\n")
}

#[tactic(auto, unfolding(crate::specs::Shapes::hint_start))]
fn start_hint(output: &mut Text, frame: Frame) -> Result<(), AllocError>
    ensures { OnOk result (output.new ≡ output.old ++ hint_start frame) }
{
    output.put(b"<rect")?;
    write_framed(output, frame)?;
    end_hint_start(output)
}

#[tactic(auto, unfolding(crate::specs::Shapes::hint_start_end))]
fn end_hint_start(output: &mut Text) -> Result<(), AllocError>
    ensures { OnOk result (output.new ≡ output.old ++ hint_start_end) }
{
    output.put(b" fill=\"none\" pointer-events=\"all\">")
}

/// Writes the title of the element that it is in: a browser shows it while one points at that.
#[tactic(auto, unfolding(crate::specs::Shapes::title_text))]
fn write_title(output: &mut Text, words: &[u8]) -> Result<(), AllocError>
    ensures { OnOk result (output.new ≡ output.old ++ title_text words.now) }
{
    output.put(b"<title>")?;
    write_escaped(output, words)?;
    output.put(b"</title>\n")
}

#[tactic(auto, unfolding(crate::specs::Svg::svg_start))]
fn start_svg(output: &mut Text, size: Size) -> Result<(), AllocError>
    ensures { OnOk result (output.new ≡ output.old ++ svg_start size) }
{
    open_svg(output)?;
    write_view_box(output, size)?;
    let (width, height) = (size.pixels(size.width), size.pixels(size.height));
    write_sized(output, width, height)?;
    output.put(b">\n")
}

/// Says that it is one picture, in which only hints notice a mouse.
#[tactic(auto, unfolding(crate::specs::Svg::svg_open))]
fn open_svg(output: &mut Text) -> Result<(), AllocError>
    ensures { OnOk result (output.new ≡ output.old ++ svg_open) }
{
    output.put(
        b"<svg xmlns=\"http://www.w3.org/2000/svg\" role=\"img\" pointer-events=\"none\" font-family=\"Helvetica, Arial, sans-serif\"",
    )
}

#[tactic(auto, unfolding(crate::specs::Svg::view_box))]
fn write_view_box(output: &mut Text, size: Size) -> Result<(), AllocError>
    ensures { OnOk result (output.new ≡ output.old ++ view_box size) }
{
    start_view_box(output)?;
    output.put_spaced_number(size.width)?;
    output.put_spaced_number(size.height)?;
    output.put(b"\"")
}

#[tactic(auto, unfolding(crate::specs::Svg::view_start))]
fn start_view_box(output: &mut Text) -> Result<(), AllocError>
    ensures { OnOk result (output.new ≡ output.old ++ view_start) }
{
    output.put_two(b" viewBox", b"=\"0 0")
}

/// Writes how hatched areas look, and the white paper under all shapes.
#[tactic(auto, unfolding(crate::specs::Svg::ground))]
fn write_ground(output: &mut Text) -> Result<(), AllocError>
    ensures { OnOk result (output.new ≡ output.old ++ ground) }
{
    output.put(b"<defs>\n")?;
    write_pattern(output, b"hatched", b"#f6e3c5", b"#a86f1d")?;
    write_pattern(output, b"pale", b"#fbf1e2", b"#d3b78e")?;
    output.put(b"</defs>\n")?;
    write_paper(output)
}

#[tactic(auto, unfolding(crate::specs::Svg::paper))]
fn write_paper(output: &mut Text) -> Result<(), AllocError>
    ensures { OnOk result (output.new ≡ output.old ++ paper) }
{
    output.put(b"<rect")?;
    write_value(output, b" width", b"100%")?;
    write_value(output, b" height", b"100%")?;
    write_value(output, b" fill", b"white")?;
    output.put(b"/>\n")
}

/// Writes a pattern of slanted lines.
#[tactic(auto, unfolding(crate::specs::Svg::pattern))]
fn write_pattern(output: &mut Text, id: &[u8], fill: &[u8], stroke: &[u8]) -> Result<(), AllocError>
    ensures { OnOk result (output.new ≡ output.old ++ pattern id.now fill.now stroke.now) }
{
    start_pattern(output, id)?;
    write_tile(output, fill)?;
    write_stripe(output, stroke)?;
    end_pattern(output)
}

#[tactic(auto, unfolding(crate::specs::Svg::pattern_start))]
fn start_pattern(output: &mut Text, id: &[u8]) -> Result<(), AllocError>
    ensures { OnOk result (output.new ≡ output.old ++ pattern_start id.now) }
{
    output.put(b"<pattern")?;
    write_value(output, b" id", id)?;
    write_sized(output, 6, 6)?;
    write_value(output, b" patternUnits", b"userSpaceOnUse")?;
    write_value(output, b" patternTransform", b"rotate(45)")?;
    output.put(b">")
}

#[tactic(auto, unfolding(crate::specs::Svg::pattern_end))]
fn end_pattern(output: &mut Text) -> Result<(), AllocError>
    ensures { OnOk result (output.new ≡ output.old ++ pattern_end) }
{
    output.put(b"</pattern>\n")
}

#[tactic(auto, unfolding(crate::specs::Svg::tile))]
fn write_tile(output: &mut Text, fill: &[u8]) -> Result<(), AllocError>
    ensures { OnOk result (output.new ≡ output.old ++ tile fill.now) }
{
    output.put(b"<rect")?;
    write_sized(output, 6, 6)?;
    write_value(output, b" fill", fill)?;
    output.put(b"/>")
}

#[tactic(auto, unfolding(crate::specs::Svg::stripe))]
fn write_stripe(output: &mut Text, stroke: &[u8]) -> Result<(), AllocError>
    ensures { OnOk result (output.new ≡ output.old ++ stripe stroke.now) }
{
    output.put(b"<path")?;
    write_value(output, b" d", b"M 0 0 V 6")?;
    write_value(output, b" stroke-width", b"2")?;
    write_value(output, b" stroke", stroke)?;
    output.put(b"/>")
}
