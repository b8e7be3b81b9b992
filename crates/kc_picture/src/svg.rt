//! A picture as a text of SVG 1.1. Lengths are in hundredths of a point, coordinates from the left and from above.
ghost use Rattle.std.specs.Prelude.{IfOk};
ghost use Rattle.kc_picture.specs.Foot.{HasFoot};

use crate::colour::{Colour, FAINT, FREE, INK};
use crate::coordinate::{Coordinate, Points};
use crate::foot::put_foot;
use crate::put;
use crate::words::Text;
use kc_trace::Heading;
use kc_types::Memory;
use std::alloc::Global;
use std::fmt;

/// The width of a picture.
pub(crate) const WIDTH: u64 = 120_000;
/// Where titles, headings and the foot begin.
pub const MARGIN: Coordinate = Coordinate(800);

/// Stripes are seen in what is at least as wide.
const HATCHED: u64 = 300;

/// Slanted stripes, on what lies below them and on white.
const STRIPES: &str =
    "<defs>\n<pattern id=\"shared\" width=\"5\" height=\"5\" patternUnits=\"userSpaceOnUse\" patternTransform=\"rotate(45)\"><rect width=\"5\" height=\"5\" fill=\"none\"/><rect width=\"2\" height=\"5\" fill=\"#111111\"/></pattern>\n<pattern id=\"white\" width=\"5\" height=\"5\" patternUnits=\"userSpaceOnUse\" patternTransform=\"rotate(45)\"><rect width=\"5\" height=\"5\" fill=\"#ffffff\"/><rect width=\"2\" height=\"5\" fill=\"#111111\"/></pattern>\n</defs>\n";

/// A rectangle: its upper left corner, its width and its height.
#[derive(Clone, Copy)]
pub struct Area {
    pub x: Coordinate,
    pub y: Coordinate,
    pub width: u64,
    pub height: u64,
}

impl Area {
    /// The rectangle that begins at this corner.
    pub fn new(x: Coordinate, y: Coordinate, width: u64, height: u64) -> Area {
        Area {
            x,
            y,
            width,
            height,
        }
    }

    /// Where it ends below.
    pub fn bottom(&self) -> Coordinate {
        self.y + self.height
    }
}

impl fmt::Display for Area {
    fn fmt<W: fmt::Write>(&self, f: &mut fmt::Formatter<W>) -> fmt::Result {
        let (x, y) = (Points(self.x.0), Points(self.y.0));
        let (width, height) = (Points(self.width), Points(self.height));
        write!(
            f,
            "x=\"{x}\" y=\"{y}\" width=\"{width}\" height=\"{height}\""
        )
    }
}

/// Which part of some words is at their place.
#[derive(Clone, Copy)]
pub enum Anchor {
    Start,
    Middle,
    End,
}

/// How words look: the size of their letters is in hundredths of a point too.
#[derive(Clone, Copy)]
pub struct Style {
    size: u64,
    anchor: Anchor,
    colour: Colour,
    bold: bool,
}

/// What most words are like.
pub const PLAIN: Style = Style {
    size: 1_000,
    anchor: Anchor::Start,
    colour: INK,
    bold: false,
};
/// A heading of a part.
pub const HEADING: Style = Style {
    size: 1_200,
    anchor: Anchor::Start,
    colour: INK,
    bold: true,
};
/// A remark at the right end, or a number at the left of what it numbers.
pub const REMARK: Style = Style {
    size: 1_000,
    anchor: Anchor::End,
    colour: FAINT,
    bold: false,
};

impl Style {
    /// The same, in letters of this size.
    pub fn sized(self, size: u64) -> Style {
        Style { size, ..self }
    }

    /// The same, with this part of the words at their place.
    pub fn anchored(self, anchor: Anchor) -> Style {
        Style { anchor, ..self }
    }

    /// The same, in this colour.
    pub fn coloured(self, colour: Colour) -> Style {
        Style { colour, ..self }
    }

    /// The same, in bold letters.
    pub fn bold(self) -> Style {
        Style { bold: true, ..self }
    }
}

/// How a shape is painted.
#[derive(Clone, Copy)]
pub enum Paint {
    Plain(Colour),
    /// With an edge of the second colour.
    Edged(Colour, Colour),
    /// An edge alone.
    Edge(Colour),
    /// With a thin edge.
    Thin(Colour),
    /// Hatched, over white.
    Hatched,
    /// Lines of this width along a path.
    Lines(Points),
    /// Such lines, each longer by half their width at both ends, so that the shortest is seen.
    LongLines(Points),
}

impl fmt::Display for Paint {
    fn fmt<W: fmt::Write>(&self, f: &mut fmt::Formatter<W>) -> fmt::Result {
        match self {
            Paint::Plain(fill) => write!(f, "fill=\"{fill}\""),
            Paint::Edged(fill, edge) => write!(
                f,
                "fill=\"{fill}\" stroke=\"{edge}\" stroke-width=\"0.6\""
            ),
            Paint::Edge(edge) => write!(f, "fill=\"none\" stroke=\"{edge}\" stroke-width=\"0.6\""),
            Paint::Thin(fill) => write!(f, "fill=\"{fill}\" stroke=\"{INK}\" stroke-width=\"0.4\""),
            Paint::Hatched => write!(
                f,
                "fill=\"url(#white)\" stroke=\"{INK}\" stroke-width=\"0.6\""
            ),
            Paint::Lines(width) => write!(f, "stroke=\"{INK}\" stroke-width=\"{width}\""),
            Paint::LongLines(width) => write!(
                f,
                "fill=\"none\" stroke=\"{INK}\" stroke-width=\"{width}\" stroke-linecap=\"square\""
            ),
        }
    }
}

/// A picture so far.
#[derive(Drop)]
pub struct Svg {
    alloc: Global,
    pub text: Text,
}

impl Svg {
    /// Begins a white picture of this height with a title. It becomes smaller if a window or a sheet is narrower than it.
    pub fn open(alloc: Global, height: Coordinate, title: &Text) -> Svg {
        let mut text = Text::new(alloc);
        let width = Points(WIDTH);
        put!(
            text,
            "<svg xmlns=\"http://www.w3.org/2000/svg\" version=\"1.1\" width=\"{width}\" height=\"{height}\" viewBox=\"0 0 {width} {height}\" style=\"max-width:100%;height:auto\" font-family=\"DejaVu Sans, Verdana, Arial, sans-serif\">\n<title>"
        );
        text.put_text(title);
        text.put("</title>\n");
        text.put(STRIPES);
        put!(
            text,
            "<rect width=\"{width}\" height=\"{height}\" fill=\"{FREE}\"/>\n"
        );
        let mut svg = Svg { alloc, text };
        let base = Coordinate(2_200);
        svg.begin_words(MARGIN, base, HEADING.sized(1_500));
        svg.text.put_text(title);
        svg.end_words();
        svg
    }

    /// Where its memory comes from.
    pub fn alloc(&self) -> Global {
        self.alloc
    }

    /// Writes the foot on a base line and ends the picture: the whole text, or `Memory` if a growth of it was refused.
    pub fn close(mut self, y: Coordinate, heading: &Heading) -> Result<Vec<u8>, Memory>
        ensures { IfOk result (λ text. HasFoot heading.now text.items) }
    {
        let alloc = self.alloc;
        // 180 letters of the foot are to fit into the width.
        self.begin_words(MARGIN, y, PLAIN.sized(900).coloured(FAINT));
        put_foot(&mut self.text, alloc, heading);
        self.text.put("</text>\n</svg>\n");
        let Svg { alloc: _, text } = self;
        Ok(text.finish()?.into_bytes())
    }

    /// Begins a group with a title.
    pub fn begin_titled(&mut self, title: &Result<String, Memory>) {
        self.text.put("<g><title>");
        self.text.put_made(title);
        self.text.put("</title>");
    }

    /// Begins a group of lines of this width.
    pub fn begin_lines(&mut self, width: u64) {
        let width = Points(width);
        put!(
            self.text,
            "<g fill=\"none\" stroke-width=\"{width}\" shape-rendering=\"crispEdges\">\n"
        );
    }

    /// Ends a group.
    pub fn end_group(&mut self) {
        self.text.put("</g>\n");
    }

    /// Draws a rectangle with a title.
    pub fn titled_rect(&mut self, area: &Area, paint: Paint, title: &Result<String, Memory>) {
        self.begin_titled(title);
        self.rect(area, paint);
        self.end_group();
    }

    /// Draws a line to the right, with a title.
    pub fn line(
        &mut self,
        x: Coordinate,
        y: Coordinate,
        width: u64,
        colour: Colour,
        title: &Result<String, Memory>,
    ) {
        let width = Points(width);
        put!(
            self.text,
            "<path d=\"M{x} {y}h{width}\" stroke=\"{colour}\"><title>"
        );
        self.text.put_made(title);
        self.text.put("</title></path>\n");
    }

    /// Draws a rectangle.
    pub fn rect(&mut self, area: &Area, paint: Paint) {
        put!(self.text, "<rect {area} {paint}/>\n");
    }

    /// Makes a rectangle paler, and hatches it. One without room for stripes is dotted, since their edge would look like a
    /// mark.
    pub fn hatch(&mut self, area: &Area) {
        put!(
            self.text,
            "<rect {area} fill=\"#ffffff\" fill-opacity=\"0.55\"/>\n"
        );
        if area.width < HATCHED {
            let (x, y) = (area.x + area.width / 2, area.y);
            let (height, width) = (Points(area.height), Points(area.width.saturating_add(80)));
            put!(
                self.text,
                "<path d=\"M{x} {y}v{height}\" fill=\"none\" stroke=\"{INK}\" stroke-width=\"{width}\" stroke-dasharray=\"2\"/>\n"
            );
        } else {
            put!(
                self.text,
                "<rect {area} fill=\"url(#shared)\" stroke=\"{INK}\" stroke-width=\"0.8\"/>\n"
            );
        }
    }

    /// Draws a foot of this height in a rectangle, over its whole width.
    pub fn foot(&mut self, area: &Area, height: u64) {
        let foot = Area::new(area.x, area.bottom() - height, area.width, height);
        self.rect(&foot, Paint::Plain(INK));
    }

    /// Draws a path; nothing if it has no step.
    pub fn path(&mut self, steps: &Text, paint: Paint) {
        if !steps.is_empty() {
            self.text.put("<path d=\"");
            self.text.put_text(steps);
            put!(self.text, "\" {paint}/>\n");
        }
    }

    /// Begins words of plain ASCII, without marks that SVG reads, on a base line.
    pub fn begin_words(&mut self, x: Coordinate, y: Coordinate, style: Style) {
        let (size, colour) = (Points(style.size), style.colour);
        put!(self.text, "<text x=\"{x}\" y=\"{y}\" font-size=\"{size}");
        self.text.put(match style.anchor {
            Anchor::Start => "\" text-anchor=\"start",
            Anchor::Middle => "\" text-anchor=\"middle",
            Anchor::End => "\" text-anchor=\"end",
        });
        self.text.put(if style.bold {
            "\" font-weight=\"bold"
        } else {
            "\" font-weight=\"normal"
        });
        put!(self.text, "\" fill=\"{colour}\">");
    }

    /// Ends such words.
    pub fn end_words(&mut self) {
        self.text.put("</text>\n");
    }

    /// Writes such words.
    pub fn words(&mut self, x: Coordinate, y: Coordinate, style: Style, words: &str) {
        self.begin_words(x, y, style);
        self.text.put(words);
        self.end_words();
    }

    /// Writes such words and a number.
    pub fn numbered(
        &mut self,
        x: Coordinate,
        y: Coordinate,
        style: Style,
        words: &str,
        number: u64,
    ) {
        self.begin_words(x, y, style);
        self.text.put_number(words, number);
        self.end_words();
    }
}
