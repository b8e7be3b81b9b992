//! Every frame by its number, a bar a stretch.
use crate::colour::{Colour, FAINT, FREE, INK, LIFE};
use crate::coordinate::{Coordinate, Points};
use crate::put;
use crate::scale::{NAMES, Scale};
use crate::svg::{Anchor, Area, PLAIN, Paint, REMARK, Svg};
use crate::titles::bar_title;
use crate::words::Text;
use kc_types::{Bar, Custody, Owner};

/// Rows and bars that are higher have larger words.
const ROOMY: u64 = 1_400;
/// Lower bars have no words.
const LOWEST_NAMED: u64 = 1_000;

/// The height of a row of few frames, and of more.
pub(crate) fn row_height(frames: u64) -> u64 {
    if frames <= 16 { 2_200 } else { 1_200 }
}

/// Puts the words on a bar.
fn put_name(name: &mut Text, custody: &Custody) {
    match custody.owner {
        Owner::Core => name.put("core"),
        Owner::Host => name.put("host"),
        Owner::Free => name.put("free"),
        Owner::Vm(vm) => {
            let vm = vm.index();
            put!(name, "vm {vm}");
            if let Some(gfn) = custody.gfn {
                let gfn = gfn.number();
                put!(name, " @{gfn}");
            }
            if custody.share > 0 {
                name.put(" shared");
            }
        },
    }
}

/// Whether two bars of a frame have one name.
fn same_name(a: &Custody, b: &Custody) -> bool {
    a.owner == b.owner && a.gfn == b.gfn && (a.share > 0) == (b.share > 0)
}

/// Draws a bar, without its name.
fn draw_bar(svg: &mut Svg, area: &Area, bar: &Bar) {
    let title = bar_title(svg.alloc(), bar);
    svg.begin_titled(&title);
    let custody = &bar.custody;
    let paint = match custody.owner {
        Owner::Free => Paint::Edged(FREE, LIFE),
        owner => Paint::Plain(Colour::of_owner(owner)),
    };
    svg.rect(area, paint);
    if custody.share > 0 {
        svg.hatch(area);
    }
    if custody.present {
        svg.foot(area, (area.height / 4).min(250));
    }
    svg.end_group();
}

/// The colour of words on a bar.
fn colour_of_words(custody: &Custody) -> Colour {
    if custody.share > 0 {
        INK
    } else if custody.owner == Owner::Free {
        FAINT
    } else if Colour::of_owner(custody.owner).is_dark() {
        FREE
    } else {
        INK
    }
}

/// Writes words on a bar, and returns whether there was room for them.
fn write_on(svg: &mut Svg, area: &Area, custody: &Custody, words: &Text) -> bool {
    // The greatest width of a letter; how far the base line is above the bar's end; and how much of the bar is left free
    // above and below the ground of the words together.
    let (size, letter, base, free) = if area.height > ROOMY {
        (1_000u64, 620u64, 600u64, 600u64)
    } else {
        (800, 500, 230, 200)
    };
    let width = letter.saturating_mul(words.len() as u64);
    if area.height < LOWEST_NAMED || area.width < width.saturating_add(600) {
        return false;
    }
    if custody.share > 0 {
        let (width, height) = (width.saturating_add(300), area.height.saturating_sub(free));
        let ground = Area::new(area.x + 200, area.y + free / 2, width, height);
        svg.rect(&ground, Paint::Plain(FREE));
    }
    let style = PLAIN.sized(size).coloured(colour_of_words(custody));
    svg.begin_words(area.x + 400, area.bottom() - base, style);
    svg.text.put_text(words);
    svg.end_words();
    true
}

/// Writes a bar's name on it, if there is room; of one that is shared at least that it is.
fn name_bar(svg: &mut Svg, area: &Area, custody: &Custody) -> bool {
    let mut name = Text::new(svg.alloc());
    put_name(&mut name, custody);
    if write_on(svg, area, custody, &name) {
        return true;
    }
    if custody.share > 0 {
        let mut shared = Text::new(svg.alloc());
        shared.put("shared");
        return write_on(svg, area, custody, &shared);
    }
    false
}

/// Where the row of a frame, or of calls, lies.
#[derive(Clone, Copy)]
pub struct Strip {
    pub scale: Scale,
    pub top: Coordinate,
    pub height: u64,
}

impl Strip {
    /// Its part from a line up to another.
    fn area(&self, from: u32, to: u32) -> Area {
        let (width, height) = (self.scale.width(from, to), self.height.saturating_sub(200));
        Area::new(self.scale.x(from), self.top + 100, width, height)
    }

    /// Draws its edge.
    pub fn draw_edge(&self, svg: &mut Svg) {
        svg.rect(&self.area(1, self.scale.end()), Paint::Edge(LIFE));
    }

    /// Writes the number of its frame beside it.
    pub fn name(&self, svg: &mut Svg, frame: u64) {
        let bottom = self.top + self.height;
        if self.height > ROOMY {
            let style = PLAIN.sized(1_100).anchored(Anchor::End);
            svg.numbered(NAMES, bottom - 600, style, "frame ", frame);
        } else {
            svg.numbered(NAMES, bottom - 250, REMARK.sized(900), "", frame);
        }
    }

    /// Draws the bars of its frame, each with its name unless the one before it has the same.
    pub fn draw_bars(&self, svg: &mut Svg, bars: &[Bar], row: &[usize]) {
        let mut named: Option<Custody> = None;
        for i in row {
            if let Some(bar) = bars.get(*i) {
                let area = self.area(bar.from, bar.to);
                draw_bar(svg, &area, bar);
                let is_named = match &named {
                    Some(before) => same_name(before, &bar.custody),
                    None => false,
                };
                if !is_named {
                    let has_room = name_bar(svg, &area, &bar.custody);
                    named = if has_room { Some(bar.custody) } else { None };
                }
            }
        }
    }

    /// Underlines the bars of its frame that are shared, so that the shortest is seen.
    pub fn underline(&self, svg: &mut Svg, bars: &[Bar], row: &[usize]) {
        let mut path = Text::new(svg.alloc());
        for i in row {
            if let Some(bar) = bars.get(*i) {
                if bar.custody.share > 0 {
                    path.begin_line(self.scale.x(bar.from), self.top + self.height - 50);
                    path.put_length("h", self.scale.width(bar.from, bar.to));
                }
            }
        }
        svg.path(&path, Paint::LongLines(Points(100)));
    }
}

/// Draws all frames, each by its bars: the first in this strip, the others below it.
pub(crate) fn draw_bars(svg: &mut Svg, first: Strip, bars: &[Bar], by_frame: &[Vec<usize>]) {
    let mut strip = first;
    for (frame, row) in by_frame.iter().enumerate() {
        strip.name(svg, frame as u64);
        strip.draw_bars(svg, bars, row);
        strip.top = strip.top + strip.height;
    }
}
