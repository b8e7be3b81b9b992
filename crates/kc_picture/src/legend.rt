//! What each colour and mark of a picture says.
use crate::colour::{CORE, Colour, DEAD, EDGE, FREE, HOST, INK, LIFE, SEVERAL};
use crate::coordinate::Coordinate;
use crate::scale::START;
use crate::shapes::{MarkKind, draw_shape};
use crate::svg::{Area, PLAIN, Paint, Svg};

/// How a legend shows what its words say.
#[derive(Clone, Copy)]
enum Sample {
    Plain(Colour),
    /// A part that is shared.
    Shared(Colour),
    /// A part that is shared and too narrow for stripes.
    Narrow(Colour),
    Vms,
    /// With a foot of this height.
    Footed(Colour, u64),
    /// A part of a lane that is underlined.
    Underlined(Colour),
    /// The mark of a line.
    Tick(Colour),
    /// The mark of a dead VM.
    Dead,
    /// The mark of a call.
    Call(MarkKind),
}

/// Draws a sample from its upper left corner on.
fn draw_sample(svg: &mut Svg, x: Coordinate, y: Coordinate, sample: Sample) {
    let area = Area::new(x, y, 1_400, 1_100);
    match sample {
        Sample::Plain(colour) => svg.rect(&area, Paint::Edged(colour, EDGE)),
        Sample::Shared(colour) => {
            svg.rect(&area, Paint::Plain(colour));
            svg.hatch(&area);
        },
        Sample::Narrow(colour) => {
            svg.rect(&area, Paint::Plain(colour));
            svg.hatch(&Area::new(x + 675, y, 50, 1_100));
        },
        Sample::Vms => {
            for vm in 0..4u32 {
                let hue = Area::new(x + 350 * u64::from(vm), y, 350, 1_100);
                svg.rect(&hue, Paint::Plain(Colour::of_vm(vm)));
            }
        },
        Sample::Footed(colour, height) => {
            svg.rect(&area, Paint::Plain(colour));
            svg.foot(&area, height);
        },
        Sample::Underlined(colour) => {
            svg.rect(&Area::new(x, y, 1_400, 800), Paint::Plain(colour));
            svg.rect(&Area::new(x, y + 900, 1_400, 200), Paint::Plain(INK));
        },
        Sample::Tick(colour) => svg.rect(&Area::new(x + 650, y, 100, 1_100), Paint::Plain(colour)),
        Sample::Dead => svg.rect(&Area::new(x + 575, y, 250, 1_100), Paint::Plain(DEAD)),
        Sample::Call(kind) => draw_shape(svg, kind, x + 700, y, 1_100),
    }
}

/// A line of a legend, up to where the next sample begins.
#[derive(Clone, Copy)]
struct Line {
    x: Coordinate,
    y: Coordinate,
}

impl Line {
    /// A line that has nothing yet.
    fn new(y: Coordinate) -> Line {
        Line { x: START, y }
    }

    /// Draws a sample and its words.
    fn add(&mut self, svg: &mut Svg, sample: Sample, words: &str) {
        draw_sample(svg, self.x, self.y, sample);
        svg.words(self.x + 1_900, self.y + 1_000, PLAIN.sized(1_100), words);
        self.x = self.x + 3_800 + 590u64.saturating_mul(words.len() as u64);
    }
}

/// How frames are shown.
#[derive(Clone, Copy, PartialEq, Eq)]
pub enum Shown {
    /// All, by bars.
    Bars,
    /// By cells.
    Cells,
    /// Those of one VM, by bars.
    Rows,
}

/// What there is to explain: how frames are shown, how many lanes there are, and the slot of the one VM that is drawn, if
/// it is one.
#[derive(Clone, Copy)]
pub(crate) struct Legend {
    pub shown: Shown,
    pub lanes: u64,
    pub vm: Option<u32>,
}

impl Legend {
    /// The colour of the VM that is drawn, or of the first.
    fn hue(&self) -> Colour {
        Colour::of_vm(self.vm.unwrap_or(0))
    }

    /// Draws whose each colour is.
    fn draw_owners(&self, svg: &mut Svg, line: &mut Line) {
        if self.vm.is_some() {
            line.add(svg, Sample::Plain(self.hue()), "the VM's");
            line.add(svg, Sample::Plain(FREE), "others'");
            return;
        }
        line.add(svg, Sample::Plain(CORE), "core");
        line.add(svg, Sample::Plain(HOST), "host");
        line.add(svg, Sample::Plain(FREE), "free");
        if self.lanes > 0 {
            line.add(svg, Sample::Vms, "a VM's: the colour of its lane");
            if self.shown == Shown::Cells {
                line.add(svg, Sample::Plain(SEVERAL), "several VMs'");
            }
        }
    }

    /// Draws what each colour of frames says.
    fn draw_colours(&self, svg: &mut Svg, y: Coordinate) {
        let mut line = Line::new(y);
        self.draw_owners(svg, &mut line);
        if self.lanes > 0 {
            line.add(svg, Sample::Shared(self.hue()), "shared with the host");
            if self.shown != Shown::Cells {
                line.add(svg, Sample::Narrow(self.hue()), "shared, if narrow");
            }
        }
        if self.shown != Shown::Cells {
            let colour = if self.vm.is_some() { self.hue() } else { HOST };
            line.add(svg, Sample::Footed(colour, 250), "reached by the host");
        } else if self.lanes > 0 {
            let colour = self.hue().paler(50);
            line.add(svg, Sample::Footed(colour, 120), "some of it shared");
        }
    }

    /// Draws what each mark of a lane says.
    fn draw_lane_marks(&self, svg: &mut Svg, y: Coordinate) {
        let mut line = Line::new(y);
        line.add(svg, Sample::Underlined(self.hue()), "shares a frame");
        line.add(svg, Sample::Plain(LIFE), "a VM's life");
        line.add(svg, Sample::Tick(EDGE), "registered");
        line.add(svg, Sample::Tick(INK), "measured and active, or cleared");
        line.add(svg, Sample::Dead, "measured and dead");
    }

    /// Draws what each mark of a call says or, in a picture of all VMs, what it cannot show.
    fn draw_calls(&self, svg: &mut Svg, y: Coordinate) {
        if self.vm.is_some() {
            let mut line = Line::new(y);
            line.add(svg, Sample::Call(MarkKind::Read), "hread served");
            line.add(svg, Sample::Call(MarkKind::Write), "hwrite served");
            line.add(svg, Sample::Call(MarkKind::Refused), "refused");
        } else {
            let words = if self.shown == Shown::Cells {
                "Not shown: which frame of a cell was whose on which line, what was refused, what the host read and wrote. --vm V shows a VM's frames one by one, with marks of these."
            } else {
                "Not shown: what was refused, and what the host read and wrote. --vm V shows them for one VM."
            };
            svg.words(START, y + 1_000, PLAIN, words);
        }
    }

    /// Draws what each colour and mark says.
    pub fn draw(&self, svg: &mut Svg, y: Coordinate) {
        self.draw_colours(svg, y);
        let mut below = y + 1_900;
        if self.lanes > 0 {
            self.draw_lane_marks(svg, below);
            below = below + 1_900;
        }
        self.draw_calls(svg, below);
    }
}
