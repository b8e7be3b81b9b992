//! What every picture has: a title, lanes of VMs above, an axis, a legend and a foot below.
ghost use Rattle.std.specs.Prelude.{IfOk};
ghost use Rattle.kc_picture.specs.Foot.{HasFoot};

use crate::colour::FAINT;
use crate::coordinate::Coordinate;
use crate::lane_drawing::{LanePlace, draw_lane};
use crate::legend::{Legend, Shown};
use crate::put;
use crate::scale::{END, LEFT, PLOT, Scale, lines_of_column, nice};
use crate::svg::{Anchor, Area, HEADING, MARGIN, Paint, REMARK, Svg};
use crate::vms::{Lane, lanes_of};
use crate::words::{Count, Text};
use kc_trace::Heading;
use kc_types::{Event, Memory};
use std::alloc::Global;

/// The most lines through which marks of lanes have words: a line is half a point wide then.
pub const FEW_LINES: u64 = 2_001;
/// The base line of the heading of the lanes, and where the first lane begins.
const LANES_HEAD: Coordinate = Coordinate(4_600);

const LANES: Coordinate = Coordinate(5_800);
/// Lanes that are higher have room for words.
const ROOMY: u64 = 3_000;

/// The height of a lane, by the number of lanes.
fn lane_height(lanes: u64) -> u64 {
    if lanes <= 6 {
        3_600
    } else if lanes <= 20 {
        2_600
    } else {
        1_700
    }
}

/// Whether the VM in a slot has a lane: each to which something happened, or the one that is named alone.
fn has_lane(lane: &Lane, slot: u32, vm: Option<u32>) -> bool {
    slot == vm.unwrap_or(slot) && lane.is_used()
}

/// Draws the mark of a line on the axis.
fn draw_mark(svg: &mut Svg, scale: Scale, axis: Coordinate, line: u32) {
    let x = scale.x(line);
    svg.rect(&Area::new(x, axis, 80, 400), Paint::Plain(FAINT));
    let style = REMARK.anchored(Anchor::Middle);
    svg.numbered(x, axis + 1_500, style, "", u64::from(line));
}

/// Draws the axis: marks at the first line and at round ones.
fn draw_axis(svg: &mut Svg, scale: Scale, axis: Coordinate) {
    let step = nice(scale.last, 12);
    draw_mark(svg, scale, axis, 1);
    for i in 1..13u64 {
        let line = step.saturating_mul(i);
        if line > 1 && line <= scale.last {
            draw_mark(svg, scale, axis, line as u32);
        }
    }
    let style = REMARK.sized(1_100).anchored(Anchor::Middle);
    let words = "line of the trace (its header is line 1)";
    svg.words(Coordinate(LEFT + PLOT / 2), axis + 3_000, style, words);
}

/// The parts of a picture that every picture has.
#[derive(Drop)]
pub struct Sheet {
    pub scale: Scale,
    calls: u64,
    /// The slot of the one VM that is drawn, if it is one.
    vm: Option<u32>,
    lanes: Vec<Lane>,
    /// How many VMs there are, how many of them before the first call, how many have lanes, and the most frames of one of
    /// these.
    used: u64,
    earlier: u64,
    shown: u64,
    most: u64,
    /// Where the frames begin, and the axis below them.
    pub frames: Coordinate,
    axis: Coordinate,
}

impl Sheet {
    /// Lays out a picture of a trace's events, of one slot's VM alone if one is named (0 to 1,023), with room of this height
    /// for frames. `Memory` if a growth was refused.
    pub fn new(
        alloc: Global,
        calls: usize,
        events: &[Event],
        vm: Option<u32>,
        frames_height: u64,
    ) -> Result<Sheet, Memory> {
        let lanes = lanes_of(alloc, events)?;
        let (mut used, mut earlier, mut shown, mut most, mut slot) = (0u64, 0u64, 0u64, 0u64, 0u32);
        for lane in &lanes {
            if lane.is_used() {
                used = used.saturating_add(1);
            }
            if lane.is_earlier() {
                earlier = earlier.saturating_add(1);
            }
            if has_lane(lane, slot, vm) {
                shown = shown.saturating_add(1);
                most = most.max(lane.most());
            }
            slot = slot.saturating_add(1);
        }
        let frames = if shown > 0 {
            LANES + shown.saturating_mul(lane_height(shown)) + 2_800
        } else {
            Coordinate(5_000)
        };
        Ok(Sheet {
            scale: Scale::of_calls(calls),
            calls: calls as u64,
            vm,
            lanes,
            used,
            earlier,
            shown,
            most,
            frames,
            axis: frames + frames_height + 400,
        })
    }

    /// Writes the title of a picture of a machine with this number of frames.
    fn title(&self, alloc: Global, frames: u64) -> Text {
        let mut title = Text::new(alloc);
        let frames = Count(frames, "frame");
        let (calls, vms) = (Count(self.calls, "call"), Count(self.used, "VM"));
        put!(
            title,
            "Custody of {frames} of 4,096 bytes through {calls}, {vms}"
        );
        if self.earlier > 0 {
            let earlier = self.earlier;
            put!(title, ", {earlier} of them there before the first call");
        }
        if let Some(vm) = self.vm {
            put!(title, ": vm {vm} alone");
        }
        title
    }

    /// Writes the heading of the lanes and, at the right, how many frames their height is.
    fn head_lanes(&self, svg: &mut Svg) {
        svg.begin_words(MARGIN, LANES_HEAD, HEADING);
        match self.vm {
            Some(vm) => put!(svg.text, "Frames of vm {vm}"),
            None => svg.text.put("Frames of each VM"),
        }
        svg.text.put(", and of them shared with the host (hatched)");
        svg.end_words();
        svg.begin_words(END, LANES_HEAD, REMARK);
        let most = Count(self.most, "frame");
        match self.vm {
            Some(_) => put!(svg.text, "at most {most}"),
            None => put!(svg.text, "highest lane: {most}"),
        }
        let wide = lines_of_column(self.scale.last, self.scale.columns());
        if wide > 1 {
            let lines = Count(wide, "line");
            put!(
                svg.text,
                "; each point shows the most on any of up to {lines}"
            );
        }
        svg.end_words();
    }

    /// Draws the lanes. `Memory` if there was none for one of them.
    fn draw_lanes(&self, svg: &mut Svg) -> Result<(), Memory> {
        let height = lane_height(self.shown);
        let is_roomy = height > ROOMY;
        let mut place = LanePlace {
            scale: self.scale,
            vm: 0,
            base: (LANES + height - 400).0,
            height: height.saturating_sub(if is_roomy { 1_200 } else { 900 }),
            top: self.most,
            roomy: is_roomy && self.scale.last <= FEW_LINES,
        };
        for lane in &self.lanes {
            if has_lane(lane, place.vm, self.vm) {
                draw_lane(svg, &place, lane)?;
                place.base = place.base.saturating_add(height);
            }
            place.vm = place.vm.saturating_add(1);
        }
        Ok(())
    }

    /// The base line of the foot.
    fn foot(&self) -> Coordinate {
        self.axis + if self.shown > 0 { 11_400 } else { 9_500 }
    }

    /// Begins a picture of a machine with this number of frames: its title and its lanes. `Memory` if there was none for
    /// these.
    pub fn open(&self, alloc: Global, frames: u64) -> Result<Svg, Memory> {
        let height = self.foot() + 800;
        let mut svg = Svg::open(alloc, height, &self.title(alloc, frames));
        if self.shown > 0 {
            self.head_lanes(&mut svg);
            self.draw_lanes(&mut svg)?;
        }
        Ok(svg)
    }

    /// Draws the axis, what the legend says of frames that are shown so, and the foot, and ends the picture.
    pub fn close(&self, mut svg: Svg, shown: Shown, heading: &Heading) -> Result<Vec<u8>, Memory>
        ensures { IfOk result (λ text. HasFoot heading.now text.items) }
    {
        draw_axis(&mut svg, self.scale, self.axis);
        let legend = Legend {
            shown,
            lanes: self.shown,
            vm: self.vm,
        };
        legend.draw(&mut svg, self.axis + 4_600);
        svg.close(self.foot(), heading)
    }
}
