//! The lives of a VM in its lane: when each began, how the measuring of its images ended, and when it was cleared.
use crate::colour::{Colour, DEAD, EDGE, FAINT, FREE, INK, LIFE};
use crate::labels::{Labels, Span};
use crate::lane_drawing::LanePlace;
use crate::lane_titles::{Run, deaths_title, lives_title, stay_title, tick_title};
use crate::scale::Scale;
use crate::svg::{PLAIN, Paint, Svg};
use crate::vms::{HEADER_LINE, Measured, Stay};
use kc_types::Memory;
use std::alloc::Global;

/// The most lives that are each drawn with their ticks.
const SINGLE_STAYS: usize = 40;
/// If there are more, lives within this width are drawn as one.
const JOINED: u64 = 200;
/// Dead VMs within this width have one mark.
const POINT: u64 = 100;
/// How far the mark of a dead VM rises above its lane.
const RISE: u64 = 400;

/// Lives that are drawn as one.
#[derive(Clone, Copy)]
struct Group {
    /// The first of them.
    stay: Stay,
    /// From the line on which the first of them begins to that on which the last of them ends.
    run: Run,
}

impl Group {
    /// Adds a life that ends on this line if those before are close to each other, and returns whether they are.
    fn add(&mut self, scale: Scale, to: u32) -> bool {
        let is_narrow = scale.width(self.run.first, self.run.last) < JOINED;
        if is_narrow {
            self.run.count = self.run.count.saturating_add(1);
            self.run.last = to;
        }
        is_narrow
    }
}

/// Returns the lives as they are drawn: each by itself, or, of many, those that are close as one.
fn groups_of(alloc: Global, scale: Scale, stays: &[Stay]) -> Result<Vec<Group>, Memory> {
    let mut groups: Vec<Group> = Vec::new(alloc);
    let is_single = stays.len() <= SINGLE_STAYS;
    for stay in stays {
        let last = stay.cleared.unwrap_or(scale.end());
        let is_joined = match groups.last_mut() {
            Some(group) => !is_single && group.add(scale, last),
            None => false,
        };
        if !is_joined {
            let run = Run::new(stay.registered, last);
            groups.push(Group { stay: *stay, run })?;
        }
    }
    Ok(groups)
}

/// Returns the marks of dead VMs, from left to right: those within a point as one.
fn deaths_of(alloc: Global, scale: Scale, stays: &[Stay]) -> Result<Vec<Run>, Memory> {
    let mut deaths: Vec<Run> = Vec::new(alloc);
    for stay in stays {
        if let Measured::Dead(line) = stay.measured
            && line != HEADER_LINE
        {
            let is_joined = match deaths.last_mut() {
                Some(run) => run.add(scale, POINT, line),
                None => false,
            };
            if !is_joined {
                deaths.push(Run::new(line, line))?;
            }
        }
    }
    Ok(deaths)
}

/// The lives of a VM as they are drawn.
#[derive(Drop)]
pub(crate) struct Stays {
    groups: Vec<Group>,
    deaths: Vec<Run>,
}

/// Returns the lives as they are drawn, with the marks of those whose VMs are dead.
pub(crate) fn stays_of(alloc: Global, scale: Scale, stays: &[Stay]) -> Result<Stays, Memory> {
    Ok(Stays {
        groups: groups_of(alloc, scale, stays)?,
        deaths: deaths_of(alloc, scale, stays)?,
    })
}

/// The title of lives that are drawn as one, or of one alone.
fn group_title(alloc: Global, place: &LanePlace, group: &Group) -> Result<String, Memory> {
    if group.run.count == 1 {
        return stay_title(alloc, place.vm, &group.stay);
    }
    let mut run = group.run;
    run.last = run.last.min(place.scale.end().saturating_sub(1));
    lives_title(alloc, place.vm, &run)
}

/// Draws how long each life is, below all else in its lane.
pub(crate) fn draw_stays(svg: &mut Svg, place: &LanePlace, stays: &Stays) {
    for group in &stays.groups {
        let title = group_title(svg.alloc(), place, group);
        let (from, to) = (group.run.first, group.run.last);
        let width = place.scale.width(from, to);
        let area = place.area(place.scale.x(from), width, place.height);
        svg.titled_rect(&area, Paint::Plain(LIFE), &title);
    }
}

/// Draws the mark of a line, over a lane's height, with a title.
fn draw_tick(svg: &mut Svg, place: &LanePlace, colour: Colour, what: &str, line: u32) {
    let title = tick_title(svg.alloc(), place.vm, what, line);
    let area = place.area(place.scale.x(line) - 50, 100, place.height);
    svg.titled_rect(&area, Paint::Plain(colour), &title);
}

/// Draws the marks of a life, but none of what is so before the first call, and not that of a dead VM, which is drawn
/// above all others.
fn draw_ticks(svg: &mut Svg, place: &LanePlace, stay: &Stay) {
    if stay.registered != HEADER_LINE {
        draw_tick(svg, place, EDGE, "registered", stay.registered);
    }
    if let Measured::Active(line) = stay.measured
        && line != HEADER_LINE
    {
        draw_tick(svg, place, INK, "measured and active", line);
    }
    if let Some(line) = stay.cleared {
        draw_tick(svg, place, INK, "cleared", line);
    }
}

/// Draws the mark of dead VMs, with a title.
fn draw_death(svg: &mut Svg, place: &LanePlace, deaths: &Run) {
    let title = if deaths.count == 1 {
        tick_title(svg.alloc(), place.vm, "measured and dead", deaths.first)
    } else {
        deaths_title(svg.alloc(), place.vm, deaths)
    };
    let height = place.height.saturating_add(RISE);
    let area = place.area(place.scale.x(deaths.first) - 125, 250, height);
    svg.titled_rect(&area, Paint::Edged(DEAD, FREE), &title);
}

/// The words beside the marks of dead VMs, before any is written.
fn dead_labels(place: &LanePlace) -> Labels {
    let size = if place.roomy { 900u64 } else { 650 };
    Labels::new(
        place.words_base(),
        PLAIN.sized(size).coloured(DEAD).bold(),
        3 * size,
    )
}

/// Whether a word may be where the word of a dead VM is to be.
fn meets_any(place: &LanePlace, deaths: &[Run], at: &Span) -> bool {
    let width = dead_labels(place).width;
    for run in deaths {
        if Span::beside(place.scale.x(run.first), width).meets(at) {
            return true;
        }
    }
    false
}

/// Names the marks of measuring that made a VM active, if there is room.
fn name_active(svg: &mut Svg, place: &LanePlace, stays: &Stays) {
    let mut labels = Labels::new(place.words_base(), PLAIN.sized(900).coloured(FAINT), 3_300);
    for group in &stays.groups {
        if let Measured::Active(line) = group.stay.measured
            && line != HEADER_LINE
        {
            let x = place.scale.x(line);
            let at = Span::beside(x, labels.width);
            if group.run.count == 1 && !meets_any(place, &stays.deaths, &at) {
                labels.write(svg, x, "active");
            }
        }
    }
}

/// Draws the marks of lives, above all else in their lane: those of dead VMs last, each with its word if there is room.
pub(crate) fn draw_marks(svg: &mut Svg, place: &LanePlace, stays: &Stays) {
    for group in &stays.groups {
        if group.run.count == 1 {
            draw_ticks(svg, place, &group.stay);
        }
    }
    if place.roomy {
        name_active(svg, place, stays);
    }
    let mut labels = dead_labels(place);
    for run in &stays.deaths {
        draw_death(svg, place, run);
        labels.write(svg, place.scale.x(run.first), "dead");
    }
}
