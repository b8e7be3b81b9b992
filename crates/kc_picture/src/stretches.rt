//! The bars of a trace: the stretches of lines after whose calls a frame has one custody.
ghost use Rattle.std.specs.Prelude.{◌≡◌, ◌<◌, ◌++◌, All, IfOk, filter, reverse};
ghost use Rattle.kc_model.specs.Boot.{boot};
ghost use Rattle.kc_model.specs.Custody.{custody_at};
ghost use Rattle.kc_model.specs.Events.{changes_in};
ghost use Rattle.kc_model.specs.Bars.{bars, later_bars};
ghost use Rattle.kc_picture.specs.Frames.{IsIn, AreNextLines, is_lasting, told_in};

use kc_types::{Bar, Change, Config, Custody, Event, FrameChange, Memory};
use std::alloc::Global;

/// The bar of a frame from the first line up to this one.
fn first_bar(config: &Config, frame: u32, to: u32) -> Bar
    requires { frame < config.now.frames }
    ensures { result ≡ record { frame = frame; custody = custody_at (boot config.now) frame; from = 1; to = to } }
{
    Bar {
        frame,
        custody: Custody::untouched(config.owner_at_boot(frame)),
        from: 1,
        to,
    }
}

/// The change of a frame that an event is, if it is one.
fn told_in(event: &Event) -> Option<FrameChange>
    ensures { result ≡ told_in event.now }
{
    match event {
        Event::Change(Change::Frame(told)) => Some(*told),
        Event::Change(Change::Phase(_)) | Event::Read { .. } | Event::Write { .. } => None,
    }
}

/// Makes the bars from each change on, the last first, and finds the line of the first change of each frame.
fn bars_from_changes(
    alloc: Global,
    frames: u32,
    end: u32,
    events: &[Event],
) -> Result<(Vec<Bar>, Vec<u32>), Memory>
    requires { All (IsIn frames) (changes_in events.now) }
    ensures bars { IfOk result (λ made. reverse made.0.items ≡ later_bars end (changes_in events.now)) }
    ensures lines { IfOk result (λ made. AreNextLines frames end (changes_in events.now) made.1.items) }
{
    let mut bars = Vec::new(alloc);
    let mut next = vec![in alloc; end; frames as usize]?;
    for i in (0..events.len()).rev() {
        if let Some(told) = told_in(&events[i]) {
            let frame = told.frame as usize;
            bars.push(Bar {
                frame: told.frame,
                custody: told.after,
                from: told.line,
                to: next[frame],
            })?;
            next[frame] = told.line;
        }
    }
    Ok((bars, next))
}

/// Whether a bar has a line. A frame that changes on the header's line has none before that.
fn is_lasting(bar: &Bar) -> bool
    ensures { result ≡ is_lasting bar.now }
{
    bar.from < bar.to
}

/// Leaves the bars that have a line.
fn keep_lasting(bars: &mut Vec<Bar>)
    ensures { bars.new.items ≡ filter is_lasting bars.old.items }
{
    bars.retain(|bar| is_lasting(bar));
}

/// Makes the bars of all frames: those from the first line on, and from each change on, up to the line `end`. `Memory` if
/// there was none for them.
pub fn bars(alloc: Global, config: &Config, end: u32, events: &[Event]) -> Result<Vec<Bar>, Memory>
    // The changes of a trace are of frames that exist.
    requires { All (IsIn config.now.frames) (changes_in events.now) }
    ensures { IfOk result
        (λ made. made.items ≡ filter is_lasting (bars (boot config.now) end (changes_in events.now))) }
{
    let (mut bars, next) = bars_from_changes(alloc, config.frames(), end, events)?;
    for frame in (0..config.frames()).rev() {
        bars.push(first_bar(config, frame, next[frame as usize]))?;
    }
    bars.reverse();
    keep_lasting(&mut bars);
    Ok(bars)
}
