//! What is written of what was kept of a trace: every change, an object for each life of a VM, a picture, or a page for
//! a browser.
ghost use Rattle.std.specs.Prelude.{◌≡◌, ◌<◌, ◌+◌, ◌^◌, ◌++◌, ◌⊎◌, ℕ, List, All, Some, filter, false, IfOk, IfErr, OnOk};
ghost use Rattle.kc_types.specs.declared.custody.Event.{Event as AnEvent};
ghost use Rattle.kc_model.specs.Events.{changes_in};
ghost use Rattle.kc_model.specs.Lives.{lives, selected_lives};
ghost use Rattle.kc_custody.specs.Grown.{AreGrown};
ghost use Rattle.kc_custody.specs.Chosen.{chosen};
ghost use Rattle.kc_remarks.specs.Remarks.{events_in};
ghost use Rattle.kc_remarks.specs.Attempts.{AreInOrder};
ghost use Rattle.kc_picture.specs.Foot.{HasFoot};
ghost use Rattle.kc_picture.specs.Frames.{IsIn};
ghost use Rattle.kc_picture.specs.Marks.{marks};
ghost use Rattle.kc_trace.specs.CustodyText.{AreInLine};
ghost use Rattle.kc_trace.specs.SummaryText.{summary_text_of};
ghost use Rattle.kc_faults.specs.Outcomes.{TellsSink};
ghost use Rattle.kc_cli.specs.Custody.{page_remarks};
ghost use Rattle.kc_cli.specs.Ledgers.{reported, attempts_kept, events_kept, is_remark, GivesAccount, BeginsAccount};

use crate::ledger::Ledger;
use crate::lined::{View, give_lines, give_whole};
use kc_custody::{Lives, choose, select, select_lives};
use kc_faults::TextFault;
use kc_picture::{Mark, bars, marks_of, picture, picture_of_vm};
use kc_remarks::{Answered, Attempt, Note, Remarks};
use kc_texts::{CustodyForm, Scope, Sink};
use kc_trace::{Heading, VolumeEntry, summary_text};
use kc_types::{Config, Event, Memory};
use std::alloc::Global;

/// The line of a trace's first call: its header is line 1.
pub(crate) const FIRST_LINE: u32 = 2;

/// What is reported on.
#[derive(Drop)]
pub(crate) struct Subject {
    /// What the core was started with.
    pub config: Config,
    /// How many calls there are, and how many of them were refused or rejected.
    pub answered: Answered,
    /// What the first line says beside the sizes of the core.
    pub heading: Heading,
    /// The volumes that are named on lines of their own.
    pub volumes: Vec<VolumeEntry>,
}

/// What was kept of all calls.
#[derive(Drop)]
pub(crate) struct Told {
    /// What is reported on.
    pub subject: Subject,
    /// What was kept of the calls.
    pub ledger: Ledger,
}

/// The events that are reported: the changes alone, if the machine's own accesses are not in the trace.
fn reported(events: Vec<Event>, is_unseen: bool) -> Vec<Event>
    ensures { result.items ≡ reported is_unseen events.items }
{
    let mut events = events;
    if is_unseen {
        select(&mut events, None);
    }
    events
}

/// The summary of lives and attempts.
fn summary_of(
    alloc: Global,
    subject: &Subject,
    grown: Lives,
    attempts: &[Attempt],
    vm: Option<u32>,
) -> Result<Vec<u8>, Memory>
    requires { AreInOrder attempts.now }
    ensures { IfOk result (λ text. (frames : ℕ) (events : List AnEvent) → AreGrown frames events grown → text.items
        ≡ summary_text_of subject.now.heading subject.now.config subject.now.volumes.items subject.now.answered.calls
        subject.now.answered.denials.total attempts.now (selected_lives vm (lives events))) }
{
    let mut lives = grown.into_lives(alloc)?;
    select_lives(&mut lives, vm);
    summary_text(
        alloc,
        &subject.heading,
        &subject.config,
        subject.volumes.as_slice(),
        subject.answered.calls,
        subject.answered.denials.total as usize,
        attempts,
        &lives,
    )
}

/// The picture of all frames, of some events.
fn picture_of(alloc: Global, subject: &Subject, events: &[Event]) -> Result<Vec<u8>, Memory>
    requires few { subject.now.answered.calls + 2 < 2 ^ 32 }
    requires within { All (IsIn subject.now.config.frames) (changes_in events.now) }
    ensures { IfOk result (λ text. HasFoot subject.now.heading text.items) }
{
    let calls = subject.answered.calls;
    let bars = bars(alloc, &subject.config, FIRST_LINE + calls as u32, events)?;
    picture(
        alloc,
        &subject.heading,
        &subject.config,
        calls,
        events,
        &bars,
    )
}

/// What is reported beside the changes in a picture or on a page: what was refused, and what was served if the
/// machine's own accesses are in the trace.
fn page_remarks(is_unseen: bool) -> Remarks
    ensures { result ≡ page_remarks is_unseen }
{
    Remarks {
        refused: true,
        accesses: !is_unseen,
    }
}

/// Takes notes apart: their events, and the others.
fn split(alloc: Global, notes: Vec<Note>) -> Result<(Vec<Event>, Vec<Note>), Memory>
    ensures events { IfOk result (λ parts. parts.0.items ≡ events_in notes.items) }
    ensures remarks { IfOk result (λ parts. parts.1.items ≡ filter is_remark notes.items) }
{
    let mut events = Vec::new(alloc);
    let mut remarks = Vec::new(alloc);
    for note in notes {
        match note {
            Note::Event(event) => events.push(event)?,
            Note::Denied(denied) => remarks.push(Note::Denied(denied))?,
            Note::Access(access) => remarks.push(Note::Access(access))?,
        }
    }
    Ok((events, remarks))
}

/// The events of notes, and the marks of what else is reported of one VM.
fn marked(
    alloc: Global,
    notes: Vec<Note>,
    vm: u32,
    is_unseen: bool,
) -> Result<(Vec<Event>, Vec<Mark>), Memory>
    ensures events { IfOk result (λ parts. parts.0.items ≡ events_in notes.items) }
    ensures marks { IfOk result
        (λ parts. parts.1.items ≡ marks (chosen (Some vm) (page_remarks is_unseen) notes.items)) }
{
    let (events, mut remarks) = split(alloc, notes)?;
    choose(&mut remarks, Some(vm), page_remarks(is_unseen));
    let marks = marks_of(alloc, &remarks)?;
    Ok((events, marks))
}

/// The picture of one VM, of what is so before the first call and some notes.
fn vm_picture_of(
    alloc: Global,
    subject: &Subject,
    before: Vec<Event>,
    notes: Vec<Note>,
    vm: u32,
) -> Result<Vec<u8>, Memory>
    requires few { subject.now.answered.calls + 2 < 2 ^ 32 }
    requires within { All (IsIn subject.now.config.frames) (changes_in (before.items ++ events_in notes.items)) }
    ensures { IfOk result (λ text. HasFoot subject.now.heading text.items) }
{
    let calls = subject.answered.calls;
    let (mut told, marks) = marked(alloc, notes, vm, subject.heading.is_unseen)?;
    let mut events = before;
    events.append(&mut told)?;
    let bars = bars(alloc, &subject.config, FIRST_LINE + calls as u32, &events)?;
    picture_of_vm(
        alloc,
        &subject.heading,
        &subject.config,
        calls,
        &events,
        bars,
        &marks,
        vm,
    )
}

/// Gives what was kept in its form, of one slot's VM alone if one is named.
pub(crate) fn give_told<K: Sink>(
    alloc: Global,
    told: Told,
    vm: Option<u32>,
    out: &mut K,
) -> Result<(), TextFault>
    requires out { K.failed out.old ≡ false }
    requires few { told.subject.answered.calls + 2 < 2 ^ 32 }
    requires changes { All (IsIn told.subject.config.frames) (changes_in (events_kept told.ledger)) }
    requires order { AreInOrder (attempts_kept told.ledger) }
    requires volumes { AreInLine told.subject.volumes.items }
    ensures ok { OnOk result (GivesAccount vm told (K.taken out.old) (K.taken out.new)) }
    ensures sink { TellsSink (K.failed out.new) (BeginsAccount vm told (K.taken out.old) (K.taken out.new))
        (out.new ≡ out.old) result }
    ensures fault { IfErr result (λ fault. (fault ≡ TextFault.Memory) ⊎ (fault ≡ TextFault.Write)) }
{
    let Told { subject, ledger } = told;
    match ledger {
        Ledger::Changes(mut events) => {
            select(&mut events, vm);
            give_lines(alloc, &subject, events, View::Text, out)
        },
        Ledger::Notes(remarks, mut notes) => {
            choose(&mut notes, vm, remarks);
            give_lines(alloc, &subject, notes, View::Text, out)
        },
        Ledger::Summary(lives, attempts) => {
            let Ok(text) = summary_of(alloc, &subject, lives, &attempts, vm) else {
                return Err(TextFault::Memory);
            };
            give_whole(&text, out)
        },
        Ledger::Picture(events) => {
            let events = reported(events, subject.heading.is_unseen);
            let Ok(text) = picture_of(alloc, &subject, &events) else {
                return Err(TextFault::Memory);
            };
            give_whole(&text, out)
        },
        Ledger::VmPicture(vm, before, notes) => {
            let Ok(text) = vm_picture_of(alloc, &subject, before, notes, vm) else {
                return Err(TextFault::Memory);
            };
            give_whole(&text, out)
        },
        Ledger::Html(mut notes) => {
            choose(&mut notes, vm, page_remarks(subject.heading.is_unseen));
            give_lines(alloc, &subject, notes, View::Page, out)
        },
    }
}
