//! What is kept of the calls of a trace until it has ended.
ghost use Rattle.std.specs.Prelude.{◌≡◌, ◌<◌, ◌≤◌, ◌+◌, ◌^◌, ◌++◌, [], List, length, filter, IfOk, OnOk};
ghost use Rattle.kc_types.specs.declared.reply.Reply.{Reply};
ghost use Rattle.kc_model.specs.State.{State};
ghost use Rattle.kc_model.specs.Next.{replies_from, state_after};
ghost use Rattle.kc_remarks.specs.declared.remark.Note.{Note};
ghost use Rattle.kc_remarks.specs.Remarks.{notes_from};
ghost use Rattle.kc_remarks.specs.Denials.{is_denied, Counts};
ghost use Rattle.kc_cli.specs.Ledgers.{CanCount, Keeps};

use kc_core::KCore;
use kc_custody::{Lives, events_before, note_calls, summarize_calls, tell_calls};
use kc_remarks::{Attempt, Denials, Note, Remarks};
use kc_texts::CustodyForm;
use kc_types::{Call, Event, Memory};
use std::alloc::Global;

/// What is kept to be written in a form: the notes on the calls if remarks are asked for, else their events, which take
/// less time and memory; for a summary no events, but the lives that they have in them so far, and the attempts at pages of
/// VMs.
#[derive(Drop)]
pub(crate) enum Ledger {
    Changes(Vec<Event>),
    Notes(Remarks, Vec<Note>),
    /// The lives in what is so before the first call, and in the calls' events.
    Summary(Lives, Vec<Attempt>),
    /// With what is so before the first call, as events before those of the calls.
    Picture(Vec<Event>),
    /// For the picture of the VM in a slot: what is so before the first call, and notes, also for marks of what was
    /// refused and served.
    VmPicture(u32, Vec<Event>, Vec<Note>),
    Html(Vec<Note>),
}

impl Ledger {
    /// Makes a ledger without calls, for this form, perhaps of one slot's VM alone, of calls that begin in this core.
    pub(crate) fn new(
        alloc: Global,
        core: &KCore,
        form: CustodyForm,
        vm: Option<u32>,
    ) -> Result<Ledger, Memory>
        ensures { IfOk result (Keeps form core.now.state []) }
    {
        match form {
            CustodyForm::Changes(
                Remarks {
                    refused: false,
                    accesses: false,
                },
            ) => Ok(Ledger::Changes(Vec::new(alloc))),
            CustodyForm::Changes(remarks) => Ok(Ledger::Notes(remarks, Vec::new(alloc))),
            CustodyForm::Summary => {
                let mut lives = Lives::none(alloc, core.config().frames())?;
                lives.note_all(alloc, events_before(alloc, core)?)?;
                Ok(Ledger::Summary(lives, Vec::new(alloc)))
            },
            CustodyForm::Picture => {
                let before = events_before(alloc, core)?;
                match vm {
                    Some(vm) => Ok(Ledger::VmPicture(vm, before, Vec::new(alloc))),
                    None => Ok(Ledger::Picture(before)),
                }
            },
            CustodyForm::Html => Ok(Ledger::Html(Vec::new(alloc))),
        }
    }

    /// Makes some calls in order, of which the first has this line in the trace, keeps what its form is written of, and
    /// counts those that are refused or rejected. After `Memory`, if a growth was refused, some calls are done.
    pub(crate) fn note(
        &mut self,
        alloc: Global,
        core: &mut KCore,
        calls: &[Call],
        first: u32,
        denials: &mut Denials,
    ) -> Result<(), Memory>
        requires lines { first + length calls.now < 2 ^ 32 }
        requires counts { denials.old.total + length calls.now < 2 ^ 32 }
        ensures kept { OnOk result ((form : CustodyForm) (start : State) (told : List Note)
            → core.old.state.config ≡ start.config → CanCount start (told ++ notes_from first core.old.state calls.now)
            → Keeps form start told self.old
            → Keeps form start (told ++ notes_from first core.old.state calls.now) self.new) }
        ensures state { OnOk result (core.new.state ≡ state_after core.old.state calls.now) }
        ensures denied { OnOk result
            (denials.new.total ≡ denials.old.total + length (filter is_denied (notes_from first core.old.state calls.now))) }
        ensures few { OnOk result (denials.new.total ≤ denials.old.total + length calls.now) }
        ensures counted { OnOk result ((replies : List Reply)
            → Counts replies denials.old → Counts (replies ++ replies_from core.old.state calls.now) denials.new) }
    {
        match self {
            Ledger::Changes(events) => tell_calls(alloc, core, calls, first, events, denials),
            Ledger::Notes(_, notes) => note_calls(alloc, core, calls, first, notes, denials),
            Ledger::Summary(lives, attempts) => {
                summarize_calls(alloc, core, calls, first, lives, attempts, denials)
            },
            Ledger::Picture(events) => tell_calls(alloc, core, calls, first, events, denials),
            Ledger::VmPicture(_, _, notes) => note_calls(alloc, core, calls, first, notes, denials),
            Ledger::Html(notes) => note_calls(alloc, core, calls, first, notes, denials),
        }
    }
}
