//! What is reported of the volume that an input holds, or of that and of those in the files after it.
ghost use Rattle.std.specs.Prelude.{◌≡◌, ◌∷◌, [], ℕ, List, Option, Some, None, Ok, false, true, length};
ghost use Rattle.kc_model.specs.State.{State};
ghost use Rattle.kc_texts.specs.Ends.{Seen, seen};
ghost use Rattle.kc_args.specs.Jobs.{path_of};
ghost use Rattle.kc_run.specs.Reports.{AreOpened, HasStarted, ReadsOn, ReadsFiles, ReportsTrace, ReportsVolumes, Reports, report_of};
ghost use Rattle.kc_run.specs.Opening.{Held};
ghost use Rattle.kc_run.specs.Endings.{took};
ghost use Rattle.kc_run.specs.Ends.{ends_of};
ghost use Rattle.kc_run.specs.Run.{BeginsAt};

use crate::beginning::{StartText, open, unnamed_text};
use crate::ending::Ending;
use crate::engines::{System, counted};
use crate::files::Files;
use kc_args::Start;
use kc_cli::Account;
use kc_faults::TextFault;
use kc_texts::{Headed, Sink, Source};
use std::sync::Wait;
use std::thread::Threads;

/// Reads the volume of this number into an account; returns the ending if it is refused.
fn read_volume<A: Account, T: Source, R: Threads + Wait + Sync>(
    system: &System<'_, R>,
    account: &mut A,
    number: usize,
    trace: &mut T,
    is_followed: bool,
) -> Result<Option<Ending>, TextFault>
    requires trace { T.failed trace.old ≡ false }
    requires told { (order : A.Order) × (m : State) × (sources : List (Option (List ℕ)))
        × A.kind.told order account.old m sources }
    ensures { ReadsOn A.kind account.old account.new None (seen T.failed T.left trace.old trace.new ∷ []) number
        is_followed result }
{
    match account.read(system.threads, system.alloc, trace, is_followed) {
        Ok(()) => Ok(None),
        Err(TextFault::Trace(fault)) => Ok(Some(Ending::Refused {
            volume: number,
            fault,
        })),
        Err(fault) => Err(fault),
    }
}

/// Reads the files of the volumes after the input into an account, up to the first that is refused.
fn read_files<A: Account, F: Files, R: Threads + Wait + Sync>(
    system: &System<'_, R>,
    files: &mut F,
    account: &mut A,
    after: &[&str],
) -> Result<Option<Ending>, TextFault>
    requires files { F.refused files.old ≡ None }
    requires told { (order : A.Order) × (m : State) × (sources : List (Option (List ℕ)))
        × A.kind.told order account.old m sources }
    ensures read { ReadsFiles F.File.left F.File.failed A.kind account.old account.new (F.held files.old)
        (F.refused files.new) 2 after.now result }
    ensures same { F.held files.new ≡ F.held files.old }
{
    let mut number = 1;
    for path in after {
        number += 1;
        let mut volume = open(files, path)?;
        let is_followed = number <= after.len();
        let read = read_volume(system, account, number, &mut volume, is_followed);
        files.close(volume);
        let refusal = read?;
        match refusal {
            Some(ending) => return Ok(Some(ending)),
            None => {},
        }
    }
    Ok(None)
}

/// Reads the volume of the input, and then the files.
fn read_all<A: Account, F: Files, T: Source, R: Threads + Wait + Sync>(
    system: &System<'_, R>,
    files: &mut F,
    account: &mut A,
    input: &mut T,
    after: &[&str],
) -> Result<Option<Ending>, TextFault>
    requires files { F.refused files.old ≡ None }
    requires input { T.failed input.old ≡ false }
    requires told { (order : A.Order) × (m : State) × A.kind.told order account.old m [] }
    ensures read { (sources : List Seen)
        × AreOpened F.File.left F.File.failed (F.held files.old) (F.refused files.new) after.now sources
        × (result ≡ Ok None → length sources ≡ length after.now)
        × ReadsOn A.kind account.old account.new (F.refused files.new)
        (seen T.failed T.left input.old input.new ∷ sources) 1 false result }
    ensures same { F.held files.new ≡ F.held files.old }
{
    let refusal = read_volume(system, account, 1, input, true)?;
    match refusal {
        Some(ending) => Ok(Some(ending)),
        None => read_files(system, files, account, after),
    }
}

/// Reads the one trace into an account, and writes what is wanted.
fn report_trace<A: Account + Drop, T: Source, K: Sink, R: Threads + Wait + Sync>(
    system: &System<'_, R>,
    account: A,
    input: &mut T,
    out: &mut K,
) -> Result<Ending, TextFault>
    requires input { T.failed input.old ≡ false }
    requires out { K.failed out.old ≡ false }
    requires begun { (order : A.Order) × (m : State) × (start : Seen) × HasStarted A.kind order account m start }
    ensures { (order : A.Order) (m : State) (start : Seen) (held : Held) → HasStarted A.kind order account m start
        → ReportsTrace (report_of A.kind order) start
        (ends_of held None (seen T.failed T.left input.old input.new) (input.new ≡ input.old)
        (took K.failed K.taken out.old out.new) (out.new ≡ out.old)) result }
{
    let mut account = account;
    match account.read(system.threads, system.alloc, input, false) {
        Ok(()) => counted(account.give(system.threads, system.alloc, out)),
        Err(fault) => {
            account.end(system.threads);
            Err(fault)
        },
    }
}

/// Reads all volumes into an account, and writes what is wanted, unless one of them is refused.
fn report_volumes<A: Account + Drop, F: Files, T: Source, K: Sink, R: Threads + Wait + Sync>(
    system: &System<'_, R>,
    files: &mut F,
    account: A,
    input: &mut T,
    after: &[&str],
    out: &mut K,
) -> Result<Ending, TextFault>
    requires files { F.refused files.old ≡ None }
    requires input { T.failed input.old ≡ false }
    requires out { K.failed out.old ≡ false }
    requires begun { (order : A.Order) × (m : State) × (start : Seen) × HasStarted A.kind order account m start }
    ensures { (order : A.Order) (m : State) (start : Seen) → HasStarted A.kind order account m start
        → ReportsVolumes F.File.left F.File.failed (report_of A.kind order) after.entry.now start
        (ends_of (F.held files.old) (F.refused files.new) (seen T.failed T.left input.old input.new)
        (input.new ≡ input.old) (took K.failed K.taken out.old out.new) (out.new ≡ out.old)) result }
{
    let mut account = account;
    match read_all(system, files, &mut account, input, after) {
        Ok(refusal) => match refusal {
            None => counted(account.give(system.threads, system.alloc, out)),
            Some(ending) => {
                account.end(system.threads);
                Ok(ending)
            },
        },
        Err(fault) => {
            account.end(system.threads);
            Err(fault)
        },
    }
}

/// Reports what is ordered of the trace that the input holds, or of this and of the volumes that the files hold, from an
/// open start.
#[inline(never)]
fn report_from<
    A: Account + Drop,
    F: Files,
    C: Source,
    T: Source,
    K: Sink,
    R: Threads + Wait + Sync,
>(
    system: &System<'_, R>,
    files: &mut F,
    start: &mut C,
    input: &mut T,
    after: &[&str],
    out: &mut K,
    order: A::Order,
) -> Result<Ending, TextFault>
    requires files { F.refused files.old ≡ None }
    requires start { C.failed start.old ≡ false }
    requires input { T.failed input.old ≡ false }
    requires out { K.failed out.old ≡ false }
    ensures { Reports F.File.left F.File.failed (report_of A.kind order) after.entry.now
        (seen C.failed C.left start.old start.new)
        (ends_of (F.held files.old) (F.refused files.new) (seen T.failed T.left input.old input.new)
        (input.new ≡ input.old) (took K.failed K.taken out.old out.new) (out.new ≡ out.old)) result }
{
    let account = A::begin(system.threads, system.alloc, start, order)?;
    if after.is_empty() {
        report_trace(system, account, input, out)
    } else {
        report_volumes(system, files, account, input, after, out)
    }
}

/// Does the same from where calls begin.
pub(crate) fn report<A: Account + Drop, F: Files, T: Headed, K: Sink, R: Threads + Wait + Sync>(
    system: &System<'_, R>,
    files: &mut F,
    start: Start<'_>,
    input: &mut T,
    after: &[&str],
    out: &mut K,
    order: A::Order,
) -> Result<Ending, TextFault>
    requires files { F.refused files.old ≡ None }
    requires input { T.failed input.old ≡ false }
    requires out { K.failed out.old ≡ false }
    ensures { BeginsAt F.File.left F.File.failed (path_of start.entry)
        (Reports F.File.left F.File.failed (report_of A.kind order) after.entry.now)
        (ends_of (F.held files.old) (F.refused files.new) (seen T.failed T.left input.old input.new)
        (input.new ≡ input.old) (took K.failed K.taken out.old out.new) (out.new ≡ out.old)) result }
{
    let Some(path) = start.path() else {
        let text = unnamed_text(system.alloc, input)?;
        let mut start = StartText::new(&text);
        return report_from::<A, F, StartText<'_>, T, K, R>(
            system, files, &mut start, input, after, out, order,
        );
    };
    let mut file = open(files, path)?;
    let ended = report_from::<A, F, F::File, T, K, R>(
        system, files, &mut file, input, after, out, order,
    );
    files.close(file);
    ended
}
