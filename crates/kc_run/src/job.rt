//! A run of the program.
ghost use Rattle.std.specs.Prelude.{◌≡◌, false, None};
ghost use Rattle.kc_texts.specs.Ends.{seen};
ghost use Rattle.kc_run.specs.Endings.{took};
ghost use Rattle.kc_run.specs.Ends.{ends_of};
ghost use Rattle.kc_run.specs.Run.{IsEnding, IsEndingOf, IsRun};

use crate::beginning::open;
use crate::ending::{Ending, Exit, end};
use crate::engines::{System, audit, convert, convert_after, live, redact, redact_host, replay};
use crate::files::Files;
use crate::reporting::report;
use kc_args::{Action, Job};
use kc_cli::{CustodyAccount, CustodyOrder, LinesOrder, ReplayAccount, ReplayOrder};
use kc_faults::TextFault;
use kc_texts::{Headed, Sink};
use std::sync::Wait;
use std::thread::Threads;

/// Runs the engine of an action.
fn run_action<F: Files, T: Headed, K: Sink, R: Threads + Wait + Sync>(
    system: &System<'_, R>,
    files: &mut F,
    action: Action<'_>,
    input: &mut T,
    after: &[&str],
    out: &mut K,
) -> Result<Ending, TextFault>
    requires files { F.refused files.old ≡ None }
    requires input { T.failed input.old ≡ false }
    requires out { K.failed out.old ≡ false }
    ensures { IsEnding F.File.left F.File.failed action.entry after.entry.now
        (ends_of (F.held files.old) (F.refused files.new) (seen T.failed T.left input.old input.new)
        (input.new ≡ input.old) (took K.failed K.taken out.old out.new) (out.new ≡ out.old)) result }
{
    match action {
        Action::Replay {
            start,
            to,
            form,
            is_blank,
            workers,
        } => {
            let order = ReplayOrder {
                origin: start.origin(),
                form,
                is_blank,
                workers,
                lanes: system.lanes,
            };
            replay(system, files, start, to, input, out, order)
        },
        Action::ReplayVolumes { start, workers } => {
            let order = LinesOrder {
                origin: start.origin(),
                workers,
                lanes: system.lanes,
            };
            report::<ReplayAccount, F, T, K, R>(system, files, start, input, after, out, order)
        },
        Action::Live { config, workers } => live(system, files, config, workers, input, out),
        Action::Custody { start, form, scope } => {
            let order = CustodyOrder {
                origin: start.origin(),
                form,
                lanes: system.lanes,
                scope,
            };
            report::<CustodyAccount, F, T, K, R>(system, files, start, input, after, out, order)
        },
        Action::Audit { all } => audit(system, all, input, out),
        Action::Redact => redact(system.alloc, input, out),
        Action::RedactHost { start } => redact_host(system, files, start, input, out),
        Action::Convert { config } => convert(system.alloc, files, config, input, out),
        Action::ConvertAfter { volume } => convert_after(system.alloc, files, volume, input, out),
    }
}

/// Runs the engine of an action over the file that is named, or over standard input if none is.
fn run_over<F: Files, T: Headed, K: Sink, R: Threads + Wait + Sync>(
    system: &System<'_, R>,
    files: &mut F,
    path: Option<&str>,
    action: Action<'_>,
    input: &mut T,
    after: &[&str],
    out: &mut K,
) -> Result<Ending, TextFault>
    requires files { F.refused files.old ≡ None }
    requires input { T.failed input.old ≡ false }
    requires out { K.failed out.old ≡ false }
    ensures { IsEndingOf F.File.left F.File.failed path.entry action.entry after.entry.now
        (ends_of (F.held files.old) (F.refused files.new) (seen T.failed T.left input.old input.new)
        (input.new ≡ input.old) (took K.failed K.taken out.old out.new) (out.new ≡ out.old)) result }
{
    let Some(path) = path else {
        return run_action(system, files, action, input, after, out);
    };
    let mut file = open(files, path)?;
    let ended = run_action(system, files, action, &mut file, after, out);
    files.close(file);
    ended
}

/// Does what a job asks for: opens the files that it names, reads its input, which is one of these or standard input,
/// and for custody and several volumes the files after it, writes onto the sink what is asked for, and onto the error sink
/// the line of a fault, of a state that differs, or of a trace that is probably of another machine. Each file that was
/// opened is given back.
pub fn run_job<F: Files, T: Headed, K: Sink, L: Sink, R: Threads + Wait + Sync>(
    system: &System<'_, R>,
    files: &mut F,
    job: Job<'_>,
    after: &[&str],
    input: &mut T,
    out: &mut K,
    err: &mut L,
) -> Exit
    requires files { F.refused files.old ≡ None }
    requires input { T.failed input.old ≡ false }
    requires out { K.failed out.old ≡ false }
    requires err { L.failed err.old ≡ false }
    ensures { IsRun F.File.left F.File.failed job.entry after.entry.now
        (ends_of (F.held files.old) (F.refused files.new) (seen T.failed T.left input.old input.new)
        (input.new ≡ input.old) (took K.failed K.taken out.old out.new) (out.new ≡ out.old))
        (took L.failed L.taken err.old err.new) (err.new ≡ err.old)
        result.status result.fault result.answered result.difference result.volume }
{
    let ended = run_over(system, files, job.input, job.action, input, after, out);
    end(ended, err)
}
