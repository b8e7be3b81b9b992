//! A run of the program, from its command line to its exit status.
use crate::arguments::report_arguments;
use crate::asked::Asked;
use crate::denials::{explain_default, explain_denials};
use crate::ending::Exit;
use crate::engines::System;
use crate::explaining::{Reading, explain_open};
use crate::folder::{Folder, Named};
use crate::job::run_job;
use crate::measuring::run_measure;
use kc_args::{ArgFault, Measuring, Request, Wanted, request_of};
use kc_digests::Lanes;
use kc_explain::{Erasing, Progress};
use kc_faults::{TextFault, tell};
use kc_remarks::Answered;
use kc_texts::Std;
use std::env;
use std::fs::{File, OpenFile};
use std::io::{Error, ErrorKind, IsTerminal};
use std::sync::Wait;
use std::thread::Threads;

/// Writes the fault's line on standard error, and returns the exit status.
fn fail(rt: &HostRuntime, fault: TextFault) -> u8 {
    tell(&fault, &mut Std::new(rt.stderr()))
}

/// Opens the root folder: if standard input or output is closed, it takes that number, which the configuration's file
/// would have otherwise. Nothing can be read from it, and nothing written to it. If it can't be opened, the program
/// does without.
fn stand_in(rt: &HostRuntime) -> Option<File> {
    File::open(rt, "/").ok()
}

/// Says more about the fault that a job ended with, if it did.
fn explain_exit(rt: &HostRuntime, files: &Folder<'_>, input: &Named<'_>, exit: &Exit) {
    let Some(fault) = &exit.fault else { return };
    match &files.refused {
        Some(path) => explain_open(rt, path.as_str(), files.why),
        None => Reading::of(files, input, exit.volume).explain(rt, fault),
    }
}

/// Says more of how the calls were answered.
fn explain_answered(
    rt: &HostRuntime,
    asked: &Asked<'_>,
    reading: &Reading<'_>,
    answered: &Answered,
) {
    explain_denials(rt, answered);
    if asked.is_unnamed() && !reading.has_head() {
        explain_default(rt);
    }
}

/// Opens standard input and the other streams, runs the job, and returns the exit status. A fault is explained if that
/// is asked for, and at a terminal; and how the calls were answered, if that is asked for, and at a terminal after a
/// warning.
fn run_with<'a, R: Threads + Wait + Sync>(
    rt: &'a HostRuntime,
    threads: &'a R,
    request: Request<'a>,
    lanes: Lanes,
) -> u8 {
    let mut asked = Asked::of(&request.job, &request.after);
    let is_told = asked.explain;
    asked.explain = asked.explain || rt.stderr().is_terminal();
    let _standing_in = stand_in(rt);
    let progress = Progress::new(rt);
    let mut files = Folder::new(rt, asked, &progress);
    let mut input = files.standard_input();
    let mut out = Std::new(rt.stdout());
    let mut err = Erasing::new(Std::new(rt.stderr()), &progress);
    let system = System {
        threads,
        alloc: rt.alloc(),
        lanes,
    };
    let exit = run_job(
        &system,
        &mut files,
        request.job,
        &request.after,
        &mut input,
        &mut out,
        &mut err,
    );
    progress.erase();
    if asked.explain {
        explain_exit(rt, &files, &input, &exit);
        if let Some(line) = exit.difference {
            Reading::of(&files, &input, None).explain_difference(rt, line);
        }
    }
    if let Some(answered) = &exit.answered
        && (is_told || (asked.explain && answered.is_doubted()))
    {
        explain_answered(rt, &asked, &Reading::of(&files, &input, None), answered);
    }
    exit.status
}

/// Opens the streams, measures the boot images, and returns the exit status. A fault is explained if that is asked for,
/// and at a terminal.
fn measure_with(rt: &HostRuntime, measuring: &Measuring<'_>) -> u8 {
    let asked = Asked::of_images(measuring.explain || rt.stderr().is_terminal());
    let _standing_in = stand_in(rt);
    let progress = Progress::new(rt);
    let mut files = Folder::new(rt, asked, &progress);
    let input = files.standard_input();
    let mut out = Std::new(rt.stdout());
    let mut err = Erasing::new(Std::new(rt.stderr()), &progress);
    let exit = run_measure(rt.alloc(), &mut files, measuring, &mut out, &mut err);
    progress.erase();
    if asked.explain {
        explain_exit(rt, &files, &input, &exit);
    }
    exit.status
}

/// Reports a command line that asks for nothing, and returns the exit status.
fn refuse(rt: &HostRuntime, arguments: &[&str], fault: ArgFault) -> u8 {
    match fault {
        ArgFault::Memory => fail(rt, TextFault::Memory),
        ArgFault::Clash(clash) => crate::ending::refuse(clash, &mut Std::new(rt.stderr())).status,
        ArgFault::Message(text, 0) => {
            if rt.print(text).is_err() {
                return fail(rt, TextFault::Write);
            }
            0
        },
        ArgFault::Message(text, status) => {
            report_arguments(rt, text.as_str(), arguments);
            status
        },
    }
}

/// Says why the command line can't be read, and returns the exit status.
fn refuse_arguments(rt: &HostRuntime, error: &Error) -> u8 {
    if error.kind() == ErrorKind::OutOfMemory {
        return fail(rt, TextFault::Memory);
    }
    let _ = rt.eprint("error: an argument is not UTF-8\n");
    2
}

/// Runs what the command line asks for, hashing this many pages at once, and returns the exit status.
pub fn run<R: Threads + Wait + Sync>(rt: &HostRuntime, threads: &R, lanes: Lanes) -> u8 {
    let mut arguments = match env::args(rt) {
        Ok(arguments) => arguments,
        Err(error) => return refuse_arguments(rt, &error),
    };
    let _program = arguments.next();
    let Ok(texts) = arguments.collect::<Vec<String>>(rt.alloc()) else {
        return fail(rt, TextFault::Memory);
    };
    let Ok(texts) = texts
        .iter()
        .map(String::as_str)
        .collect::<Vec<&str>>(rt.alloc())
    else {
        return fail(rt, TextFault::Memory);
    };
    match request_of(rt.alloc(), texts.as_slice()) {
        Ok(Wanted::Job(request)) => run_with(rt, threads, request, lanes),
        Ok(Wanted::Measure(measuring)) => measure_with(rt, &measuring),
        Err(fault) => refuse(rt, texts.as_slice(), fault),
    }
}
