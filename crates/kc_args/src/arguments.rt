//! What the program's arguments ask for.
ghost use Rattle.std.specs.Prelude.{◌≡◌, ◌≢◌, IfOk, IfErr, codes, map};
ghost use Rattle.clap.specs.Words.{found_of, rows_of};
ghost use Rattle.clap.specs.Values.{kind_of};
ghost use Rattle.kc_args.specs.Jobs.{plain_job};
ghost use Rattle.kc_args.specs.Images.{IsMeasuringIn};
ghost use Rattle.kc_args.specs.Arguments.{IsJobIn, IsClashIn, IsImageRefusalIn, IsWantedIn, IsRefusalIn, IsRequest, IsRefusal, HasStatus};

use crate::clash::Clash;
use crate::commands::command;
use crate::images::images_of;
use crate::job::{Action, Job, Measuring, Request, Start, Wanted};
use crate::judging::action_of;
use crate::options::{files_after, files_in, input_in, is_named, is_set, options_in};
use clap::error::ErrorKind;
use clap::{ArgMatches, Error};
use kc_texts::ReplayForm;
use kc_types::IMAGE_LIMIT;
use std::alloc::{AllocError, Global};

/// Why there is no job.
#[derive(Debug, Drop)]
pub enum ArgFault {
    /// Memory could not be had.
    Memory,
    /// What is to be printed, and the exit status: 0 for help or the version, which was asked for, and 2 for a wrong
    /// command line.
    Message(String, u8),
    /// Two options contradict each other.
    Clash(Clash),
}

impl From<AllocError> for ArgFault {
    ghost use Rattle.kc_args.specs.declared.arguments.ArgFault.TheVariants.{Memory};

    ghost from_gives = { λ _ made. made ≡ Memory };

    fn from(_refused: AllocError) -> ArgFault {
        ArgFault::Memory
    }
}

/// What is printed in place of a job.
fn refused(alloc: Global, error: &Error) -> ArgFault
    ensures { HasStatus (kind_of error.now) result }
{
    if error.kind() == ErrorKind::OutOfMemory {
        return ArgFault::Memory;
    }
    let status = if error.use_stderr() { 2 } else { 0 };
    match error.to_string(alloc) {
        Ok(text) => ArgFault::Message(text, status),
        Err(_) => ArgFault::Memory,
    }
}

/// What the subcommand of this name asks for, which is not `measure`, or what contradicts itself in its options.
fn job_in<'a>(name: &str, found: &ArgMatches<'a>) -> Result<Job<'a>, Clash>
    requires { name.now ≢ codes "measure" }
    ensures job { IfOk result (IsJobIn name.now (rows_of (found_of found.now))) }
    ensures clash { IfErr result (IsClashIn name.now (rows_of (found_of found.now))) }
{
    let action = action_of(options_in(name, found))?;
    Ok(Job {
        input: input_in(found),
        action,
        explain: is_set(found, "explain"),
    })
}

/// What `measure` asks for, or what is wrong with its images.
fn measuring_in<'a>(alloc: Global, found: &ArgMatches<'a>) -> Result<Measuring<'a>, ArgFault>
    ensures measuring { IfOk result (IsMeasuringIn (rows_of (found_of found.now))) }
    ensures refused { IfErr result (IsImageRefusalIn (rows_of (found_of found.now))) }
{
    let Some(words) = files_in(found) else {
        return Err(ArgFault::Clash(Clash::MeasureAlone));
    };
    if words.is_empty() {
        return Err(ArgFault::Clash(Clash::MeasureAlone));
    }
    if words.len() > IMAGE_LIMIT {
        return Err(ArgFault::Clash(Clash::ManyImages));
    }
    match images_of(alloc, words)? {
        Some(images) => Ok(Measuring {
            images,
            json: is_set(found, "json"),
            explain: is_set(found, "explain"),
        }),
        None => Err(ArgFault::Clash(Clash::NoImage)),
    }
}

/// What the subcommand of this name asks for, or what is wrong with its options.
fn wanted_in<'a>(alloc: Global, name: &str, found: &ArgMatches<'a>) -> Result<Wanted<'a>, ArgFault>
    ensures wanted { IfOk result (IsWantedIn name.now (rows_of (found_of found.now))) }
    ensures refused { IfErr result (IsRefusalIn name.now (rows_of (found_of found.now))) }
{
    if is_named(name, "measure") {
        return match measuring_in(alloc, found) {
            Ok(measuring) => Ok(Wanted::Measure(measuring)),
            Err(fault) => Err(fault),
        };
    }
    match job_in(name, found) {
        Ok(job) => Ok(Wanted::Job(Request {
            job,
            after: files_after(alloc, found)?,
        })),
        Err(clash) => Err(ArgFault::Clash(clash)),
    }
}

/// What no subcommand asks for: to replay standard input on one thread and write the replies.
fn plain_job<'a>() -> Job<'a>
    ensures { result ≡ plain_job }
{
    Job {
        input: None,
        action: Action::Replay {
            start: Start::Boot(None),
            to: None,
            form: ReplayForm::Replies,
            is_blank: false,
            workers: 1,
        },
        explain: false,
    }
}

/// What the arguments, without the program's name, ask for: `replay` or `live`, with or without `--config PATH` and
/// `--workers N` with a number from 1 to 64, `replay` also with `--from PATH`, `--to PATH`, `--lines`, `--dump`,
/// `--state` and `--blank`; `custody`, with or without `--config PATH`, `--from PATH`, `--vm V` with a number from 0 to
/// 63, `--summary`, `--svg`, `--html`, `--refused`, `--accesses`, `--unseen` and `--digests`; `audit`, also with
/// `--all`; `redact`, also with `--config PATH`, `--from PATH` and `--host`; `convert` with `--config PATH` or `--after
/// PATH`; each also with `--explain` and the file to be read, `custody` and `replay --lines` with more files to be read
/// after it; `measure`, with or without `--json` and `--explain`, and 1 to 16 words `GFN=FILE`; and `replay` if there are
/// no arguments.
pub fn request_of<'a>(alloc: Global, arguments: &'a [&'a str]) -> Result<Wanted<'a>, ArgFault>
    // The job, and the files after its input, are what the arguments say by the command's rules. Only a command line
    // that breaks them is refused, or one with options that contradict each other.
    ensures request { IfOk result (IsRequest (map (λ w. w.now) arguments.entry.now)) }
    ensures refused { IfErr result (IsRefusal (map (λ w. w.now) arguments.entry.now)) }
{
    let matches = match command(alloc)?.try_get_matches_from(arguments) {
        Ok(matches) => matches,
        Err(error) => return Err(refused(alloc, &error)),
    };
    match matches.subcommand() {
        Some((name, found)) => wanted_in(alloc, name, found),
        None => Ok(Wanted::Job(Request {
            job: plain_job(),
            after: Vec::new(alloc),
        })),
    }
}
