//! The options of a subcommand, as they are given.
ghost use Rattle.std.specs.Prelude.{◌≡◌, ◌≢◌, ◌↔◌, IsTrue, IfOk, codes, map, option_map};
ghost use Rattle.clap.specs.Words.{found_of, rows_of, first_of, all_of};
ghost use Rattle.kc_args.specs.Options.{in_range, workers_in, slot_in, vm_in, IsSet, HasInput, has_several, files_after, AreOptionsIn};

use clap::ArgMatches;
use kc_types::WORKER_LIMIT;
use std::alloc::{AllocError, Global};

/// The options of a subcommand, which may contradict each other. Paths are those of files.
#[derive(Clone, Copy, Debug, PartialEq, Eq)]
pub(crate) enum Options<'a> {
    Replay {
        config: Option<&'a str>,
        from: Option<&'a str>,
        to: Option<&'a str>,
        workers: u32,
        lines: bool,
        dump: bool,
        state: bool,
        blank: bool,
        /// Whether several files are named.
        several: bool,
    },
    Live {
        config: Option<&'a str>,
        workers: u32,
    },
    Custody {
        config: Option<&'a str>,
        from: Option<&'a str>,
        vm: Option<u32>,
        summary: bool,
        svg: bool,
        html: bool,
        refused: bool,
        accesses: bool,
        unseen: bool,
        digests: bool,
    },
    Audit {
        all: bool,
    },
    Redact {
        config: Option<&'a str>,
        from: Option<&'a str>,
        host: bool,
    },
    Convert {
        config: Option<&'a str>,
        after: Option<&'a str>,
    },
}

/// The first text of an option, if it has one.
fn text_in<'a>(matches: &ArgMatches<'a>, option: &str) -> Option<&'a str>
    ensures { option_map (λ s. s.now) result ≡ first_of option.now (rows_of (found_of matches.now)) }
{
    matches.get_str(option)
}

/// Whether the flag is given: `clap` gives it the text `true` then, and else `false`.
pub(crate) fn is_set(matches: &ArgMatches<'_>, flag: &str) -> bool
    ensures { IsTrue result ↔ IsSet flag.now (rows_of (found_of matches.now)) }
{
    match text_in(matches, flag) {
        Some(text) => text == "true",
        None => false,
    }
}

/// The number, or 1 if the command's rules do not accept it.
fn in_range(workers: u8) -> u32
    ensures { result ≡ in_range workers }
{
    if (1..=WORKER_LIMIT).contains(&usize::from(workers)) {
        u32::from(workers)
    } else {
        1
    }
}

/// The number of workers; 1 if none is given.
fn workers_in(matches: &ArgMatches<'_>) -> u32
    ensures { result ≡ workers_in (rows_of (found_of matches.now)) }
{
    match matches.get_one::<u8>("workers") {
        Some(workers) => in_range(workers),
        None => 1,
    }
}

/// The number after `--vm`; 0 if the command's rules do not accept it.
fn slot_in(matches: &ArgMatches<'_>) -> u32
    ensures { result ≡ slot_in (rows_of (found_of matches.now)) }
{
    match matches.get_one::<u16>("vm") {
        Some(vm) => u32::from(vm),
        None => 0,
    }
}

/// The slot that is named, if one is.
fn vm_in(matches: &ArgMatches<'_>) -> Option<u32>
    ensures { result ≡ vm_in (rows_of (found_of matches.now)) }
{
    match text_in(matches, "vm") {
        Some(_) => Some(slot_in(matches)),
        None => None,
    }
}

pub(crate) fn is_named(name: &str, command: &str) -> bool
    ensures { IsTrue result ↔ (name.now ≡ command.now) }
{
    name == command
}

/// The file to be read; `None` for `-`, which is standard input.
pub(crate) fn input_in<'a>(matches: &ArgMatches<'a>) -> Option<&'a str>
    ensures { HasInput (rows_of (found_of matches.now)) result }
{
    let file = text_in(matches, "file")?;
    if is_named(file, "-") {
        None
    } else {
        Some(file)
    }
}

/// All files that are named, in order.
pub(crate) fn files_in<'b, 'a>(matches: &'b ArgMatches<'a>) -> Option<&'b [&'a str]>
    ensures { option_map (λ files. map (λ file. file.now) files.now) result ≡ all_of (codes "file") (rows_of (found_of matches.now)) }
{
    matches.get_strs("file")
}

/// Whether several files are named.
fn has_several(matches: &ArgMatches<'_>) -> bool
    ensures { result ≡ has_several (rows_of (found_of matches.now)) }
{
    match files_in(matches) {
        Some(files) => files.len() > 1,
        None => false,
    }
}

/// Lists the files that come after the first, in order.
pub(crate) fn files_after<'a>(
    alloc: Global,
    matches: &ArgMatches<'a>,
) -> Result<Vec<&'a str>, AllocError>
    ensures { IfOk result (λ files. map (λ file. file.now) files.items ≡ files_after (rows_of (found_of matches.now))) }
{
    let Some(files) = files_in(matches) else {
        return Ok(Vec::new(alloc));
    };
    match files.split_first() {
        Some((_, after)) => Vec::from_slice(alloc, after),
        None => Ok(Vec::new(alloc)),
    }
}

/// The options that the subcommand of this name is given, which is not `measure`.
pub(crate) fn options_in<'a>(name: &str, found: &ArgMatches<'a>) -> Options<'a>
    requires { name.now ≢ codes "measure" }
    ensures { AreOptionsIn name.now (rows_of (found_of found.now)) result }
{
    if is_named(name, "audit") {
        return Options::Audit {
            all: is_set(found, "all"),
        };
    }
    let config = text_in(found, "config");
    if is_named(name, "convert") {
        return Options::Convert {
            config,
            after: text_in(found, "after"),
        };
    }
    if is_named(name, "redact") {
        return Options::Redact {
            config,
            from: text_in(found, "from"),
            host: is_set(found, "host"),
        };
    }
    if is_named(name, "custody") {
        return Options::Custody {
            config,
            from: text_in(found, "from"),
            vm: vm_in(found),
            summary: is_set(found, "summary"),
            svg: is_set(found, "svg"),
            html: is_set(found, "html"),
            refused: is_set(found, "refused"),
            accesses: is_set(found, "accesses"),
            unseen: is_set(found, "unseen"),
            digests: is_set(found, "digests"),
        };
    }
    let workers = workers_in(found);
    if is_named(name, "live") {
        return Options::Live { config, workers };
    }
    Options::Replay {
        config,
        from: text_in(found, "from"),
        to: text_in(found, "to"),
        workers,
        lines: is_set(found, "lines"),
        dump: is_set(found, "dump"),
        state: is_set(found, "state"),
        blank: is_set(found, "blank"),
        several: has_several(found),
    }
}
