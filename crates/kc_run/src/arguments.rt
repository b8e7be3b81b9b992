//! What may have been meant by a wrong command line.
use kc_explain::Masked;
use std::fmt;
use std::fs::metadata;

/// Each option, the first command that has it, and the others.
const OPTIONS: [(&str, &str, &str); 21] = [
    ("--config", "replay", ", live, custody, redact and convert"),
    ("--from", "replay", ", custody and redact"),
    ("--to", "replay", ""),
    ("--workers", "replay", " and live"),
    ("--lines", "replay", ""),
    ("--dump", "replay", ""),
    ("--state", "replay", ""),
    ("--blank", "replay", ""),
    ("--vm", "custody", ""),
    ("--summary", "custody", ""),
    ("--svg", "custody", ""),
    ("--html", "custody", ""),
    ("--refused", "custody", ""),
    ("--accesses", "custody", ""),
    ("--unseen", "custody", ""),
    ("--digests", "custody", ""),
    ("--all", "audit", ""),
    ("--host", "redact", ""),
    ("--after", "convert", ""),
    ("--json", "measure", ""),
    (
        "--explain",
        "replay",
        ", live, custody, audit, redact, convert and measure",
    ),
];

/// What may have been meant.
#[derive(Clone, Copy)]
enum Meant<'a> {
    /// A file to be replayed.
    File(&'a str),
    /// An option after the command.
    After {
        command: &'static str,
        argument: &'a str,
    },
    /// Another command.
    Elsewhere {
        option: &'static str,
        command: &'static str,
        others: &'static str,
    },
}

impl fmt::Display for Meant<'_> {
    fn fmt<W: fmt::Write>(&self, f: &mut fmt::Formatter<W>) -> fmt::Result {
        match self {
            Meant::File(path) => {
                let shown = Masked(path);
                write!(f, "{shown} is a file: kcore replay {shown} replays a trace")
            },
            Meant::After { command, argument } => {
                let shown = Masked(argument);
                write!(
                    f,
                    "an option comes after a command: kcore {command} {shown}"
                )
            },
            Meant::Elsewhere {
                option,
                command,
                others,
            } => write!(f, "{option} is an option of {command}{others}"),
        }
    }
}

/// The option of this name, and the commands that have it.
fn option_of(name: &str) -> Option<&'static (&'static str, &'static str, &'static str)> {
    OPTIONS.iter().find(|(option, _, _)| *option == name)
}

/// What an argument may mean that the command, or the program, does not know, by what `clap` says of it.
fn meant_by<'a>(rt: &HostRuntime, text: &str, arguments: &[&'a str]) -> Option<Meant<'a>> {
    let first = *arguments.first()?;
    if text.starts_with("error: unrecognized subcommand ") {
        return match metadata(rt, first) {
            Ok(_) => Some(Meant::File(first)),
            Err(_) => None,
        };
    }
    let rest = text.strip_prefix("error: unexpected argument '")?;
    let (name, _) = rest.split_once("'")?;
    let (option, command, others) = *option_of(name)?;
    if first.starts_with("--") {
        return Some(Meant::After {
            command,
            argument: first,
        });
    }
    Some(Meant::Elsewhere {
        option,
        command,
        others,
    })
}

/// Reports a wrong command line, with what may have been meant in place of what `clap` supposes.
pub fn report_arguments(rt: &HostRuntime, text: &str, arguments: &[&str]) {
    let Some(meant) = meant_by(rt, text, arguments) else {
        let _ = rt.eprint(text);
        return;
    };
    let (mut is_first, mut is_after_tip) = (true, false);
    for line in text.lines() {
        let is_tip = line.starts_with("  tip: ");
        if is_first && line.is_empty() {
            let _ = eprintln!(rt; "\n  tip: {meant}\n");
            is_first = false;
        } else if !is_tip && !(is_after_tip && line.is_empty()) {
            let _ = eprintln!(rt; "{line}");
        }
        is_after_tip = is_tip;
    }
}
