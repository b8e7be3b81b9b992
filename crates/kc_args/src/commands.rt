//! The program's command, as `clap` has it.
ghost use Rattle.std.specs.Prelude.{◌≡◌, IfOk, codes, false};
ghost use Rattle.clap.specs.declared.builder.command.Command.TheViews.{out-Command as fields_of};
ghost use Rattle.clap.specs.Words.{app_of, rule_of, new_app, with_rule};
ghost use Rattle.kc_args.specs.Commands.{kcore, replay, live, custody, audit, redact, convert, measure, with_start, with_outputs, with_forms, with_contents, ended, path_rule, flag_rule, workers_rule, vm_rule, file_rule, files_rule};

use clap::{Arg, ArgAction, Command};
use kc_types::{SLOT_LIMIT, WORKER_LIMIT};
use std::alloc::{AllocError, Global};

/// What `--version` prints after the program's name: the version, which the first line of custody names too, and on a
/// second line the toolchain that proves it.
const VERSION: &str = "3.0.0\nrattle-kit-13f";

const TRACE_HELP: &str = "The trace; standard input if this is - or not given";

const LINES_HELP: &str =
    "The trace, or with --lines the volumes of a life in order; standard input if the first is - or not given";

const VOLUMES_HELP: &str =
    "The trace, or the volumes of a life in order; standard input if the first is - or not given";

const DUMP_HELP: &str = "The dump; standard input if this is - or not given";

const IMAGES_HELP: &str =
    "Each boot image: its first guest frame (0 to 134217727), = and its file; up to 16, in the order in which they are set";

const EXAMPLES: &str =
    "Examples:\n  kcore replay run.trace\n  kcore replay --dump run.trace | kcore audit\n  kcore custody --summary --config machine.json run.trace";

/// Makes an option that takes a path.
fn path_arg<'a>(alloc: Global, name: &'a str, help: &'a str) -> Arg<'a>
    ensures rule { rule_of result ≡ path_rule name.now }
    ensures local { result.global ≡ false }
{
    Arg::new(alloc, name)
        .long(name)
        .value_name("PATH")
        .help(help)
}

fn config_arg<'a>(alloc: Global) -> Arg<'a>
    ensures rule { rule_of result ≡ path_rule (codes "config") }
    ensures local { result.global ≡ false }
{
    path_arg(
        alloc,
        "config",
        "Machine configuration (JSON): frames, core, host, leaves and approved; not needed for a trace with a head",
    )
}

fn workers_arg<'a>(alloc: Global) -> Arg<'a>
    ensures rule { rule_of result ≡ workers_rule }
    ensures local { result.global ≡ false }
{
    Arg::new(alloc, "workers")
        .long("workers")
        .value_name("N")
        .value_parser(clap::value_parser!(u8).range(1..=WORKER_LIMIT as i64))
        .help(
            "Replay with up to N threads (1 to 64, default 1), started only if that pays; the output is the same",
        )
}

fn vm_arg<'a>(alloc: Global) -> Arg<'a>
    ensures rule { rule_of result ≡ vm_rule }
    ensures local { result.global ≡ false }
{
    Arg::new(alloc, "vm")
        .long("vm")
        .value_name("V")
        .value_parser(clap::value_parser!(u16).range(0..=i64::from(SLOT_LIMIT) - 1))
        .help("Report only the VM in slot V (0 to 1023)")
}

/// Makes the argument without a name: the file to be read.
fn file_arg<'a>(alloc: Global, help: &'a str) -> Arg<'a>
    ensures rule { rule_of result ≡ file_rule }
    ensures local { result.global ≡ false }
{
    Arg::new(alloc, "file").value_name("FILE").help(help)
}

/// Makes the arguments without a name: the files to be read one after another.
fn files_arg<'a>(alloc: Global, help: &'a str) -> Arg<'a>
    ensures rule { rule_of result ≡ files_rule }
    ensures local { result.global ≡ false }
{
    file_arg(alloc, help).action(ArgAction::Append)
}

/// Begins a subcommand.
fn subcommand<'a>(
    alloc: Global,
    name: &'a str,
    about: &'a str,
    usage: &'a str,
    example: &'a str,
) -> Command<'a>
    ensures app { app_of result ≡ new_app name.now }
    ensures local { (fields_of result).has_globals ≡ false }
{
    Command::new(alloc, name)
        .about(about)
        .override_usage(usage)
        .after_help(example)
}

/// Adds an argument to a command, which has it for itself and not for all subcommands.
fn with_own<'a>(command: Command<'a>, arg: Arg<'a>) -> Result<Command<'a>, AllocError>
    requires command { (fields_of command).has_globals ≡ false }
    requires arg { arg.global ≡ false }
    ensures app { IfOk result (λ c. app_of c ≡ with_rule (app_of command.entry) (rule_of arg.entry)) }
    ensures local { IfOk result (λ c. (fields_of c).has_globals ≡ false) }
{
    command.arg(arg)
}

/// Adds the two options for what the calls begin with.
fn with_start<'a>(alloc: Global, command: Command<'a>) -> Result<Command<'a>, AllocError>
    requires { (fields_of command).has_globals ≡ false }
    ensures app { IfOk result (λ c. app_of c ≡ with_start (app_of command.entry)) }
    ensures local { IfOk result (λ c. (fields_of c).has_globals ≡ false) }
{
    let command = with_own(command, config_arg(alloc))?;
    let help = "Begin in the state of this state text (a checkpoint), not at boot";
    with_own(command, path_arg(alloc, "from", help))
}

/// Adds a flag to a command, which has it for itself and not for all subcommands.
fn with_flag<'a>(
    alloc: Global,
    command: Command<'a>,
    name: &'a str,
    help: &'a str,
) -> Result<Command<'a>, AllocError>
    requires { (fields_of command).has_globals ≡ false }
    ensures app { IfOk result (λ c. app_of c ≡ with_rule (app_of command.entry) (flag_rule name.now)) }
    ensures local { IfOk result (λ c. (fields_of c).has_globals ≡ false) }
{
    let arg = Arg::new(alloc, name)
        .long(name)
        .action(ArgAction::SetTrue)
        .help(help);
    with_own(command, arg)
}

/// Adds the two arguments that each subcommand has: the flag for explanations, and the file that it reads.
fn ended<'a>(alloc: Global, command: Command<'a>, file: Arg<'a>) -> Result<Command<'a>, AllocError>
    requires command { (fields_of command).has_globals ≡ false }
    requires file { file.global ≡ false }
    ensures app { IfOk result (λ c. app_of c ≡ ended (app_of command.entry) (rule_of file.entry)) }
    ensures local { IfOk result (λ c. (fields_of c).has_globals ≡ false) }
{
    let about = "Explain a fault in further lines";
    let command = with_flag(alloc, command, "explain", about)?;
    with_own(command, file)
}

/// Adds the flags for what a replay writes.
fn with_outputs<'a>(alloc: Global, command: Command<'a>) -> Result<Command<'a>, AllocError>
    requires { (fields_of command).has_globals ≡ false }
    ensures app { IfOk result (λ c. app_of c ≡ with_outputs (app_of command.entry)) }
    ensures local { IfOk result (λ c. (fields_of c).has_globals ≡ false) }
{
    let help = "Write each call with its reply and its line as JSON, in place of the replies";
    let command = with_flag(alloc, command, "lines", help)?;
    let help = "Write the dump of the core that the trace leaves, in place of the replies";
    let command = with_flag(alloc, command, "dump", help)?;
    let help =
        "Write the text of the state that the trace leaves, with every guest's bytes, in place of the replies";
    let command = with_flag(alloc, command, "state", help)?;
    let help = "Zero the pages of active VMs first, for --dump, --state and --to";
    with_flag(alloc, command, "blank", help)
}

fn replay_command<'a>(alloc: Global) -> Result<Command<'a>, AllocError>
    ensures app { IfOk result (λ c. app_of c ≡ replay) }
    ensures local { IfOk result (λ c. (fields_of c).has_globals ≡ false) }
{
    let command = subcommand(
        alloc,
        "replay",
        "Replay a trace and write the replies; with no command, standard input is replayed",
        "kcore replay [OPTIONS] [FILE]...",
        "Examples:\n  kcore replay --config machine.json run.trace > replies\n  kcore replay --lines --config machine.json first.trace second.trace",
    );
    let command = with_start(alloc, command)?;
    let help =
        "Compare the state that the trace leaves with this state text; exit with status 1 if they differ";
    let command = with_own(command, path_arg(alloc, "to", help))?;
    let command = with_own(command, workers_arg(alloc))?;
    let command = with_outputs(alloc, command)?;
    ended(alloc, command, files_arg(alloc, LINES_HELP))
}

fn live_command<'a>(alloc: Global) -> Result<Command<'a>, AllocError>
    ensures app { IfOk result (λ c. app_of c ≡ live) }
    ensures local { IfOk result (λ c. (fields_of c).has_globals ≡ false) }
{
    let command = subcommand(
        alloc,
        "live",
        "Run each actor of a trace in its own thread, and write the history, which is linearizable",
        "kcore live [OPTIONS] [FILE]",
        "Example: kcore live --config machine.json run.trace > history.trace",
    );
    let command = with_own(command, config_arg(alloc))?;
    let command = with_own(command, workers_arg(alloc))?;
    ended(alloc, command, file_arg(alloc, TRACE_HELP))
}

/// Adds the flags for the form in which custody is reported.
fn with_forms<'a>(alloc: Global, command: Command<'a>) -> Result<Command<'a>, AllocError>
    requires { (fields_of command).has_globals ≡ false }
    ensures app { IfOk result (λ c. app_of c ≡ with_forms (app_of command.entry)) }
    ensures local { IfOk result (λ c. (fields_of c).has_globals ≡ false) }
{
    let help = "Write an object for each life of a VM, in place of the changes";
    let command = with_flag(alloc, command, "summary", help)?;
    let help = "Write a picture (SVG 1.1), in place of the changes";
    let command = with_flag(alloc, command, "svg", help)?;
    let help = "Write a page for a browser, with the lines of --refused and --accesses in it";
    with_flag(alloc, command, "html", help)
}

/// Adds the flags for what else is reported.
fn with_contents<'a>(alloc: Global, command: Command<'a>) -> Result<Command<'a>, AllocError>
    requires { (fields_of command).has_globals ≡ false }
    ensures app { IfOk result (λ c. app_of c ≡ with_contents (app_of command.entry)) }
    ensures local { IfOk result (λ c. (fields_of c).has_globals ≡ false) }
{
    let help = "Also report each call that was refused or rejected";
    let command = with_flag(alloc, command, "refused", help)?;
    let help = "Also report each read and write of a VM's frame by the host";
    let command = with_flag(alloc, command, "accesses", help)?;
    let help = "For a trace without the machine's own reads and writes: report none";
    let command = with_flag(alloc, command, "unseen", help)?;
    let help = "Name the trace, and the configuration or the state, by SHA-256 in the first line";
    with_flag(alloc, command, "digests", help)
}

fn custody_command<'a>(alloc: Global) -> Result<Command<'a>, AllocError>
    ensures app { IfOk result (λ c. app_of c ≡ custody) }
    ensures local { IfOk result (λ c. (fields_of c).has_globals ≡ false) }
{
    let command = subcommand(
        alloc,
        "custody",
        "Report what happened to each frame and VM: every change, with the line of its call",
        "kcore custody [OPTIONS] [FILE]...",
        "Examples:\n  kcore custody --vm 3 --summary --config machine.json run.trace\n  kcore custody --config machine.json first.trace second.trace",
    );
    let command = with_start(alloc, command)?;
    let command = with_own(command, vm_arg(alloc))?;
    let command = with_forms(alloc, command)?;
    let command = with_contents(alloc, command)?;
    ended(alloc, command, files_arg(alloc, VOLUMES_HELP))
}

fn audit_command<'a>(alloc: Global) -> Result<Command<'a>, AllocError>
    ensures app { IfOk result (λ c. app_of c ≡ audit) }
    ensures local { IfOk result (λ c. (fields_of c).has_globals ≡ false) }
{
    let command = subcommand(
        alloc,
        "audit",
        "Report what is inconsistent in a dump; exit with status 1 if anything is",
        "kcore audit [OPTIONS] [FILE]",
        "Example: kcore audit --all run.dump",
    );
    let help = "Write a line for each finding, and the report last";
    let command = with_flag(alloc, command, "all", help)?;
    ended(alloc, command, file_arg(alloc, DUMP_HELP))
}

fn redact_command<'a>(alloc: Global) -> Result<Command<'a>, AllocError>
    ensures app { IfOk result (λ c. app_of c ≡ redact) }
    ensures local { IfOk result (λ c. (fields_of c).has_globals ≡ false) }
{
    let command = subcommand(
        alloc,
        "redact",
        "Write a trace with zeros in place of the bytes that VMs write",
        "kcore redact [OPTIONS] [FILE]",
        "Example: kcore redact run.trace > redacted.trace",
    );
    let command = with_start(alloc, command)?;
    let help =
        "Also blank what the host writes to active VMs' frames; a trace without a head needs --config or --from, since it is replayed";
    let command = with_flag(alloc, command, "host", help)?;
    ended(alloc, command, file_arg(alloc, TRACE_HELP))
}

fn convert_command<'a>(alloc: Global) -> Result<Command<'a>, AllocError>
    ensures app { IfOk result (λ c. app_of c ≡ convert) }
    ensures local { IfOk result (λ c. (fields_of c).has_globals ≡ false) }
{
    let command = subcommand(
        alloc,
        "convert",
        "Give a head to a trace without one: that of a first volume, or of the volume after another",
        "kcore convert [OPTIONS] [FILE]",
        "Examples:\n  kcore convert --config machine.json old1.trace > new1.trace\n  kcore convert --after new1.trace old2.trace > new2.trace",
    );
    let help = "Give it the head of the first volume on the machine of this configuration";
    let command = with_own(command, path_arg(alloc, "config", help))?;
    let help = "Give it the head of the volume after this one, which has a head";
    let command = with_own(command, path_arg(alloc, "after", help))?;
    ended(alloc, command, file_arg(alloc, TRACE_HELP))
}

fn measure_command<'a>(alloc: Global) -> Result<Command<'a>, AllocError>
    ensures app { IfOk result (λ c. app_of c ≡ measure) }
    ensures local { IfOk result (λ c. (fields_of c).has_globals ≡ false) }
{
    let command = subcommand(
        alloc,
        "measure",
        "Write the launch measurement of boot images, which a machine of version 3 approves",
        "kcore measure [OPTIONS] GFN=FILE...",
        "Example: kcore measure 16=kernel.bin 4096=initrd.bin",
    );
    let help = "Write it as the key approved of a configuration";
    let command = with_flag(alloc, command, "json", help)?;
    ended(
        alloc,
        command,
        files_arg(alloc, IMAGES_HELP).value_name("GFN=FILE"),
    )
}

/// Makes the whole command.
pub fn command<'a>(alloc: Global) -> Result<Command<'a>, AllocError>
    ensures app { IfOk result (λ c. app_of c ≡ kcore) }
{
    let replay = replay_command(alloc)?;
    let live = live_command(alloc)?;
    let custody = custody_command(alloc)?;
    let audit = audit_command(alloc)?;
    let redact = redact_command(alloc)?;
    let convert = convert_command(alloc)?;
    let measure = measure_command(alloc)?;
    let base = Command::new(alloc, "kcore")
        .no_binary_name(true)
        .version(VERSION)
        .about("Replay calls on the trusted core of a hypervisor")
        .after_help(EXAMPLES)
        .subcommand(replay)?;
    base.subcommand(live)?
        .subcommand(custody)?
        .subcommand(audit)?
        .subcommand(redact)?
        .subcommand(convert)?
        .subcommand(measure)
}
