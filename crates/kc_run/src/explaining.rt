//! What is said of a fault after its line.
use crate::asked::Kind;
use crate::folder::{Folder, Named, Opened};
use kc_config_text::ConfigTextFault;
use kc_dump_text::DumpFault;
use kc_explain::{
    Header, LineFault, LineFinder, Masked, Noted, TextLine, TraceLine, explain_config,
    fault_of_line, fault_of_text_line, look_of,
};
use kc_faults::TextFault;
use kc_state_text::StateFault;
use kc_texts::{Source, Std};
use kc_trace::{HeaderFault, TraceFault};
use kc_types::{Actor, BYTE_LIMIT, ConfigFault};
use std::fs::{File, OpenFile};
use std::io::{ErrorKind, Read};

const TOO_LONG: &str = "it has more than 1073741824 bytes";

/// What was read before there was a fault.
#[derive(Drop)]
pub struct Reading<'a> {
    /// The files that were given back.
    files: &'a [Named<'a>],
    /// The trace or dump, or the volume that is refused.
    input: &'a Named<'a>,
    /// Whether it is one of several volumes.
    is_volume: bool,
}

/// Why something can't be read.
fn reason(kind: ErrorKind) -> &'static str {
    match kind {
        ErrorKind::NotFound => "it is not there",
        ErrorKind::PermissionDenied => "reading it is not allowed",
        ErrorKind::IsADirectory => "it is a folder",
        _ => "reading it fails",
    }
}

/// Why a trace may not come where it is.
fn misplacing(fault: &HeaderFault) -> &'static str {
    match fault {
        HeaderFault::Machine(_) => {
            "its head names a machine, and it is not the one that its calls are to be made on"
        },
        HeaderFault::NotFirst => {
            "its head says that it is a later volume: it goes on --from the state that the one before it left"
        },
        HeaderFault::Number | HeaderFault::Digest => {
            "its head says after which volume it comes, and that is not the one before it; or, of the volume before a trace that is converted, it has the last number"
        },
        HeaderFault::Missing => {
            "it has no head, which would say its machine and where it comes: one is needed if what is before it has one, for redact --host without --config and --from, and in the volume that convert --after names"
        },
        HeaderFault::Unexpected => {
            "it has header 3, which says where it comes, and what is before it does not say where it ends; convert gives a head to a trace that has none"
        },
    }
}

/// Says why the file at a path can't be opened.
pub fn explain_open(rt: &HostRuntime, path: &str, kind: ErrorKind) {
    let (path, why) = (Masked(path), reason(kind));
    let _ = eprintln!(rt; "  {path}: {why}");
}

/// Why a file could not be read, if that is so. A read that failed fails once more.
fn unread_file(file: &Named<'_>) -> Option<&'static str> {
    if file.noted().total() > BYTE_LIMIT as u64 {
        return Some(TOO_LONG);
    }
    let Opened::File(file) = file.opened() else {
        return None;
    };
    if !file.failed {
        return None;
    }
    let mut file = &file.inner;
    let mut byte = [0u8; 1];
    match Read::read(&mut file, &mut byte) {
        Ok(_) => Some("reading it failed"),
        Err(error) => Some(reason(error.kind())),
    }
}

/// Why standard input could not be read, after this many bytes. If it is closed, the folder that takes its place is
/// read.
fn unread_input(rt: &HostRuntime, total: u64) -> &'static str {
    if total > BYTE_LIMIT as u64 {
        return TOO_LONG;
    }
    let mut byte = [0u8; 1];
    match rt.stdin().read(&mut byte) {
        Ok(_) => "reading it failed",
        Err(error) => match error.kind() {
            ErrorKind::IsADirectory => "it is a folder, or closed",
            _ => "it is closed, or reading it fails",
        },
    }
}

/// Says which key of a configuration is wrong, or where its text is not JSON, if it is kept whole.
fn explain_keys(rt: &HostRuntime, config: &Named<'_>) {
    let text = config.noted().head();
    if config.noted().total() == text.len() as u64 {
        explain_config(rt.alloc(), rt, text);
    }
}

/// Reads the file at a path again to its end, for its bad line and its actors.
fn noted_again(rt: &HostRuntime, path: &str) -> Option<Noted<Std<File>>> {
    let file = File::open(rt, path).ok()?;
    let mut noted = Noted::with_lines(rt.alloc(), Std::new(file), 0);
    let mut buffer = [0u8; 4096];
    for _ in 0..u64::MAX {
        if noted.inner.failed {
            break;
        }
        match noted.read(&mut buffer) {
            Ok(0) | Err(_) => break,
            Ok(_) => {},
        }
    }
    Some(noted)
}

/// Reads the line of this number in the file at a path again, and the line before it.
fn line_again(rt: &HostRuntime, path: &str, number: u32) -> Option<LineFinder> {
    let mut file = Std::new(File::open(rt, path).ok()?);
    let mut finder = LineFinder::new(rt.alloc(), u64::from(number));
    let mut buffer = [0u8; 4096];
    for _ in 0..u64::MAX {
        if file.failed {
            break;
        }
        match file.read(&mut buffer) {
            Ok(0) | Err(_) => break,
            Ok(count) => {
                if !finder.feed(&buffer[..count]) {
                    break;
                }
            },
        }
    }
    Some(finder)
}

/// Says why a line is not one of a dump or of a state's text.
fn explain_text_line(rt: &HostRuntime, file: &Named<'_>, number: u32) {
    let finder = match &file.path {
        Some(path) if file.is_regular => line_again(rt, path.as_str(), number),
        _ => {
            let mut finder = LineFinder::new(rt.alloc(), u64::from(number));
            let _ = finder.feed(file.noted().head());
            Some(finder)
        },
    };
    let Some(finder) = finder else { return };
    let (line, before) = (TextLine(finder.line()), TextLine(finder.before()));
    let why = fault_of_text_line(finder.line());
    let _ = eprintln!(rt; "  {line}\n  {why}");
    if why == LineFault::NotDue || why == LineFault::Empty {
        let _ = eprintln!(rt; "  the line before it: {before}");
    }
}

/// Says which actor of a trace, in the order in which they appear, is not one of a core's, and on which line it comes
/// first.
fn explain_actor<S: Source + Drop>(rt: &HostRuntime, noted: &Noted<S>, program: usize) {
    if let Some((Actor::Vcpu(vm, vcpu), line)) = noted.actor(program) {
        let _ = eprintln!(rt;
            "  line {line} is of virtual processor {vcpu} in slot {vm}: there are slots 0 to 15, with version 2 to 63, with version 3 to 1023, and in each virtual processors 0 to 7, with version 3 to 255"
        );
    }
}

/// Says which line of a trace is bad, and why.
fn explain_trace_line<S: Source + Drop>(rt: &HostRuntime, noted: &Noted<S>, fault: &TraceFault) {
    let line = TraceLine(noted.line());
    let _ = eprintln!(rt; "  {line}");
    if let TraceFault::BadLine(_) = fault {
        let why = fault_of_line(noted.line());
        let _ = eprintln!(rt; "  {why}");
    }
}

impl<'a> Reading<'a> {
    /// Gathers the files that were given back, and standard input; the volume of this number is refused, if there are
    /// several and one is.
    pub fn of(
        files: &'a Folder<'a>,
        standard: &'a Named<'a>,
        volume: Option<usize>,
    ) -> Reading<'a> {
        let files = files.read.as_slice();
        let is_after = volume.unwrap_or(1) > 1;
        let is_second = files.iter().any(|file| file.kind == Kind::Before);
        let input = files
            .iter()
            .find(|file| match file.kind {
                Kind::Before => volume == Some(1),
                Kind::Volume => is_after,
                kind => kind.is_input() && (is_second || !is_after),
            })
            .unwrap_or(standard);
        Reading {
            files,
            input,
            is_volume: volume.is_some(),
        }
    }

    /// The file of this kind, if one was read.
    fn file(&self, kind: Kind) -> Option<&'a Named<'a>> {
        self.files.iter().find(|file| file.kind == kind)
    }

    /// Whether the trace has a head.
    pub fn has_head(&self) -> bool {
        self.input.noted().head().starts_with(b"kcore-trace 3\n")
    }

    /// Says more about a fault, after its line.
    pub fn explain(&self, rt: &HostRuntime, fault: &TextFault) {
        match fault {
            TextFault::Trace(fault) => self.explain_trace(rt, fault),
            TextFault::Dump(DumpFault::NoHeader) => {
                let look = look_of(self.input.noted().head(), Header::Dump);
                let _ = eprintln!(rt; "  {} is not a dump: {look}", self.input);
            },
            TextFault::Dump(DumpFault::BadLine(number)) => {
                explain_text_line(rt, self.input, *number);
            },
            TextFault::State(fault) => self.explain_state(rt, fault),
            TextFault::Config(fault) => self.explain_config(rt, fault),
            TextFault::BadActor(program) => match self.again(rt) {
                Some(noted) => explain_actor(rt, &noted, *program),
                None => explain_actor(rt, self.input.noted(), *program),
            },
            TextFault::NoSlot(_) => {
                let _ = eprintln!(rt;
                    "  slots are numbered from 0: version 1 has 16, version 2 has 64"
                );
            },
            TextFault::NoText => {
                let _ = eprintln!(rt;
                    "  leave out --dump, --state and --to to get the replies; custody works too"
                );
            },
            TextFault::Read => self.explain_read(rt),
            _ => {},
        }
    }

    /// Says which line of the state that was compared is the first that differs, and shows it if it can be read again.
    pub fn explain_difference(&self, rt: &HostRuntime, number: usize) {
        let Some(file) = self.file(Kind::Compared) else {
            return;
        };
        let _ = eprintln!(rt; "  {file}: line {number} is the first that differs");
        let again = match (&file.path, u32::try_from(number)) {
            (Some(path), Ok(number)) if file.is_regular => line_again(rt, path.as_str(), number),
            _ => None,
        };
        if let Some(finder) = again
            && !finder.line().is_empty()
        {
            let line = TextLine(finder.line());
            let _ = eprintln!(rt; "  {line}");
        }
    }

    /// Reads the trace again, if it is an ordinary file that was named.
    fn again(&self, rt: &HostRuntime) -> Option<Noted<Std<File>>> {
        match &self.input.path {
            Some(path) if self.input.is_regular => noted_again(rt, path.as_str()),
            _ => None,
        }
    }

    fn explain_trace(&self, rt: &HostRuntime, fault: &TraceFault) {
        match fault {
            TraceFault::NoHeader => {
                let look = look_of(self.input.noted().head(), Header::Trace);
                let _ = eprintln!(rt; "  {} is not a trace: {look}", self.input);
            },
            TraceFault::BadLine(_) | TraceFault::NoNewline => match self.again(rt) {
                Some(noted) => explain_trace_line(rt, &noted, fault),
                None => explain_trace_line(rt, self.input.noted(), fault),
            },
            TraceFault::TooManyCalls if self.is_volume => {
                let _ = eprintln!(rt;
                    "  a volume has up to 65536 calls, and the volumes of one run have up to 67108864"
                );
            },
            TraceFault::TooManyCalls => {
                let _ = eprintln!(rt;
                    "  a trace has up to 65536 calls: a longer life is replayed in volumes, each --from the --state that the one before it left"
                );
            },
            TraceFault::Misplaced(fault) => {
                let why = misplacing(fault);
                let _ = eprintln!(rt; "  {}: {why}", self.input);
            },
            TraceFault::Memory => {},
        }
    }

    fn explain_state(&self, rt: &HostRuntime, fault: &StateFault) {
        let Some(state) = self.file(Kind::State) else {
            return;
        };
        match fault {
            StateFault::NoHeader => {
                let look = look_of(state.noted().head(), Header::State);
                let _ = eprintln!(rt; "  {state} is not a state's text: {look}");
            },
            StateFault::BadLine(number) => explain_text_line(rt, state, *number),
            StateFault::Sizes => {
                let _ = eprintln!(rt;
                    "  {state}: the slots and frames of line 2 are not those of the dump, or the host and the core have more than all frames"
                );
            },
            StateFault::Found(_) => {
                let _ = eprintln!(rt;
                    "  {state}: sed -n '/^kcore-dump /,$p' | kcore audit --all lists all that is found in its dump"
                );
            },
            _ => {},
        }
    }

    fn explain_config(&self, rt: &HostRuntime, fault: &ConfigTextFault) {
        let Some(config) = self.file(Kind::Config) else {
            return;
        };
        match fault {
            ConfigTextFault::Config(ConfigFault::Frames) => {
                let _ = eprintln!(rt;
                    "  {config}: frames is from 1 to 8192, with version 2 to 65536, with version 3 to 268435456"
                );
            },
            ConfigTextFault::Config(ConfigFault::CoreHost) => {
                let _ = eprintln!(rt; "  {config}: core and host together are at most frames");
            },
            ConfigTextFault::Config(ConfigFault::Leaves) => {
                let _ = eprintln!(rt;
                    "  {config}: leaves is from 1 to 64, with version 3 to 262144"
                );
            },
            ConfigTextFault::Config(ConfigFault::TooManyDigests) => {
                let _ = eprintln!(rt; "  {config}: approved has at most 64 entries");
            },
            ConfigTextFault::NotJson => {
                let look = look_of(config.noted().head(), Header::None);
                let _ = eprintln!(rt; "  {config}: {look}");
                explain_keys(rt, config);
            },
            ConfigTextFault::BadShape => explain_keys(rt, config),
            ConfigTextFault::Memory => {},
        }
    }

    /// Says why a file could not be read, or else why standard input could not be.
    fn explain_read(&self, rt: &HostRuntime) {
        for file in self.files.iter().rev() {
            if let Some(why) = unread_file(file) {
                let _ = eprintln!(rt; "  {file}: {why}");
                return;
            }
        }
        let why = unread_input(rt, self.input.noted().total());
        let _ = eprintln!(rt; "  {}: {why}", self.input);
    }
}
