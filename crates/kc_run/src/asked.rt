//! What a job asks for, as far as its files and their faults are concerned.
use kc_args::{Action, Job, Start};

/// What a text is to the job.
#[derive(Clone, Copy, Debug, PartialEq, Eq)]
pub enum Kind {
    Trace,
    /// A trace that is a volume after the input.
    Volume,
    /// A trace that is the volume before the input.
    Before,
    Dump,
    Config,
    /// A state in which calls begin.
    State,
    /// A state that is compared with the one that the calls leave.
    Compared,
    /// A boot image.
    Image,
}

impl Kind {
    /// The kind's name.
    pub fn word(self) -> &'static str {
        match self {
            Kind::Trace | Kind::Volume | Kind::Before => "trace",
            Kind::Dump => "dump",
            Kind::Config => "configuration",
            Kind::State | Kind::Compared => "state",
            Kind::Image => "boot image",
        }
    }

    /// Whether a job reads one text of this kind, on standard input or in a file.
    pub fn is_input(self) -> bool {
        match self {
            Kind::Trace | Kind::Dump => true,
            Kind::Volume
            | Kind::Before
            | Kind::Config
            | Kind::State
            | Kind::Compared
            | Kind::Image => false,
        }
    }

    /// How many of the first bytes are kept to explain a fault: of a state, which is secret, only the header. A dump of
    /// 65,536 frames has about 8 MB.
    pub fn kept(self) -> usize {
        match self {
            Kind::Trace | Kind::Volume | Kind::Before | Kind::State => 64,
            Kind::Dump => 16_777_216,
            Kind::Config => 65_536,
            Kind::Compared | Kind::Image => 0,
        }
    }
}

/// What a start is, if a file is named for it.
fn kind_of_start(start: Start<'_>) -> Option<Kind> {
    match start {
        Start::Boot(None) => None,
        Start::Boot(Some(_)) => Some(Kind::Config),
        Start::State(_) => Some(Kind::State),
    }
}

/// What a job asks for of its input and its configuration, and whether a fault is to be explained.
#[derive(Clone, Copy, Debug)]
pub struct Asked<'a> {
    /// What the input is.
    pub kind: Kind,
    input: Option<&'a str>,
    /// The files of the volumes after the input.
    after: &'a [&'a str],
    /// What the file is from which the calls go on, if one is named.
    start: Option<Kind>,
    pub explain: bool,
}

impl<'a> Asked<'a> {
    /// What this job asks for, with the files of the volumes after its input.
    pub fn of(job: &Job<'a>, after: &'a [&'a str]) -> Asked<'a> {
        let (kind, start) = match job.action {
            Action::Replay { start, .. }
            | Action::ReplayVolumes { start, .. }
            | Action::Custody { start, .. }
            | Action::RedactHost { start } => (Kind::Trace, kind_of_start(start)),
            Action::Live { config, .. } => (Kind::Trace, kind_of_start(Start::Boot(config))),
            Action::Convert { .. } => (Kind::Trace, Some(Kind::Config)),
            Action::ConvertAfter { .. } => (Kind::Trace, Some(Kind::Before)),
            Action::Redact => (Kind::Trace, None),
            Action::Audit { .. } => (Kind::Dump, None),
        };
        Asked {
            kind,
            input: job.input,
            after,
            start,
            explain: job.explain,
        }
    }

    /// What is asked for to measure boot images.
    pub fn of_images(explain: bool) -> Asked<'a> {
        Asked {
            kind: Kind::Image,
            input: None,
            after: &[],
            start: None,
            explain,
        }
    }

    /// Whether no file is named for what calls begin with.
    pub fn is_unnamed(&self) -> bool {
        self.start.is_none()
    }

    /// What the next file is to the job once this many were opened: the input comes first, if it is named, then what
    /// calls begin with, and then the volumes or what is compared. One path may be named for several of them.
    pub fn kind_after(&self, opened: usize) -> Kind {
        if self.kind == Kind::Image {
            return Kind::Image;
        }
        let before_start = usize::from(self.input.is_some());
        if opened < before_start {
            return self.kind;
        }
        match self.start {
            Some(kind) if opened == before_start => kind,
            _ if self.after.is_empty() => Kind::Compared,
            _ => Kind::Volume,
        }
    }
}
