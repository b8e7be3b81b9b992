//! What the program is asked to do.
ghost use Rattle.std.specs.Prelude.{◌≡◌};
ghost use Rattle.kc_args.specs.Jobs.{path_of, origin_at};

use kc_texts::{CustodyForm, Origin, ReplayForm, Scope};

/// Where calls begin.
#[derive(Clone, Copy, Debug, PartialEq, Eq)]
pub enum Start<'a> {
    /// In the boot state of the configuration in this file, or of the default one.
    Boot(Option<&'a str>),
    /// In the state whose text is in this file.
    State(&'a str),
}

/// What is to be done with a trace or a dump.
#[derive(Clone, Copy, Debug, PartialEq, Eq)]
pub enum Action<'a> {
    /// Replay the trace with 1 to 64 workers, and compare the state that it leaves with the text in the file `to`, if
    /// that is named. Blank: with the pages of active VMs zeroed, in what is written and compared of the core.
    Replay {
        start: Start<'a>,
        to: Option<&'a str>,
        form: ReplayForm,
        is_blank: bool,
        workers: u32,
    },
    /// Replay the volumes of the input and of the files after it with 1 to 64 workers, and write each call with its
    /// reply.
    ReplayVolumes {
        start: Start<'a>,
        workers: u32,
    },
    /// Run the trace live, with the configuration in a file or the default one, and replay the history with 1 to 64
    /// workers.
    Live {
        config: Option<&'a str>,
        workers: u32,
    },
    /// Report the trace's custody.
    Custody {
        start: Start<'a>,
        form: CustodyForm,
        scope: Scope,
    },
    /// Audit the dump, and write each finding, or only the report.
    Audit {
        all: bool,
    },
    /// Write the trace without the bytes that VMs write.
    Redact,
    /// Write the trace without these, and without those that the host writes to frames of active VMs. The start is named.
    RedactHost {
        start: Start<'a>,
    },
    /// Write the trace with the head of the first volume on the machine in this file.
    Convert {
        config: &'a str,
    },
    /// Write the trace with the head of the volume after the one in this file.
    ConvertAfter {
        volume: &'a str,
    },
}

/// What the program is asked to do.
#[derive(Clone, Copy, Debug, PartialEq, Eq)]
pub struct Job<'a> {
    /// The file that is read, or standard input if none is named.
    pub input: Option<&'a str>,
    pub action: Action<'a>,
    /// Whether more is to be said of a fault.
    pub explain: bool,
}

/// A job, and the files of the volumes that come after its input, in order.
#[derive(Drop)]
pub struct Request<'a> {
    pub job: Job<'a>,
    pub after: Vec<&'a str>,
}

/// A boot image in a file.
#[derive(Clone, Copy, Debug, PartialEq, Eq)]
pub struct ImageFile<'a> {
    /// Its first guest frame.
    pub base: u32,
    pub path: &'a str,
}

/// Boot images that are to be measured as a whole.
#[derive(Drop)]
pub struct Measuring<'a> {
    /// 1 to 16 images, in the order in which they are set.
    pub images: Vec<ImageFile<'a>>,
    /// Whether the digest is written as a key of a configuration.
    pub json: bool,
    /// Whether more is to be said of a fault.
    pub explain: bool,
}

/// What a command line asks for.
#[derive(Drop)]
pub enum Wanted<'a> {
    Job(Request<'a>),
    Measure(Measuring<'a>),
}

impl<'a> Start<'a> {
    /// The file that holds what calls begin with, if one is named.
    pub fn path(self) -> Option<&'a str>
        ensures { result ≡ path_of self.entry }
    {
        match self {
            Start::Boot(config) => config,
            Start::State(path) => Some(path),
        }
    }

    /// What that file holds.
    pub fn origin(self) -> Origin
        ensures { result ≡ origin_at self.entry }
    {
        match self {
            Start::Boot(_) => Origin::Boot,
            Start::State(_) => Origin::State,
        }
    }
}
