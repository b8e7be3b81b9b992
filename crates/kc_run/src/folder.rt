//! Standard input and the files of the system, as a job opens them.
ghost use Rattle.std.specs.Prelude.{◌≡◌, false, None, option_map, string_bytes};
ghost use Rattle.kc_run.specs.Opened.{has_failed};

use crate::asked::{Asked, Kind};
use crate::files::{Files, Unopened};
use kc_explain::{Awaited, Masked, Noted, Progress, Shown};
use kc_texts::{Ahead, Failed, Headed, ReadFault, Source, Std};
use kc_trace::Head;
use std::alloc::Global;
use std::fmt;
use std::fs::{File, OpenFile};
use std::io::{ErrorKind, IsTerminal, Stdin};

/// What was opened to be read.
#[derive(Drop)]
pub enum Opened {
    /// Standard input, and whether it is at its end: a terminal that is read once more asks for more.
    Standard { input: Std<Stdin>, is_ended: bool },
    /// A file of the system.
    File(Std<File>),
}

impl Source for Opened {
    // No clause knows what the system gives.
    ghost left = { λ _. None };

    ghost failed = { λ opened. has_failed opened };

    fn read(&mut self, buffer: &mut [u8]) -> Result<usize, Failed> {
        match self {
            Opened::Standard { input, is_ended } => {
                if *is_ended {
                    return Ok(0);
                }
                let count = input.read(buffer)?;
                *is_ended = count == 0 && !buffer.is_empty();
                Ok(count)
            },
            Opened::File(file) => file.read(buffer),
        }
    }

    fn size_hint(&self) -> usize {
        match self {
            Opened::Standard { input, .. } => input.size_hint(),
            Opened::File(file) => file.size_hint(),
        }
    }
}

/// What the engines read, with what explains a fault of it.
#[derive(Drop)]
pub struct Named<'a> {
    /// The path; `None` for standard input.
    pub path: Option<String>,
    pub kind: Kind,
    /// Whether it is an ordinary file, which can be read again.
    pub is_regular: bool,
    pub source: Ahead<Noted<Shown<'a, Awaited<'a, Opened, HostRuntime>, HostRuntime>>>,
}

impl<'a> Named<'a> {
    /// What was kept of it.
    pub fn noted(&self) -> &Noted<Shown<'a, Awaited<'a, Opened, HostRuntime>, HostRuntime>> {
        &self.source.inner
    }

    pub fn opened(&self) -> &Opened {
        &self.noted().inner.inner.inner
    }
}

impl fmt::Display for Named<'_> {
    fn fmt<W: fmt::Write>(&self, f: &mut fmt::Formatter<W>) -> fmt::Result {
        match &self.path {
            Some(path) => write!(f, "{}", Masked(path.as_str())),
            None => f.write_str("standard input"),
        }
    }
}

impl<'a> Source for Named<'a> {
    ghost left = { λ _. None };

    ghost failed = { λ named. has_failed named.source.inner.inner.inner.inner };

    fn read(&mut self, buffer: &mut [u8]) -> Result<usize, Failed> {
        self.source.read(buffer)
    }

    fn size_hint(&self) -> usize {
        self.source.size_hint()
    }
}

impl<'a> Headed for Named<'a> {
    fn head(&mut self, alloc: Global) -> Result<Option<Head>, ReadFault> {
        self.source.head(alloc)
    }
}

/// The files of the system. Those that were read are kept to explain a fault, but of the volumes after the input only
/// the last: there may be more than files may be open.
#[derive(Drop)]
pub struct Folder<'a> {
    rt: &'a HostRuntime,
    asked: Asked<'a>,
    progress: &'a Progress<'a, HostRuntime>,
    /// How many files were opened.
    opened: usize,
    /// The path of the file that could not be opened, if there is one, and why.
    pub refused: Option<String>,
    pub why: ErrorKind,
    /// The files that were given back.
    pub read: Vec<Named<'a>>,
}

impl<'a> Folder<'a> {
    /// Makes a folder with no file open yet.
    pub fn new(
        rt: &'a HostRuntime,
        asked: Asked<'a>,
        progress: &'a Progress<'a, HostRuntime>,
    ) -> Folder<'a>
        ensures { result.refused ≡ None }
    {
        Folder {
            rt,
            asked,
            progress,
            opened: 0,
            refused: None,
            why: ErrorKind::NotFound,
            read: Vec::new(rt.alloc()),
        }
    }

    /// Standard input. If it waits for a terminal, it says so.
    pub fn standard_input(&self) -> Named<'a>
        ensures { has_failed result.source.inner.inner.inner.inner ≡ false }
    {
        let awaited = if self.rt.stderr().is_terminal() && self.rt.stdin().is_terminal() {
            Some(self.asked.kind.word())
        } else {
            None
        };
        let opened = Opened::Standard {
            input: Std::new(self.rt.stdin()),
            is_ended: false,
        };
        self.named(None, self.asked.kind, false, opened, awaited)
    }

    /// What was opened, with what is kept of it to explain a fault. If it is the trace or dump, standard error is a
    /// terminal and standard output is not, it shows how much of it was read.
    fn named(
        &self,
        path: Option<String>,
        kind: Kind,
        is_regular: bool,
        opened: Opened,
        awaited: Option<&'static str>,
    ) -> Named<'a>
        ensures { result.source.inner.inner.inner.inner ≡ opened }
    {
        let is_shown = (kind == self.asked.kind || kind == Kind::Volume)
            && self.rt.stderr().is_terminal()
            && !self.rt.stdout().is_terminal();
        let progress = if is_shown { Some(self.progress) } else { None };
        let source = Awaited::new(opened, self.rt, awaited);
        let shown = Shown::new(source, progress);
        let alloc = self.rt.alloc();
        let source = if !self.asked.explain {
            Noted::with_head(alloc, shown, 0)
        } else if kind.word() == Kind::Trace.word() && !is_regular {
            Noted::with_lines(alloc, shown, kind.kept())
        } else {
            Noted::with_head(alloc, shown, kind.kept())
        };
        Named {
            path,
            kind,
            is_regular,
            source: Ahead::new(alloc, source),
        }
    }
}

impl<'a> Files for Folder<'a> {
    type File = Named<'a>;

    ghost held = { λ _ _. None };

    ghost refused = { λ folder. option_map string_bytes folder.refused };

    fn open(&mut self, path: &str) -> Result<Named<'a>, Unopened> {
        let alloc = self.rt.alloc();
        let Ok(name) = String::from_str(alloc, path) else {
            return Err(Unopened::Memory);
        };
        let file = match File::open(self.rt, path) {
            Ok(file) => file,
            Err(error) => {
                self.refused = Some(name);
                self.why = error.kind();
                return Err(Unopened::Refused);
            },
        };
        let (size, is_regular) = match file.metadata() {
            Ok(metadata) => (metadata.len() as usize, metadata.is_file()),
            Err(_) => (0, false),
        };
        let opened = Opened::File(Std::with_size(file, size));
        let kind = self.asked.kind_after(self.opened);
        self.opened = self.opened.saturating_add(1);
        Ok(self.named(Some(name), kind, is_regular, opened, None))
    }

    fn close(&mut self, file: Named<'a>) {
        if file.kind == Kind::Volume
            && let Some(last) = self.read.iter_mut().find(|it| it.kind == Kind::Volume)
        {
            *last = file;
            return;
        }
        // If memory runs out, nothing is kept to explain a fault.
        let _ = self.read.push(file);
    }
}
