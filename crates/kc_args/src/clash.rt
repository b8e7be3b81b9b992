//! Options that contradict each other.
ghost use Rattle.std.specs.Prelude.{◌≡◌};
ghost use Rattle.kc_args.specs.Clashes.{first_option, link_of, other_option, usage_of, clash_text};

use arrayvec::ArrayString;

/// Two options of a command that exclude each other, or one that needs another, or a command that needs one.
#[derive(Clone, Copy, Debug, PartialEq, Eq)]
pub enum Clash {
    /// `replay --dump --state`
    DumpState,
    /// `replay --lines --dump`
    LinesDump,
    /// `replay --lines --state`
    LinesState,
    /// `replay --blank` with nothing that has a core's pages in it.
    BlankAlone,
    /// `replay FILE FILE` without `--lines`
    VolumesAlone,
    /// `replay --dump FILE FILE`
    DumpVolumes,
    /// `replay --state FILE FILE`
    StateVolumes,
    /// `replay --lines --to PATH FILE FILE`
    ToVolumes,
    /// `replay --config PATH --from PATH`
    ReplayConfigFrom,
    /// `custody --config PATH --from PATH`
    CustodyConfigFrom,
    /// `custody --summary --svg`
    SummarySvg,
    /// `redact --config PATH --from PATH`
    RedactConfigFrom,
    /// `redact --config PATH` without `--host`
    ConfigAlone,
    /// `redact --from PATH` without `--host`
    FromAlone,
    /// `custody --summary --refused`
    SummaryRefused,
    /// `custody --summary --accesses`
    SummaryAccesses,
    /// `custody --svg --refused`
    SvgRefused,
    /// `custody --svg --accesses`
    SvgAccesses,
    /// `custody --summary --html`
    SummaryHtml,
    /// `custody --svg --html`
    SvgHtml,
    /// `custody --unseen --accesses`
    UnseenAccesses,
    /// `convert --config PATH --after PATH`
    ConfigAfter,
    /// `convert` with neither of these.
    ConvertAlone,
    /// `measure` without an image.
    MeasureAlone,
    /// `measure` with more than 16 images.
    ManyImages,
    /// `measure` with a word that does not name an image.
    NoImage,
}

impl Clash {
    fn first(&self) -> &'static str
        ensures { result.now ≡ first_option self.now }
    {
        match self {
            Clash::DumpState | Clash::DumpVolumes => "--dump",
            Clash::LinesDump | Clash::LinesState => "--lines",
            Clash::BlankAlone => "--blank",
            Clash::VolumesAlone => "FILE FILE ..",
            Clash::StateVolumes => "--state",
            Clash::ToVolumes => "--to",
            Clash::ReplayConfigFrom
            | Clash::CustodyConfigFrom
            | Clash::RedactConfigFrom
            | Clash::ConfigAlone
            | Clash::ConfigAfter => "--config",
            Clash::SummarySvg
            | Clash::SummaryRefused
            | Clash::SummaryAccesses
            | Clash::SummaryHtml => "--summary",
            Clash::FromAlone => "--from",
            Clash::SvgRefused | Clash::SvgAccesses | Clash::SvgHtml => "--svg",
            Clash::UnseenAccesses => "--unseen",
            Clash::ConvertAlone => "convert",
            Clash::MeasureAlone | Clash::ManyImages => "measure",
            Clash::NoImage => "GFN=FILE",
        }
    }

    fn link(&self) -> &'static str
        ensures { result.now ≡ link_of self.now }
    {
        match self {
            Clash::BlankAlone | Clash::ConvertAlone => "' needs one of '",
            Clash::VolumesAlone
            | Clash::ConfigAlone
            | Clash::FromAlone
            | Clash::MeasureAlone
            | Clash::NoImage => "' needs '",
            _ => "' cannot be used with '",
        }
    }

    fn other(&self) -> &'static str
        ensures { result.now ≡ other_option self.now }
    {
        match self {
            Clash::DumpState | Clash::LinesState => "--state",
            Clash::LinesDump => "--dump",
            Clash::BlankAlone => "--dump', '--state' and '--to",
            Clash::VolumesAlone => "--lines",
            Clash::DumpVolumes | Clash::StateVolumes | Clash::ToVolumes => "FILE FILE ..",
            Clash::ReplayConfigFrom | Clash::CustodyConfigFrom | Clash::RedactConfigFrom =>
                "--from",
            Clash::SummarySvg => "--svg",
            Clash::ConfigAlone | Clash::FromAlone => "--host",
            Clash::SummaryRefused | Clash::SvgRefused => "--refused",
            Clash::SummaryAccesses | Clash::SvgAccesses | Clash::UnseenAccesses => "--accesses",
            Clash::SummaryHtml | Clash::SvgHtml => "--html",
            Clash::ConfigAfter => "--after",
            Clash::ConvertAlone => "--config' and '--after",
            Clash::MeasureAlone => "GFN=FILE",
            Clash::ManyImages => "more than 16 images",
            Clash::NoImage => "a frame number from 0 to 134217727, = and a path",
        }
    }

    fn usage(&self) -> &'static str
        ensures { result.now ≡ usage_of self.now }
    {
        match self {
            Clash::DumpState
            | Clash::LinesDump
            | Clash::LinesState
            | Clash::BlankAlone
            | Clash::VolumesAlone
            | Clash::DumpVolumes
            | Clash::StateVolumes
            | Clash::ToVolumes
            | Clash::ReplayConfigFrom => "replay [OPTIONS] [FILE]...",
            Clash::RedactConfigFrom | Clash::ConfigAlone | Clash::FromAlone =>
                "redact [OPTIONS] [FILE]",
            Clash::ConfigAfter | Clash::ConvertAlone => "convert [OPTIONS] [FILE]",
            Clash::MeasureAlone | Clash::ManyImages | Clash::NoImage =>
                "measure [OPTIONS] GFN=FILE...",
            _ => "custody [OPTIONS] [FILE]...",
        }
    }

    /// What is reported of it, in the form in which a wrong command line is reported.
    pub fn text(&self) -> ArrayString<256>
        ensures { result.bytes ≡ clash_text self.now }
    {
        let mut text = ArrayString::new();
        text.push_str("error: the argument '");
        text.push_str(self.first());
        text.push_str(self.link());
        text.push_str(self.other());
        text.push_str("'\n\nUsage: kcore ");
        text.push_str(self.usage());
        text.push_str("\n\nFor more information, try '--help'.\n");
        text
    }
}
