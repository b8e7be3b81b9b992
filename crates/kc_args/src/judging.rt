//! What options ask for, unless they contradict each other.
ghost use Rattle.std.specs.Prelude.{◌≡◌};
ghost use Rattle.kc_args.specs.Jobs.{start_of, replay_form, is_alone, volumes_action, summary_of, picture_of, custody_form, named_by, redact_action, convert_action, action_of};

use crate::clash::Clash;
use crate::job::{Action, Start};
use crate::options::Options;
use kc_remarks::Remarks;
use kc_texts::{CustodyForm, Named, ReplayForm, Scope};

/// Where calls begin, by `--config` and `--from`; nothing for both.
fn start_of<'a>(config: Option<&'a str>, from: Option<&'a str>) -> Option<Start<'a>>
    ensures { result ≡ start_of config.entry from.entry }
{
    match (config, from) {
        (config, None) => Some(Start::Boot(config)),
        (None, Some(from)) => Some(Start::State(from)),
        (Some(_), Some(_)) => None,
    }
}

/// What is written of a replay, by `--lines`, `--dump` and `--state`.
fn replay_form(lines: bool, dump: bool, state: bool) -> Result<ReplayForm, Clash>
    ensures { result ≡ replay_form lines dump state }
{
    match (lines, dump, state) {
        (false, false, false) => Ok(ReplayForm::Replies),
        (true, false, false) => Ok(ReplayForm::Lines),
        (false, true, false) => Ok(ReplayForm::Dump),
        (false, false, true) => Ok(ReplayForm::State),
        (_, true, true) => Err(Clash::DumpState),
        (true, true, false) => Err(Clash::LinesDump),
        (true, false, true) => Err(Clash::LinesState),
    }
}

/// Whether nothing that is asked for has a core's pages in it, which `--blank` zeroes.
fn is_alone(blank: bool, form: ReplayForm, to: Option<&str>) -> bool
    ensures { result ≡ is_alone blank form to.entry }
{
    match (blank, form, to) {
        (true, ReplayForm::Replies | ReplayForm::Lines, None) => true,
        _ => false,
    }
}

/// What is done with several volumes, of which only the lines can be written.
fn volumes_action<'a>(
    form: ReplayForm,
    to: Option<&'a str>,
    start: Start<'a>,
    workers: u32,
) -> Result<Action<'a>, Clash>
    ensures { result ≡ volumes_action form to.entry start.entry workers }
{
    match (form, to) {
        (ReplayForm::Lines, None) => Ok(Action::ReplayVolumes { start, workers }),
        (ReplayForm::Lines, Some(_)) => Err(Clash::ToVolumes),
        (ReplayForm::Replies, _) => Err(Clash::VolumesAlone),
        (ReplayForm::Dump, _) => Err(Clash::DumpVolumes),
        (ReplayForm::State, _) => Err(Clash::StateVolumes),
    }
}

/// A summary, which has no remarks.
fn summary_of(remarks: Remarks) -> Result<CustodyForm, Clash>
    ensures { result ≡ summary_of remarks.refused remarks.accesses }
{
    match (remarks.refused, remarks.accesses) {
        (true, _) => Err(Clash::SummaryRefused),
        (false, true) => Err(Clash::SummaryAccesses),
        (false, false) => Ok(CustodyForm::Summary),
    }
}

/// A picture, which has no remarks.
fn picture_of(remarks: Remarks) -> Result<CustodyForm, Clash>
    ensures { result ≡ picture_of remarks.refused remarks.accesses }
{
    match (remarks.refused, remarks.accesses) {
        (true, _) => Err(Clash::SvgRefused),
        (false, true) => Err(Clash::SvgAccesses),
        (false, false) => Ok(CustodyForm::Picture),
    }
}

/// What is written of custody, by `--summary`, `--svg` and `--html`, and by `--refused` and `--accesses`, both of which
/// `--html` implies.
fn custody_form(
    summary: bool,
    svg: bool,
    html: bool,
    remarks: Remarks,
) -> Result<CustodyForm, Clash>
    ensures { result ≡ custody_form summary svg html remarks }
{
    match (summary, svg, html) {
        (false, false, false) => Ok(CustodyForm::Changes(remarks)),
        (false, false, true) => Ok(CustodyForm::Html),
        (true, true, _) => Err(Clash::SummarySvg),
        (true, false, true) => Err(Clash::SummaryHtml),
        (true, false, false) => summary_of(remarks),
        (false, true, true) => Err(Clash::SvgHtml),
        (false, true, false) => picture_of(remarks),
    }
}

/// Which texts are named by their digests, by `--digests`: the default configuration has no text to be named.
fn named_by(digests: bool, start: Start<'_>) -> Named
    ensures { result ≡ named_by digests start.entry }
{
    match (digests, start) {
        (false, _) => Named::Nothing,
        (true, Start::Boot(None)) => Named::Trace,
        (true, _) => Named::Both,
    }
}

/// Whose writes are blanked, by `--host`: without it no start may be named.
fn redact_action<'a>(host: bool, start: Start<'a>) -> Result<Action<'a>, Clash>
    ensures { result ≡ redact_action host start.entry }
{
    match (host, start) {
        (true, start) => Ok(Action::RedactHost { start }),
        (false, Start::Boot(None)) => Ok(Action::Redact),
        (false, Start::Boot(Some(_))) => Err(Clash::ConfigAlone),
        (false, Start::State(_)) => Err(Clash::FromAlone),
    }
}

/// Which head a trace is given, by `--config` and `--after`: one of them is needed.
fn convert_action<'a>(config: Option<&'a str>, after: Option<&'a str>) -> Result<Action<'a>, Clash>
    ensures { result ≡ convert_action config.entry after.entry }
{
    match (config, after) {
        (Some(config), None) => Ok(Action::Convert { config }),
        (None, Some(volume)) => Ok(Action::ConvertAfter { volume }),
        (Some(_), Some(_)) => Err(Clash::ConfigAfter),
        (None, None) => Err(Clash::ConvertAlone),
    }
}

/// What these options ask for, or what contradicts itself in them first.
pub(crate) fn action_of<'a>(options: Options<'a>) -> Result<Action<'a>, Clash>
    ensures { result ≡ action_of options.entry }
{
    match options {
        Options::Replay {
            config,
            from,
            to,
            workers,
            lines,
            dump,
            state,
            blank,
            several,
        } => {
            let form = replay_form(lines, dump, state)?;
            let Some(start) = start_of(config, from) else {
                return Err(Clash::ReplayConfigFrom);
            };
            if is_alone(blank, form, to) {
                return Err(Clash::BlankAlone);
            }
            if several {
                return volumes_action(form, to, start, workers);
            }
            Ok(Action::Replay {
                start,
                to,
                form,
                is_blank: blank,
                workers,
            })
        },
        Options::Live { config, workers } => Ok(Action::Live { config, workers }),
        Options::Custody {
            config,
            from,
            vm,
            summary,
            svg,
            html,
            refused,
            accesses,
            unseen,
            digests,
        } => {
            let Some(start) = start_of(config, from) else {
                return Err(Clash::CustodyConfigFrom);
            };
            let remarks = Remarks { refused, accesses };
            let form = custody_form(summary, svg, html, remarks)?;
            if unseen && accesses {
                return Err(Clash::UnseenAccesses);
            }
            let scope = Scope {
                vm,
                is_unseen: unseen,
                named: named_by(digests, start),
            };
            Ok(Action::Custody { start, form, scope })
        },
        Options::Audit { all } => Ok(Action::Audit { all }),
        Options::Redact { config, from, host } => {
            let Some(start) = start_of(config, from) else {
                return Err(Clash::RedactConfigFrom);
            };
            redact_action(host, start)
        },
        Options::Convert { config, after } => convert_action(config, after),
    }
}
