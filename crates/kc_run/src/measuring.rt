//! A run of the program that measures boot images.
ghost use Rattle.std.specs.Prelude.{◌≡◌, ◌≤◌, false, length, None};
ghost use Rattle.kc_run.specs.Endings.{took};
ghost use Rattle.kc_run.specs.Measures.{AddsFiles, Measures, IsMeasureRun};

use crate::beginning::open;
use crate::ending::{Ending, Exit, end};
use crate::files::Files;
use kc_args::{ImageFile, Measuring};
use kc_cli::LaunchMeasure;
use kc_faults::TextFault;
use kc_texts::Sink;
use std::alloc::Global;

/// Adds the images in these files, the last of so many, to a measurement, up to the first that is empty; returns the
/// ending if one is.
fn add_files<F: Files>(
    alloc: Global,
    files: &mut F,
    measure: &mut LaunchMeasure,
    images: &[ImageFile<'_>],
    all: usize,
) -> Result<Option<Ending>, TextFault>
    requires files { F.refused files.old ≡ None }
    requires within { length images.now ≤ all }
    ensures { AddsFiles F.File.left F.File.failed (F.held files.old) (F.refused files.new) all measure.old measure.new
        images.now result }
{
    let Some((image, more)) = images.split_first() else {
        return Ok(None);
    };
    let mut file = open(files, image.path)?;
    let added = measure.add(alloc, image.base, &mut file);
    files.close(file);
    if !added? {
        return Ok(Some(Ending::EmptyImage {
            number: all - more.len(),
        }));
    }
    add_files(alloc, files, measure, more, all)
}

/// Measures the images, and writes what is asked for.
fn measure<F: Files, K: Sink>(
    alloc: Global,
    files: &mut F,
    measuring: &Measuring<'_>,
    out: &mut K,
) -> Result<Ending, TextFault>
    requires files { F.refused files.old ≡ None }
    requires out { K.failed out.old ≡ false }
    ensures { Measures F.File.left F.File.failed (F.held files.old) (F.refused files.new) measuring.now
        (took K.failed K.taken out.old out.new) (out.new ≡ out.old) result }
{
    let images = measuring.images.as_slice();
    let mut measure = LaunchMeasure::new();
    let refusal = add_files(alloc, files, &mut measure, images, images.len())?;
    match refusal {
        Some(ending) => Ok(ending),
        None => match measure.give(alloc, measuring.json, out) {
            Ok(()) => Ok(Ending::Done),
            Err(fault) => Err(fault),
        },
    }
}

/// Measures the boot images that a command line names: opens each file in turn, writes their launch measurement onto
/// the sink once all were read, and onto the error sink the line of a fault or of an image that is empty. Each file that
/// was opened is given back.
pub fn run_measure<F: Files, K: Sink, L: Sink>(
    alloc: Global,
    files: &mut F,
    measuring: &Measuring<'_>,
    out: &mut K,
    err: &mut L,
) -> Exit
    requires files { F.refused files.old ≡ None }
    requires out { K.failed out.old ≡ false }
    requires err { L.failed err.old ≡ false }
    ensures { IsMeasureRun F.File.left F.File.failed (F.held files.old) (F.refused files.new) measuring.now
        (took K.failed K.taken out.old out.new) (out.new ≡ out.old)
        (took L.failed L.taken err.old err.new) (err.new ≡ err.old) result.status result.fault }
{
    let ended = measure(alloc, files, measuring, out);
    end(ended, err)
}
