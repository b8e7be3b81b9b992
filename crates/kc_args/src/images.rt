//! The boot images that a command line names.
ghost use Rattle.std.specs.Prelude.{◌≡◌, ◌==◌, IfOk, map, option_map};
ghost use Rattle.std.specs.List.{before_first, after_first};
ghost use Rattle.kc_args.specs.Images.{place_in, place_of, AreImagesOf};

use crate::job::ImageFile;
use kc_lines::read_number;
use kc_types::GFN_LIMIT;
use std::alloc::{AllocError, Global};

/// Splits a word at its first `=`; the second part is empty if there is none.
fn split_place<'a>(word: &'a str) -> (&'a str, &'a str)
    ensures front { result.0.now ≡ before_first (λ b. b == 61) word.now }
    ensures back { result.1.now ≡ after_first (λ b. b == 61) word.now }
{
    match word.split_once('=') {
        Some(parts) => parts,
        None => (word, ""),
    }
}

/// The image that a word names: its first guest frame in decimal, `=`, and the path of its file.
fn image_in<'a>(word: &'a str) -> Option<ImageFile<'a>>
    ensures { option_map place_of result ≡ place_in word.now }
{
    let (number, path) = split_place(word);
    let base = read_number(number.as_bytes())?;
    if base < GFN_LIMIT && !path.is_empty() {
        Some(ImageFile { base, path })
    } else {
        None
    }
}

/// The images that the words name, in order; `None` if one of them does not name an image.
pub(crate) fn images_of<'a>(
    alloc: Global,
    words: &[&'a str],
) -> Result<Option<Vec<ImageFile<'a>>>, AllocError>
    ensures { IfOk result (λ found. AreImagesOf (map (λ word. word.now) words.now) (option_map (λ images. images.items) found)) }
{
    let mut images = Vec::new(alloc);
    for word in words {
        let Some(image) = image_in(word) else {
            return Ok(None);
        };
        images.push(image)?;
    }
    Ok(Some(images))
}
