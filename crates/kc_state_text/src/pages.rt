//! The bytes of pages that are read.
ghost use Rattle.std.specs.Prelude.{ℕ, List, ◌≡◌, ◌≤◌, ◌*◌, ◌++◌, ◌∷◌, [], length, codes, true, false, IsTrue, IfOk, MatchOption};
ghost use Rattle.std.specs.Str.{bytes_eq};
ghost use Rattle.kc_types.specs.Limits.{page_size};
ghost use Rattle.kc_model.specs.State.{zero_page};
ghost use Rattle.kc_model.specs.Lawful.{IsPage};
ghost use Rattle.kc_snapshot.specs.Told.{bytes_of};
ghost use Rattle.kc_state_text.specs.StateText.{page_word, page_line};
ghost use Rattle.kc_state_text.specs.Reading.{LacksWhole, IsWhole, BeginsAs, IsOneMore, AreDigits};
ghost use Rattle.kc_state_text.specs.Refused.{HasNone};

use crate::line_reader::page_word;
use kc_lines::{decode_into, split_line};
use kc_page::PageBytes;
use kc_types::{CallBuffer, Memory, PAGE_SIZE, SecretBytes};
use std::alloc::Global;
use std::marker::Model;

/// A buffer for the bytes of a page, seen as these bytes.
#[derive(Drop)]
pub struct Buffer {
    bytes: SecretBytes,
}

impl Model for Buffer {
    ghost use Rattle.std.specs.Prelude.{ℕ, List, ◌≡◌, length};
    ghost use Rattle.kc_types.specs.Limits.{page_size};

    ghost Value = { List ℕ };

    ghost view = { λ b. b.bytes };

    ghost invariant = { λ b. length b.bytes ≡ page_size };
}

impl Buffer {
    /// Makes a buffer of zeros.
    pub fn new(alloc: Global) -> Result<Buffer, Memory> {
        Ok(Buffer {
            bytes: SecretBytes::new(vec![in alloc; 0u8; PAGE_SIZE as usize]?),
        })
    }
}

/// Decodes a word of digits into a zero page, through a buffer, and returns whether it spells the bytes of a page, not
/// all of them zero. `Memory` if memory for the page runs out.
fn decode_page(
    alloc: Global,
    word: &[u8],
    bytes: &mut [u8],
    page: &mut PageBytes,
) -> Result<bool, Memory>
    requires whole { length bytes.old ≡ page_size }
    requires zero { page.old.bytes ≡ zero_page }
    ensures spelled { IfOk result (λ valid. IsTrue valid → AreDigits word.now page.new.bytes) }
    ensures refused { IfOk result (λ valid. valid ≡ false → bytes_eq word.now (codes "-") ≡ false → LacksWhole IsPage page_word word.now) }
{
    if word.len() != 2 * PAGE_SIZE as usize {
        return Ok(false);
    }
    if !decode_into(word, bytes) {
        return Ok(false);
    }
    page.write(0, bytes, CallBuffer::none(alloc))?;
    Ok(!page.is_zero())
}

/// Fills a zero page from its spelling; returns false if the word does not spell a page. `Memory` if memory for the page
/// runs out.
fn fill_page(
    alloc: Global,
    word: &[u8],
    page: &mut PageBytes,
    buffer: &mut Buffer,
) -> Result<bool, Memory>
    requires { page.old.bytes ≡ zero_page }
    ensures spelled { IfOk result (λ valid. IsTrue valid → IsWhole IsPage page_word word.now page.new.bytes) }
    ensures refused { IfOk result (λ valid. valid ≡ false → LacksWhole IsPage page_word word.now) }
{
    if word == b"-".as_slice() {
        return Ok(true);
    }
    let valid = decode_page(alloc, word, buffer.bytes.as_mut_slice(), page)?;
    Ok(valid)
}

/// The bytes of pages, by their numbers.
#[derive(Drop)]
pub struct Pages {
    pages: Vec<PageBytes>,
}

impl Model for Pages {
    ghost use Rattle.std.specs.Prelude.{ℕ, List};
    ghost use Rattle.kc_snapshot.specs.Told.{bytes_of};

    ghost Value = { List (List ℕ) };

    ghost view = { λ p. bytes_of p.pages.items };
}

impl Pages {
    /// Makes an empty list of pages.
    pub fn new(alloc: Global) -> Pages
        ensures { result ≡ [] }
    {
        Pages {
            pages: Vec::new(alloc),
        }
    }

    /// Adds a page, if a word spells one.
    fn add(&mut self, alloc: Global, word: &[u8], buffer: &mut Buffer) -> Result<bool, Memory>
        ensures spelled { IfOk result (λ valid. IsTrue valid → IsOneMore IsPage page_word word.now self.old self.new) }
        ensures refused { IfOk result (λ valid. valid ≡ false → LacksWhole IsPage page_word word.now) }
    {
        self.pages.reserve(1)?;
        let mut page = PageBytes::sparse(alloc);
        if !fill_page(alloc, word, &mut page, buffer)? {
            return Ok(false);
        }
        self.pages.push(page).unwrap();
        Ok(true)
    }

    /// Adds a page, if the text begins with the line of one; returns what follows it.
    pub fn read<'a>(
        &mut self,
        alloc: Global,
        text: &'a [u8],
        buffer: &mut Buffer,
    ) -> Result<Option<&'a [u8]>, Memory>
        ensures { IfOk result (λ found. MatchOption found
            (HasNone IsPage page_line text.now)
            (λ rest. (bytes : List ℕ) × BeginsAs IsPage page_line text.now bytes rest.now × (self.new ≡ self.old ++ bytes ∷ []))) }
    {
        let Some((line, rest)) = split_line(text) else {
            return Ok(None);
        };
        let Some(word) = page_word(line) else {
            return Ok(None);
        };
        if self.add(alloc, word, buffer)? {
            Ok(Some(rest))
        } else {
            Ok(None)
        }
    }

    pub fn len(&self) -> usize
        ensures { result ≡ length self.now }
    {
        self.pages.len()
    }

    /// The pages.
    pub fn into_vec(self) -> Vec<PageBytes>
        ensures { bytes_of result.items ≡ self }
    {
        let Pages { pages } = self;
        pages
    }
}
