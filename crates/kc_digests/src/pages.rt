//! The digests of many pages.
ghost use Rattle.std.specs.Prelude.{◌≡◌, ◌↔◌, ◌+◌, ◌<◌, ◌≤◌, All, IfOk, IsTrue, length, map, replicate, slice_range, take};
ghost use Rattle.sha2.specs.Sha256.{sha256};
ghost use Rattle.kc_types.specs.Limits.{page_size};
ghost use Rattle.kc_model.specs.State.{zero_page};
ghost use Rattle.kc_digests.specs.Digests.{digest_by, digest_lent, digest_of_bytes};

use crate::bytes::Bytes;
use crate::measure::{BLOCK, lane_digest, last_blocks, run_blocks};
use crate::state::initial;
use crate::vector::{MOST_LANES, Vector};
use kc_page::PageBytes;
use kc_types::{Memory, PAGE_SIZE};
use rayon::prelude::par_chunks_mut_for_each;
use sha2::{Digest, Sha256};
use std::alloc::Global;
use std::simd::{u32x4, u32x8};
use std::thread::Threads;

/// A multiple of eight, so that only the last chunk has pages that are hashed one by one; about 300 microseconds of
/// work for a thread.
const PAGES_A_CHUNK: usize = 64;

/// A page of zero bytes.
const ZERO_PAGE: [u8; PAGE_SIZE as usize] = [0; PAGE_SIZE as usize];

/// The digest of a page of zero bytes.
#[tactic(auto, unfolding(kc_model::specs::State::zero_page))]
pub fn zero_digest() -> [u8; 32]
    ensures { result ≡ sha256 zero_page }
{
    Sha256::digest(&ZERO_PAGE)
}

/// How many pages are hashed side by side. Their digests are the same.
#[derive(Clone, Copy)]
pub enum Lanes {
    /// For vectors of 128 bits, which every processor of x86-64 has.
    Four,
    /// For vectors of 256 bits: faster if the program is built for processors that have them, and slower if it is not.
    Eight,
}

/// Writes the digests of pages of 4,096 bytes, in order, with a lane for each.
fn hash_pages<V: Vector>(pages: &[&[u8]], out: &mut [[u8; 32]])
    requires count { length pages.now ≡ V.LANES }
    requires whole { All (λ page. length page.now ≡ page_size) pages.now }
    requires room { length out.old ≡ V.LANES }
    ensures { out.new ≡ map (λ page. sha256 page.now) pages.now }
{
    let end = last_blocks(&[], PAGE_SIZE as u64);
    let ends = [&end[..]; MOST_LANES];
    let mut state = initial::<V>();
    run_blocks(&mut state, pages, PAGE_SIZE as usize / BLOCK);
    run_blocks(&mut state, &ends[..V::LANES], 1);
    'lanes: for lane in 0..V::LANES {
        out[lane] = lane_digest(&state, lane);
    }
}

/// Whether all bytes of all pages are zero.
fn are_zero<P: Bytes>(pages: &[P]) -> bool
    ensures { IsTrue result → map (digest_by P.bytes) pages.now ≡ replicate (length pages.now) (sha256 zero_page) }
{
    'pages: for i in 0..pages.len() {
        if !pages[i].bytes().is_zero() {
            return false;
        }
    }
    true
}

/// The bytes of each page, followed by pages of zero bytes.
fn bytes_of<P: Bytes>(pages: &[P]) -> [&[u8]; MOST_LANES]
    requires { length pages.now ≤ 8 }
    ensures bytes { map (λ page. page.now) (take (length pages.now) result) ≡ map P.bytes pages.now }
    ensures whole { All (λ page. length page.now ≡ page_size) (take (length pages.now) result) }
{
    let mut bytes = [&ZERO_PAGE[..]; MOST_LANES];
    'pages: for i in 0..pages.len() {
        bytes[i] = pages[i].bytes().as_slice();
    }
    bytes
}

/// Writes one digest in each place.
fn fill(out: &mut [[u8; 32]], digest: [u8; 32])
    ensures { out.new ≡ replicate (length out.old) digest }
{
    'places: for i in 0..out.len() {
        out[i] = digest;
    }
}

/// Writes the digests of as many pages as there are lanes, in order. The digest of a page of zero bytes is given, so
/// that pages that are all zero, as free ones are, cost no hashing.
fn digest_pages<V: Vector, P: Bytes>(pages: &[P], zero: [u8; 32], out: &mut [[u8; 32]])
    requires count { length pages.now ≡ V.LANES }
    requires zero { zero ≡ sha256 zero_page }
    requires room { length out.old ≡ V.LANES }
    ensures { out.new ≡ map (digest_by P.bytes) pages.now }
{
    if are_zero(pages) {
        fill(out, zero);
    } else {
        hash_pages::<V>(&bytes_of(pages)[..pages.len()], out);
    }
}

/// Writes the digest of each page, in order; as many as there are lanes are hashed at once.
fn write_by<V: Vector, P: Bytes>(pages: &[P], out: &mut [[u8; 32]])
    requires { length out.old ≡ length pages.now }
    ensures { out.new ≡ map (digest_by P.bytes) pages.now }
{
    let zero = zero_digest();
    let lanes = V::LANES;
    let mut at = 0;
    'turns: while pages.len() - at >= lanes {
        digest_pages::<V, P>(&pages[at..at + lanes], zero, &mut out[at..at + lanes]);
        at += lanes;
    }
    'rest: for i in at..pages.len() {
        out[i] = Sha256::digest(pages[i].bytes().as_slice());
    }
}

/// Writes the digest of each page, in order.
fn write_digests<P: Bytes>(pages: &[P], out: &mut [[u8; 32]], lanes: Lanes)
    requires { length out.old ≡ length pages.now }
    ensures { out.new ≡ map (digest_by P.bytes) pages.now }
{
    match lanes {
        Lanes::Four => write_by::<u32x4, P>(pages, out),
        Lanes::Eight => write_by::<u32x8, P>(pages, out),
    }
}

/// Computes the digest of each page, in order, with several threads.
fn digests<P: Bytes + Sync>(
    rt: &(impl Threads + Sync),
    alloc: Global,
    pages: &[P],
    lanes: Lanes,
) -> Result<Vec<[u8; 32]>, Memory>
    ensures { IfOk result (λ digests. digests.items ≡ map (digest_by P.bytes) pages.now) }
{
    let mut digests = vec![in alloc; [0u8; 32]; pages.len()]?;
    par_chunks_mut_for_each(
        rt,
        digests.as_mut_slice(),
        PAGES_A_CHUNK,
        |start: usize, out: &mut [[u8; 32]]|
            requires { start + length out.now ≤ length pages.now }
            ensures { out.exit.now ≡ map (digest_by P.bytes) (slice_range pages.entry.now start (start + length out.entry.now)) }
        { write_digests(&pages[start..start + out.len()], out, lanes) },
    );
    Ok(digests)
}

/// Computes the SHA-256 digest (FIPS 180-4) of each page that is lent, in order, with several threads, this many side by
/// side. `Memory` if memory runs out; if no thread can be started, this one does everything.
pub fn frame_digests(
    rt: &(impl Threads + Sync),
    alloc: Global,
    pages: &[&PageBytes],
    lanes: Lanes,
) -> Result<Vec<[u8; 32]>, Memory>
    // No clause can rule out that memory runs out: a test hashes pages.
    ensures { IfOk result (λ digests. digests.items ≡ map digest_lent pages.now) }
{
    digests(rt, alloc, pages, lanes)
}

/// Does what `frame_digests` does, for pages that follow one another in memory.
pub fn bytes_digests(
    rt: &(impl Threads + Sync),
    alloc: Global,
    pages: &[PageBytes],
    lanes: Lanes,
) -> Result<Vec<[u8; 32]>, Memory>
    // No clause can rule out that memory runs out: a test hashes pages.
    ensures { IfOk result (λ digests. digests.items ≡ map digest_of_bytes pages.now) }
{
    digests(rt, alloc, pages, lanes)
}
