//! The foot of a picture: the version of kcore, and what the picture is of.
ghost use Rattle.std.specs.Prelude.{◌≡◌, ◌++◌};
ghost use Rattle.hex.specs.Hex.{encode_lower};
ghost use Rattle.kc_picture.specs.Words.{Puts};
ghost use Rattle.kc_picture.specs.Foot.{start_words, trace_words, digests_words, numbers_words, count_words, chain_words, unseen_words, foot_words};

use crate::words::Text;
use kc_trace::{Chain, Digests, Heading, Order, StartDigest, VERSION, VolumeNumbers};
use std::alloc::Global;

/// Puts some words and a digest, in 64 digits.
fn put_digest(text: &mut Text, alloc: Global, words: &str, digest: &[u8])
    ensures { Puts text.old text.new (words.now ++ encode_lower digest.now) }
{
    text.put(words);
    match hex::encode(alloc, digest) {
        Ok(digits) => text.put(&digits),
        Err(_) => text.refuse(),
    }
}

/// Puts what calls begin with.
fn put_start(text: &mut Text, alloc: Global, start: &StartDigest)
    ensures { Puts text.old text.new (start_words start.now) }
{
    match start {
        StartDigest::Default => text.put(", default configuration"),
        StartDigest::Head => text.put(", machine in the head of the trace"),
        StartDigest::Config(digest) => put_digest(text, alloc, ", configuration SHA-256 ", digest),
        StartDigest::State(digest) => put_digest(text, alloc, ", state SHA-256 ", digest),
    }
}

/// Puts which trace was read, if it is named.
fn put_trace(text: &mut Text, alloc: Global, digest: &Option<[u8; 32]>)
    ensures { Puts text.old text.new (trace_words digest.now) }
{
    if let Some(digest) = digest {
        put_digest(text, alloc, ", trace SHA-256 ", digest);
    }
}

/// Puts which texts were read, if they are named.
fn put_digests(text: &mut Text, alloc: Global, digests: &Option<Digests>)
    ensures { Puts text.old text.new (digests_words digests.now) }
{
    if let Some(digests) = digests {
        put_trace(text, alloc, &digests.trace);
        put_start(text, alloc, &digests.start);
    }
}

/// Puts the number of the one volume that was read, or of the first and the last of several, by their heads.
fn put_numbers(text: &mut Text, count: u32, numbers: &VolumeNumbers)
    ensures { Puts text.old text.new (numbers_words count numbers.now) }
{
    if count == 0 {
        text.put_number(", volume ", numbers.first as u64);
    } else {
        text.put_number(", volumes ", numbers.first as u64);
        text.put_number(" to ", numbers.last as u64);
    }
}

/// Puts how many volumes without heads were read, if there were several.
fn put_count(text: &mut Text, count: u32)
    ensures { Puts text.old text.new (count_words count) }
{
    if count != 0 {
        text.put_number(", ", count as u64);
        text.put(" volumes, order not judged");
    }
}

/// Puts which volumes were read.
fn put_chain(text: &mut Text, chain: &Chain)
    ensures { Puts text.old text.new (chain_words chain.now) }
{
    match &chain.order {
        Order::NotJudged => put_count(text, chain.count),
        Order::Numbers(numbers) => {
            put_numbers(text, chain.count, numbers);
            text.put(", order by numbers alone");
        },
        Order::Digests(numbers) => put_numbers(text, chain.count, numbers),
    }
}

/// Puts that the machine's own accesses are not in the trace, if they are not.
fn put_unseen(text: &mut Text, is_unseen: bool)
    ensures { Puts text.old text.new (unseen_words is_unseen) }
{
    if is_unseen {
        text.put(", accesses unseen");
    }
}

/// Puts the words of a foot.
pub(crate) fn put_foot(text: &mut Text, alloc: Global, heading: &Heading)
    ensures { Puts text.old text.new (foot_words heading.now) }
{
    text.put("kcore ");
    text.put(VERSION);
    put_chain(text, &heading.chain);
    put_digests(text, alloc, &heading.digests);
    put_unseen(text, heading.is_unseen);
}
