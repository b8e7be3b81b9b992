//! The volumes that were read in one run: which ones they are, a line for each (JSON Lines, RFC 8259), and which one a
//! line is in.
ghost use Rattle.std.specs.Prelude.{◌≡◌, ◌≤◌, ◌+◌, ◌++◌, codes, length, vec_len, vec_capacity, OnOk};
ghost use Rattle.kc_trace.specs.CustodyText.{AreInLine, volume_of, member, head_number_text, numbers_text, order_text, volume_count_text, judged_text, chain_text, volume_line, volumes_text, longest_chain, longest_place, longest_volume};

use crate::custody_writer::{push_member, push_trace};
use kc_lines::push_bytes;
use kc_types::Memory;

/// More bytes than the line of a volume, with its newline.
const LONGEST_VOLUME: usize = 256;

/// The most bytes that the place of a volume has, with what comes before it.
pub const LONGEST_PLACE: usize = 30;

/// A volume that was read.
#[derive(Clone, Copy, Debug, PartialEq, Eq)]
pub struct VolumeEntry {
    /// The line of its first call, as lines run on through all volumes: 2 for that of the first.
    pub line: u32,
    /// How many calls it has.
    pub calls: u32,
    /// Its number in its history, counted from 1, if it has a head, which says it.
    pub number: Option<u32>,
    /// Whether it lacks bytes that the host wrote, as its head says.
    pub is_host_redacted: bool,
    /// The SHA-256 digest (FIPS 180-4) of its text, if texts are named.
    pub digest: Option<[u8; 32]>,
}

/// The numbers of the first and the last of some volumes, as their heads say.
#[derive(Clone, Copy, Debug, PartialEq, Eq)]
pub struct VolumeNumbers {
    pub first: u32,
    pub last: u32,
}

/// By what it was judged that each volume follows the one before it.
#[derive(Clone, Copy, Debug, PartialEq, Eq)]
pub enum Order {
    /// By nothing: they have no heads.
    NotJudged,
    /// By their numbers, and not everywhere by the digest in the next head, since one lacks bytes that the host wrote.
    Numbers(VolumeNumbers),
    /// By their numbers and the digests in their heads.
    Digests(VolumeNumbers),
}

/// Which volumes a report is of, and by what their order was judged.
#[derive(Clone, Copy, Debug, PartialEq, Eq)]
pub struct Chain {
    /// How many volumes were read, if there were several; otherwise 0.
    pub count: u32,
    pub order: Order,
}

/// The place of the volume that a line is in: 1 for the first that was read, and 0 for a line before all volumes.
pub fn volume_of(volumes: &[VolumeEntry], line: u32) -> usize
    requires { AreInLine volumes.now }
    ensures { result ≡ volume_of volumes.now line }
{
    volumes.partition_point(|volume| volume.line <= line)
}

/// Appends the place of a volume, with what the lines of its calls begin with, for which there is room: memory does not
/// grow.
pub fn push_place(text: &mut Vec<u8>, place: usize)
    requires { vec_len text.old + longest_place ≤ vec_capacity text.old }
    ensures items { text.new.items ≡ text.old.items ++ member (codes "{\"volume\":") place }
    ensures len { vec_len text.new ≤ vec_len text.old + longest_place }
    ensures capacity { vec_capacity text.old ≤ vec_capacity text.new }
{
    push_member(text, b"{\"volume\":", place);
}

/// Appends the number of a volume in its history, if its head says it.
fn push_head_number(text: &mut Vec<u8>, number: Option<u32>)
    requires { vec_len text.old + 30 ≤ vec_capacity text.old }
    ensures items { text.new.items ≡ text.old.items ++ head_number_text number }
    ensures len { vec_len text.new ≤ vec_len text.old + 30 }
    ensures capacity { vec_capacity text.old ≤ vec_capacity text.new }
{
    if let Some(number) = number {
        push_member(text, b",\"number\":", number as usize);
    }
}

/// Appends the line of a volume, with its newline.
fn push_volume(text: &mut Vec<u8>, place: usize, volume: &VolumeEntry)
    requires { vec_len text.old + longest_volume ≤ vec_capacity text.old }
    ensures line { text.new.items ≡ text.old.items ++ volume_line place volume.now }
    ensures capacity { vec_capacity text.old ≤ vec_capacity text.new }
{
    push_place(text, place);
    push_member(text, b",\"line\":", volume.line as usize);
    push_member(text, b",\"calls\":", volume.calls as usize);
    push_head_number(text, volume.number);
    push_trace(text, &volume.digest);
    push_bytes(text, b"}\n");
}

/// Appends the numbers of the first and the last volume.
fn push_numbers(text: &mut Vec<u8>, numbers: &VolumeNumbers)
    requires { vec_len text.old + 57 ≤ vec_capacity text.old }
    ensures items { text.new.items ≡ text.old.items ++ numbers_text numbers.now }
    ensures len { vec_len text.new ≤ vec_len text.old + 57 }
    ensures capacity { vec_capacity text.old ≤ vec_capacity text.new }
{
    push_member(text, b",\"first\":", numbers.first as usize);
    push_member(text, b",\"last\":", numbers.last as usize);
}

/// Appends by what their order was judged, if it is not by numbers and digests.
fn push_order(text: &mut Vec<u8>, order: &[u8])
    requires { vec_len text.old + (length order.now + 11) ≤ vec_capacity text.old }
    ensures items { text.new.items ≡ text.old.items ++ order_text order.now }
    ensures len { vec_len text.new ≤ vec_len text.old + (length order.now + 11) }
    ensures capacity { vec_capacity text.old ≤ vec_capacity text.new }
{
    push_bytes(text, b",\"order\":\"");
    push_bytes(text, order);
    push_bytes(text, b"\"");
}

/// Appends how many volumes were read, if there were several.
fn push_volume_count(text: &mut Vec<u8>, count: u32)
    requires { vec_len text.old + 31 ≤ vec_capacity text.old }
    ensures items { text.new.items ≡ text.old.items ++ volume_count_text count }
    ensures len { vec_len text.new ≤ vec_len text.old + 31 }
    ensures capacity { vec_capacity text.old ≤ vec_capacity text.new }
{
    if count != 0 {
        push_member(text, b",\"volumes\":", count as usize);
    }
}

/// Appends the numbers of the first and the last volume, and by what the order of these volumes was judged.
fn push_judged(text: &mut Vec<u8>, count: u32, order: &Order)
    requires { vec_len text.old + 75 ≤ vec_capacity text.old }
    ensures items { text.new.items ≡ text.old.items ++ judged_text count order.now }
    ensures len { vec_len text.new ≤ vec_len text.old + 75 }
    ensures capacity { vec_capacity text.old ≤ vec_capacity text.new }
{
    match order {
        Order::NotJudged => {
            if count != 0 {
                push_order(text, b"not judged");
            }
        },
        Order::Numbers(numbers) => {
            push_numbers(text, numbers);
            push_order(text, b"numbers");
        },
        Order::Digests(numbers) => push_numbers(text, numbers),
    }
}

/// Appends which volumes were read, and by what their order was judged, if it is not by numbers and digests.
pub(crate) fn push_chain(text: &mut Vec<u8>, chain: &Chain)
    requires { vec_len text.old + longest_chain ≤ vec_capacity text.old }
    ensures items { text.new.items ≡ text.old.items ++ chain_text chain.now }
    ensures len { vec_len text.new ≤ vec_len text.old + longest_chain }
    ensures capacity { vec_capacity text.old ≤ vec_capacity text.new }
{
    push_volume_count(text, chain.count);
    push_judged(text, chain.count, &chain.order);
}

/// Appends the lines of all volumes. `Memory` if memory runs out.
pub fn push_volumes(text: &mut Vec<u8>, volumes: &[VolumeEntry]) -> Result<(), Memory>
    ensures lines { OnOk result (text.new.items ≡ text.old.items ++ volumes_text volumes.now) }
    ensures capacity { vec_capacity text.old ≤ vec_capacity text.new }
{
    for (i, volume) in volumes.iter().enumerate() {
        text.reserve(LONGEST_VOLUME)?;
        push_volume(text, i + 1, volume);
    }
    Ok(())
}
