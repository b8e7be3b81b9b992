//! What happened to frames and slots, as JSON Lines (RFC 8259): one object on each line.
ghost use Rattle.std.specs.Prelude.{◌≡◌, ◌≤◌, ◌+◌, ◌*◌, ◌++◌, ◌∷◌, [], length, vec_len, vec_capacity};
ghost use Rattle.std.specs.List.{flat_map};
ghost use Rattle.std.specs.Fmt.{decimal};
ghost use Rattle.kc_types.specs.Limits.{image_limit};
ghost use Rattle.kc_types.specs.Configuration.{slot_count};
ghost use Rattle.kc_trace.specs.CustodyText.{owner_text, number_text, flag_text, phase_text, custody_text, frame_line, image_text, more_image_text, images_text, launch_member, measurement_text, phase_line, change_line, version_text, digest_text, trace_text, start_text, digests_text, accesses_text, versions_text, sizes_text, refused_count_text, heading_text, header_line, end_line, longest_custody, longest_image, longest_images, longest_launch, longest_measurement, longest_change, longest_digest, longest_trace, longest_start, longest_digests};

use crate::volume_writer::{Chain, push_chain};
use itoa::Buffer;
use kc_lines::{push_bytes, push_digits};
use kc_types::{
    Change, Config, Custody, FrameChange, Gfn, Launch, MeasuredImage, Measurement, Owner, Phase,
    PhaseChange,
};

/// More bytes than the longest line of a change, and than the first and the last line, with their newlines.
pub const LONGEST_CHANGE: usize = 2_400;

/// The version of kcore, which `kcore --version` prints too.
pub const VERSION: &str = "3.0.0";

/// What calls begin with, by the SHA-256 digest (FIPS 180-4) of its text if that is a file's.
#[derive(Clone, Copy, Debug, PartialEq, Eq)]
pub enum StartDigest {
    /// The default configuration.
    Default,
    /// The machine in the head of the first trace.
    Head,
    /// The configuration with this digest.
    Config([u8; 32]),
    /// The state with this digest.
    State([u8; 32]),
}

/// The texts that were read, by their SHA-256 digests.
#[derive(Clone, Copy, Debug, PartialEq, Eq)]
pub struct Digests {
    /// That of the trace; `None` if there were several volumes, which have their digests on lines of their own.
    pub trace: Option<[u8; 32]>,
    pub start: StartDigest,
}

/// What the first line of custody and of a summary says besides the sizes of the core.
#[derive(Clone, Copy, Debug, PartialEq, Eq)]
pub struct Heading {
    /// The texts that were read, if they are named.
    pub digests: Option<Digests>,
    /// Whether the machine's own reads and writes are not in the trace.
    pub is_unseen: bool,
    /// Which volumes were read.
    pub chain: Chain,
}

/// Appends some bytes and a number.
pub(crate) fn push_member(text: &mut Vec<u8>, key: &[u8], number: usize)
    requires { vec_len text.old + (length key.now + 20) ≤ vec_capacity text.old }
    ensures items { text.new.items ≡ text.old.items ++ (key.now ++ decimal number) }
    ensures len { vec_len text.new ≤ vec_len text.old + (length key.now + 20) }
    ensures capacity { vec_capacity text.old ≤ vec_capacity text.new }
{
    push_bytes(text, key);
    push_bytes(text, Buffer::new().format(number).as_bytes());
}

/// Appends an owner's name, as text.
pub(crate) fn push_owner(text: &mut Vec<u8>, owner: Owner)
    requires { vec_len text.old + 25 ≤ vec_capacity text.old }
    ensures items { text.new.items ≡ text.old.items ++ owner_text owner }
    ensures len { vec_len text.new ≤ vec_len text.old + 25 }
    ensures capacity { vec_capacity text.old ≤ vec_capacity text.new }
{
    match owner {
        Owner::Core => push_bytes(text, b"\"core\""),
        Owner::Host => push_bytes(text, b"\"host\""),
        Owner::Free => push_bytes(text, b"\"free\""),
        Owner::Vm(vm) => {
            push_member(text, b"\"vm", vm.index());
            push_bytes(text, b"\"");
        },
    }
}

/// Appends a number, or `null`.
pub(crate) fn push_number(text: &mut Vec<u8>, number: Option<u32>)
    requires { vec_len text.old + 10 ≤ vec_capacity text.old }
    ensures items { text.new.items ≡ text.old.items ++ number_text number }
    ensures len { vec_len text.new ≤ vec_len text.old + 10 }
    ensures capacity { vec_capacity text.old ≤ vec_capacity text.new }
{
    match number {
        Some(number) => push_bytes(text, Buffer::new().format(number).as_bytes()),
        None => push_bytes(text, b"null"),
    }
}

/// Appends a guest frame, or `null`.
pub(crate) fn push_gfn(text: &mut Vec<u8>, gfn: Option<Gfn>)
    requires { vec_len text.old + 10 ≤ vec_capacity text.old }
    ensures items { text.new.items ≡ text.old.items ++ number_text gfn }
    ensures len { vec_len text.new ≤ vec_len text.old + 10 }
    ensures capacity { vec_capacity text.old ≤ vec_capacity text.new }
{
    match gfn {
        Some(gfn) => push_number(text, Some(gfn.number())),
        None => push_number(text, None),
    }
}

fn push_flag(text: &mut Vec<u8>, flag: bool)
    requires { vec_len text.old + 5 ≤ vec_capacity text.old }
    ensures items { text.new.items ≡ text.old.items ++ flag_text flag }
    ensures len { vec_len text.new ≤ vec_len text.old + 5 }
    ensures capacity { vec_capacity text.old ≤ vec_capacity text.new }
{
    if flag {
        push_bytes(text, b"true");
    } else {
        push_bytes(text, b"false");
    }
}

/// Appends a custody as an object.
fn push_custody(text: &mut Vec<u8>, custody: &Custody)
    requires { vec_len text.old + longest_custody ≤ vec_capacity text.old }
    ensures items { text.new.items ≡ text.old.items ++ custody_text custody.now }
    ensures len { vec_len text.new ≤ vec_len text.old + longest_custody }
    ensures capacity { vec_capacity text.old ≤ vec_capacity text.new }
{
    push_bytes(text, b"{\"owner\":");
    push_owner(text, custody.owner);
    push_bytes(text, b",\"gfn\":");
    push_gfn(text, custody.gfn);
    push_member(text, b",\"share\":", custody.share as usize);
    push_bytes(text, b",\"present\":");
    push_flag(text, custody.present);
    push_bytes(text, b"}");
}

/// Appends the line of a frame's change.
fn push_frame_change(text: &mut Vec<u8>, change: &FrameChange)
    requires { vec_len text.old + longest_change ≤ vec_capacity text.old }
    ensures line { text.new.items ≡ text.old.items ++ frame_line change.now }
    ensures capacity { vec_capacity text.old ≤ vec_capacity text.new }
{
    push_member(text, b"{\"line\":", change.line as usize);
    push_member(text, b",\"frame\":", change.frame as usize);
    push_bytes(text, b",\"from\":");
    push_custody(text, &change.before);
    push_bytes(text, b",\"to\":");
    push_custody(text, &change.after);
    push_bytes(text, b"}\n");
}

/// Appends a phase's name, as text.
fn push_phase(text: &mut Vec<u8>, phase: Phase)
    requires { vec_len text.old + 9 ≤ vec_capacity text.old }
    ensures items { text.new.items ≡ text.old.items ++ phase_text phase }
    ensures len { vec_len text.new ≤ vec_len text.old + 9 }
    ensures capacity { vec_capacity text.old ≤ vec_capacity text.new }
{
    match phase {
        Phase::Empty => push_bytes(text, b"\"empty\""),
        Phase::Booting => push_bytes(text, b"\"booting\""),
        Phase::Active => push_bytes(text, b"\"active\""),
        Phase::Dead => push_bytes(text, b"\"dead\""),
    }
}

/// Appends an image as an object.
fn push_image(text: &mut Vec<u8>, image: &MeasuredImage)
    requires { vec_len text.old + longest_image ≤ vec_capacity text.old }
    ensures items { text.new.items ≡ text.old.items ++ image_text image.now }
    ensures len { vec_len text.new ≤ vec_len text.old + longest_image }
    ensures capacity { vec_capacity text.old ≤ vec_capacity text.new }
{
    push_member(text, b"{\"base\":", image.base as usize);
    push_member(text, b",\"len\":", image.len as usize);
    push_bytes(text, b",\"sha256\":\"");
    push_digits(text, &image.digest);
    push_bytes(text, b"\"}");
}

/// Appends at most 16 images as objects with a comma before each.
fn push_more_images(text: &mut Vec<u8>, images: &[MeasuredImage])
    requires few { length images.now ≤ image_limit }
    requires room { vec_len text.old + length images.now * (longest_image + 1) ≤ vec_capacity text.old }
    ensures items { text.new.items ≡ text.old.items ++ flat_map more_image_text images.now }
    ensures len { vec_len text.new ≤ vec_len text.old + length images.now * (longest_image + 1) }
    ensures capacity { vec_capacity text.old ≤ vec_capacity text.new }
{
    for image in images {
        push_bytes(text, b",");
        push_image(text, image);
    }
}

/// Appends at most 16 images as objects with commas between them.
fn push_images(text: &mut Vec<u8>, images: &[MeasuredImage])
    requires few { length images.now ≤ image_limit }
    requires room { vec_len text.old + longest_images ≤ vec_capacity text.old }
    ensures items { text.new.items ≡ text.old.items ++ images_text images.now }
    ensures len { vec_len text.new ≤ vec_len text.old + longest_images }
    ensures capacity { vec_capacity text.old ≤ vec_capacity text.new }
{
    if let Some((first, more)) = images.split_first() {
        push_image(text, first);
        push_more_images(text, more);
    }
}

/// Appends a digest, as text.
fn push_digest(text: &mut Vec<u8>, digest: &[u8; 32])
    requires { vec_len text.old + longest_digest ≤ vec_capacity text.old }
    ensures items { text.new.items ≡ text.old.items ++ digest_text digest.now }
    ensures len { vec_len text.new ≤ vec_len text.old + longest_digest }
    ensures capacity { vec_capacity text.old ≤ vec_capacity text.new }
{
    push_bytes(text, b"\"");
    push_digits(text, digest);
    push_bytes(text, b"\"");
}

/// Appends the launch measurement, if there is one.
fn push_launch(text: &mut Vec<u8>, launch: &Launch)
    requires { vec_len text.old + longest_launch ≤ vec_capacity text.old }
    ensures items { text.new.items ≡ text.old.items ++ launch_member launch.now }
    ensures len { vec_len text.new ≤ vec_len text.old + longest_launch }
    ensures capacity { vec_capacity text.old ≤ vec_capacity text.new }
{
    if let Some(digest) = launch.digest() {
        push_bytes(text, b",\"measured\":");
        push_digest(text, &digest);
    }
}

/// Appends what was measured.
pub(crate) fn push_measurement(text: &mut Vec<u8>, measurement: &Measurement)
    requires { vec_len text.old + longest_measurement ≤ vec_capacity text.old }
    ensures items { text.new.items ≡ text.old.items ++ measurement_text measurement.now }
    ensures len { vec_len text.new ≤ vec_len text.old + longest_measurement }
    ensures capacity { vec_capacity text.old ≤ vec_capacity text.new }
{
    push_bytes(text, b",\"images\":[");
    push_images(text, measurement.images.as_slice());
    push_bytes(text, b"]");
    push_launch(text, &measurement.launch);
}

/// Appends the line of a slot's change.
fn push_phase_change(text: &mut Vec<u8>, change: &PhaseChange)
    requires { vec_len text.old + longest_change ≤ vec_capacity text.old }
    ensures line { text.new.items ≡ text.old.items ++ phase_line change.now }
    ensures capacity { vec_capacity text.old ≤ vec_capacity text.new }
{
    push_member(text, b"{\"line\":", change.line as usize);
    push_member(text, b",\"vm\":", change.vm as usize);
    push_bytes(text, b",\"phase\":");
    push_phase(text, change.phase);
    push_measurement(text, &change.measurement);
    push_bytes(text, b"}\n");
}

/// Appends the line of a change and its newline, for which there is room: memory does not grow.
pub fn push_change(text: &mut Vec<u8>, change: &Change)
    requires { vec_len text.old + longest_change ≤ vec_capacity text.old }
    ensures line { text.new.items ≡ text.old.items ++ change_line change.now }
    ensures capacity { vec_capacity text.old ≤ vec_capacity text.new }
{
    match change {
        Change::Frame(change) => push_frame_change(text, change),
        Change::Phase(change) => push_phase_change(text, change),
    }
}

/// Appends the digest of a trace, if it is named.
pub(crate) fn push_trace(text: &mut Vec<u8>, digest: &Option<[u8; 32]>)
    requires { vec_len text.old + longest_trace ≤ vec_capacity text.old }
    ensures items { text.new.items ≡ text.old.items ++ trace_text digest.now }
    ensures len { vec_len text.new ≤ vec_len text.old + longest_trace }
    ensures capacity { vec_capacity text.old ≤ vec_capacity text.new }
{
    if let Some(digest) = digest {
        push_bytes(text, b",\"trace\":");
        push_digest(text, digest);
    }
}

/// Appends what calls begin with.
fn push_start(text: &mut Vec<u8>, start: &StartDigest)
    requires { vec_len text.old + longest_start ≤ vec_capacity text.old }
    ensures items { text.new.items ≡ text.old.items ++ start_text start.now }
    ensures len { vec_len text.new ≤ vec_len text.old + longest_start }
    ensures capacity { vec_capacity text.old ≤ vec_capacity text.new }
{
    match start {
        StartDigest::Default => push_bytes(text, b",\"config\":\"default\",\"state\":null"),
        StartDigest::Head => push_bytes(text, b",\"config\":\"head\",\"state\":null"),
        StartDigest::Config(digest) => {
            push_bytes(text, b",\"config\":");
            push_digest(text, digest);
            push_bytes(text, b",\"state\":null");
        },
        StartDigest::State(digest) => {
            push_bytes(text, b",\"config\":null,\"state\":");
            push_digest(text, digest);
        },
    }
}

/// Appends what was read, if that is named.
fn push_digests(text: &mut Vec<u8>, digests: &Option<Digests>)
    requires { vec_len text.old + longest_digests ≤ vec_capacity text.old }
    ensures items { text.new.items ≡ text.old.items ++ digests_text digests.now }
    ensures len { vec_len text.new ≤ vec_len text.old + longest_digests }
    ensures capacity { vec_capacity text.old ≤ vec_capacity text.new }
{
    if let Some(digests) = digests {
        push_trace(text, &digests.trace);
        push_start(text, &digests.start);
    }
}

/// Appends the version of the text and of kcore.
fn push_versions(text: &mut Vec<u8>)
    requires { vec_len text.old + 20 ≤ vec_capacity text.old }
    ensures items { text.new.items ≡ text.old.items ++ versions_text }
    ensures len { vec_len text.new ≤ vec_len text.old + 20 }
    ensures capacity { vec_capacity text.old ≤ vec_capacity text.new }
{
    push_bytes(text, b"2,\"kcore\":\"");
    push_bytes(text, VERSION.as_bytes());
    push_bytes(text, b"\"");
}

fn push_accesses(text: &mut Vec<u8>, is_unseen: bool)
    requires { vec_len text.old + 20 ≤ vec_capacity text.old }
    ensures items { text.new.items ≡ text.old.items ++ accesses_text is_unseen }
    ensures len { vec_len text.new ≤ vec_len text.old + 20 }
    ensures capacity { vec_capacity text.old ≤ vec_capacity text.new }
{
    if is_unseen {
        push_bytes(text, b",\"accesses\":\"unseen\"");
    }
}

/// Appends the sizes of the core, from which the boot state follows.
fn push_sizes(text: &mut Vec<u8>, config: &Config)
    requires { vec_len text.old + 128 ≤ vec_capacity text.old }
    ensures items { text.new.items ≡ text.old.items ++ sizes_text config.now }
    ensures len { vec_len text.new ≤ vec_len text.old + 128 }
    ensures capacity { vec_capacity text.old ≤ vec_capacity text.new }
{
    push_member(text, b",\"frames\":", config.frames() as usize);
    push_member(text, b",\"core\":", config.core() as usize);
    push_member(text, b",\"host\":", config.host() as usize);
    push_member(text, b",\"slots\":", config.slots() as usize);
}

/// Appends how many calls of the trace were refused or rejected, if that is said.
fn push_refused_count(text: &mut Vec<u8>, refused: Option<usize>)
    requires { vec_len text.old + 31 ≤ vec_capacity text.old }
    ensures items { text.new.items ≡ text.old.items ++ refused_count_text refused }
    ensures len { vec_len text.new ≤ vec_len text.old + 31 }
    ensures capacity { vec_capacity text.old ≤ vec_capacity text.new }
{
    if let Some(count) = refused {
        push_member(text, b",\"refused\":", count);
    }
}

/// Appends what the first line of custody and of a summary says, with its newline: the versions, what was read, the
/// sizes of the core, perhaps how many calls were refused or rejected, whether the machine's accesses are in the trace,
/// and which volumes were read.
pub(crate) fn push_heading(
    text: &mut Vec<u8>,
    heading: &Heading,
    config: &Config,
    refused: Option<usize>,
)
    requires { vec_len text.old + 512 ≤ vec_capacity text.old }
    ensures line { text.new.items ≡ text.old.items ++ heading_text heading.now config.now refused }
    ensures capacity { vec_capacity text.old ≤ vec_capacity text.new }
{
    push_versions(text);
    push_digests(text, &heading.digests);
    push_sizes(text, config);
    push_refused_count(text, refused);
    push_accesses(text, heading.is_unseen);
    push_chain(text, &heading.chain);
    push_bytes(text, b"}\n");
}

/// Appends the first line, with its newline.
pub fn push_custody_header(text: &mut Vec<u8>, heading: &Heading, config: &Config)
    requires { vec_len text.old + longest_change ≤ vec_capacity text.old }
    ensures line { text.new.items ≡ text.old.items ++ header_line heading.now config.now }
    ensures capacity { vec_capacity text.old ≤ vec_capacity text.new }
{
    push_bytes(text, b"{\"custody\":");
    push_heading(text, heading, config, None);
}

/// Appends the last line, with its newline: how many calls the trace has, how many lines of changes and notes the text
/// has, and how many calls were refused or rejected.
pub fn push_custody_end(text: &mut Vec<u8>, calls: usize, lines: usize, refused: usize)
    requires { vec_len text.old + longest_change ≤ vec_capacity text.old }
    ensures line { text.new.items ≡ text.old.items ++ end_line calls lines refused }
    ensures capacity { vec_capacity text.old ≤ vec_capacity text.new }
{
    push_member(text, b"{\"calls\":", calls);
    push_member(text, b",\"lines\":", lines);
    push_member(text, b",\"refused\":", refused);
    push_bytes(text, b"}\n");
}
