//! What every layer uses: numbers with their range, calls, replies, refusals, the configuration, out of memory.
//!
//! - each limit, and what differs by version: `src/limits.rt`, `src/version.rt`; as definitions `specs/Limits.antt`,
//!   `specs/Configuration.antt`
//! - the calls, and whose each is: `src/call.rt`, `specs/Actors.antt`
//! - what a change of custody holds: `src/custody.rt`
//! - bytes that history and receipt share: `src/data.rt`; bytes that are zeroed before their memory is given back:
//!   `src/secret.rt`, over `src/filled.rt`
#![tactic(auto)]

mod call;
mod call_buffer;
mod config;
mod custody;
mod data;
mod filled;
mod limits;
mod link;
mod memory;
mod numbers;
mod owner;
mod packed;
mod refusal;
mod reply;
mod resource;
mod secret;
mod slot;
mod version;

pub use call::{Actor, Call, actor_of, slot_of};
pub use call_buffer::CallBuffer;
pub use config::{Config, ConfigFault};
pub use custody::{
    Bar, Change, Custody, Event, FrameChange, Launch, Life, MeasuredImage, MeasuredImages,
    Measurement, PhaseChange, Sharing, Sharings,
};
pub use data::{Data, SHORT_SIZE};
pub use limits::{
    BYTE_LIMIT, CALL_LIMIT, DIGEST_LIMIT, FIRST_FRAME_LIMIT, FIRST_GFN_LIMIT, FIRST_IMAGE_LIMIT,
    FIRST_IMAGE_SIZE_LIMIT, FIRST_LEAF_LIMIT, FIRST_SLOT_LIMIT, FIRST_VCPU_LIMIT, FRAME_LIMIT,
    GFN_LIMIT, IMAGE_LIMIT, IMAGE_SIZE_LIMIT, LEAF_ENTRIES, LEAF_LIMIT, LINE_LIMIT, PAGE_SIZE,
    RANGE_LIMIT, SECOND_FRAME_LIMIT, SECOND_SLOT_LIMIT, SHARE_LIMIT, SLOT_LIMIT, VCPU_LIMIT,
    WORKER_LIMIT,
};
pub use link::{Ends, Link};
pub use memory::Memory;
pub use numbers::{FrameNo, Gfn, VcpuId, VmId};
pub use owner::{Owner, vm_of};
pub use packed::{MaybeFrame, MaybeGfn, OwnerCode};
pub use refusal::Refusal;
pub use reply::Reply;
pub use resource::Resource;
pub use secret::SecretBytes;
pub use slot::{Image, Phase, Vcpu};
pub use version::Version;
