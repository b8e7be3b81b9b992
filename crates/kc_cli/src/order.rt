//! How a trace is replayed.
use kc_digests::Lanes;
use kc_texts::{Origin, ReplayForm};

/// How a trace is replayed.
#[derive(Clone, Copy)]
pub struct ReplayOrder {
    /// What the calls begin with.
    pub origin: Origin,
    /// What is written.
    pub form: ReplayForm,
    /// Whether the pages of active VMs are zeroed once the trace is replayed, in what is written and compared of the
    /// core.
    pub is_blank: bool,
    /// How many workers may make the calls, 1 to 64.
    pub workers: u32,
    /// How many pages are hashed at once.
    pub lanes: Lanes,
}
