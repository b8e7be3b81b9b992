//! The records of frames at boot.
ghost use Rattle.std.specs.Prelude.{◌≡◌, ◌<◌, ◌≤◌, ◌+◌};
ghost use Rattle.kc_types.specs.Limits.{frame_limit};
ghost use Rattle.kc_types.specs.Configuration.{IsConfiguration};
ghost use Rattle.kc_parts.specs.Chunks.{layout_of, owner_at_boot, prev_at_boot, next_at_boot, record_at_boot};

use kc_page::PageRecord;
use kc_types::{Config, FrameNo, MaybeFrame, MaybeGfn, Owner, OwnerCode};

/// Whose each frame is at boot: KCore's come first, then the host's, and then the free ones.
#[derive(Clone, Copy, Debug)]
pub(crate) struct Layout {
    /// How many frames there are.
    pub frames: u32,
    /// The first frame that is not KCore's.
    pub host: u32,
    /// The first frame that is free.
    pub free: u32,
}

impl Layout {
    /// The layout of a configuration.
    pub(crate) fn of(config: &Config) -> Layout
        ensures value { result ≡ layout_of config.now }
        ensures kept { IsConfiguration config.now }
    {
        Layout {
            frames: config.frames(),
            host: config.core(),
            free: config.core() + config.host(),
        }
    }

    /// The owner of a frame at boot.
    fn owner(self, frame: u32) -> Owner
        ensures { result ≡ owner_at_boot self frame }
    {
        if frame < self.host {
            Owner::Core
        } else if frame < self.free {
            Owner::Host
        } else {
            Owner::Free
        }
    }

    /// The frame before a frame in its list at boot.
    fn prev(self, frame: u32) -> Option<FrameNo>
        requires few { self.frames ≤ frame_limit }
        requires within { frame < self.frames }
        ensures { result ≡ prev_at_boot self frame }
    {
        if frame > self.free {
            FrameNo::try_new(frame - 1)
        } else {
            None
        }
    }

    /// The frame after a frame in its list at boot.
    fn next(self, frame: u32) -> Option<FrameNo>
        requires few { self.frames ≤ frame_limit }
        requires within { frame < self.frames }
        ensures { result ≡ next_at_boot self frame }
    {
        if frame >= self.free && frame + 1 < self.frames {
            FrameNo::try_new(frame + 1)
        } else {
            None
        }
    }

    /// The record of a frame at boot.
    pub(crate) fn record(self, frame: u32) -> PageRecord
        requires few { self.frames ≤ frame_limit }
        requires within { frame < self.frames }
        ensures { result ≡ record_at_boot self frame }
    {
        PageRecord {
            owner: OwnerCode::of(self.owner(frame)),
            share: 0,
            present: false,
            gfn: MaybeGfn::of(None),
            prev: MaybeFrame::of(self.prev(frame)),
            next: MaybeFrame::of(self.next(frame)),
        }
    }
}
