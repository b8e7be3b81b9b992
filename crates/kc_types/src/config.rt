//! What the core is started with.
ghost use Rattle.std.specs.Prelude.{◌≡◌, ◌<◌, ◌≤◌, ◌↔◌, length, IsSome, IfSome, IfOk};
ghost use Rattle.kc_types.specs.Limits.{frame_limit, slot_limit, leaf_limit, digest_limit};
ghost use Rattle.kc_types.specs.Configuration.{IsConfiguration, boot_owner, gfns_of, slot_count, vcpus_of};
ghost use Rattle.kc_types.specs.ConfigFaults.{Configures};

use crate::{DIGEST_LIMIT, FrameNo, Gfn, Memory, Owner, VcpuId, Version, VmId};
use std::marker::Model;
use thiserror::Error;

/// Digests of 32 bytes, seen as a list.
#[derive(Debug, Drop)]
struct Digests {
    digests: Vec<[u8; 32]>,
}

impl Model for Digests {
    ghost use Rattle.std.specs.Prelude.{ℕ, List};

    ghost Value = { List (List ℕ) };

    ghost view = { λ d. d.digests.items };
}

impl PartialEq for Digests {
    ghost use Rattle.std.specs.Prelude.{◌==◌};
    ghost use Rattle.std.specs.Cmp.Rules.{comparing};
    ghost use Rattle.std.specs.Cmp.Lexicographic.{pointwise};
    ghost use Rattle.std.proofs.Common.{rules};

    ghost eq = { pointwise (pointwise ◌==◌) };

    ghost laws = { Prim.search (comparing, rules) };

    fn eq(&self, other: &Digests) -> bool {
        self.digests == other.digests
    }
}

/// The trusted configuration of the core. Configurations are equal if their numbers and digests are.
#[derive(Debug, Drop, PartialEq)]
pub struct Config {
    version: Version,
    frames: u32,
    core: u32,
    host: u32,
    leaves: u32,
    approved: Digests,
}

impl Model for Config {
    ghost use Rattle.kc_types.specs.Configuration.{Configuration, IsConfiguration};

    ghost Value = { Configuration };

    ghost view = { λ c. record { version = c.version; frames = c.frames; core = c.core; host = c.host; leaves = c.leaves; approved = c.approved } };

    ghost invariant = { λ c. IsConfiguration (record { version = c.version; frames = c.frames; core = c.core; host = c.host; leaves = c.leaves; approved = c.approved }) };

    ghost inverse = { λ v. record { version = v.version; frames = v.frames; core = v.core; host = v.host; leaves = v.leaves; approved = v.approved } };
}

/// Why a configuration is refused: the first fault that applies.
#[derive(Clone, Copy, Debug, PartialEq, Eq, Error)]
pub enum ConfigFault {
    /// The number of frames is 0 or above the version's limit: 8,192, 65,536 or 268,435,456.
    #[error("frames")]
    Frames,
    /// The core's and the host's frames together are more than there are.
    #[error("core and host")]
    CoreHost,
    /// The number of leaf tables is 0 or above the version's limit: 64, or 262,144 in version 3.
    #[error("leaves")]
    Leaves,
    /// More than 64 digests are approved.
    #[error("approved")]
    TooManyDigests,
}

impl Config {
    /// Makes a configuration of version 1: `frames` frames of 4,096 bytes, of which the first `core` belong to the
    /// core for ever and the next `host` to the host at boot; `leaves` leaf tables for each VM; and the SHA-256
    /// digests (FIPS 180-4) of the boot images that are approved.
    pub fn try_new(
        frames: u32,
        core: u32,
        host: u32,
        leaves: u32,
        approved: Vec<[u8; 32]>,
    ) -> Result<Config, ConfigFault>
        ensures { Configures result (record { version = Version.One; frames = frames; core = core; host = host; leaves = leaves; approved = approved.items }) }
    {
        Config::with_version(Version::One, frames, core, host, leaves, approved)
    }

    /// Makes a configuration of the given version: version 2 has up to 65,536 frames, and 64 slots; version 3 up to
    /// 268,435,456 frames, and 1,024 slots.
    pub fn with_version(
        version: Version,
        frames: u32,
        core: u32,
        host: u32,
        leaves: u32,
        approved: Vec<[u8; 32]>,
    ) -> Result<Config, ConfigFault>
        ensures { Configures result (record { version = version; frames = frames; core = core; host = host; leaves = leaves; approved = approved.items }) }
    {
        if frames == 0 || frames > version.most_frames() {
            return Err(ConfigFault::Frames);
        }
        if core > frames || host > frames - core {
            return Err(ConfigFault::CoreHost);
        }
        if leaves == 0 || leaves > version.most_leaves() {
            return Err(ConfigFault::Leaves);
        }
        if approved.len() > DIGEST_LIMIT {
            return Err(ConfigFault::TooManyDigests);
        }
        Ok(Config {
            version,
            frames,
            core,
            host,
            leaves,
            approved: Digests { digests: approved },
        })
    }

    /// The version of the rules.
    pub fn version(&self) -> Version
        ensures { result ≡ self.now.version }
    {
        self.version
    }

    /// The number of frames, 1 to 8,192 (in version 2, to 65,536, and in version 3, to 268,435,456).
    pub fn frames(&self) -> u32
        ensures value { result ≡ self.now.frames }
        ensures some { 0 < result }
        ensures few { result ≤ frame_limit }
        ensures kept { IsConfiguration self.now }
    {
        self.frames
    }

    /// The number of the core's frames, which are the first.
    pub fn core(&self) -> u32
        ensures value { result ≡ self.now.core }
        ensures kept { IsConfiguration self.now }
    {
        self.core
    }

    /// The number of the host's frames at boot, which follow the core's.
    pub fn host(&self) -> u32
        ensures value { result ≡ self.now.host }
        ensures kept { IsConfiguration self.now }
    {
        self.host
    }

    /// The number of leaf tables of each VM, 1 to 64 (in version 3, to 262,144).
    pub fn leaves(&self) -> u32
        ensures value { result ≡ self.now.leaves }
        ensures some { 0 < result }
        ensures few { result ≤ leaf_limit }
    {
        self.leaves
    }

    /// The number of VM slots: 16 (in version 2, 64, and in version 3, 1,024).
    #[tactic(auto, unfolding(crate::specs::Configuration::slot_count))]
    pub fn slots(&self) -> u32
        ensures value { result ≡ slot_count self.now }
        ensures few { result ≤ slot_limit }
    {
        self.version.slots()
    }

    /// Who owns a frame at boot; a frame that does not exist is free.
    pub fn owner_at_boot(&self, frame: u32) -> Owner
        ensures { result ≡ boot_owner self.now frame }
    {
        if frame < self.core {
            Owner::Core
        } else if frame < self.core + self.host {
            Owner::Host
        } else {
            Owner::Free
        }
    }

    /// The frame of this number; `None` if there is none.
    pub fn frame(&self, number: u32) -> Option<FrameNo>
        ensures valid { IsSome result ↔ (number < self.now.frames) }
        ensures value { IfSome result (λ frame. frame ≡ number) }
    {
        if number < self.frames {
            FrameNo::try_new(number)
        } else {
            None
        }
    }

    /// The VM slot of this number; `None` if there is none.
    pub fn vm(&self, number: u32) -> Option<VmId>
        ensures valid { IsSome result ↔ (number < slot_count self.now) }
        ensures value { IfSome result (λ vm. vm ≡ number) }
    {
        if number < self.slots() {
            VmId::try_new(number)
        } else {
            None
        }
    }

    /// The virtual processor of this number; `None` if the version has none.
    pub fn vcpu(&self, number: u32) -> Option<VcpuId>
        ensures valid { IsSome result ↔ (number < vcpus_of self.now.version) }
        ensures value { IfSome result (λ vcpu. vcpu ≡ number) }
    {
        if number < self.version.vcpus() {
            VcpuId::try_new(number)
        } else {
            None
        }
    }

    /// The guest frame of this number; `None` if the version has none.
    pub fn gfn(&self, number: u32) -> Option<Gfn>
        ensures valid { IsSome result ↔ (number < gfns_of self.now.version) }
        ensures value { IfSome result (λ gfn. gfn ≡ number) }
    {
        if number < self.version.gfns() {
            Gfn::try_new(number)
        } else {
            None
        }
    }

    /// The approved digests, at most 64.
    pub fn approved(&self) -> &[[u8; 32]]
        ensures value { result.now ≡ self.now.approved }
        ensures few { length result.now ≤ digest_limit }
    {
        self.approved.digests.as_slice()
    }

    /// Copies the configuration; `Memory` if memory runs out.
    pub fn copy(&self) -> Result<Config, Memory>
        // No clause can rule out that memory runs out: a test makes a copy.
        ensures { IfOk result (λ made. made ≡ self.now) }
    {
        Ok(Config {
            version: self.version,
            frames: self.frames,
            core: self.core,
            host: self.host,
            leaves: self.leaves,
            approved: Digests {
                digests: self.approved.digests.clone()?,
            },
        })
    }
}
