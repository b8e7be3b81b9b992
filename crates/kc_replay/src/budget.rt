//! What may be spent on plans, so that workers cost little more than one thread even if they gain nothing.

/// What footprints and a plan cost for a call, in units of what they cost for a frame of the core (about 30 ns).
const PLAN_FOR_A_CALL: u64 = 32;

/// What each call saves up for plans: about a fifth of what the shortest calls take.
const EARNED_BY_A_CALL: u64 = 3;

/// What each frame that workers hash saves up for plans: about a fifth of what SHA-256 takes for it.
const EARNED_BY_A_FRAME: u64 = 96;

/// The most flags of a plan, one for each frame and principal: some 16 MB. A larger core's calls are made in order.
const MOST_FLAGS: u64 = 1 << 24;

/// What is there at the start: the price of a plan of 4,096 calls of a core of 65,536 frames, about 6 ms.
const START: u64 = 65_536 + 4_096 * PLAN_FOR_A_CALL;

/// What may be spent on plans. A plan that starts no thread is time lost, and how much a segment will hash is only
/// known once it is planned; so plans are paid for out of the time that calls and frames take.
#[derive(Clone, Copy)]
pub(crate) struct Budget {
    left: u64,
    /// Whether a plan was made.
    has_paid: bool,
}

impl Budget {
    pub(crate) fn new() -> Budget {
        Budget {
            left: START,
            has_paid: false,
        }
    }

    /// Saves up for calls that are made.
    pub(crate) fn add_calls(&mut self, calls: usize) {
        let earned = EARNED_BY_A_CALL.saturating_mul(calls as u64);
        self.left = self.left.saturating_add(earned);
    }

    /// Saves up for frames that workers hash.
    pub(crate) fn add_frames(&mut self, frames: u32) {
        let earned = EARNED_BY_A_FRAME.saturating_mul(u64::from(frames));
        self.left = self.left.saturating_add(earned);
    }

    /// Pays for a plan of some calls of a core of this many frames and slots, if there is enough for it. The first plan
    /// is made at any price, so that a trace that comes in one piece has one, unless it has too many flags.
    pub(crate) fn pay(&mut self, frames: u32, slots: u32, calls: usize) -> bool {
        if u64::from(frames).saturating_mul(u64::from(slots) + 1) > MOST_FLAGS {
            return false;
        }
        let price = PLAN_FOR_A_CALL
            .saturating_mul(calls as u64)
            .saturating_add(u64::from(frames));
        if self.has_paid && price > self.left {
            return false;
        }
        self.left = self.left.saturating_sub(price);
        self.has_paid = true;
        true
    }
}
