//! How many calls were refused or rejected, and for what, and when so many were that the trace may be of another machine.
ghost use Rattle.std.specs.Prelude.{◌≡◌, ◌<◌, ◌+◌, ◌^◌, ◌++◌, ◌∷◌, [], List, cond, filter, length, slice_index_or, slice_set};
ghost use Rattle.kc_types.specs.Refusals.{number_of};
ghost use Rattle.kc_types.specs.declared.reply.Reply.{Reply};
ghost use Rattle.kc_remarks.specs.Denials.{is_denial, denies_for, is_outside, is_to_take, count_for, outside_in, takes_in, naming_in, AreCounts, Counts, IsAnsweredBy, is_mostly_denied, is_mostly_outside, is_doubted};

use kc_types::{Refusal, Reply};

/// The numbers of refusals, 1 to 26, and 0 for calls that were rejected.
const REASONS: usize = 27;

/// How many calls were refused or rejected, and for what; and how many got a frame, which only `take` does.
#[derive(Clone, Copy, Debug, PartialEq, Eq)]
pub struct Denials {
    /// How many were refused or rejected.
    pub total: u32,
    /// How many were for each reason, by its number.
    reasons: [u32; REASONS],
    /// How many got a frame.
    frames: u32,
}

impl Denials {
    pub fn none() -> Denials
        ensures total { result.total ≡ 0 }
        ensures counted { Counts [] result }
    {
        Denials {
            total: 0,
            reasons: [0; REASONS],
            frames: 0,
        }
    }

    fn count(&mut self, reason: usize)
        requires { reason < length self.old.reasons }
        ensures total { self.old.total + 1 < 2 ^ 32 → self.new.total ≡ self.old.total + 1 }
        ensures reasons { count_for reason self.old + 1 < 2 ^ 32 → self.new.reasons ≡ slice_set self.old.reasons reason (count_for reason self.old + 1) }
        ensures frames { self.new.frames ≡ self.old.frames }
    {
        self.total = self.total.saturating_add(1);
        self.reasons[reason] = self.reasons[reason].saturating_add(1);
    }

    fn count_frame(&mut self)
        ensures total { self.new.total ≡ self.old.total }
        ensures reasons { self.new.reasons ≡ self.old.reasons }
        ensures frames { self.old.frames + 1 < 2 ^ 32 → self.new.frames ≡ self.old.frames + 1 }
    {
        self.frames = self.frames.saturating_add(1);
    }

    /// Counts the reply to a call, if it denies the call or has a frame.
    pub fn note(&mut self, reply: &Reply)
        ensures total { self.old.total + 1 < 2 ^ 32 → self.new.total ≡ self.old.total + cond (is_denial reply.now) 1 0 }
        ensures counted { (replies : List Reply) → Counts replies self.old → Counts (replies ++ reply.now ∷ []) self.new }
    {
        match reply {
            Reply::Refused(refusal) => self.count(usize::from(refusal.number())),
            Reply::Rejected(_) => self.count(0),
            Reply::Frame(_) => self.count_frame(),
            _ => {},
        }
    }

    /// How many calls were denied for the reason of this number.
    fn count_for(&self, reason: usize) -> u32
        ensures { result ≡ count_for reason self.now }
    {
        match self.reasons.get(reason) {
            Some(count) => *count,
            None => 0,
        }
    }

    /// How many calls were refused for a reason.
    pub fn refused(&self, refusal: Refusal) -> u32
        ensures count { result ≡ count_for (number_of refusal) self.now }
        ensures replies { (replies : List Reply) → AreCounts replies self.now → result ≡ length (filter (denies_for (number_of refusal)) replies) }
    {
        self.count_for(usize::from(refusal.number()))
    }

    /// How many calls were rejected.
    pub fn rejected(&self) -> u32
        ensures count { result ≡ count_for 0 self.now }
        ensures replies { (replies : List Reply) → AreCounts replies self.now → result ≡ length (filter (denies_for 0) replies) }
    {
        self.count_for(0)
    }

    /// How many calls were refused since they name a frame or a slot that the machine does not have.
    pub fn outside(&self) -> usize
        ensures count { result ≡ outside_in self.now }
        ensures small { result < 2 ^ 33 }
        ensures replies { (replies : List Reply) → AreCounts replies self.now → result ≡ length (filter is_outside replies) }
    {
        self.refused(Refusal::BadFrame) as usize + self.refused(Refusal::BadVm) as usize
    }

    /// How many calls were `take`, which gets a frame or is refused since none is free.
    pub fn takes(&self) -> usize
        ensures count { result ≡ takes_in self.now }
        ensures replies { (replies : List Reply) → AreCounts replies self.now → result ≡ length (filter is_to_take replies) }
    {
        self.frames as usize + self.refused(Refusal::NoFree) as usize
    }
}

/// How the calls of a trace were answered.
#[derive(Clone, Copy, Debug, PartialEq, Eq)]
pub struct Answered {
    /// How many calls there are.
    pub calls: usize,
    /// How many of them were refused or rejected, and for what.
    pub denials: Denials,
}

impl Answered {
    /// Counts these replies.
    pub fn of(replies: &[Reply]) -> Answered
        requires { length replies.now < 2 ^ 32 }
        ensures { IsAnsweredBy replies.now result }
    {
        let mut denials = Denials::none();
        for reply in replies {
            denials.note(reply);
        }
        Answered {
            calls: replies.len(),
            denials,
        }
    }

    /// How many calls name a frame or a slot: all but `take`.
    pub fn naming(&self) -> usize
        ensures { result ≡ naming_in self.now }
    {
        self.calls.saturating_sub(self.denials.takes())
    }

    /// Whether more than half of the calls were refused or rejected.
    pub fn is_mostly_denied(&self) -> bool
        ensures { result ≡ is_mostly_denied self.now }
    {
        2 * self.denials.total as usize > self.calls
    }

    /// Whether more than half of the calls that name a frame or a slot name one that the machine does not have.
    fn is_mostly_outside(&self) -> bool
        ensures { result ≡ is_mostly_outside self.now }
    {
        2 * self.denials.outside() > self.naming()
    }

    /// Whether the trace is probably of another machine: one of the two is so.
    pub fn is_doubted(&self) -> bool
        ensures { result ≡ is_doubted self.now }
    {
        self.is_mostly_denied() || self.is_mostly_outside()
    }
}
