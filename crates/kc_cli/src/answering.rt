//! The engine that writes the calls of several volumes with their replies, over any sources and any sink.
ghost use Rattle.kc_cli.specs.Lines.{lines_kind};

use crate::account::FIRST_LINE;
use crate::life::Account;
use crate::placing::give_volumes;
use crate::replaying::{Fed, feed_source, wipe_left};
use crate::sequence::Sequence;
use crate::starting::{Start, read_start};
use crate::telling::Volume;
use kc_digests::Lanes;
use kc_faults::TextFault;
use kc_remarks::Answered;
use kc_replay::Replayer;
use kc_texts::{Origin, ReplayForm, Sink, Source};
use kc_types::{Call, Reply, WORKER_LIMIT};
use std::alloc::Global;
use std::sync::Wait;
use std::thread::Threads;

/// How the calls of several volumes are made.
#[derive(Clone, Copy)]
pub struct LinesOrder {
    /// What the calls begin with.
    pub origin: Origin,
    /// How many workers may make the calls, 1 to 64.
    pub workers: u32,
    /// How many pages are hashed at once.
    pub lanes: Lanes,
}

/// The account of each call with its reply.
#[derive(Drop)]
pub struct ReplayAccount {
    /// The core, in the state after the calls so far.
    replayer: Replayer,
    calls: Vec<Call>,
    replies: Vec<Reply>,
    sequence: Sequence,
}

impl Account for ReplayAccount {
    type Order = LinesOrder;

    ghost kind = { lines_kind };

    ghost leads = { λ order account m sources replayed. replayed.of };

    ghost begins = { λ order account m start begun. begun };

    /// Begins an account. The number of workers, 1 to 64, is judged before anything is read.
    fn begin<C: Source, R: Threads + Wait + Sync>(
        rt: &R,
        alloc: Global,
        start: &mut C,
        order: LinesOrder,
    ) -> Result<ReplayAccount, TextFault> {
        if order.workers == 0 || order.workers as usize > WORKER_LIMIT {
            return Err(TextFault::Workers);
        }
        let Start { core, expected } = read_start(rt, alloc, start, order.origin, order.lanes)?;
        let Ok(replayer) = Replayer::from_core(core, order.workers as usize) else {
            return Err(TextFault::Memory);
        };
        Ok(ReplayAccount {
            replayer,
            calls: Vec::new(alloc),
            replies: Vec::new(alloc),
            sequence: Sequence::new(alloc, expected),
        })
    }

    /// Reads a volume, whose calls up to as many workers make as are ordered.
    fn read<T: Source, R: Threads + Wait + Sync>(
        &mut self,
        rt: &R,
        alloc: Global,
        trace: &mut T,
        is_followed: bool,
    ) -> Result<(), TextFault> {
        let line = FIRST_LINE + self.calls.len() as u32;
        self.sequence.has_room(line)?;
        self.replayer.turn();
        let Fed {
            header,
            calls,
            replies,
            digest,
        } = feed_source(
            rt,
            alloc,
            &mut self.replayer,
            trace,
            ReplayForm::Lines,
            is_followed,
        )?;
        let Some(core) = self.replayer.core() else {
            return Err(TextFault::Memory);
        };
        let volume = Volume { header, digest };
        self.sequence
            .add(core.config(), volume, line, calls.len() as u32, false)?;
        let (mut calls, mut replies) = (calls, replies);
        let Ok(()) = self.calls.append(&mut calls) else {
            return Err(TextFault::Memory);
        };
        match self.replies.append(&mut replies) {
            Ok(()) => Ok(()),
            Err(_) => Err(TextFault::Memory),
        }
    }

    fn end<R: Threads + Wait + Sync>(self, rt: &R) {
        wipe_left(rt, self.replayer);
    }

    fn give<K: Sink, R: Threads + Wait + Sync>(
        self,
        rt: &R,
        alloc: Global,
        out: &mut K,
    ) -> Result<Answered, TextFault> {
        let ReplayAccount {
            replayer,
            calls,
            replies,
            sequence,
        } = self;
        let Ok(core) = replayer.finish() else {
            return Err(TextFault::Memory);
        };
        let mut core = core;
        core.wipe(rt);
        // (its memory is given back before the text is made)
        let (config, _) = core.into_parts();
        let answered = Answered::of(&replies);
        give_volumes(alloc, &config, sequence.entries, &calls, &replies, out)?;
        Ok(answered)
    }
}
