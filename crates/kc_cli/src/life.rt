//! What is made of a trace, or of the volumes of a life, which are read one after another.
ghost use Rattle.std.specs.Prelude.{◌≡◌, ◌≢◌, ◌<◌, ◌++◌, ◌∷◌, ◌⊎◌, [], ℕ, List, Option, false, true, IfOk, IfErr, IfSome, OnOk, Err};
ghost use Rattle.std.specs.Io.KnownBytes.{IsAtEnd};
ghost use Rattle.std.specs.Thread.{IsSync};
ghost use Rattle.kc_model.specs.State.{State};
ghost use Rattle.kc_trace.specs.declared.fault.TraceFault.{TraceFault};
ghost use Rattle.kc_texts.specs.Ends.{Seen, ReadFailed, seen};
ghost use Rattle.kc_texts.specs.Written.{Writes, Begins};
ghost use Rattle.kc_faults.specs.Origins.{BeginsIn};
ghost use Rattle.kc_faults.specs.Outcomes.{TellsSources, TellsTexts, TellsSink};
ghost use Rattle.kc_cli.specs.Answers.{AreAllAnswered};
ghost use Rattle.kc_cli.specs.Engine.{IsReplayFault};
ghost use Rattle.kc_cli.specs.Kinds.{Kind, TellsAccount, IsNextRefused};
ghost use Rattle.kc_cli.specs.Volumes.{known};

use kc_faults::TextFault;
use kc_remarks::Answered;
use kc_texts::{Sink, Source};
use std::alloc::Global;
use std::sync::Wait;
use std::thread::Threads;

/// An account of a trace, or of the volumes of a life that are read one after another: what is written of these is what
/// is written of one trace with the calls of all, but for what names the volumes.
pub trait Account {
    /// What is ordered.
    type Order: Copy;

    /// What these accounts are of, and what is written of them.
    ghost kind: { Kind Self Self.Order };

    /// Begins an account: reads what the calls begin with to its end.
    fn begin<C: Source, R: Threads + Wait + Sync>(
        rt: &R,
        alloc: Global,
        start: &mut C,
        order: Self::Order,
    ) -> Result<Self, TextFault>
        requires sync { IsSync R.row }
        requires start { C.failed start.old ≡ false }
        ensures ok { IfOk result (λ account. (m : State) × kind.begun order account m (C.left start.old)
            × kind.told order account m []) }
        ensures sources { TellsSources (seen C.failed C.left start.old start.new ∷ []) result }
        ensures texts { (trace : Seen)
            → TellsTexts (kind.origin order) (seen C.failed C.left start.old start.new) trace (Unit {0}) result }
        ensures tells { TellsAccount (kind.slot order) (kind.workers order) (kind.origin order) (C.left start.old)
            (Unit {0}) result }
        ensures mark { OnOk result (C.failed start.new ≡ false) }
        ensures write { result ≢ Err TextFault.Write };

    /// Reads a trace to its end, which is the next volume, and makes its calls as they are read. Only if it is followed
    /// can another one be read after it. After an `Err` the account is of no use, and is ended. A source that fails, or
    /// that has more than 1,073,741,824 bytes, is `Read`, even if its bytes so far are refused already. Out of memory
    /// comes before a fault of the trace that is further on, and that its header is not one that may come there after
    /// everything else. If the volumes before it have more than 67,043,328 calls, it is not read, and there are too many.
    fn read<T: Source, R: Threads + Wait + Sync>(
        &mut self,
        rt: &R,
        alloc: Global,
        trace: &mut T,
        is_followed: bool,
    ) -> Result<(), TextFault>
        requires sync { IsSync R.row }
        requires trace { T.failed trace.old ≡ false }
        requires told { (order : Self.Order) × (m : State) × (sources : List (Option (List ℕ)))
            × kind.told order self.old m sources }
        ensures ok { OnOk result ((order : Self.Order) (m : State) (sources : List (Option (List ℕ)))
            → kind.told order self.old m sources → kind.of order self.new m (sources ++ T.left trace.old ∷ [])
            × (is_followed ≡ true → kind.told order self.new m (sources ++ T.left trace.old ∷ []))) }
        ensures begun { (order : Self.Order) (m : State) (start : Option (List ℕ))
            → kind.begun order self.old m start → kind.begun order self.new m start }
        ensures first { kind.first self.new ≡ kind.first self.old }
        ensures ended { OnOk result (IsAtEnd (T.left trace.new)) }
        ensures trace { (fault : TraceFault) → result ≡ Err (TextFault.Trace fault)
            → (order : Self.Order) (m : State) (sources : List (Option (List ℕ))) → kind.told order self.old m sources
            → IsNextRefused m.config (kind.first self.old) sources (seen T.failed T.left trace.old trace.new) fault }
        ensures read { result ≡ Err TextFault.Read
            → ReadFailed (T.failed trace.new) (T.left trace.old) (T.left trace.new) }
        ensures source { T.failed trace.new ≡ true → result ≡ Err TextFault.Read }
        ensures started { result ≡ Err TextFault.Start → (order : Self.Order) (m : State)
            (sources : List (Option (List ℕ))) → kind.told order self.old m sources → 1 < kind.workers order }
        ensures fault { IfErr result IsReplayFault };

    /// Ends an account of which nothing is written: the core is wiped.
    fn end<R: Threads + Wait + Sync>(self, rt: &R)
        requires sync { IsSync R.row };

    /// Wipes the core, and writes what is wanted; the result counts the calls, and those that were refused or rejected.
    fn give<K: Sink, R: Threads + Wait + Sync>(
        self,
        rt: &R,
        alloc: Global,
        out: &mut K,
    ) -> Result<Answered, TextFault>
        requires sync { IsSync R.row }
        requires out { K.failed out.old ≡ false }
        requires told { (order : Self.Order) × (m : State) × (sources : List (Option (List ℕ)))
            × kind.of order self m sources }
        ensures answered { (order : Self.Order) (m : State) (start : Option (List ℕ))
            (sources : List (Option (List ℕ))) → kind.of order self m sources → kind.begun order self m start
            → IfOk result (AreAllAnswered (kind.origin order) start (known sources)) }
        ensures ok { (order : Self.Order) (m : State) (start : Option (List ℕ))
            (sources : List (Option (List ℕ))) → kind.of order self m sources → kind.begun order self m start
            → OnOk result (Writes (kind.text order) start (known sources) (K.taken out.old) (K.taken out.new)) }
        ensures sink { (order : Self.Order) (m : State) (start : Option (List ℕ))
            (sources : List (Option (List ℕ))) → kind.of order self m sources → kind.begun order self m start
            → TellsSink (K.failed out.new)
            (Begins (kind.text order) start (known sources) (K.taken out.old) (K.taken out.new)) (out.new ≡ out.old) result }
        ensures fault { IfErr result (λ fault. (fault ≡ TextFault.Memory) ⊎ (fault ≡ TextFault.Write)) };

    /// What an account that says what may come next is of.
    ghost leads: { (order : Self.Order) (account : Self) (m : State) (sources : List (Option (List ℕ)))
        → kind.told order account m sources → kind.of order account m sources };

    /// Where its calls begin.
    ghost begins: { (order : Self.Order) (account : Self) (m : State) (start : Option (List ℕ))
        → kind.begun order account m start
        → IfSome start (λ text. BeginsIn (kind.origin order) text m (kind.first account)) };
}
