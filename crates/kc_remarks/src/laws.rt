//! Laws of remarks.
ghost use Rattle.std.specs.Prelude.{◌≡◌, List, filter, length};
ghost use Rattle.kc_types.specs.declared.call.Call.{Call};
ghost use Rattle.kc_model.specs.State.{State};
ghost use Rattle.kc_model.specs.Next.{replies_from};
ghost use Rattle.kc_model.specs.Lawful.{IsLawful};
ghost use Rattle.kc_remarks.specs.Attempts.{AllAttemptsAreCounted};
ghost use Rattle.kc_remarks.specs.Unread.{NotesShowNoBytes, NotesAreRedacted};
ghost use Rattle.kc_remarks.specs.Remarks.{notes};
ghost use Rattle.kc_remarks.specs.Denials.{is_denied, is_denial, is_to_naming, is_naming};

/// As many calls are noted as denied as replies refuse or reject one.
pub fn denied()
    ensures { (m : State) (calls : List Call) → length (filter is_denied (notes m calls)) ≡ length (filter is_denial (replies_from m calls)) }
{}

/// Notes show nothing of bytes that decide nothing: those that virtual processors write, granted or not, and those that
/// the host writes to frames of active VMs or to frames that it never hands to a booting VM.
pub fn unread()
    ensures bytes { (m : State) (calls : List Call) → IsLawful m → NotesShowNoBytes m calls }
    ensures redacted { (m : State) (calls : List Call) → IsLawful m → NotesAreRedacted m calls }
{}

/// As many replies are to calls that name a frame or a slot as calls do: `take` alone, which names neither, gets a frame,
/// or is refused since none is free.
pub fn naming()
    ensures { (m : State) (calls : List Call) → length (filter is_to_naming (replies_from m calls)) ≡ length (filter is_naming calls) }
{}

/// The attempts that a summary counts in each life are the calls of that life that are refused at a frame of its VM.
pub fn attempts()
    ensures { (m : State) (calls : List Call) → IsLawful m → AllAttemptsAreCounted m calls }
{}
