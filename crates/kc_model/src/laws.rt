//! Laws of the definitions, for every trace from every state that a core may be in.
ghost use Rattle.std.specs.Prelude.{ℕ, List};
ghost use Rattle.kc_types.specs.Configuration.{Configuration, IsConfiguration};
ghost use Rattle.kc_types.specs.declared.call.Call.{Call};
ghost use Rattle.kc_model.specs.State.{State};
ghost use Rattle.kc_model.specs.Lawful.{IsLawful};
ghost use Rattle.kc_model.specs.Safety.{IsSafe};
ghost use Rattle.kc_model.specs.Passing.{IsPassedOn};
ghost use Rattle.kc_model.specs.OwnMemory.{IsOwnMemory};
ghost use Rattle.kc_model.specs.Starting.{IsStarted};
ghost use Rattle.kc_model.specs.Launches.{AreLaunchedApart, IsLaunchOf};
ghost use Rattle.kc_model.specs.Availability.{IsAvailable};
ghost use Rattle.kc_model.specs.Arriving.{IsArrived};
ghost use Rattle.kc_model.specs.Serving.{IsServing};
ghost use Rattle.kc_model.specs.Sharing.{IsShared};
ghost use Rattle.kc_model.specs.Writing.{IsWritten};
ghost use Rattle.kc_model.specs.Blind.{HostIsBlind};
ghost use Rattle.kc_model.specs.Undisturbed.{IsUndisturbed, IsUndisturbedFromBoot};
ghost use Rattle.kc_model.specs.Promises.{KeepsPromises};
ghost use Rattle.kc_model.specs.Redaction.{BytesDecideNothing};
ghost use Rattle.kc_model.specs.LeavingOut.{AccessesChangeNothing};
ghost use Rattle.kc_model.specs.Blanking.{IsAuditedBlank};
ghost use Rattle.kc_model.specs.CustodyLaws.{IsCustody};
ghost use Rattle.kc_model.specs.CustodyBlind.{CustodyIsBlind};
ghost use Rattle.kc_model.specs.Bars.{AreBars};
ghost use Rattle.kc_model.specs.Summaries.{AreSummaries};

/// Each frame stays in the list of its owner and in no other; the host is served only at its own frames and at shared
/// ones; a slot that became active was measured; and the bytes of a private page change only by its VM's own calls.
pub fn safety()
    ensures { (m : State) (calls : List Call) → IsLawful m → IsSafe m calls }
{}

/// A frame stays with its owner or goes one of four ways: what leaves a VM is zero and free before anybody else has
/// it, what comes to the host is zero, and what comes to a VM has the host's bytes. A call that names another slot, or
/// none, leaves a slot and its private frames as they were. No frame is lost.
pub fn passing()
    ensures { (m : State) (calls : List Call) → IsLawful m → IsPassedOn m calls }
{}

/// An active VM's private page holds what its own virtual processors wrote at its guest frame, and that is what they
/// read.
pub fn own_memory()
    ensures { (m : State) (calls : List Call) → IsLawful m → IsOwnMemory m calls }
{}

/// A slot that becomes active runs what was measured: its memory is its boot images, with zeros after the end of each,
/// and nothing else, and the digest of what each image then holds is approved.
pub fn starting()
    ensures { (m : State) (calls : List Call) → IsLawful m → IsStarted m calls }
{}

/// A launch measurement is of one boot: images whose texts are the same are the same, each at its place and in its order.
/// A measurement that is approved is thus that of another boot only if SHA-256 has a collision.
pub fn launches()
    ensures apart { AreLaunchedApart }
    ensures digest { (m : State) (v : ℕ) → IsLaunchOf m v }
{}

/// A registered virtual processor of an active VM is never refused a read or a write of a mapped page, and `clear` is
/// never refused for a slot that is not empty. Only `clear` and the VM's own `drop` take a page from it.
pub fn availability()
    ensures { (m : State) (calls : List Call) → IsLawful m → IsAvailable m calls }
{}

/// The bytes of a frame that stays with its owner, shared or not, change only by the host's served writes to it and by
/// its own VM's served writes at its guest frame, and by the `verify` that zeroes what follows a boot image.
pub fn writing()
    ensures { (m : State) (calls : List Call) → IsLawful m → IsWritten m calls }
{}

/// A page comes to a VM unshared, and while the VM has it only the VM's own grants and revokes change how often it is
/// shared, each by one.
pub fn sharing()
    ensures { (m : State) (calls : List Call) → IsLawful m → IsShared m calls }
{}

/// A page comes to a running VM only at a guest frame for which one of its virtual processors waits, and to a booting one
/// only as the next page of an image.
pub fn arriving()
    ensures { (m : State) (calls : List Call) → IsLawful m → IsArrived m calls }
{}

/// Only an active VM is served; it may always take back what it shares and give up what it does not; and a revoke leaves
/// one grant less.
pub fn serving()
    ensures { (m : State) (calls : List Call) → IsLawful m → IsServing m calls }
{}

/// A trace that grants none of a slot's secret guest frames shows the host nothing of their bytes.
pub fn blindness()
    ensures { (m : State) (calls : List Call) → IsLawful m → HostIsBlind m calls }
{}

/// What a VM is answered, and what it has, depends only on what reaches it, through whatever frames: the calls that
/// name it, the bytes of the pages that it is given, and what the host writes to its shared pages. Whatever else the
/// host and the other VMs do makes no difference.
pub fn undisturbed()
    ensures { (m : State) (calls : List Call) → IsLawful m → IsUndisturbed m calls }
{}

/// The same from boot, on any two machines, however many frames they have.
pub fn undisturbed_from_boot()
    ensures { (c : Configuration) (calls : List Call) → IsConfiguration c → IsUndisturbedFromBoot c calls }
{}

/// Every trace keeps all of these promises, and the host is blind from each of its calls on.
pub fn promises()
    ensures { (m : State) (calls : List Call) → IsLawful m → KeepsPromises m calls }
{}

/// Some bytes decide nothing: those that virtual processors write, and those that the host writes to frames of active
/// VMs or to frames that it never hands to a booting VM. Traces that differ only in such bytes, and not in their
/// number, have the same events, and so the same custody and lives, and the same replies except for the bytes that
/// reads are answered. The states that they leave differ only in bytes of active VMs' frames and of such frames of the
/// host's.
pub fn redaction()
    ensures { (m : State) (calls : List Call) → IsLawful m → BytesDecideNothing m calls }
{}

/// Reads and writes may be left out of a trace if they only change bytes that do not count: those by virtual
/// processors that wait for no page, on mapped guest frames, and those by the host, except its writes of bytes that
/// may become a boot image's. Without them the trace yields the same custody, with each change on the line that its
/// call had.
pub fn leaving_out()
    ensures { (m : State) (calls : List Call) → IsLawful m → AccessesChangeNothing m calls }
{}

/// A long run can be audited volume by volume without secrets: from a state in which the pages of active VMs are
/// zeroed, the redacted calls yield the custody of the calls themselves, and leave the state that those leave, with
/// the pages of its active VMs zeroed.
pub fn blanking()
    ensures { (m : State) (calls : List Call) → IsLawful m → IsAuditedBlank m calls }
{}

/// What the changes of custody of a trace say about the calls between them. There is a change of a frame for a call
/// exactly if the call changed its custody, and it gives that custody before and after the call. So through calls
/// without one nobody else owns the frame, and its guest frame, its grants and the host's reach stay as they were. If
/// it is a VM's and not shared, its bytes change only by writes for its VM, and the host is served none of them; once
/// the VM is active, they change only by writes of its own virtual processors. Changes of slots are as exact: a slot
/// is active from the change that reports it active, with images that all have approved digests, to the one that
/// reports it empty.
pub fn custody()
    ensures { (m : State) (calls : List Call) → IsLawful m → IsCustody m calls }
{}

/// What is reported of custody, by lines, summary or picture, shows nothing of bytes that a VM never granted.
pub fn custody_blindness()
    ensures { (m : State) (calls : List Call) → IsLawful m → CustodyIsBlind m calls }
{}

/// The bars of a frame follow one another without gaps from a trace's first line to its end, and each gives the
/// custody of its frame after the call on each of its lines.
pub fn bars()
    ensures { (m : State) (calls : List Call) → IsLawful m → AreBars m calls }
{}

/// A summary has a life for each call that registers a VM, in their order. Its keys are what states and replies say of
/// the calls from that one to the one that clears the VM, or to the trace's end: the lines of the calls after which
/// the slot is active, dead or empty; its images as they were measured; the most frames that its list has, and how
/// many it has at the end; how many frames it ever owned and how many it lost; how many reads and writes the host was
/// served at its frames; and which of them it shared, from which call to which. If there are VMs before the first call,
/// their lives come first, in the order of their slots: what came about before it has the header's line.
pub fn summaries()
    ensures { (m : State) (calls : List Call) → IsLawful m → AreSummaries m calls }
{}
