//! What is said of the calls that a trace's machine refused or rejected.
use kc_remarks::{Answered, Denials, refusals};
use std::fmt;

/// How many calls were denied for each reason, in the order of the reasons' numbers, after a colon; nothing if none was.
#[derive(Clone, Copy)]
struct Reasons(Denials);

impl fmt::Display for Reasons {
    fn fmt<W: fmt::Write>(&self, f: &mut fmt::Formatter<W>) -> fmt::Result {
        let mut before = ": ";
        for refusal in refusals() {
            let count = self.0.refused(refusal);
            if count > 0 {
                write!(f, "{before}{count} {}", refusal.name())?;
                before = ", ";
            }
        }
        let rejected = self.0.rejected();
        if rejected > 0 {
            write!(f, "{before}{rejected} rejected")?;
        }
        Ok(())
    }
}

/// Says how many calls were refused or rejected, and for what.
pub fn explain_denials(rt: &HostRuntime, answered: &Answered) {
    let (denied, calls) = (answered.denials.total, answered.calls);
    let reasons = Reasons(answered.denials);
    let _ = eprintln!(rt; "  {denied} of {calls} calls were refused or rejected{reasons}");
}

/// Says which machine calls were made on if nothing names one.
pub fn explain_default(rt: &HostRuntime) {
    let _ = eprintln!(rt;
        "  without --config the machine is the default one: frames 0 to 7, slots 0 to 15"
    );
}
