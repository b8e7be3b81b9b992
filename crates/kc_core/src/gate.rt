//! What runs just before and just after each call.

/// A gate is given each call's number, on the thread that makes the call. A gate that sleeps or locks holds what it
/// needs for that in its own fields.
pub trait Gate {
    /// Runs just before call `number`, counted from 0 over all calls of the run.
    fn before(&self, number: usize);

    /// Runs just after call `number`, counted from 0 over all calls of the run.
    fn after(&self, number: usize);

    /// Whether a call may have to wait for another one. If none does, a wave may run on one thread.
    fn may_wait(&self) -> bool {
        true
    }
}

/// A gate that is always open: it does nothing.
#[derive(Clone, Copy, Debug)]
pub struct OpenGate;

impl Gate for OpenGate {
    fn before(&self, _number: usize) {}

    fn after(&self, _number: usize) {}

    fn may_wait(&self) -> bool {
        false
    }
}
