//! Why a whole live run gave no answer.
use crate::book::History;

/// Why a live run gave no answer. Programs, and the calls of a program, are counted from 0.
#[derive(Clone, Copy, Debug, PartialEq, Eq)]
pub enum LiveCause {
    /// The program, and its first call whose actor is not the program's.
    NotYours(usize, usize),
    /// There are more than 65,536 calls in all.
    HistoryFull,
    /// Memory could not be had.
    Memory,
    /// A thread could not be started.
    Start,
    /// The receipts are not those of the history, or it is of another configuration or has other volumes.
    Unsettled,
    /// The first program whose actor an earlier program has, or whose slot or virtual processor the core does not have.
    BadActor(usize),
}

/// A live run that gave no answer, and the closed history that it left: none if it did not begin.
#[derive(Drop)]
pub struct LiveStop {
    pub cause: LiveCause,
    pub history: Option<History>,
    /// Whether the receipts of all programs are those of the history; a run that did not begin has none.
    pub is_settled: bool,
}
