//! Texts in and out: traces of calls, whole or in pieces, replies, and what is reported of custody.
//!
//! - how a trace or a reply is spelled: `specs/Spelling.antt`, `specs/Trace.antt`, `specs/ReplyText.antt`
//! - how a trace is read: `src/reader.rt`, `src/line.rt`, without what guests write: `specs/Redacting.antt`; why it is
//!   refused: `src/fault.rt`, `specs/Faults.antt`
//! - a line of a trace, a reply, a call with its reply, a change, a remark, a summary: `src/writer.rt`,
//!   `src/reply_writer.rt`, `src/answer_writer.rt` (`specs/AnswerText.antt`), `src/custody_writer.rt`
//!   (`specs/CustodyText.antt`), `src/remark_writer.rt` (`specs/RemarkText.antt`), `src/summary_writer.rt`
//!   (`specs/SummaryText.antt`)
//! - the headers of traces: `src/header.rt`
//! - the volumes that were read, and which one a line is in: `src/volume_writer.rt`
#![tactic(auto)]

mod answer_writer;
mod custody_writer;
mod expected;
mod fault;
mod head_reader;
mod header;
mod header_writer;
pub mod laws;
mod line;
mod reader;
mod remark_writer;
mod reply_writer;
mod summary_writer;
mod volume_writer;
mod writer;

pub use answer_writer::{LONGEST_ANSWER, push_answer};
pub use custody_writer::{
    Digests, Heading, LONGEST_CHANGE, StartDigest, VERSION, push_change, push_custody_end,
    push_custody_header,
};
pub use expected::{Expected, HeaderFault, MachinePart};
pub use fault::TraceFault;
pub use head_reader::{read_header, read_position};
pub use header::{Head, Header, Position};
pub use header_writer::{push_header, push_position};
pub use line::call_of_line;
pub use reader::{TraceReader, read_trace};
pub use remark_writer::{call_name, push_access, push_denied};
pub use reply_writer::{LONGEST_REPLY, push_reply, write_replies};
pub use summary_writer::summary_text;
pub use volume_writer::{
    Chain, LONGEST_PLACE, Order, VolumeEntry, VolumeNumbers, push_place, push_volumes, volume_of,
};
pub use writer::{LONGEST_CALL, header_of, push_call, write_trace};
