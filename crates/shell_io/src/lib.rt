//! What a run of the shell reads and writes: lines and units of its input, answers and fault lines
//! with their texts, the records of an import and the files that they come from.
#![tactic(auto)]

mod line_reader;
mod output;
mod records;
mod run;
mod source;
mod texts;
mod written;

pub use crate::line_reader::{LineReader, Refusal, end_refusal, first_line};
pub use crate::output::{Answer, Complaint, Output};
pub use crate::records::{fitted, left_records, skipped, warnings};
pub use crate::run::{Outputs, RunFault, Status, echo_text, flush, is_over, read_chunk, tell};
pub use crate::source::{Source, SourceFault};
pub use crate::texts::{FaultText, fault_text, split_text, statement_text};
