//! The report of a sign-off as a value and as text, written and read. What a report is and which text it has stands in
//! `specs/Reports`, what the lines of a journal say in `specs/Entries`.
#![tactic(auto)]

mod decode;
mod decode_journal;
mod line;
mod parts;
mod read;
mod read_clauses;
mod read_end;
mod read_journal;
mod read_props;
mod read_set;
mod read_stimuli;
mod read_whole;
mod refusal;
mod take;
mod tokens;
mod value;
mod version;
mod what;
mod words;
mod write;
mod write_journal;
mod write_stimuli;

pub use parts::{PropLine, PropLines, PropStim, Sizes, Stimuli};
pub use read::read_report;
pub use refusal::ReportRefusal;
pub use value::Report;
pub use write::text_of;

#[cfg(test)]
mod tests;
