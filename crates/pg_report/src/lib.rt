//! Reports: the texts that the program answers with, put on a sink.
//!
//! What the crate promises the layer above: `report_file_fault` puts the line of a file's fault (`specs/Refusal.antt`),
//! `report_doc_fault` that of a document's (`specs/Documents.antt`), and `report_obligations` the text of an outline's obligations
//! (`specs/Obligations.antt`), byte for byte and one line at a time. That text has the givens and the goal of each obligation as
//! they are to follow (`specs/Meaning.antt`). `report_judgement` puts the text of a judgement, with the true atoms of a rejection
//! (`specs/Judged.antt`), and `report_made` that of a made outline, with the visited nodes (`specs/Made.antt`). `report_verified` puts the
//! line of a verified derivation (`specs/Verified.antt`), and `report_replayed` the last line of a replay (`specs/Replayed.antt`). A report
//! answers `Write` only where the sink's count of faults rose; then, and where memory runs out, a prefix of its text at most is written,
//! and of a single line nothing where memory runs out.
#![tactic(auto)]

mod document;
mod fault;
mod fresh;
mod judged;
mod laws;
mod lines;
mod made;
mod obligations;
mod refusal;
mod replayed;
mod verified;
mod words;

pub use document::report_doc_fault;
pub use fault::ReportFault;
pub use judged::report_judgement;
pub use laws::{outcomes_are_told, what_is_printed_is_meant};
pub use made::report_made;
pub use obligations::report_obligations;
pub use refusal::report_file_fault;
pub use replayed::report_replayed;
pub use verified::report_verified;
