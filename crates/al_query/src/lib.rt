//! Questions about units, their answers, and the recorder of both.
//!
//! A *question* (`Query`) is for the views of a name in a part of a unit, or for a property of the unit. A *table* gives an answer to
//! each question. A *log* is the questions that a check asked, each once, with their answers. A table *agrees* with a log if it
//! gives the answers that the log has.
//!
//! - `query`, `key`: questions, and questions as keys of a map.
//! - `answer`, `same`: answers, and whether two are the same.
//! - `recorder`, `indexed_log`: the recorder, which asks and keeps the log.
//! - `laws`: which units may be asked for, as contracts of functions without code.
#![tactic(auto)]

mod answer;
mod indexed_log;
mod key;
pub mod laws;
mod query;
mod recorder;
mod same;

pub use answer::{
    Answer, AnswerKind, Completion, ContextView, UnitForm, UseClause, UseInPart, form_by_view,
};
pub use query::{Property, Query};
pub use recorder::{Answers, ReadLog, Recorder};
