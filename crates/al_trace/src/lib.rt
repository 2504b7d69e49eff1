//! A trace of what a program did: which task ran, was ready, was delayed or waited, inside which protected object and with which priority, event by
//! event. A trace is written as text, as a value change dump, as trace events in JSON, or as a chart.
//!
//! - [`Trace`] watches a run (`World::watched_run_on`) and writes a row for each change; the run is the same without it.
//! - The ending of a file's name gives the [`TraceFormat`].
//! - [`task_report`] says where the tasks are when a run has ended, with the names that [`ReadSources`] have for them.
#![tactic(auto)]

mod chart;
mod format;
mod json;
mod moment;
mod named;
mod names;
mod output;
mod picture;
mod report;
mod rows;
mod sources;
mod text;
mod tracing;
mod value_changes;

pub use format::TraceFormat;
pub use named::ReadSources;
pub use report::task_report;
pub use tracing::Trace;
