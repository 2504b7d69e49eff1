//! The machine of whole programs: tasks and protected objects, one event at a time (ARM 9, D.2, D.3), and runs of images from their start.
//!
//! - A *world* is a running program. An *event* is an instruction of the running task, or a *tick*: a millisecond passes. A *run* is a list of
//!   events: a tick comes after every n instructions, and whenever no task is ready.
//! - A *ready* task can run, and the first one does. The others are *paused*. A task's *level* is its active priority. The ready tasks are in the
//!   order of their levels, so priorities alone keep two tasks from being inside one protected object.
//! - `program` is a program from its image. `tasks`, `queues` and `state` are what changes: tasks, lists of tasks, and the running program. `acts`
//!   are the instructions on tasks, `events` one event, `runs` a run.
//! - `world` is what users have of a running program, and `running` runs an image to its end. `looking` and `witness` show what happens during a run.
//! - `laws` and `levels_laws` say what holds after every list of events.
#![tactic(auto)]

mod acts;
mod event;
mod events;
mod laws;
pub mod levels_laws;
mod looking;
mod program;
mod queues;
mod running;
mod runs;
mod state;
mod tasks;
mod witness;
mod world;

pub use event::{Ending, Event, Pause, Status};
pub use laws::{exclusion, parts_are_the_run, runs_are_events};
pub use looking::{Advanced, ErrorCause, TaskLook, TaskState};
pub use running::{RunEnd, RunReport, run};
pub use witness::Witness;
pub use world::World;
