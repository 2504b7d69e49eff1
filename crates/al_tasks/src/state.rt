// The parts of a running program that its events change.
use crate::Ending;
use crate::tasks::Task;
use std::alloc::Global;

/// The parts of a running program that its events change: memory; the ready tasks in the order of their dispatch, and the paused ones by number; how
/// many tasks are created, whether they were made ready, and how many activations haven't ended; the clock, in milliseconds; the output; how the
/// program ended, if it did.
pub(crate) struct State {
    pub(crate) memory: Vec<i64>,
    pub(crate) ready: Vec<Task>,
    pub(crate) paused: Vec<Task>,
    pub(crate) created: u32,
    pub(crate) gone: bool,
    pub(crate) activations: u32,
    pub(crate) clock: i64,
    pub(crate) output: Vec<u8>,
    pub(crate) ended: Option<Ending>,
    pub(crate) alloc: Global,
}

impl Drop for State {
    fn drop(self) {
        let State {
            memory: _,
            ready: _,
            paused: _,
            created: _,
            gone: _,
            activations: _,
            clock: _,
            output: _,
            ended: _,
            alloc: _,
        } = self;
    }
}
