// What a chart of the schedule shows: for each task and each of 1,200 stretches of time what the task did in it. A stretch is as short as it
// can be for all to find room, so that a chart takes as much memory for a long run as for a short one.
ghost use Rattle.std.specs.Prelude.{◌≤◌};

use al_base::NoMemory;
use al_tasks::{TaskLook, TaskState};
use std::alloc::Global;

/// Stretches of time.
pub(crate) const COLUMNS: usize = 1200;

/// The environment task and 63 others.
pub(crate) const ROWS: usize = 64;

pub(crate) const RUNNING: u8 = 1;

pub(crate) const INSIDE: u8 = 2;

pub(crate) const READY: u8 = 4;

pub(crate) const WAITING: u8 = 8;

pub(crate) const DELAYED: u8 = 16;

pub(crate) const STARTING: u8 = 32;

/// What tasks did in each stretch, as sets of kinds.
pub(crate) struct Chart {
    // ROWS times COLUMNS sets.
    sets: Vec<u8>,
    // How many instructions a stretch is long.
    width: u64,
    // Of each task what it does, and since when.
    doing: Vec<u8>,
    since: Vec<u64>,
    end: u64,
}

impl Drop for Chart {
    fn drop(self) {
        let Chart {
            sets: _,
            width: _,
            doing: _,
            since: _,
            end: _,
        } = self;
    }
}

// The kind of what a task is doing; `None` if it has ended.
fn kind_of(look: &TaskLook) -> u8 {
    match look.state {
        TaskState::Running => {
            if look.object.is_some() {
                INSIDE
            } else {
                RUNNING
            }
        }
        TaskState::Ready => READY,
        TaskState::Waiting(_) => WAITING,
        TaskState::Delayed(_) => DELAYED,
        TaskState::Created | TaskState::Activating => STARTING,
        TaskState::Ended => 0,
    }
}

// Half as many stretches, each twice as long, of one task.
fn halve(row: &mut [u8]) {
    for column in 0..row.len() {
        let first = row.get(column.saturating_mul(2)).copied().unwrap_or(0);
        let after = column.saturating_mul(2).saturating_add(1);
        let second = row.get(after).copied().unwrap_or(0);
        if let Some(set) = row.get_mut(column) {
            *set = first | second;
        }
    }
}

impl Chart {
    /// Without room, for a trace that isn't a picture.
    pub(crate) fn none(alloc: Global) -> Chart {
        Chart {
            sets: Vec::new(alloc),
            width: 1,
            doing: Vec::new(alloc),
            since: Vec::new(alloc),
            end: 0,
        }
    }

    /// An empty chart, from a moment on.
    pub(crate) fn new(alloc: Global) -> Result<Chart, NoMemory> {
        let mut chart = Chart::none(alloc);
        chart.sets.resize(ROWS * COLUMNS, 0)?;
        chart.doing.resize(ROWS, 0)?;
        chart.since.resize(ROWS, 0)?;
        Ok(chart)
    }

    /// How many instructions a stretch is long, at least 1.
    pub(crate) fn width(&self) -> u64
        ensures { 1 ≤ result }
    {
        self.width.max(1)
    }

    /// Up to where it goes.
    pub(crate) fn end(&self) -> u64 {
        self.end
    }

    /// What a task did in a stretch.
    pub(crate) fn set(&self, task: usize, column: usize) -> u8 {
        let place = task.saturating_mul(COLUMNS).saturating_add(column);
        self.sets.get(place).copied().unwrap_or(0)
    }

    // Makes stretches long enough for a moment to have room.
    fn reach(&mut self, slot: u64) {
        for _doubling in 0..64 {
            if slot / self.width() < COLUMNS as u64 {
                break;
            }
            for row in self.sets.chunks_mut(COLUMNS) {
                halve(row);
            }
            self.width = self.width().saturating_mul(2);
        }
    }

    // A task did something from a moment to another one.
    fn mark(&mut self, task: usize, kind: u8, from: u64, to: u64) {
        if kind == 0 {
            return;
        }
        self.reach(to);
        let first = from / self.width();
        let last = to.saturating_sub(1).max(from) / self.width();
        for column in first..last.saturating_add(1) {
            let place = task.saturating_mul(COLUMNS).saturating_add(column as usize);
            if let Some(set) = self.sets.get_mut(place) {
                *set |= kind;
            }
        }
    }

    /// A task does something else from a moment on.
    pub(crate) fn note(&mut self, look: &TaskLook, slot: u64) {
        let task = look.number as usize;
        let kind = self.doing.get(task).copied().unwrap_or(0);
        let from = self.since.get(task).copied().unwrap_or(slot);
        self.mark(task, kind, from, slot);
        if let Some(doing) = self.doing.get_mut(task) {
            *doing = kind_of(look);
        }
        if let Some(since) = self.since.get_mut(task) {
            *since = slot;
        }
        self.end = self.end.max(slot);
    }

    /// The chart ends at a moment.
    pub(crate) fn close(&mut self, slot: u64) {
        for task in 0..ROWS {
            let kind = self.doing.get(task).copied().unwrap_or(0);
            let from = self.since.get(task).copied().unwrap_or(slot);
            self.mark(task, kind, from, slot);
        }
        self.end = self.end.max(slot);
    }
}
