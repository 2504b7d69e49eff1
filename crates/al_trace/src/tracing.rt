// A run with its trace.

use crate::chart::{Chart, ROWS};
use crate::format::TraceFormat;
use crate::moment::Moment;
use crate::names::Names;
use crate::output::Output;
use crate::rows::{Row, has_changed};
use crate::{json, picture, text, value_changes};
use al_base::NoMemory;
use al_link_image::Image;
use al_tasks::{Advanced, Event, TaskLook, TaskState, Witness, World};
use std::alloc::{AllocError, Global};
use std::io::Write;

// What is written is passed on as soon as there is so much of it.
const PASSED: usize = 65_536;

// The rows of a trace as they are made. They take as much memory for a long run as for a short one.
struct Rows {
    format: TraceFormat,
    names: Names,
    /// A tick comes after so many instructions.
    tick: u64,
    /// Rows come after so many events.
    from: u64,
    moment: Moment,
    is_open: bool,
    // Of a value change dump the time that was written last.
    nanos: u64,
    // What tasks were doing, by their numbers.
    looks: Vec<TaskLook>,
    out: String,
    chart: Chart,
}

impl Drop for Rows {
    fn drop(self) {
        let Rows {
            format: _,
            names: _,
            tick: _,
            from: _,
            moment: _,
            is_open: _,
            nanos: _,
            looks: _,
            out: _,
            chart: _,
        } = self;
    }
}

fn chart_for(alloc: Global, format: TraceFormat) -> Result<Chart, NoMemory> {
    match format {
        TraceFormat::Picture => Chart::new(alloc),
        _ => Ok(Chart::none(alloc)),
    }
}

impl Rows {
    // Of a run of the image from its start, with a tick after each `tick` instructions; they begin after `from` events.
    fn new(
        alloc: Global,
        image: &Image,
        format: TraceFormat,
        tick: u64,
        from: u64,
    ) -> Result<Rows, NoMemory> {
        let names = Names::new(alloc, image)?;
        let chart = chart_for(alloc, format)?;
        let mut looks = Vec::new(alloc);
        looks.reserve(ROWS)?;
        Ok(Rows {
            format,
            names,
            tick,
            from,
            moment: Moment::start(),
            is_open: false,
            nanos: 0,
            looks,
            out: String::new(alloc),
            chart,
        })
    }

    // Nanoseconds from the start.
    fn time(&self) -> u64 {
        self.moment.nanos(self.tick)
    }

    fn stamp(&self) -> json::Stamp {
        json::Stamp {
            nanos: self.time(),
            events: self.moment.events,
        }
    }

    // Rows for each task that has another state or priority, or is inside another object.
    fn push_rows(&mut self, world: &World) -> Result<(), AllocError> {
        let tasks = (world.created() as usize).min(ROWS - 1);
        for number in 0..tasks + 1 {
            let Some(now) = world.look(number as u32) else {
                continue;
            };
            match self.looks.get(number).copied() {
                None => {
                    self.push_row(world, None, now)?;
                    self.looks.push(now)?;
                }
                Some(before) => {
                    if has_changed(before, now) {
                        self.push_row(world, Some(before), now)?;
                        self.keep(number, now);
                    }
                }
            }
        }
        Ok(())
    }

    fn keep(&mut self, number: usize, now: TaskLook) {
        if let Some(look) = self.looks.get_mut(number) {
            *look = now;
        }
    }

    fn push_row(
        &mut self,
        world: &World,
        before: Option<TaskLook>,
        now: TaskLook,
    ) -> Result<(), AllocError> {
        if let TraceFormat::ValueChanges = self.format {
            self.push_time()?;
        }
        let at = self.stamp();
        let (unit, line) = match now.state {
            TaskState::Ended => (None, None),
            _ => world.source_of(now.place),
        };
        let row = Row {
            moment: self.moment,
            before,
            now,
            unit: self.names.unit(unit),
            line,
        };
        match self.format {
            TraceFormat::Text => text::push_row(&mut self.out, &row),
            TraceFormat::ValueChanges => value_changes::push_row(&mut self.out, &row, world),
            TraceFormat::Json => json::push_row(&mut self.out, &row, at),
            TraceFormat::Picture => {
                let slot = self.moment.slot(self.tick);
                self.chart.note(&now, slot);
                Ok(())
            }
        }
    }

    // The time of a value change dump, if it differs from the one before.
    fn push_time(&mut self) -> Result<(), AllocError> {
        let nanos = self.time();
        if nanos == self.nanos {
            return Ok(());
        }
        self.nanos = nanos;
        value_changes::push_time(&mut self.out, nanos)
    }

    fn push_tick(&mut self) -> Result<(), AllocError> {
        match self.format {
            TraceFormat::Text => text::push_tick(&mut self.out, self.moment),
            TraceFormat::ValueChanges => {
                self.push_time()?;
                value_changes::push_tick(&mut self.out, self.moment)
            }
            TraceFormat::Json => {
                let at = self.stamp();
                json::push_tick(&mut self.out, at)
            }
            TraceFormat::Picture => Ok(()),
        }
    }

    // What is before the rows, and what tasks are doing when these begin.
    fn open(&mut self, world: &World) -> Result<(), AllocError> {
        self.is_open = true;
        match self.format {
            TraceFormat::Text => text::push_opening(&mut self.out, &self.names)?,
            TraceFormat::ValueChanges => value_changes::push_opening(&mut self.out, &self.names)?,
            TraceFormat::Json => json::push_opening(&mut self.out, &self.names)?,
            TraceFormat::Picture => {}
        }
        self.push_rows(world)
    }

    // Rows for what an event did.
    fn note(&mut self, world: &World, event: Event) -> Result<(), AllocError> {
        if let Event::Tick = event {
            self.push_tick()?;
        }
        self.push_rows(world)
    }

    // Opens once so many events have come.
    fn open_at_last(&mut self, world: &World) -> Result<(), AllocError> {
        if !self.is_open && self.moment.events >= self.from {
            return self.open(world);
        }
        Ok(())
    }

    fn look_on(&mut self, world: &World, advanced: Advanced) -> Result<(), AllocError> {
        self.moment = self.moment.after(advanced);
        if !self.is_open {
            return self.open_at_last(world);
        }
        match advanced.event {
            Some(event) => self.note(world, event),
            None => Ok(()),
        }
    }

    fn push_end(&mut self, world: &World) -> Result<(), AllocError> {
        let status = world.status();
        let running = world.running().unwrap_or(0);
        let at = self.stamp();
        match self.format {
            TraceFormat::Text => text::push_end(&mut self.out, self.moment, status, running),
            TraceFormat::ValueChanges => self.push_time(),
            TraceFormat::Json => {
                json::push_end(&mut self.out, status, running, at)?;
                for look in self.looks.as_slice() {
                    json::push_last(&mut self.out, look, at)?;
                }
                json::push_close(&mut self.out)
            }
            TraceFormat::Picture => self.push_picture(),
        }
    }

    fn push_picture(&mut self) -> Result<(), AllocError> {
        let slot = self.moment.slot(self.tick);
        self.chart.close(slot);
        let tasks = self.looks.len();
        picture::push_opening(&mut self.out, &self.names, &self.chart, tasks)?;
        picture::push_grid(&mut self.out, &self.chart, self.tick, tasks)?;
        for (number, look) in self.looks.as_slice().iter().enumerate() {
            picture::push_task(&mut self.out, &self.names, &self.chart, number, look.base)?;
        }
        picture::push_close(&mut self.out, &self.names, tasks)
    }
}

/// A trace that is written to a file as the run goes on. If writing fails, the run goes on without a trace.
pub struct Trace<W: Write> {
    rows: Rows,
    output: Output<W>,
}

impl<W: Write + Drop> Drop for Trace<W> {
    fn drop(self) {
        let Trace { rows: _, output: _ } = self;
    }
}

impl<W: Write> Trace<W> {
    /// A trace of a run of the image from its start, with a tick after each `tick` instructions, whose rows begin after `from` events.
    ///
    /// # Errors
    ///
    /// `NoMemory` if memory runs out.
    pub fn new(
        alloc: Global,
        image: &Image,
        format: TraceFormat,
        tick: u64,
        from: u64,
        file: W,
    ) -> Result<Trace<W>, NoMemory>
    where
        W: Drop,
    {
        let rows = Rows::new(alloc, image, format, tick, from)?;
        Ok(Trace {
            rows,
            output: Output::new(file),
        })
    }

    // Passes on what is written, if there is much of it or all is wanted.
    fn pass_on(&mut self, all: bool) {
        if !all && self.rows.out.len() < PASSED {
            return;
        }
        self.output.write(self.rows.out.as_bytes());
        self.rows.out.clear();
    }

    /// Writes how the run ended, and all that is left; whether all could be written.
    ///
    /// # Errors
    ///
    /// `NoMemory` if memory runs out.
    pub fn finish(&mut self, world: &World) -> Result<bool, NoMemory> {
        if !self.rows.is_open {
            self.rows.open(world)?;
        }
        self.rows.push_end(world)?;
        self.pass_on(true);
        Ok(self.output.pass())
    }
}

impl<W: Write> Witness for Trace<W> {
    fn stride(&self) -> u64 {
        if self.rows.is_open {
            return u64::MAX;
        }
        self.rows
            .from
            .saturating_sub(self.rows.moment.events)
            .max(1)
    }

    fn begin(&mut self, world: &World) -> Result<(), NoMemory> {
        self.rows.open_at_last(world)?;
        Ok(())
    }

    fn look_on(&mut self, world: &World, advanced: Advanced) -> Result<(), NoMemory> {
        self.rows.look_on(world, advanced)?;
        self.pass_on(false);
        Ok(())
    }
}
