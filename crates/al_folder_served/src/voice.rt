// An output.
ghost use Rattle.std.specs.Prelude.{◌≡◌, ◌-◌, ◌^◌, ◌<◌, [], IsOk, Ok, map};
ghost use Rattle.al_base.specs.Batch.{key_of};
ghost use Rattle.al_session_stream.specs.Output.{Adds};
ghost use Rattle.al_folder.specs.Excerpts.{excerpt};
ghost use Rattle.al_folder.specs.Messages.{message_text};
ghost use Rattle.al_folder.specs.Parts.{part_lines};
ghost use Rattle.al_folder.specs.Progress.{progress_line};
ghost use Rattle.al_folder.specs.Runs.{end_text};
ghost use Rattle.al_folder_served.specs.Orders.{order_text};

use crate::orders::emit_order;
use crate::reasons::Reasons;
use al_base::{Files, UnitKey};
use al_folder::{
    ImageChange, RunEnd, emit_end, emit_excerpt, emit_message, emit_parts, emit_progress,
};
use al_report::{Cause, Counts, Noted, emit_report};
use al_session_stream::{Device, Sink, emit, finish};

/// An output, to which nothing more is written once writing failed.
pub struct Voice<K: Sink> {
    pub sink: K,
    /// The result of writing so far.
    pub so_far: Result<(), Device>,
    ghost ready: { IsOk so_far → K.faults sink < 2 ^ 64 - 1 },
}

impl<K: Sink> Voice<K> {
    /// An output to which nothing was written yet.
    pub fn new(sink: K) -> Voice<K>
        requires { K.faults sink < 2 ^ 64 - 1 }
        ensures { (result.sink ≡ sink) × IsOk result.so_far }
    {
        Voice {
            sink,
            so_far: Ok(()),
        }
    }

    /// The sink.
    pub fn into_sink(self) -> K
        ensures { result ≡ self.sink }
    {
        let Voice { sink, so_far: _ } = self;
        sink
    }

    /// Writes the bytes.
    pub fn say(&mut self, bytes: &[u8])
        ensures { Adds K.written K.faults K.waits self.old.sink self.new.sink self.old.so_far self.new.so_far bytes.now }
    {
        self.so_far = emit(self.so_far, &mut self.sink, bytes);
    }

    /// Writes the pieces as one line, in which control characters are shown.
    pub fn say_line(&mut self, pieces: &[&[u8]])
        ensures { Adds K.written K.faults K.waits self.old.sink self.new.sink self.old.so_far self.new.so_far (message_text (map (λ piece. piece.now) pieces.now)) }
    {
        self.so_far = emit_message(self.so_far, &mut self.sink, pieces);
    }

    /// Writes a line with a caret under the byte at a place.
    pub fn say_excerpt(&mut self, place: usize, line: &[u8])
        ensures { Adds K.written K.faults K.waits self.old.sink self.new.sink self.old.so_far self.new.so_far (excerpt place line.now) }
    {
        self.so_far = emit_excerpt(self.so_far, &mut self.sink, place, line);
    }

    /// Writes a line for each part of a unit.
    pub fn say_parts(&mut self, keys: &[UnitKey])
        ensures { Adds K.written K.faults K.waits self.old.sink self.new.sink self.old.so_far self.new.so_far (part_lines (map key_of keys.now)) }
    {
        self.so_far = emit_parts(self.so_far, &mut self.sink, keys);
    }

    /// Writes an order of elaboration with its reasons.
    pub fn say_order(&mut self, order: &[Reasons])
        ensures { Adds K.written K.faults K.waits self.old.sink self.new.sink self.old.so_far self.new.so_far (order_text order.now) }
    {
        self.so_far = emit_order(self.so_far, &mut self.sink, order);
    }

    /// Writes how a run ended. The files of its units are in these folders.
    pub fn say_end(&mut self, folders: &Files, end: &RunEnd)
        ensures { Adds K.written K.faults K.waits self.old.sink self.new.sink self.old.so_far self.new.so_far (end_text folders.now end.now) }
    {
        self.so_far = emit_end(self.so_far, &mut self.sink, folders, end);
    }

    /// Writes what a build did.
    pub fn say_progress(&mut self, checked: usize, units: usize, change: ImageChange, millis: usize)
        ensures { Adds K.written K.faults K.waits self.old.sink self.new.sink self.old.so_far self.new.so_far (progress_line checked units change millis) }
    {
        self.so_far = emit_progress(self.so_far, &mut self.sink, checked, units, change, millis);
    }

    /// Writes diagnostics of these files with their notes, the number of errors, and the number of units that weren't checked.
    pub fn say_report(
        &mut self,
        folders: &Files,
        texts: &Files,
        is_plain: bool,
        told: &[Noted<'_>],
        counts: Counts,
        causes: &[Cause],
    ) {
        let sink = &mut self.sink;
        self.so_far = emit_report(
            self.so_far,
            sink,
            folders,
            texts,
            is_plain,
            told,
            counts,
            causes,
        );
    }

    /// Passes on what was written.
    ///
    /// # Errors
    ///
    /// The error of the first write that failed, or of passing on.
    pub fn pass(&mut self) -> Result<(), Device>
        ensures adds { Adds K.written K.faults K.waits self.old.sink self.new.sink self.old.so_far self.new.so_far [] }
        ensures result { result ≡ self.new.so_far }
    {
        if self.so_far.is_ok() {
            self.so_far = finish(Ok(()), &mut self.sink);
        }
        self.so_far
    }
}
