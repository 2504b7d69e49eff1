// The two outputs.
ghost use Rattle.std.specs.Prelude.{◌≡◌, ◌-◌, ◌^◌, ◌<◌, ◌++◌, [], IsOk, Ok, OnOk, map};
ghost use Rattle.al_session_stream.specs.Output.{Adds};
ghost use Rattle.al_folder.specs.Messages.{message_text};
ghost use Rattle.al_folder_served.specs.Told.{line_end};

use crate::failure::Failure;
use crate::request::Form;
use crate::voice::Voice;
use al_session_stream::Sink;

/// The two outputs: messages go to the standard error, the output of programs to the standard output.
pub struct Screen<O: Sink, E: Sink> {
    pub output: Voice<O>,
    pub error: Voice<E>,
    /// Whether the last line of a program's output has no end yet.
    pub is_open: bool,
    /// How diagnostics and results of builds and runs are printed.
    pub form: Form,
}

impl<O: Sink, E: Sink> Screen<O, E> {
    /// The two outputs, to which nothing was written yet.
    pub fn new(output: O, error: E) -> Screen<O, E>
        requires output { O.faults output < 2 ^ 64 - 1 }
        requires error { E.faults error < 2 ^ 64 - 1 }
    {
        Screen {
            output: Voice::new(output),
            error: Voice::new(error),
            is_open: false,
            form: Form::Text,
        }
    }

    /// Writes the bytes on the standard output.
    ///
    /// # Errors
    ///
    /// `Output` if it can't be written.
    pub fn put(&mut self, bytes: &[u8]) -> Result<(), Failure>
        ensures put { Adds O.written O.faults O.waits self.old.output.sink self.new.output.sink self.old.output.so_far self.new.output.so_far bytes.now }
        ensures all { OnOk result (IsOk self.new.output.so_far) }
        ensures quiet { (self.new.error ≡ self.old.error) × (self.new.is_open ≡ self.old.is_open) }
        ensures form { self.new.form ≡ self.old.form }
    {
        self.output.say(bytes);
        self.end_put()
    }

    /// Writes a program's output on the standard output.
    ///
    /// # Errors
    ///
    /// `Output` if it can't be written.
    pub fn put_run(&mut self, bytes: &[u8]) -> Result<(), Failure>
        ensures put { Adds O.written O.faults O.waits self.old.output.sink self.new.output.sink self.old.output.so_far self.new.output.so_far bytes.now }
        ensures quiet { self.new.error ≡ self.old.error }
        ensures form { self.new.form ≡ self.old.form }
    {
        let Some(last) = bytes.last() else {
            return Ok(());
        };
        self.is_open = *last != b'\n';
        self.put(bytes)
    }

    /// Writes the bytes on the standard error.
    ///
    /// # Errors
    ///
    /// `ErrorOutput` if it can't be written.
    pub fn tell(&mut self, bytes: &[u8]) -> Result<(), Failure>
        ensures told { Adds E.written E.faults E.waits self.old.error.sink self.new.error.sink self.old.error.so_far self.new.error.so_far (line_end self.old.is_open ++ bytes.now) }
        ensures all { OnOk result (IsOk self.new.error.so_far) }
        ensures quiet { self.new.output ≡ self.old.output }
        ensures form { self.new.form ≡ self.old.form }
    {
        self.begin();
        self.error.say(bytes);
        self.end()
    }

    /// Writes the pieces on the standard error as one line, in which control characters are shown.
    ///
    /// # Errors
    ///
    /// A [`Failure`] if an output can't be written.
    pub fn tell_line(&mut self, pieces: &[&[u8]]) -> Result<(), Failure>
        ensures told { Adds E.written E.faults E.waits self.old.error.sink self.new.error.sink self.old.error.so_far self.new.error.so_far (line_end self.old.is_open ++ message_text (map (λ piece. piece.now) pieces.now)) }
        ensures all { OnOk result (IsOk self.new.error.so_far) }
        ensures quiet { self.new.output ≡ self.old.output }
        ensures form { self.new.form ≡ self.old.form }
    {
        self.begin();
        self.error.say_line(pieces);
        self.end()
    }

    /// Begins a message: if a line of a program has no end, it gets one.
    pub fn begin(&mut self)
        ensures told { Adds E.written E.faults E.waits self.old.error.sink self.new.error.sink self.old.error.so_far self.new.error.so_far (line_end self.old.is_open) }
        ensures quiet { self.new.output ≡ self.old.output }
        ensures form { self.new.form ≡ self.old.form }
    {
        if self.is_open {
            self.is_open = false;
            self.error.say(b"\n");
        }
    }

    /// Ends a message.
    ///
    /// # Errors
    ///
    /// A [`Failure`] if an output can't be written.
    pub fn end(&mut self) -> Result<(), Failure>
        ensures told { Adds E.written E.faults E.waits self.old.error.sink self.new.error.sink self.old.error.so_far self.new.error.so_far [] }
        ensures all { OnOk result (IsOk self.new.error.so_far) }
        ensures quiet { (self.new.output ≡ self.old.output) × (self.new.is_open ≡ self.old.is_open) }
        ensures form { self.new.form ≡ self.old.form }
    {
        match self.error.pass() {
            Ok(()) => Ok(()),
            Err(_) => Err(Failure::ErrorOutput),
        }
    }

    /// Ends a piece of output.
    ///
    /// # Errors
    ///
    /// `Output` if it can't be written.
    pub fn end_put(&mut self) -> Result<(), Failure>
        ensures put { Adds O.written O.faults O.waits self.old.output.sink self.new.output.sink self.old.output.so_far self.new.output.so_far [] }
        ensures all { OnOk result (IsOk self.new.output.so_far) }
        ensures quiet { (self.new.error ≡ self.old.error) × (self.new.is_open ≡ self.old.is_open) }
        ensures form { self.new.form ≡ self.old.form }
    {
        match self.output.pass() {
            Ok(()) => Ok(()),
            Err(_) => Err(Failure::Output),
        }
    }
}
