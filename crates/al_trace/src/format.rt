// The formats of traces.
ghost use Rattle.std.specs.Prelude.{◌≡◌};
ghost use Rattle.al_trace.specs.Formats.{format_of};

/// How a trace is written.
#[derive(Clone, Copy)]
pub enum TraceFormat {
    /// A line a change.
    Text,
    /// A value change dump (IEEE 1364, clause 18), as GTKWave reads it.
    ValueChanges,
    /// Trace events in JSON, as Perfetto reads them.
    Json,
    /// A chart of the schedule in SVG.
    Picture,
}

impl TraceFormat {
    /// The format that the ending of a file's name gives: `.txt`, `.vcd`, `.json` or `.svg`.
    pub fn of(file: &[u8]) -> Option<TraceFormat>
        ensures { result ≡ format_of file.now }
    {
        if file.ends_with(b".txt") {
            return Some(TraceFormat::Text);
        }
        if file.ends_with(b".vcd") {
            return Some(TraceFormat::ValueChanges);
        }
        if file.ends_with(b".json") {
            return Some(TraceFormat::Json);
        }
        if file.ends_with(b".svg") {
            return Some(TraceFormat::Picture);
        }
        None
    }
}
