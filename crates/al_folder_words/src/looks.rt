// What the command line asks to be shown of a program and of its run.
use crate::options::Options;
use al_folder::number_of;
use al_trace::TraceFormat;

const MAX_FROM: u32 = 1_000_000_000;

/// The file that a trace is written to.
#[derive(Clone, Copy)]
pub struct TraceRequest<'a> {
    pub file: &'a str,
    pub format: TraceFormat,
    /// The number of events after which its rows begin.
    pub from: u64,
}

/// What is shown of a program and of its run.
#[derive(Clone, Copy)]
pub struct Looks<'a> {
    pub listing: bool,
    pub profile: bool,
    pub trace: Option<TraceRequest<'a>>,
}

impl<'a> Looks<'a> {
    // What the command line asks for; else the line that says what is wrong with it.
    pub(crate) fn of(options: &Options<'a>) -> Result<Looks<'a>, &'static str> {
        let runs = options.run || options.watch || options.load.is_some();
        let observes = options.trace.is_some() || options.profile;
        if observes && !runs {
            return Err("error: --trace FILE and --profile go with --run, --watch or --load FILE");
        }
        if options.trace.is_some() && options.profile {
            return Err("error: --trace FILE and --profile don't go together");
        }
        Ok(Looks {
            listing: options.listing,
            profile: options.profile,
            trace: trace_of(options)?,
        })
    }

    /// The file of the trace.
    pub fn file(&self) -> &'a str {
        match self.trace {
            Some(of) => of.file,
            None => "",
        }
    }
}

fn trace_of<'a>(options: &Options<'a>) -> Result<Option<TraceRequest<'a>>, &'static str> {
    let Some(file) = options.trace else {
        return match options.from {
            Some(_) => Err("error: --from N goes with --trace FILE"),
            None => Ok(None),
        };
    };
    let Some(format) = TraceFormat::of(file.as_bytes()) else {
        return Err("error: --trace FILE: its ending is .txt, .vcd, .json or .svg");
    };
    let from = match options.from {
        None => 0,
        Some(word) => match number_of(MAX_FROM, word) {
            Some(from) => u64::from(from),
            None => return Err("error: --from N: N is 1 to 1000000000"),
        },
    };
    Ok(Some(TraceRequest { file, format, from }))
}
