// The options on the command line.
use clap::error::ErrorKind;
use clap::{Arg, ArgAction, ArgMatches, Command};
use std::alloc::{AllocError, Global};

/// The options on the command line, one by one.
#[derive(Drop)]
pub struct Options<'a> {
    pub help: bool,
    pub version: bool,
    pub all: bool,
    pub run: bool,
    pub order: bool,
    pub plain: bool,
    pub force: bool,
    pub watch: bool,
    pub listing: bool,
    pub profile: bool,
    pub steps: Option<&'a str>,
    pub tick: Option<&'a str>,
    pub image: Option<&'a str>,
    pub load: Option<&'a str>,
    pub depends: Option<&'a str>,
    pub format: Option<&'a str>,
    pub explain: Option<&'a str>,
    pub project: Option<&'a str>,
    pub trace: Option<&'a str>,
    pub from: Option<&'a str>,
    /// The units and the folders.
    pub names: Vec<&'a str>,
}

// The options without a value.
const FLAGS: [&str; 10] = [
    "help", "version", "all", "run", "order", "plain", "force", "watch", "listing", "profile",
];

// The options with a value.
const VALUES: [&str; 9] = [
    "steps", "tick", "image", "load", "depends", "format", "explain", "trace", "from",
];

fn command<'a>(alloc: Global) -> Result<Command<'a>, AllocError> {
    let mut command = Command::new(alloc, "adabuild").disable_help_flag(true);
    for name in FLAGS {
        let flag = Arg::new(alloc, name).long(name);
        command = command.arg(flag.action(ArgAction::SetTrue))?;
    }
    for name in VALUES {
        let value = Arg::new(alloc, name).long(name);
        command = command.arg(value.action(ArgAction::Set))?;
    }
    let project = Arg::new(alloc, "project").short('P');
    let command = command.arg(project.action(ArgAction::Set))?;
    let names = Arg::new(alloc, "names")
        .action(ArgAction::Append)
        .num_args(0..);
    command.arg(names)
}

// The units and the folders.
fn names_of<'a>(alloc: Global, matches: &ArgMatches<'a>) -> Result<Vec<&'a str>, AllocError> {
    match matches.get_strs("names") {
        Some(names) => Vec::from_slice(alloc, names),
        None => Ok(Vec::new(alloc)),
    }
}

/// What the command line is.
#[derive(Drop)]
pub enum Parsed<'a> {
    Options(Options<'a>),
    /// It is wrong, and this line says how.
    Wrong(String),
}

impl<'a> Options<'a> {
    /// Reads the command line, which begins with the program's own name.
    ///
    /// # Errors
    ///
    /// `AllocError` if memory runs out.
    pub fn of(alloc: Global, words: &'a [String]) -> Result<Parsed<'a>, AllocError> {
        let command = command(alloc)?;
        match command.try_get_matches_from(words) {
            Ok(matches) => Ok(Parsed::Options(Options::found(alloc, &matches)?)),
            Err(e) => match e.kind() {
                ErrorKind::OutOfMemory => Err(AllocError),
                _ => Ok(Parsed::Wrong(first_line(alloc, &e)?)),
            },
        }
    }

    fn found(alloc: Global, matches: &ArgMatches<'a>) -> Result<Options<'a>, AllocError> {
        let names = names_of(alloc, matches)?;
        Ok(Options {
            help: matches.get_flag("help"),
            version: matches.get_flag("version"),
            all: matches.get_flag("all"),
            run: matches.get_flag("run"),
            order: matches.get_flag("order"),
            plain: matches.get_flag("plain"),
            force: matches.get_flag("force"),
            watch: matches.get_flag("watch"),
            listing: matches.get_flag("listing"),
            profile: matches.get_flag("profile"),
            trace: matches.get_str("trace"),
            from: matches.get_str("from"),
            steps: matches.get_str("steps"),
            tick: matches.get_str("tick"),
            image: matches.get_str("image"),
            load: matches.get_str("load"),
            depends: matches.get_str("depends"),
            format: matches.get_str("format"),
            explain: matches.get_str("explain"),
            project: matches.get_str("project"),
            names,
        })
    }
}

// The line that says what is wrong.
fn first_line(alloc: Global, error: &clap::Error) -> Result<String, AllocError> {
    let text = format!(in alloc; "{error}")?;
    match text.as_str().split_once('\n') {
        Some((line, _)) => String::from_str(alloc, line),
        None => Ok(text),
    }
}
