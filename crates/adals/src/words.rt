// The words of the command line.
use al_base::NoMemory;
use clap::error::ErrorKind;
use clap::{Arg, ArgAction, ArgMatches, Command};
use std::alloc::{AllocError, Global};

pub const USAGE: &str = "usage: adals [FOLDER ..]\n";

pub const HELP: &str = "usage: adals [FOLDER ..]

A language server for Ada sources, on the standard input and output. The folders are served where the client names none.
";

/// What the words ask for.
#[derive(Drop)]
pub enum Asked {
    Serve(Vec<String>),
    Help,
    /// They are of another form.
    Wrong,
}

fn command<'a>(alloc: Global) -> Result<Command<'a>, AllocError> {
    let command = Command::new(alloc, "adals").disable_help_flag(true);
    let help = Arg::new(alloc, "help").long("help");
    let command = command.arg(help.action(ArgAction::SetTrue))?;
    let folders = Arg::new(alloc, "folders")
        .action(ArgAction::Append)
        .num_args(0..);
    command.arg(folders)
}

fn folders_of(alloc: Global, matches: &ArgMatches<'_>) -> Result<Vec<String>, AllocError> {
    let mut folders = Vec::new(alloc);
    if let Some(names) = matches.get_strs("folders") {
        for name in names {
            folders.push(String::from_str(alloc, *name)?)?;
        }
    }
    Ok(folders)
}

fn asked_of(alloc: Global, matches: &ArgMatches<'_>) -> Result<Asked, NoMemory> {
    if matches.get_flag("help") {
        return Ok(Asked::Help);
    }
    let folders = folders_of(alloc, matches)?;
    Ok(Asked::Serve(folders))
}

/// Reads the words, the program's own in front.
///
/// # Errors
///
/// `NoMemory` where memory was wanted and not given.
pub fn read_words(alloc: Global, words: &[String]) -> Result<Asked, NoMemory> {
    let command = command(alloc)?;
    match command.try_get_matches_from(words) {
        Ok(matches) => asked_of(alloc, &matches),
        Err(e) => match e.kind() {
            ErrorKind::OutOfMemory => Err(NoMemory),
            _ => Ok(Asked::Wrong),
        },
    }
}
