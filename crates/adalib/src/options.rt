// The words of the command line.
ghost use Rattle.std.specs.Prelude.{◌≡◌, ◌≤◌, ℕ, List, Option, IfOk, IfErr, IfSome, MatchOption, Some, drop, map, option_map, string_bytes};
ghost use Rattle.adalib.specs.Tick.{tick_of};
ghost use Rattle.adalib.specs.Words.{AsksFor};
ghost use Rattle.adalib.specs.declared.options.UsageError.TheVariants.{OutOfMemory, Usage};
ghost use Rattle.clap.specs.Words.{kind_of};
ghost use Rattle.clap.specs.declared.error.kind.ErrorKind.TheVariants as kind;

use clap::error::ErrorKind;
use clap::{Arg, ArgAction, Command};
use std::alloc::{AllocError, Global};
use thiserror::Error;

/// Instructions between two ticks of the clock, if the command line gives no number.
const DEFAULT_TICK: u32 = 100;

/// The greatest number of instructions between two ticks.
pub const MAX_TICK: u32 = 10_000;

/// Why the words of the command line are refused.
#[derive(Clone, Copy, Debug, PartialEq, Eq, Error)]
pub enum UsageError {
    #[error("the words are of another form")]
    Usage,
    #[error("out of memory")]
    OutOfMemory,
}

impl From<AllocError> for UsageError {
    ghost from_gives = { λ _ e. e ≡ OutOfMemory };

    fn from(_e: AllocError) -> UsageError {
        UsageError::OutOfMemory
    }
}

impl From<clap::Error> for UsageError {
    ghost from_gives = { λ cause e. e ≡ Usage → kind_of cause ≡ kind.OutOfMemory → ⊥ };

    fn from(e: clap::Error) -> UsageError {
        match e.kind() {
            ErrorKind::OutOfMemory => UsageError::OutOfMemory,
            _ => UsageError::Usage,
        }
    }
}

/// The options on the command line.
#[derive(Drop)]
pub struct Options<'a> {
    /// The number of instructions between two ticks of a run's clock.
    pub tick: u32,
    /// The file of the commands; none for the standard input.
    pub file: Option<&'a str>,
}

impl<'a> Options<'a> {
    /// Parses `[--tick N] [FILE]`, after the program's own word. `--tick=N` is `--tick N`, words after `--` are no options, and `-` is a file's
    /// name.
    ///
    /// # Errors
    /// [`UsageError::Usage`] for words of another form: a `--tick` without a number of 1 to 10000, a second `--tick` or file, or another word that
    /// begins with `-`. [`UsageError::OutOfMemory`] if memory is refused.
    pub fn of(alloc: Global, words: &'a [String]) -> Result<Options<'a>, UsageError>
        ensures range { IfOk result (λ options. (1 ≤ options.tick) × (options.tick ≤ MAX_TICK)) }
        ensures taken { IfOk result (λ options. AsksFor (drop 1 (map string_bytes words.now)) options.tick (option_map (λ name. name.now) options.file)) }
        ensures refused { IfErr result (λ fault. fault ≡ Usage → (tick : ℕ) (file : Option (List ℕ)) → AsksFor (drop 1 (map string_bytes words.now)) tick file → ⊥) }
    {
        let tick = Arg::new(alloc, "tick").long("tick").action(ArgAction::Set);
        let file = Arg::new(alloc, "file").action(ArgAction::Set);
        let command = Command::new(alloc, "adalib")
            .disable_help_flag(true)
            .arg(tick)?
            .arg(file)?;
        let matches = command.try_get_matches_from(words)?;
        let tick = told_tick(matches.get_str("tick")).ok_or(UsageError::Usage)?;
        Ok(Options {
            tick,
            file: matches.get_str("file"),
        })
    }
}

// The tick that the word gives, or the default if there is no word.
fn told_tick(word: Option<&str>) -> Option<u32>
    ensures value { MatchOption word.entry (result ≡ Some 100) (λ told. result ≡ tick_of told.now) }
    ensures range { IfSome result (λ tick. (1 ≤ tick) × (tick ≤ MAX_TICK)) }
{
    match word {
        Some(word) => tick_of(word),
        None => Some(DEFAULT_TICK),
    }
}

// The number in the word, if it is 1 to 10000. Only digits are allowed: `parse` would accept a sign.
fn tick_of(word: &str) -> Option<u32>
    ensures value { result ≡ tick_of word.now }
    ensures range { IfSome result (λ tick. (1 ≤ tick) × (tick ≤ MAX_TICK)) }
{
    if word.as_bytes().first() == Some(&b'+') {
        return None;
    }
    let Ok(number) = word.parse::<u32>() else {
        return None;
    };
    if 1 <= number && number <= MAX_TICK {
        Some(number)
    } else {
        None
    }
}
