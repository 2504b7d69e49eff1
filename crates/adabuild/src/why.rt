// Why the last build checked a unit, or why not, in words.
ghost use Rattle.std.specs.Prelude.{◌≡◌, IfOk, OnOk, ◌++◌, Some, None, option_map, position, if◌then◌else◌};
ghost use Rattle.std.specs.List.{list_any};
ghost use Rattle.std.specs.Option.{option_copied};
ghost use Rattle.al_view.specs.Symbols.{same_unit};
ghost use Rattle.adabuild.specs.Why.{current_words, holds, reason_among, reason_words, several_words, why_words};

use al_base::{Name, NoMemory, UnitKey};
use al_engine::Reason;
use al_view::is_unit;
use al_why::add_change;
use itoa::Buffer;
use std::alloc::Global;

/// What a library says of a unit.
#[derive(Clone, Copy)]
pub struct Of<'a> {
    /// Why the last build checked it, if it did.
    pub reason: Option<&'a Reason>,
    /// How many answers are stored of its check, if the last build could check it.
    pub look_ups: Option<usize>,
    /// Whether a file of the library holds it.
    pub is_there: bool,
}

/// Why the last build checked a unit, of those that it checked for these reasons.
pub fn reason_among<'a>(
    checked: &[UnitKey],
    reasons: &'a [Reason],
    unit: &UnitKey,
) -> Option<&'a Reason>
    ensures { option_copied result ≡ reason_among checked.now reasons.now unit.now }
{
    let at = place_of(checked, unit)?;
    reasons.get(at)
}

// The place of a unit among these.
fn place_of(units: &[UnitKey], unit: &UnitKey) -> Option<usize>
    ensures { result ≡ position (same_unit unit.now) units.now }
{
    units.iter().position(|other| is_unit(unit, other))
}

/// Whether one of these files holds the unit.
pub fn is_among(files: &[(Name, Option<UnitKey>)], unit: &UnitKey) -> bool
    ensures { result ≡ list_any (holds unit.now) files.now }
{
    files.iter().any(|file| holds(file, unit))
}

// Whether a file holds the unit.
fn holds(file: &(Name, Option<UnitKey>), unit: &UnitKey) -> bool
    ensures { result ≡ holds unit.now file.now }
{
    match &file.1 {
        Some(held) => is_unit(held, unit),
        None => false,
    }
}

/// Why the last build checked a unit, or why not; none if there is no such unit.
///
/// # Errors
///
/// `NoMemory` if the allocator refuses memory.
pub fn why_words(alloc: Global, of: Of<'_>) -> Result<Option<Vec<u8>>, NoMemory>
    ensures { IfOk result (λ told. option_map (λ words. words.items) told ≡ why_words (option_copied of.entry.reason) of.entry.look_ups of.entry.is_there) }
{
    let mut text = Vec::new(alloc);
    if add_why(alloc, &mut text, of)? {
        Ok(Some(text))
    } else {
        Ok(None)
    }
}

// Adds why the last build checked a unit, or why not. Gives whether there is such a unit.
fn add_why(alloc: Global, text: &mut Vec<u8>, of: Of<'_>) -> Result<bool, NoMemory>
    ensures { IfOk result (λ is_there. if is_there then Some text.new.items else None ≡ option_map (λ words. text.old.items ++ words) (why_words (option_copied of.entry.reason) of.entry.look_ups of.entry.is_there)) }
{
    if let Some(reason) = of.reason {
        add_reason(alloc, text, reason)?;
        return Ok(true);
    }
    if let Some(count) = of.look_ups {
        add_current(text, count)?;
        return Ok(true);
    }
    if of.is_there {
        text.extend_from_slice(b"not checked: it or a unit that it needs has errors")?;
    }
    Ok(of.is_there)
}

// Adds why a unit was checked, or that it needn't be.
fn add_reason(alloc: Global, text: &mut Vec<u8>, reason: &Reason) -> Result<(), NoMemory>
    ensures { OnOk result (text.new.items ≡ text.old.items ++ reason_words reason.now) }
{
    match reason {
        Reason::New => text.extend_from_slice(b"checked: no earlier check of it is kept")?,
        Reason::Text => text.extend_from_slice(b"checked: its source changed")?,
        Reason::Answered(change) => {
            text.extend_from_slice(b"checked: ")?;
            add_change(alloc, text, &change.query, &change.before, &change.now)?;
        }
        Reason::Current(count) => add_current(text, *count)?,
    }
    Ok(())
}

// Adds that a unit needn't be checked, since so many answers are as before.
fn add_current(text: &mut Vec<u8>, count: usize) -> Result<(), NoMemory>
    ensures { OnOk result (text.new.items ≡ text.old.items ++ current_words count) }
{
    if count == 0 {
        text.extend_from_slice(b"not checked: it asked for no answer")?;
        return Ok(());
    }
    if count == 1 {
        text.extend_from_slice(b"not checked: the answer that it asked for hasn't changed")?;
        return Ok(());
    }
    add_several(text, count)
}

// Adds that none of several answers has changed.
fn add_several(text: &mut Vec<u8>, count: usize) -> Result<(), NoMemory>
    ensures { OnOk result (text.new.items ≡ text.old.items ++ several_words count) }
{
    let mut digits = Buffer::new();
    add(text, b"not checked: none of the ")?;
    add(text, digits.format(count).as_bytes())?;
    add(text, b" answers that it asked for has changed")?;
    Ok(())
}

// Adds a piece of a text.
fn add(text: &mut Vec<u8>, piece: &[u8]) -> Result<(), NoMemory>
    ensures { OnOk result (text.new.items ≡ text.old.items ++ piece.now) }
{
    text.extend_from_slice(piece)?;
    Ok(())
}
