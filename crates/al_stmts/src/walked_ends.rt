// Names at ends.
ghost use Rattle.std.specs.Prelude.{◌≡◌, IfOk, OnOk, Some, fold, map, option_map};
ghost use Rattle.al_stmts.specs.Ends.{end_fault};
ghost use Rattle.al_tree.specs.DeclarationViews.{compound_model};
ghost use Rattle.al_tree.specs.Lexemes.{identifier_label};
ghost use Rattle.al_stmts.specs.Steps.{name_of};
ghost use Rattle.al_stmts.specs.Spelled.{with_selector};
ghost use Rattle.al_stmts.specs.Walking.{dotted, end_of, end_of_compound};

use crate::{NameAtEnd, end_fault};
use al_base::NoMemory;
use al_base_fault::Fault;
use al_tree::{CompoundName, Identifier};
use std::alloc::Global;

/// What is wrong with the name at the end of something that has this name, or none.
fn end_named(name: &Option<Identifier>, end: NameAtEnd) -> Option<Fault>
    ensures { result ≡ end_fault (name_of (option_map identifier_label name.now)) (Some (end.entry.place, end.entry.spelled.now)) }
{
    match name {
        Some(identifier) => end_fault(Some(identifier.name.as_slice()), Some(end)),
        None => end_fault(None, Some(end)),
    }
}

/// What is wrong with what comes after the `end` of a loop or a block.
pub fn end_of(name: &Option<Identifier>, end: &Option<Identifier>) -> Option<Fault>
    ensures { result ≡ end_of (option_map identifier_label name.now) (option_map identifier_label end.now) }
{
    match end {
        Some(identifier) => {
            let place = identifier.place;
            let spelled = identifier.name.as_slice();
            end_named(name, NameAtEnd { place, spelled })
        }
        None => None,
    }
}

/// Appends a dot and an identifier.
fn select(spelled: &mut Vec<u8>, selector: &Identifier) -> Result<(), NoMemory>
    ensures { OnOk result (spelled.new.items ≡ with_selector spelled.old.items selector.now) }
{
    spelled.push(b'.')?;
    spelled.extend_from_slice(selector.name.as_slice())?;
    Ok(())
}

fn select_all(spelled: &mut Vec<u8>, selectors: &[Identifier]) -> Result<(), NoMemory>
    ensures { OnOk result (spelled.new.items ≡ fold with_selector spelled.old.items selectors.now) }
{
    for selector in selectors {
        select(spelled, selector)?;
    }
    Ok(())
}

/// A compound name with dots between its identifiers.
#[tactic(auto, using(crate::proofs::Dotted::dotted_all))]
fn dotted(alloc: Global, name: &CompoundName) -> Result<Vec<u8>, NoMemory>
    ensures { IfOk result (λ spelled. spelled.items ≡ dotted (identifier_label name.now.first) (map identifier_label name.now.selectors.items)) }
{
    let mut spelled = Vec::from_slice(alloc, name.first.name.as_slice())?;
    select_all(&mut spelled, &name.selectors)?;
    Ok(spelled)
}

fn compound_end(
    alloc: Global,
    spelled: &[u8],
    end: &CompoundName,
) -> Result<Option<Fault>, NoMemory>
    ensures { IfOk result (λ fault. fault ≡ end_fault (Some spelled.now) (Some (end.now.first.place, dotted (identifier_label end.now.first) (map identifier_label end.now.selectors.items)))) }
{
    let place = end.first.place;
    let at_end = dotted(alloc, end)?;
    let spelled_there = at_end.as_slice();
    Ok(end_fault(
        Some(spelled),
        Some(NameAtEnd {
            place,
            spelled: spelled_there,
        }),
    ))
}

/// What is wrong with what comes after the `end` of a unit or a subprogram.
/// # Errors
/// `NoMemory` if the allocator refuses memory.
pub fn end_of_compound(
    alloc: Global,
    name: &CompoundName,
    end: &Option<CompoundName>,
) -> Result<Option<Fault>, NoMemory>
    ensures { IfOk result (λ fault. fault ≡ end_of_compound (compound_model name.now) (option_map compound_model end.now)) }
{
    match end {
        Some(end) => {
            let spelled = dotted(alloc, name)?;
            compound_end(alloc, spelled.as_slice(), end)
        }
        None => Ok(None),
    }
}

/// What is wrong with what comes after the `end` of something that has this name.
pub fn end_of_named(name: &Identifier, end: &Option<Identifier>) -> Option<Fault>
    ensures { result ≡ end_of (Some (identifier_label name.now)) (option_map identifier_label end.now) }
{
    match end {
        Some(identifier) => {
            let place = identifier.place;
            let spelled = identifier.name.as_slice();
            end_fault(
                Some(name.name.as_slice()),
                Some(NameAtEnd { place, spelled }),
            )
        }
        None => None,
    }
}
