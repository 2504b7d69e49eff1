// The units that a unit knows once it has asked the units that enclose it.
ghost use Rattle.std.specs.Prelude.{◌≡◌, ◌∷◌, [], ◌++◌, length, IfOk, OnOk, List, Some};
ghost use Rattle.std.specs.List.{flat_map};
ghost use Rattle.std.specs.Option.{option_map, option_copied};
ghost use Rattle.al_base.specs.declared.unit_key.UnitKey.{UnitKey};
ghost use Rattle.al_query.specs.Answers.{declaration};
ghost use Rattle.al_query.specs.Asked.{AsksOf, by_property};
ghost use Rattle.al_query.specs.Known.{AreKnown, body, known_after};
ghost use Rattle.al_query.specs.Reads.{FromAnswers};
ghost use Rattle.al_query_outcome.specs.ReadsLaw.{named_by, own_names, subunit};
ghost use Rattle.al_unit_graph.specs.Names as names;
ghost use Rattle.al_unit_graph.specs.Views.{header_model};
ghost use Rattle.al_check_start.specs.Starts.{OnlyOthers, as_list, half_of, mentions_of, outward, own_declaration, own_mentions, parent_body, round, units_known, with_halves, with_mentions};

use crate::half::halves_of;
use crate::mentions::mentions_of_each;
use crate::named::{add_own_declaration, named_units, own_mentions};
use crate::outward::{outward_from, parent_body_of};
use al_base::{Name, NoMemory, UnitKey, UnitKind};
use al_query::{Answers, Recorder};
use al_unit_graph::{Header, Mention, parent_of};
use std::alloc::Global;

/// The first list of units, then the second.
#[tactic(auto, using(std::proofs::lemmas::Grind::common_steps))]
fn joined(units: Vec<UnitKey>, more: Vec<UnitKey>) -> Result<Vec<UnitKey>, NoMemory>
    ensures { IfOk result (λ all. all.items ≡ units.items ++ more.items) }
{
    let mut units = units;
    let mut more = more;
    units.append(&mut more)?;
    Ok(units)
}

/// The four lists of units in one: enclosing units, mentioned ones, and the halves of either.
fn all_joined(
    units: Vec<UnitKey>,
    mentioned: Vec<UnitKey>,
    halves: Vec<UnitKey>,
    more: Vec<UnitKey>,
) -> Result<Vec<UnitKey>, NoMemory>
    ensures { IfOk result (λ all. all.items ≡ units.items ++ (mentioned.items ++ (halves.items ++ more.items))) }
{
    let halves = joined(halves, more)?;
    let mentioned = joined(mentioned, halves)?;
    let all = joined(units, mentioned)?;
    Ok(all)
}

/// The declaration of a library unit's parent.
fn parent_unit(alloc: Global, name: &[u8]) -> Result<Option<UnitKey>, NoMemory>
    ensures { IfOk result (λ parent. parent ≡ option_map declaration (names.parent_of name.now)) }
{
    match parent_of(name) {
        Some(parent) => {
            let name = Name::from_slice(alloc, parent)?;
            let kind = UnitKind::Decl;
            Ok(Some(UnitKey { name, kind }))
        }
        None => Ok(None),
    }
}

/// The units that enclose a library unit: for a body its declaration, and the ancestors.
fn round_library_unit<A: Answers>(
    alloc: Global,
    own: &UnitKey,
    header: &Header,
    recorder: &mut Recorder<A>,
) -> Result<Vec<UnitKey>, NoMemory>
    ensures asked { recorder.new.asked ≡ recorder.old.asked }
    ensures answered { IfOk result (λ units. FromAnswers recorder.old.log recorder.new.log (λ t. units.items ≡ own_declaration (header_model header.now) ++ outward t own.now (length header.now.name) (option_map declaration (names.parent_of header.now.name)))) }
    ensures asks { OnOk result (AsksOf (as_list (option_map declaration (names.parent_of header.now.name))) by_property recorder.old.log recorder.new.log) }
    ensures others { OnOk result (OnlyOthers own.now recorder.old.log recorder.new.log) }
    ensures known { IfOk result (λ units. AreKnown (known_after (own_declaration (header_model header.now) ++ as_list (option_map declaration (names.parent_of header.now.name))) recorder.new.log) units.items) }
{
    let name = header.name.as_slice();
    let parent = parent_unit(alloc, name)?;
    let outer = outward_from(alloc, own, parent, name.len(), recorder)?;
    let mut units = Vec::new(alloc);
    add_own_declaration(alloc, header, &mut units)?;
    let units = joined(units, outer)?;
    Ok(units)
}

/// The units that enclose a subunit: the bodies in which it is, and the ancestors of the library unit.
fn round_subunit<A: Answers>(
    alloc: Global,
    own: &UnitKey,
    parent: &Mention,
    most: usize,
    recorder: &mut Recorder<A>,
) -> Result<Vec<UnitKey>, NoMemory>
    ensures asked { recorder.new.asked ≡ recorder.old.asked }
    ensures answered { IfOk result (λ units. FromAnswers recorder.old.log recorder.new.log (λ t. units.items ≡ outward t own.now most (Some (parent_body t own.now parent.now.name)))) }
    ensures asks { OnOk result (AsksOf (body parent.now.name ∷ subunit parent.now.name ∷ []) by_property recorder.old.log recorder.new.log) }
    ensures others { OnOk result (OnlyOthers own.now recorder.old.log recorder.new.log) }
    ensures known { IfOk result (λ units. AreKnown (known_after (body parent.now.name ∷ subunit parent.now.name ∷ []) recorder.new.log) units.items) }
{
    let first = parent_body_of(alloc, own, parent.name.as_slice(), recorder)?;
    let units = outward_from(alloc, own, Some(first), most, recorder)?;
    Ok(units)
}

/// The units that enclose a unit.
pub(crate) fn units_round<A: Answers>(
    alloc: Global,
    own: &UnitKey,
    header: &Header,
    recorder: &mut Recorder<A>,
) -> Result<Vec<UnitKey>, NoMemory>
    ensures asked { recorder.new.asked ≡ recorder.old.asked }
    ensures answered { IfOk result (λ units. FromAnswers recorder.old.log recorder.new.log (λ t. units.items ≡ round t own.now (header_model header.now) (header_model header.now).parent_body)) }
    ensures asks { OnOk result (AsksOf (own_names (header_model header.now) (header_model header.now).parent_body) by_property recorder.old.log recorder.new.log) }
    ensures others { OnOk result (OnlyOthers own.now recorder.old.log recorder.new.log) }
    ensures known { IfOk result (λ units. AreKnown (known_after (own_names (header_model header.now) (header_model header.now).parent_body) recorder.new.log) units.items) }
{
    match &header.parent_body {
        Some(parent) => {
            let most = header.name.as_slice().len();
            let units = round_subunit(alloc, own, parent, most, recorder)?;
            Ok(units)
        }
        None => {
            let units = round_library_unit(alloc, own, header, recorder)?;
            Ok(units)
        }
    }
}

/// These units with their other halves.
pub(crate) fn with_halves<A: Answers>(
    alloc: Global,
    own: &UnitKey,
    units: Vec<UnitKey>,
    recorder: &mut Recorder<A>,
) -> Result<Vec<UnitKey>, NoMemory>
    ensures asked { recorder.new.asked ≡ recorder.old.asked }
    ensures answered { IfOk result (λ found. FromAnswers recorder.old.log recorder.new.log (λ t. found.items ≡ with_halves t own.now units.items)) }
    ensures asks { OnOk result (AsksOf units.items by_property recorder.old.log recorder.new.log) }
    ensures others { OnOk result (OnlyOthers own.now recorder.old.log recorder.new.log) }
    ensures known { IfOk result (λ found. (known : List UnitKey) → AreKnown (known_after known recorder.old.log) units.items → AreKnown (known_after known recorder.new.log) found.items) }
{
    let halves = halves_of(alloc, own, units.as_slice(), recorder)?;
    let found = joined(units, halves)?;
    Ok(found)
}

/// These units, then those that their with clauses mention, and then the halves of those that these and the unit's own with clauses mention.
fn with_mentions<A: Answers>(
    alloc: Global,
    own: &UnitKey,
    header: &Header,
    units: Vec<UnitKey>,
    recorder: &mut Recorder<A>,
) -> Result<Vec<UnitKey>, NoMemory>
    ensures asked { recorder.new.asked ≡ recorder.old.asked }
    ensures answered { IfOk result (λ found. FromAnswers recorder.old.log recorder.new.log (λ t. found.items ≡ with_mentions t own.now (header_model header.now) units.items)) }
    ensures asks { OnOk result (AsksOf (own_mentions (header_model header.now) ++ units.items) by_property recorder.old.log recorder.new.log) }
    ensures others { OnOk result (OnlyOthers own.now recorder.old.log recorder.new.log) }
    ensures known { IfOk result (λ found. (known : List UnitKey) → AreKnown (known_after known recorder.old.log) units.items → AreKnown (known_after known recorder.new.log) found.items) }
{
    let mentioned = mentions_of_each(alloc, own, units.as_slice(), recorder)?;
    let first = own_mentions(alloc, header)?;
    let halves = halves_of(alloc, own, first.as_slice(), recorder)?;
    let more = halves_of(alloc, own, mentioned.as_slice(), recorder)?;
    let found = all_joined(units, mentioned, halves, more)?;
    Ok(found)
}

/// The units that a unit may ask: those that its own source names, those that enclose it, and those that are mentioned there (ARM 10.1.1, 10.1.2,
/// 10.1.3). Each is named by the unit itself or by a recorded answer.
///
/// # Errors
/// `NoMemory` if the allocator refuses memory.
#[tactic(auto, unfolding(crate::specs::Starts::units_known))]
pub fn units_known<A: Answers>(
    alloc: Global,
    unit: &UnitKey,
    header: &Header,
    recorder: &mut Recorder<A>,
) -> Result<Vec<UnitKey>, NoMemory>
    ensures asked { recorder.new.asked ≡ recorder.old.asked }
    ensures answered { IfOk result (λ units. FromAnswers recorder.old.log recorder.new.log (λ t. units.items ≡ units_known t unit.now (header_model header.now))) }
    ensures asks { OnOk result (AsksOf (named_by (header_model header.now)) by_property recorder.old.log recorder.new.log) }
    ensures others { OnOk result (OnlyOthers unit.now recorder.old.log recorder.new.log) }
    ensures known { IfOk result (λ units. AreKnown (known_after (named_by (header_model header.now)) recorder.new.log) units.items) }
{
    let named = named_units(alloc, header)?;
    let round = units_round(alloc, unit, header, recorder)?;
    let both = with_halves(alloc, unit, round, recorder)?;
    let found = with_mentions(alloc, unit, header, both, recorder)?;
    let known = joined(named, found)?;
    Ok(known)
}
