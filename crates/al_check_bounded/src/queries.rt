// All questions that may show a unit what it uses of others.
ghost use Rattle.std.specs.Prelude.{◌≡◌, ◌++◌, ◌∷◌, [], IfOk, OnOk, map};
ghost use Rattle.std.specs.List.{flat_map};
ghost use Rattle.al_view.specs.declared.part.Part.TheVariants.{Stub};
ghost use Rattle.al_query.specs.declared.query.Query.TheVariants.{Named, Of};
ghost use Rattle.al_check_bounded.specs.Questions.{named_in, of_unit, parts_of, wanted_queries};

use crate::wanted::Wanted;
use al_base::{Name, NoMemory, UnitKey};
use al_query::{Property, Query};
use al_view::{Part, copied_unit};
use std::alloc::Global;

fn add_property(
    alloc: Global,
    unit: &UnitKey,
    property: Property,
    queries: &mut Vec<Query>,
) -> Result<(), NoMemory>
    ensures { OnOk result (queries.new.items ≡ queries.old.items ++ Of unit.now property ∷ []) }
{
    let unit = copied_unit(alloc, unit)?;
    queries.push(Query::Of { unit, property })?;
    Ok(())
}

fn named(alloc: Global, unit: &UnitKey, part: &Part, name: &Name) -> Result<Query, NoMemory>
    ensures { IfOk result (λ q. q ≡ Named unit.now part.now name.now) }
{
    Ok(Query::Named {
        unit: copied_unit(alloc, unit)?,
        part: part.copy(alloc)?,
        name: Name::from_slice(alloc, name.as_slice())?,
    })
}

fn add_names(
    alloc: Global,
    unit: &UnitKey,
    part: &Part,
    names: &[Name],
    queries: &mut Vec<Query>,
) -> Result<(), NoMemory>
    ensures { OnOk result (queries.new.items ≡ queries.old.items ++ named_in unit.now names.now part.now) }
{
    for name in names {
        let query = named(alloc, unit, part, name)?;
        queries.push(query)?;
    }
    Ok(())
}

fn add_stub(
    alloc: Global,
    unit: &UnitKey,
    stub: &Name,
    names: &[Name],
    queries: &mut Vec<Query>,
) -> Result<(), NoMemory>
    ensures { OnOk result (queries.new.items ≡ queries.old.items ++ named_in unit.now names.now (Stub stub.now)) }
{
    let part = Part::Stub(Name::from_slice(alloc, stub.as_slice())?);
    add_names(alloc, unit, &part, names, queries)
}

fn add_stubs(
    alloc: Global,
    unit: &UnitKey,
    stubs: &[Name],
    names: &[Name],
    queries: &mut Vec<Query>,
) -> Result<(), NoMemory>
    ensures { OnOk result (queries.new.items ≡ queries.old.items ++ flat_map (λ s. named_in unit.now names.now (Stub s)) stubs.now) }
{
    for stub in stubs {
        add_stub(alloc, unit, stub, names, queries)?;
    }
    Ok(())
}

fn add_parts(
    alloc: Global,
    unit: &UnitKey,
    stubs: &[Name],
    names: &[Name],
    queries: &mut Vec<Query>,
) -> Result<(), NoMemory>
    ensures { OnOk result (queries.new.items ≡ queries.old.items ++ flat_map (named_in unit.now names.now) (parts_of stubs.now)) }
{
    add_names(alloc, unit, &Part::Visible, names, queries)?;
    add_names(alloc, unit, &Part::Private, names, queries)?;
    add_names(alloc, unit, &Part::Body, names, queries)?;
    add_stubs(alloc, unit, stubs, names, queries)
}

fn add_unit(
    alloc: Global,
    wanted: &Wanted,
    unit: &UnitKey,
    queries: &mut Vec<Query>,
) -> Result<(), NoMemory>
    ensures { OnOk result (queries.new.items ≡ queries.old.items ++ of_unit wanted.now unit.now) }
{
    add_property(alloc, unit, Property::Kind, queries)?;
    add_property(alloc, unit, Property::Completions, queries)?;
    add_parts(
        alloc,
        unit,
        wanted.stubs.as_slice(),
        wanted.names.as_slice(),
        queries,
    )
}

/// All of these questions.
pub(crate) fn wanted_queries(alloc: Global, wanted: &Wanted) -> Result<Vec<Query>, NoMemory>
    ensures { IfOk result (λ queries. queries.items ≡ wanted_queries wanted.now) }
{
    let mut queries = Vec::new(alloc);
    for unit in wanted.units.as_slice() {
        add_unit(alloc, wanted, unit, &mut queries)?;
    }
    Ok(queries)
}
