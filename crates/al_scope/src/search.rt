// What regions and use clauses have of a name.
ghost use Rattle.std.specs.Prelude.{◌≡◌, List, [], ◌++◌, IfOk, OnOk, false, is_ok, map, true, if◌then◌else◌};
ghost use Rattle.al_view.specs.Interfaces.{views_of};
ghost use Rattle.al_query.specs.Reads.{HoldsBy, FromAnswers};
ghost use Rattle.al_scope.specs.declared.hiding.RegionEntry.{RegionEntry};
ghost use Rattle.al_scope.specs.Asked.{AsksParts};
ghost use Rattle.al_scope.specs.Expanded.{tells, told_in};
ghost use Rattle.al_scope.specs.Places.{region_parts, use_parts, uses_at};
ghost use Rattle.al_scope.specs.Searches.{IsSearch, searched};
ghost use Rattle.al_scope.specs.UseClauses.{EachOnce};
ghost use Rattle.al_scope.specs.Visible.{found_in, potential, use_visible};
ghost use Rattle.al_scope.specs.VisibleSet.{AreApart, DeclareOnce, Once};

use crate::hiding::{RegionEntry, Search, use_visible_of};
use crate::partial::without_partial;
use crate::questions::ask_each;
use crate::region::Region;
use al_base::NoMemory;
use al_query::{Answers, Recorder};
use al_view::{Interface, View, Views};
use std::alloc::Global;

/// Appends the others, if there are any; if not, it takes no memory.
/// # Errors
/// `NoMemory` if the allocator refuses memory.
pub fn append_some(views: &mut Views, others: &[View]) -> Result<(), NoMemory>
    ensures is { OnOk result (views.new ≡ views.old ++ others.now) }
    ensures takes_none { others.now ≡ [] → is_ok result ≡ true }
{
    if !others.is_empty() {
        views.append(others)?;
    }
    Ok(())
}

/// What a region has of a name. If it continues no part and declares nothing of the name, it takes no memory.
/// # Errors
/// `NoMemory` if the allocator refuses memory.
pub fn find<A: Answers>(
    alloc: Global,
    mentioned: &Interface,
    region: &Region,
    name: &[u8],
    recorder: &mut Recorder<A>,
) -> Result<RegionEntry, NoMemory>
    ensures asked { recorder.new.asked ≡ recorder.old.asked }
    ensures answered { IfOk result (λ found. FromAnswers recorder.old.log recorder.new.log (λ t. found ≡ found_in t mentioned.now name.now region.now)) }
    ensures asks { IfOk result (λ _. AsksParts region.now.parts name.now recorder.old.log recorder.new.log) }
    ensures takes_none { region.now.parts ≡ [] → views_of region.now.declared name.now ≡ [] → is_ok result ≡ true }
{
    let mut views = ask_each(alloc, mentioned, region.parts.as_slice(), name, recorder)?;
    append_some(&mut views, region.declared.views(name))?;
    let views = without_partial(alloc, views)?;
    let begun = region.begun.contains(name);
    Ok(RegionEntry { begun, views })
}

/// What a region has of a private type's name. If the region continues parts whose units declare no such type, it takes no memory.
/// # Errors
/// `NoMemory` if the allocator refuses memory.
pub fn find_told<A: Answers>(
    alloc: Global,
    mentioned: &Interface,
    region: &Region,
    name: &[u8],
    recorder: &mut Recorder<A>,
) -> Result<Views, NoMemory>
    ensures asked { recorder.new.asked ≡ recorder.old.asked }
    ensures answered { IfOk result (λ views. FromAnswers recorder.old.log recorder.new.log (λ t. views ≡ told_in t mentioned.now name.now region.now)) }
    ensures asks { IfOk result (λ _. AsksParts region.now.parts name.now recorder.old.log recorder.new.log) }
    ensures takes_none { tells name.now region.now ≡ false → is_ok result ≡ true }
{
    if region.tells(name) {
        let found = find(alloc, mentioned, region, name, recorder)?;
        return Ok(found.views);
    }
    Ok(Views::new(alloc))
}

/// What the regions have of a name, from the innermost outward up to the first that decides. No region further out is asked. If there is no
/// region, it takes no memory.
/// # Errors
/// `NoMemory` if the allocator refuses memory.
pub fn search_outward<A: Answers>(
    alloc: Global,
    mentioned: &Interface,
    regions: &[Region],
    name: &[u8],
    recorder: &mut Recorder<A>,
) -> Result<Search, NoMemory>
    ensures asked { recorder.new.asked ≡ recorder.old.asked }
    ensures answered { IfOk result (λ search. FromAnswers recorder.old.log recorder.new.log (λ t. IsSearch (map (found_in t mentioned.now name.now) regions.now) search)) }
    ensures asks { IfOk result (λ _. AsksParts (region_parts regions.now) name.now recorder.old.log recorder.new.log) }
    ensures stops { IfOk result (λ _. HoldsBy recorder.new.log (λ t. AsksParts (region_parts (searched t mentioned.now name.now regions.now)) name.now recorder.old.log recorder.new.log)) }
    ensures takes_none { regions.now ≡ [] → is_ok result ≡ true }
{
    let mut search = Search::new(alloc);
    let mut rest = regions;
    'outward: while let [outer @ .., region] = rest {
        if search.is_decided {
            return Ok(search);
        }
        let found = find(alloc, mentioned, region, name, recorder)?;
        search.go_outward(alloc, found)?;
        rest = outer;
    }
    Ok(search)
}

/// What is potentially use-visible of a name, by the use clauses that hold in the innermost region. If none hold, it takes no memory; if
/// there is no region, the result is empty.
fn potential_of<A: Answers>(
    alloc: Global,
    mentioned: &Interface,
    regions: &[Region],
    name: &[u8],
    recorder: &mut Recorder<A>,
) -> Result<Views, NoMemory>
    ensures asked { recorder.new.asked ≡ recorder.old.asked }
    ensures answered { IfOk result (λ views. FromAnswers recorder.old.log recorder.new.log (λ t. views ≡ potential t mentioned.now name.now (uses_at regions.now))) }
    ensures asks { IfOk result (λ _. AsksParts (use_parts (uses_at regions.now)) name.now recorder.old.log recorder.new.log) }
    ensures each { IfOk result (λ _. EachOnce (uses_at regions.now)) }
    ensures takes_none { uses_at regions.now ≡ [] → is_ok result ≡ true }
    ensures none { regions.now ≡ [] → IfOk result (λ views. views ≡ []) }
{
    match regions.last() {
        Some(region) => {
            let views = region.uses.potential(mentioned, name, recorder)?;
            Ok(views)
        }
        None => Ok(Views::new(alloc)),
    }
}

/// What is use-visible of a name, of which the search found this in the regions. If a region shuts out every other declaration, no package
/// is asked, and no memory is taken. If there is no region, the result is empty, and no memory is taken either.
/// # Errors
/// `NoMemory` if the allocator refuses memory.
pub fn used_of<A: Answers>(
    alloc: Global,
    mentioned: &Interface,
    regions: &[Region],
    search: &Search,
    name: &[u8],
    recorder: &mut Recorder<A>,
) -> Result<Views, NoMemory>
    ensures asked { recorder.new.asked ≡ recorder.old.asked }
    ensures answered { IfOk result (λ used. FromAnswers recorder.old.log recorder.new.log (λ t. (founds : List RegionEntry) → IsSearch founds search.now → used ≡ use_visible founds (potential t mentioned.now name.now (uses_at regions.now)))) }
    ensures asks { IfOk result (λ _. AsksParts (if search.now.is_decided then [] else use_parts (uses_at regions.now)) name.now recorder.old.log recorder.new.log) }
    ensures once { IfOk result (λ used. HoldsBy recorder.new.log (λ t. DeclareOnce t mentioned.now name.now (uses_at regions.now) → AreApart t mentioned.now name.now (uses_at regions.now) → Once used)) }
    ensures takes_none { search.now.is_decided ≡ true → is_ok result ≡ true }
    ensures takes_none_outside { regions.now ≡ [] → is_ok result ≡ true }
    ensures none { regions.now ≡ [] → IfOk result (λ used. used ≡ []) }
{
    if search.is_decided {
        return Ok(Views::new(alloc));
    }
    let views = potential_of(alloc, mentioned, regions, name, recorder)?;
    let used = use_visible_of(alloc, search.founds.as_slice(), &views)?;
    Ok(used)
}
