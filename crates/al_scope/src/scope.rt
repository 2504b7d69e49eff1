// The regions round a place, and what they make visible.
ghost use Rattle.std.specs.Prelude.{◌≡◌, ◌<◌, ◌≤◌, List, [], ◌∷◌, ◌++◌, ◌↔◌, IfOk, OnErr, OnOk, IsTrue, length, not, true, Some, None, is_ok, if◌then◌else◌};
ghost use Rattle.std.specs.List.{list_any};
ghost use Rattle.std.specs.Option.{option_copied};
ghost use Rattle.al_view.specs.declared.view.ViewKind.{ViewKind};
ghost use Rattle.al_view.specs.Homographs.{homographs};
ghost use Rattle.al_view.specs.Interfaces.{views_of};
ghost use Rattle.al_query.specs.Asked.{AsksOf, by_name};
ghost use Rattle.al_query.specs.Reads.{HoldsBy, FromAnswers};
ghost use Rattle.al_scope.specs.declared.region.Region.{Region};
ghost use Rattle.al_scope.specs.Asked.{AsksParts};
ghost use Rattle.al_scope.specs.Expanded.{IsSelected, part_of, region_of, selected_at, selected_parts, unit_parts, unit_region, within, within_parts, within_unit};
ghost use Rattle.al_scope.specs.PartialViews.{some_incomplete};
ghost use Rattle.al_scope.specs.Places.{encloses, entered, entered_construct, in_last, inner_declared, inner_parts, is_declared_round, part_units, place_of, place_units, uses_at, with_begun, with_declared, with_mentioned, with_part, with_private_types, with_use, with_use_type, with_use_view};
ghost use Rattle.al_scope.specs.Searches.{searched_parts};
ghost use Rattle.al_scope.specs.Visible.{declared_by, innermost, visible_at};
ghost use Rattle.al_scope.specs.VisibleSet.{Has, IsVisible, KeepsOnce, StaysOnce};

use crate::hiding::{Search, has_homograph};
use crate::partial::some_incomplete;
use crate::questions::{ask_more, visible_part_at};
use crate::region::{Region, UnitPart};
use crate::search::{append_some, find, find_told, search_outward, used_of};
use crate::uses::UseClauses;
use al_base::{Name, NoMemory, UnitKey, UnitKind};
use al_query::{Answers, Recorder};
use al_view::{Interface, Seq, Symbol, Types, View, Views};
use std::alloc::Global;
use std::marker::Model;

/// The use clauses that hold in the innermost region. If there are none, it takes no memory.
fn uses_of(alloc: Global, regions: &[Region]) -> Result<UseClauses, NoMemory>
    ensures is { IfOk result (λ uses. uses ≡ uses_at regions.now) }
    ensures takes_none { uses_at regions.now ≡ [] → is_ok result ≡ true }
{
    match regions.last() {
        Some(region) => {
            let uses = region.uses.copy()?;
            Ok(uses)
        }
        None => Ok(UseClauses::new(alloc)),
    }
}

/// The outermost region of that construct.
fn region_of<'a>(regions: &'a [Region], construct: &Symbol) -> Option<&'a Region>
    ensures { option_copied result ≡ region_of construct.now regions.now }
{
    regions.iter().find(|region| region.is_of(construct))
}

/// The index of the outermost region of the construct, from 0. If there is none, the number of regions.
fn place_of(regions: &[Region], construct: &Symbol) -> usize
    ensures is { result ≡ place_of construct.now regions.now }
    ensures most { result ≤ length regions.now }
{
    let mut place = 0;
    for region in regions {
        if region.is_of(construct) {
            return place;
        }
        place += 1;
    }
    place
}

/// The outermost region of a construct of that unit.
fn unit_region<'a>(regions: &'a [Region], unit: &UnitKey) -> Option<&'a Region>
    ensures { option_copied result ≡ unit_region unit.now regions.now }
{
    regions.iter().find(|region| region.is_in(unit))
}

/// The regions round a place, outermost first, and the library units that are mentioned there.
pub struct Scope {
    alloc: Global,
    mentioned: Interface,
    regions: Vec<Region>,
}

impl Drop for Scope {
    fn drop(self) {
        let Scope {
            alloc: _,
            mentioned: _,
            regions: _,
        } = self;
    }
}

impl Model for Scope {
    ghost use Rattle.al_scope.specs.Places.{Place};

    ghost Value = { Place };

    ghost view = { λ s. record { mentioned = s.mentioned; regions = s.regions.items } };
}

impl Scope {
    /// A place with no region round it, where no unit is mentioned. It takes no memory.
    pub fn new(alloc: Global) -> Self
        ensures { result ≡ (record { mentioned = []; regions = [] }) }
    {
        Scope {
            alloc,
            mentioned: Interface::new(alloc),
            regions: Vec::new(alloc),
        }
    }

    /// Whether no region is entered.
    pub fn is_empty(&self) -> bool
        ensures { IsTrue result ↔ (length self.now.regions ≡ 0) }
    {
        self.regions.is_empty()
    }

    /// Mentions the library unit of that full name, in lower case, with its view (ARM 10.1.2(6)). From here on it counts as declared in its
    /// parent's visible part, a root unit in Standard's (ARM 8.1(9), 10.1.2(8)). The unit that the place is in and its ancestors are
    /// mentioned too. If the unit is mentioned already, it takes no memory.
    /// # Errors
    /// `NoMemory` if the allocator refuses memory; nothing is mentioned then.
    pub fn mention(&mut self, unit_name: &[u8], view: View) -> Result<(), NoMemory>
        ensures mentioned { self.new.mentioned ≡ (if is_ok result then with_mentioned unit_name.now view self.old.mentioned else self.old.mentioned) }
        ensures regions { self.new.regions ≡ self.old.regions }
        ensures takes_none { 0 < length (views_of self.old.mentioned unit_name.now) → is_ok result ≡ true }
    {
        if self.mentioned.views(unit_name).is_empty() {
            self.mentioned.declare(unit_name, view)?;
        }
        Ok(())
    }

    /// A region that continues these parts, in which the use clauses round it hold. If no use clauses hold there, it takes no memory.
    fn inner_region(&self, parts: Seq<UnitPart>) -> Result<Region, NoMemory>
        ensures is { IfOk result (λ region. region ≡ entered parts self.now.regions) }
        ensures takes_none { uses_at self.now.regions ≡ [] → is_ok result ≡ true }
    {
        let uses = uses_of(self.alloc, self.regions.as_slice())?;
        let region = Region::new(self.alloc, parts, uses);
        Ok(region)
    }

    /// Enters a region that continues these parts of units (ARM 8.1). The use clauses round it hold in it.
    /// # Errors
    /// `NoMemory` if the allocator refuses memory; the regions are unchanged then.
    pub fn enter(&mut self, parts: Seq<UnitPart>) -> Result<(), NoMemory>
        ensures ok { OnOk result (self.new.regions ≡ self.old.regions ++ entered parts self.old.regions ∷ []) }
        ensures err { OnErr result (self.new.regions ≡ self.old.regions) }
        ensures mentioned { self.new.mentioned ≡ self.old.mentioned }
    {
        let region = self.inner_region(parts)?;
        self.regions.push(region)?;
        Ok(())
    }

    /// Enters the region of a package, a subprogram, a task, a protected object or an entry, which may then be the prefix of an expanded
    /// name (ARM 4.1.3(4, 13)). Blocks and loops are entered by `enter`, also if they have names (a choice).
    /// # Errors
    /// `NoMemory` if the allocator refuses memory; the regions are unchanged then.
    pub fn enter_construct(
        &mut self,
        construct: Symbol,
        parts: Seq<UnitPart>,
    ) -> Result<(), NoMemory>
        ensures ok { OnOk result (self.new.regions ≡ self.old.regions ++ entered_construct construct parts self.old.regions ∷ []) }
        ensures err { OnErr result (self.new.regions ≡ self.old.regions) }
        ensures mentioned { self.new.mentioned ≡ self.old.mentioned }
    {
        let mut region = self.inner_region(parts)?;
        region.construct = Some(construct);
        self.regions.push(region)?;
        Ok(())
    }

    /// Leaves the innermost region.
    pub fn leave(&mut self)
        requires { 0 < length self.old.regions }
        ensures regions { (region : Region) × (self.old.regions ≡ self.new.regions ++ region ∷ []) }
        ensures mentioned { self.new.mentioned ≡ self.old.mentioned }
    {
        let left = self.regions.pop();
        drop(left);
    }

    /// Begins a declaration that may not be overloaded: until the region is left it hides outer declarations of its name (ARM 8.3(15, 16)).
    /// # Errors
    /// `NoMemory` if the allocator refuses memory; the regions are unchanged then.
    pub fn start(&mut self, name: &[u8]) -> Result<(), NoMemory>
        requires { 0 < length self.old.regions }
        ensures new { self.new.regions ≡ (if is_ok result then in_last (with_begun name.now) self.old.regions else self.old.regions) }
        ensures depth { length self.new.regions ≡ length self.old.regions }
        ensures mentioned { self.new.mentioned ≡ self.old.mentioned }
    {
        let last = self.regions.len() - 1;
        let region = &mut self.regions[last];
        region.start(name)?;
        Ok(())
    }

    /// The contexts of the units of its parts name these private types in the innermost region. It takes no memory.
    pub fn tell(&mut self, private_types: Seq<Name>)
        requires { 0 < length self.old.regions }
        ensures new { self.new.regions ≡ in_last (with_private_types private_types) self.old.regions }
        ensures depth { length self.new.regions ≡ length self.old.regions }
        ensures mentioned { self.new.mentioned ≡ self.old.mentioned }
    {
        let last = self.regions.len() - 1;
        let region = &mut self.regions[last];
        region.private_types = private_types;
    }

    /// Whether the unit encloses the place: a region round it is that of the unit, or of a construct in it.
    pub fn is_in(&self, unit: &UnitKey) -> bool
        ensures { result ≡ encloses unit.now self.now.regions }
    {
        self.regions.iter().any(|region| region.is_in(unit))
    }

    /// From here on the outermost region of the construct continues this part too. It is called where the private part of a library package
    /// or the body of a library subprogram begins: from there on the private parts of its ancestors are seen (ARM 8.2(5)). If there is no
    /// such region, it takes no memory.
    /// # Errors
    /// `NoMemory` if the allocator refuses memory; the regions are unchanged then.
    pub fn add_part(&mut self, construct: &Symbol, part: UnitPart) -> Result<(), NoMemory>
        ensures ok { OnOk result (self.new.regions ≡ with_part construct.now part self.old.regions) }
        ensures err { OnErr result (self.new.regions ≡ self.old.regions) }
        ensures depth { length self.new.regions ≡ length self.old.regions }
        ensures mentioned { self.new.mentioned ≡ self.old.mentioned }
        ensures takes_none { place_of construct.now self.old.regions ≡ length self.old.regions → is_ok result ≡ true }
    {
        let at = place_of(self.regions.as_slice(), construct);
        if at < self.regions.len() {
            let region = &mut self.regions[at];
            region.parts.push(part)?;
        }
        Ok(())
    }

    /// Adds a use clause that names the package to the innermost region (ARM 8.4(3)). It has no effect if the package encloses the place:
    /// all that it opens is directly visible there, or hidden. Then it takes no memory.
    /// # Errors
    /// `NoMemory` if the allocator refuses memory; the regions are unchanged then.
    pub fn use_package(&mut self, unit: &UnitKey) -> Result<(), NoMemory>
        requires { 0 < length self.old.regions }
        ensures new { self.new.regions ≡ (if is_ok result then with_use unit.now self.old.regions else self.old.regions) }
        ensures depth { length self.new.regions ≡ length self.old.regions }
        ensures mentioned { self.new.mentioned ≡ self.old.mentioned }
        ensures takes_none { encloses unit.now self.old.regions ≡ true → is_ok result ≡ true }
    {
        if self.is_in(unit) {
            return Ok(());
        }
        let last = self.regions.len() - 1;
        let region = &mut self.regions[last];
        region.use_package(unit.name.as_slice())?;
        Ok(())
    }

    /// Whether the type is declared round the place: by a body, or by a unit that encloses the place.
    pub fn is_declared_round(&self, symbol: &Symbol) -> bool
        ensures { result ≡ is_declared_round symbol.now self.now.regions }
    {
        !matches!(symbol.unit.kind, UnitKind::Decl) || self.is_in(&symbol.unit)
    }

    /// Adds a use type clause that names the type to the innermost region (ARM 8.4(4)). It has no effect if the type is declared round the
    /// place: its operators are declared beside it (ARM 3.2.3(6)). Then it takes no memory.
    /// # Errors
    /// `NoMemory` if the allocator refuses memory; the regions are unchanged then.
    pub fn use_type(&mut self, symbol: Symbol) -> Result<(), NoMemory>
        requires { 0 < length self.old.regions }
        ensures new { self.new.regions ≡ (if is_ok result then with_use_type symbol self.old.regions else self.old.regions) }
        ensures depth { length self.new.regions ≡ length self.old.regions }
        ensures mentioned { self.new.mentioned ≡ self.old.mentioned }
        ensures takes_none { is_declared_round symbol self.old.regions ≡ true → is_ok result ≡ true }
    {
        if self.is_declared_round(&symbol) {
            return Ok(());
        }
        let last = self.regions.len() - 1;
        let region = &mut self.regions[last];
        region.use_type(symbol)?;
        Ok(())
    }

    /// Adds a use type clause that names a type whose package isn't mentioned there, with the types that its view has: these say which
    /// operators it has.
    /// # Errors
    /// `NoMemory` if the allocator refuses memory; the regions are unchanged then.
    pub fn use_type_view(&mut self, symbol: &Symbol, types: &Types) -> Result<(), NoMemory>
        requires { 0 < length self.old.regions }
        ensures new { self.new.regions ≡ (if is_ok result then with_use_view symbol.now types.now self.old.regions else self.old.regions) }
        ensures depth { length self.new.regions ≡ length self.old.regions }
        ensures mentioned { self.new.mentioned ≡ self.old.mentioned }
    {
        if self.is_declared_round(symbol) {
            return Ok(());
        }
        let last = self.regions.len() - 1;
        let region = &mut self.regions[last];
        region.use_type_view(symbol, types)?;
        Ok(())
    }

    /// What the innermost region has of a name, with the parts that it continues: a new declaration of the name may be a homograph of it,
    /// or complete it. If that region continues no part and declares nothing of the name, it takes no memory.
    /// # Errors
    /// `NoMemory` if the allocator refuses memory.
    pub fn declared_here<A: Answers>(
        &self,
        name: &[u8],
        recorder: &mut Recorder<A>,
    ) -> Result<Views, NoMemory>
        requires { 0 < length self.now.regions }
        ensures asked { recorder.new.asked ≡ recorder.old.asked }
        ensures answered { IfOk result (λ views. FromAnswers recorder.old.log recorder.new.log (λ t. views ≡ innermost t self.now.mentioned name.now self.now.regions)) }
        ensures asks { IfOk result (λ _. AsksOf (part_units (inner_parts self.now.regions)) (by_name (name.now ∷ [])) recorder.old.log recorder.new.log) }
        ensures takes_none { inner_parts self.now.regions ≡ [] → views_of (inner_declared self.now.regions) name.now ≡ [] → is_ok result ≡ true }
    {
        let last = self.regions.len() - 1;
        let found = find(
            self.alloc,
            &self.mentioned,
            &self.regions[last],
            name,
            recorder,
        )?;
        Ok(found.views)
    }

    /// What the innermost region itself declares of a name, without the parts that it continues.
    pub fn declared_alone(&self, name: &[u8]) -> &[View]
        ensures { result.now ≡ views_of (inner_declared self.now.regions) name.now }
    {
        match self.regions.last() {
            Some(region) => region.declared.views(name),
            None => &[],
        }
    }

    /// Whether a private type of the innermost region has no full declaration yet, apart from the parts that the region continues.
    pub fn is_incomplete(&self) -> bool
        ensures { result ≡ some_incomplete (inner_declared self.now.regions) }
    {
        match self.regions.last() {
            Some(region) => some_incomplete(&region.declared),
            None => false,
        }
    }

    /// Whether the innermost region has a homograph of the view, so that the declaration is illegal there (ARM 8.3(26)). If that region
    /// continues no part and declares nothing of the name, it takes no memory.
    /// # Errors
    /// `NoMemory` if the allocator refuses memory.
    pub fn has_homograph<A: Answers>(
        &self,
        name: &[u8],
        view: &View,
        recorder: &mut Recorder<A>,
    ) -> Result<bool, NoMemory>
        requires { 0 < length self.now.regions }
        ensures asked { recorder.new.asked ≡ recorder.old.asked }
        ensures answered { IfOk result (λ has. FromAnswers recorder.old.log recorder.new.log (λ t. has ≡ list_any (homographs view.now) (innermost t self.now.mentioned name.now self.now.regions))) }
        ensures asks { IfOk result (λ _. AsksOf (part_units (inner_parts self.now.regions)) (by_name (name.now ∷ [])) recorder.old.log recorder.new.log) }
        ensures takes_none { inner_parts self.now.regions ≡ [] → views_of (inner_declared self.now.regions) name.now ≡ [] → is_ok result ≡ true }
    {
        let views = self.declared_here(name, recorder)?;
        let has = has_homograph(view, views.as_slice());
        Ok(has)
    }

    /// Declares a view under a name, unless the innermost region has a homograph (ARM 8.3(26)): then the result is false, and nothing
    /// changes.
    /// # Errors
    /// `NoMemory` if the allocator refuses memory; the regions are unchanged then.
    pub fn declare<A: Answers>(
        &mut self,
        name: &[u8],
        view: View,
        recorder: &mut Recorder<A>,
    ) -> Result<bool, NoMemory>
        requires { 0 < length self.old.regions }
        ensures asked { recorder.new.asked ≡ recorder.old.asked }
        ensures answered { IfOk result (λ fits. FromAnswers recorder.old.log recorder.new.log (λ t. fits ≡ not (list_any (homographs view) (innermost t self.old.mentioned name.now self.old.regions)))) }
        ensures asks { IfOk result (λ _. AsksOf (part_units (inner_parts self.old.regions)) (by_name (name.now ∷ [])) recorder.old.log recorder.new.log) }
        ensures new { IfOk result (λ fits. self.new.regions ≡ (if fits then in_last (with_declared name.now view) self.old.regions else self.old.regions)) }
        ensures once { IfOk result (λ _. HoldsBy recorder.new.log (λ t. StaysOnce t self.old self.new)) }
        ensures depth { length self.new.regions ≡ length self.old.regions }
        ensures mentioned { self.new.mentioned ≡ self.old.mentioned }
        ensures err { OnErr result (self.new.regions ≡ self.old.regions) }
    {
        if self.has_homograph(name, &view, recorder)? {
            return Ok(false);
        }
        let last = self.regions.len() - 1;
        let region = &mut self.regions[last];
        region.declare(name, view)?;
        Ok(true)
    }

    /// Adds a declaration to the innermost region, whatever it has of the name. It asks nothing.
    /// # Errors
    /// `NoMemory` if the allocator refuses memory; the regions are unchanged then.
    pub fn add(&mut self, name: &[u8], view: View) -> Result<(), NoMemory>
        requires { 0 < length self.old.regions }
        ensures new { self.new.regions ≡ (if is_ok result then in_last (with_declared name.now view) self.old.regions else self.old.regions) }
        ensures depth { length self.new.regions ≡ length self.old.regions }
        ensures mentioned { self.new.mentioned ≡ self.old.mentioned }
    {
        let last = self.regions.len() - 1;
        let region = &mut self.regions[last];
        region.declare(name, view)?;
        Ok(())
    }

    /// What is visible by selection of a name in a construct that encloses the place (ARM 4.1.3(4, 13), 8.3(8)): what the parts that its
    /// region continues declare, and what is declared in it so far. `None` if the construct doesn't enclose the place, so that it is no
    /// prefix of an expanded name; then it takes no memory. Nor does it if the region of the construct continues no part and declares
    /// nothing of the name.
    /// # Errors
    /// `NoMemory` if the allocator refuses memory.
    pub fn selected_within<A: Answers>(
        &self,
        construct: &Symbol,
        name: &[u8],
        recorder: &mut Recorder<A>,
    ) -> Result<Option<Views>, NoMemory>
        ensures asked { recorder.new.asked ≡ recorder.old.asked }
        ensures answered { IfOk result (λ views. FromAnswers recorder.old.log recorder.new.log (λ t. views ≡ within t self.now.mentioned name.now construct.now self.now.regions)) }
        ensures asks { IfOk result (λ _. AsksOf (part_units (within_parts construct.now self.now)) (by_name (name.now ∷ [])) recorder.old.log recorder.new.log) }
        ensures selected { IfOk result (λ views. HoldsBy recorder.new.log (λ t. IsSelected t self.now.mentioned name.now construct.now self.now.regions views)) }
        ensures takes_none { region_of construct.now self.now.regions ≡ None → is_ok result ≡ true }
        ensures takes_none_of_none { (region : Region) → region_of construct.now self.now.regions ≡ Some region → region.parts ≡ [] → views_of region.declared name.now ≡ [] → is_ok result ≡ true }
    {
        match region_of(self.regions.as_slice(), construct) {
            Some(region) => {
                let found = find(self.alloc, &self.mentioned, region, name, recorder)?;
                Ok(Some(found.views))
            }
            None => Ok(None),
        }
    }

    /// What the region of a package that encloses the place has of a private type's name. `unit` is the package's unit. If it doesn't
    /// enclose the place, the result is empty, and it takes no memory.
    /// # Errors
    /// `NoMemory` if the allocator refuses memory.
    pub fn within_unit<A: Answers>(
        &self,
        unit: &UnitKey,
        name: &[u8],
        recorder: &mut Recorder<A>,
    ) -> Result<Views, NoMemory>
        ensures asked { recorder.new.asked ≡ recorder.old.asked }
        ensures answered { IfOk result (λ views. FromAnswers recorder.old.log recorder.new.log (λ t. views ≡ within_unit t name.now unit.now self.now)) }
        ensures asks { IfOk result (λ _. AsksOf (part_units (unit_parts unit.now self.now)) (by_name (name.now ∷ [])) recorder.old.log recorder.new.log) }
        ensures takes_none { unit_region unit.now self.now.regions ≡ None → is_ok result ≡ true }
    {
        match unit_region(self.regions.as_slice(), unit) {
            Some(region) => {
                let views = find_told(self.alloc, &self.mentioned, region, name, recorder)?;
                Ok(views)
            }
            None => Ok(Views::new(self.alloc)),
        }
    }

    /// What the visible part of the package declares under a name, in source order and its mentioned children last.
    fn declared_by<A: Answers>(
        &self,
        prefix: &Symbol,
        name: &[u8],
        recorder: &mut Recorder<A>,
    ) -> Result<Views, NoMemory>
        ensures asked { recorder.new.asked ≡ recorder.old.asked }
        ensures answered { IfOk result (λ views. FromAnswers recorder.old.log recorder.new.log (λ t. views ≡ declared_by t self.now.mentioned name.now (part_of prefix.now))) }
        ensures asks { IfOk result (λ _. AsksOf (part_units (part_of prefix.now ∷ [])) (by_name (name.now ∷ [])) recorder.old.log recorder.new.log) }
    {
        let part = visible_part_at(self.alloc, prefix)?;
        let mut views = Views::new(self.alloc);
        ask_more(
            self.alloc,
            &self.mentioned,
            &part,
            name,
            &mut views,
            recorder,
        )?;
        Ok(views)
    }

    /// What is visible by selection of a name in the package with this symbol (ARM 4.1.3(4), 8.3(8)). If the package encloses the place,
    /// that is what its region has, including its private part and body so far; else what its visible part declares, in source order and
    /// its mentioned children last. If its region continues no part and declares nothing of the name, it takes no memory.
    /// # Errors
    /// `NoMemory` if the allocator refuses memory.
    pub fn selected<A: Answers>(
        &self,
        prefix: &Symbol,
        name: &[u8],
        recorder: &mut Recorder<A>,
    ) -> Result<Views, NoMemory>
        ensures asked { recorder.new.asked ≡ recorder.old.asked }
        ensures answered { IfOk result (λ views. FromAnswers recorder.old.log recorder.new.log (λ t. views ≡ selected_at t name.now prefix.now self.now)) }
        ensures asks { IfOk result (λ _. AsksOf (part_units (selected_parts prefix.now self.now)) (by_name (name.now ∷ [])) recorder.old.log recorder.new.log) }
        ensures takes_none_of_none { (region : Region) → region_of prefix.now self.now.regions ≡ Some region → region.parts ≡ [] → views_of region.declared name.now ≡ [] → is_ok result ≡ true }
    {
        match region_of(self.regions.as_slice(), prefix) {
            Some(region) => {
                let found = find(self.alloc, &self.mentioned, region, name, recorder)?;
                Ok(found.views)
            }
            None => {
                let views = self.declared_by(prefix, name, recorder)?;
                Ok(views)
            }
        }
    }

    /// What is visible of a name (ARM 8.3, 8.4): directly visible declarations first, those of the innermost region first, then use-visible
    /// ones in the order of their package and source. It looks from the innermost region outward and stops at the first that shuts out
    /// every other declaration. If there is none, the packages that use clauses open are asked. If there is no region, it takes no memory.
    /// # Errors
    /// `NoMemory` if the allocator refuses memory.
    pub fn visible<A: Answers>(
        &self,
        name: &[u8],
        recorder: &mut Recorder<A>,
    ) -> Result<Views, NoMemory>
        ensures asked { recorder.new.asked ≡ recorder.old.asked }
        ensures answered { IfOk result (λ views. FromAnswers recorder.old.log recorder.new.log (λ t. views ≡ visible_at t name.now self.now)) }
        ensures asks { IfOk result (λ _. AsksOf (place_units self.now) (by_name (name.now ∷ [])) recorder.old.log recorder.new.log) }
        ensures stops { IfOk result (λ _. HoldsBy recorder.new.log (λ t. AsksParts (searched_parts t name.now self.now) name.now recorder.old.log recorder.new.log)) }
        ensures once { IfOk result (λ views. HoldsBy recorder.new.log (λ t. KeepsOnce t name.now self.now views)) }
        ensures exactly { IfOk result (λ views. HoldsBy recorder.new.log (λ t. (v : ViewKind) → Has views v ↔ IsVisible t name.now self.now v)) }
        ensures takes_none { self.now.regions ≡ [] → is_ok result ≡ true }
    {
        let regions = self.regions.as_slice();
        let search = search_outward(self.alloc, &self.mentioned, regions, name, recorder)?;
        let used = used_of(
            self.alloc,
            &self.mentioned,
            regions,
            &search,
            name,
            recorder,
        )?;
        let Search {
            direct: mut visible,
            ..
        } = search;
        append_some(&mut visible, used.as_slice())?;
        Ok(visible)
    }
}
