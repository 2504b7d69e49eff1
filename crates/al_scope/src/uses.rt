// Use clauses, by the package whose declarations they open.
ghost use Rattle.std.specs.Prelude.{◌≡◌, [], ◌∷◌, ◌++◌, IfOk, OnErr, OnOk, filter, flat_map, is_ok, true, if◌then◌else◌};
ghost use Rattle.std.specs.List.{list_any};
ghost use Rattle.std.specs.BTreeMap.{insert_entry};
ghost use Rattle.al_base.specs.Files.{name_cmp};
ghost use Rattle.al_view.specs.Interfaces.{views_of};
ghost use Rattle.al_view.specs.Operators.{is_operator_of};
ghost use Rattle.al_view.specs.Symbols.{same_symbol};
ghost use Rattle.al_query.specs.Reads.{FromAnswers};
ghost use Rattle.al_scope.specs.Asked.{AsksParts};
ghost use Rattle.al_scope.specs.Places.{use_parts, used_part};
ghost use Rattle.al_scope.specs.UseClauses.{EachOnce, no_use, opens, use_of, with_operators_in, with_package, with_type, with_type_view};
ghost use Rattle.al_scope.specs.Visible.{offered_by, opened_by, potential};

use crate::questions::{ask_more, visible_part_of};
use crate::type_operators::TypeOperators;
use al_base::NoMemory;
use al_query::{Answers, Recorder};
use al_view::{Interface, Seq, Symbol, Types, View, Views};
use std::alloc::Global;
use std::collections::BTreeMap;
use std::marker::Model;
use std::rc::Rc;

/// What use clauses say of a package.
pub struct PackageUse {
    /// Whether a use clause names it (ARM 8.4(3)).
    pub is_named: bool,
    /// Whether the package is mentioned at the place of one of the clauses: then it is asked for what it declares.
    pub is_mentioned: bool,
    /// The types of the package that use type clauses name (ARM 8.4(4)).
    pub types: Seq<Symbol>,
    /// The operators of those types that are named where the package isn't mentioned, as the types' views have them.
    pub operators: Seq<TypeOperators>,
}

impl Drop for PackageUse {
    fn drop(self) {
        let PackageUse {
            is_named: _,
            is_mentioned: _,
            types: _,
            operators: _,
        } = self;
    }
}

/// Copies of symbols. Of no symbols it takes no memory.
fn copied_symbols(alloc: Global, symbols: &[Symbol]) -> Result<Seq<Symbol>, NoMemory>
    ensures is { IfOk result (λ copy. copy ≡ symbols.now) }
    ensures takes_none { symbols.now ≡ [] → is_ok result ≡ true }
{
    let mut copy = Seq::empty(alloc);
    for symbol in symbols {
        let symbol = symbol.copy(alloc)?;
        copy.push(symbol)?;
    }
    Ok(copy)
}

/// The same operators, shared. Of no operators it takes no memory.
fn shared_operators(
    alloc: Global,
    operators: &[TypeOperators],
) -> Result<Seq<TypeOperators>, NoMemory>
    ensures is { IfOk result (λ copy. copy ≡ operators.now) }
    ensures takes_none { operators.now ≡ [] → is_ok result ≡ true }
{
    let mut copy = Seq::empty(alloc);
    for of_type in operators {
        let of_type = of_type.share()?;
        copy.push(of_type)?;
    }
    Ok(copy)
}

impl PackageUse {
    /// What use clauses say of a package that none of them names. It takes no memory.
    fn none(alloc: Global) -> Self
        ensures { result ≡ no_use }
    {
        PackageUse {
            is_named: false,
            is_mentioned: false,
            types: Seq::empty(alloc),
            operators: Seq::empty(alloc),
        }
    }

    /// A copy. If no type is named, it takes no memory.
    fn copy(&self, alloc: Global) -> Result<Self, NoMemory>
        ensures is { IfOk result (λ copy. copy ≡ self.now) }
        ensures takes_none { self.now.types ≡ [] → self.now.operators ≡ [] → is_ok result ≡ true }
    {
        let types = copied_symbols(alloc, self.types.as_slice())?;
        let operators = shared_operators(alloc, self.operators.as_slice())?;
        Ok(PackageUse {
            is_named: self.is_named,
            is_mentioned: self.is_mentioned,
            types,
            operators,
        })
    }

    /// Whether a use type clause names the type.
    fn has_type(&self, symbol: &Symbol) -> bool
        ensures { result ≡ list_any (same_symbol symbol.now) self.now.types }
    {
        self.types.as_slice().iter().any(|of| symbol.is(of))
    }

    /// Adds a type with the operators that its view has, unless it is there.
    fn add_operators(
        &mut self,
        alloc: Global,
        symbol: &Symbol,
        types: &Types,
    ) -> Result<(), NoMemory>
        ensures { OnOk result (self.new ≡ with_operators_in symbol.now types.now self.old) }
    {
        if self.has_type(symbol) {
            return Ok(());
        }
        let operators = TypeOperators::new(alloc, symbol, types)?;
        self.types.push(symbol.copy(alloc)?)?;
        self.operators.push(operators)?;
        Ok(())
    }

    /// The operators of that sign which the views of types have.
    fn operators_named(&self, alloc: Global, name: &[u8]) -> Result<Views, NoMemory>
        ensures { IfOk result (λ views. views ≡ flat_map (λ d. views_of d name.now) self.now.operators) }
    {
        let mut views = Views::new(alloc);
        for of_type in self.operators.as_slice() {
            views.append(of_type.views(name))?;
        }
        Ok(views)
    }

    /// Whether the view is an operator of one of the types.
    fn has_operator(&self, view: &View) -> bool
        ensures { result ≡ list_any (is_operator_of view.now) self.now.types }
    {
        self.types
            .as_slice()
            .iter()
            .any(|symbol| view.is_operator_of(symbol))
    }

    /// What the clauses open of what the package offers. If that is nothing, it takes no memory.
    fn opened(&self, alloc: Global, views: &Views) -> Result<Views, NoMemory>
        ensures is { IfOk result (λ opened. opened ≡ filter (opens self.now) views.now) }
        ensures takes_none { filter (opens self.now) views.now ≡ [] → is_ok result ≡ true }
    {
        let mut opened = Views::new(alloc);
        for view in views.as_slice() {
            if self.is_named || self.has_operator(view) {
                opened.push(view.share()?)?;
            }
        }
        Ok(opened)
    }
}

/// Use clauses, by the names of the packages. A package is found without a walk.
pub struct UseClauses {
    alloc: Global,
    by_package: BTreeMap<Vec<u8>, Rc<PackageUse>>,
}

impl Drop for UseClauses {
    fn drop(self) {
        let UseClauses {
            alloc: _,
            by_package: _,
        } = self;
    }
}

impl Model for UseClauses {
    ghost use Rattle.al_scope.specs.UseClauses.{Uses, uses_of};

    ghost Value = { Uses };

    ghost view = { λ u. uses_of u.by_package.entries };
}

impl UseClauses {
    /// No use clauses. It takes no memory.
    pub fn new(alloc: Global) -> Self
        ensures { result ≡ [] }
    {
        UseClauses {
            alloc,
            by_package: BTreeMap::new(alloc),
        }
    }

    /// A copy of the use clauses. Of no clauses it takes no memory.
    /// # Errors
    /// `NoMemory` if the allocator refuses memory.
    #[tactic(auto, using(crate::proofs::UseLemmas::uses_none, crate::proofs::UseLemmas::none_uses))]
    pub fn copy(&self) -> Result<Self, NoMemory>
        ensures is { IfOk result (λ copy. copy ≡ self.now) }
        ensures takes_none { self.now ≡ [] → is_ok result ≡ true }
    {
        if self.by_package.is_empty() {
            return Ok(UseClauses::new(self.alloc));
        }
        let by_package = self.by_package.clone()?;
        Ok(UseClauses {
            alloc: self.alloc,
            by_package,
        })
    }

    /// What the clauses say of a package. If no type of it is named, it takes no memory.
    #[tactic(auto, using(crate::proofs::UseLemmas::lookup_uses_of))]
    fn of(&self, package_name: &[u8]) -> Result<PackageUse, NoMemory>
        ensures is { IfOk result (λ used. used ≡ use_of self.now package_name.now) }
        ensures takes_none { (use_of self.now package_name.now).types ≡ [] → (use_of self.now package_name.now).operators ≡ [] → is_ok result ≡ true }
    {
        match self.by_package.get(package_name) {
            Some(used) => {
                let used = used.copy(self.alloc)?;
                Ok(used)
            }
            None => Ok(PackageUse::none(self.alloc)),
        }
    }

    /// Sets what the clauses say of a package.
    fn set(&mut self, package_name: &[u8], used: PackageUse) -> Result<(), NoMemory>
        ensures ok { OnOk result (self.new ≡ insert_entry name_cmp self.old package_name.now used) }
        ensures err { OnErr result (self.new ≡ self.old) }
    {
        let package_name = Vec::from_slice(self.alloc, package_name)?;
        let used = Rc::new(self.alloc, used)?;
        self.by_package.insert(package_name, used)?;
        Ok(())
    }

    /// Adds a use clause that names the package.
    /// # Errors
    /// `NoMemory` if the allocator refuses memory; the clauses are unchanged then.
    pub fn use_package(&mut self, package_name: &[u8]) -> Result<(), NoMemory>
        ensures { self.new ≡ (if is_ok result then with_package package_name.now self.old else self.old) }
    {
        let mut used = self.of(package_name)?;
        used.is_named = true;
        used.is_mentioned = true;
        self.set(package_name, used)?;
        Ok(())
    }

    /// Adds a use type clause that names the type, whose package is mentioned.
    /// # Errors
    /// `NoMemory` if the allocator refuses memory; the clauses are unchanged then.
    pub fn use_type(&mut self, symbol: Symbol) -> Result<(), NoMemory>
        ensures { self.new ≡ (if is_ok result then with_type symbol self.old else self.old) }
    {
        let package_name = Vec::from_slice(self.alloc, symbol.unit.name.as_slice())?;
        let mut used = self.of(package_name.as_slice())?;
        used.types.push(symbol)?;
        used.is_mentioned = true;
        self.set(package_name.as_slice(), used)?;
        Ok(())
    }

    /// Adds a use type clause that names a type whose package isn't mentioned, with the types that its view has.
    /// # Errors
    /// `NoMemory` if the allocator refuses memory; the clauses are unchanged then.
    pub fn use_type_view(&mut self, symbol: &Symbol, types: &Types) -> Result<(), NoMemory>
        ensures { self.new ≡ (if is_ok result then with_type_view symbol.now types.now self.old else self.old) }
    {
        let mut used = self.of(symbol.unit.name.as_slice())?;
        used.add_operators(self.alloc, symbol, types)?;
        self.set(symbol.unit.name.as_slice(), used)?;
        Ok(())
    }

    /// What is potentially use-visible of a name. If there are no use clauses, it takes no memory.
    /// # Errors
    /// `NoMemory` if the allocator refuses memory.
    pub fn potential<A: Answers>(
        &self,
        mentioned: &Interface,
        name: &[u8],
        recorder: &mut Recorder<A>,
    ) -> Result<Views, NoMemory>
        ensures asked { recorder.new.asked ≡ recorder.old.asked }
        ensures answered { IfOk result (λ views. FromAnswers recorder.old.log recorder.new.log (λ t. views ≡ potential t mentioned.now name.now self.now)) }
        ensures asks { IfOk result (λ _. AsksParts (use_parts self.now) name.now recorder.old.log recorder.new.log) }
        ensures each { IfOk result (λ _. EachOnce self.now) }
        ensures takes_none { self.now ≡ [] → is_ok result ≡ true }
    {
        let mut views = Views::new(self.alloc);
        for (package_name, used) in self.by_package.iter() {
            let opened = ask_used(
                self.alloc,
                mentioned,
                package_name.as_slice(),
                used,
                name,
                recorder,
            )?;
            views.append(opened.as_slice())?;
        }
        Ok(views)
    }
}

/// What a package of use clauses offers under a name. If the package isn't mentioned, it isn't asked.
fn offered_by<A: Answers>(
    alloc: Global,
    mentioned: &Interface,
    package_name: &[u8],
    used: &PackageUse,
    name: &[u8],
    recorder: &mut Recorder<A>,
) -> Result<Views, NoMemory>
    ensures asked { recorder.new.asked ≡ recorder.old.asked }
    ensures answered { IfOk result (λ views. FromAnswers recorder.old.log recorder.new.log (λ t. views ≡ offered_by t mentioned.now name.now (package_name.now, used.now))) }
    ensures asks { IfOk result (λ _. AsksParts (used_part (package_name.now, used.now)) name.now recorder.old.log recorder.new.log) }
{
    if !used.is_mentioned {
        return used.operators_named(alloc, name);
    }
    let part = visible_part_of(alloc, package_name)?;
    let mut declared = Views::new(alloc);
    ask_more(alloc, mentioned, &part, name, &mut declared, recorder)?;
    Ok(declared)
}

/// What use clauses open of what a package offers under a name.
fn ask_used<A: Answers>(
    alloc: Global,
    mentioned: &Interface,
    package_name: &[u8],
    used: &PackageUse,
    name: &[u8],
    recorder: &mut Recorder<A>,
) -> Result<Views, NoMemory>
    ensures asked { recorder.new.asked ≡ recorder.old.asked }
    ensures answered { IfOk result (λ views. FromAnswers recorder.old.log recorder.new.log (λ t. views ≡ opened_by t mentioned.now name.now (package_name.now, used.now))) }
    ensures asks { IfOk result (λ _. AsksParts (used_part (package_name.now, used.now)) name.now recorder.old.log recorder.new.log) }
{
    let offered = offered_by(alloc, mentioned, package_name, used, name, recorder)?;
    let opened = used.opened(alloc, &offered)?;
    Ok(opened)
}
