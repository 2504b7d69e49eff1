// What units depend on and need, by way of others too.
ghost use Rattle.std.specs.Prelude.{◌≡◌, ◌++◌, ◌∷◌, [], ◌↔◌, ◌⊎◌, map, IfOk, OnOk};
ghost use Rattle.std.specs.List.{Contains, filter, flat_map, fold};
ghost use Rattle.std.specs.BTreeSet.{insert_key};
ghost use Rattle.al_base.specs.Batch.{key_of, Key};
ghost use Rattle.al_unit_graph.specs.Dependence.{direct, DependsOn};
ghost use Rattle.al_unit_graph.specs.Needed.{present, body_of, Needed};
ghost use Rattle.al_base.specs.declared.unit_key.UnitKind.TheVariants.{Sub};
ghost use Rattle.al_base_graph.specs.Closing.{Reached};
ghost use Rattle.al_unit_graph.specs.Closures.{needs, next};
ghost use Rattle.al_unit_graph.specs.Library.{is_unit};
ghost use Rattle.al_unit_graph.specs.Orders.{key_cmp, in_order};
ghost use Rattle.al_unit_graph.specs.Needed.{ListsUnits};

use crate::key_list::{KeyList, copy_of};
use crate::key_set::KeySet;
use crate::source::Sources;
use al_base::{Name, NoMemory, UnitKey, UnitKind};
use std::alloc::Global;

/// The units to which a step from a unit leads.
#[derive(Clone, Copy)]
pub(crate) enum Step {
    /// The units that it depends on.
    Dependence,
    /// The units that it needs in a partition (ARM 10.2(2..7)).
    Need,
}

impl Sources {
    /// What a unit depends on by itself.
    ///
    /// # Errors
    ///
    /// `NoMemory` if the allocator refuses memory.
    pub fn direct(&self, key: &UnitKey) -> Result<Vec<UnitKey>, NoMemory>
        ensures { IfOk result (λ keys. map key_of keys.items ≡ direct self.now (key_of key.now)) }
    {
        match self.unit(key) {
            Some(header) => self.dependences(header),
            None => Ok(Vec::new(self.alloc)),
        }
    }

    /// Adds the unit of this name and kind, if the library has it.
    fn add_present(
        &self,
        name: &[u8],
        kind: UnitKind,
        keys: &mut Vec<UnitKey>,
    ) -> Result<(), NoMemory>
        ensures { OnOk result (map key_of keys.new.items ≡ map key_of keys.old.items ++ present self.now (name.now, kind)) }
    {
        if self.unit_at(name, kind).is_some() {
            let name = Name::from_slice(self.alloc, name)?;
            keys.push(UnitKey { name, kind })?;
        }
        Ok(())
    }

    /// Adds the body of a declaration.
    fn add_body(&self, key: &UnitKey, keys: &mut Vec<UnitKey>) -> Result<(), NoMemory>
        ensures { OnOk result (map key_of keys.new.items ≡ map key_of keys.old.items ++ body_of self.now (key_of key.now)) }
    {
        match key.kind {
            UnitKind::Decl => self.add_present(key.name.as_slice(), UnitKind::Body, keys),
            UnitKind::Body | UnitKind::Sub => Ok(()),
        }
    }

    /// Adds the subunit of a stub.
    fn add_subunit(&self, name: &[u8], stub: &Name, keys: &mut Vec<UnitKey>) -> Result<(), NoMemory>
        ensures { OnOk result (map key_of keys.new.items ≡ map key_of keys.old.items ++ present self.now (name.now ++ 46 ∷ stub.now, Sub)) }
    {
        let mut full = Vec::from_slice(self.alloc, name)?;
        full.push(b'.')?;
        full.extend_from_slice(stub.as_slice())?;
        self.add_present(full.as_slice(), UnitKind::Sub, keys)
    }

    /// Adds the subunits of these stubs.
    fn add_subunits(
        &self,
        name: &[u8],
        stubs: &[Name],
        keys: &mut Vec<UnitKey>,
    ) -> Result<(), NoMemory>
        ensures { OnOk result (map key_of keys.new.items ≡ map key_of keys.old.items ++ flat_map (λ stub. present self.now (name.now ++ 46 ∷ stub, Sub)) stubs.now) }
    {
        for stub in stubs {
            self.add_subunit(name, stub, keys)?;
        }
        Ok(())
    }

    /// What a needed unit needs by itself.
    fn needs(&self, key: &UnitKey) -> Result<Vec<UnitKey>, NoMemory>
        ensures { IfOk result (λ keys. map key_of keys.items ≡ needs self.now (key_of key.now)) }
    {
        let mut keys = self.direct(key)?;
        self.add_body(key, &mut keys)?;
        if let Some(header) = self.unit(key) {
            self.add_subunits(key.name.as_slice(), header.stubs.as_slice(), &mut keys)?;
        }
        Ok(keys)
    }

    /// What one step from a unit leads to.
    fn next(&self, step: Step, key: &UnitKey) -> Result<Vec<UnitKey>, NoMemory>
        ensures { IfOk result (λ keys. map key_of keys.items ≡ next self.now step (key_of key.now)) }
    {
        match step {
            Step::Dependence => self.direct(key),
            Step::Need => self.needs(key),
        }
    }

    /// What the first units lead to by steps, these too. Each unit is looked at once.
    fn reached(&self, step: Step, first: &[UnitKey]) -> Result<Vec<UnitKey>, NoMemory>
        ensures { IfOk result (λ keys. (y : Key) → Contains (map key_of keys.items) y ↔ Reached (next self.now step) (map key_of first.now) y) }
    {
        let mut list = KeyList::new(self.alloc);
        list.add_all(first)?;
        for i in 0..usize::MAX {
            if i >= list.keys.len() {
                return Ok(list.keys);
            }
            let more = self.next(step, &list.keys[i])?;
            list.add_all(more.as_slice())?;
        }
        Ok(list.keys)
    }

    /// Adds a key, if the library has the unit.
    fn add_unit(&self, key: &UnitKey, units: &mut KeySet) -> Result<(), NoMemory>
        ensures { OnOk result (units.new ≡ fold (insert_key key_cmp) units.old (filter (is_unit self.now) (key_of key.now ∷ []))) }
    {
        if self.has_unit(key) {
            units.insert(copy_of(self.alloc, key)?)?;
        }
        Ok(())
    }

    /// The units of the library among these, each once, in the order of the keys.
    #[tactic(auto, unfolding(crate::specs::Orders::in_order))]
    fn units_among(&self, keys: &[UnitKey]) -> Result<Vec<UnitKey>, NoMemory>
        ensures { IfOk result (λ units. map key_of units.items ≡ in_order (filter (is_unit self.now) (map key_of keys.now))) }
    {
        let mut units = KeySet::new(self.alloc);
        for key in keys {
            self.add_unit(key, &mut units)?;
        }
        let list = units.into_keys()?;
        Ok(list)
    }

    /// The units on which a unit depends, by way of others too, in the order of the keys.
    ///
    /// # Errors
    ///
    /// `NoMemory` if the allocator refuses memory.
    pub fn depends(&self, key: &UnitKey) -> Result<Vec<UnitKey>, NoMemory>
        ensures { IfOk result (λ units. ListsUnits self.now (map key_of units.items) (DependsOn self.now (key_of key.now))) }
    {
        let first = self.direct(key)?;
        let keys = self.reached(Step::Dependence, first.as_slice())?;
        let units = self.units_among(keys.as_slice())?;
        Ok(units)
    }

    /// The unit itself and the units on which it depends, by way of others too, in the order of the keys.
    ///
    /// # Errors
    ///
    /// `NoMemory` if the allocator refuses memory.
    pub fn closure(&self, key: &UnitKey) -> Result<Vec<UnitKey>, NoMemory>
        ensures { IfOk result (λ units. ListsUnits self.now (map key_of units.items) (λ y. (key_of key.now ≡ y) ⊎ DependsOn self.now (key_of key.now) y)) }
    {
        let mut first = Vec::new(self.alloc);
        first.push(copy_of(self.alloc, key)?)?;
        let keys = self.reached(Step::Dependence, first.as_slice())?;
        let units = self.units_among(keys.as_slice())?;
        Ok(units)
    }

    /// The units that a partition with this main unit needs (ARM 10.2(2..7)), in the order of the keys.
    ///
    /// # Errors
    ///
    /// `NoMemory` if the allocator refuses memory.
    pub fn needed(&self, main: &[u8]) -> Result<Vec<UnitKey>, NoMemory>
        ensures { IfOk result (λ units. ListsUnits self.now (map key_of units.items) (Needed self.now main.now)) }
    {
        let mut first = Vec::new(self.alloc);
        self.add_declaration(main, &mut first)?;
        let keys = self.reached(Step::Need, first.as_slice())?;
        let units = self.units_among(keys.as_slice())?;
        Ok(units)
    }
}
