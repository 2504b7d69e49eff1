// The parts of declarations.
ghost use Rattle.al_decl_ada.specs.AdaPartReading.{parts_read};

use crate::value::{bound_at, initial_at, number_at, priority_at};
use crate::{index_at, indication_at};
use al_base::{NoMemory, UnitKey};
use al_base_fault::CheckResult;
use al_decl::PartAnalyzer;
use al_overload_nodes::Labeller;
use al_overload_values::{Site, name_mark_at};
use al_query::{Answers, Recorder};
use al_scope::Scope;
use al_tree::{CompoundName, DiscreteRange, Expression, SubtypeIndication};
use al_view::SubtypeView;
use al_view_typed::Typed;
use std::alloc::Global;

/// What is the same for the declarations of a part: what every unit has, the protected object in whose bodies they are if any, and the
/// packages that are mentioned in the unit.
#[derive(Drop)]
pub struct AdaPartAnalyzer<'a> {
    /// What labels terms: what every unit has, and the protected object.
    pub labeller: &'a Labeller,
    /// The packages that are mentioned in the unit.
    pub packages: &'a [UnitKey],
    /// The unit of the declarations.
    pub unit: &'a UnitKey,
}

#[tactic(auto, unfolding(crate::specs::AdaPartReading::parts_read))]
impl PartAnalyzer for AdaPartAnalyzer<'_> {
    ghost reading = { λ p t. parts_read t p.packages.now p.labeller.now.predefined p.labeller.now.own p.unit.now };

    fn mark<A: Answers>(
        &self,
        alloc: Global,
        scope: &Scope,
        mark: &CompoundName,
        recorder: &mut Recorder<A>,
    ) -> Result<CheckResult<SubtypeView>, NoMemory> {
        name_mark_at(alloc, scope, self.packages, mark, recorder)
    }

    fn indication<A: Answers>(
        &self,
        _alloc: Global,
        scope: &Scope,
        indication: &SubtypeIndication,
        recorder: &mut Recorder<A>,
    ) -> Result<CheckResult<SubtypeView>, NoMemory> {
        let site = Site {
            labeller: self.labeller,
            scope,
            packages: self.packages,
        };
        indication_at(&site, self.unit, indication, recorder)
    }

    fn index<A: Answers>(
        &self,
        _alloc: Global,
        scope: &Scope,
        index: &DiscreteRange,
        recorder: &mut Recorder<A>,
    ) -> Result<CheckResult<SubtypeView>, NoMemory> {
        let site = Site {
            labeller: self.labeller,
            scope,
            packages: self.packages,
        };
        index_at(&site, self.unit, index, recorder)
    }

    fn value<A: Answers>(
        &self,
        _alloc: Global,
        scope: &Scope,
        of: &SubtypeView,
        value: &Expression,
        recorder: &mut Recorder<A>,
    ) -> Result<CheckResult<Typed>, NoMemory> {
        let site = Site {
            labeller: self.labeller,
            scope,
            packages: self.packages,
        };
        initial_at(&site, of, value, recorder)
    }

    fn number<A: Answers>(
        &self,
        _alloc: Global,
        scope: &Scope,
        value: &Expression,
        recorder: &mut Recorder<A>,
    ) -> Result<CheckResult<Typed>, NoMemory> {
        let site = Site {
            labeller: self.labeller,
            scope,
            packages: self.packages,
        };
        number_at(&site, value, recorder)
    }

    fn bound<A: Answers>(
        &self,
        _alloc: Global,
        scope: &Scope,
        bound: &Expression,
        recorder: &mut Recorder<A>,
    ) -> Result<CheckResult<Typed>, NoMemory> {
        let site = Site {
            labeller: self.labeller,
            scope,
            packages: self.packages,
        };
        bound_at(&site, bound, recorder)
    }

    fn priority<A: Answers>(
        &self,
        _alloc: Global,
        scope: &Scope,
        value: &Expression,
        recorder: &mut Recorder<A>,
    ) -> Result<CheckResult<Typed>, NoMemory> {
        let site = Site {
            labeller: self.labeller,
            scope,
            packages: self.packages,
        };
        priority_at(&site, value, recorder)
    }
}
