// The predefined units.
ghost use Rattle.std.specs.Prelude.{◌≡◌, [], ◌∷◌, ◌++◌, IfOk, OnOk, Some, refl};
ghost use Rattle.std.specs.Option.{option_copied};
ghost use Rattle.al_engine_files.specs.PredefinedUnits.{ada, interface_in, package_of, packages, predefined_answer};

use crate::fixed::FixedAnswers;
use crate::package::{Package, add_package, declaration};
use al_base::{NoMemory, UnitKey};
use al_query::{Answer, Answers, Query};
use al_query_outcome::{UnitInterface, no_answer};
use al_view::{Seq, is_unit};
use std::alloc::Global;
use std::marker::Model;

/// The packages Standard, Ada, `Ada.Text_IO` and `Ada.Real_Time`, with their answers to look-ups. All values of the type give the same answers.
pub struct PredefinedUnits {
    alloc: Global,
    all: Seq<Package>,
}

impl Drop for PredefinedUnits {
    fn drop(self) {
        let PredefinedUnits { alloc: _, all: _ } = self;
    }
}

impl Model for PredefinedUnits {
    ghost use Rattle.std.specs.Prelude.{◌≡◌};
    ghost use Rattle.al_engine_files.specs.PredefinedUnits.{packages};

    ghost Value = { Unit {0} };

    ghost view = { λ p. tt };

    ghost invariant = { λ p. p.all ≡ packages };
}

/// Adds a child of Ada.
fn add_child(
    alloc: Global,
    all: &mut Seq<Package>,
    name: &[u8],
    identifier: &[u8],
) -> Result<(), NoMemory>
    ensures { OnOk result (all.new ≡ all.old ++ package_of name.now identifier.now (Some ada) ∷ []) }
{
    let parent = declaration(alloc, b"ada")?;
    add_package(alloc, all, name, identifier, Some(parent))
}

/// All predefined packages.
#[tactic(auto, unfolding(crate::specs::PredefinedUnits::packages))]
fn packages(alloc: Global) -> Result<Seq<Package>, NoMemory>
    ensures { IfOk result (λ all. all ≡ packages) }
{
    let mut all = Seq::empty(alloc);
    add_package(alloc, &mut all, b"standard", b"standard", None)?;
    add_package(alloc, &mut all, b"ada", b"ada", None)?;
    add_child(alloc, &mut all, b"ada.text_io", b"text_io")?;
    add_child(alloc, &mut all, b"ada.real_time", b"real_time")?;
    Ok(all)
}

/// The interface of this unit's package, among these.
fn interface_in<'a>(all: &'a [Package], unit: &UnitKey) -> Option<&'a UnitInterface>
    ensures { option_copied result ≡ interface_in all.now unit.now }
{
    let package = all.iter().find(|package| is_unit(unit, &package.unit))?;
    Some(&package.interface)
}

impl PredefinedUnits {
    /// The predefined units.
    ///
    /// # Errors
    ///
    /// `NoMemory` if the allocator refuses memory.
    pub fn new(alloc: Global) -> Result<PredefinedUnits, NoMemory> {
        let all = packages(alloc)?;
        Ok(PredefinedUnits { alloc, all })
    }
}

impl Answers for PredefinedUnits {
    ghost table = { λ p. predefined_answer };

    fn ask(&self, query: &Query) -> Result<Answer, NoMemory> {
        match interface_in(self.all.as_slice(), query.unit()) {
            Some(interface) => interface.answer(self.alloc, query),
            None => no_answer(self.alloc, query),
        }
    }
}

impl FixedAnswers for PredefinedUnits {
    ghost answers = { predefined_answer };

    ghost alike = { λ one. refl };
}
