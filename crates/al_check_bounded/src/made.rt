// Verdicts, put together from what the walk over a unit left.
ghost use Rattle.std.specs.Prelude.{◌≡◌, [], None, Some, IfOk, if◌then◌else◌};
ghost use Rattle.al_base.specs.declared.diagnostic.Diagnostic.{Diagnostic};
ghost use Rattle.al_base.specs.declared.unit_key.UnitKind.TheVariants.{Sub};
ghost use Rattle.al_view.specs.Symbols.{same_kind};
ghost use Rattle.al_check_bounded.specs.Verdicts.{sound_of, verdict_of};
ghost use Rattle.al_check_bounded.specs.Made.{finding_of, made, unless_wrong};

use crate::UnitVerdict;
use crate::faults::faults_in;
use al_base::{Diagnostic, NoMemory, UnitKey, UnitKind};
use al_check_promises::SoundUnit;
use al_query_outcome::{Parts, Properties};
use al_stmts::FaultList;
use al_view::Seq;
use al_view_typed::{
    DataPlace, Elaboration, ProtectedWords, TypedBody, TypedDeclaration, TypedStatement, TypedUnit,
};
use std::alloc::Global;

/// A unit over which the walk has ended.
#[derive(Drop)]
pub struct WalkedUnit {
    /// The unit.
    pub unit: UnitKey,
    /// What it says of itself.
    pub properties: Properties,
    /// What its parts declare, and its stubs.
    pub parts: Parts,
    /// The line of its first token.
    pub line: usize,
    /// The words of the frame of its elaboration.
    pub frame: u32,
    /// The words of its objects, flags and protected objects.
    pub words: u32,
    /// The places of its objects.
    pub objects: Seq<DataPlace>,
    /// The places of its flags.
    pub flags: Seq<DataPlace>,
    /// The words of its protected objects.
    pub protected_objects: Seq<ProtectedWords>,
    /// What its declarations do at run time, and its statements; a subunit has neither.
    pub declarations: Vec<TypedDeclaration>,
    /// The statements of its elaboration.
    pub statements: Vec<TypedStatement>,
    /// Its bodies.
    pub bodies: Vec<TypedBody>,
}

/// The elaboration of a unit; a subunit has none (ARM 10.2(9)).
fn elaboration_of(unit: &UnitKey, inside: Elaboration) -> Option<Elaboration>
    ensures { result ≡ (if same_kind unit.now.kind Sub then None else Some inside) }
{
    match unit.kind {
        UnitKind::Sub => {
            drop(inside);
            None
        }
        UnitKind::Decl => Some(inside),
        UnitKind::Body => Some(inside),
    }
}

/// A unit without errors.
#[tactic(auto, unfolding(al_view_typed::specs::UnitTrees::unit_model, al_view_typed::specs::UnitTrees::elaboration_model))]
fn sound(walked: WalkedUnit) -> SoundUnit
    ensures { sound_of result ≡ made walked }
{
    let WalkedUnit {
        unit,
        properties,
        parts,
        line,
        frame,
        words,
        objects,
        flags,
        protected_objects,
        declarations,
        statements,
        bodies,
    } = walked;
    let inside = Elaboration {
        line,
        frame,
        declarations,
        statements,
    };
    let elaboration = elaboration_of(&unit, inside);
    SoundUnit {
        properties,
        parts,
        tree: TypedUnit {
            unit,
            elaboration,
            bodies,
            words,
            objects,
            flags,
            protected_objects,
        },
    }
}

/// The errors, if there are any; else the unit.
fn found(wrong: Seq<Diagnostic>, walked: WalkedUnit) -> UnitVerdict
    ensures { verdict_of result ≡ unless_wrong wrong (made walked) }
{
    if wrong.as_slice().is_empty() {
        drop(wrong);
        UnitVerdict::Sound(sound(walked))
    } else {
        drop(walked);
        UnitVerdict::Faulty(wrong)
    }
}

#[tactic(auto, unfolding(crate::specs::Made::finding_of))]
/// The verdict over a unit that was walked, with these errors.
///
/// # Errors
/// `NoMemory` if the allocator refuses memory.
pub fn finding_of(
    alloc: Global,
    faults: FaultList,
    walked: WalkedUnit,
) -> Result<UnitVerdict, NoMemory>
    ensures { IfOk result (λ finding. verdict_of finding ≡ finding_of faults walked) }
{
    match faults_in(alloc, &walked.unit, faults) {
        Ok(wrong) => Ok(found(wrong, walked)),
        Err(error) => {
            drop(walked);
            Err(error)
        }
    }
}
