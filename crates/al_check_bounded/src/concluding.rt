// The result of the check of a unit.
ghost use Rattle.std.specs.Prelude.{◌≡◌, List, IfOk, OnOk};
ghost use Rattle.al_base.specs.declared.unit_key.UnitKey.{UnitKey};
ghost use Rattle.al_view_typed.specs.UnitTrees.{unit_model};
ghost use Rattle.al_query.specs.Asked.{AsksOf};
ghost use Rattle.al_query.specs.Reads.{Agrees, HoldsBy, FromAnswers};
ghost use Rattle.al_unit_graph.specs.Views.{header_model};
ghost use Rattle.al_query_outcome.specs.Defines.{DefinesParts};
ghost use Rattle.al_query_outcome.specs.ReadsLaw.{AsksOthers, NamesOnly};
ghost use Rattle.al_query_outcome.specs.Results.{checked_model};
ghost use Rattle.al_check_bounded.specs.Bounding.{allowed, bounded};
ghost use Rattle.al_check_promises.specs.Laws.{Promised};
ghost use Rattle.al_check_bounded.specs.Verdicts.{IsTold, NamesWithin, sound_of, verdict_of};
ghost use Rattle.al_check_bounded.specs.Within.{concluded};

use crate::finding::{UnitResult, UnitVerdict};
use crate::left::completed_by;
use crate::shown::{shown_views, wanted_of};
use crate::{Bounds, shown_views_are_answered};
use al_base::NoMemory;
use al_check_promises::laws::{faults_are_reported, parts_are_completed, what_is_tested_keeps};
use al_check_promises::{SoundUnit, self_checked};
use al_query::{Answers, ReadLog, Recorder};
use al_query_outcome::Checked;
use al_unit_graph::Header;
use std::alloc::Global;

/// The result of the check of a unit without errors.
fn sound_within<A: Answers>(
    alloc: Global,
    bounds: &Bounds,
    header: &Header,
    sound: SoundUnit,
    log: &ReadLog,
    recorder: &mut Recorder<A>,
) -> Result<Checked, NoMemory>
    requires { HoldsBy recorder.old.log (λ t. Agrees (bounded bounds.now t) log.now) }
    ensures asked { recorder.new.asked ≡ recorder.old.asked }
    ensures answered { IfOk result (λ checked. FromAnswers recorder.old.log recorder.new.log (λ t. checked_model checked ≡ concluded bounds.now (header_model header.now) (sound_of sound) (bounded bounds.now t))) }
    ensures asks { OnOk result (AsksOf bounds.now.known (allowed bounds.now) recorder.old.log recorder.new.log) }
    ensures others { OnOk result (AsksOthers bounds.now.unit recorder.old.log → AsksOthers bounds.now.unit recorder.new.log) }
    ensures names { IfOk result (λ checked. (units : List UnitKey) → NamesWithin units (sound_of sound) → NamesOnly units (checked_model checked)) }
    ensures promised { IfOk result (λ checked. Promised bounds.now.unit recorder.new.log (checked_model checked)) }
    ensures parts { IfOk result (λ checked. HoldsBy recorder.new.log (λ t. DefinesParts bounds.now.unit (header_model header.now) t (checked_model checked))) }
{
    what_is_tested_keeps();
    parts_are_completed();
    shown_views_are_answered();
    let wanted = wanted_of(alloc, bounds)?;
    let shown = shown_views(alloc, bounds, &wanted, log, &sound, recorder)?;
    let complete = completed_by(alloc, bounds, header, &sound, recorder)?;
    recorder.agrees();
    self_checked(
        alloc,
        &bounds.unit,
        shown.views.as_slice(),
        shown.known_kept,
        complete,
        sound,
    )
}

/// The result of the check of a unit, from its verdict and what was asked for it.
pub(crate) fn concluded_within<A: Answers>(
    alloc: Global,
    bounds: &Bounds,
    header: &Header,
    found: UnitResult,
    recorder: &mut Recorder<A>,
) -> Result<Checked, NoMemory>
    requires { HoldsBy recorder.old.log (λ t. Agrees (bounded bounds.now t) found.log) }
    ensures asked { recorder.new.asked ≡ recorder.old.asked }
    ensures answered { IfOk result (λ checked. FromAnswers recorder.old.log recorder.new.log (λ t. checked_model checked ≡ concluded bounds.now (header_model header.now) (verdict_of found.finding) (bounded bounds.now t))) }
    ensures asks { OnOk result (AsksOf bounds.now.known (allowed bounds.now) recorder.old.log recorder.new.log) }
    ensures others { OnOk result (AsksOthers bounds.now.unit recorder.old.log → AsksOthers bounds.now.unit recorder.new.log) }
    ensures names { IfOk result (λ checked. (units : List UnitKey) → NamesWithin units (verdict_of found.finding) → NamesOnly units (checked_model checked)) }
    ensures promised { IfOk result (λ checked. IsTold bounds.now.unit (verdict_of found.finding) → Promised bounds.now.unit recorder.new.log (checked_model checked)) }
    ensures parts { IfOk result (λ checked. HoldsBy recorder.new.log (λ t. DefinesParts bounds.now.unit (header_model header.now) t (checked_model checked))) }
{
    faults_are_reported();
    let UnitResult { finding, log } = found;
    match finding {
        UnitVerdict::Faulty(faults) => Ok(Checked::Faulty(faults)),
        UnitVerdict::Sound(sound) => { sound_within(alloc, bounds, header, sound, &log, recorder) }
    }
}
