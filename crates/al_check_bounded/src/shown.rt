// The views that a unit was shown.
ghost use Rattle.std.specs.Prelude.{◌≡◌, IfOk, IsTrue, OnOk, true};
ghost use Rattle.al_view_typed.specs.UnitTrees.{unit_model};
ghost use Rattle.al_query.specs.Asked.{AsksOf};
ghost use Rattle.al_query.specs.Reads.{Agrees, HoldsBy, FromAnswers};
ghost use Rattle.al_query_outcome.specs.ReadsLaw.{AsksOthers};
ghost use Rattle.al_query_outcome.specs.Tables.{interface_of};
ghost use Rattle.al_check_promises.specs.SelfChecks.{is_kept};
ghost use Rattle.al_check_bounded.specs.Bounding.{allowed, bounded};
ghost use Rattle.al_check_bounded.specs.Questions.{shown_by};
ghost use Rattle.al_check_bounded.specs.Within.{IsAsGood, wanted_of};

use crate::segments::segments_of;
use crate::{Bounded, Bounds, Wanted, asked_again, recorded_views, replay};
use al_base::NoMemory;
use al_check_promises::{SoundUnit, is_kept};
use al_query::{Answers, ReadLog, Recorder};
use al_view::{Seq, View};
use std::alloc::Global;

/// The questions that may show the unit what it uses of others.
pub(crate) fn wanted_of(alloc: Global, bounds: &Bounds) -> Result<Wanted, NoMemory>
    ensures { IfOk result (λ wanted. wanted ≡ wanted_of bounds.now) }
{
    Ok(Wanted {
        units: bounds.known.copy(alloc)?,
        stubs: segments_of(alloc, bounds.unit.name.as_slice())?,
        names: bounds.names.copy(alloc)?,
    })
}

/// The views in the answers to all of these questions, asked within the bounds.
fn asked_within<A: Answers>(
    alloc: Global,
    bounds: &Bounds,
    wanted: &Wanted,
    recorder: &mut Recorder<A>,
) -> Result<Seq<View>, NoMemory>
    ensures asked { recorder.new.asked ≡ recorder.old.asked }
    ensures answered { IfOk result (λ views. FromAnswers recorder.old.log recorder.new.log (λ t. views ≡ shown_by wanted.now (bounded bounds.now t))) }
    ensures asks { OnOk result (AsksOf bounds.now.known (allowed bounds.now) recorder.old.log recorder.new.log) }
    ensures others { OnOk result (AsksOthers bounds.now.unit recorder.old.log → AsksOthers bounds.now.unit recorder.new.log) }
{
    let mut inner = Recorder::new(
        alloc,
        Bounded {
            alloc,
            asked: recorder.source(),
            bounds,
        },
    );
    let views = asked_again(alloc, wanted, &mut inner)?;
    let log = inner.into_log();
    replay(bounds, &log, recorder)?;
    Ok(views)
}

/// Views that were shown, and whether it is known that a unit is kept with them.
#[derive(Drop)]
pub(crate) struct ShownViews {
    pub(crate) views: Seq<View>,
    pub(crate) known_kept: bool,
}

/// Views that were shown, with which a sound unit is kept where it is with all that can be shown: those that were recorded, where they do,
/// or else all.
pub(crate) fn shown_views<A: Answers>(
    alloc: Global,
    bounds: &Bounds,
    wanted: &Wanted,
    log: &ReadLog,
    sound: &SoundUnit,
    recorder: &mut Recorder<A>,
) -> Result<ShownViews, NoMemory>
    requires { HoldsBy recorder.old.log (λ t. Agrees (bounded bounds.now t) log.now) }
    ensures asked { recorder.new.asked ≡ recorder.old.asked }
    ensures kept { IfOk result (λ shown. IsTrue shown.known_kept → is_kept bounds.now.unit shown.views (interface_of sound.now.properties sound.now.parts) (unit_model sound.now.tree) ≡ true) }
    ensures answered { IfOk result (λ shown. FromAnswers recorder.old.log recorder.new.log (λ t. IsAsGood bounds.now (interface_of sound.now.properties sound.now.parts) (unit_model sound.now.tree) shown.views (shown_by wanted.now (bounded bounds.now t)))) }
    ensures asks { OnOk result (AsksOf bounds.now.known (allowed bounds.now) recorder.old.log recorder.new.log) }
    ensures others { OnOk result (AsksOthers bounds.now.unit recorder.old.log → AsksOthers bounds.now.unit recorder.new.log) }
{
    let recorded = recorded_views(alloc, wanted, log)?;
    let kept = is_kept(alloc, &bounds.unit, recorded.as_slice(), sound)?;
    if kept {
        return Ok(ShownViews {
            views: recorded,
            known_kept: true,
        });
    }
    drop(recorded);
    let views = asked_within(alloc, bounds, wanted, recorder)?;
    Ok(ShownViews {
        views,
        known_kept: false,
    })
}
