// Which units a build checks again.
ghost use Rattle.std.specs.Prelude.{◌≡◌, false, IfOk, length};
ghost use Rattle.al_query_store.specs.Keyed.{settled_at};
ghost use Rattle.al_engine_refresh.specs.EntryLaw.{AllKeepLaw};
ghost use Rattle.al_engine_refresh.specs.Moves.{IsLeft};
ghost use Rattle.al_engine_refresh.specs.Builds.{raised};
ghost use Rattle.al_engine.specs.Rechecks.{AreReady, HasOrder, IsUpdated};

use crate::sorted::in_key_order;
use al_base::{NoMemory, UnitKey};
use al_engine_refresh::{KeptEntries, refresh};
use al_query::Answers;
use al_query_outcome::UnitCheck;
use al_unit_graph::Sources;
use std::alloc::Global;

/// What a build did to the entries.
pub struct Rechecked {
    /// The units that were checked, by unit and kind.
    pub checked: Vec<UnitKey>,
    /// How many stored answers were compared, to 2^64-1.
    pub compared: usize,
    /// Whether it is known that only edited units have other entries than before.
    pub is_renewal: bool,
}

impl Drop for Rechecked {
    fn drop(self) {
        let Rechecked {
            checked: _,
            compared: _,
            is_renewal: _,
        } = self;
    }
}

impl Rechecked {
    /// The units that were checked, and how many stored answers were compared.
    pub fn into_parts(self) -> (Vec<UnitKey>, usize)
        ensures { result ≡ (self.checked, self.compared) }
    {
        let Rechecked {
            checked,
            compared,
            is_renewal: _,
        } = self;
        (checked, compared)
    }
}

/// Brings the units of a library up to date, in an order of dependence. The entries of the last build are unchanged.
///
/// # Errors
///
/// `NoMemory` if the allocator refuses memory.
pub fn recheck<C: UnitCheck, P: Answers>(
    alloc: Global,
    checker: &mut C,
    predefined: &P,
    sources: &Sources,
    order: &[UnitKey],
    entries: &mut KeptEntries,
) -> Result<Rechecked, NoMemory>
    requires law { AllKeepLaw C.meaning C.Text.header (settled_at entries.old) }
    requires ready { AreReady (P.table predefined.now) entries.old }
    requires order { HasOrder C.Text.header (P.table predefined.now) sources.now order.now }
    ensures updated { IfOk result (λ r. IsUpdated C.meaning C.Text.header (P.table predefined.now) sources.now entries.old entries.new r.checked.items r.compared) }
    ensures whole { IfOk result (λ r. r.is_renewal ≡ false) }
    ensures counted { IfOk result (λ r. C.count checker.new ≡ raised (C.count checker.old) (length r.checked.items)) }
    ensures left { IsLeft entries.old entries.new }
{
    let done = refresh(alloc, checker, predefined, sources, order, entries)?;
    let (checked, compared) = done.into_parts();
    let checked = in_key_order(alloc, checked.as_slice())?;
    Ok(Rechecked {
        checked,
        compared,
        is_renewal: false,
    })
}
