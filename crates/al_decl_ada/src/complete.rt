// Marks that need a type with its full declaration.
ghost use Rattle.std.specs.Prelude.{◌≡◌};
ghost use Rattle.al_decl_ada.specs.Complete.{completed, is_incomplete};

use al_base::{Place, UnitKey};
use al_base_fault::{CheckResult, CheckRule, Fault};
use al_scope::is_private;
use al_view::{SubtypeView, is_unit};

/// Whether a type is a private type of the unit itself of which only the partial view is seen yet.
fn is_incomplete(unit: &UnitKey, of: &SubtypeView) -> bool
    ensures { result ≡ is_incomplete unit.now of.now }
{
    if !is_unit(unit, &of.subtype.base.unit) {
        return false;
    }
    match of.types.find(&of.subtype.base) {
        Some(own) => is_private(&own.definition),
        None => false,
    }
}

/// A mark at that place in a unit: E310 if its type has no full declaration yet.
pub(crate) fn completed(
    unit: &UnitKey,
    place: Place,
    mark: CheckResult<SubtypeView>,
) -> CheckResult<SubtypeView>
    ensures { result ≡ completed unit.now place mark }
{
    match mark {
        Ok(of) => {
            if is_incomplete(unit, &of) {
                drop(of);
                return Err(Fault {
                    place,
                    rule: CheckRule::NotComplete,
                });
            }
            Ok(of)
        }
        Err(fault) => Err(fault),
    }
}
