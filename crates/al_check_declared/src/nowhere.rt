// The error at a place where no declaration or statement can be.
ghost use Rattle.std.specs.Prelude.{◌≡◌};
ghost use Rattle.al_check_declared.specs.Nowhere.{not_yet_fault};

use al_base::Place;
use al_base_fault::{CheckRule, Fault};

/// The error outside of all regions, and of a function's value outside of any function.
pub fn not_yet_fault() -> Fault
    ensures { result ≡ not_yet_fault }
{
    let place = Place { line: 1, col: 1 };
    let rule = CheckRule::NotYet;
    Fault { place, rule }
}
