// The choices of a case statement (ARM 5.4).
ghost use Rattle.std.specs.Prelude.{◌≡◌, IfOk};
ghost use Rattle.al_stmts_right_choices.specs.ChoicesTest.{choices_right};

use al_base::NoMemory;
use al_stmts::{Choice, Selector};
use al_view::Seq;
use std::alloc::Global;

/// Whether the choices of a case statement are right, by its alternatives in order.
/// # Errors
/// `NoMemory` if the allocator refuses memory.
pub fn are_right(
    alloc: Global,
    alternatives: &[Seq<Choice>],
    selector: Selector,
) -> Result<bool, NoMemory>
    ensures { IfOk result (λ right. right ≡ choices_right selector alternatives.now) }
{
    al_stmts::are_right(alloc, alternatives, selector)
}
