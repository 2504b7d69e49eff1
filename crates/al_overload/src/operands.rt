// Lists of operands.
ghost use Rattle.std.specs.Prelude.{◌≡◌, map, IfOk};
ghost use Rattle.al_overload.specs.Counts.{plain, plain_all};
ghost use Rattle.al_overload.specs.HeadsHeads.{trees_of};

use crate::{Expression, Operands};
use al_base::NoMemory;
use std::alloc::Global;

/// These heads as operands, in their order.
#[tactic(auto, using(crate::proofs::Gathered::last_before))]
pub(crate) fn gathered(alloc: Global, heads: Vec<Expression>) -> Result<Operands, NoMemory>
    ensures { IfOk result (λ operands. plain_all operands ≡ trees_of (map plain heads.items)) }
{
    let mut heads = heads;
    let mut operands = Operands::none();
    while let Some(head) = heads.pop() {
        operands = Operands::before(alloc, head, operands)?;
    }
    Ok(operands)
}
