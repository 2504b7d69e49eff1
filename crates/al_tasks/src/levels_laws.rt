// A law of levels, as the contract of a function without code.
ghost use Rattle.al_tasks.specs.Levels.{AheadIsAbove, LevelsFall, PlacesTellWhoIsAhead};

use crate::exclusion;

/// For the program of any image, after any list of events:
/// - `levels`: the levels of the ready tasks never rise from one to the next, so the task on the processor has the highest one (ARM D.2.1).
/// - `places`: places alone say who is ahead of whom. A ready task of a higher level, or of the same level and nearer to its head, is nearer to the
///   beginning of the list (ARM D.2.2).
/// - `above`: if a task is inside an object, every task ahead of it has a base priority above its level (ARM D.3).
pub fn ahead_is_above()
    ensures levels { LevelsFall }
    ensures places { PlacesTellWhoIsAhead }
    ensures above { AheadIsAbove }
{
    exclusion();
}
