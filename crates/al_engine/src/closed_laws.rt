//! Laws of what a build links, as contracts of functions without code.
ghost use Rattle.al_engine.specs.RebuildPartitions.{PartitionsAreClosed};

use crate::code_symbols_laws::objects_have_their_trees_symbols;
use crate::link_closed_laws::all_is_defined;
use crate::link_needed_laws::needed_are_placed;
use al_engine_refresh::order_laws::order_is_for_builds;

/// If a build finds no error in the files, and the partition lacks nothing, then what it plans to link is closed, whatever the checker is and
/// whatever entries there were before.
pub fn partitions_are_closed()
    ensures { PartitionsAreClosed }
{
    all_is_defined();
    needed_are_placed();
    objects_have_their_trees_symbols();
    order_is_for_builds();
}
