//! Laws of libraries, as contracts of functions without code.
ghost use Rattle.al_engine.specs.LawBuilds.{BuildsTellOneThing};
ghost use Rattle.al_engine.specs.Renewals.{RenewalsAreRechecked};

use crate::ReadFiles;
use crate::batch_laws::reply_is_one;
use al_query::Answers;
use al_query_outcome::UnitCheck;

/// Builds of the same files and the same main unit give the same result, whatever edits, builds and entries there were before. So a build gives what
/// it gives in a library that had no file and no entry before.
pub fn builds_tell_one_thing<R: ReadFiles, C: UnitCheck, P: Answers>(predefined: &P)
    ensures { BuildsTellOneThing C P C.meaning C.Text.header C.count (P.table predefined.now) R.library }
{
    reply_is_one();
}

/// If the entries are those that a build made, and since then only the sources of some units were edited, and new entries of these units reach nobody
/// else, then the next build makes exactly these: each for its source, with the answers of now.
pub fn renewals_are_rechecked()
    ensures { RenewalsAreRechecked }
{}
