// What is known of every session over Ada units, for every checker. The functions do nothing: their contracts are the laws.
ghost use Rattle.al_session_served.specs.Library.{IsSettled};
ghost use Rattle.al_session_served.specs.Orders.{BuildsAreRight, SessionsAreOne, SessionsAreOrdered};
ghost use Rattle.al_session.specs.Meanings.{library_meaning};
ghost use Rattle.al_session.specs.Reports.{ReportsAscend};

use crate::engine::Engine;
use al_engine_refresh::found_laws::findings_ascend;
use al_query_outcome::UnitCheck;

/// The result of compiling files for a main unit is unique, and so is the output of a run of its image.
pub fn builds_are_settled<C: UnitCheck>()
    ensures { IsSettled (library_meaning C.meaning C.Text.header) }
{}

/// The result of a session is unique: the input, and which commands ran out of memory, determine its replies, the library that it leaves and how it
/// ends.
pub fn sessions_are_one<C: UnitCheck>()
    ensures { SessionsAreOne (library_meaning C.meaning C.Text.header) }
{
    al_session_served::sessions_are_one::<Engine<C>>();
}

/// The names of a library's files are sorted, and so are those of its last build's files, whatever the commands were.
pub fn sessions_are_ordered<C: UnitCheck>()
    ensures { SessionsAreOrdered (library_meaning C.meaning C.Text.header) }
{
    al_session_served::sessions_are_ordered::<Engine<C>>();
}

/// The result of the last build is that of compiling its files from an empty library, whatever the commands were.
pub fn builds_are_right<C: UnitCheck>()
    ensures { BuildsAreRight (library_meaning C.meaning C.Text.header) }
{
    al_session_served::builds_are_right::<Engine<C>>();
}

/// The diagnostics of the last build are sorted by file, place and code, without duplicates, whatever the commands were.
pub fn reports_ascend<C: UnitCheck>()
    ensures { ReportsAscend C.meaning C.Text.header }
{
    sessions_are_ordered::<C>();
    builds_are_right::<C>();
    findings_ascend();
}
