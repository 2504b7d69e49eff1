// What is known of every session. The functions have no code: their contracts are the laws.
ghost use Rattle.al_session_served.specs.Orders.{BuildsAreRight, SessionsAreOne, SessionsAreOrdered};

use crate::library::UnitLibrary;

/// The names of a library's files are sorted, and so are those of its last build's files, whatever the commands were.
pub fn sessions_are_ordered<L: UnitLibrary>()
    ensures { SessionsAreOrdered L.meaning }
{}

/// The result of the last build is that of compiling its files from an empty library, whatever the commands were.
pub fn builds_are_right<L: UnitLibrary>()
    ensures { BuildsAreRight L.meaning }
{}

/// The result of a session is unique: the input, and which commands ran out of memory, determine its replies, the library that it leaves and how it
/// ends.
pub fn sessions_are_one<L: UnitLibrary>()
    ensures { SessionsAreOne L.meaning }
{}
