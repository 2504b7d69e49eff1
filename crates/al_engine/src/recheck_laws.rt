//! Laws of the entries after a build, as contracts of functions without code.
ghost use Rattle.al_engine.specs.Rechecks.{StayingAreSettled, UpdatesAreReady};

/// A unit that a build reached has an entry for its source with the answers of now, and its outcome. A unit of the library that it didn't reach has
/// the same entry as before, if any. A unit that isn't in the library has none.
pub fn staying_are_settled()
    ensures { StayingAreSettled }
{}

/// Once a build is settled, no entry was made since; the marks say which stored answers differ from those of the units that the build reached; and
/// exactly these units are recorded as reached.
pub fn updates_are_ready()
    ensures { UpdatesAreReady }
{}
