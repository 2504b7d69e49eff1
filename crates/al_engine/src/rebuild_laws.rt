//! A law of builds over entries, as the contract of a function without code.
ghost use Rattle.al_engine.specs.Rebuilds.{RebuildsAreCompiled};

/// A build gives what compiling the same files from nothing gives. It doesn't depend on any entry, earlier build or command.
pub fn rebuilds_are_compiled()
    ensures { RebuildsAreCompiled }
{}
