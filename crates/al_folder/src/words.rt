// The commands of a watch.
ghost use Rattle.std.specs.Prelude.{◌≡◌};
ghost use Rattle.al_folder.specs.Words.{watch_word};

/// What a line of the standard input asks for during a watch.
#[derive(Clone, Copy)]
pub enum WatchWord {
    /// A build.
    Build,
    /// A build and a run.
    Run,
    /// A build and its order of elaboration.
    Order,
    /// The units that are obsolete since the last build.
    Obsolete,
    /// The end of the watch.
    Quit,
    /// The line isn't a command.
    Unknown,
}

/// What the line asks for. An empty one asks for a build.
pub fn watch_word(line: &[u8]) -> WatchWord
    ensures { result ≡ watch_word line.now }
{
    if line == b"".as_slice() {
        return WatchWord::Build;
    }
    if line == b"run".as_slice() {
        return WatchWord::Run;
    }
    if line == b"order".as_slice() {
        return WatchWord::Order;
    }
    if line == b"obsolete".as_slice() {
        return WatchWord::Obsolete;
    }
    if line == b"quit".as_slice() {
        return WatchWord::Quit;
    }
    WatchWord::Unknown
}
