// Results of earlier builds.
ghost use Rattle.std.specs.Prelude.{◌≡◌};
ghost use Rattle.al_engine.specs.Earlier.{compiled_at};

use crate::compiled::Compiled;
use al_base::{Name, UnitKey};

/// The program of an earlier build, which is kept behind builds that found errors: its main unit, and the only unit whose entry isn't the one that
/// the program's object was made from.
pub struct Earlier {
    pub main: Name,
    pub unit: UnitKey,
    pub compiled: Compiled,
}

impl Drop for Earlier {
    fn drop(self) {
        let Earlier {
            main: _,
            unit: _,
            compiled: _,
        } = self;
    }
}

impl Earlier {
    /// The result of compiling.
    pub(crate) fn into_compiled(self) -> Compiled
        ensures { result ≡ self.compiled }
    {
        let Earlier {
            main: _,
            unit: _,
            compiled,
        } = self;
        compiled
    }
}

/// What a build goes on from: the result of the last build or the earlier one, its main unit, and the only unit that has another entry than then.
pub struct Base {
    pub is_earlier: bool,
    pub main: Name,
    pub unit: UnitKey,
}

impl Drop for Base {
    fn drop(self) {
        let Base {
            is_earlier: _,
            main: _,
            unit: _,
        } = self;
    }
}

/// The earlier result, if it is the one in question and is there, or else the last one.
pub(crate) fn chosen(last: Compiled, earlier: Option<Earlier>, is_earlier: bool) -> Compiled
    ensures { result ≡ compiled_at last earlier is_earlier }
{
    if !is_earlier {
        return last;
    }
    match earlier {
        Some(earlier) => earlier.into_compiled(),
        None => last,
    }
}

impl Base {
    /// What is kept behind a build that found errors: the result from which the build went on.
    pub(crate) fn into_earlier(self, last: Compiled, earlier: Option<Earlier>) -> Earlier
        ensures { result ≡ record { main = self.main; unit = self.unit; compiled = compiled_at last earlier self.is_earlier } }
    {
        let Base {
            is_earlier,
            main,
            unit,
        } = self;
        Earlier {
            main,
            unit,
            compiled: chosen(last, earlier, is_earlier),
        }
    }
}
